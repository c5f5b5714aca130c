//! Traces that are stored: the trace of a run, written while the run goes, and the profile of a stored trace.
//!
//! What writes a trace observes events. It has their text as long as that is no longer than a limit, and the entries of the
//! activations that began, and takes all pasts whose open activations stamps of 32 bits tell apart, as a profile by such stamps
//! does. The events of a stored trace are read piece by piece and handed to a profiler, and none of them is kept.
#![tactic(auto)]

mod entries;
mod replaying;
mod run_trace;
mod written;

pub use replaying::{Replayed, TraceProfile, replay};
pub use run_trace::RunTrace;
pub use written::EventText;
