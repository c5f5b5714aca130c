//! Turns: which thread of the guest runs next and how long, by a schedule or in rotation, and the recording of the turns
//! that were made. Contracts see a schedule and a recording as lists of entries, and a scheduler as what it knows.
#![tactic(auto)]

mod entry;
mod laws;
mod recording;
mod schedule;
mod turns;

pub use entry::Entry;
pub use laws::{a_recording_is_read_as_its_turns, a_text_reads_in_one_way};
pub use recording::Recording;
pub use schedule::{Schedule, ScheduleError};
pub use turns::{Sched, Turn};
