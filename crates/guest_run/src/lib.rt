//! A run of a guest, turn by turn: which thread moves next, and one step of it, whose bytes go out and whose events go to an
//! observer, up to the end of the run.
//!
//! Contracts see a run as its list of moves and how it ended (specs/Run.antt), and the observed run as the part of it up to
//! the first event that does not fit the observer (specs/ObservedRun.antt).
#![tactic(auto)]

mod laws;
mod run;
mod run_error;
mod stepper;
mod turn_status;
mod turns;

pub use guest_kernel::Channel;
pub use laws::{
    recordings_are_schedules, runs_replay, runs_stay_within, runs_tell_in_range,
    traces_are_well_formed,
};
pub use run::{Ended, run_guest};
pub use run_error::RunError;
pub use turn_status::TurnStatus;
