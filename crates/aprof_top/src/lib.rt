//! The top call: it reads the words of a command line, loads its files, runs the guest or reads a stored trace, and stores the
//! report.
#![tactic(auto)]

mod cache_job;
mod contexts_job;
mod delivery;
mod demo;
mod ending;
mod guest_command;
mod guest_job;
mod laws;
mod loaded;
mod loads;
mod preparation;
mod profiled_run;
mod replay_job;
mod report;
mod run_job;
mod source;
mod summary;
mod texts;
mod top;
mod trace_job;
mod trace_names;

pub use laws::{
    a_command_has_an_outcome, a_command_has_one_outcome, contexts_are_a_tree,
    contexts_begin_with_the_report, kernel_calls_cost_by_their_bytes, program_limits_are_promised,
    runs_are_bounded, stored_reports_are_valid, traces_replay, two_runs_agree,
};
pub use top::aprof;
