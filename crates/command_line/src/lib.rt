//! The words of the command line, `aprof run ...`, `aprof trace ...`, `aprof cache ...`, `aprof contexts ...`,
//! `aprof replay ...` or `aprof demo N`, read by one fixed `clap` command. What they ask for is `asked_of` the words, a function
//! of the rows that `clap` states for that command; where `clap`'s stated test does not take the words, they may be refused
//! instead.
#![tactic(auto)]

mod analysis;
mod app;
mod commands;
mod guest_command;
mod guest_options;
mod laws;
mod matches;
mod numbers;
mod replay_command;

pub use analysis::{Analysis, RunOptions};
pub use commands::{Command, CommandError, read_command};
pub use guest_command::GuestCommand;
pub use guest_options::{DEFAULT_BUDGET, DEFAULT_QUANTUM, GuestOptions};
pub use laws::{
    plain_demo_is_read, plain_demo_is_taken, plain_numbers_are_refused, plain_options_are_read,
    plain_replays_are_read, plain_replays_are_taken, plain_words_are_taken,
    taken_words_fail_by_numbers,
};
pub use replay_command::ReplayCommand;
