//! The machine that runs a guest: the live threads with their registers, the kernel, memory and reservations, and one step
//! of one thread. Instructions are those of the RISC-V unprivileged ISA manual, calls those of Linux on riscv32, and
//! the start is that of the ELF gABI and the System V ABI.
//!
//! Contracts see a machine as one state (specs/Machine.antt), `step` as one definition (specs/Step.antt), and a new machine
//! as the start state (specs/Start.antt).
#![tactic(auto)]

mod answers;
mod hart;
mod image_pages;
mod known;
mod laws;
mod machine;
mod making;
mod rows;
mod setup;
mod stack;
mod start_memory;
mod step_events;
mod step_row;
mod stepped;
mod stepping;
mod telling;
mod waking;

pub use laws::{
    every_step_is_in_range, every_step_is_short, every_step_is_traced, every_waking_ends,
};
pub use machine::Machine;
pub use rows::KnownSteps;
pub use setup::SetupError;
pub use stepped::{Advanced, Stepped};
pub use telling::observe_told;
