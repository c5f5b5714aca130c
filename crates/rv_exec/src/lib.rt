//! What one instruction of RV32IMA and FENCE.I does to registers, memory and reservations, by the RISC-V Instruction Set
//! Manual, Volume I: Unprivileged Architecture.
//!
//! The registers of a thread are seen as one value, the program counter and the list of x0 to x31.
#![tactic(auto)]

mod atomics;
mod bytes;
mod counter;
mod cpu;
mod instruction;
mod laws;
mod loads_and_stores;
mod operations;
mod outcome;

pub use counter::{Counter, Cursor};
pub use cpu::Cpu;
pub use instruction::{execute, execute_plain, execute_reading, jump_and_link};
pub use laws::every_instruction;
pub use loads_and_stores::{load_word, load_words, store_word, store_words};
pub use operations::add_offset;
pub use outcome::{Access, Outcome};
