//! An assembler for RV32IMA, and a writer of executables. Instructions and jumps to labels become the words of a program,
//! of which the first stands at 0x10054. A program and the names of its routines become a file of the ELF gABI. A program
//! that is being written is seen as a draft: its lines and its labels.
#![tactic(auto)]

mod assembly;
mod builder;
mod error;
mod executable;
mod fields;
mod headers;
mod limits;
mod line;
mod symbols;

pub use builder::{Builder, Code, Label};
pub use error::AsmError;
pub use executable::{ENTRY, Symbol, write_exec};
pub use limits::PROGRAM_LINES;
