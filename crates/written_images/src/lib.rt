//! What the reader of executables makes of the files that the assembler writes.
#![tactic(auto)]

mod laws;

pub use laws::{written_files_are_accepted, written_names_are_read};
