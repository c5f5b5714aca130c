//! The demo: a guest of many small routines, each of which is called once, as an executable. The code is written by the
//! assembler, and the names of the routines are its symbols.
#![tactic(auto)]

mod code;
mod demo;
mod names;
mod program;

pub use demo::{a_demo_has_one_file, demo_image};
