//! The limit of a program.

/// How many lines a program can have, and how many labels, so that each offset of a jump is a number of 32 bits.
pub const PROGRAM_LINES: usize = 4_000_000;
