//! Words of the instruction table, read and written.
use anyhow::Result;
use rv_isa::{decode, encode};
use std::alloc::Global;

/// The instruction of the word, and the word of the instruction.
pub fn answer(alloc: Global, row: &str) -> Result<String> {
    match decode(u32::from_str_radix(row, 16)?) {
        None => Ok(String::from_str(alloc, "none")?),
        Some(instruction) => match encode(instruction) {
            None => Ok(format!(in alloc; "{instruction:?}, which has no word")?),
            Some(word) => Ok(format!(in alloc; "{instruction:?} {word:08x}")?),
        },
    }
}
