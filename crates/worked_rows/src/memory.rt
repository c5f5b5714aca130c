//! The pages of a guest's memory.
use anyhow::{Context, Result};
use guest_memory::{GuestMemory, MemError, Size};
use guest_words::Rights;
use std::alloc::Global;

// What a call on the memory gives.
fn text_of<T: Drop>(alloc: Global, answer: Result<T, MemError>) -> Result<String> {
    match answer {
        Ok(_) => Ok(String::from_str(alloc, "done")?),
        Err(refusal) => Ok(format!(in alloc; "{refusal:?}")?),
    }
}

/// Maps pages that can be read, from a page on, or says why not.
pub fn map(alloc: Global, memory: &mut GuestMemory, row: &str) -> Result<String> {
    let (page, count) = row.split_once(' ').context("no count")?;
    let (page, count) = (
        u32::from_str_radix(page, 16)?,
        u32::from_str_radix(count, 16)?,
    );
    if page > 0x8_0000 || count > 0x8_0000 || !memory.is_free(page, count) {
        return Ok(String::from_str(alloc, "not free")?);
    }
    let rights = Rights {
        read: true,
        write: false,
        exec: false,
    };
    text_of(alloc, memory.map(page, count, rights))
}

/// Loads a word, or says why not.
pub fn load(alloc: Global, memory: &GuestMemory, row: &str) -> Result<String> {
    let at = u32::from_str_radix(row, 16)?;
    text_of(alloc, memory.load(at, Size::Four))
}
