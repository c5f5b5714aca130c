//! Executables: files of the ELF gABI for 32 bits (Elf32_Ehdr, Elf32_Phdr, Elf32_Shdr, Elf32_Sym), lowest byte first, with
//! the flags of the RISC-V ELF psABI.
//!
//! Contracts see an image as its entry, its segments, the place of its program headers and the names of its addresses.
#![tactic(auto)]

mod error;
mod header_checks;
mod headers;
mod image;
mod layout;
mod loading;
mod names;
mod reader;
mod segments;
mod symbol_names;
mod symbols;

pub use error::ElfError;
pub use headers::PROGRAM_HEADER_SIZE;
pub use image::{Image, Segment};
pub use reader::read_image;
