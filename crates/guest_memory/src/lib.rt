//! The memory of a 32-bit guest: pages of 4096 bytes, each mapped with rights or not, in a space of 2^32 bytes, and the
//! words that threads have reserved, by load-reserved of the RISC-V unprivileged ISA manual.
//!
//! Memory is seen as two maps, from pages to rights and from addresses to bytes; reservations as one, from threads to
//! words.
#![tactic(auto)]

mod byte_ranges;
mod code_cache;
mod code_page;
mod decoded;
mod directory;
mod memory;
mod page_ranges;
mod refusal;
mod reservations;
mod size;

pub use code_page::{CodePage, find_word};
pub use decoded::Decoded;
pub use memory::GuestMemory;
pub use refusal::MemError;
pub use reservations::Reservations;
pub use size::Size;
