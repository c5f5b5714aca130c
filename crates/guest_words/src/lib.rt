//! The words that every crate speaks: addresses and memory words of a 32-bit guest, thread numbers, the faults of
//! an instruction, how a run ends, names of routines, little-endian fields, short lists of threads, and the
//! words of a text. `limits` has the limits of the program.
#![tactic(auto)]

mod addresses;
mod by_thread;
mod endings;
mod fields;
pub mod limits;
mod name;
mod ready;
mod rights;
mod text_words;
mod threads;

pub use addresses::{Addr, MEMORY_WORDS, MMAP_BASE, PAGE_SIZE, PAGE_WORDS, Word, words_over};
pub use by_thread::ByThread;
pub use endings::{FaultKind, Finish};
pub use fields::{le16, le32, put_le32};
pub use name::{Name, NameError, are_visible};
pub use ready::ReadyList;
pub use rights::Rights;
pub use text_words::{cut, decimal_number, first_number, push_decimal, wide_decimal_number};
pub use threads::Tid;
