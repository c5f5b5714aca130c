//! Byte addresses and the aligned words that hold the bytes.
ghost use Rattle.std.specs.Prelude.{◌≡◌, ℕ, ◌+◌, ◌/◌, ◌^◌, ◌<◌, ◌≤◌};
ghost use Rattle.guest_words.specs.Words.{word_count, IsLeastRange};

use std::marker::Model;

/// A byte address of the guest.
pub type Addr = u32;

/// How many bytes a page of the guest's memory has.
pub const PAGE_SIZE: u32 = 4096;

/// How many words a page has.
pub const PAGE_WORDS: usize = 1024;

/// How many words the guest's memory has: 2^32 bytes.
pub const MEMORY_WORDS: u32 = 1 << 30;

/// Where the mappings that a guest asks for begin. Segments, and the program break, stay below.
pub const MMAP_BASE: Addr = 0x4000_0000;

/// The number of an aligned 32-bit word of guest memory, below 2^30: its first byte stands at four times the number.
#[derive(Clone, Copy, Debug, PartialEq, Eq, PartialOrd, Ord)]
pub struct Word(u32);

impl Model for Word {
    ghost Value = { ℕ };

    ghost view = { λ w. w.0 };

    ghost invariant = { λ w. w.0 < 2 ^ 30 };

    ghost inverse = { λ n. record { 0 = n } };
}

impl Word {
    /// The word that holds the byte at an address.
    pub fn of(at: Addr) -> Word
        ensures { result ≡ at / 4 }
    {
        Word(at / 4)
    }

    /// The number of the word.
    pub fn number(self) -> u32
        ensures same { result ≡ self }
        ensures range { result < 2 ^ 30 }
    {
        self.0
    }
}

/// The words that hold the bytes: the first of them, and how many there are.
#[inline(always)]
pub fn words_over(first: Addr, bytes: u32) -> (Word, u32)
    requires some { 1 ≤ bytes }
    requires end { first + bytes ≤ 2 ^ 32 }
    ensures first { result.0 ≡ first / 4 }
    ensures count { result.1 ≡ word_count first bytes }
    ensures least { IsLeastRange first bytes result.0 result.1 }
    ensures range { result.0 + result.1 ≤ 2 ^ 30 }
{
    if bytes <= 4 - first % 4 {
        return (Word::of(first), 1); // as most often
    }
    let last = first + (bytes - 1);
    (Word::of(first), last / 4 - first / 4 + 1)
}
