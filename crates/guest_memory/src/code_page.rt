//! The code of one page of the guest, decoded.
ghost use Rattle.std.specs.Prelude.{◌≡◌, ◌<◌, ◌≤◌, ◌+◌, ◌%◌, ◌*◌, ◌^◌, ℕ, List, Option, None, Some, length, map, replicate, slice_set, IfOk, IfSome};
ghost use Rattle.guest_memory.specs.Code.{IsCodeFrom, IsCodeOf, IsInstructionAt, known_of};
ghost use Rattle.guest_memory.specs.Memory.{Memory};
ghost use Rattle.guest_memory.specs.Private.CodePages.{AreForgotten};
ghost use Rattle.rv_isa.specs.declared.instruction.Instr.{Instr};

use crate::Decoded;
use guest_words::Addr;
use rv_isa::Instr;
use std::alloc::{AllocError, Global};
use std::marker::Model;

/// How many words a page has.
pub const PAGE_WORDS: usize = 1024;

/// The code of a page: the page's number, and what is known of each of its words. It takes 8 KiB.
#[derive(Drop)]
pub struct CodePage {
    number: u32,
    words: Vec<Decoded>,
}

impl Model for CodePage {
    ghost use Rattle.std.specs.Prelude.{◌≡◌, ◌<◌, ◌^◌, ℕ, List, Option, length, map};
    ghost use Rattle.guest_memory.specs.Code.{known_of};
    ghost use Rattle.rv_isa.specs.declared.instruction.Instr.{Instr};

    ghost Value = { ℕ × List (Option Instr) };

    ghost view = { λ p. (p.number, map known_of p.words.items) };

    ghost invariant = { λ p. (p.number < 2 ^ 20) × (length p.words.items ≡ 1024) };
}

/// What is known of a word of the page that begins at `first`, by the word's place in it; none where the page has no such word.
/// A page of code lends both its first address and its words.
#[inline(always)]
pub fn find_word(first: Addr, code: &[Decoded], word: usize) -> Option<Decoded>
    requires first { first % 4096 ≡ 0 }
    requires whole { length code.now ≡ 1024 }
    ensures { (m : Memory) → IsCodeFrom m first code.now
        → IfSome result (λ d. IfSome (known_of d) (IsInstructionAt m ((first + 4 * word) % 2 ^ 32))) }
{
    if word >= PAGE_WORDS {
        return None;
    }
    Some(code[word])
}

// How many words an address lies behind the beginning of a page, modulo 2 ^ 30.
#[inline(always)]
fn words_behind(first: Addr, at: Addr) -> usize
    requires even { at % 4 ≡ 0 }
    requires first { first % 4096 ≡ 0 }
    ensures { (first + 4 * result) % 2 ^ 32 ≡ at }
{
    (at.wrapping_sub(first) >> 2) as usize
}

impl CodePage {
    /// No instruction of the page is known.
    pub(crate) fn new(alloc: Global, number: u32) -> Result<CodePage, AllocError>
        requires { number < 2 ^ 20 }
        ensures { IfOk result (λ p. p ≡ (number, replicate 1024 None)) }
    {
        let mut words = Vec::new(alloc);
        words.resize(PAGE_WORDS, Decoded::Unknown)?;
        Ok(CodePage { number, words })
    }

    /// The page's number.
    pub(crate) fn number(&self) -> u32
        ensures { result ≡ self.now.0 }
    {
        self.number
    }

    /// Where the page begins, and its words.
    #[inline(always)]
    pub fn parts(&self) -> (Addr, &[Decoded])
        ensures first { result.0 % 4096 ≡ 0 }
        ensures whole { length result.1.now ≡ 1024 }
        ensures code { (m : Memory) → IsCodeOf m self.now → IsCodeFrom m result.0 result.1.now }
    {
        (self.number << 12, self.words.as_slice())
    }

    /// The instruction at an address, where it lies in the page and is known.
    #[inline(always)]
    pub fn find(&self, at: Addr) -> Option<Instr>
        requires { at % 4 ≡ 0 }
        ensures { (m : Memory) → IsCodeOf m self.now → IfSome result (IsInstructionAt m at) }
    {
        let (first, code) = self.parts();
        find_word(first, code, words_behind(first, at))?.instruction()
    }

    /// Caches the instruction of a word.
    pub(crate) fn learn(&mut self, word: usize, instruction: Instr)
        requires { word < 1024 }
        ensures page { self.new ≡ (self.old.0, slice_set self.old.1 word (Some instruction)) }
        ensures whole { length self.old.1 ≡ 1024 }
    {
        self.words[word] = Decoded::of(instruction);
    }

    /// Forgets the words from the first up to the end.
    #[cold]
    #[inline(never)]
    pub(crate) fn forget(&mut self, first: usize, end: usize)
        requires order { first ≤ end }
        requires inside { end ≤ 1024 }
        ensures number { self.new.0 ≡ self.old.0 }
        ensures words { AreForgotten first end self.old.1 self.new.1 }
    {
        forget_words(&mut self.words, first, end);
    }
}

// Forgets the words from the first up to the end.
fn forget_words(words: &mut [Decoded], first: usize, end: usize)
    requires order { first ≤ end }
    requires inside { end ≤ length words.old }
    ensures length { length words.new ≡ length words.old }
    ensures words { AreForgotten first end (map known_of words.old) (map known_of words.new) }
{
    for word in first..end {
        words[word] = Decoded::Unknown;
    }
}
