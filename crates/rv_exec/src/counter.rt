//! Program counters.
use guest_words::Addr;
use std::marker::Model;

/// Where a thread is: the address of its next instruction.
pub trait Counter {
    ghost use Rattle.std.specs.Prelude.{◌≡◌, ◌+◌, ◌%◌, ◌^◌, ℕ};

    /// The address.
    ghost at: { Self → ℕ };

    /// The address.
    fn address(&self) -> Addr
        ensures { result ≡ at self.now };

    /// Goes on behind the instruction.
    fn pass(&mut self)
        ensures { at self.new ≡ (at self.old + 4) % 2 ^ 32 };

    /// Goes to a target.
    fn go_to(&mut self, target: Addr)
        requires { target % 4 ≡ 0 }
        ensures { at self.new ≡ target };
}

impl Counter for Addr {
    ghost at = { λ pc. pc };

    #[inline(always)]
    fn address(&self) -> Addr {
        *self
    }

    #[inline(always)]
    fn pass(&mut self) {
        *self = self.wrapping_add(4);
    }

    #[inline(always)]
    fn go_to(&mut self, target: Addr) {
        *self = target;
    }
}

/// An address by the number of words from the beginning of a page, so that a loop over decoded code counts no bytes.
#[derive(Drop)]
pub struct Cursor {
    first: Addr,
    word: usize,
}

impl Model for Cursor {
    ghost use Rattle.std.specs.Prelude.{◌≡◌, ◌+◌, ◌*◌, ◌%◌, ◌^◌, ℕ};

    ghost Value = { ℕ };

    ghost view = { λ c. (c.first + 4 * c.word) % 2 ^ 32 };

    ghost invariant = { λ c. c.first % 4096 ≡ 0 };
}

impl Cursor {
    ghost use Rattle.std.specs.Prelude.{◌≡◌, ◌+◌, ◌*◌, ◌%◌, ◌^◌, IfSome};

    /// An address, by the words from the beginning of a page on: it may lie in another page.
    #[inline(always)]
    pub fn new(first: Addr, at: Addr) -> Cursor
        requires first { first % 4096 ≡ 0 }
        requires even { at % 4 ≡ 0 }
        ensures { result ≡ at }
    {
        Cursor {
            first,
            word: (at.wrapping_sub(first) >> 2) as usize,
        }
    }

    /// How many words it is behind the beginning of a page, if it is counted from there.
    #[inline(always)]
    pub fn word_from(&self, first: Addr) -> Option<usize>
        ensures { IfSome result (λ word. self.now ≡ (first + 4 * word) % 2 ^ 32) }
    {
        if self.first == first {
            Some(self.word)
        } else {
            None
        }
    }
}

impl Counter for Cursor {
    ghost at = { λ pc. pc };

    #[inline(always)]
    fn address(&self) -> Addr {
        let word = (self.word % 0x4000_0000) as u32;
        self.first.wrapping_add(word.wrapping_mul(4))
    }

    #[inline(always)]
    fn pass(&mut self) {
        self.word = self.word.wrapping_add(1);
    }

    #[inline(always)]
    fn go_to(&mut self, target: Addr) {
        self.word = (target.wrapping_sub(self.first) >> 2) as usize;
    }
}
