//! Thread numbers.
ghost use Rattle.std.specs.Prelude.{◌≡◌, ℕ, ◌≤◌};
ghost use Rattle.std.specs.Option.{SomeIff};
ghost use Rattle.guest_words.specs.declared.limits.TheConstants.{LAST_TID};

use crate::limits::LAST_TID;
use std::marker::Model;

/// The number of a thread: 1 to `LAST_TID`, the range of Linux's thread numbers.
#[derive(Clone, Copy, Debug, PartialEq, Eq, PartialOrd, Ord)]
pub struct Tid(u32);

impl Model for Tid {
    ghost Value = { ℕ };

    ghost view = { λ t. t.0 };

    ghost invariant = { λ t. (1 ≤ t.0) × (t.0 ≤ LAST_TID) };

    ghost inverse = { λ n. record { 0 = n } };
}

impl Tid {
    /// The first thread of a process.
    pub const FIRST: Tid = Tid(1);

    /// The thread of this number; None where the number is out of range.
    pub fn new(n: u32) -> Option<Tid>
        ensures { SomeIff result ((1 ≤ n) × (n ≤ LAST_TID)) n }
    {
        if 1 <= n && n <= LAST_TID {
            Some(Tid(n))
        } else {
            None
        }
    }

    /// The thread of this number, which may have 64 bits; None where the number is out of range.
    pub fn numbered(number: u64) -> Option<Tid>
        ensures { SomeIff result ((1 ≤ number) × (number ≤ LAST_TID)) number }
    {
        Tid::new(u32::try_from(number).ok()?)
    }

    /// The number of the thread.
    pub fn number(self) -> u32
        ensures same { result ≡ self }
        ensures least { 1 ≤ result }
        ensures greatest { result ≤ LAST_TID }
    {
        self.0
    }
}
