//! A short list of threads, each with whether it can run.
ghost use Rattle.std.specs.Prelude.{◌≡◌, ◌<◌, ◌≤◌, ◌++◌, ◌∷◌, [], length, slice_get, Some};

use crate::Tid;
use crate::limits::THREADS;
use std::marker::Model;

/// At most `THREADS` threads by rising number, each with whether it can run.
#[derive(Clone, Copy, Debug)]
pub struct ReadyList {
    threads: [(Tid, bool); THREADS],
    len: usize,
}

impl Model for ReadyList {
    ghost use Rattle.std.specs.Prelude.{ℕ, Bool, List, take};
    ghost use Rattle.guest_words.specs.Places.{IsFilled, places_of, filled_gives_back};

    ghost Value = { List (ℕ × Bool) };

    ghost view = { λ r. take r.len r.threads };

    ghost invariant = { IsFilled };

    ghost inverse = { places_of };

    ghost inverse_ok = { filled_gives_back };
}

impl ReadyList {
    ghost use Rattle.guest_words.specs.Ready.{IsAboveLast, IsRising};

    /// No thread.
    pub fn new() -> ReadyList
        ensures { result ≡ [] }
    {
        ReadyList {
            threads: [(Tid::FIRST, false); THREADS],
            len: 0,
        }
    }

    /// How many threads there are.
    pub fn len(&self) -> usize
        ensures value { result ≡ length self.now }
        ensures bound { result ≤ THREADS }
        ensures rising { IsRising self.now }
    {
        self.len
    }

    /// One more thread, whose number is above the last.
    pub fn push(&mut self, tid: Tid, can: bool)
        requires room { length self.old < THREADS }
        requires above { IsAboveLast tid self.old }
        ensures { self.new ≡ self.old ++ (tid, can) ∷ [] }
    {
        self.threads[self.len] = (tid, can);
        self.len += 1;
    }

    /// The thread at a place, counted from 0, and whether it can run.
    pub fn at(&self, i: usize) -> (Tid, bool)
        requires { i < length self.now }
        ensures { slice_get self.now i ≡ Some result }
    {
        // Brings the invariant into scope.
        let _ = &self.len;
        self.threads[i]
    }
}
