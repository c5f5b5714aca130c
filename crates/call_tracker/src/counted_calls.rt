//! What a thread counts, and its calls, each with what had been counted when it began.
ghost use Rattle.std.specs.Prelude.{◌≡◌, ◌+◌, ◌-◌, ◌<◌, ◌^◌};
ghost use Rattle.call_tracker.specs.ThreadCalls.{no_counts};

use crate::Returns;
use guest_words::Addr;
use std::marker::Model;

/// What a thread has counted: its steps, and the words that it read where another thread, or the kernel, had written last.
#[derive(Clone, Copy)]
pub struct ThreadCounts {
    steps: u64,
    thread: u64,
    kernel: u64,
}

impl Model for ThreadCounts {
    ghost use Rattle.call_tracker.specs.ThreadCalls.{Counts};

    ghost Value = { Counts };

    ghost view = { λ c. record { steps = c.steps; thread = c.thread; kernel = c.kernel } };

    ghost inverse = { λ c. record { steps = c.steps; thread = c.thread; kernel = c.kernel } };
}

impl ThreadCounts {
    /// Nothing is counted.
    pub fn none() -> ThreadCounts
        ensures { result ≡ no_counts }
    {
        ThreadCounts {
            steps: 0,
            thread: 0,
            kernel: 0,
        }
    }

    /// What was counted since: steps, words of other threads and words of the kernel.
    pub fn since(self, earlier: ThreadCounts) -> (u64, u64, u64)
        ensures steps { result.0 ≡ self.steps - earlier.steps }
        ensures thread { result.1 ≡ self.thread - earlier.thread }
        ensures kernel { result.2 ≡ self.kernel - earlier.kernel }
    {
        (
            self.steps.saturating_sub(earlier.steps),
            self.thread.saturating_sub(earlier.thread),
            self.kernel.saturating_sub(earlier.kernel),
        )
    }

    /// Adds steps.
    #[inline(always)]
    pub fn add_steps(&mut self, steps: u64)
        requires { self.old.steps + steps < 2 ^ 64 }
        ensures { self.new ≡ record self.old { steps = self.old.steps + steps } }
    {
        self.steps += steps;
    }

    /// What is counted after more steps.
    #[inline(always)]
    pub fn after(&self, steps: u64) -> ThreadCounts
        requires { self.now.steps + steps < 2 ^ 64 }
        ensures { result ≡ record self.now { steps = self.now.steps + steps } }
    {
        ThreadCounts {
            steps: self.steps + steps,
            thread: self.thread,
            kernel: self.kernel,
        }
    }

    /// The words that a read found written by another thread, and by the kernel.
    pub fn add_found(&mut self, thread: u64, kernel: u64)
        requires thread { self.old.thread + thread < 2 ^ 64 }
        requires kernel { self.old.kernel + kernel < 2 ^ 64 }
        ensures { self.new ≡ record self.old { thread = self.old.thread + thread; kernel = self.old.kernel + kernel } }
    {
        self.thread += thread;
        self.kernel += kernel;
    }
}

/// A call that has begun and not ended: the entry of its routine, its return address, if it has one, and what its thread had
/// counted when it began.
#[derive(Clone, Copy)]
pub struct BegunCall {
    entry: Addr,
    back: Option<Addr>,
    earlier: ThreadCounts,
}

impl Model for BegunCall {
    ghost use Rattle.call_tracker.specs.ThreadCalls.{CountedCall};

    ghost Value = { CountedCall };

    ghost view = { λ c. record { entry = c.entry; back = c.back; earlier = c.earlier } };

    ghost inverse = { λ c. record { entry = c.entry; back = c.back; earlier = c.earlier } };
}

impl BegunCall {
    /// A call that begins, where its thread has counted this.
    #[inline(always)]
    pub fn new(entry: Addr, back: Option<Addr>, earlier: ThreadCounts) -> BegunCall
        ensures { result ≡ record { entry = entry; back = back; earlier = earlier } }
    {
        BegunCall {
            entry,
            back,
            earlier,
        }
    }

    /// The entry of its routine.
    pub fn entry(self) -> Addr
        ensures { result ≡ self.entry }
    {
        self.entry
    }

    /// What its thread had counted when it began.
    pub fn earlier(self) -> ThreadCounts
        ensures { result ≡ self.earlier }
    {
        self.earlier
    }
}

impl Returns for BegunCall {
    ghost use Rattle.call_tracker.specs.ThreadCalls.{CountedCall};

    ghost back_of = { λ c. c.back };

    #[inline(always)]
    fn back(&self) -> Option<Addr> {
        self.back
    }
}
