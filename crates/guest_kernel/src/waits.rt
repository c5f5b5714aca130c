//! Threads that wait, at a word or for a time, and those that wake them.
ghost use Rattle.std.specs.Prelude.{◌≡◌, ◌≢◌, ◌≤◌, ℕ, length, true, false, is_some};
ghost use Rattle.futex_table.specs.Once.{IsOnce};
ghost use Rattle.futex_table.specs.Waiting.{all_bits, first_at, shifted, woken};
ghost use Rattle.virtual_clock.specs.Once.{has};
ghost use Rattle.guest_kernel.specs.Kernel.{can_run, lives, unblocked};
ghost use Rattle.guest_kernel.specs.Waits.{moved_at, requeued, with_deadline, with_waiter, woken_at, woken_one};

use crate::State;
use guest_words::limits::THREADS;
use guest_words::{Addr, Tid};

// The bits of a wait or a wake that names none.
const ALL_BITS: u32 = u32::MAX;

impl State {
    /// The thread, which has no deadline, wakes at the time, with the answer.
    pub fn set_deadline(&mut self, tid: Tid, at: u64, answer: u32)
        requires lives { lives self.old tid ≡ true }
        requires none { has self.old.deadlines tid ≡ false }
        ensures { self.new ≡ with_deadline tid at answer self.old }
    {
        let _ = self.deadlines.has(tid);
        self.deadlines.set(tid, at, answer);
    }

    /// The thread begins to wait.
    pub fn begin_to_wait(&mut self, at: Addr, tid: Tid, bits: u32)
        requires can_run { can_run self.old tid ≡ true }
        requires bits { bits ≢ 0 }
        ensures after { self.new ≡ with_waiter at tid bits self.old }
        ensures lives { lives self.new tid ≡ true }
        ensures none { has self.new.deadlines tid ≡ false }
    {
        let waiting = self.waiting.len();
        prove!(waiting < self.threads.len());
        self.waiting.wait(at, tid, bits);
    }

    // The thread waits no more, and has no deadline any more.
    fn unblock(&mut self, tid: Tid)
        ensures { self.new ≡ unblocked tid self.old }
    {
        self.waiting.forget(tid);
        self.deadlines.forget(tid);
    }

    // Wakes the first that waits at the address and whose bits meet these, if there is one.
    fn wake_first(&mut self, at: Addr, bits: u32) -> bool
        ensures found { result ≡ is_some (first_at self.old.waiting at bits) }
        ensures after { self.new ≡ woken_one (first_at self.old.waiting at bits) self.old }
        ensures once { IsOnce self.old.waiting }
    {
        let Some(tid) = self.waiting.first(at, bits) else {
            return false;
        };
        self.unblock(tid);
        true
    }

    /// Wakes the first that wait at the address and whose bits meet these, and answers how many.
    pub fn wake(&mut self, at: Addr, most: u32, bits: u32) -> u32
        ensures count { result ≡ length (woken self.old.waiting at most bits) }
        ensures after { self.new ≡ woken_at at most bits self.old }
        ensures can_run { (tid : ℕ) → can_run self.old tid ≡ true → can_run self.new tid ≡ true }
    {
        for count in 0..most {
            if !self.wake_first(at, bits) {
                return count;
            }
        }
        most
    }

    // Moves the first that wait at the address to another, and answers how many. They keep their deadlines.
    fn move_waiters(&mut self, at: Addr, most: u32, to: Addr) -> u32
        ensures moved { result ≡ length (woken self.old.waiting at most all_bits) }
        ensures few { result ≤ THREADS }
        ensures after { self.new ≡ moved_at at most to self.old }
    {
        let _ = self.waiting.len();
        let (_, moved) = self.waiting.requeue(at, 0, most, to);
        moved
    }

    /// Wakes the first that wait at the address, and moves the next to another. Answers how many of each.
    pub fn requeue(&mut self, at: Addr, most: u32, shift: u32, to: Addr) -> (u32, u32)
        ensures woken { result.0 ≡ length (woken self.old.waiting at most all_bits) }
        ensures moved { result.1 ≡ length (shifted self.old.waiting at most shift) }
        ensures few { (result.0 ≤ THREADS) × (result.1 ≤ THREADS) }
        ensures after { self.new ≡ requeued at most shift to self.old }
    {
        let _ = self.waiting.len();
        let count = self.wake(at, most, ALL_BITS);
        let moved = self.move_waiters(at, shift, to);
        (count, moved)
    }
}
