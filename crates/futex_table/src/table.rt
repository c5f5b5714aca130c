//! The table of waiting threads.
ghost use Rattle.std.specs.Prelude.{◌≡◌, ◌≢◌, ◌<◌, ◌≤◌, [], false, length, IfOk};
ghost use Rattle.std.specs.Option.{option_map};
ghost use Rattle.futex_table.specs.Once.{waits, IsOnce};
ghost use Rattle.futex_table.specs.Waiting.{after_wait, first_at, woken, after_wake, shifted, after_requeue, after_forget, all_bits};

use crate::partition::{add_moved, take_out, waits_at};
use crate::waiter::Waiter;
use guest_words::limits::THREADS;
use guest_words::{Addr, Tid};
use std::alloc::{AllocError, Global};
use std::marker::Model;

/// The waiting threads, in order of waiting. A thread waits at most once.
#[derive(Drop)]
pub struct FutexTable {
    waiting: Vec<Waiter>,
    // Empty between calls: room for those who stay and for those who are taken out.
    spare: Vec<Waiter>,
    taken: Vec<Waiter>,
}

impl Model for FutexTable {
    ghost use Rattle.std.specs.Prelude.{List};
    ghost use Rattle.futex_table.specs.declared.waiter.Waiter.{Waiter};
    ghost use Rattle.futex_table.specs.Rooms.{IsTable};

    ghost Value = { List Waiter };

    ghost view = { λ t. t.waiting.items };

    ghost invariant = { IsTable };
}

impl FutexTable {
    /// No thread waits, and there is room for all `THREADS` of a guest.
    pub fn new(alloc: Global) -> Result<FutexTable, AllocError>
        ensures empty { IfOk result (λ t. t ≡ []) }
    {
        Ok(FutexTable {
            waiting: Vec::with_capacity(alloc, THREADS)?,
            spare: Vec::with_capacity(alloc, THREADS)?,
            taken: Vec::with_capacity(alloc, THREADS)?,
        })
    }

    /// Whether the thread waits.
    pub fn waits(&self, tid: Tid) -> bool
        ensures waits { result ≡ waits self.now tid }
    {
        self.waiting.iter().any(|w| w.tid == tid)
    }

    /// How many threads wait.
    pub fn len(&self) -> usize
        ensures len { result ≡ length self.now }
        ensures bound { result ≤ THREADS }
        ensures once { IsOnce self.now }
    {
        self.waiting.len()
    }

    /// The thread begins to wait at the address, behind all others, with these bits.
    pub fn wait(&mut self, at: Addr, tid: Tid, bits: u32)
        requires once { waits self.old tid ≡ false }
        requires room { length self.old < THREADS }
        requires bits { bits ≢ 0 }
        ensures after { self.new ≡ after_wait self.old at tid bits }
    {
        self.waiting.push(Waiter { at, tid, bits }).unwrap();
    }

    /// The first thread in the list that waits at the address and whose bits meet these; None where there is none.
    pub fn first(&self, at: Addr, bits: u32) -> Option<Tid>
        ensures first { result ≡ option_map (λ w. w.tid) (first_at self.now at bits) }
        ensures once { IsOnce self.now }
    {
        self.waiting
            .iter()
            .find(|w| waits_at(w, at, bits))
            .map(|w| w.tid)
    }

    /// Takes out the first `most` threads that wait at the address and whose bits meet these, and answers how many.
    pub fn wake(&mut self, at: Addr, most: u32, bits: u32) -> u32
        ensures count { result ≡ length (woken self.old at most bits) }
        ensures after { self.new ≡ after_wake self.old at most bits }
    {
        take_out(
            &mut self.waiting,
            at,
            bits,
            most,
            &mut self.spare,
            &mut self.taken,
        );
        let count = self.taken.len() as u32;
        self.taken.clear();
        count
    }

    /// Wakes the first `most` threads that wait at the address, and moves the next `shift` of them behind all others, to wait
    /// at another address. Answers how many were woken, and how many moved.
    pub fn requeue(&mut self, at: Addr, most: u32, shift: u32, to: Addr) -> (u32, u32)
        ensures woken { result.0 ≡ length (woken self.old at most all_bits) }
        ensures moved { result.1 ≡ length (shifted self.old at most shift) }
        ensures after { self.new ≡ after_requeue self.old at most shift to }
    {
        let count = self.wake(at, most, u32::MAX);
        take_out(
            &mut self.waiting,
            at,
            u32::MAX,
            shift,
            &mut self.spare,
            &mut self.taken,
        );
        add_moved(self.taken.as_slice(), to, &mut self.waiting);
        let moved = self.taken.len() as u32;
        self.taken.clear();
        (count, moved)
    }

    /// The thread waits no more.
    pub fn forget(&mut self, tid: Tid)
        ensures after { self.new ≡ after_forget self.old tid }
    {
        self.waiting.retain(|w| w.tid != tid);
    }

    /// No thread waits any more.
    pub fn clear(&mut self)
        ensures empty { self.new ≡ [] }
    {
        self.waiting.clear();
    }
}
