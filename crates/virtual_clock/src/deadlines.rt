//! The list of deadlines.
ghost use Rattle.std.specs.Prelude.{◌≡◌, ◌<◌, ◌≤◌, [], false, length, IfOk};
ghost use Rattle.std.specs.Option.{option_map};
ghost use Rattle.virtual_clock.specs.Once.{has, IsOnce};
ghost use Rattle.virtual_clock.specs.Order.{due_of, first_of, IsDue, IsEarliest};
ghost use Rattle.virtual_clock.specs.Steps.{after_due, after_forget, after_set};

use crate::deadline::{Deadline, first};
use guest_words::Tid;
use guest_words::limits::THREADS;
use std::alloc::{AllocError, Global};
use std::marker::Model;

/// The deadlines, in the order in which they were set. A thread has at most one.
#[derive(Drop)]
pub struct Deadlines {
    list: Vec<Deadline>,
}

impl Model for Deadlines {
    ghost use Rattle.std.specs.Prelude.{List};
    ghost use Rattle.virtual_clock.specs.declared.deadline.Deadline.{Deadline};
    ghost use Rattle.virtual_clock.specs.Rooms.{IsDeadlines};

    ghost Value = { List Deadline };

    ghost view = { λ d. d.list.items };

    ghost invariant = { IsDeadlines };
}

impl Deadlines {
    /// There is none, and there is room for all `THREADS` of a guest.
    pub fn new(alloc: Global) -> Result<Deadlines, AllocError>
        ensures empty { IfOk result (λ d. d ≡ []) }
    {
        Ok(Deadlines {
            list: Vec::with_capacity(alloc, THREADS)?,
        })
    }

    /// Whether the thread has a deadline.
    pub fn has(&self, tid: Tid) -> bool
        ensures has { result ≡ has self.now tid }
        ensures once { IsOnce self.now }
        ensures few { length self.now ≤ THREADS }
    {
        self.list.iter().any(|d| d.tid == tid)
    }

    /// The thread, which has none, gets a deadline.
    pub fn set(&mut self, tid: Tid, at: u64, answer: u32)
        requires once { has self.old tid ≡ false }
        requires room { length self.old < THREADS }
        ensures after { self.new ≡ after_set self.old tid at answer }
    {
        self.list.push(Deadline { tid, at, answer }).unwrap();
    }

    /// The least time of all; None where there is no deadline.
    pub fn earliest(&self) -> Option<u64>
        ensures first { result ≡ option_map (λ d. d.at) (first_of self.now) }
        ensures earliest { IsEarliest self.now result }
    {
        first(&self.list).map(|d| d.at)
    }

    /// Takes out the deadline that comes first, by time and then by thread, where its time is at most `now`. None where no time
    /// is, and then nothing changes.
    pub fn due(&mut self, now: u64) -> Option<(Tid, u32)>
        ensures due { result ≡ option_map (λ d. (d.tid, d.answer)) (due_of self.old now) }
        ensures first { IsDue self.old now result }
        ensures after { self.new ≡ after_due self.old now }
    {
        match first(&self.list) {
            Some(d) if d.at <= now => {
                self.forget(d.tid);
                Some((d.tid, d.answer))
            }
            _ => None,
        }
    }

    /// The thread has no deadline any more.
    pub fn forget(&mut self, tid: Tid)
        ensures after { self.new ≡ after_forget self.old tid }
    {
        self.list.retain(|d| d.tid != tid);
    }

    /// No thread has a deadline any more.
    pub fn clear(&mut self)
        ensures empty { self.new ≡ [] }
    {
        self.list.clear();
    }
}
