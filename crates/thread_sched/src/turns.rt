//! The turn rule.
ghost use Rattle.std.specs.Prelude.{◌≡◌, ◌==◌, ◌≤◌, length, if◌then◌else◌, Some};
ghost use Rattle.std.specs.List.{list_any};
ghost use Rattle.thread_sched.specs.TurnRule.{able, above, behind, least, lesser, scheduled, turn_of};

use crate::{Entry, Schedule};
use guest_words::limits::QUANTUM_STEPS;
use guest_words::{ReadyList, Tid};
use std::marker::Model;

/// What comes next.
#[derive(Clone, Copy, Debug, PartialEq, Eq)]
pub enum Turn {
    /// The thread runs, at most `most` instructions.
    Run { tid: Tid, most: u64 },
    /// No thread can run.
    Deadlock,
    /// The next entry's thread can't run, while another can. Its line is counted from 1.
    Mismatch { line: u64 },
}

// The lesser of the two, where there are two.
fn lesser(tid: Tid, other: Option<Tid>) -> Tid
    ensures { result ≡ lesser tid other }
{
    match other {
        Some(other) if other.number() < tid.number() => other,
        _ => tid,
    }
}

// The least so far, with one more thread where it is taken.
fn with_taken(best: Option<Tid>, tid: Tid, is_taken: bool) -> Option<Tid>
    ensures { result ≡ (if is_taken then Some (lesser tid best) else best) }
{
    if is_taken {
        Some(lesser(tid, best))
    } else {
        best
    }
}

// The least thread that can run.
fn least_able(live: &ReadyList) -> Option<Tid>
    ensures { result ≡ least (able live.now) }
{
    let mut best = None;
    for i in 0..live.len() {
        let (tid, can) = live.at(i);
        best = with_taken(best, tid, can);
    }
    best
}

// The least thread above the last one that can run.
fn least_above(last: u32, live: &ReadyList) -> Option<Tid>
    ensures { result ≡ least (above last (able live.now)) }
{
    let mut best = None;
    for i in 0..live.len() {
        let (tid, can) = live.at(i);
        best = with_taken(best, tid, can && last < tid.number());
    }
    best
}

// Whether the thread can run.
fn is_able(tid: Tid, live: &ReadyList) -> bool
    ensures { result ≡ list_any (λ other. other == tid) (able live.now) }
{
    for i in 0..live.len() {
        let (other, can) = live.at(i);
        if can && other == tid {
            return true;
        }
    }
    false
}

/// The scheduler: the quantum, the last thread's number (0 before the first turn), and the entries with how many are used.
#[derive(Drop)]
pub struct Sched {
    quantum: u64,
    last: u32,
    used: usize,
    entries: Vec<Entry>,
}

impl Model for Sched {
    ghost use Rattle.std.specs.Prelude.{◌+◌, ◌≤◌, drop, length};
    ghost use Rattle.thread_sched.specs.TurnRule.{SchedulerState};

    ghost Value = { SchedulerState };

    ghost view = { λ s. record {
      quantum = s.quantum;
      last = s.last;
      line = s.used + 1;
      entries = drop s.used s.entries.items;
    } };

    ghost invariant = { λ s. s.used ≤ length s.entries.items };
}

impl Sched {
    /// The scheduler before the first turn. The quantum is how many instructions a thread runs in rotation.
    pub fn new(quantum: u64, schedule: Schedule) -> Sched
        requires some { 1 ≤ quantum }
        requires most { quantum ≤ QUANTUM_STEPS }
        ensures { result ≡ record { quantum = quantum; last = 0; line = 1; entries = schedule } }
    {
        Sched {
            quantum,
            last: 0,
            used: 0,
            entries: schedule.entries,
        }
    }

    // The turn by the next entry, where there is one, else the thread's in rotation.
    fn scheduled(&self, next: Tid, live: &ReadyList) -> Turn
        ensures { result ≡ scheduled self.now (able live.now) next self.now.entries }
    {
        match self.entries.get(self.used) {
            None => Turn::Run {
                tid: next,
                most: self.quantum,
            },
            Some(entry) if is_able(entry.tid, live) => Turn::Run {
                tid: entry.tid,
                most: entry.most,
            },
            Some(_) => Turn::Mismatch {
                line: self.used as u64 + 1,
            },
        }
    }

    // The next turn.
    fn turn_of(&self, live: &ReadyList) -> Turn
        ensures { result ≡ turn_of self.now live.now }
    {
        match least_above(self.last, live).or(least_able(live)) {
            Some(next) => self.scheduled(next, live),
            None => Turn::Deadlock,
        }
    }

    /// The next turn, over the threads that live. `Deadlock` and `Mismatch` leave the scheduler as it was.
    pub fn next(&mut self, live: &ReadyList) -> Turn
        ensures turn { result ≡ turn_of self.old live.now }
        ensures behind { self.new ≡ behind self.old result }
    {
        let turn = self.turn_of(live);
        if let Turn::Run { tid, .. } = turn {
            self.last = tid.number();
            if self.used < self.entries.len() {
                self.used += 1;
            }
        }
        turn
    }
}
