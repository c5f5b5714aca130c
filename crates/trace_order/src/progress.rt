//! What beside the live threads tells which event may come next.
ghost use Rattle.std.specs.Prelude.{◌≡◌, ◌↔◌, ◌+◌, ◌<◌, ◌≤◌, ◌^◌, ◌∷◌, [], List, true, Some, IsTrue};
ghost use Rattle.guest_words.specs.declared.limits.TheConstants.{TRACE_WEIGHT};
ghost use Rattle.trace_model.specs.declared.event_kinds.Event.{Event};
ghost use Rattle.trace_model.specs.Events.{thread_of};
ghost use Rattle.trace_model.specs.WellFormed.{AreWords, IsWellFormed, is_live, weight_of};
ghost use Rattle.trace_model.specs.Observing.{with_steps};
ghost use Rattle.trace_order.specs.Progress.{Allows, IsAllowed, IsProgressOf, is_of_one, passed, passed_steps};

use guest_words::limits::TRACE_WEIGHT;
use guest_words::{MEMORY_WORDS, Tid, Word};
use std::marker::Model;
use trace_model::Event;

/// What beside the live threads tells which event may come next: the thread of the last step, the greatest number that
/// started, and the weight. Who keeps the live threads keeps this beside them.
#[derive(Drop)]
pub struct Progress {
    last: Option<Tid>,
    greatest: u32,
    weight: u64,
}

impl Model for Progress {
    ghost use Rattle.std.specs.Prelude.{◌<◌};
    ghost use Rattle.guest_words.specs.declared.limits.TheConstants.{TRACE_WEIGHT};
    ghost use Rattle.trace_order.specs.Progress.{ProgressState};

    ghost Value = { ProgressState };

    ghost view = { λ p. record { last = p.last; greatest = p.greatest; weight = p.weight } };

    ghost invariant = { λ p. p.weight < TRACE_WEIGHT };
}

/// The thread that the event is of; a fill is of none.
pub fn thread_of(e: &Event) -> Option<Tid>
    ensures { result ≡ thread_of e.now }
{
    match *e {
        Event::Step { tid }
        | Event::Read { tid, .. }
        | Event::Write { tid, .. }
        | Event::Call { tid, .. }
        | Event::Ret { tid, .. }
        | Event::Start { tid, .. }
        | Event::End { tid } => Some(tid),
        Event::Fill { .. } => None,
    }
}

// Whether there is at least one word, and all are words of the guest's memory.
fn are_words(first: Word, count: u32) -> bool
    ensures { IsTrue result ↔ AreWords first count }
{
    1 <= count && count <= MEMORY_WORDS - first.number()
}

// One for the event, and one for each word that it reads.
fn weight_of(e: &Event) -> u64
    ensures value { result ≡ weight_of e.now }
    ensures range { result ≤ 2 ^ 32 }
{
    match *e {
        Event::Read { count, .. } => 1 + u64::from(count),
        _ => 1,
    }
}

impl Progress {
    /// No event so far.
    pub fn new() -> Progress
        ensures { IsProgressOf result [] }
    {
        Progress {
            last: None,
            greatest: 0,
            weight: 0,
        }
    }

    // Whether the thread lives, and the last instruction is its own.
    fn runs(&self, tid: Tid, lives: bool) -> bool
        ensures { IsTrue result ↔ ((lives ≡ true) × (self.now.last ≡ Some tid)) }
    {
        self.last == Some(tid) && lives
    }

    // Whether the event may come next, whatever its weight.
    fn follows(&self, e: &Event, lives: bool) -> bool
        ensures { IsTrue result ↔ Allows e.now lives self.now }
    {
        match *e {
            Event::Step { .. } | Event::End { .. } => lives,
            Event::Read { tid, first, count } | Event::Write { tid, first, count } => {
                self.runs(tid, lives) && are_words(first, count)
            }
            Event::Fill { first, count } => are_words(first, count),
            Event::Call { tid, .. } | Event::Ret { tid, .. } => self.runs(tid, lives),
            Event::Start { tid, .. } => self.greatest < tid.number(),
        }
    }

    /// Whether the event may come next, where it is said whether its thread lives.
    pub fn allows(&self, e: &Event, lives: bool) -> bool
        ensures shown { IsTrue result ↔ IsAllowed e.now lives self.now }
        ensures stands { (past : List Event) → IsProgressOf self.now past
            → lives ≡ is_of_one (is_live past) e.now
            → IsTrue result ↔ IsWellFormed (e.now ∷ past) }
    {
        self.follows(e, lives) && self.weight + weight_of(e) < TRACE_WEIGHT
    }

    /// Goes on by an event that may come next.
    pub fn pass(&mut self, e: &Event)
        requires { self.old.weight + weight_of e.now < TRACE_WEIGHT }
        ensures value { self.new ≡ passed e.now self.old }
        ensures stands { (past : List Event) → IsProgressOf self.old past
            → IsWellFormed (e.now ∷ past) → IsProgressOf self.new (e.now ∷ past) }
    {
        match *e {
            Event::Step { tid } => self.last = Some(tid),
            Event::Start { tid, .. } => self.greatest = tid.number(),
            _ => {}
        }
        self.weight += weight_of(e);
    }

    /// Goes on by steps of a thread in a row, which may come next.
    #[inline(always)]
    pub fn pass_steps(&mut self, tid: Tid, count: u64)
        requires some { 1 ≤ count }
        requires light { self.old.weight + count < TRACE_WEIGHT }
        ensures value { self.new ≡ passed_steps tid count self.old }
        ensures stands { (past : List Event) → IsProgressOf self.old past
            → IsWellFormed (with_steps tid count past)
            → IsProgressOf self.new (with_steps tid count past) }
    {
        self.last = Some(tid);
        self.weight += count;
    }
}
