//! What tells which event may come next.
ghost use Rattle.std.specs.Prelude.{◌≡◌, ◌↔◌, ◌+◌, ◌<◌, ◌≤◌, ◌++◌, ◌∷◌, ◌&&◌, [], ℕ, List, true, false, not, nat_eq, length, slice_index, MatchOption, All, AllPairs, IfOk, IsOk, IsTrue, OnErr, OnOk};
ghost use Rattle.guest_words.specs.declared.limits.TheConstants.{TRACE_WEIGHT};
ghost use Rattle.trace_model.specs.declared.event_kinds.Event.{Event};
ghost use Rattle.trace_model.specs.WellFormed.{IsWellFormed, weight_of};
ghost use Rattle.trace_order.specs.Order.{IsOrderOf, MayCome, is_among, is_start, progress_of};
ghost use Rattle.trace_order.specs.Progress.{is_of_one, passed};

use crate::Progress;
use crate::progress::thread_of;
use guest_words::{Addr, Tid};
use std::alloc::{AllocError, Global};
use std::marker::Model;
use trace_model::Event;

/// What of the events so far tells which event may come next: the live threads by rising number, the thread of the last step,
/// the greatest number that started, and the weight. The events are not kept, so its memory is that of the live threads.
#[derive(Drop)]
pub struct Order {
    live: Vec<Tid>,
    progress: Progress,
}

impl Model for Order {
    ghost use Rattle.trace_order.specs.Order.{IsInOrder, OrderState};

    ghost Value = { OrderState };

    ghost view = { λ o. record {
      live = o.live.items;
      last = o.progress.last;
      greatest = o.progress.greatest;
      weight = o.progress.weight;
    } };

    ghost invariant = { λ o. IsInOrder (record {
      live = o.live.items;
      last = o.progress.last;
      greatest = o.progress.greatest;
      weight = o.progress.weight;
    }) };
}

// The place of the thread, if it is one of these.
fn find(threads: &[Tid], tid: Tid) -> Option<usize>
    requires { AllPairs (λ t u. t < u) threads.now }
    ensures { MatchOption result (is_among threads.now tid ≡ false)
        (λ place. (place < length threads.now) × (slice_index threads.now place ≡ tid)) }
{
    threads.binary_search(&tid).ok()
}

// Takes the thread out, if it is one of these.
fn remove(threads: &mut Vec<Tid>, tid: Tid)
    requires { AllPairs (λ t u. t < u) threads.old.items }
    ensures rising { AllPairs (λ t u. t < u) threads.new.items }
    ensures fewer { (most : ℕ) → All (λ t. t ≤ most) threads.old.items
        → All (λ t. t ≤ most) threads.new.items }
    ensures others { (t : ℕ) → is_among threads.new.items t
        ≡ (not (nat_eq t tid) && is_among threads.old.items t) }
{
    if let Some(place) = find(threads, tid) {
        threads.remove(place);
    }
}

impl Order {
    /// No event so far.
    pub fn new(alloc: Global) -> Result<Order, AllocError>
        ensures { IfOk result (λ o. IsOrderOf o []) }
    {
        Ok(Order {
            live: Vec::new(alloc),
            progress: Progress::new(),
        })
    }

    // Whether the thread lives.
    fn lives(&self, tid: Tid) -> bool
        ensures { result ≡ is_among self.now.live tid }
    {
        find(&self.live, tid).is_some()
    }

    // Whether the event is of a thread that lives.
    fn lives_of(&self, e: &Event) -> bool
        ensures { result ≡ is_of_one (is_among self.now.live) e.now }
    {
        match thread_of(e) {
            Some(tid) => self.lives(tid),
            None => false,
        }
    }

    /// Whether the event may come next: with it the past is still one that a run can have.
    pub fn may_follow(&self, e: &Event) -> bool
        ensures shown { IsTrue result ↔ MayCome self.now e.now }
        ensures stands { (past : List Event) → IsOrderOf self.now past
            → IsTrue result ↔ IsWellFormed (e.now ∷ past) }
    {
        self.progress.allows(e, self.lives_of(e))
    }

    // A thread starts.
    fn start(&mut self, tid: Tid, entry: Addr) -> Result<(), AllocError>
        requires light { self.old.weight + 1 < TRACE_WEIGHT }
        requires above { self.old.greatest < tid }
        ensures ok { OnOk result (self.new ≡ record {
          live = self.old.live ++ tid ∷ [];
          last = self.old.last;
          greatest = tid;
          weight = self.old.weight + 1;
        }) }
        ensures err { OnErr result (self.new ≡ self.old) }
    {
        self.live.push(tid)?;
        self.progress.pass(&Event::Start { tid, entry });
        Ok(())
    }

    // A thread ends.
    fn end(&mut self, tid: Tid)
        requires { self.old.weight + 1 < TRACE_WEIGHT }
        ensures live { (t : ℕ) → is_among self.new.live t
            ≡ (not (nat_eq t tid) && is_among self.old.live t) }
        ensures rest { self.new ≡ record self.old {
          live = self.new.live;
          weight = self.old.weight
              + 1;
        } }
    {
        remove(&mut self.live, tid);
        self.progress.pass(&Event::End { tid });
    }

    // Any other event.
    fn pass(&mut self, e: &Event)
        requires light { self.old.weight + weight_of e.now < TRACE_WEIGHT }
        requires other { is_start e.now ≡ false }
        ensures live { self.new.live ≡ self.old.live }
        ensures progress { progress_of self.new ≡ passed e.now (progress_of self.old) }
    {
        self.progress.pass(e);
    }

    /// Takes the next event. Only a start may need memory; where there is none, all is as before.
    pub fn add(&mut self, e: Event) -> Result<(), AllocError>
        requires { MayCome self.old e }
        ensures added { (past : List Event) → IsOrderOf self.old past
            → OnOk result (IsOrderOf self.new (e ∷ past)) }
        ensures refused { OnErr result (self.new ≡ self.old) }
        ensures no_allocation { is_start e ≡ false → IsOk result }
    {
        match e {
            Event::Start { tid, entry } => self.start(tid, entry),
            Event::End { tid } => {
                self.end(tid);
                Ok(())
            }
            _ => {
                self.pass(&e);
                Ok(())
            }
        }
    }
}
