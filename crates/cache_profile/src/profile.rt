//! The misses of a run that goes on.
ghost use Rattle.std.specs.Prelude.{◌≡◌, ◌↔◌, ◌⊎◌, ◌+◌, ◌<◌, ◌≤◌, [], ◌∷◌, List, true, length, slice_get, IfOk, IsOk, IsTrue, OnErr, OnOk};
ghost use Rattle.guest_words.specs.declared.limits.TheConstants.{TRACE_WEIGHT};
ghost use Rattle.trace_model.specs.declared.event_kinds.Event.{Event};
ghost use Rattle.trace_model.specs.declared.event_kinds.Event.TheVariants.{Read, Write};
ghost use Rattle.trace_model.specs.Depth.{count_begun};
ghost use Rattle.trace_model.specs.Observing.{MayStepBy, Observes, StandsAsBefore, StepsBy, with_steps};
ghost use Rattle.trace_model.specs.WellFormed.{IsWellFormed};
ghost use Rattle.trace_order.specs.Progress.{is_of_one};
ghost use Rattle.call_tracker.specs.CallStacks.{StacksStandFor as CallsOf};
ghost use Rattle.cache_profile.specs.ByRoutine.{innermost};
ghost use Rattle.cache_profile.specs.Private.Other.{IsOther};
ghost use Rattle.cache_profile.specs.Profile.{MayCome, MissesStandFor, is_quiet, lives};

use crate::RoutineMisses;
use crate::lines::access_words;
use cache_lines::{Cache, Shape};
use call_tracker::CallStacks;
use cost_points::ByKey;
use guest_words::{Addr, Tid, Word};
use std::alloc::{AllocError, Global};
use std::marker::{Brand, Model, PhantomData};
use trace_model::{Event, Observed, Observer};
use trace_order::{Progress, thread_of};

/// The shape of a cache, carried by a type: what is known of an observer after a run is its type and its past.
pub trait Shaped {
    ghost use Rattle.cache_lines.specs.Shapes.{Dimensions};

    ghost shape: { Dimensions };
}

impl Shaped for Brand {
    ghost shape = { record { sets = 1; ways = 1; line = 4 } };
}

/// The line accesses and the misses of the events so far, by routine, for a cache of the shape that `K` carries. It takes all
/// pasts. An access of the routine of the last one costs as much as the cache has ways. For another routine, a lookup is added
/// that is logarithmic in their number. A routine's first access also moves the rest of a block of at most 128 routines, and at
/// most one in 64 of these cuts a block in two, which moves the list of blocks.
#[derive(Drop)]
pub struct CacheProfile<K: Shaped> {
    cache: Cache,
    calls: CallStacks,
    routines: ByKey<RoutineMisses>,
    steps: u64,
    progress: Progress,
    of: PhantomData<K>,
}

impl<K: Shaped> Model for CacheProfile<K> {
    ghost use Rattle.cost_points.specs.Joined.{joined};
    ghost use Rattle.cache_profile.specs.Profile.{IsOfSome, KeptMisses};

    ghost Value = { KeptMisses };

    ghost view = { λ p. record {
      cache = p.cache;
      calls = p.calls;
      routines = joined p.routines;
      steps = p.steps;
      progress = p.progress;
    } };

    ghost invariant = { λ p. ∥ IsOfSome K.shape (record {
      cache = p.cache;
      calls = p.calls;
      routines = joined p.routines;
      steps = p.steps;
      progress = p.progress;
    }) ∥₁ };
}

// The entry of the routine that runs in the thread: that of its innermost open call.
fn running(calls: &CallStacks, tid: Tid) -> Addr
    ensures { (past : List Event) → CallsOf calls.now past → result ≡ innermost past tid }
{
    match calls.top(tid) {
        Some(call) => call.entry,
        None => 0,
    }
}

impl<K: Shaped> CacheProfile<K> {
    /// No event so far.
    pub fn new(alloc: Global, shape: Shape) -> Result<CacheProfile<K>, AllocError>
        requires { shape ≡ K.shape }
        ensures { IfOk result (λ profile. MissesStandFor K.shape profile []) }
    {
        Ok(CacheProfile {
            cache: Cache::new(alloc, shape)?,
            calls: CallStacks::new(alloc),
            routines: ByKey::new(alloc)?,
            steps: 0,
            progress: Progress::new(),
            of: PhantomData,
        })
    }

    /// How many routines have line accesses.
    pub fn routines(&self) -> usize
        ensures { result ≡ length self.now.routines }
    {
        self.routines.len()
    }

    /// Makes `routine` quick: logarithmic in the number of routines, until a new one comes. Without it, `routine` goes past the
    /// blocks of routines one by one.
    pub fn index_routines(&mut self) -> Result<(), AllocError>
        ensures { self.new ≡ self.old }
    {
        self.routines.index()
    }

    /// The line accesses of a routine, the routines by rising entry.
    pub fn routine(&self, i: usize) -> RoutineMisses
        requires { i < length self.now.routines }
        ensures { slice_get self.now.routines i ≡ Some result }
    {
        *self.routines.get(i)
    }

    /// The steps of all threads.
    pub fn steps(&self) -> u64
        ensures { result ≡ self.now.steps }
    {
        self.steps
    }

    // Whether the event is of a thread that lives.
    fn lives_of(&self, e: &Event) -> bool
        ensures { result ≡ is_of_one (lives self.now) e.now }
    {
        match thread_of(e) {
            Some(tid) => self.calls.lives(tid),
            None => false,
        }
    }

    /// Whether the event may come next: with it the past is still one that a run can have.
    pub fn may_follow(&self, e: &Event) -> bool
        ensures shown { IsTrue result ↔ MayCome self.now e.now }
        ensures stands { (past : List Event) → MissesStandFor K.shape self.now past
            → IsTrue result ↔ IsWellFormed (e.now ∷ past) }
    {
        self.progress.allows(e, self.lives_of(e))
    }

    // An event that accesses these words by the thread.
    fn access(&mut self, e: &Event, tid: Tid, first: Word, count: u32) -> Result<(), AllocError>
        requires may { MayCome self.old e.now }
        requires accesses { (e.now ≡ Read tid first count) ⊎ (e.now ≡ Write tid first count) }
        ensures stands { (past : List Event) → MissesStandFor K.shape self.old past
            → OnOk result (MissesStandFor K.shape self.new (e.now ∷ past)) }
        ensures refused { OnErr result (self.new ≡ self.old) }
    {
        let entry = running(&self.calls, tid);
        let none = RoutineMisses {
            entry,
            accesses: 0,
            misses: 0,
        };
        let place = self.routines.find_or_insert(none)?;
        let event = access_words(&mut self.cache, first, count);
        let routine = self.routines.at_mut(u64::from(entry), place);
        routine.add(event.accesses, event.misses);
        self.progress.pass(e);
        Ok(())
    }

    // Steps of a thread in a row.
    fn take_steps(&mut self, tid: Tid, count: u64)
        requires some { 1 ≤ count }
        requires lives { lives self.old tid ≡ true }
        requires light { self.old.progress.weight + count < TRACE_WEIGHT }
        ensures { (past : List Event) → MissesStandFor K.shape self.old past
            → MissesStandFor K.shape self.new (with_steps tid count past) }
    {
        self.steps += count;
        self.progress.pass_steps(tid, count);
    }

    // Any other event.
    fn pass(&mut self, e: &Event) -> Result<(), AllocError>
        requires may { MayCome self.old e.now }
        requires other { IsOther e.now }
        ensures stands { (past : List Event) → MissesStandFor K.shape self.old past
            → OnOk result (MissesStandFor K.shape self.new (e.now ∷ past)) }
        ensures refused { OnErr result (self.new ≡ self.old) }
        ensures no_allocation { count_begun e.now ≡ 0 → IsOk result }
    {
        self.calls.apply(*e)?;
        self.progress.pass(e);
        Ok(())
    }
}

impl<K: Shaped> Observer for CacheProfile<K> {
    ghost use Rattle.std.specs.Prelude.{true, refl};
    ghost use Rattle.cache_profile.specs.Profile.{MissesStandFor};

    ghost stands = { MissesStandFor K.shape };

    ghost fits = { λ profile past. true };

    ghost fits_closed = { λ profile e past fits. refl };

    ghost steps_fit = { λ profile tid past fits. refl };

    // It takes every event that may come next. What accesses no word for a thread and begins no activation needs no memory.
    fn observe(&mut self, e: Event) -> Result<Observed, AllocError>
        requires { MayCome self.old e }
        ensures observed { IfOk result (Observes (MissesStandFor K.shape) (λ past. true) e self.old self.new) }
        ensures refused { OnErr result (StandsAsBefore (MissesStandFor K.shape) self.old self.new) }
        ensures no_allocation { is_quiet e ≡ true → IsOk result }
    {
        match e {
            Event::Read { tid, first, count } => self.access(&e, tid, first, count)?,
            Event::Write { tid, first, count } => self.access(&e, tid, first, count)?,
            Event::Step { tid } => self.take_steps(tid, 1),
            _ => self.pass(&e)?,
        }
        Ok(Observed::Taken)
    }

    // The cost does not grow with the count.
    fn observe_steps(&mut self, tid: Tid, count: u64) -> Result<(), AllocError>
        requires may { MayStepBy (MissesStandFor K.shape) (λ past. true) self.old tid count }
        requires some { 1 ≤ count }
        ensures stepped { OnOk result (StepsBy (MissesStandFor K.shape) (λ past. true) tid count self.old self.new) }
        ensures no_allocation { IsOk result }
    {
        self.take_steps(tid, count);
        Ok(())
    }
}
