//! What takes the events of a run.
ghost use Rattle.std.specs.Prelude.{◌≡◌, ◌≤◌, Bool, List, IfOk, OnErr, OnOk};
ghost use Rattle.trace_model.specs.declared.event_kinds.Event.{Event};
ghost use Rattle.trace_model.specs.declared.event_kinds.Event.TheVariants.{Call, Read, Ret, Write};
ghost use Rattle.trace_model.specs.Cut.{IsPrefixClosed};
ghost use Rattle.trace_model.specs.Observing.{MayStepBy, MayTake, MayTakeAfter, MayTakeAll, Observes, ObservesAfter, ObservesAll, StandsAsBefore, StepsBy, StepsFit, result_of};

use crate::Event;
use guest_words::{Addr, Tid, Word};
use std::alloc::AllocError;

/// Whether an observer took an event.
#[derive(Clone, Copy, Debug, PartialEq, Eq)]
pub enum Observed {
    Taken,
    /// The past with this event is more than the observer can tell apart.
    Refused,
}

/// What became of an event and the steps before it, as one number: an observer's answer, or that memory could not be allocated.
#[derive(Clone, Copy, Debug, PartialEq, Eq)]
pub enum Answer {
    Taken,
    /// As `Observed::Refused`.
    Refused,
    OutOfMemory,
}

impl Answer {
    /// The same, as one number.
    #[inline(always)]
    pub fn of(observed: Result<Observed, AllocError>) -> Answer
        ensures { result_of result ≡ observed }
    {
        match observed {
            Ok(Observed::Taken) => Answer::Taken,
            Ok(Observed::Refused) => Answer::Refused,
            Err(_) => Answer::OutOfMemory,
        }
    }

    /// The same, as a result.
    #[inline(always)]
    pub fn result(self) -> Result<Observed, AllocError>
        ensures { result ≡ result_of self }
    {
        match self {
            Answer::Taken => Ok(Observed::Taken),
            Answer::Refused => Ok(Observed::Refused),
            Answer::OutOfMemory => Err(AllocError),
        }
    }
}

/// What takes the events of a run, one by one: a profiler, a writer of traces, a cache.
pub trait Observer {
    /// It stands for this past, the newest event first.
    ghost stands: { Self → List Event → Type 0 };

    /// The pasts that it takes: with each, all its beginnings.
    ghost fits: { Self → List Event → Bool };

    ghost fits_closed: { (o : Self) → IsPrefixClosed (fits o) };

    /// A step opens nothing, so it fits where the past does.
    ghost steps_fit: { (o : Self) → StepsFit (fits o) };

    /// Takes the next event, or refuses it where the past with it does not fit.
    fn observe(&mut self, e: Event) -> Result<Observed, AllocError>
        requires { MayTake stands self.old e }
        ensures observed { IfOk result (Observes stands (fits self.old) e self.old self.new) }
        ensures refused { OnErr result (StandsAsBefore stands self.old self.new) }
        ensures same { fits self.new ≡ fits self.old };

    /// Takes `count` steps of a thread in a row, none of which it refuses: one by one, unless there is a quicker way.
    fn observe_steps(&mut self, tid: Tid, count: u64) -> Result<(), AllocError>
        requires may { MayStepBy stands (fits self.old) self.old tid count }
        requires some { 1 ≤ count }
        ensures stepped { OnOk result (StepsBy stands (fits self.old) tid count self.old self.new) }
        ensures same { fits self.new ≡ fits self.old }
    {
        for _ in 0..count {
            match self.observe(Event::Step { tid })? {
                Observed::Taken => {}
                Observed::Refused => unreachable!(),
            }
        }
        Ok(())
    }

    /// Takes `count` steps of a thread in a row, and then an event, which alone it may refuse: one after the other, unless there
    /// is a quicker way.
    #[inline(always)]
    fn observe_after(&mut self, tid: Tid, count: u64, e: Event) -> Result<Observed, AllocError>
        requires may { MayTakeAfter stands (fits self.old) self.old tid count e }
        requires some { 1 ≤ count }
        ensures observed { IfOk result (ObservesAfter stands (fits self.old) tid count e self.old self.new) }
        ensures same { fits self.new ≡ fits self.old }
    {
        self.observe_steps(tid, count)?;
        self.observe(e)
    }

    /// Takes `count` steps of a thread in a row, the last of which read one word.
    #[inline(always)]
    fn observe_word_read(&mut self, tid: Tid, count: u64, w: Word) -> Answer
        requires may { MayTakeAfter stands (fits self.old) self.old tid count (Read tid w 1) }
        requires some { 1 ≤ count }
        ensures observed { IfOk (result_of result) (ObservesAfter stands (fits self.old) tid count (Read tid w 1) self.old self.new) }
        ensures same { fits self.new ≡ fits self.old }
    {
        let read = Event::Read {
            tid,
            first: w,
            count: 1,
        };
        Answer::of(self.observe_after(tid, count, read))
    }

    /// Takes `count` steps of a thread in a row, the last of which wrote one word.
    #[inline(always)]
    fn observe_word_written(&mut self, tid: Tid, count: u64, w: Word) -> Answer
        requires may { MayTakeAfter stands (fits self.old) self.old tid count (Write tid w 1) }
        requires some { 1 ≤ count }
        ensures observed { IfOk (result_of result) (ObservesAfter stands (fits self.old) tid count (Write tid w 1) self.old self.new) }
        ensures same { fits self.new ≡ fits self.old }
    {
        let write = Event::Write {
            tid,
            first: w,
            count: 1,
        };
        Answer::of(self.observe_after(tid, count, write))
    }

    /// Takes `count` steps of a thread in a row, the last of which is a call.
    #[inline(always)]
    fn observe_call(&mut self, tid: Tid, count: u64, entry: Addr, back: Addr) -> Answer
        requires may { MayTakeAfter stands (fits self.old) self.old tid count (Call tid entry back) }
        requires some { 1 ≤ count }
        ensures observed { IfOk (result_of result) (ObservesAfter stands (fits self.old) tid count (Call tid entry back) self.old self.new) }
        ensures same { fits self.new ≡ fits self.old }
    {
        Answer::of(self.observe_after(tid, count, Event::Call { tid, entry, back }))
    }

    /// Takes `count` steps of a thread in a row, the last of which is a return.
    #[inline(always)]
    fn observe_return(&mut self, tid: Tid, count: u64, target: Addr) -> Answer
        requires may { MayTakeAfter stands (fits self.old) self.old tid count (Ret tid target) }
        requires some { 1 ≤ count }
        ensures observed { IfOk (result_of result) (ObservesAfter stands (fits self.old) tid count (Ret tid target) self.old self.new) }
        ensures same { fits self.new ≡ fits self.old }
    {
        Answer::of(self.observe_after(tid, count, Event::Ret { tid, target }))
    }
}

/// Hands events to an observer, up to the first that it refuses.
pub fn feed<W: Observer>(events: &[Event], observer: &mut W) -> Result<Observed, AllocError>
    requires { MayTakeAll W.stands (W.fits observer.old) observer.old events.now }
    ensures observed { IfOk result (ObservesAll W.stands
        (W.fits observer.old) events.now observer.old observer.new) }
    ensures same { W.fits observer.new ≡ W.fits observer.old }
{
    for e in events {
        match observer.observe(*e)? {
            Observed::Taken => {}
            Observed::Refused => return Ok(Observed::Refused),
        }
    }
    Ok(Observed::Taken)
}
