//! The profile of a run that goes on.
ghost use Rattle.std.specs.Prelude.{◌≡◌, ◌≤◌, ◌∷◌, [], List, None, Some, true, false, Ok, IfOk, IsOk, OnErr, OnOk};
ghost use Rattle.std.specs.Option.{option_map_or};
ghost use Rattle.trace_model.specs.declared.event_kinds.Event.{Event};
ghost use Rattle.trace_model.specs.declared.event_kinds.Event.TheVariants.{Call, Read, Ret, Write};
ghost use Rattle.trace_model.specs.declared.observer.Answer.TheVariants.{Taken};
ghost use Rattle.trace_model.specs.declared.observer.Observed.{Observed};
ghost use Rattle.trace_model.specs.Depth.{is_within};
ghost use Rattle.trace_model.specs.Observing.{MayStepBy, MayTake, MayTakeAfter, Observes, ObservesAfter, StandsAsBefore, StepsBy, result_of, with_steps};
ghost use Rattle.trace_model.specs.Profile.{ended, steps};
ghost use Rattle.shadow_core.specs.Applying.{IsTaken};
ghost use Rattle.shadow_core.specs.State.{State};
ghost use Rattle.run_profile.specs.Keeping.{MayKeep};
ghost use Rattle.run_profile.specs.Private.Passing.{IsSettled, MayPass, ends_none};
ghost use Rattle.run_profile.specs.Profile.{AreCountsOf, IsOfFormed, IsProfileOf};

use crate::{Counts, Keeper};
use guest_words::{Addr, Tid, Word};
use shadow_core::{ApplyError, Profiler};
use stamp_lanes::Lanes;
use std::alloc::{AllocError, Global};
use std::marker::Model;
use trace_model::{Answer, Done, Event, Observed, Observer};

/// The profile of the events so far, by stamps of a width, with what a keeper keeps of the activations that ended. It takes all
/// pasts whose open activations the stamps tell apart.
#[derive(Drop)]
pub struct Profile<S: Lanes, K: Keeper> {
    profiler: Profiler<S>,
    kept: K,
    // The newest event, where the keeper is still to take it: an event that was taken is not refused for lack of a point or a
    // context. What ended at it is `one`, where the profiler took a return by its quick way, and otherwise `ended`.
    next: Option<Event>,
    one: Option<Done>,
    ended: Vec<Done>,
    steps: u64,
}

impl<S: Lanes, K: Keeper> Model for Profile<S, K> {
    ghost use Rattle.std.specs.Prelude.{◌∷◌, []};
    ghost use Rattle.std.specs.Option.{option_map_or};
    ghost use Rattle.shadow_core.specs.Applying.{IsTaken};
    ghost use Rattle.shadow_core.specs.State.{State};
    ghost use Rattle.run_profile.specs.Private.Passing.{IsSettled, MayPass, ends_none};
    ghost use Rattle.run_profile.specs.Profile.{KeptRun};

    ghost Value = { KeptRun K };

    ghost view = { λ p. record {
      stamps = p.profiler;
      kept = p.kept;
      next = p.next;
      ended = option_map_or (λ one. one ∷ []) p.one p.ended.items;
      steps = p.steps;
    } };
}

// How many steps the event is.
#[inline(always)]
fn steps_of(e: &Event) -> u64
    ensures { result ≡ steps (e.now ∷ []) }
{
    match *e {
        Event::Step { .. } => 1,
        _ => 0,
    }
}

// Puts a copy of the record in the place.
#[inline(always)]
fn keep_one(place: &mut Option<Done>, one: &Done)
    ensures { place.new ≡ Some one.now }
{
    let copy = *one;
    *place = Some(copy);
}

impl<S: Lanes, K: Keeper> Profile<S, K> {
    /// No event so far; `kept` is a keeper that took none.
    pub fn new(alloc: Global, kept: K) -> Result<Profile<S, K>, AllocError>
        requires stamps { 3 ≤ S.MAX }
        requires nothing { K.holds kept [] [] }
        ensures { IfOk result (λ profile. IsProfileOf S.MAX K.holds profile []) }
    {
        let profiler = Profiler::new(alloc)?;
        Ok(Profile {
            profiler,
            kept,
            next: None,
            one: None,
            ended: Vec::new(alloc),
            steps: 0,
        })
    }

    // Hands the newest event to the keeper, where that is still to take it.
    #[inline(always)]
    fn settle(&mut self) -> Result<(), AllocError>
        requires { IsOfFormed S.MAX K.holds self.old }
        ensures stands { (past : List Event) → IsProfileOf S.MAX K.holds self.old past
            → IsProfileOf S.MAX K.holds self.new past }
        ensures settled { OnOk result (self.new.next ≡ None) }
        ensures no_allocation { (past : List Event) → IsProfileOf S.MAX K.holds self.old past
            → K.is_too_much past → IsOk result }
        ensures nothing { self.old.next ≡ None → IsOk result }
    {
        if self.next.is_none() {
            return Ok(());
        }
        self.settle_next()
    }

    // The same. It stands apart, so that the code of an event that leaves nothing to the keeper is short.
    #[inline(never)]
    fn settle_next(&mut self) -> Result<(), AllocError>
        requires { IsOfFormed S.MAX K.holds self.old }
        ensures stands { (past : List Event) → IsProfileOf S.MAX K.holds self.old past
            → IsProfileOf S.MAX K.holds self.new past }
        ensures settled { OnOk result (self.new.next ≡ None) }
        ensures no_allocation { (past : List Event) → IsProfileOf S.MAX K.holds self.old past
            → K.is_too_much past → IsOk result }
        ensures nothing { self.old.next ≡ None → IsOk result }
    {
        if let Some(e) = self.next {
            self.take_newest(e)?;
            self.next = None;
        }
        Ok(())
    }

    // Has the keeper take the newest event, with what ended at it.
    fn take_newest(&mut self, e: Event) -> Result<(), AllocError>
        requires { MayKeep K.holds self.old.kept self.old.ended e self.old.ended }
        ensures same { self.new ≡ (record self.old { kept = self.new.kept }) }
        ensures taken { (past : List Event) → K.holds self.old.kept past self.old.ended → self.old.ended ≡ ended e past
            → OnOk result (K.holds self.new.kept (e ∷ past) []) }
        ensures refused { (past : List Event) → K.holds self.old.kept past self.old.ended
            → OnErr result (K.holds self.new.kept past self.old.ended) }
        ensures no_allocation { (past : List Event) → K.holds self.old.kept past self.old.ended
            → K.is_too_much (e ∷ past) → IsOk result }
    {
        if let Some(one) = self.one {
            let ends = [one];
            return self.kept.take(e, &ends);
        }
        self.kept.take(e, &self.ended)
    }

    // Hands the newest event, which was just taken, to the keeper. If that is out of memory now, it is asked again before the
    // next event.
    #[inline(never)]
    fn hand_on(&mut self) -> Answer
        requires { IsOfFormed S.MAX K.holds self.old }
        ensures stands { (past : List Event) → IsProfileOf S.MAX K.holds self.old past
            → IsProfileOf S.MAX K.holds self.new past }
        ensures taken { result ≡ Taken }
    {
        let _ = self.settle_next();
        Answer::Taken
    }

    // Hands the newest event to the keeper before this one, and true; but false, with nothing handed on, where this event is too
    // deep. Where the keeper has taken all, the event is not tested here, since `apply` tests it.
    #[inline(always)]
    fn make_ready(&mut self, e: &Event) -> Result<bool, AllocError>
        requires { MayTake (IsProfileOf S.MAX K.holds) self.old e.now }
        ensures stands { (past : List Event) → IsProfileOf S.MAX K.holds self.old past
            → IsProfileOf S.MAX K.holds self.new past }
        ensures settled { IfOk result (λ ready. ready ≡ true → self.new.next ≡ None) }
        ensures refused { IfOk result (λ ready. ready ≡ false → (past : List Event)
            → IsProfileOf S.MAX K.holds self.old past → is_within S.MAX (e.now ∷ past) ≡ false) }
        ensures too_deep { (past : List Event) → IsProfileOf S.MAX K.holds self.old past
            → is_within S.MAX (e.now ∷ past) ≡ false → IsOk result }
    {
        if self.next.is_none() {
            return Ok(true);
        }
        if self.profiler.is_too_deep(e) {
            return Ok(false);
        }
        self.settle_next()?;
        Ok(true)
    }

    // Takes steps of a thread and an event after them. It stands apart, so that the code of what mostly happens is short and saves
    // no register.
    #[inline(never)]
    fn observe_both(&mut self, tid: Tid, count: u64, e: Event) -> Result<Observed, AllocError>
        requires may { MayTakeAfter (IsProfileOf S.MAX K.holds) (is_within S.MAX) self.old tid count e }
        requires some { 1 ≤ count }
        ensures observed { IfOk result (ObservesAfter (IsProfileOf S.MAX K.holds) (is_within S.MAX) tid count e self.old self.new) }
    {
        self.observe_steps(tid, count)?;
        self.observe(e)
    }

    // The same of a read of one word. It takes what its caller takes, and so is reached by a jump.
    #[inline(never)]
    fn read_apart(&mut self, tid: Tid, count: u64, w: Word) -> Answer
        requires may { MayTakeAfter (IsProfileOf S.MAX K.holds) (is_within S.MAX) self.old tid count (Read tid w 1) }
        requires some { 1 ≤ count }
        ensures observed { IfOk (result_of result) (ObservesAfter (IsProfileOf S.MAX K.holds) (is_within S.MAX) tid count (Read tid w 1) self.old self.new) }
    {
        let read = Event::Read {
            tid,
            first: w,
            count: 1,
        };
        Answer::of(self.observe_both(tid, count, read))
    }

    // The same of a write.
    #[inline(never)]
    fn written_apart(&mut self, tid: Tid, count: u64, w: Word) -> Answer
        requires may { MayTakeAfter (IsProfileOf S.MAX K.holds) (is_within S.MAX) self.old tid count (Write tid w 1) }
        requires some { 1 ≤ count }
        ensures observed { IfOk (result_of result) (ObservesAfter (IsProfileOf S.MAX K.holds) (is_within S.MAX) tid count (Write tid w 1) self.old self.new) }
    {
        let write = Event::Write {
            tid,
            first: w,
            count: 1,
        };
        Answer::of(self.observe_both(tid, count, write))
    }

    // The same of a call.
    #[inline(never)]
    fn call_apart(&mut self, tid: Tid, count: u64, entry: Addr, back: Addr) -> Answer
        requires may { MayTakeAfter (IsProfileOf S.MAX K.holds) (is_within S.MAX) self.old tid count (Call tid entry back) }
        requires some { 1 ≤ count }
        ensures observed { IfOk (result_of result) (ObservesAfter (IsProfileOf S.MAX K.holds) (is_within S.MAX) tid count (Call tid entry back) self.old self.new) }
    {
        Answer::of(self.observe_both(tid, count, Event::Call { tid, entry, back }))
    }

    // The same of a return.
    #[inline(never)]
    fn return_apart(&mut self, tid: Tid, count: u64, target: Addr) -> Answer
        requires may { MayTakeAfter (IsProfileOf S.MAX K.holds) (is_within S.MAX) self.old tid count (Ret tid target) }
        requires some { 1 ≤ count }
        ensures observed { IfOk (result_of result) (ObservesAfter (IsProfileOf S.MAX K.holds) (is_within S.MAX) tid count (Ret tid target) self.old self.new) }
    {
        Answer::of(self.observe_both(tid, count, Event::Ret { tid, target }))
    }

    // Counts steps of a thread and hands them to the keeper, which has taken all before them, and then an event that ends no
    // activation. The profiler takes both by itself.
    #[inline(always)]
    fn pass_after(&mut self, tid: Tid, count: u64, e: Event)
        requires may { MayPass K.holds self.old tid count e }
        requires some { 1 ≤ count }
        requires open { ends_none e ≡ true }
        ensures passed { (past : List Event) (stamps : State) → IsSettled K.holds self.old past
            → IsTaken S.MAX e (with_steps tid count past) stamps [] []
            → IsProfileOf S.MAX K.holds (record self.new { stamps = stamps }) (e ∷ with_steps tid count past) }
        ensures stamps { self.new.stamps ≡ self.old.stamps }
    {
        self.steps += count;
        self.kept.take_steps(tid, count);
        if !self.kept.pass(&e, &[]) {
            self.one = None;
            self.ended.clear();
            self.next = Some(e);
        }
    }

    // Takes steps of a thread, the last of which read one word. Mostly the keeper has taken all, and the page of the word is there.
    #[inline(always)]
    fn take_word_read(&mut self, tid: Tid, count: u64, w: Word) -> Answer
        requires may { MayTakeAfter (IsProfileOf S.MAX K.holds) (is_within S.MAX) self.old tid count (Read tid w 1) }
        requires some { 1 ≤ count }
        ensures observed { IfOk (result_of result) (ObservesAfter (IsProfileOf S.MAX K.holds) (is_within S.MAX) tid count (Read tid w 1) self.old self.new) }
    {
        let e = Event::Read {
            tid,
            first: w,
            count: 1,
        };
        if self.next.is_some() {
            return self.read_apart(tid, count, w);
        }
        match self.profiler.word_read(tid, w) {
            Some(access) => {
                self.pass_after(tid, count, e);
                self.profiler.read_after(tid, count, w, access);
                Answer::Taken
            }
            None => self.read_apart(tid, count, w),
        }
    }

    // The same of a write.
    #[inline(always)]
    fn take_word_written(&mut self, tid: Tid, count: u64, w: Word) -> Answer
        requires may { MayTakeAfter (IsProfileOf S.MAX K.holds) (is_within S.MAX) self.old tid count (Write tid w 1) }
        requires some { 1 ≤ count }
        ensures observed { IfOk (result_of result) (ObservesAfter (IsProfileOf S.MAX K.holds) (is_within S.MAX) tid count (Write tid w 1) self.old self.new) }
    {
        let e = Event::Write {
            tid,
            first: w,
            count: 1,
        };
        if self.next.is_some() {
            return self.written_apart(tid, count, w);
        }
        match self.profiler.word_written(tid, w) {
            Some(written) => {
                self.pass_after(tid, count, e);
                self.profiler.write_after(tid, count, w, written);
                Answer::Taken
            }
            None => self.written_apart(tid, count, w),
        }
    }

    // The same of a call.
    #[inline(always)]
    fn take_call(&mut self, tid: Tid, count: u64, entry: Addr, back: Addr) -> Answer
        requires may { MayTakeAfter (IsProfileOf S.MAX K.holds) (is_within S.MAX) self.old tid count (Call tid entry back) }
        requires some { 1 ≤ count }
        ensures observed { IfOk (result_of result) (ObservesAfter (IsProfileOf S.MAX K.holds) (is_within S.MAX) tid count (Call tid entry back) self.old self.new) }
    {
        let e = Event::Call { tid, entry, back };
        if self.next.is_some() {
            return self.call_apart(tid, count, entry, back);
        }
        if !self.profiler.call_after(tid, count, entry, back) {
            return self.call_apart(tid, count, entry, back);
        }
        self.pass_after(tid, count, e);
        Answer::Taken
    }

    // The same of a return. Mostly it ends one activation, whose record then need not go through the list.
    #[inline(always)]
    fn take_return(&mut self, tid: Tid, count: u64, target: Addr) -> Answer
        requires may { MayTakeAfter (IsProfileOf S.MAX K.holds) (is_within S.MAX) self.old tid count (Ret tid target) }
        requires some { 1 ≤ count }
        ensures observed { IfOk (result_of result) (ObservesAfter (IsProfileOf S.MAX K.holds) (is_within S.MAX) tid count (Ret tid target) self.old self.new) }
    {
        let e = Event::Ret { tid, target };
        if self.next.is_some() {
            return self.return_apart(tid, count, target);
        }
        match self.profiler.return_after(tid, count, target) {
            Some(ended) => {
                self.steps += count;
                self.kept.take_steps(tid, count);
                let ends = [ended];
                if self.kept.pass(&e, &ends) {
                    return Answer::Taken;
                }
                keep_one(&mut self.one, &ends[0]);
                self.next = Some(e);
                self.hand_on()
            }
            None => self.return_apart(tid, count, target),
        }
    }

    /// What was kept of the run, and what was counted.
    pub fn into_kept(self) -> Result<(K, Counts), AllocError>
        requires { IsOfFormed S.MAX K.holds self }
        ensures kept { IfOk result (λ parts. (past : List Event) → IsProfileOf S.MAX K.holds self past
            → K.holds parts.0 past []) }
        ensures counts { IfOk result (λ parts. (past : List Event) → IsProfileOf S.MAX K.holds self past
            → AreCountsOf S.MAX parts.1 past) }
        ensures no_allocation { (past : List Event) → IsProfileOf S.MAX K.holds self past
            → K.is_too_much past → IsOk result }
    {
        let mut profile = self;
        profile.settle()?;
        let Profile {
            profiler,
            kept,
            steps,
            ..
        } = profile;
        let counts = Counts {
            steps,
            pending: profiler.pending(),
            renumbered: profiler.renumbered(),
        };
        Ok((kept, counts))
    }
}

impl<S: Lanes, K: Keeper> Observer for Profile<S, K> {
    ghost use Rattle.trace_model.specs.Depth.{is_within};
    ghost use Rattle.trace_model.proofs.Cut.{steps_within, within_closed};
    ghost use Rattle.shadow_core.specs.Applying.{IsTaken};
    ghost use Rattle.shadow_core.specs.State.{State};
    ghost use Rattle.run_profile.specs.Private.Passing.{IsSettled, MayPass, ends_none};
    ghost use Rattle.run_profile.specs.Profile.{IsProfileOf};

    ghost stands = { IsProfileOf S.MAX K.holds };

    ghost fits = { λ _. is_within S.MAX };

    ghost fits_closed = { λ _. within_closed S.MAX };

    ghost steps_fit = { λ _. steps_within S.MAX };

    // What is too deep is refused without allocating.
    #[inline(always)]
    fn observe(&mut self, e: Event) -> Result<Observed, AllocError>
        requires { MayTake (IsProfileOf S.MAX K.holds) self.old e }
        ensures observed { IfOk result (Observes (IsProfileOf S.MAX K.holds) (is_within S.MAX) e self.old self.new) }
        ensures refused { OnErr result (StandsAsBefore (IsProfileOf S.MAX K.holds) self.old self.new) }
        ensures too_deep { (past : List Event) → IsProfileOf S.MAX K.holds self.old past
            → is_within S.MAX (e ∷ past) ≡ false → result ≡ Ok Observed.Refused }
        ensures last { (past : List Event) → IsProfileOf S.MAX K.holds self.old past
            → IfOk result (λ observed. observed ≡ Observed.Taken → self.new.ended ≡ ended e past) }
    {
        if !self.make_ready(&e)? {
            return Ok(Observed::Refused);
        }
        self.one = None;
        self.ended.clear();
        match self.profiler.apply(e, &mut self.ended) {
            Ok(()) => {
                self.steps += steps_of(&e);
                if !self.kept.pass(&e, &self.ended) {
                    self.next = Some(e);
                }
                Ok(Observed::Taken)
            }
            Err(ApplyError::TooDeep { .. }) => Ok(Observed::Refused),
            Err(ApplyError::Memory) => Err(AllocError),
        }
    }

    #[inline(always)]
    fn observe_after(&mut self, tid: Tid, count: u64, e: Event) -> Result<Observed, AllocError> {
        self.observe_both(tid, count, e)
    }

    #[inline(always)]
    fn observe_word_read(&mut self, tid: Tid, count: u64, w: Word) -> Answer {
        self.take_word_read(tid, count, w)
    }

    #[inline(always)]
    fn observe_word_written(&mut self, tid: Tid, count: u64, w: Word) -> Answer {
        self.take_word_written(tid, count, w)
    }

    #[inline(always)]
    fn observe_call(&mut self, tid: Tid, count: u64, entry: Addr, back: Addr) -> Answer {
        self.take_call(tid, count, entry, back)
    }

    #[inline(always)]
    fn observe_return(&mut self, tid: Tid, count: u64, target: Addr) -> Answer {
        self.take_return(tid, count, target)
    }

    #[inline(always)]
    fn observe_steps(&mut self, tid: Tid, count: u64) -> Result<(), AllocError>
        requires may { MayStepBy (IsProfileOf S.MAX K.holds) (is_within S.MAX) self.old tid count }
        requires some { 1 ≤ count }
        ensures stepped { OnOk result (StepsBy (IsProfileOf S.MAX K.holds) (is_within S.MAX) tid count self.old self.new) }
    {
        self.settle()?;
        self.profiler.take_steps(tid, count);
        self.kept.take_steps(tid, count);
        self.steps += count;
        Ok(())
    }
}
