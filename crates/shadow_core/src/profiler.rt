//! The online profiler.
ghost use Rattle.std.specs.Prelude.{◌≡◌, ◌==◌, ◌≤◌, ◌<◌, ◌+◌, ◌*◌, ◌++◌, ◌∷◌, [], ℕ, List, Some, map, nat_lt, true, false, vec_len, Err, IfErr, IfNone, IfOk, IfSome, IsOk, OnErr, OnOk, length};
ghost use Rattle.trace_model.specs.declared.event_kinds.Event.{Event};
ghost use Rattle.trace_model.specs.declared.event_kinds.Event.TheVariants.{Call, End, Fill, Read, Ret, Start, Step, Write};
ghost use Rattle.std.specs.Vec.{vec_capacity};
ghost use Rattle.trace_model.specs.Activations.{count_returned};
ghost use Rattle.trace_model.specs.Depth.{count_begun, is_within, pending};
ghost use Rattle.trace_model.specs.Observing.{MayStepBy, MayTake, MayTakeAfter, with_steps};
ghost use Rattle.shadow_pages.specs.Pages.{AreCovered, HasPlace, stamp_at};
ghost use Rattle.stamp_renumber.specs.Costs.{tick_cost};
ghost use Rattle.stamp_renumber.specs.Threads.{all_starts, calls_of, pages_of};
ghost use Rattle.shadow_core.specs.declared.apply_error.ApplyError.TheVariants.{Memory, TooDeep};
ghost use Rattle.shadow_core.specs.Accesses.{IsAccessTo, IsLatestOf};
ghost use Rattle.shadow_core.specs.Applying.{HasSamePages, IsTaken, DoesNotAllocate, NeedsNoPage};
ghost use Rattle.shadow_core.specs.Costs.{CostsAtMost, calls_seen};
ghost use Rattle.shadow_core.specs.Private.Reading.{IsReadWithin};
ghost use Rattle.stamp_table.specs.Allows.{is_too_deep};
ghost use Rattle.stamp_table.specs.Counting.{renumberings};
ghost use Rattle.shadow_core.specs.Profiling.{StandsFor};
ghost use Rattle.shadow_core.specs.State.{stepped, table_of_state};
ghost use Rattle.stamp_table.specs.Records.{finished};
ghost use Rattle.stamp_table.specs.Renewal.{bounded_tick};
ghost use Rattle.call_tracker.specs.ThreadCalls.{CountedCall};
ghost use Rattle.stamp_table.specs.Table.{empty_table};
ghost use Rattle.stamp_table.specs.Ticks.{is_switch, table_after, table_after_steps};

use crate::ApplyError;
use crate::advance::advance;
use crate::cover::{add_with_room, cover, cover_own};
use crate::endings::{end_calls, record_of};
use crate::reads::{Access, access_of, read, read_at, read_kept};
use crate::rows::ZeroRows;
use crate::writes::{Latest, fill, is_latest, latest_of, write, write_at};
use guest_words::{Addr, Tid, Word};
use shadow_pages::Shadow;
use shadow_stack::Steps;
use stamp_lanes::Lanes;
use stamp_renumber::{Returned, Threads};
use std::alloc::{AllocError, Global};
use std::marker::{Brand, Model};
use std::sync::ledger::{Blank, Ledger};
use trace_model::{Done, Event};

/// Where the stamps of a word are that its thread writes: of the thread's access and of the latest write.
#[derive(Clone, Copy)]
pub struct Written<S: Lanes> {
    pub access: Access<S>,
    pub latest: Latest<S>,
}

/// A profiler: it keeps the stamp table of the events so far, and no event.
#[derive(Drop)]
pub struct Profiler<S: Lanes> {
    counter: u32,
    writes: Shadow<S>,
    marks: Shadow<u8>,
    threads: Threads<S>,
    last: Option<Tid>,
    greatest: u32,
    weight: u64,
    renumbered: u64,
    // Where the running thread's access to a word has this stamp or a greater one, no one else wrote the word since.
    settled: u32,
    zeros: ZeroRows<S>,
}

impl<S: Lanes> Model for Profiler<S> {
    ghost use Rattle.shadow_core.specs.Profiling.{IsWhole};
    ghost use Rattle.shadow_core.specs.State.{State};

    ghost Value = { State };

    ghost view = { λ p. record {
      counter = p.counter;
      writes = p.writes.pages;
      marks = p.marks.pages;
      live = p.threads;
      last = p.last;
      greatest = p.greatest;
      weight = p.weight;
      renumbered = p.renumbered;
      settled = p.settled;
    } };

    ghost invariant = { λ p. IsWhole (record {
      counter = p.counter;
      writes = p.writes.pages;
      marks = p.marks.pages;
      live = p.threads;
      last = p.last;
      greatest = p.greatest;
      weight = p.weight;
      renumbered = p.renumbered;
      settled = p.settled;
    }) };
}

impl<S: Lanes> Profiler<S> {
    /// No event so far.
    pub fn new(alloc: Global) -> Result<Profiler<S>, AllocError>
        ensures table { IfOk result (λ p. table_of_state p ≡ empty_table) }
        ensures stands { 3 ≤ S.MAX → IfOk result (λ p. StandsFor S.MAX p []) }
    {
        Ok(Profiler {
            counter: 0,
            writes: Shadow::new(alloc)?,
            marks: Shadow::new(alloc)?,
            threads: Threads::new(alloc)?,
            last: None,
            greatest: 0,
            weight: 0,
            renumbered: 0,
            settled: 0,
            zeros: ZeroRows::new(alloc)?,
        })
    }

    /// How many activations are open.
    pub fn pending(&self) -> u64
        ensures value { result ≡ length (all_starts self.now.live.threads) }
        ensures stands { (past : List Event) → StandsFor S.MAX self.now past
            → result ≡ pending past }
    {
        self.threads.frame_count() as u64
    }

    /// How often the stamps were renumbered.
    pub fn renumbered(&self) -> u64
        ensures value { result ≡ self.now.renumbered }
        ensures stands { (past : List Event) → StandsFor S.MAX self.now past
            → result ≡ renumberings S.MAX past }
    {
        self.renumbered
    }

    /// How many pages of stamps the accesses of a thread have, each with the stamps of 1024 words. A thread that doesn't live has
    /// none.
    pub fn access_pages(&self, tid: Tid) -> usize
        ensures { result ≡ length (pages_of self.now.live.threads tid) }
    {
        if self.threads.lives(tid) {
            self.threads.shadow(tid).pages()
        } else {
            0
        }
    }

    // A step of a thread that lives.
    #[inline(always)]
    fn step<L: Ledger>(&mut self, tid: Tid, steps: &mut Steps<L>)
        requires { MayTake (StandsFor S.MAX) self.old (Step tid) }
        ensures pages { HasSamePages self.old self.new }
        ensures table { table_of_state self.new ≡ table_after (bounded_tick S.MAX) (Step tid)
            (table_of_state self.old) }
        ensures cost { CostsAtMost S.MAX (Step tid) self.old steps.old steps.new }
    {
        if is_running(self.last, tid) {
            steps.tick(); // the thread
            self.steps_on(tid, 1);
        } else {
            self.step_first(tid, steps);
        }
    }

    /// Takes `count` steps of a thread in a row, none of which is refused. It does not allocate, and adds no page of stamps.
    #[inline(always)]
    pub fn take_steps(&mut self, tid: Tid, count: u64)
        requires may { MayStepBy (StandsFor S.MAX) (is_within S.MAX) self.old tid count }
        requires some { 1 ≤ count }
        ensures pages { HasSamePages self.old self.new }
        ensures table { table_of_state self.new ≡ table_after_steps (bounded_tick S.MAX) tid count
            (table_of_state self.old) }
        ensures stands { (past : List Event) → StandsFor S.MAX self.old past
            → StandsFor S.MAX self.new (with_steps tid count past) }
    {
        if is_running(self.last, tid) {
            self.steps_on(tid, count);
        } else {
            self.steps_first(tid, count);
        }
    }

    /// Where the thread's access to a word is kept, and its stamp, if the thread made the last step and has the word's page.
    #[inline(always)]
    pub fn word_read(&self, tid: Tid, w: Word) -> Option<Access<S>>
        requires { MayTake (StandsFor S.MAX) self.now (Step tid) }
        ensures { IfSome result (λ a. IsAccessTo self.now tid w a.place (S.number_of a.stamp)) }
    {
        if !is_running(self.last, tid) {
            return None;
        }
        access_of(&self.threads, tid, w)
    }

    /// Takes `steps` steps of the thread that made the last one, and then its read of a word, whose access `word_read` gave. It
    /// does not allocate, and adds no page of stamps.
    #[inline(always)]
    pub fn read_after(&mut self, tid: Tid, steps: u64, w: Word, access: Access<S>)
        requires may { MayTakeAfter (StandsFor S.MAX) (is_within S.MAX) self.old tid steps (Read tid w 1) }
        requires some { 1 ≤ steps }
        requires access { IsAccessTo self.old tid w access.place (S.number_of access.stamp) }
        ensures table { table_of_state self.new ≡ table_after (bounded_tick S.MAX) (Read tid w 1)
            (table_after_steps (bounded_tick S.MAX) tid steps (table_of_state self.old)) }
        ensures stands { (past : List Event) → StandsFor S.MAX self.old past
            → IsTaken S.MAX (Read tid w 1) (with_steps tid steps past) self.new [] [] }
        ensures pages { HasSamePages self.old self.new }
    {
        self.steps_on(tid, steps);
        self.read_known_with::<Brand>(tid, w, access, Blank::new(1));
    }

    /// Where the thread's access to a word and the word's latest write are kept, with their stamps and the mark, if the thread
    /// made the last step and all three pages are there.
    #[inline(always)]
    pub fn word_written(&self, tid: Tid, w: Word) -> Option<Written<S>>
        requires { MayTake (StandsFor S.MAX) self.now (Step tid) }
        ensures access { IfSome result (λ x. IsAccessTo self.now tid w x.access.place (S.number_of x.access.stamp)) }
        ensures latest { IfSome result (λ x. IsLatestOf self.now w x.latest.place (S.number_of x.latest.stamp) x.latest.mark) }
    {
        if !is_running(self.last, tid) {
            return None;
        }
        let access = access_of(&self.threads, tid, w)?;
        let latest = latest_of(&self.writes, &self.marks, w)?;
        Some(Written { access, latest })
    }

    /// Takes `steps` steps of the thread that made the last one, and then its write of a word, of which `word_written` gave where
    /// its stamps are. It does not allocate, and adds no page of stamps.
    #[inline(always)]
    pub fn write_after(&mut self, tid: Tid, steps: u64, w: Word, written: Written<S>)
        requires may { MayTakeAfter (StandsFor S.MAX) (is_within S.MAX) self.old tid steps (Write tid w 1) }
        requires some { 1 ≤ steps }
        requires access { IsAccessTo self.old tid w written.access.place (S.number_of written.access.stamp) }
        requires latest { IsLatestOf self.old w written.latest.place (S.number_of written.latest.stamp) written.latest.mark }
        ensures table { table_of_state self.new ≡ table_after (bounded_tick S.MAX) (Write tid w 1)
            (table_after_steps (bounded_tick S.MAX) tid steps (table_of_state self.old)) }
        ensures stands { (past : List Event) → StandsFor S.MAX self.old past
            → IsTaken S.MAX (Write tid w 1) (with_steps tid steps past) self.new [] [] }
        ensures pages { HasSamePages self.old self.new }
    {
        self.steps_on(tid, steps);
        self.write_known(tid, w, written.access, written.latest);
    }

    /// Takes `steps` steps of the thread and then its call, and answers `true`, where the thread made the last step, the call is not
    /// too deep, no stamp is renumbered and no memory is needed. Otherwise it answers `false`, and nothing changes.
    #[inline(always)]
    pub fn call_after(&mut self, tid: Tid, steps: u64, entry: Addr, back: Addr) -> bool
        requires may { MayTakeAfter (StandsFor S.MAX) (is_within S.MAX) self.old tid steps (Call tid entry back) }
        requires some { 1 ≤ steps }
        ensures table { result ≡ true → table_of_state self.new ≡ table_after (bounded_tick S.MAX) (Call tid entry back)
            (table_after_steps (bounded_tick S.MAX) tid steps (table_of_state self.old)) }
        ensures stands { result ≡ true → (past : List Event) → StandsFor S.MAX self.old past
            → IsTaken S.MAX (Call tid entry back) (with_steps tid steps past) self.new [] [] }
        ensures same { result ≡ false → self.new ≡ self.old }
        ensures pages { HasSamePages self.old self.new }
    {
        if !is_running(self.last, tid) {
            return false;
        }
        if self.is_full() {
            return false;
        }
        if self.counter >= S::MAX {
            return false;
        }
        let now = S::from_number(self.counter + 1);
        if !self.threads.begin_after(tid, steps, now, entry, Some(back)) {
            return false;
        }
        self.counter += 1;
        self.weight += steps;
        self.weight += 1;
        true
    }

    /// Takes `steps` steps of the thread and then its return, and answers what is recorded of the activation that it ends, where the
    /// thread made the last step and the return ends one activation. Where it ends none or several, or the last step was
    /// another thread's, the answer is none, and nothing changes. It does not allocate.
    #[inline(always)]
    pub fn return_after(&mut self, tid: Tid, steps: u64, target: Addr) -> Option<Done>
        requires may { MayTakeAfter (StandsFor S.MAX) (is_within S.MAX) self.old tid steps (Ret tid target) }
        requires some { 1 ≤ steps }
        ensures table { IfSome result (λ ended. table_of_state self.new ≡ table_after (bounded_tick S.MAX) (Ret tid target)
            (table_after_steps (bounded_tick S.MAX) tid steps (table_of_state self.old))) }
        ensures stands { (past : List Event) → StandsFor S.MAX self.old past
            → IfSome result (λ ended. IsTaken S.MAX (Ret tid target) (with_steps tid steps past) self.new [] (ended ∷ [])) }
        ensures others { self.old.last ≡ Some tid → IfNone result ((count_returned target
            (map (λ (c : CountedCall). c.back) (calls_of self.old.live.threads tid).list) == 1) ≡ false) }
        ensures same { IfNone result (self.new ≡ self.old) }
        ensures pages { HasSamePages self.old self.new }
    {
        if !is_running(self.last, tid) {
            return None;
        }
        match self.threads.return_after(tid, steps, target) {
            Some(ended) => {
                self.weight += steps;
                self.weight += 1;
                Some(record_of(tid, ended))
            }
            None => None,
        }
    }

    // Steps of the thread that made the last one.
    #[inline(always)]
    fn steps_on(&mut self, tid: Tid, count: u64)
        requires may { MayStepBy (StandsFor S.MAX) (is_within S.MAX) self.old tid count }
        requires some { 1 ≤ count }
        requires runs { self.old.last ≡ Some tid }
        ensures state { self.new ≡ stepped tid count self.old }
        ensures pages { HasSamePages self.old self.new }
        ensures table { table_of_state self.new ≡ table_after_steps (bounded_tick S.MAX) tid count
            (table_of_state self.old) }
    {
        self.threads.add_steps(tid, count);
        self.weight += count;
    }

    // The first steps of a thread after those of another, or of all.
    #[cold]
    #[inline(never)]
    fn steps_first(&mut self, tid: Tid, count: u64)
        requires may { MayStepBy (StandsFor S.MAX) (is_within S.MAX) self.old tid count }
        requires some { 1 ≤ count }
        ensures pages { HasSamePages self.old self.new }
        ensures table { table_of_state self.new ≡ table_after_steps (bounded_tick S.MAX) tid count
            (table_of_state self.old) }
    {
        self.step_first_with::<Brand>(tid, Blank::new(1));
        if count > 1 {
            self.steps_on(tid, count - 1);
        }
    }

    // The first step of a thread after that of another, or of all.
    #[cold]
    #[inline(never)]
    fn step_first<L: Ledger>(&mut self, tid: Tid, steps: &mut Steps<L>)
        requires { MayTake (StandsFor S.MAX) self.old (Step tid) }
        ensures pages { HasSamePages self.old self.new }
        ensures table { table_of_state self.new ≡ table_after (bounded_tick S.MAX) (Step tid)
            (table_of_state self.old) }
        ensures cost { CostsAtMost S.MAX (Step tid) self.old steps.old steps.new }
    {
        steps.tick(); // the thread
        advance(
            is_switch(self.last, tid),
            &mut self.threads,
            &mut self.writes,
            &mut self.counter,
            &mut self.renumbered,
            steps,
        );
        self.threads.add_steps(tid, 1);
        self.settled = self.counter;
        self.last = Some(tid);
        self.weight += 1;
    }

    // The same, with a count of its own in the ledger of `blank`.
    #[inline(always)]
    fn step_first_with<L: Ledger>(&mut self, tid: Tid, blank: Blank)
        requires may { MayTake (StandsFor S.MAX) self.old (Step tid) }
        requires name { blank.name ≡ L.name }
        requires parts { blank.parts ≡ L.parts }
        requires some { 0 < blank.parts }
        ensures pages { HasSamePages self.old self.new }
        ensures table { table_of_state self.new ≡ table_after (bounded_tick S.MAX) (Step tid)
            (table_of_state self.old) }
    {
        let mut steps = Steps::<L>::new(blank);
        self.step_first(tid, &mut steps);
    }

    // A fill by the kernel.
    #[cold]
    #[inline(never)]
    fn fill<L: Ledger>(
        &mut self,
        first: Word,
        count: u32,
        steps: &mut Steps<L>,
    ) -> Result<(), AllocError>
        requires { MayTake (StandsFor S.MAX) self.old (Fill first count) }
        ensures table { OnOk result (table_of_state self.new
            ≡ table_after (bounded_tick S.MAX) (Fill first count) (table_of_state self.old)) }
        ensures refused { OnErr result (table_of_state self.new ≡ table_of_state self.old) }
        ensures no_allocation { AreCovered self.old.writes first count → IsOk result }
        ensures pages { AreCovered self.old.writes first count → HasSamePages self.old self.new }
        ensures cost { CostsAtMost S.MAX (Fill first count) self.old steps.old steps.new }
    {
        // A lookup of each page, of which there are at most as many as words, in two tables and twice; and each stamp and mark.
        steps.count(1 + 6 * u64::from(count));
        cover(&mut self.writes, &mut self.marks, first, count)?;
        advance(
            true, // at each fill
            &mut self.threads,
            &mut self.writes,
            &mut self.counter,
            &mut self.renumbered,
            steps,
        );
        let now = S::from_number(self.counter);
        fill(&mut self.writes, &mut self.marks, first, count, now);
        self.settled = self.counter;
        self.weight += 1;
        Ok(())
    }

    // A write by the thread that runs.
    #[inline(always)]
    fn write<L: Ledger>(
        &mut self,
        tid: Tid,
        first: Word,
        count: u32,
        steps: &mut Steps<L>,
    ) -> Result<(), AllocError>
        requires { MayTake (StandsFor S.MAX) self.old (Write tid first count) }
        ensures table { OnOk result (table_of_state self.new
            ≡ table_after (bounded_tick S.MAX) (Write tid first count) (table_of_state self.old)) }
        ensures refused { OnErr result (table_of_state self.new ≡ table_of_state self.old) }
        ensures no_allocation { AreCovered (pages_of self.old.live.threads tid) first count
            → AreCovered self.old.writes first count → IsOk result }
        ensures pages { AreCovered (pages_of self.old.live.threads tid) first count
            → AreCovered self.old.writes first count → HasSamePages self.old self.new }
        ensures cost { CostsAtMost S.MAX (Write tid first count) self.old steps.old steps.new }
    {
        if count == 1 {
            steps.count(11); // the thread twice and three pages, with two stamps and a mark, which are then written
            if let Some(access) = access_of(&self.threads, tid, first) {
                if let Some(latest) = latest_of(&self.writes, &self.marks, first) {
                    self.write_known(tid, first, access, latest);
                    return Ok(());
                }
            }
        }
        self.write_anew(tid, first, count, steps)
    }

    // A write of one word whose pages are there. Where the thread wrote the word last, since the counter last moved, it changes no
    // stamp and no mark.
    #[inline(always)]
    fn write_known(&mut self, tid: Tid, w: Word, access: Access<S>, latest: Latest<S>)
        requires may { MayTake (StandsFor S.MAX) self.old (Write tid w 1) }
        requires place { HasPlace (pages_of self.old.live.threads tid) w access.place }
        requires own { S.number_of access.stamp ≡ stamp_at (pages_of self.old.live.threads tid) w }
        requires written { HasPlace self.old.writes w latest.place }
        requires marked { HasPlace self.old.marks w latest.place }
        requires stamp { S.number_of latest.stamp ≡ stamp_at self.old.writes w }
        requires mark { latest.mark ≡ stamp_at self.old.marks w }
        ensures table { table_of_state self.new
            ≡ table_after (bounded_tick S.MAX) (Write tid w 1) (table_of_state self.old) }
        ensures pages { HasSamePages self.old self.new }
    {
        if access.stamp.number() == self.counter && is_latest(latest, self.counter) {
            self.weight += 1;
        } else {
            self.write_old(tid, w, access.place, latest.place);
        }
    }

    // The same, where a stamp or the mark may change.
    #[inline(never)]
    fn write_old(&mut self, tid: Tid, w: Word, own: usize, place: usize)
        requires may { MayTake (StandsFor S.MAX) self.old (Write tid w 1) }
        requires own { HasPlace (pages_of self.old.live.threads tid) w own }
        requires written { HasPlace self.old.writes w place }
        requires marked { HasPlace self.old.marks w place }
        ensures table { table_of_state self.new
            ≡ table_after (bounded_tick S.MAX) (Write tid w 1) (table_of_state self.old) }
        ensures pages { HasSamePages self.old self.new }
    {
        let now = S::from_number(self.counter);
        write_at(
            &mut self.threads,
            tid,
            own,
            &mut self.writes,
            &mut self.marks,
            place,
            w,
            now,
        );
        self.weight += 1;
    }

    // A write of several words, or of one whose pages may not be there.
    #[cold]
    #[inline(never)]
    fn write_anew<L: Ledger>(
        &mut self,
        tid: Tid,
        first: Word,
        count: u32,
        steps: &mut Steps<L>,
    ) -> Result<(), AllocError>
        requires { MayTake (StandsFor S.MAX) self.old (Write tid first count) }
        ensures table { OnOk result (table_of_state self.new
            ≡ table_after (bounded_tick S.MAX) (Write tid first count) (table_of_state self.old)) }
        ensures refused { OnErr result (table_of_state self.new ≡ table_of_state self.old) }
        ensures no_allocation { AreCovered (pages_of self.old.live.threads tid) first count
            → AreCovered self.old.writes first count → IsOk result }
        ensures pages { AreCovered (pages_of self.old.live.threads tid) first count
            → AreCovered self.old.writes first count → HasSamePages self.old self.new }
        ensures cost { steps.new ≡ steps.old + 6 + 9 * count }
    {
        // The thread, and a lookup of each page, of which there are at most as many as words, in three tables and twice; and each
        // stamp and mark.
        steps.count(6 + 9 * u64::from(count));
        cover_own(&mut self.threads, tid, first, count)?;
        cover(&mut self.writes, &mut self.marks, first, count)?;
        let now = S::from_number(self.counter);
        write(
            &mut self.threads,
            tid,
            &mut self.writes,
            &mut self.marks,
            first,
            count,
            now,
        );
        self.weight += 1;
        Ok(())
    }

    // A thread starts, with its first activation.
    #[cold]
    #[inline(never)]
    fn start<L: Ledger>(
        &mut self,
        tid: Tid,
        entry: Addr,
        steps: &mut Steps<L>,
    ) -> Result<(), AllocError>
        requires { MayTake (StandsFor S.MAX) self.old (Start tid entry) }
        ensures table { OnOk result (table_of_state self.new
            ≡ table_after (bounded_tick S.MAX) (Start tid entry) (table_of_state self.old)) }
        ensures refused { OnErr result (table_of_state self.new ≡ table_of_state self.old) }
        ensures cost { CostsAtMost S.MAX (Start tid entry) self.old steps.old steps.new }
    {
        steps.count(6); // the thread, which is added, reserved for, and given a frame with its start
        add_with_room(&mut self.threads, tid)?;
        advance(
            true,
            &mut self.threads,
            &mut self.writes,
            &mut self.counter,
            &mut self.renumbered,
            steps,
        );
        let now = S::from_number(self.counter);
        self.threads.begin(tid, now, entry, None);
        self.settled = self.counter;
        self.greatest = tid.number();
        self.weight += 1;
        Ok(())
    }

    // A call by the thread that runs. Mostly there is room for it, and the counter is not at its end.
    #[inline(always)]
    fn call<L: Ledger>(
        &mut self,
        tid: Tid,
        entry: Addr,
        back: Addr,
        steps: &mut Steps<L>,
    ) -> Result<(), AllocError>
        requires { MayTake (StandsFor S.MAX) self.old (Call tid entry back) }
        ensures table { OnOk result (table_of_state self.new
            ≡ table_after (bounded_tick S.MAX) (Call tid entry back) (table_of_state self.old)) }
        ensures refused { OnErr result (table_of_state self.new ≡ table_of_state self.old) }
        ensures cost { CostsAtMost S.MAX (Call tid entry back) self.old steps.old steps.new }
        ensures pages { HasSamePages self.old self.new }
    {
        steps.count(3); // the thread twice, and the start of its frame
        if self.counter < S::MAX && self.threads.has_room(tid) {
            self.counter += 1;
            let now = S::from_number(self.counter);
            self.threads.begin(tid, now, entry, Some(back));
            self.weight += 1;
            return Ok(());
        }
        self.call_anew(tid, entry, back, steps)
    }

    // The same, where the stamps may be renumbered and memory may be wanted.
    #[cold]
    #[inline(never)]
    fn call_anew<L: Ledger>(
        &mut self,
        tid: Tid,
        entry: Addr,
        back: Addr,
        steps: &mut Steps<L>,
    ) -> Result<(), AllocError>
        requires { MayTake (StandsFor S.MAX) self.old (Call tid entry back) }
        ensures table { OnOk result (table_of_state self.new
            ≡ table_after (bounded_tick S.MAX) (Call tid entry back) (table_of_state self.old)) }
        ensures refused { OnErr result (table_of_state self.new ≡ table_of_state self.old) }
        ensures cost { steps.new ≤ steps.old + 4 + tick_cost S.MAX self.old.counter self.old.live self.old.writes }
        ensures pages { HasSamePages self.old self.new }
    {
        steps.count(4); // the thread three times, and the start of its frame
        self.threads.reserve(tid)?;
        advance(
            true,
            &mut self.threads,
            &mut self.writes,
            &mut self.counter,
            &mut self.renumbered,
            steps,
        );
        let now = S::from_number(self.counter);
        self.threads.begin(tid, now, entry, Some(back));
        self.settled = self.counter;
        self.weight += 1;
        Ok(())
    }

    // A return of the thread that runs: the calls that it ends are recorded.
    #[inline(always)]
    fn return_to<L: Ledger>(
        &mut self,
        tid: Tid,
        target: Addr,
        done: &mut Vec<Done>,
        steps: &mut Steps<L>,
    ) -> Result<(), AllocError>
        requires { MayTake (StandsFor S.MAX) self.old (Ret tid target) }
        ensures table { OnOk result (table_of_state self.new
            ≡ table_after (bounded_tick S.MAX) (Ret tid target) (table_of_state self.old)) }
        ensures done { OnOk result (done.new.items
            ≡ done.old.items ++ finished (Ret tid target) (table_of_state self.old)) }
        ensures refused { OnErr result (table_of_state self.new ≡ table_of_state self.old) }
        ensures kept { OnErr result (done.new.items ≡ done.old.items) }
        ensures no_allocation { vec_len done.old + count_returned target
            (map (λ (c : CountedCall). c.back) (calls_of self.old.live.threads tid).list)
            ≤ vec_capacity done.old → IsOk result }
        ensures pages { HasSamePages self.old self.new }
        ensures cost { CostsAtMost S.MAX (Ret tid target) self.old steps.old steps.new }
    {
        if done.len() < done.capacity() {
            self.return_with_room(tid, target, done, steps)
        } else {
            self.return_full(tid, target, done, steps)
        }
    }

    // The same, where the list has room for a record. A return mostly ends one call, and then looks the thread up once.
    #[inline(always)]
    fn return_with_room<L: Ledger>(
        &mut self,
        tid: Tid,
        target: Addr,
        done: &mut Vec<Done>,
        steps: &mut Steps<L>,
    ) -> Result<(), AllocError>
        requires may { MayTake (StandsFor S.MAX) self.old (Ret tid target) }
        requires room { vec_len done.old + 1 ≤ vec_capacity done.old }
        ensures table { OnOk result (table_of_state self.new
            ≡ table_after (bounded_tick S.MAX) (Ret tid target) (table_of_state self.old)) }
        ensures done { OnOk result (done.new.items
            ≡ done.old.items ++ finished (Ret tid target) (table_of_state self.old)) }
        ensures refused { OnErr result (table_of_state self.new ≡ table_of_state self.old) }
        ensures kept { OnErr result (done.new.items ≡ done.old.items) }
        ensures no_allocation { vec_len done.old + count_returned target
            (map (λ (c : CountedCall). c.back) (calls_of self.old.live.threads tid).list)
            ≤ vec_capacity done.old → IsOk result }
        ensures pages { HasSamePages self.old self.new }
        ensures cost { CostsAtMost S.MAX (Ret tid target) self.old steps.old steps.new }
    {
        steps.count(3); // the thread, its innermost call, and that call's frame
        match self.return_one(tid, target) {
            Some(ended) => {
                done.push(ended).unwrap();
                Ok(())
            }
            None => self.return_full(tid, target, done, steps),
        }
    }

    // Takes a return of the thread that runs, where it ends one activation, and says what is recorded of that. Where it ends none
    // or several, nothing changes. It does not allocate.
    #[inline(always)]
    fn return_one(&mut self, tid: Tid, target: Addr) -> Option<Done>
        requires { MayTake (StandsFor S.MAX) self.old (Ret tid target) }
        ensures table { IfSome result (λ ended. table_of_state self.new
            ≡ table_after (bounded_tick S.MAX) (Ret tid target) (table_of_state self.old)) }
        ensures records { IfSome result (λ ended. ended ∷ [] ≡ finished (Ret tid target) (table_of_state self.old)) }
        ensures stands { (past : List Event) → StandsFor S.MAX self.old past
            → IfSome result (λ ended. IsTaken S.MAX (Ret tid target) past self.new [] (ended ∷ [])) }
        ensures others { IfNone result ((count_returned target
            (map (λ (c : CountedCall). c.back) (calls_of self.old.live.threads tid).list) == 1) ≡ false) }
        ensures same { IfNone result (self.new ≡ self.old) }
        ensures pages { HasSamePages self.old self.new }
    {
        match self.threads.return_to(tid, target) {
            Returned::One(ended) => {
                self.weight += 1;
                Some(record_of(tid, ended))
            }
            Returned::Many(_) => None,
        }
    }

    // The same, where the list may have none, or the return ends several calls or none.
    #[cold]
    #[inline(never)]
    fn return_full<L: Ledger>(
        &mut self,
        tid: Tid,
        target: Addr,
        done: &mut Vec<Done>,
        steps: &mut Steps<L>,
    ) -> Result<(), AllocError>
        requires { MayTake (StandsFor S.MAX) self.old (Ret tid target) }
        ensures table { OnOk result (table_of_state self.new
            ≡ table_after (bounded_tick S.MAX) (Ret tid target) (table_of_state self.old)) }
        ensures done { OnOk result (done.new.items
            ≡ done.old.items ++ finished (Ret tid target) (table_of_state self.old)) }
        ensures refused { OnErr result (table_of_state self.new ≡ table_of_state self.old) }
        ensures kept { OnErr result (done.new.items ≡ done.old.items) }
        ensures no_allocation { vec_len done.old + count_returned target
            (map (λ (c : CountedCall). c.back) (calls_of self.old.live.threads tid).list)
            ≤ vec_capacity done.old → IsOk result }
        ensures pages { HasSamePages self.old self.new }
        ensures cost { steps.new ≤ steps.old + 2 + 4 * calls_seen self.old.live tid target }
    {
        let ended = self.threads.ending(tid, target);
        // The thread twice, and the calls that are looked at, twice where the list has room.
        let seen = if ended == 0 {
            self.threads.frames(tid).depth()
        } else {
            ended
        };
        steps.count(2);
        steps.count(seen as u64);
        steps.count(seen as u64);
        done.reserve(ended)?;
        end_calls(&mut self.threads, tid, ended, done, steps);
        self.weight += 1;
        Ok(())
    }

    // The end of a thread: all its calls are recorded.
    #[cold]
    #[inline(never)]
    fn end<L: Ledger>(
        &mut self,
        tid: Tid,
        done: &mut Vec<Done>,
        steps: &mut Steps<L>,
    ) -> Result<(), AllocError>
        requires { MayTake (StandsFor S.MAX) self.old (End tid) }
        ensures table { OnOk result (table_of_state self.new
            ≡ table_after (bounded_tick S.MAX) (End tid) (table_of_state self.old)) }
        ensures done { OnOk result (done.new.items
            ≡ done.old.items ++ finished (End tid) (table_of_state self.old)) }
        ensures refused { OnErr result (table_of_state self.new ≡ table_of_state self.old) }
        ensures kept { OnErr result (done.new.items ≡ done.old.items) }
        ensures cost { CostsAtMost S.MAX (End tid) self.old steps.old steps.new }
    {
        steps.count(2); // the thread, before its calls end and when it goes
        let ended = self.threads.frames(tid).depth();
        done.reserve(ended)?;
        end_calls(&mut self.threads, tid, ended, done, steps);
        self.threads.remove(tid);
        self.weight += 1;
        Ok(())
    }

    // A read by the thread that runs.
    #[inline(always)]
    fn read<L: Ledger>(
        &mut self,
        tid: Tid,
        first: Word,
        count: u32,
        steps: &mut Steps<L>,
    ) -> Result<(), AllocError>
        requires { MayTake (StandsFor S.MAX) self.old (Read tid first count) }
        ensures table { OnOk result (table_of_state self.new
            ≡ table_after (bounded_tick S.MAX) (Read tid first count) (table_of_state self.old)) }
        ensures refused { OnErr result (table_of_state self.new ≡ table_of_state self.old) }
        ensures no_allocation { AreCovered (pages_of self.old.live.threads tid) first count
            → IsOk result }
        ensures pages { AreCovered (pages_of self.old.live.threads tid) first count
            → HasSamePages self.old self.new }
        ensures cost { CostsAtMost S.MAX (Read tid first count) self.old steps.old steps.new }
    {
        if count == 1 {
            steps.count(3); // the thread, and a page with the stamp
            if let Some(access) = access_of(&self.threads, tid, first) {
                self.read_known(tid, first, access, steps);
                return Ok(());
            }
        }
        self.read_anew(tid, first, count, steps)
    }

    // A read of one word whose page the thread has. Where the counter has not moved since the thread's access, it changes no
    // stamp and no sum.
    #[inline(always)]
    fn read_known<L: Ledger>(&mut self, tid: Tid, w: Word, access: Access<S>, steps: &mut Steps<L>)
        requires may { MayTake (StandsFor S.MAX) self.old (Read tid w 1) }
        requires place { HasPlace (pages_of self.old.live.threads tid) w access.place }
        requires own { S.number_of access.stamp ≡ stamp_at (pages_of self.old.live.threads tid) w }
        ensures table { table_of_state self.new
            ≡ table_after (bounded_tick S.MAX) (Read tid w 1) (table_of_state self.old) }
        ensures pages { HasSamePages self.old self.new }
        ensures cost { IsReadWithin 11 self.old.live tid w 1 steps.old steps.new }
    {
        if access.stamp.number() == self.counter {
            self.weight += 2;
        } else if access.stamp.number() >= self.settled {
            self.read_own(tid, w, access, steps);
        } else {
            self.read_old(tid, w, access, steps);
        }
    }

    // The same, with a count of its own in the ledger of `blank`.
    #[inline(always)]
    fn read_known_with<L: Ledger>(&mut self, tid: Tid, w: Word, access: Access<S>, blank: Blank)
        requires may { MayTake (StandsFor S.MAX) self.old (Read tid w 1) }
        requires place { HasPlace (pages_of self.old.live.threads tid) w access.place }
        requires own { S.number_of access.stamp ≡ stamp_at (pages_of self.old.live.threads tid) w }
        requires name { blank.name ≡ L.name }
        requires parts { blank.parts ≡ L.parts }
        requires some { 0 < blank.parts }
        ensures table { table_of_state self.new
            ≡ table_after (bounded_tick S.MAX) (Read tid w 1) (table_of_state self.old) }
        ensures pages { HasSamePages self.old self.new }
    {
        let mut steps = Steps::<L>::new(blank);
        self.read_known(tid, w, access, &mut steps);
    }

    // The same, where the counter has moved, and another thread or the kernel may have written the word since.
    #[cold]
    #[inline(never)]
    fn read_old<L: Ledger>(&mut self, tid: Tid, w: Word, access: Access<S>, steps: &mut Steps<L>)
        requires may { MayTake (StandsFor S.MAX) self.old (Read tid w 1) }
        requires place { HasPlace (pages_of self.old.live.threads tid) w access.place }
        requires own { S.number_of access.stamp ≡ stamp_at (pages_of self.old.live.threads tid) w }
        ensures table { table_of_state self.new
            ≡ table_after (bounded_tick S.MAX) (Read tid w 1) (table_of_state self.old) }
        ensures pages { HasSamePages self.old self.new }
        ensures cost { IsReadWithin 11 self.old.live tid w 1 steps.old steps.new }
    {
        steps.count(2); // a page, with the stamp
        if access.stamp.number() < self.writes.get(w).number() {
            self.read_foreign(tid, w, access, steps);
        } else {
            self.read_own(tid, w, access, steps);
        }
    }

    // The same, where no one else wrote the word since the thread's access.
    #[inline(always)]
    fn read_own<L: Ledger>(&mut self, tid: Tid, w: Word, access: Access<S>, steps: &mut Steps<L>)
        requires may { MayTake (StandsFor S.MAX) self.old (Read tid w 1) }
        requires place { HasPlace (pages_of self.old.live.threads tid) w access.place }
        requires own { S.number_of access.stamp ≡ stamp_at (pages_of self.old.live.threads tid) w }
        requires kept { stamp_at self.old.writes w ≤ stamp_at (pages_of self.old.live.threads tid) w }
        ensures table { table_of_state self.new
            ≡ table_after (bounded_tick S.MAX) (Read tid w 1) (table_of_state self.old) }
        ensures pages { HasSamePages self.old self.new }
        ensures cost { IsReadWithin 4 self.old.live tid w 1 steps.old steps.new }
    {
        self.weight += 2;
        let now = S::from_number(self.counter);
        read_kept(&mut self.threads, tid, w, access, now, steps);
    }

    // The same, where another thread or the kernel may have written the word since.
    #[cold]
    #[inline(never)]
    fn read_foreign<L: Ledger>(
        &mut self,
        tid: Tid,
        w: Word,
        access: Access<S>,
        steps: &mut Steps<L>,
    )
        requires may { MayTake (StandsFor S.MAX) self.old (Read tid w 1) }
        requires place { HasPlace (pages_of self.old.live.threads tid) w access.place }
        requires own { S.number_of access.stamp ≡ stamp_at (pages_of self.old.live.threads tid) w }
        ensures table { table_of_state self.new
            ≡ table_after (bounded_tick S.MAX) (Read tid w 1) (table_of_state self.old) }
        ensures pages { HasSamePages self.old self.new }
        ensures cost { IsReadWithin 9 self.old.live tid w 1 steps.old steps.new }
    {
        steps.tick(); // the thread
        let now = S::from_number(self.counter);
        let found = read_at(
            &mut self.threads,
            tid,
            w,
            access,
            &self.writes,
            &self.marks,
            now,
            steps,
        );
        self.threads.add_found(tid, found.thread, found.kernel);
        self.weight += 2;
    }

    // A read of several words, or of one whose page the thread may not have.
    #[cold]
    #[inline(never)]
    fn read_anew<L: Ledger>(
        &mut self,
        tid: Tid,
        first: Word,
        count: u32,
        steps: &mut Steps<L>,
    ) -> Result<(), AllocError>
        requires { MayTake (StandsFor S.MAX) self.old (Read tid first count) }
        ensures table { OnOk result (table_of_state self.new
            ≡ table_after (bounded_tick S.MAX) (Read tid first count) (table_of_state self.old)) }
        ensures refused { OnErr result (table_of_state self.new ≡ table_of_state self.old) }
        ensures no_allocation { AreCovered (pages_of self.old.live.threads tid) first count
            → IsOk result }
        ensures pages { AreCovered (pages_of self.old.live.threads tid) first count
            → HasSamePages self.old self.new }
        ensures cost { IsReadWithin (4 + 24 * count) self.old.live tid first count steps.old steps.new }
    {
        // The thread, and a lookup of each page, of which there are at most as many as words.
        steps.count(4 + u64::from(count));
        cover_own(&mut self.threads, tid, first, count)?;
        let now = S::from_number(self.counter);
        let found = read(
            &mut self.threads,
            tid,
            first,
            count,
            &self.writes,
            &self.marks,
            &self.zeros,
            now,
            steps,
        );
        self.threads.add_found(tid, found.thread, found.kernel);
        self.weight += 1 + u64::from(count);
        Ok(())
    }

    // Whether one more open activation is too many.
    fn is_full(&self) -> bool
        requires { 3 * length (all_starts self.now.live.threads) + 3 ≤ S.MAX }
        ensures { result ≡ nat_lt S.MAX (3 * (length (all_starts self.now.live.threads) + 2)) }
    {
        u64::from(S::MAX / 3) < self.threads.frame_count() as u64 + 2
    }

    /// Whether the event begins an activation too many, so that `apply` would refuse it.
    #[inline(always)]
    pub fn is_too_deep(&self, e: &Event) -> bool
        requires { MayTake (StandsFor S.MAX) self.now e.now }
        ensures { (past : List Event) → StandsFor S.MAX self.now past
            → result ≡ is_too_deep S.MAX e.now past }
    {
        begins(e) && self.is_full()
    }

    // Takes an event that is not too deep.
    #[inline(always)]
    fn take<L: Ledger>(
        &mut self,
        e: Event,
        done: &mut Vec<Done>,
        steps: &mut Steps<L>,
    ) -> Result<(), AllocError>
        requires { MayTake (StandsFor S.MAX) self.old e }
        ensures table { OnOk result (table_of_state self.new
            ≡ table_after (bounded_tick S.MAX) e (table_of_state self.old)) }
        ensures records { OnOk result (done.new.items
            ≡ done.old.items ++ finished e (table_of_state self.old)) }
        ensures refused { OnErr result (table_of_state self.new ≡ table_of_state self.old) }
        ensures kept { OnErr result (done.new.items ≡ done.old.items) }
        ensures no_allocation { DoesNotAllocate e (table_of_state self.old) (vec_len done.old)
            (vec_capacity done.old) → IsOk result }
        ensures pages { NeedsNoPage e (table_of_state self.old) → HasSamePages self.old self.new }
        ensures cost { CostsAtMost S.MAX e self.old steps.old steps.new }
    {
        match e {
            Event::Step { tid } => {
                self.step(tid, steps);
                Ok(())
            }
            Event::Read { tid, first, count } => self.read(tid, first, count, steps),
            Event::Write { tid, first, count } => self.write(tid, first, count, steps),
            Event::Fill { first, count } => self.fill(first, count, steps),
            Event::Call { tid, entry, back } => self.call(tid, entry, back, steps),
            Event::Ret { tid, target } => self.return_to(tid, target, done, steps),
            Event::Start { tid, entry } => self.start(tid, entry, steps),
            Event::End { tid } => self.end(tid, done, steps),
        }
    }

    /// Takes the next event of the trace, and adds to the list what is recorded of the activations that it ends, the
    /// innermost first. An event that begins an activation too many is refused before any memory is allocated. After a refusal
    /// all is as before. An event that needs no page of stamps adds none.
    #[inline(always)]
    pub fn apply(&mut self, e: Event, done: &mut Vec<Done>) -> Result<(), ApplyError>
        requires { MayTake (StandsFor S.MAX) self.old e }
        ensures table { OnOk result (table_of_state self.new
            ≡ table_after (bounded_tick S.MAX) e (table_of_state self.old)) }
        ensures records { OnOk result (done.new.items
            ≡ done.old.items ++ finished e (table_of_state self.old)) }
        ensures stands { (past : List Event) → StandsFor S.MAX self.old past
            → OnOk result (IsTaken S.MAX e past self.new done.old.items done.new.items) }
        ensures deep { (past : List Event) → StandsFor S.MAX self.old past
            → is_too_deep S.MAX e past ≡ true → result ≡ Err (TooDeep (pending past)) }
        ensures deep_same { (n : ℕ) → result ≡ Err (TooDeep n) → self.new ≡ self.old }
        ensures not_deep { (past : List Event) → StandsFor S.MAX self.old past
            → is_too_deep S.MAX e past ≡ false → IfErr result (λ error. error ≡ Memory) }
        ensures refused { OnErr result (table_of_state self.new ≡ table_of_state self.old) }
        ensures kept { OnErr result (done.new.items ≡ done.old.items) }
        ensures no_allocation { DoesNotAllocate e (table_of_state self.old) (vec_len done.old)
            (vec_capacity done.old) → IsOk result }
        ensures pages { NeedsNoPage e (table_of_state self.old) → HasSamePages self.old self.new }
    {
        self.apply_with::<Brand>(e, done, Blank::new(1))
    }

    // The same, with a count of its own in the ledger of `blank`.
    #[inline(always)]
    fn apply_with<L: Ledger>(
        &mut self,
        e: Event,
        done: &mut Vec<Done>,
        blank: Blank,
    ) -> Result<(), ApplyError>
        requires may { MayTake (StandsFor S.MAX) self.old e }
        requires name { blank.name ≡ L.name }
        requires parts { blank.parts ≡ L.parts }
        requires some { 0 < blank.parts }
        ensures table { OnOk result (table_of_state self.new
            ≡ table_after (bounded_tick S.MAX) e (table_of_state self.old)) }
        ensures records { OnOk result (done.new.items
            ≡ done.old.items ++ finished e (table_of_state self.old)) }
        ensures stands { (past : List Event) → StandsFor S.MAX self.old past
            → OnOk result (IsTaken S.MAX e past self.new done.old.items done.new.items) }
        ensures deep { (past : List Event) → StandsFor S.MAX self.old past
            → is_too_deep S.MAX e past ≡ true → result ≡ Err (TooDeep (pending past)) }
        ensures deep_same { (n : ℕ) → result ≡ Err (TooDeep n) → self.new ≡ self.old }
        ensures not_deep { (past : List Event) → StandsFor S.MAX self.old past
            → is_too_deep S.MAX e past ≡ false → IfErr result (λ error. error ≡ Memory) }
        ensures refused { OnErr result (table_of_state self.new ≡ table_of_state self.old) }
        ensures kept { OnErr result (done.new.items ≡ done.old.items) }
        ensures no_allocation { DoesNotAllocate e (table_of_state self.old) (vec_len done.old)
            (vec_capacity done.old) → IsOk result }
        ensures pages { NeedsNoPage e (table_of_state self.old) → HasSamePages self.old self.new }
    {
        let mut steps = Steps::<L>::new(blank);
        self.apply_counted(e, done, &mut steps)
    }

    /// The same, and counts what it does: each lookup of a thread or of a page, each comparison of the stamps of frames and of the
    /// return addresses of calls, and each stamp and mark that is read or written. A count costs nothing at run time. `apply` is
    /// this call, with a count that no one sees.
    #[inline(always)]
    pub fn apply_counted<L: Ledger>(
        &mut self,
        e: Event,
        done: &mut Vec<Done>,
        steps: &mut Steps<L>,
    ) -> Result<(), ApplyError>
        requires { MayTake (StandsFor S.MAX) self.old e }
        ensures table { OnOk result (table_of_state self.new
            ≡ table_after (bounded_tick S.MAX) e (table_of_state self.old)) }
        ensures records { OnOk result (done.new.items
            ≡ done.old.items ++ finished e (table_of_state self.old)) }
        ensures stands { (past : List Event) → StandsFor S.MAX self.old past
            → OnOk result (IsTaken S.MAX e past self.new done.old.items done.new.items) }
        ensures deep { (past : List Event) → StandsFor S.MAX self.old past
            → is_too_deep S.MAX e past ≡ true → result ≡ Err (TooDeep (pending past)) }
        ensures deep_same { (n : ℕ) → result ≡ Err (TooDeep n) → self.new ≡ self.old }
        ensures not_deep { (past : List Event) → StandsFor S.MAX self.old past
            → is_too_deep S.MAX e past ≡ false → IfErr result (λ error. error ≡ Memory) }
        ensures refused { OnErr result (table_of_state self.new ≡ table_of_state self.old) }
        ensures kept { OnErr result (done.new.items ≡ done.old.items) }
        ensures no_allocation { DoesNotAllocate e (table_of_state self.old) (vec_len done.old)
            (vec_capacity done.old) → IsOk result }
        ensures pages { NeedsNoPage e (table_of_state self.old) → HasSamePages self.old self.new }
        ensures cost { CostsAtMost S.MAX e self.old steps.old steps.new }
    {
        if self.is_too_deep(&e) {
            return Err(ApplyError::TooDeep {
                pending: self.pending(),
            });
        }
        self.take(e, done, steps)?;
        Ok(())
    }
}

// Whether the event begins an activation.
#[inline(always)]
fn begins(e: &Event) -> bool
    ensures { result ≡ nat_lt 0 (count_begun e.now) }
{
    match *e {
        Event::Start { .. } | Event::Call { .. } => true,
        _ => false,
    }
}

// Whether a step is by another thread than the step before. The first step is no switch.
#[inline(always)]
fn is_switch(last: Option<Tid>, tid: Tid) -> bool
    ensures { result ≡ is_switch last tid }
{
    match last {
        Some(last) => last != tid,
        None => false,
    }
}

// Whether the last step was by the thread.
#[inline(always)]
fn is_running(last: Option<Tid>, tid: Tid) -> bool
    ensures runs { result ≡ true → last ≡ Some tid }
    ensures exact { last ≡ Some tid → result ≡ true }
{
    match last {
        Some(last) => last == tid,
        None => false,
    }
}
