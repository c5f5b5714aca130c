//! What is kept of a thread.
ghost use Rattle.std.specs.Prelude.{◌≡◌, ◌==◌, ◌≤◌, ◌<◌, ◌+◌, ◌*◌, ◌^◌, ◌++◌, ◌∷◌, [], ℕ, All, Contains, IfOk, IfSome, OnOk, Some, true, false, length, map, nat_lt, slice_get};
ghost use Rattle.std.specs.Borrow.{sem};
ghost use Rattle.std.specs.Vec.{vec_capacity};
ghost use Rattle.std.specs.List.Sorted.{IsNonDecreasingBy};
ghost use Rattle.shadow_stack.specs.Costs.{most_compared};
ghost use Rattle.shadow_stack.specs.Frames.{FitsPop, FitsSums, IsPopped, added, new_frame, plus, starts_of};
ghost use Rattle.shadow_pages.specs.Pages.{HasPlace};
ghost use Rattle.call_tracker.specs.ThreadCalls.{no_counts};
ghost use Rattle.stamp_renumber.specs.Counted.{found_added, steps_added};
ghost use Rattle.stamp_renumber.specs.Costs.{stamps_of};
ghost use Rattle.stamp_renumber.specs.Renumbered.{IsThreadRenumbered};
ghost use Rattle.stamp_renumber.specs.Returned.{returned_by};
ghost use Rattle.stamp_renumber.specs.WordRead.{IsWordRead};

use crate::frames::renew_frames;
use crate::pages::renew_accesses;
use crate::rows::WorkRows;
use call_tracker::{BegunCall, ThreadCounts};
use guest_words::{Addr, Word};
use shadow_pages::Shadow;
use shadow_stack::{Frames, Steps, Sums};
use stamp_lanes::Lanes;
use stamps::Stamp;
use std::alloc::{AllocError, Global};
use std::marker::Model;
use std::sync::ledger::Ledger;

/// A call that ended: what it was, the sums of its frame, and what its thread has counted.
#[derive(Clone, Copy)]
pub struct EndedCall {
    pub call: BegunCall,
    pub sums: Sums,
    pub counts: ThreadCounts,
}

/// What a return ends: one call, which then has ended, or another number of calls, none or several, which are still open.
#[derive(Clone, Copy)]
pub enum Returned {
    One(EndedCall),
    Many(usize),
}

/// The frames of a thread with their calls, the stamps of its accesses, and what it has counted.
#[derive(Drop)]
pub(crate) struct ThreadStamps<S: Stamp> {
    frames: Frames<S>,
    shadow: Shadow<S>,
    counts: ThreadCounts,
}

impl<S: Stamp> Model for ThreadStamps<S> {
    ghost use Rattle.stamp_renumber.specs.Threads.{Stamped};

    ghost Value = { Stamped };

    ghost view = { λ t. record {
      frames = t.frames.list;
      spare = t.frames.spare;
      pages = t.shadow.pages;
      calls = record { list = t.frames.calls; counts = t.counts };
    } };
}

impl<S: Stamp> ThreadStamps<S> {
    ghost use Rattle.stamp_renumber.specs.Private.LentShadow.{LendsShadow};

    /// No frame, no stamp and no call.
    pub(crate) fn new(alloc: Global) -> Result<ThreadStamps<S>, AllocError>
        ensures frames { IfOk result (λ t. t.frames ≡ []) }
        ensures pages { IfOk result (λ t. t.pages ≡ []) }
        ensures list { IfOk result (λ t. t.calls.list ≡ []) }
        ensures counts { IfOk result (λ t. t.calls.counts ≡ no_counts) }
    {
        Ok(ThreadStamps {
            frames: Frames::new(alloc),
            shadow: Shadow::new(alloc)?,
            counts: ThreadCounts::none(),
        })
    }

    /// The frames.
    pub(crate) fn frames(&self) -> &Frames<S>
        ensures { result.now ≡ record { list = self.now.frames; calls = self.now.calls.list; spare = self.now.spare } }
    {
        &self.frames
    }

    /// The stamps of its accesses.
    pub(crate) fn shadow(&self) -> &Shadow<S>
        ensures { result.now ≡ record { pages = self.now.pages } }
    {
        &self.shadow
    }

    /// The stamps of its accesses, for writing.
    pub(crate) fn shadow_mut(&mut self) -> &mut Shadow<S>
        ensures* writes_back { sem 𝓛 (LendsShadow S.row S.Stamp self.entry result) }
        ensures value { result.now ≡ record { pages = self.old.pages } }
    {
        &mut self.shadow
    }

    /// Counts steps.
    #[inline(always)]
    pub(crate) fn add_steps(&mut self, steps: u64)
        requires { self.old.calls.counts.steps + steps < 2 ^ 64 }
        ensures { self.new ≡ record self.old { calls = steps_added steps self.old.calls } }
    {
        self.counts.add_steps(steps);
    }

    /// Counts the words that a read found written by another thread, and by the kernel.
    pub(crate) fn add_found(&mut self, thread: u64, kernel: u64)
        requires thread { self.old.calls.counts.thread + thread < 2 ^ 64 }
        requires kernel { self.old.calls.counts.kernel + kernel < 2 ^ 64 }
        ensures { self.new ≡ record self.old { calls = found_added thread kernel self.old.calls } }
    {
        self.counts.add_found(thread, kernel);
    }

    /// How many calls a return to the target ends.
    #[inline(always)]
    pub(crate) fn ending(&mut self, target: Addr) -> usize
        ensures count { result ≡ returned_by target self.old.calls }
        ensures within { result ≤ length self.old.calls.list }
        ensures same { self.new ≡ self.old }
    {
        self.frames.ending(target)
    }

    /// Whether a return to the target ends the innermost call, and no other.
    #[inline(always)]
    pub(crate) fn ends_one(&self, target: Addr) -> bool
        ensures { result ≡ (returned_by target self.now.calls == 1) }
    {
        self.frames.ends_one(target)
    }

    /// Makes the room for one more frame with its call.
    pub(crate) fn reserve(&mut self) -> Result<(), AllocError>
        ensures room { OnOk result (1 ≤ self.new.spare) }
        ensures frames { self.new.frames ≡ self.old.frames }
        ensures pages { self.new.pages ≡ self.old.pages }
        ensures calls { self.new.calls ≡ self.old.calls }
        ensures kept { self.old.spare ≤ self.new.spare }
    {
        self.frames.reserve()
    }

    /// Whether there is room for one more frame with its call.
    #[inline(always)]
    pub(crate) fn has_room(&self) -> bool
        ensures { result ≡ nat_lt 0 self.now.spare }
    {
        self.frames.has_room()
    }

    /// One more frame, with its call. There is room for it.
    #[inline(always)]
    pub(crate) fn push(&mut self, start: S, entry: Addr, back: Option<Addr>)
        requires above { All (λ s. s < S.number_of start) (starts_of self.old.frames) }
        requires room { 1 ≤ self.old.spare }
        ensures frames { self.new.frames
            ≡ self.old.frames ++ new_frame (S.number_of start) ∷ [] }
        ensures pages { self.new.pages ≡ self.old.pages }
        ensures list { self.new.calls.list
            ≡ record { entry = entry; back = back; earlier = self.old.calls.counts } ∷ self.old.calls.list }
        ensures counts { self.new.calls.counts ≡ self.old.calls.counts }
        ensures lowered { self.old.spare ≤ self.new.spare + 1 }
    {
        let call = BegunCall::new(entry, back, self.counts);
        self.frames.push(start, call).unwrap();
    }

    /// Counts steps and then adds one more frame, with its call, where that needs no memory, and `true`; else `false`, and nothing
    /// changes.
    #[inline(always)]
    pub(crate) fn begin_after(
        &mut self,
        steps: u64,
        start: S,
        entry: Addr,
        back: Option<Addr>,
    ) -> bool
        requires fits { self.old.calls.counts.steps + steps < 2 ^ 64 }
        requires above { All (λ s. s < S.number_of start) (starts_of self.old.frames) }
        ensures frames { result ≡ true → self.new.frames
            ≡ self.old.frames ++ new_frame (S.number_of start) ∷ [] }
        ensures pages { self.new.pages ≡ self.old.pages }
        ensures list { result ≡ true → self.new.calls.list
            ≡ record { entry = entry; back = back; earlier = (steps_added steps self.old.calls).counts } ∷ self.old.calls.list }
        ensures counts { result ≡ true → self.new.calls.counts
            ≡ (steps_added steps self.old.calls).counts }
        ensures lowered { self.old.spare ≤ self.new.spare + 1 }
        ensures same { result ≡ false → self.new ≡ self.old }
    {
        let counts = self.counts.after(steps);
        if !self
            .frames
            .push_over(start, BegunCall::new(entry, back, counts))
        {
            return false;
        }
        self.counts.add_steps(steps);
        true
    }

    /// Adds to the sums of the frame at the place.
    pub(crate) fn add(&mut self, i: usize, by: Sums)
        requires within { i < length self.old.frames }
        requires fits { IfSome (slice_get self.old.frames i) (λ f. FitsSums (plus f.sums by)) }
        ensures frames { self.new.frames ≡ added i by self.old.frames }
        ensures pages { self.new.pages ≡ self.old.pages }
        ensures calls { self.new.calls ≡ self.old.calls }
        ensures kept { self.old.spare ≤ self.new.spare }
    {
        self.frames.add(i, by);
    }

    /// A read of a word whose page is at the place: the word gets the stamp, and the sums of the frames move as after a last
    /// access at `own`, which the caller gives. A step is one comparison with a start.
    #[inline(always)]
    pub(crate) fn read_word<L: Ledger>(
        &mut self,
        place: usize,
        w: Word,
        own: S,
        by: Sums,
        back: Sums,
        stamp: S,
        steps: &mut Steps<L>,
    )
        requires place { HasPlace self.old.pages w place }
        requires some { 1 ≤ length self.old.frames }
        requires fits { (i : ℕ) → IfSome (slice_get self.old.frames i) (λ f. FitsSums (plus f.sums by)) }
        requires fits_back { (i : ℕ) → IfSome (slice_get self.old.frames i) (λ f. FitsSums (plus f.sums back)) }
        ensures read { IsWordRead w (S.number_of own) by back (S.number_of stamp) self.old self.new }
        ensures cost { (digits : ℕ) → length self.old.frames < 2 ^ digits
            → steps.new ≤ steps.old + most_compared digits (starts_of self.old.frames) (S.number_of own) }
    {
        self.shadow.set_at(place, w, stamp);
        self.frames.move_to_top(own, by, back, steps);
    }

    /// Takes the innermost frame with its call. There is one.
    #[inline(always)]
    pub(crate) fn pop(&mut self) -> EndedCall
        requires frames { 1 ≤ length self.old.frames }
        requires calls { 1 ≤ length self.old.calls.list }
        requires fits { FitsPop self.old.frames }
        ensures popped { IsPopped self.old.frames (Some result.sums) self.new.frames }
        ensures pages { self.new.pages ≡ self.old.pages }
        ensures list { self.old.calls.list ≡ result.call ∷ self.new.calls.list }
        ensures counts { self.new.calls.counts ≡ self.old.calls.counts }
        ensures counted { result.counts ≡ self.old.calls.counts }
        ensures kept { self.old.spare ≤ self.new.spare }
    {
        let (sums, call) = self.frames.pop().unwrap();
        EndedCall {
            call,
            sums,
            counts: self.counts,
        }
    }
}

impl<S: Lanes> ThreadStamps<S> {
    /// Gives the frames their new starts and the words their new access stamps. The write stamps are still the old ones, and the
    /// calls stay. A step is one stamp.
    pub(crate) fn renumber<L: Ledger>(
        &mut self,
        writes: &Shadow<S>,
        starts: &[S],
        renewed: &mut Vec<S>,
        rows: &mut WorkRows<S>,
        steps: &mut Steps<L>,
    )
        requires sorted { IsNonDecreasingBy S.number_of starts.now }
        requires fit { 3 * length starts.now + 2 ≤ S.MAX }
        requires among { All (Contains (map S.number_of starts.now)) (starts_of self.old.frames) }
        requires room { length self.old.frames ≤ vec_capacity renewed.old }
        ensures thread { IsThreadRenumbered
            (map S.number_of starts.now) writes.now.pages self.old self.new }
        ensures capacity { vec_capacity renewed.old ≤ vec_capacity renewed.new }
        ensures cost { steps.new ≡ steps.old + stamps_of self.old }
    {
        renew_frames(&mut self.frames, starts, renewed, steps);
        renew_accesses(&mut self.shadow, writes, starts, rows, steps);
    }
}
