//! The frames, with their calls, and their search.
ghost use Rattle.std.specs.Prelude.{◌≡◌, ◌==◌, ◌≤◌, ◌<◌, ◌+◌, ◌-◌, ◌*◌, ◌^◌, ◌++◌, ◌∷◌, [], ℕ, length, map, All, IfNone, IfSome, IsOk, Some, OnOk, OnErr, nat_lt, true, false, slice_get, slice_index};
ghost use Rattle.std.specs.Option.{option_map, option_map_or};
ghost use Rattle.trace_model.specs.Activations.{count_returned};
ghost use Rattle.call_tracker.specs.ThreadCalls.{CountedCall};
ghost use Rattle.shadow_stack.specs.Costs.{most_compared};
ghost use Rattle.shadow_stack.specs.Frames.{FitsPop, FitsSums, IsLastAtMost, IsMoved, IsPopped, IsRising, added, new_frame, plus, restarted, starts_of};

use crate::{Steps, Sums};
use call_tracker::{BegunCall, Missed, Returns, top_returns_to};
use guest_words::Addr;
use room_stack::RoomStack;
use stamps::Stamp;
use std::alloc::{AllocError, Global};
use std::marker::Model;
use std::sync::ledger::Ledger;

// One frame, with its call.
#[derive(Clone, Copy)]
struct Entry<S: Stamp> {
    start: S,
    sums: Sums,
    call: BegunCall,
}

impl<S: Stamp> Returns for Entry<S> {
    ghost back_of = { λ x. x.call.back };

    #[inline(always)]
    fn back(&self) -> Option<Addr> {
        self.call.back()
    }
}

/// Frames by rising start stamps, each with its call. Contracts see the frames, the outermost first, and the calls, the innermost
/// first. Only `push` and `reserve` allocate, and none but `push` and `push_over` lowers the room.
#[derive(Drop)]
pub struct Frames<S: Stamp> {
    entries: RoomStack<Entry<S>>,
    // Targets of returns that ended no call.
    missed: Missed,
}

impl<S: Stamp> Model for Frames<S> {
    ghost use Rattle.std.specs.Prelude.{map, reverse};
    ghost use Rattle.call_tracker.specs.Missed.{AreMissed};
    ghost use Rattle.shadow_stack.specs.Frames.{IsRising, Stack};

    ghost Value = { Stack };

    ghost view = { λ f. record {
      list = map (λ x. record { start = S.number_of x.start; sums = x.sums }) f.entries.items;
      calls = reverse (map (λ x. x.call) f.entries.items);
      spare = f.entries.spare;
    } };

    ghost invariant = { λ f. IsRising (map (λ x. S.number_of x.start) f.entries.items)
        × AreMissed (map (λ x. x.call.back) f.entries.items) f.missed };
}

impl<S: Stamp> Frames<S> {
    /// No frame.
    pub fn new(alloc: Global) -> Frames<S>
        ensures list { result.list ≡ [] }
        ensures calls { result.calls ≡ [] }
    {
        Frames {
            entries: RoomStack::new(alloc),
            missed: Missed::nothing(),
        }
    }

    /// How many frames there are.
    pub fn depth(&self) -> usize
        ensures { result ≡ length self.now.list }
    {
        self.entries.len()
    }

    /// The start stamp of the frame at the place. The starts rise.
    pub fn start_at(&self, i: usize) -> S
        requires { i < length self.now.list }
        ensures start { S.number_of result ≡ slice_index (starts_of self.now.list) i }
        ensures rising { IsRising (starts_of self.now.list) }
    {
        self.entries.as_slice()[i].start
    }

    /// Makes the room for one more frame.
    pub fn reserve(&mut self) -> Result<(), AllocError>
        ensures room { OnOk result (1 ≤ self.new.spare) }
        ensures list { self.new.list ≡ self.old.list }
        ensures calls { self.new.calls ≡ self.old.calls }
        ensures kept { self.old.spare ≤ self.new.spare }
    {
        self.entries.reserve()
    }

    /// Whether there is room for one more frame.
    #[inline(always)]
    pub fn has_room(&self) -> bool
        ensures { result ≡ nat_lt 0 self.now.spare }
    {
        self.entries.has_room()
    }

    /// One more frame inside all the others, with its call and no sums. It is not refused where there is room.
    #[inline(always)]
    pub fn push(&mut self, start: S, call: BegunCall) -> Result<(), AllocError>
        requires { All (λ s. s < S.number_of start) (starts_of self.old.list) }
        ensures ok { OnOk result (self.new.list
            ≡ self.old.list ++ new_frame (S.number_of start) ∷ []) }
        ensures call { OnOk result (self.new.calls ≡ call ∷ self.old.calls) }
        ensures err { OnErr result (self.new.list ≡ self.old.list) }
        ensures err_calls { OnErr result (self.new.calls ≡ self.old.calls) }
        ensures room { 1 ≤ self.old.spare → IsOk result }
        ensures lowered { self.old.spare ≤ self.new.spare + 1 }
    {
        self.entries.push(Entry {
            start,
            sums: Sums::NONE,
            call,
        })?;
        Ok(())
    }

    /// One more frame inside all the others, with its call and no sums, where it writes over one that was popped, and `true`; else
    /// `false`, and nothing changes. It does not allocate.
    #[inline(always)]
    pub fn push_over(&mut self, start: S, call: BegunCall) -> bool
        requires { All (λ s. s < S.number_of start) (starts_of self.old.list) }
        ensures pushed { result ≡ true → self.new.list
            ≡ self.old.list ++ new_frame (S.number_of start) ∷ [] }
        ensures call { result ≡ true → self.new.calls ≡ call ∷ self.old.calls }
        ensures same { result ≡ false → self.new ≡ self.old }
        ensures lowered { self.old.spare ≤ self.new.spare + 1 }
    {
        self.entries.push_over(Entry {
            start,
            sums: Sums::NONE,
            call,
        })
    }

    /// Whether a return to the target ends the innermost call, and no other.
    #[inline(always)]
    pub fn ends_one(&self, target: Addr) -> bool
        ensures { result ≡ (count_returned target
            (map (λ (c : CountedCall). c.back) self.now.calls) == 1) }
    {
        top_returns_to(target, self.entries.as_slice())
    }

    /// How many calls a return to the target ends.
    #[inline(always)]
    pub fn ending(&mut self, target: Addr) -> usize
        ensures count { result ≡ count_returned target
            (map (λ (c : CountedCall). c.back) self.old.calls) }
        ensures within { result ≤ length self.old.calls }
        ensures same { self.new ≡ self.old }
    {
        self.missed.ending(target, self.entries.as_slice())
    }

    /// Adds to the sums of the frame at the place.
    #[inline(always)]
    pub fn add(&mut self, i: usize, by: Sums)
        requires within { i < length self.old.list }
        requires fits { IfSome (slice_get self.old.list i) (λ f. FitsSums (plus f.sums by)) }
        ensures list { self.new.list ≡ added i by self.old.list }
        ensures calls { self.new.calls ≡ self.old.calls }
        ensures kept { self.old.spare ≤ self.new.spare }
    {
        let entry = self.entries.at_mut(i);
        entry.sums = entry.sums.plus(by);
    }

    // Adds to the sums of the frame at the place, if there is one.
    #[inline(always)]
    fn add_if(&mut self, place: Option<usize>, by: Sums)
        requires within { (i : ℕ) → place ≡ Some i → i < length self.old.list }
        requires fits { (i : ℕ) → IfSome (slice_get self.old.list i) (λ f. FitsSums (plus f.sums by)) }
        ensures list { self.new.list ≡ option_map_or (λ i. added i by self.old.list) place self.old.list }
        ensures calls { self.new.calls ≡ self.old.calls }
        ensures kept { self.old.spare ≤ self.new.spare }
    {
        if let Some(i) = place {
            self.add(i, by);
        }
    }

    // Whether the frame below the innermost of all, which is at `top` and started after the stamp, is the innermost that started at
    // or before the stamp.
    #[inline(always)]
    fn is_below(&self, top: usize, stamp: S) -> bool
        requires top { length self.now.list ≡ top + 1 }
        requires above { S.number_of stamp < slice_index (starts_of self.now.list) top }
        ensures { result ≡ true → IsLastAtMost (starts_of self.now.list) (S.number_of stamp) (Some (top - 1)) }
    {
        top > 0 && self.start_at(top - 1).number() <= stamp.number()
    }

    /// Where the innermost frame started after the stamp, adds `by` to its sums, and `back` to those of the innermost frame that
    /// started at or before the stamp, if there is one. Else nothing changes. There is a frame. A step is one comparison with a
    /// start.
    #[inline(always)]
    pub fn move_to_top<L: Ledger>(&mut self, stamp: S, by: Sums, back: Sums, steps: &mut Steps<L>)
        requires some { 1 ≤ length self.old.list }
        requires fits { (i : ℕ) → IfSome (slice_get self.old.list i) (λ f. FitsSums (plus f.sums by)) }
        requires fits_back { (i : ℕ) → IfSome (slice_get self.old.list i) (λ f. FitsSums (plus f.sums back)) }
        ensures moved { IsMoved (S.number_of stamp) by back self.old.list self.new.list }
        ensures calls { self.new.calls ≡ self.old.calls }
        ensures kept { self.old.spare ≤ self.new.spare }
        ensures cost { (digits : ℕ) → length self.old.list < 2 ^ digits
            → steps.new ≤ steps.old + most_compared digits (starts_of self.old.list) (S.number_of stamp) }
    {
        let top = self.depth() - 1;
        steps.tick();
        if stamp.number() < self.start_at(top).number() {
            steps.tick();
            if self.is_below(top, stamp) {
                self.move_from(Some(top - 1), top, stamp, by, back);
            } else {
                self.move_far(top, stamp, by, back, steps);
            }
        }
    }

    // The same from the frame at the place, if there is one, where the innermost of all, at `top`, started after the stamp.
    #[inline(always)]
    fn move_from(&mut self, place: Option<usize>, top: usize, stamp: S, by: Sums, back: Sums)
        requires top { length self.old.list ≡ top + 1 }
        requires above { S.number_of stamp < slice_index (starts_of self.old.list) top }
        requires place { IsLastAtMost (starts_of self.old.list) (S.number_of stamp) place }
        requires fits { (i : ℕ) → IfSome (slice_get self.old.list i) (λ f. FitsSums (plus f.sums by)) }
        requires fits_back { (i : ℕ) → IfSome (slice_get self.old.list i) (λ f. FitsSums (plus f.sums back)) }
        ensures moved { IsMoved (S.number_of stamp) by back self.old.list self.new.list }
        ensures calls { self.new.calls ≡ self.old.calls }
        ensures kept { self.old.spare ≤ self.new.spare }
    {
        let _ = stamp;
        self.add_if(place, back);
        self.add(top, by);
    }

    // The same, where the frame is to be searched. Most often it is the one below, so this stands apart.
    #[cold]
    #[inline(never)]
    fn move_far<L: Ledger>(
        &mut self,
        top: usize,
        stamp: S,
        by: Sums,
        back: Sums,
        steps: &mut Steps<L>,
    )
        requires top { length self.old.list ≡ top + 1 }
        requires above { S.number_of stamp < slice_index (starts_of self.old.list) top }
        requires fits { (i : ℕ) → IfSome (slice_get self.old.list i) (λ f. FitsSums (plus f.sums by)) }
        requires fits_back { (i : ℕ) → IfSome (slice_get self.old.list i) (λ f. FitsSums (plus f.sums back)) }
        ensures moved { IsMoved (S.number_of stamp) by back self.old.list self.new.list }
        ensures calls { self.new.calls ≡ self.old.calls }
        ensures kept { self.old.spare ≤ self.new.spare }
        ensures cost { (digits : ℕ) → length self.old.list < 2 ^ digits → steps.new ≤ steps.old + digits }
    {
        let place = self.find(stamp, steps);
        self.move_from(place, top, stamp, by, back);
    }

    /// Takes the innermost frame with its call, and hands its sums down: they are added to the frame below, if there is one.
    #[inline(always)]
    pub fn pop(&mut self) -> Option<(Sums, BegunCall)>
        requires { FitsPop self.old.list }
        ensures popped { IsPopped self.old.list (option_map (λ p. p.0) result) self.new.list }
        ensures call { IfSome result (λ p. self.old.calls ≡ p.1 ∷ self.new.calls) }
        ensures none { IfNone result (self.old.calls ≡ []) }
        ensures kept { self.old.spare ≤ self.new.spare }
    {
        let top = self.entries.pop()?;
        let depth = self.entries.len();
        self.missed.keep(depth);
        if depth > 0 {
            self.add(depth - 1, top.sums);
        }
        Some((top.sums, top.call))
    }

    /// Other starts for all frames, the outermost first. They rise too.
    pub fn renew(&mut self, starts: &[S])
        requires each { length starts.now ≡ length self.old.list }
        requires rising { IsRising (map S.number_of starts.now) }
        ensures list { self.new.list ≡ restarted (map S.number_of starts.now) self.old.list }
        ensures calls { self.new.calls ≡ self.old.calls }
        ensures kept { self.new.spare ≡ self.old.spare }
    {
        restart(&mut self.entries, starts);
    }

    /// The innermost frame whose start is at most the stamp. A step is one comparison with a start.
    pub fn find<L: Ledger>(&self, stamp: S, steps: &mut Steps<L>) -> Option<usize>
        ensures found { IsLastAtMost (starts_of self.now.list) (S.number_of stamp) result }
        ensures cost { 2 ^ (steps.new - steps.old) ≤ 2 * length self.now.list + 1 }
    {
        first_above(self.entries.as_slice(), stamp.number(), steps).checked_sub(1)
    }
}

// Gives each frame its new start.
fn restart<S: Stamp>(entries: &mut RoomStack<Entry<S>>, starts: &[S])
    requires { length starts.now ≡ length entries.old.items }
    ensures list { map (λ x. record { start = S.number_of x.start; sums = x.sums }) entries.new.items
        ≡ restarted (map S.number_of starts.now)
        (map (λ x. record { start = S.number_of x.start; sums = x.sums }) entries.old.items) }
    ensures calls { map (λ x. x.call) entries.new.items ≡ map (λ x. x.call) entries.old.items }
    ensures spare { entries.new.spare ≡ entries.old.spare }
{
    for i in 0..entries.len() {
        let entry = entries.as_slice()[i];
        let start = starts[i];
        entries.set(i, Entry { start, ..entry });
    }
}

// How many frames, from the outermost on, have a start at most n.
fn first_above<S: Stamp, L: Ledger>(frames: &[Entry<S>], n: u32, steps: &mut Steps<L>) -> usize
    requires { IsRising (map (λ x. S.number_of x.start) frames.now) }
    ensures within { result ≤ length frames.now }
    ensures below { (i : ℕ) → i < result → slice_index (map (λ x. S.number_of x.start) frames.now) i
        ≤ n }
    ensures above { (i : ℕ) → result ≤ i → i < length frames.now
        → n < slice_index (map (λ x. S.number_of x.start) frames.now) i }
    ensures cost { 2 ^ (steps.new - steps.old) ≤ 2 * length frames.now + 1 }
{
    let mut low = 0;
    let mut high = frames.len();
    while low < high {
        let middle = low + (high - low) / 2;
        let start = frames[middle].start.number();
        steps.tick();
        if start <= n {
            low = middle + 1;
        } else {
            high = middle;
        }
    }
    low
}
