//! The live threads.
ghost use Rattle.std.specs.Prelude.{◌≡◌, ◌==◌, ◌≤◌, ◌<◌, ◌+◌, ◌*◌, ◌^◌, ◌++◌, ◌∷◌, [], ℕ, Some, true, false, All, IfNone, IfOk, IfSome, IsOk, OnErr, OnOk, is_some, length, slice_get};
ghost use Rattle.std.specs.Borrow.{sem};
ghost use Rattle.guest_words.specs.ByThread.{numbers, value_of, with_value, without_thread};
ghost use Rattle.shadow_stack.specs.Costs.{most_compared};
ghost use Rattle.shadow_stack.specs.Frames.{FitsPop, FitsSums, IsPopped, added, new_frame, plus, starts_of};
ghost use Rattle.shadow_pages.specs.Pages.{HasPlace};
ghost use Rattle.call_tracker.specs.ThreadCalls.{no_counts};
ghost use Rattle.stamp_renumber.specs.Begun.{IsBegun};
ghost use Rattle.stamp_renumber.specs.Costs.{stamps_in};
ghost use Rattle.stamp_renumber.specs.Counted.{found_added, steps_added, with_calls};
ghost use Rattle.stamp_renumber.specs.Returned.{IsReturned, returned_by};
ghost use Rattle.stamp_renumber.specs.declared.thread_stamps.Returned.TheVariants.{One};
ghost use Rattle.stamp_renumber.specs.Threads.{HasRoom, all_starts, calls_of, frames_of, has_room, own_of, pages_of, spare_of, stamped};
ghost use Rattle.stamp_renumber.specs.Ticks.{IsRenumbered};
ghost use Rattle.stamp_renumber.specs.WordRead.{IsWordRead};

use crate::pages::renew_writes;
use crate::renumbering::{renumber_threads, sorted_starts};
use crate::rows::WorkRows;
use crate::thread_stamps::{EndedCall, Returned, ThreadStamps};
use guest_words::{Addr, ByThread, Tid, Word};
use shadow_pages::Shadow;
use shadow_stack::{Frames, Steps, Sums};
use stamp_lanes::Lanes;
use std::alloc::{AllocError, Global};
use std::marker::Model;
use std::sync::ledger::Ledger;

/// Live threads, each with its frames and their calls, and the stamps of its accesses. A renumbering does not allocate: the threads hold
/// work rows for it from the start, and room for the starts of all their frames, `frames` of them and `marks` more. No call but
/// `begin` and `begin_after` lowers the room for frames and their marks.
#[derive(Drop)]
pub struct Threads<S: Lanes> {
    alloc: Global,
    threads: ByThread<ThreadStamps<S>>,
    frames: usize,
    marks: usize,
    starts: Vec<S>,
    renewed: Vec<S>,
    rows: WorkRows<S>,
}

impl<S: Lanes> Model for Threads<S> {
    ghost use Rattle.std.specs.Vec.{vec_capacity};
    ghost use Rattle.stamp_renumber.specs.Kept.{IsKept};
    ghost use Rattle.stamp_renumber.specs.Threads.{Live};

    ghost Value = { Live };

    ghost view = { λ t. record { threads = t.threads.list; marks = t.marks } };

    ghost invariant = { λ t. IsKept t.threads.list t.frames t.marks
        (vec_capacity t.starts) (vec_capacity t.renewed) };
}

impl<S: Lanes> Threads<S> {
    ghost use Rattle.stamp_renumber.specs.LentThread.{LendsStamps};

    /// No thread.
    pub fn new(alloc: Global) -> Result<Threads<S>, AllocError>
        ensures { IfOk result (λ t. t.threads ≡ []) }
    {
        Ok(Threads {
            alloc,
            threads: ByThread::new(alloc),
            frames: 0,
            marks: 0,
            starts: Vec::new(alloc),
            renewed: Vec::new(alloc),
            rows: WorkRows::new(alloc)?,
        })
    }

    /// How many frames all threads have.
    pub fn frame_count(&self) -> usize
        ensures { result ≡ length (all_starts self.now.threads) }
    {
        self.frames
    }

    /// One more thread, whose number is above all others. It has no frame and no call.
    pub fn add(&mut self, tid: Tid) -> Result<(), AllocError>
        requires above { All (λ n. n < tid) (numbers self.old.threads) }
        ensures ok { OnOk result (self.new.threads
            ≡ self.old.threads ++ (tid, stamped self.new.threads tid [] []) ∷ []) }
        ensures list { OnOk result ((calls_of self.new.threads tid).list ≡ []) }
        ensures counts { OnOk result ((calls_of self.new.threads tid).counts ≡ no_counts) }
        ensures err { OnErr result (self.new ≡ self.old) }
        ensures marks { self.new.marks ≡ self.old.marks }
    {
        let thread = ThreadStamps::new(self.alloc)?;
        self.threads.insert(tid, thread)
    }

    // How many frames the thread has.
    fn depth(&self, tid: Tid) -> usize
        ensures { result ≡ length (frames_of self.now.threads tid) }
    {
        match self.threads.get(tid) {
            Some(thread) => thread.frames().depth(),
            None => 0,
        }
    }

    /// Takes the thread out.
    pub fn remove(&mut self, tid: Tid)
        ensures threads { self.new.threads ≡ without_thread self.old.threads tid }
        ensures marks { self.old.marks ≤ self.new.marks }
    {
        let depth = self.depth(tid);
        self.threads.remove(tid);
        self.frames -= depth;
        self.marks += depth;
    }

    // Makes the room for the mark of one more frame.
    #[inline(always)]
    fn reserve_mark(&mut self) -> Result<(), AllocError>
        ensures room { OnOk result (1 ≤ self.new.marks) }
        ensures threads { self.new.threads ≡ self.old.threads }
        ensures kept { self.old.marks ≤ self.new.marks }
        ensures there { 1 ≤ self.old.marks → IsOk result }
    {
        if self.marks == 0 {
            let marks = self.frames.checked_add(1).ok_or(AllocError)?;
            self.starts.reserve(marks)?;
            self.renewed.reserve(marks)?;
            self.marks = 1;
        }
        Ok(())
    }

    /// Whether there is room for one more frame of the thread with its call, and for its mark.
    #[inline(always)]
    pub fn has_room(&self, tid: Tid) -> bool
        requires { is_some (value_of self.now.threads tid) ≡ true }
        ensures value { result ≡ has_room self.now tid }
        ensures room { result ≡ true → HasRoom self.now tid }
    {
        self.marks > 0 && self.threads.value(tid).has_room()
    }

    /// Makes the room for one more frame of the thread with its call, and for its mark.
    #[inline(always)]
    pub fn reserve(&mut self, tid: Tid) -> Result<(), AllocError>
        requires lives { is_some (value_of self.old.threads tid) ≡ true }
        ensures room { OnOk result (HasRoom self.new tid) }
        ensures threads { self.new.threads ≡ with_value self.old.threads tid
            (stamped self.new.threads tid (frames_of self.old.threads tid)
            (pages_of self.old.threads tid)) }
        ensures list { (calls_of self.new.threads tid).list
            ≡ (calls_of self.old.threads tid).list }
        ensures counts { (calls_of self.new.threads tid).counts
            ≡ (calls_of self.old.threads tid).counts }
        ensures kept { spare_of self.old.threads tid ≤ spare_of self.new.threads tid }
        ensures marks { self.old.marks ≤ self.new.marks }
    {
        if self.has_room(tid) {
            return Ok(());
        }
        self.reserve_more(tid)
    }

    // The same, where there may be none.
    #[cold]
    #[inline(never)]
    fn reserve_more(&mut self, tid: Tid) -> Result<(), AllocError>
        requires lives { is_some (value_of self.old.threads tid) ≡ true }
        ensures room { OnOk result (HasRoom self.new tid) }
        ensures threads { self.new.threads ≡ with_value self.old.threads tid
            (stamped self.new.threads tid (frames_of self.old.threads tid)
            (pages_of self.old.threads tid)) }
        ensures list { (calls_of self.new.threads tid).list
            ≡ (calls_of self.old.threads tid).list }
        ensures counts { (calls_of self.new.threads tid).counts
            ≡ (calls_of self.old.threads tid).counts }
        ensures kept { spare_of self.old.threads tid ≤ spare_of self.new.threads tid }
        ensures marks { self.old.marks ≤ self.new.marks }
    {
        self.reserve_mark()?;
        self.threads.get_mut(tid).unwrap().reserve()
    }

    /// Begins a call of the thread: one more frame, inside all its others, with its call. There is room for it.
    #[inline(always)]
    pub fn begin(&mut self, tid: Tid, start: S, entry: Addr, back: Option<Addr>)
        requires lives { is_some (value_of self.old.threads tid) ≡ true }
        requires above { All (λ s. s < S.number_of start)
            (starts_of (frames_of self.old.threads tid)) }
        requires room { HasRoom self.old tid }
        ensures threads { self.new.threads
            ≡ with_value self.old.threads tid
            (stamped self.new.threads tid
            (frames_of self.old.threads tid ++ new_frame (S.number_of start) ∷ [])
            (pages_of self.old.threads tid)) }
        ensures list { (calls_of self.new.threads tid).list
            ≡ record { entry = entry; back = back; earlier = (calls_of self.old.threads tid).counts } ∷ (calls_of self.old.threads tid).list }
        ensures counts { (calls_of self.new.threads tid).counts
            ≡ (calls_of self.old.threads tid).counts }
        ensures lowered { spare_of self.old.threads tid ≤ spare_of self.new.threads tid + 1 }
        ensures marks { self.old.marks ≡ self.new.marks + 1 }
    {
        let thread = self.threads.get_mut(tid).unwrap();
        thread.push(start, entry, back);
        self.frames += 1;
        self.marks -= 1;
    }

    /// Counts steps of the thread and then begins a call of it, where that needs no memory, and `true`; else `false`, and nothing
    /// changes. The thread is looked up once.
    #[inline(always)]
    pub fn begin_after(
        &mut self,
        tid: Tid,
        steps: u64,
        start: S,
        entry: Addr,
        back: Option<Addr>,
    ) -> bool
        requires lives { is_some (value_of self.old.threads tid) ≡ true }
        requires fits { (calls_of self.old.threads tid).counts.steps + steps < 2 ^ 64 }
        requires above { All (λ s. s < S.number_of start)
            (starts_of (frames_of self.old.threads tid)) }
        ensures begun { result ≡ true → IsBegun tid (S.number_of start) entry back
            (with_calls self.old tid (steps_added steps (calls_of self.old.threads tid))) self.new }
        ensures same { result ≡ false → self.new ≡ self.old }
    {
        if self.marks == 0 {
            return false;
        }
        let thread = self.threads.get_mut(tid).unwrap();
        if !thread.begin_after(steps, start, entry, back) {
            return false;
        }
        self.frames += 1;
        self.marks -= 1;
        true
    }

    /// Adds to the sums of the thread's frame at the place.
    pub fn add_sum(&mut self, tid: Tid, i: usize, by: Sums)
        requires lives { is_some (value_of self.old.threads tid) ≡ true }
        requires within { i < length (frames_of self.old.threads tid) }
        requires fits { IfSome (slice_get (frames_of self.old.threads tid) i)
            (λ f. FitsSums (plus f.sums by)) }
        ensures threads { self.new.threads ≡ with_value self.old.threads tid
            (stamped self.new.threads tid (added i by (frames_of self.old.threads tid))
            (pages_of self.old.threads tid)) }
        ensures calls { calls_of self.new.threads tid ≡ calls_of self.old.threads tid }
        ensures kept { spare_of self.old.threads tid ≤ spare_of self.new.threads tid }
        ensures marks { self.new.marks ≡ self.old.marks }
    {
        self.threads.get_mut(tid).unwrap().add(i, by);
    }

    /// A read by the thread of a word whose page is at the place: the word gets the stamp, and the sums of the thread's frames
    /// move as after a last access at `own`, which the caller gives: the word's stamp so far. The thread is looked up once. A step
    /// is one comparison with a start.
    #[inline(always)]
    pub fn read_word<L: Ledger>(
        &mut self,
        tid: Tid,
        place: usize,
        w: Word,
        own: S,
        by: Sums,
        back: Sums,
        stamp: S,
        steps: &mut Steps<L>,
    )
        requires lives { is_some (value_of self.old.threads tid) ≡ true }
        requires place { HasPlace (pages_of self.old.threads tid) w place }
        requires some { 1 ≤ length (frames_of self.old.threads tid) }
        requires fits { (i : ℕ) → IfSome (slice_get (frames_of self.old.threads tid) i)
            (λ f. FitsSums (plus f.sums by)) }
        requires fits_back { (i : ℕ) → IfSome (slice_get (frames_of self.old.threads tid) i)
            (λ f. FitsSums (plus f.sums back)) }
        ensures threads { self.new.threads ≡ with_value self.old.threads tid (own_of self.new.threads tid) }
        ensures read { IsWordRead w (S.number_of own) by back (S.number_of stamp)
            (own_of self.old.threads tid) (own_of self.new.threads tid) }
        ensures marks { self.new.marks ≡ self.old.marks }
        ensures cost { (digits : ℕ) → length (frames_of self.old.threads tid) < 2 ^ digits
            → steps.new ≤ steps.old + most_compared digits (starts_of (frames_of self.old.threads tid)) (S.number_of own) }
    {
        let thread = self.threads.get_mut(tid).unwrap();
        thread.read_word(place, w, own, by, back, stamp, steps);
    }

    /// Ends the thread's innermost call: its frame is popped, and its sums are added to the frame below. There is a frame, and a
    /// call.
    #[inline(always)]
    pub fn end(&mut self, tid: Tid) -> EndedCall
        requires lives { is_some (value_of self.old.threads tid) ≡ true }
        requires frames { 1 ≤ length (frames_of self.old.threads tid) }
        requires calls { 1 ≤ length (calls_of self.old.threads tid).list }
        requires fits { FitsPop (frames_of self.old.threads tid) }
        ensures popped { IsPopped (frames_of self.old.threads tid) (Some result.sums)
            (frames_of self.new.threads tid) }
        ensures threads { self.new.threads ≡ with_value self.old.threads tid
            (stamped self.new.threads tid (frames_of self.new.threads tid)
            (pages_of self.old.threads tid)) }
        ensures list { (calls_of self.old.threads tid).list
            ≡ result.call ∷ (calls_of self.new.threads tid).list }
        ensures counts { (calls_of self.new.threads tid).counts
            ≡ (calls_of self.old.threads tid).counts }
        ensures counted { result.counts ≡ (calls_of self.old.threads tid).counts }
        ensures kept { spare_of self.old.threads tid ≤ spare_of self.new.threads tid }
        ensures marks { self.new.marks ≡ self.old.marks + 1 }
    {
        let thread = self.threads.get_mut(tid).unwrap();
        let ended = thread.pop();
        self.frames -= 1;
        self.marks += 1;
        ended
    }

    /// A return of the thread to the target. Where it ends one call, that call is ended; else the answer is how many it ends. The
    /// thread has a frame for each call.
    #[inline(always)]
    pub fn return_to(&mut self, tid: Tid, target: Addr) -> Returned
        requires lives { is_some (value_of self.old.threads tid) ≡ true }
        requires frames { length (calls_of self.old.threads tid).list
            ≤ length (frames_of self.old.threads tid) }
        requires fits { FitsPop (frames_of self.old.threads tid) }
        ensures { IsReturned tid target self.old self.new result }
    {
        let thread = self.threads.get_mut(tid).unwrap();
        let count = thread.ending(target);
        if count != 1 {
            return Returned::Many(count);
        }
        let innermost = thread.pop();
        self.frames -= 1;
        self.marks += 1;
        Returned::One(innermost)
    }

    /// Counts steps of the thread and then its return to the target, where that ends one call; None, and nothing changes, where it
    /// ends none or several. The thread is looked up once.
    #[inline(always)]
    pub fn return_after(&mut self, tid: Tid, steps: u64, target: Addr) -> Option<EndedCall>
        requires lives { is_some (value_of self.old.threads tid) ≡ true }
        requires fits { (calls_of self.old.threads tid).counts.steps + steps < 2 ^ 64 }
        requires frames { length (calls_of self.old.threads tid).list
            ≤ length (frames_of self.old.threads tid) }
        requires sums { FitsPop (frames_of self.old.threads tid) }
        ensures ended { IfSome result (λ ended. IsReturned tid target
            (with_calls self.old tid (steps_added steps (calls_of self.old.threads tid))) self.new (One ended)) }
        ensures others { IfNone result ((returned_by target (calls_of self.old.threads tid) == 1) ≡ false) }
        ensures same { IfNone result (self.new ≡ self.old) }
    {
        let thread = self.threads.get_mut(tid).unwrap();
        if !thread.ends_one(target) {
            return None;
        }
        thread.add_steps(steps);
        let innermost = thread.pop();
        self.frames -= 1;
        self.marks += 1;
        Some(innermost)
    }

    /// Whether the thread lives.
    pub fn lives(&self, tid: Tid) -> bool
        ensures { result ≡ is_some (value_of self.now.threads tid) }
    {
        self.threads.get(tid).is_some()
    }

    /// The thread's frames.
    #[inline(always)]
    pub fn frames(&self, tid: Tid) -> &Frames<S>
        requires { is_some (value_of self.now.threads tid) ≡ true }
        ensures { result.now ≡ record {
          list = frames_of self.now.threads tid;
          calls = (calls_of self.now.threads tid).list;
          spare = spare_of self.now.threads tid;
        } }
    {
        self.threads.value(tid).frames()
    }

    /// The stamps of the thread's accesses.
    #[inline(always)]
    pub fn shadow(&self, tid: Tid) -> &Shadow<S>
        requires { is_some (value_of self.now.threads tid) ≡ true }
        ensures { result.now ≡ record { pages = pages_of self.now.threads tid } }
    {
        self.threads.value(tid).shadow()
    }

    /// The stamps of the thread's accesses, for writing.
    #[inline(always)]
    pub fn shadow_mut(&mut self, tid: Tid) -> &mut Shadow<S>
        requires { is_some (value_of self.old.threads tid) ≡ true }
        ensures* writes_back { sem 𝓛 (LendsStamps S.row S.Stamp self.entry tid result) }
        ensures value { result.now ≡ record { pages = pages_of self.old.threads tid } }
    {
        let thread = self.threads.get_mut(tid).unwrap();
        thread.shadow_mut()
    }

    /// Counts steps of the thread.
    #[inline(always)]
    pub fn add_steps(&mut self, tid: Tid, steps: u64)
        requires lives { is_some (value_of self.old.threads tid) ≡ true }
        requires fits { (calls_of self.old.threads tid).counts.steps + steps < 2 ^ 64 }
        ensures { self.new ≡ with_calls self.old tid (steps_added steps (calls_of self.old.threads tid)) }
    {
        let thread = self.threads.get_mut(tid).unwrap();
        thread.add_steps(steps);
    }

    /// Counts the words that a read of the thread found written by another thread, and by the kernel.
    #[inline(always)]
    pub fn add_found(&mut self, tid: Tid, thread: u64, kernel: u64)
        requires lives { is_some (value_of self.old.threads tid) ≡ true }
        requires thread { (calls_of self.old.threads tid).counts.thread + thread < 2 ^ 64 }
        requires kernel { (calls_of self.old.threads tid).counts.kernel + kernel < 2 ^ 64 }
        ensures { self.new ≡ with_calls self.old tid (found_added thread kernel (calls_of self.old.threads tid)) }
    {
        let reader = self.threads.get_mut(tid).unwrap();
        reader.add_found(thread, kernel);
    }

    /// How many calls a return of the thread to the target ends.
    #[inline(always)]
    pub fn ending(&mut self, tid: Tid, target: Addr) -> usize
        requires { is_some (value_of self.old.threads tid) ≡ true }
        ensures count { result ≡ returned_by target (calls_of self.old.threads tid) }
        ensures within { result ≤ length (calls_of self.old.threads tid).list }
        ensures same { self.new ≡ self.old }
    {
        let thread = self.threads.get_mut(tid).unwrap();
        thread.ending(target)
    }

    /// Gives all stamps their new numbers, and says how many frames there are. A step is one stamp.
    #[cold]
    #[inline(never)]
    pub(crate) fn renumber<L: Ledger>(
        &mut self,
        writes: &mut Shadow<S>,
        steps: &mut Steps<L>,
    ) -> usize
        requires { 3 * length (all_starts self.old.threads) + 2 ≤ S.MAX }
        ensures count { result ≡ length (all_starts self.old.threads) }
        ensures all { IsRenumbered self.old self.new writes.old.pages writes.new.pages }
        ensures cost { steps.new ≡ steps.old + stamps_in self.old writes.old.pages }
    {
        sorted_starts(self.threads.list(), &mut self.starts);
        renumber_threads(
            &mut self.threads,
            writes,
            &self.starts,
            &mut self.renewed,
            &mut self.rows,
            steps,
        );
        renew_writes(writes, &self.starts, &mut self.rows, steps);
        self.frames
    }
}
