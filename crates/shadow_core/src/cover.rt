//! Memory for the stamps of words.
ghost use Rattle.std.specs.Prelude.{◌≡◌, ◌+◌, ◌^◌, ◌<◌, ◌≤◌, ◌++◌, ◌∷◌, [], ℕ, true, is_some, length, All, IsOk, OnErr, OnOk};
ghost use Rattle.guest_words.specs.ByThread.{numbers, value_of};
ghost use Rattle.shadow_pages.specs.Pages.{AreCovered, covers, stamp_at};
ghost use Rattle.call_tracker.specs.ThreadCalls.{no_counts};
ghost use Rattle.stamp_renumber.specs.Threads.{HasRoom, calls_of, frames_of, pages_of, stamped};
ghost use Rattle.shadow_core.specs.Private.Reading.{IsChanged};

use guest_words::{Tid, Word};
use shadow_pages::Shadow;
use stamp_lanes::Lanes;
use stamp_renumber::Threads;
use stamps::Stamp;
use std::alloc::AllocError;

/// Makes the pages of a range of words that are not there, of write stamps and of marks. No stamp changes.
#[inline(always)]
pub(crate) fn cover<S: Stamp>(
    writes: &mut Shadow<S>,
    marks: &mut Shadow<u8>,
    first: Word,
    count: u32,
) -> Result<(), AllocError>
    requires end { first + count ≤ 2 ^ 30 }
    requires marked { (w : ℕ) → covers writes.old.pages w ≡ true → covers marks.old.pages w ≡ true }
    ensures writes { OnOk result (AreCovered writes.new.pages first count) }
    ensures marks { OnOk result (AreCovered marks.new.pages first count) }
    ensures marked { (w : ℕ) → covers writes.new.pages w ≡ true → covers marks.new.pages w ≡ true }
    ensures stamps { (w : ℕ) → stamp_at writes.new.pages w ≡ stamp_at writes.old.pages w }
    ensures kinds { (w : ℕ) → stamp_at marks.new.pages w ≡ stamp_at marks.old.pages w }
    ensures covered { AreCovered writes.old.pages first count → IsOk result }
    ensures same { AreCovered writes.old.pages first count
        → (writes.new.pages ≡ writes.old.pages) × (marks.new.pages ≡ marks.old.pages) }
    ensures few { length writes.new.pages ≤ length writes.old.pages + count }
{
    if count == 1 && writes.covers(first) {
        return Ok(());
    }
    cover_all(writes, marks, first, count)
}

// The same, page by page.
#[cold]
#[inline(never)]
fn cover_all<S: Stamp>(
    writes: &mut Shadow<S>,
    marks: &mut Shadow<u8>,
    first: Word,
    count: u32,
) -> Result<(), AllocError>
    requires end { first + count ≤ 2 ^ 30 }
    requires marked { (w : ℕ) → covers writes.old.pages w ≡ true → covers marks.old.pages w ≡ true }
    ensures writes { OnOk result (AreCovered writes.new.pages first count) }
    ensures marks { OnOk result (AreCovered marks.new.pages first count) }
    ensures marked { (w : ℕ) → covers writes.new.pages w ≡ true → covers marks.new.pages w ≡ true }
    ensures stamps { (w : ℕ) → stamp_at writes.new.pages w ≡ stamp_at writes.old.pages w }
    ensures kinds { (w : ℕ) → stamp_at marks.new.pages w ≡ stamp_at marks.old.pages w }
    ensures covered { AreCovered writes.old.pages first count → IsOk result }
    ensures same { AreCovered writes.old.pages first count
        → (writes.new.pages ≡ writes.old.pages) × (marks.new.pages ≡ marks.old.pages) }
    ensures few { length writes.new.pages ≤ length writes.old.pages + count }
{
    marks.reserve(first, count)?;
    writes.reserve(first, count)
}

/// Makes the pages of a range of words that are not there, of the thread's access stamps. No stamp changes.
#[inline(always)]
pub(crate) fn cover_own<S: Lanes>(
    threads: &mut Threads<S>,
    tid: Tid,
    first: Word,
    count: u32,
) -> Result<(), AllocError>
    requires end { first + count ≤ 2 ^ 30 }
    requires lives { is_some (value_of threads.old.threads tid) ≡ true }
    ensures changed { IsChanged threads.old threads.new tid (frames_of threads.old.threads tid)
        (pages_of threads.new.threads tid) }
    ensures stamps { (w : ℕ) → stamp_at (pages_of threads.new.threads tid) w
        ≡ stamp_at (pages_of threads.old.threads tid) w }
    ensures ok { OnOk result (AreCovered (pages_of threads.new.threads tid) first count) }
    ensures covered { AreCovered (pages_of threads.old.threads tid) first count → IsOk result }
    ensures same { AreCovered (pages_of threads.old.threads tid) first count
        → pages_of threads.new.threads tid ≡ pages_of threads.old.threads tid }
{
    if count == 1 && threads.shadow(tid).covers(first) {
        return Ok(());
    }
    cover_all_own(threads, tid, first, count)
}

// The same, page by page.
#[cold]
#[inline(never)]
fn cover_all_own<S: Lanes>(
    threads: &mut Threads<S>,
    tid: Tid,
    first: Word,
    count: u32,
) -> Result<(), AllocError>
    requires end { first + count ≤ 2 ^ 30 }
    requires lives { is_some (value_of threads.old.threads tid) ≡ true }
    ensures changed { IsChanged threads.old threads.new tid (frames_of threads.old.threads tid)
        (pages_of threads.new.threads tid) }
    ensures stamps { (w : ℕ) → stamp_at (pages_of threads.new.threads tid) w
        ≡ stamp_at (pages_of threads.old.threads tid) w }
    ensures ok { OnOk result (AreCovered (pages_of threads.new.threads tid) first count) }
    ensures covered { AreCovered (pages_of threads.old.threads tid) first count → IsOk result }
    ensures same { AreCovered (pages_of threads.old.threads tid) first count
        → pages_of threads.new.threads tid ≡ pages_of threads.old.threads tid }
{
    threads.shadow_mut(tid).reserve(first, count)
}

/// One more thread, whose number is above all others, with room for its first frame and call. A refused one changes no thread.
pub(crate) fn add_with_room<S: Lanes>(threads: &mut Threads<S>, tid: Tid) -> Result<(), AllocError>
    requires above { All (λ n. n < tid) (numbers threads.old.threads) }
    ensures ok { OnOk result (threads.new.threads
        ≡ threads.old.threads ++ (tid, stamped threads.new.threads tid [] []) ∷ []) }
    ensures room { OnOk result (HasRoom threads.new tid) }
    ensures list { OnOk result ((calls_of threads.new.threads tid).list ≡ []) }
    ensures counts { OnOk result ((calls_of threads.new.threads tid).counts ≡ no_counts) }
    ensures err { OnErr result (threads.new.threads ≡ threads.old.threads) }
{
    threads.add(tid)?;
    let reserved = threads.reserve(tid);
    if reserved.is_err() {
        threads.remove(tid);
    }
    reserved
}
