//! A read of words: what it changes in the frames and the stamps of the thread that reads.
ghost use Rattle.std.specs.Prelude.{◌≡◌, ◌≤◌, ◌<◌, ◌+◌, ◌*◌, ◌%◌, ◌^◌, ◌∷◌, [], ℕ, All, IfSome, count_by, is_some, length, pos, true};
ghost use Rattle.std.specs.List.{range_with_len};
ghost use Rattle.guest_words.specs.ByThread.{value_of};
ghost use Rattle.shadow_pages.specs.Pages.{AreCovered, HasPlace, covers, stamp_at};
ghost use Rattle.shadow_stack.specs.Frames.{starts_of};
ghost use Rattle.stamp_lanes.specs.Plain.{is_by_kernel, is_by_thread};
ghost use Rattle.stamp_renumber.specs.Threads.{frames_of, pages_of};
ghost use Rattle.stamp_table.specs.Allows.{AreWithin};
ghost use Rattle.stamp_table.specs.Frames.{gain, negated};
ghost use Rattle.shadow_core.specs.Private.Reading.{AreSmall, IsRead, IsReadWithin, places_at};

use crate::rows::{ZeroRows, read_page, row_of};
use guest_words::{Tid, Word};
use shadow_pages::Shadow;
use shadow_stack::{Steps, Sums};
use stamp_lanes::{Bulk, Lanes};
use stamp_renumber::Threads;
use stamps::Stamp;
use std::sync::ledger::Ledger;

// What a read of a word counts.
fn gain_of<S: Stamp>(own: S, write: S) -> Sums
    ensures value { result ≡ gain (record { own = S.number_of own; write = S.number_of write; mark = 0 }) }
    ensures small { AreSmall result }
{
    if own.number() < write.number() {
        Sums { plain: 0, bare: 1 }
    } else {
        Sums { plain: 1, bare: 1 }
    }
}

// Both sums, below zero.
fn below_zero(by: Sums) -> Sums
    requires { AreSmall by }
    ensures value { result ≡ negated by }
    ensures small { AreSmall result }
{
    Sums {
        plain: -by.plain,
        bare: -by.bare,
    }
}

/// Where a thread's access to a word is kept, and its stamp.
#[derive(Clone, Copy)]
pub struct Access<S: Stamp> {
    /// The place of its page.
    pub place: usize,
    pub stamp: S,
}

/// The thread's access to a word, where it has the word's page.
#[inline(always)]
pub(crate) fn access_of<S: Lanes>(threads: &Threads<S>, tid: Tid, w: Word) -> Option<Access<S>>
    requires lives { is_some (value_of threads.now.threads tid) ≡ true }
    ensures place { IfSome result (λ a. HasPlace (pages_of threads.now.threads tid) w a.place) }
    ensures own { IfSome result (λ a. S.number_of a.stamp ≡ stamp_at (pages_of threads.now.threads tid) w) }
    ensures some { is_some result ≡ covers (pages_of threads.now.threads tid) w }
{
    let shadow = threads.shadow(tid);
    let place = shadow.find(w)?;
    let stamp = shadow.get_at(place, w);
    Some(Access { place, stamp })
}

// A read of one word, by its access and by the stamp of the latest write.
#[inline(always)]
fn read_stamped<S: Lanes, L: Ledger>(
    threads: &mut Threads<S>,
    tid: Tid,
    w: Word,
    access: Access<S>,
    write: S,
    stamp: S,
    steps: &mut Steps<L>,
)
    requires lives { is_some (value_of threads.old.threads tid) ≡ true }
    requires some { 1 ≤ length (frames_of threads.old.threads tid) }
    requires place { HasPlace (pages_of threads.old.threads tid) w access.place }
    requires sums { AreWithin (2 ^ 62 + 2 ^ 31) (frames_of threads.old.threads tid) }
    requires own { S.number_of access.stamp ≡ stamp_at (pages_of threads.old.threads tid) w }
    ensures read { (writes marks : ℕ → ℕ) → S.number_of write ≡ writes w
        → IsRead threads.old threads.new tid writes marks w 1 (S.number_of stamp) }
    ensures cost { IsReadWithin 4 threads.old tid w 1 steps.old steps.new }
{
    let Access { place, stamp: own } = access;
    let gain = gain_of(own, write);
    steps.count(2); // the thread, and the stamp
    threads.read_word(tid, place, w, own, gain, below_zero(gain), stamp, steps);
}

// A read of one word.
#[inline(always)]
fn read_word<S: Lanes, L: Ledger>(
    threads: &mut Threads<S>,
    tid: Tid,
    w: Word,
    writes: &Shadow<S>,
    stamp: S,
    steps: &mut Steps<L>,
)
    requires lives { is_some (value_of threads.old.threads tid) ≡ true }
    requires some { 1 ≤ length (frames_of threads.old.threads tid) }
    requires covered { covers (pages_of threads.old.threads tid) w ≡ true }
    requires sums { AreWithin (2 ^ 62 + 2 ^ 31) (frames_of threads.old.threads tid) }
    ensures read { (marks : ℕ → ℕ) → IsRead threads.old threads.new tid
        (stamp_at writes.now.pages) marks w 1 (S.number_of stamp) }
    ensures cost { IsReadWithin 9 threads.old tid w 1 steps.old steps.new }
{
    steps.count(5); // the thread, and two pages with their stamps
    let access = access_of(threads, tid, w).unwrap();
    read_stamped(threads, tid, w, access, writes.get(w), stamp, steps);
}

/// A read of one word that no one else wrote since the thread's access, by that access.
#[inline(always)]
pub(crate) fn read_kept<S: Lanes, L: Ledger>(
    threads: &mut Threads<S>,
    tid: Tid,
    w: Word,
    access: Access<S>,
    stamp: S,
    steps: &mut Steps<L>,
)
    requires lives { is_some (value_of threads.old.threads tid) ≡ true }
    requires some { 1 ≤ length (frames_of threads.old.threads tid) }
    requires place { HasPlace (pages_of threads.old.threads tid) w access.place }
    requires sums { AreWithin (2 ^ 62 + 2 ^ 31) (frames_of threads.old.threads tid) }
    requires own { S.number_of access.stamp ≡ stamp_at (pages_of threads.old.threads tid) w }
    ensures read { (writes marks : ℕ → ℕ) → writes w ≤ S.number_of access.stamp
        → IsRead threads.old threads.new tid writes marks w 1 (S.number_of stamp) }
    ensures cost { IsReadWithin 4 threads.old tid w 1 steps.old steps.new }
{
    let Access { place, stamp: own } = access;
    let by = Sums { plain: 1, bare: 1 };
    steps.count(2); // the thread, and the stamp
    threads.read_word(tid, place, w, own, by, below_zero(by), stamp, steps);
}

// The word `i` places on.
fn word_at(first: Word, i: u32) -> Word
    requires { first + i < 2 ^ 30 }
    ensures { result ≡ first + i }
{
    Word::of((first.number() + i) * 4)
}

// A read of words, one after the other.
fn read_words<S: Lanes, L: Ledger>(
    threads: &mut Threads<S>,
    tid: Tid,
    first: Word,
    count: u32,
    writes: &Shadow<S>,
    stamp: S,
    steps: &mut Steps<L>,
)
    requires end { first + count ≤ 2 ^ 30 }
    requires lives { is_some (value_of threads.old.threads tid) ≡ true }
    requires some { 1 ≤ length (frames_of threads.old.threads tid) }
    requires covered { AreCovered (pages_of threads.old.threads tid) first count }
    requires sums { AreWithin (2 ^ 62 + 2 ^ 30) (frames_of threads.old.threads tid) }
    ensures read { (marks : ℕ → ℕ) → IsRead threads.old threads.new tid
        (stamp_at writes.now.pages) marks first count (S.number_of stamp) }
    ensures cost { IsReadWithin (9 * count) threads.old tid first count steps.old steps.new }
{
    for i in 0..count {
        read_word(threads, tid, word_at(first, i), writes, stamp, steps);
    }
}

/// How many words of a read count as another thread's, and how many as the kernel's.
#[derive(Clone, Copy, Debug, PartialEq, Eq)]
pub(crate) struct Foreign {
    pub(crate) thread: u64,
    pub(crate) kernel: u64,
}

// What the words of one page add to the sums of the innermost frame, where none is old.
fn sums_of_bulk(bulk: Bulk) -> Sums
    ensures { result ≡ record { plain = pos bulk.plain; bare = pos bulk.untouched } }
{
    Sums {
        plain: i64::from(bulk.plain),
        bare: i64::from(bulk.untouched),
    }
}

// A read of words of one page: all at once where none is old.
fn read_part<S: Lanes, L: Ledger>(
    threads: &mut Threads<S>,
    tid: Tid,
    first: Word,
    count: u32,
    writes: &Shadow<S>,
    marks: &Shadow<u8>,
    zeros: &ZeroRows<S>,
    stamp: S,
    steps: &mut Steps<L>,
) -> Foreign
    requires some { 1 ≤ count }
    requires end { first + count ≤ 2 ^ 30 }
    requires within { first % 1024 + count ≤ 1024 }
    requires lives { is_some (value_of threads.old.threads tid) ≡ true }
    requires depth { 1 ≤ length (frames_of threads.old.threads tid) }
    requires starts { All (λ s. 0 < s) (starts_of (frames_of threads.old.threads tid)) }
    requires covered { AreCovered (pages_of threads.old.threads tid) first count }
    requires sums { AreWithin (2 ^ 62 + 2 ^ 30) (frames_of threads.old.threads tid) }
    ensures read { IsRead threads.old threads.new tid (stamp_at writes.now.pages)
        (stamp_at marks.now.pages) first count (S.number_of stamp) }
    ensures thread { result.thread ≡ count_by is_by_thread
        (places_at (stamp_at (pages_of threads.old.threads tid)) (stamp_at writes.now.pages)
        (stamp_at marks.now.pages) (range_with_len first count)) }
    ensures kernel { result.kernel ≡ count_by is_by_kernel
        (places_at (stamp_at (pages_of threads.old.threads tid)) (stamp_at writes.now.pages)
        (stamp_at marks.now.pages) (range_with_len first count)) }
    ensures cost { IsReadWithin (23 * count) threads.old tid first count steps.old steps.new }
{
    // The thread four times, the pages five times, and the innermost start; and of each word its stamps and its mark.
    steps.count(10 + 4 * u64::from(count));
    let write = row_of(writes, first, count, zeros.stamps());
    let mark = row_of(marks, first, count, zeros.marks());
    let top = threads.frames(tid).depth() - 1;
    let start = threads.frames(tid).start_at(top);
    let bulk = read_page(threads.shadow_mut(tid), first, write, mark, start, stamp);
    if bulk.old == 0 {
        threads.add_sum(tid, top, sums_of_bulk(bulk));
    } else {
        read_words(threads, tid, first, count, writes, stamp, steps);
    }
    Foreign {
        thread: u64::from(bulk.thread),
        kernel: u64::from(bulk.kernel),
    }
}

// What a read of a word counts, by the stamps of its access and of the latest write.
#[inline(always)]
fn foreign_word<S: Stamp>(own: S, write: S, marks: &Shadow<u8>, w: Word) -> Foreign
    ensures thread { result.thread ≡ count_by is_by_thread
        (record { own = S.number_of own; write = S.number_of write; mark = stamp_at marks.now.pages w } ∷ []) }
    ensures kernel { result.kernel ≡ count_by is_by_kernel
        (record { own = S.number_of own; write = S.number_of write; mark = stamp_at marks.now.pages w } ∷ []) }
{
    if own.number() >= write.number() {
        return Foreign {
            thread: 0,
            kernel: 0,
        };
    }
    if marks.get(w) == 0 {
        Foreign {
            thread: 1,
            kernel: 0,
        }
    } else {
        Foreign {
            thread: 0,
            kernel: 1,
        }
    }
}

/// A read of one word, with what it counts, by the thread's access.
#[inline(always)]
pub(crate) fn read_at<S: Lanes, L: Ledger>(
    threads: &mut Threads<S>,
    tid: Tid,
    w: Word,
    access: Access<S>,
    writes: &Shadow<S>,
    marks: &Shadow<u8>,
    stamp: S,
    steps: &mut Steps<L>,
) -> Foreign
    requires lives { is_some (value_of threads.old.threads tid) ≡ true }
    requires some { 1 ≤ length (frames_of threads.old.threads tid) }
    requires place { HasPlace (pages_of threads.old.threads tid) w access.place }
    requires sums { AreWithin (2 ^ 62 + 2 ^ 31) (frames_of threads.old.threads tid) }
    requires own { S.number_of access.stamp ≡ stamp_at (pages_of threads.old.threads tid) w }
    ensures read { IsRead threads.old threads.new tid (stamp_at writes.now.pages)
        (stamp_at marks.now.pages) w 1 (S.number_of stamp) }
    ensures thread { result.thread ≡ count_by is_by_thread
        (places_at (stamp_at (pages_of threads.old.threads tid)) (stamp_at writes.now.pages)
        (stamp_at marks.now.pages) (range_with_len w 1)) }
    ensures kernel { result.kernel ≡ count_by is_by_kernel
        (places_at (stamp_at (pages_of threads.old.threads tid)) (stamp_at writes.now.pages)
        (stamp_at marks.now.pages) (range_with_len w 1)) }
    ensures cost { IsReadWithin 8 threads.old tid w 1 steps.old steps.new }
{
    steps.count(4); // two pages, with a stamp and a mark
    let write = writes.get(w);
    if access.stamp.number() < write.number() {
        read_foreign(threads, tid, w, access, write, marks, stamp, steps)
    } else {
        read_found(threads, tid, w, access, write, marks, stamp, steps)
    }
}

// The same, by the stamp of the latest write too.
#[inline(always)]
fn read_found<S: Lanes, L: Ledger>(
    threads: &mut Threads<S>,
    tid: Tid,
    w: Word,
    access: Access<S>,
    write: S,
    marks: &Shadow<u8>,
    stamp: S,
    steps: &mut Steps<L>,
) -> Foreign
    requires lives { is_some (value_of threads.old.threads tid) ≡ true }
    requires some { 1 ≤ length (frames_of threads.old.threads tid) }
    requires place { HasPlace (pages_of threads.old.threads tid) w access.place }
    requires sums { AreWithin (2 ^ 62 + 2 ^ 31) (frames_of threads.old.threads tid) }
    requires own { S.number_of access.stamp ≡ stamp_at (pages_of threads.old.threads tid) w }
    ensures read { (writes : ℕ → ℕ) → S.number_of write ≡ writes w
        → IsRead threads.old threads.new tid writes (stamp_at marks.now.pages) w 1 (S.number_of stamp) }
    ensures thread { (writes : ℕ → ℕ) → S.number_of write ≡ writes w
        → result.thread ≡ count_by is_by_thread (places_at (stamp_at (pages_of threads.old.threads tid)) writes
        (stamp_at marks.now.pages) (range_with_len w 1)) }
    ensures kernel { (writes : ℕ → ℕ) → S.number_of write ≡ writes w
        → result.kernel ≡ count_by is_by_kernel (places_at (stamp_at (pages_of threads.old.threads tid)) writes
        (stamp_at marks.now.pages) (range_with_len w 1)) }
    ensures cost { IsReadWithin 4 threads.old tid w 1 steps.old steps.new }
{
    let found = foreign_word(access.stamp, write, marks, w);
    read_stamped(threads, tid, w, access, write, stamp, steps);
    found
}

// The same, where another thread or the kernel may have written the word since.
#[cold]
#[inline(never)]
fn read_foreign<S: Lanes, L: Ledger>(
    threads: &mut Threads<S>,
    tid: Tid,
    w: Word,
    access: Access<S>,
    write: S,
    marks: &Shadow<u8>,
    stamp: S,
    steps: &mut Steps<L>,
) -> Foreign
    requires lives { is_some (value_of threads.old.threads tid) ≡ true }
    requires some { 1 ≤ length (frames_of threads.old.threads tid) }
    requires place { HasPlace (pages_of threads.old.threads tid) w access.place }
    requires sums { AreWithin (2 ^ 62 + 2 ^ 31) (frames_of threads.old.threads tid) }
    requires own { S.number_of access.stamp ≡ stamp_at (pages_of threads.old.threads tid) w }
    ensures read { (writes : ℕ → ℕ) → S.number_of write ≡ writes w
        → IsRead threads.old threads.new tid writes (stamp_at marks.now.pages) w 1 (S.number_of stamp) }
    ensures thread { (writes : ℕ → ℕ) → S.number_of write ≡ writes w
        → result.thread ≡ count_by is_by_thread (places_at (stamp_at (pages_of threads.old.threads tid)) writes
        (stamp_at marks.now.pages) (range_with_len w 1)) }
    ensures kernel { (writes : ℕ → ℕ) → S.number_of write ≡ writes w
        → result.kernel ≡ count_by is_by_kernel (places_at (stamp_at (pages_of threads.old.threads tid)) writes
        (stamp_at marks.now.pages) (range_with_len w 1)) }
    ensures cost { IsReadWithin 4 threads.old tid w 1 steps.old steps.new }
{
    read_found(threads, tid, w, access, write, marks, stamp, steps)
}

// A read of one word, with what it counts.
#[inline(always)]
fn read_one<S: Lanes, L: Ledger>(
    threads: &mut Threads<S>,
    tid: Tid,
    w: Word,
    writes: &Shadow<S>,
    marks: &Shadow<u8>,
    stamp: S,
    steps: &mut Steps<L>,
) -> Foreign
    requires lives { is_some (value_of threads.old.threads tid) ≡ true }
    requires some { 1 ≤ length (frames_of threads.old.threads tid) }
    requires covered { covers (pages_of threads.old.threads tid) w ≡ true }
    requires sums { AreWithin (2 ^ 62 + 2 ^ 31) (frames_of threads.old.threads tid) }
    ensures read { IsRead threads.old threads.new tid (stamp_at writes.now.pages)
        (stamp_at marks.now.pages) w 1 (S.number_of stamp) }
    ensures thread { result.thread ≡ count_by is_by_thread
        (places_at (stamp_at (pages_of threads.old.threads tid)) (stamp_at writes.now.pages)
        (stamp_at marks.now.pages) (range_with_len w 1)) }
    ensures kernel { result.kernel ≡ count_by is_by_kernel
        (places_at (stamp_at (pages_of threads.old.threads tid)) (stamp_at writes.now.pages)
        (stamp_at marks.now.pages) (range_with_len w 1)) }
    ensures cost { IsReadWithin 11 threads.old tid w 1 steps.old steps.new }
{
    steps.count(3); // the thread, and a page with the stamp
    let access = access_of(threads, tid, w).unwrap();
    read_at(threads, tid, w, access, writes, marks, stamp, steps)
}

// How many of the words that are left lie in the page of the next one.
fn part_size(at: Word, left: u32) -> u32
    requires { 1 ≤ left }
    ensures some { 1 ≤ result }
    ensures left { result ≤ left }
    ensures within { at % 1024 + result ≤ 1024 }
{
    left.min(1024 - at.number() % 1024)
}

/// A read of words by the thread. Its frames are those after the reads of the words in order, by the stamps from
/// before the call, and each of the words gets the stamp. It does not allocate.
#[inline(always)]
pub(crate) fn read<S: Lanes, L: Ledger>(
    threads: &mut Threads<S>,
    tid: Tid,
    first: Word,
    count: u32,
    writes: &Shadow<S>,
    marks: &Shadow<u8>,
    zeros: &ZeroRows<S>,
    stamp: S,
    steps: &mut Steps<L>,
) -> Foreign
    requires end { first + count ≤ 2 ^ 30 }
    requires lives { is_some (value_of threads.old.threads tid) ≡ true }
    requires depth { 1 ≤ length (frames_of threads.old.threads tid) }
    requires starts { All (λ s. 0 < s) (starts_of (frames_of threads.old.threads tid)) }
    requires covered { AreCovered (pages_of threads.old.threads tid) first count }
    requires sums { AreWithin (2 ^ 62) (frames_of threads.old.threads tid) }
    ensures read { IsRead threads.old threads.new tid (stamp_at writes.now.pages)
        (stamp_at marks.now.pages) first count (S.number_of stamp) }
    ensures thread { result.thread ≡ count_by is_by_thread
        (places_at (stamp_at (pages_of threads.old.threads tid)) (stamp_at writes.now.pages)
        (stamp_at marks.now.pages) (range_with_len first count)) }
    ensures kernel { result.kernel ≡ count_by is_by_kernel
        (places_at (stamp_at (pages_of threads.old.threads tid)) (stamp_at writes.now.pages)
        (stamp_at marks.now.pages) (range_with_len first count)) }
    ensures cost { IsReadWithin (23 * count) threads.old tid first count steps.old steps.new }
{
    if count == 1 {
        return read_one(threads, tid, first, writes, marks, stamp, steps);
    }
    read_parts(
        threads, tid, first, count, writes, marks, zeros, stamp, steps,
    )
}

// The same, page by page.
#[cold]
#[inline(never)]
fn read_parts<S: Lanes, L: Ledger>(
    threads: &mut Threads<S>,
    tid: Tid,
    first: Word,
    count: u32,
    writes: &Shadow<S>,
    marks: &Shadow<u8>,
    zeros: &ZeroRows<S>,
    stamp: S,
    steps: &mut Steps<L>,
) -> Foreign
    requires end { first + count ≤ 2 ^ 30 }
    requires lives { is_some (value_of threads.old.threads tid) ≡ true }
    requires depth { 1 ≤ length (frames_of threads.old.threads tid) }
    requires starts { All (λ s. 0 < s) (starts_of (frames_of threads.old.threads tid)) }
    requires covered { AreCovered (pages_of threads.old.threads tid) first count }
    requires sums { AreWithin (2 ^ 62) (frames_of threads.old.threads tid) }
    ensures read { IsRead threads.old threads.new tid (stamp_at writes.now.pages)
        (stamp_at marks.now.pages) first count (S.number_of stamp) }
    ensures thread { result.thread ≡ count_by is_by_thread
        (places_at (stamp_at (pages_of threads.old.threads tid)) (stamp_at writes.now.pages)
        (stamp_at marks.now.pages) (range_with_len first count)) }
    ensures kernel { result.kernel ≡ count_by is_by_kernel
        (places_at (stamp_at (pages_of threads.old.threads tid)) (stamp_at writes.now.pages)
        (stamp_at marks.now.pages) (range_with_len first count)) }
    ensures cost { IsReadWithin (23 * count) threads.old tid first count steps.old steps.new }
{
    let mut found = Foreign {
        thread: 0,
        kernel: 0,
    };
    let mut done = 0;
    while done < count {
        let at = word_at(first, done);
        let size = part_size(at, count - done);
        let more = read_part(threads, tid, at, size, writes, marks, zeros, stamp, steps);
        found.thread += more.thread;
        found.kernel += more.kernel;
        done += size;
    }
    found
}
