//! What writes of words change in the stamps.
ghost use Rattle.std.specs.Prelude.{◌≡◌, ◌≤◌, ◌+◌, ◌^◌, IfSome, is_some, true};
ghost use Rattle.guest_words.specs.ByThread.{value_of};
ghost use Rattle.shadow_pages.specs.Pages.{AreCovered, HasPlace, covers, stamp_at};
ghost use Rattle.stamp_renumber.specs.Threads.{frames_of, pages_of};
ghost use Rattle.shadow_core.specs.Private.Reading.{IsChanged};
ghost use Rattle.shadow_core.specs.Private.Writing.{IsFilled};

use guest_words::{Tid, Word};
use shadow_pages::Shadow;
use stamp_lanes::Lanes;
use stamp_renumber::Threads;
use stamps::Stamp;

// Gives words a stamp.
#[inline(always)]
fn stamp_words<S: Stamp>(pages: &mut Shadow<S>, first: Word, count: u32, stamp: S)
    requires end { first + count ≤ 2 ^ 30 }
    requires covered { AreCovered pages.old.pages first count }
    ensures { IsFilled (S.number_of stamp) first count pages.old.pages pages.new.pages }
{
    if count == 1 {
        pages.set(first, stamp);
    } else {
        pages.fill(first, count, stamp);
    }
}

// Gives a word a stamp, by the place of its page.
#[inline(always)]
fn stamp_word<S: Stamp>(pages: &mut Shadow<S>, place: usize, w: Word, stamp: S)
    requires { HasPlace pages.old.pages w place }
    ensures { IsFilled (S.number_of stamp) w 1 pages.old.pages pages.new.pages }
{
    pages.set_at(place, w, stamp);
}

/// A write of words by the kernel: each gets the stamp as that of its latest write, and a mark. It does not allocate.
pub(crate) fn fill<S: Lanes>(
    writes: &mut Shadow<S>,
    marks: &mut Shadow<u8>,
    first: Word,
    count: u32,
    stamp: S,
)
    requires end { first + count ≤ 2 ^ 30 }
    requires written { AreCovered writes.old.pages first count }
    requires marked { AreCovered marks.old.pages first count }
    ensures writes { IsFilled (S.number_of stamp) first count writes.old.pages writes.new.pages }
    ensures marks { IsFilled 1 first count marks.old.pages marks.new.pages }
{
    stamp_words(writes, first, count, stamp);
    stamp_words(marks, first, count, 1);
}

/// Where the latest write of a word is kept, its stamp and its mark.
#[derive(Clone, Copy)]
pub struct Latest<S: Stamp> {
    /// The place of its page, and of that of its mark.
    pub place: usize,
    pub stamp: S,
    pub mark: u8,
}

/// The latest write of a word, where both pages have one place. They do, but where a page was refused.
#[inline(always)]
pub(crate) fn latest_of<S: Stamp>(
    writes: &Shadow<S>,
    marks: &Shadow<u8>,
    w: Word,
) -> Option<Latest<S>>
    ensures written { IfSome result (λ l. HasPlace writes.now.pages w l.place) }
    ensures marked { IfSome result (λ l. HasPlace marks.now.pages w l.place) }
    ensures stamp { IfSome result (λ l. S.number_of l.stamp ≡ stamp_at writes.now.pages w) }
    ensures mark { IfSome result (λ l. l.mark ≡ stamp_at marks.now.pages w) }
{
    let place = writes.find(w)?;
    if !marks.has_at(place, w) {
        return None;
    }
    let stamp = writes.get_at(place, w);
    let mark = marks.get_at(place, w);
    Some(Latest { place, stamp, mark })
}

/// Whether a thread wrote the word last, since the counter last moved.
#[inline(always)]
pub(crate) fn is_latest<S: Stamp>(latest: Latest<S>, counter: u32) -> bool
    ensures stamp { result ≡ true → S.number_of latest.stamp ≡ counter }
    ensures mark { result ≡ true → latest.mark ≡ 0 }
{
    latest.stamp.number() == counter && latest.mark == 0
}

/// A write of one word, by the places of its pages: that of the thread's accesses, and that of the latest write and of the mark.
#[inline(always)]
pub(crate) fn write_at<S: Lanes>(
    threads: &mut Threads<S>,
    tid: Tid,
    own_place: usize,
    writes: &mut Shadow<S>,
    marks: &mut Shadow<u8>,
    place: usize,
    w: Word,
    stamp: S,
)
    requires lives { is_some (value_of threads.old.threads tid) ≡ true }
    requires own { HasPlace (pages_of threads.old.threads tid) w own_place }
    requires written { HasPlace writes.old.pages w place }
    requires marked { HasPlace marks.old.pages w place }
    ensures changed { IsChanged threads.old threads.new tid (frames_of threads.old.threads tid)
        (pages_of threads.new.threads tid) }
    ensures access { IsFilled (S.number_of stamp) w 1 (pages_of threads.old.threads tid)
        (pages_of threads.new.threads tid) }
    ensures writes { IsFilled (S.number_of stamp) w 1 writes.old.pages writes.new.pages }
    ensures marks { IsFilled 0 w 1 marks.old.pages marks.new.pages }
{
    stamp_word(threads.shadow_mut(tid), own_place, w, stamp);
    stamp_word(writes, place, w, stamp);
    stamp_word(marks, place, w, 0);
}

// A write of one word. Each page is looked up once.
#[inline(always)]
fn write_one<S: Lanes>(
    threads: &mut Threads<S>,
    tid: Tid,
    writes: &mut Shadow<S>,
    marks: &mut Shadow<u8>,
    w: Word,
    stamp: S,
)
    requires lives { is_some (value_of threads.old.threads tid) ≡ true }
    requires covered { covers (pages_of threads.old.threads tid) w ≡ true }
    requires written { covers writes.old.pages w ≡ true }
    requires marked { covers marks.old.pages w ≡ true }
    ensures changed { IsChanged threads.old threads.new tid (frames_of threads.old.threads tid)
        (pages_of threads.new.threads tid) }
    ensures access { IsFilled (S.number_of stamp) w 1 (pages_of threads.old.threads tid)
        (pages_of threads.new.threads tid) }
    ensures writes { IsFilled (S.number_of stamp) w 1 writes.old.pages writes.new.pages }
    ensures marks { IsFilled 0 w 1 marks.old.pages marks.new.pages }
{
    let own_place = threads.shadow(tid).place(w);
    let write_place = writes.place(w);
    let mark_place = marks.place(w);
    stamp_word(threads.shadow_mut(tid), own_place, w, stamp);
    stamp_word(writes, write_place, w, stamp);
    stamp_word(marks, mark_place, w, 0);
}

/// A write of words by the thread: each gets the stamp, as that of the thread's access and as that of its latest write, and
/// no mark. It does not allocate.
#[inline(always)]
pub(crate) fn write<S: Lanes>(
    threads: &mut Threads<S>,
    tid: Tid,
    writes: &mut Shadow<S>,
    marks: &mut Shadow<u8>,
    first: Word,
    count: u32,
    stamp: S,
)
    requires end { first + count ≤ 2 ^ 30 }
    requires lives { is_some (value_of threads.old.threads tid) ≡ true }
    requires covered { AreCovered (pages_of threads.old.threads tid) first count }
    requires written { AreCovered writes.old.pages first count }
    requires marked { AreCovered marks.old.pages first count }
    ensures changed { IsChanged threads.old threads.new tid (frames_of threads.old.threads tid)
        (pages_of threads.new.threads tid) }
    ensures access { IsFilled (S.number_of stamp) first count (pages_of threads.old.threads tid)
        (pages_of threads.new.threads tid) }
    ensures writes { IsFilled (S.number_of stamp) first count writes.old.pages writes.new.pages }
    ensures marks { IsFilled 0 first count marks.old.pages marks.new.pages }
{
    if count == 1 {
        write_one(threads, tid, writes, marks, first, stamp);
    } else {
        write_all(threads, tid, writes, marks, first, count, stamp);
    }
}

// The same, page by page.
#[cold]
#[inline(never)]
fn write_all<S: Lanes>(
    threads: &mut Threads<S>,
    tid: Tid,
    writes: &mut Shadow<S>,
    marks: &mut Shadow<u8>,
    first: Word,
    count: u32,
    stamp: S,
)
    requires end { first + count ≤ 2 ^ 30 }
    requires lives { is_some (value_of threads.old.threads tid) ≡ true }
    requires covered { AreCovered (pages_of threads.old.threads tid) first count }
    requires written { AreCovered writes.old.pages first count }
    requires marked { AreCovered marks.old.pages first count }
    ensures changed { IsChanged threads.old threads.new tid (frames_of threads.old.threads tid)
        (pages_of threads.new.threads tid) }
    ensures access { IsFilled (S.number_of stamp) first count (pages_of threads.old.threads tid)
        (pages_of threads.new.threads tid) }
    ensures writes { IsFilled (S.number_of stamp) first count writes.old.pages writes.new.pages }
    ensures marks { IsFilled 0 first count marks.old.pages marks.new.pages }
{
    stamp_words(threads.shadow_mut(tid), first, count, stamp);
    stamp_words(writes, first, count, stamp);
    stamp_words(marks, first, count, 0);
}
