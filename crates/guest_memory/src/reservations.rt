//! The words that threads have reserved.
ghost use Rattle.std.specs.Prelude.{◌≡◌, ◌<◌, ◌≤◌, ◌-◌, ◌↔◌, IsTrue, true, not, take, length, filter};
ghost use Rattle.guest_memory.specs.Holders.{held_in, is_distinct, is_invalidated};
ghost use Rattle.guest_memory.specs.Memory.{is_among};
ghost use Rattle.guest_memory.specs.Reserved.{HoldAtMost, nothing_reserved, with_word, without_thread, holds, after_write};
ghost use Rattle.guest_words.specs.declared.limits.TheConstants.{THREADS};

use guest_words::limits::THREADS;
use guest_words::{Tid, Word};

/// For each thread at most one reserved word; at most `THREADS` threads have one.
#[derive(Clone, Copy, Debug)]
pub struct Reservations {
    holders: [(Tid, Word); THREADS],
    count: usize,
    ghost places: { length holders ≡ THREADS },
    ghost few: { count ≤ THREADS },
    ghost distinct: { is_distinct (take count holders) ≡ true },
}

impl Reservations {
    ghost use Rattle.guest_memory.specs.ReservedBy.{reserved_by};

    /// No thread has a reservation.
    pub fn new() -> Reservations
        ensures { reserved_by result ≡ nothing_reserved }
    {
        Reservations {
            holders: [(Tid::FIRST, Word::of(0)); THREADS],
            count: 0,
        }
    }

    /// Whether no thread has a reservation.
    #[inline(always)]
    pub fn is_empty(&self) -> bool
        ensures { IsTrue result ↔ (reserved_by self.now ≡ nothing_reserved) }
    {
        self.count == 0
    }

    /// Reserves a word for a thread, in place of what it had. Fewer than `THREADS` other threads have a reservation.
    pub fn set(&mut self, tid: Tid, word: Word)
        requires { HoldAtMost (without_thread (reserved_by self.old) tid) (THREADS - 1) }
        ensures { reserved_by self.new ≡ with_word (reserved_by self.old) tid word }
    {
        self.forget(tid);
        self.holders[self.count] = (tid, word);
        self.count += 1;
    }

    /// Whether the thread has reserved this word. Afterwards it has no reservation.
    pub fn take(&mut self, tid: Tid, word: Word) -> bool
        ensures held { result ≡ holds (reserved_by self.old) tid word }
        ensures gone { reserved_by self.new ≡ without_thread (reserved_by self.old) tid }
    {
        let held = is_held(&self.holders[..self.count], tid, word);
        self.forget(tid);
        held
    }

    /// Drops the reservations on these words of all threads other than the writer. The kernel writes as no thread.
    #[inline(always)]
    pub fn written(&mut self, by: Option<Tid>, first: Word, count: u32)
        ensures { reserved_by self.new ≡ after_write (reserved_by self.old) by first count }
    {
        // most writes find no reservation
        if self.count > 0 {
            self.invalidate(Invalidation::OnWords(by, first, count));
        }
    }

    /// Drops the thread's reservation, if it has one.
    pub fn forget(&mut self, tid: Tid)
        ensures { reserved_by self.new ≡ without_thread (reserved_by self.old) tid }
    {
        if self.count > 0 {
            self.invalidate(Invalidation::OfThread(tid));
        }
    }

    // Drops the reservations that are invalidated.
    #[inline(always)]
    fn invalidate(&mut self, invalidation: Invalidation)
        ensures { take self.new.count self.new.holders
            ≡ filter (λ h. not (is_invalidated invalidation h))
            (take self.old.count self.old.holders) }
    {
        self.count = retain_valid(&mut self.holders[..self.count], &invalidation);
    }
}

// Which reservations go: a thread's, or those on words of all threads other than the writer.
#[derive(Clone, Copy)]
enum Invalidation {
    OfThread(Tid),
    OnWords(Option<Tid>, Word, u32),
}

impl Invalidation {
    // Whether a thread with this word is among them.
    fn is_of(&self, tid: Tid, word: Word) -> bool
        ensures { result ≡ is_invalidated self.now (tid, word) }
    {
        match *self {
            Invalidation::OfThread(holder) => tid == holder,
            Invalidation::OnWords(by, first, count) => by != Some(tid)
                && is_among(word, first, count),
        }
    }
}

// Whether a word is one of `count`, from the first on.
fn is_among(word: Word, first: Word, count: u32) -> bool
    ensures { result ≡ is_among first count word }
{
    first <= word && word.number() - first.number() < count
}

// Whether this word stands beside the thread.
fn is_held(holders: &[(Tid, Word)], tid: Tid, word: Word) -> bool
    ensures { result ≡ holds (held_in holders.now) tid word }
{
    for place in 0..holders.len() {
        let (holder, held) = holders[place];
        if tid == holder {
            return held == word;
        }
    }
    false
}

// Moves the holders that keep their reservation to the front, in their order, and says how many they are.
#[inline(never)]
fn retain_valid(holders: &mut [(Tid, Word)], invalidation: &Invalidation) -> usize
    ensures kept { take result holders.new ≡ filter
        (λ h. not (is_invalidated invalidation.now h)) holders.old }
    ensures few { result ≤ length holders.old }
{
    let mut kept = 0;
    for place in 0..holders.len() {
        let holder = holders[place];
        let goes = invalidation.is_of(holder.0, holder.1);
        if !goes {
            holders[kept] = holder;
            kept += 1;
        }
    }
    kept
}
