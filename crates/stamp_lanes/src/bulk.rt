//! A read of many places at once.
ghost use Rattle.std.specs.Prelude.{◌≡◌, ◌≤◌, ◌<◌, ◌+◌, ◌^◌, ◌==◌, ◌∷◌, [], List, cond, length, map, replicate, take};
ghost use Rattle.stamp_lanes.specs.Plain.{IsBulk, Place, places};

use crate::block::Block;
use stamps::Stamp;

/// What a read of many places finds.
#[derive(Clone, Copy, Debug, PartialEq, Eq)]
pub struct Bulk {
    /// Neither touched by the thread nor written.
    pub plain: u32,
    /// Written by another thread since the thread's touch.
    pub thread: u32,
    /// Written by the kernel since then.
    pub kernel: u32,
    /// Not touched by the thread.
    pub untouched: u32,
    /// Touched, but before the start.
    pub old: u32,
}

// The counts of two reads together.
fn both(a: Bulk, b: Bulk) -> Bulk
    requires plain { a.plain + b.plain < 2 ^ 32 }
    requires thread { a.thread + b.thread < 2 ^ 32 }
    requires kernel { a.kernel + b.kernel < 2 ^ 32 }
    requires untouched { a.untouched + b.untouched < 2 ^ 32 }
    requires old { a.old + b.old < 2 ^ 32 }
    ensures { result ≡ record {
      plain = a.plain + b.plain;
      thread = a.thread + b.thread;
      kernel = a.kernel + b.kernel;
      untouched = a.untouched + b.untouched;
      old = a.old + b.old;
    } }
{
    Bulk {
        plain: a.plain + b.plain,
        thread: a.thread + b.thread,
        kernel: a.kernel + b.kernel,
        untouched: a.untouched + b.untouched,
        old: a.old + b.old,
    }
}

// The counts of one place.
fn read_place<S: Stamp>(own: S, write: S, mark: u8, start: S) -> Bulk
    ensures { IsBulk (S.number_of start)
        (record { own = S.number_of own; write = S.number_of write; mark = mark } ∷ []) result }
{
    let touch = own.number();
    let is_foreign = touch < write.number();
    Bulk {
        plain: u32::from(touch == 0 && write.number() == 0),
        thread: u32::from(is_foreign && mark == 0),
        kernel: u32::from(is_foreign && mark != 0),
        untouched: u32::from(touch == 0),
        old: u32::from(0 < touch && touch < start.number()),
    }
}

// The counts of a block.
fn read_block<B: Block>(own: B, write: B, marks: B, start: B::Lane) -> Bulk
    requires { length (B.lanes own) ≡ 16 }
    ensures { (ps : List Place)
        → B.lanes own ≡ map (λ p. p.own) ps
        → B.lanes write ≡ map (λ p. p.write) ps
        → B.lanes marks ≡ map (λ p. p.mark) ps
        → IsBulk (B.Lane.number_of start) ps result }
{
    let zero = B::splat(B::Lane::from_number(0));
    let starts = B::splat(start);
    let later = own.where_below(write, write, own);
    let by_thread = marks.where_equal(zero, write, zero);
    let by_kernel = marks.where_equal(zero, zero, write);
    let touched = own.where_equal(zero, starts, own);
    Bulk {
        plain: later.count_equal(zero),
        thread: own.count_below(by_thread),
        kernel: own.count_below(by_kernel),
        untouched: own.count_equal(zero),
        old: touched.count_below(starts),
    }
}

// The counts of the whole blocks, and where these end.
fn read_blocks<B: Block>(
    own: &[B::Lane],
    write: &[B::Lane],
    marks: &[u8],
    start: B::Lane,
) -> (Bulk, usize)
    requires lengths { (length own.now ≡ length write.now) × (length own.now ≡ length marks.now) }
    requires few { length own.now ≤ 2 ^ 30 }
    ensures end { result.1 ≤ length own.now }
    ensures counts { IsBulk (B.Lane.number_of start)
        (take result.1 (places
        (map B.Lane.number_of own.now) (map B.Lane.number_of write.now) marks.now))
        result.0 }
{
    let mut counts = Bulk {
        plain: 0,
        thread: 0,
        kernel: 0,
        untouched: 0,
        old: 0,
    };
    let mut at = 0;
    while own.len() - at >= 16 {
        let stamps = B::load(own, at);
        let more = read_block(stamps, B::load(write, at), B::load_marks(marks, at), start);
        counts = both(counts, more);
        at += 16;
    }
    (counts, at)
}

// The counts of all places.
fn read_all<B: Block>(own: &[B::Lane], write: &[B::Lane], marks: &[u8], start: B::Lane) -> Bulk
    requires lengths { (length own.now ≡ length write.now) × (length own.now ≡ length marks.now) }
    requires few { length own.now ≤ 2 ^ 30 }
    ensures { IsBulk (B.Lane.number_of start)
        (places (map B.Lane.number_of own.now) (map B.Lane.number_of write.now) marks.now)
        result }
{
    let (mut counts, mut at) = read_blocks::<B>(own, write, marks, start);
    while at < own.len() {
        counts = both(counts, read_place(own[at], write[at], marks[at], start));
        at += 1;
    }
    counts
}

// Every stamp becomes this one.
fn fill<S: Stamp>(stamps: &mut [S], stamp: S)
    ensures { stamps.new ≡ replicate (length stamps.old) stamp }
{
    for i in 0..stamps.len() {
        stamps[i] = stamp;
    }
}

/// What a read of these places finds, and the own stamps, which become `now` where none is old.
pub fn bulk_read<B: Block>(
    own: &mut [B::Lane],
    write: &[B::Lane],
    marks: &[u8],
    start: B::Lane,
    now: B::Lane,
) -> Bulk
    requires lengths { (length own.old ≡ length write.now) × (length own.old ≡ length marks.now) }
    requires few { length own.old ≤ 2 ^ 30 }
    ensures counts { IsBulk (B.Lane.number_of start)
        (places (map B.Lane.number_of own.old) (map B.Lane.number_of write.now) marks.now)
        result }
    ensures filled { own.new ≡ cond (result.old == 0) (replicate (length own.old) now) own.old }
{
    let counts = read_all::<B>(own, write, marks, start);
    if counts.old == 0 {
        fill(own, now);
    }
    counts
}
