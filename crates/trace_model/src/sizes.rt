//! What an activation has read and run, by the events inside it and those before, the oldest first.
ghost use Rattle.std.specs.Prelude.{◌≡◌, ◌+◌, ◌<◌, ◌^◌, not, reverse, count_by};
ghost use Rattle.trace_model.specs.Sizes.{accessed, bare, cost, last_touch};
ghost use Rattle.trace_model.specs.Causes.{Cause, counts_by, part};
ghost use Rattle.trace_model.specs.Private.SizeParts.{counts_touch, one_if, part_by, parts_by};
ghost use Rattle.std.specs.List.{range_with_len};
ghost use Rattle.trace_model.specs.WellFormed.{IsLight};

use crate::Event;
use crate::event_kinds::{Touch, touch_by};
use guest_words::{Tid, Word};

/// The parts of a size, in words, by what made the reads count.
#[derive(Clone, Copy, Debug)]
pub struct SizeParts {
    pub plain: u64,
    pub thread: u64,
    pub kernel: u64,
}

impl SizeParts {
    const NONE: SizeParts = SizeParts {
        plain: 0,
        thread: 0,
        kernel: 0,
    };

    // One more word, by how it was touched last where its read counts.
    fn with(self, counted: Option<Touch>) -> SizeParts
        requires plain { self.plain < 2 ^ 63 }
        requires thread { self.thread < 2 ^ 63 }
        requires kernel { self.kernel < 2 ^ 63 }
        ensures { result ≡ parts_by (λ cause. part_by cause self
            + one_if (counts_touch cause counted)) }
    {
        match counted {
            None => self,
            Some(Touch::Untouched | Touch::ByItself) => SizeParts {
                plain: self.plain + 1,
                ..self
            },
            Some(Touch::ByOther) => SizeParts {
                thread: self.thread + 1,
                ..self
            },
            Some(Touch::ByKernel) => SizeParts {
                kernel: self.kernel + 1,
                ..self
            },
        }
    }

    // The parts of both.
    fn plus(self, more: SizeParts) -> SizeParts
        requires plain { self.plain + more.plain < 2 ^ 64 }
        requires thread { self.thread + more.thread < 2 ^ 64 }
        requires kernel { self.kernel + more.kernel < 2 ^ 64 }
        ensures { result ≡ parts_by (λ cause. part_by cause self + part_by cause more) }
    {
        SizeParts {
            plain: self.plain + more.plain,
            thread: self.thread + more.thread,
            kernel: self.kernel + more.kernel,
        }
    }
}

// How the thread saw the word touched last.
fn last_touch(events: &[Event], tid: Tid, word: u64) -> Touch
    ensures { result ≡ last_touch (reverse events.now) tid word }
{
    for i in (0..events.len()).rev() {
        match touch_by(events[i], tid, word) {
            Touch::Untouched => {}
            touch => return touch,
        }
    }
    Touch::Untouched
}

// How the word was touched last in the whole past, where a read of it by the thread counts. It does not where the last
// touch inside the activation is the thread's own.
fn counted_touch(inside: &[Event], before: &[Event], tid: Tid, word: u64) -> Option<Touch>
    ensures { (cause : Cause) → counts_touch cause result
        ≡ counts_by cause (reverse inside.now) (reverse before.now) tid word }
{
    match last_touch(inside, tid, word) {
        Touch::ByItself => None,
        Touch::Untouched => Some(last_touch(before, tid, word)),
        touch => Some(touch),
    }
}

// The parts that a read of `count` words from `first` on adds.
fn parts_of_read(inside: &[Event], before: &[Event], tid: Tid, first: Word, count: u32) -> SizeParts
    ensures { result
        ≡ parts_by (λ cause. count_by
        (counts_by cause (reverse inside.now) (reverse before.now) tid)
        (range_with_len first count)) }
{
    let first = u64::from(first.number());
    let mut parts = SizeParts::NONE;
    for k in 0..u64::from(count) {
        parts = parts.with(counted_touch(inside, before, tid, first + k));
    }
    parts
}

/// The parts of the size of the thread's activation with these events inside, after the past.
pub fn parts_of(inside: &[Event], before: &[Event], tid: Tid) -> SizeParts
    requires { IsLight (reverse inside.now) }
    ensures { result ≡ parts_by (λ cause. part cause (reverse inside.now) (reverse before.now) tid) }
{
    let mut parts = SizeParts::NONE;
    for (i, e) in inside.iter().enumerate() {
        if let Event::Read {
            tid: reader,
            first,
            count,
        } = *e
        {
            if reader == tid {
                parts = parts.plus(parts_of_read(&inside[..i], before, tid, first, count));
            }
        }
    }
    parts
}

// Whether the thread read or wrote the word.
fn is_accessed(inside: &[Event], tid: Tid, word: u64) -> bool
    ensures { result ≡ accessed (reverse inside.now) tid word }
{
    for i in (0..inside.len()).rev() {
        if let Touch::ByItself = touch_by(inside[i], tid, word) {
            return true;
        }
    }
    false
}

// How many of the `count` words from `first` on the thread has not accessed.
fn count_unaccessed(inside: &[Event], tid: Tid, first: Word, count: u32) -> u64
    ensures { result ≡ count_by (λ l. not (accessed (reverse inside.now) tid l))
        (range_with_len first count) }
{
    let first = u64::from(first.number());
    let mut unaccessed = 0;
    for k in 0..u64::from(count) {
        if !is_accessed(inside, tid, first + k) {
            unaccessed += 1;
        }
    }
    unaccessed
}

/// The plain read memory size of the thread's activation with these events inside.
pub fn bare_of(inside: &[Event], tid: Tid) -> u64
    requires { IsLight (reverse inside.now) }
    ensures { result ≡ bare (reverse inside.now) tid }
{
    let mut bare = 0;
    for (i, e) in inside.iter().enumerate() {
        if let Event::Read {
            tid: reader,
            first,
            count,
        } = *e
        {
            if reader == tid {
                bare += count_unaccessed(&inside[..i], tid, first, count);
            }
        }
    }
    bare
}

/// The cost of the thread's activation with these events inside.
pub fn cost_of(inside: &[Event], tid: Tid) -> u64
    requires { IsLight (reverse inside.now) }
    ensures { result ≡ cost (reverse inside.now) tid }
{
    let mut cost = 0;
    for e in inside {
        if let Event::Step { tid: runner } = *e {
            if runner == tid {
                cost += 1;
            }
        }
    }
    cost
}
