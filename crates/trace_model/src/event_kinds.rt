//! The events of a run, and how one event touches a word.
ghost use Rattle.std.specs.Prelude.{◌≡◌};
ghost use Rattle.trace_model.specs.Events.{covers, touch};

use guest_words::{Addr, Tid, Word};

/// One event of a run. The `count` words of an access are those from `first` on.
#[derive(Clone, Copy, Debug, PartialEq, Eq)]
pub enum Event {
    /// The thread ran one instruction that did not fault.
    Step { tid: Tid },
    /// The thread, or the kernel for it, read these words.
    Read { tid: Tid, first: Word, count: u32 },
    /// The thread wrote these words.
    Write { tid: Tid, first: Word, count: u32 },
    /// The kernel wrote these words; the write is foreign to every thread, the caller included.
    Fill { first: Word, count: u32 },
    /// An activation of the routine at `entry` began; its return address is `back`.
    Call { tid: Tid, entry: Addr, back: Addr },
    /// The thread returned to `target`.
    Ret { tid: Tid, target: Addr },
    /// The thread's root activation began; it has no return address.
    Start { tid: Tid, entry: Addr },
    /// The thread ended, and all its activations with it.
    End { tid: Tid },
}

/// How a thread sees a word touched by an event.
#[derive(Clone, Copy, Debug, PartialEq, Eq)]
pub enum Touch {
    /// Not at all.
    Untouched,
    /// The thread read or wrote it.
    ByItself,
    /// Another thread wrote it.
    ByOther,
    /// The kernel filled it.
    ByKernel,
}

// Whether the word is one of the `count` words from `first` on.
fn covers(first: Word, count: u32, word: u64) -> bool
    ensures { result ≡ covers first count word }
{
    let first = u64::from(first.number());
    first <= word && word < first + u64::from(count)
}

/// How the thread sees the word touched by the event.
pub fn touch_by(e: Event, tid: Tid, word: u64) -> Touch
    ensures { result ≡ touch e tid word }
{
    match e {
        Event::Read {
            tid: by,
            first,
            count,
        } => {
            if by == tid && covers(first, count, word) {
                Touch::ByItself
            } else {
                Touch::Untouched
            }
        }
        Event::Write {
            tid: by,
            first,
            count,
        } => {
            if !covers(first, count, word) {
                Touch::Untouched
            } else if by == tid {
                Touch::ByItself
            } else {
                Touch::ByOther
            }
        }
        Event::Fill { first, count } => {
            if covers(first, count, word) {
                Touch::ByKernel
            } else {
                Touch::Untouched
            }
        }
        _ => Touch::Untouched,
    }
}
