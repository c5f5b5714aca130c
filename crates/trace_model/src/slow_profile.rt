//! The profile of a trace, by looking back.
ghost use Rattle.std.specs.Prelude.{◌≡◌, ◌<◌, ◌≤◌, ◌++◌, length, map, take, reverse, IfOk, OnOk};
ghost use Rattle.trace_model.specs.Activations.{open_calls};
ghost use Rattle.trace_model.specs.Profile.{done, done_of, ended};
ghost use Rattle.trace_model.specs.WellFormed.{IsLight};

use crate::Event;
use crate::activations::{Activation, count_ending, open_calls};
use crate::sizes::{bare_of, cost_of, parts_of};
use guest_words::{Addr, Tid};
use std::alloc::{AllocError, Global};

/// An activation that ended: its thread, the entry of its routine, the size of its input in words, and its cost in
/// instructions. The size is the sum of three parts, by the last touch of a word before the read that counts: another thread
/// wrote it (`thread`), the kernel filled it (`kernel`), or the thread itself touched it or no one did (`plain`). Beside them
/// stands the plain read memory size (`bare`): the words whose first access in the activation is a read.
#[derive(Clone, Copy, Debug, PartialEq, Eq)]
pub struct Done {
    pub tid: Tid,
    pub entry: Addr,
    pub size: u64,
    pub cost: u64,
    pub plain: u64,
    pub thread: u64,
    pub kernel: u64,
    pub bare: u64,
}

// What the profile has of the thread's activation, which ends after the past.
fn done_of(trace: &[Event], tid: Tid, call: Activation) -> Done
    requires light { IsLight (reverse trace.now) }
    requires begun { call.at < length trace.now }
    ensures { result ≡ done_of (reverse trace.now) tid call }
{
    let (until, inside) = trace.split_at(call.at + 1);
    let parts = parts_of(inside, until, tid);
    Done {
        tid,
        entry: call.entry,
        size: parts.plain + parts.thread + parts.kernel,
        cost: cost_of(inside, tid),
        plain: parts.plain,
        thread: parts.thread,
        kernel: parts.kernel,
        bare: bare_of(inside, tid),
    }
}

// Records the innermost `ended` of the thread's open activations, the innermost first.
fn end_calls(
    trace: &[Event],
    tid: Tid,
    calls: &[Activation],
    ended: usize,
    done: &mut Vec<Done>,
) -> Result<(), AllocError>
    requires light { IsLight (reverse trace.now) }
    requires given { reverse calls.now ≡ open_calls (reverse trace.now) tid }
    requires within { ended ≤ length calls.now }
    ensures { OnOk result (done.new.items
        ≡ done.old.items ++ map (done_of (reverse trace.now) tid) (take ended (reverse calls.now))) }
{
    for k in 0..ended {
        let call = calls[calls.len() - 1 - k];
        done.push(done_of(trace, tid, call))?;
    }
    Ok(())
}

// Records what the event ends after the past.
fn end_by(alloc: Global, e: Event, trace: &[Event], done: &mut Vec<Done>) -> Result<(), AllocError>
    requires { IsLight (reverse trace.now) }
    ensures { OnOk result (done.new.items ≡ done.old.items ++ ended e (reverse trace.now)) }
{
    match e {
        Event::Ret { tid, .. } | Event::End { tid } => {
            let calls = open_calls(alloc, trace, tid)?;
            end_calls(trace, tid, &calls, count_ending(&e, tid, &calls), done)
        }
        _ => Ok(()),
    }
}

/// Each activation that ended in the trace, in order of ending, the innermost first where several end at once. It looks
/// back through the trace at each word read, and is the reference for faster programs. Every well-formed trace is light.
pub fn slow_done(alloc: Global, h: &[Event]) -> Result<Vec<Done>, AllocError>
    requires { IsLight (reverse h.now) }
    ensures { IfOk result (λ v. v.items ≡ done (reverse h.now)) }
{
    let mut done = Vec::new(alloc);
    for (q, e) in h.iter().enumerate() {
        end_by(alloc, *e, &h[..q], &mut done)?;
    }
    Ok(done)
}
