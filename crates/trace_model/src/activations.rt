//! The activations of a thread that have begun and not ended.
ghost use Rattle.std.specs.Prelude.{◌≡◌, ◌≤◌, length, reverse, IfOk, OnOk, option_to_list};
ghost use Rattle.trace_model.specs.Activations.{backs, begun, calls_after, count_ending, count_returned, open_calls};

use crate::Event;
use guest_words::{Addr, Tid};
use std::alloc::{AllocError, Global};

/// An activation: the position of its Start or Call in the trace, the entry of its routine, and its return address,
/// which a root activation does not have.
#[derive(Clone, Copy, Debug)]
pub struct Activation {
    pub at: usize,
    pub entry: Addr,
    pub back: Option<Addr>,
}

// How many of the open activations, the outermost first, a return to the target ends.
fn count_returned(target: Addr, calls: &[Activation]) -> usize
    ensures count { result ≡ count_returned target (backs (reverse calls.now)) }
    ensures within { result ≤ length calls.now }
{
    calls
        .iter()
        .rev()
        .position(|call| call.back == Some(target))
        .map_or(0, |k| k + 1)
}

/// How many of the thread's open activations, the outermost first, the event ends.
pub fn count_ending(e: &Event, tid: Tid, calls: &[Activation]) -> usize
    ensures count { result ≡ count_ending e.now tid (backs (reverse calls.now)) }
    ensures within { result ≤ length calls.now }
{
    match *e {
        Event::Ret { tid: by, target } => {
            if by == tid {
                count_returned(target, calls)
            } else {
                0
            }
        }
        Event::End { tid: by } => { if by == tid { calls.len() } else { 0 } }
        _ => 0,
    }
}

// The activation of the thread that the event begins, which stands at the position.
fn begun(e: &Event, tid: Tid, at: usize) -> Option<Activation>
    ensures { option_to_list result ≡ begun e.now tid at }
{
    match *e {
        Event::Start { tid: by, entry } => (by == tid).then_some(Activation {
            at,
            entry,
            back: None,
        }),
        Event::Call {
            tid: by,
            entry,
            back,
        } => (by == tid).then_some(Activation {
            at,
            entry,
            back: Some(back),
        }),
        _ => None,
    }
}

// Brings the thread's open activations, the outermost first, from before the event to after it.
fn follow(calls: &mut Vec<Activation>, e: &Event, at: usize, tid: Tid) -> Result<(), AllocError>
    ensures { OnOk result (reverse calls.new.items
        ≡ calls_after e.now tid at (reverse calls.old.items)) }
{
    let ended = count_ending(e, tid, calls);
    calls.truncate(calls.len() - ended);
    if let Some(call) = begun(e, tid, at) {
        calls.push(call)?;
    }
    Ok(())
}

/// The thread's open activations after the events, the outermost first.
pub fn open_calls(alloc: Global, trace: &[Event], tid: Tid) -> Result<Vec<Activation>, AllocError>
    ensures { IfOk result (λ v. reverse v.items ≡ open_calls (reverse trace.now) tid) }
{
    let mut calls = Vec::new(alloc);
    for (at, e) in trace.iter().enumerate() {
        follow(&mut calls, e, at, tid)?;
    }
    Ok(calls)
}
