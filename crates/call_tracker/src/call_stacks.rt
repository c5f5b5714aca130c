//! The open calls of all threads.
ghost use Rattle.std.specs.Prelude.{◌≡◌, ◌+◌, ◌-◌, ◌^◌, ◌<◌, ◌≤◌, ◌++◌, ◌∷◌, [], true, None, Some, List, All, drop, length, slice_get, is_some, IsOk, IfOk, OnOk, OnErr};
ghost use Rattle.std.specs.Option.{option_map};
ghost use Rattle.guest_words.specs.ByThread.{numbers, value_of, with_value, without_thread};
ghost use Rattle.trace_model.specs.declared.event_kinds.Event.{Event};
ghost use Rattle.trace_model.specs.Activations.{count_returned, open_calls};
ghost use Rattle.trace_model.specs.Depth.{count_begun, count_ended, pending};
ghost use Rattle.trace_model.specs.Events.{thread_of};
ghost use Rattle.trace_model.specs.Observing.{MayTake};
ghost use Rattle.trace_model.specs.WellFormed.{is_live};
ghost use Rattle.call_tracker.specs.Calls.{backs};
ghost use Rattle.call_tracker.specs.CallStacks.{StacksStandFor, call_of, calls_of};

use crate::{OpenCall, OpenCalls};
use guest_words::{Addr, ByThread, Tid};
use std::alloc::{AllocError, Global};
use std::marker::Model;
use trace_model::Event;

/// The open calls of all threads that live, and how many they are. Contracts see the threads by rising number, each with its
/// calls, the innermost first.
#[derive(Drop)]
pub struct CallStacks {
    alloc: Global,
    threads: ByThread<OpenCalls<OpenCall>>,
    pending: u64,
}

impl Model for CallStacks {
    ghost use Rattle.std.specs.Prelude.{map, reverse};
    ghost use Rattle.call_tracker.specs.CallStacks.{Stacks};

    ghost Value = { Stacks };

    ghost view = { λ s. record {
      threads = map (λ x. (x.0, reverse x.1.calls)) s.threads.list;
      pending = s.pending;
    } };
}

impl CallStacks {
    /// No event so far.
    pub fn new(alloc: Global) -> CallStacks
        ensures { StacksStandFor result [] }
    {
        CallStacks {
            alloc,
            threads: ByThread::new(alloc),
            pending: 0,
        }
    }

    /// How many calls are open.
    pub fn pending(&self) -> u64
        ensures value { result ≡ self.now.pending }
        ensures stands { (past : List Event) → StacksStandFor self.now past → result ≡ pending past }
    {
        self.pending
    }

    /// The innermost open call of the thread.
    pub fn top(&self, tid: Tid) -> Option<OpenCall>
        ensures value { result ≡ slice_get (calls_of self.now tid) 0 }
        ensures stands { (past : List Event) → StacksStandFor self.now past
            → result ≡ option_map call_of (slice_get (open_calls past tid) 0) }
    {
        self.threads.get(tid)?.top()
    }

    /// Whether the thread lives.
    pub fn lives(&self, tid: Tid) -> bool
        ensures value { result ≡ is_some (value_of self.now.threads tid) }
        ensures stands { (past : List Event) → StacksStandFor self.now past
            → result ≡ is_live past tid }
    {
        self.threads.get(tid).is_some()
    }

    /// Takes one more event, and says how many calls it ended. Only an event that begins a call allocates.
    pub fn apply(&mut self, e: Event) -> Result<usize, AllocError>
        requires { ∥ MayTake StacksStandFor self.old e ∥₁ }
        ensures stands { (past : List Event) → StacksStandFor self.old past
            → OnOk result (StacksStandFor self.new (e ∷ past)) }
        ensures ended { (past : List Event) → StacksStandFor self.old past
            → IfOk result (λ n. n ≡ count_ended e past (thread_of e)) }
        ensures refused { OnErr result (self.new ≡ self.old) }
        ensures no_allocation { count_begun e ≡ 0 → IsOk result }
    {
        match e {
            Event::Start { tid, entry } => {
                self.start(tid, entry)?;
                Ok(0)
            }
            Event::Call { tid, entry, back } => {
                self.call(tid, entry, back)?;
                Ok(0)
            }
            Event::Ret { tid, target } => Ok(self.return_to(tid, target)),
            Event::End { tid } => Ok(self.end(tid)),
            _ => Ok(0),
        }
    }

    // The first call of a thread.
    fn start(&mut self, tid: Tid, entry: Addr) -> Result<(), AllocError>
        requires above { All (λ n. n < tid) (numbers self.old.threads) }
        requires few { self.old.pending + 1 < 2 ^ 64 }
        ensures threads { OnOk result (self.new.threads
            ≡ self.old.threads ++ (tid, record { entry = entry; back = None } ∷ []) ∷ []) }
        ensures pending { OnOk result (self.new.pending ≡ self.old.pending + 1) }
        ensures refused { OnErr result (self.new ≡ self.old) }
    {
        let mut calls = OpenCalls::new(self.alloc)?;
        calls.push(OpenCall { entry, back: None })?;
        self.threads.insert(tid, calls)?;
        self.pending += 1;
        Ok(())
    }

    // A call of a thread that lives.
    fn call(&mut self, tid: Tid, entry: Addr, back: Addr) -> Result<(), AllocError>
        requires lives { is_some (value_of self.old.threads tid) ≡ true }
        requires few { self.old.pending + 1 < 2 ^ 64 }
        ensures threads { OnOk result (self.new.threads
            ≡ with_value self.old.threads tid
            (record { entry = entry; back = Some back } ∷ calls_of self.old tid)) }
        ensures pending { OnOk result (self.new.pending ≡ self.old.pending + 1) }
        ensures refused { OnErr result (self.new ≡ self.old) }
    {
        let calls = self.threads.get_mut(tid).unwrap();
        calls.push(OpenCall {
            entry,
            back: Some(back),
        })?;
        self.pending += 1;
        Ok(())
    }

    // A return of a thread that lives; says how many calls it ended.
    fn return_to(&mut self, tid: Tid, target: Addr) -> usize
        requires lives { is_some (value_of self.old.threads tid) ≡ true }
        requires few { length (calls_of self.old tid) ≤ self.old.pending }
        ensures count { result ≡ count_returned target (backs (calls_of self.old tid)) }
        ensures threads { self.new.threads ≡ with_value self.old.threads tid
            (drop result (calls_of self.old tid)) }
        ensures pending { self.new.pending ≡ self.old.pending - result }
    {
        let calls = self.threads.get_mut(tid).unwrap();
        let ended = calls.pop_to(target);
        self.pending -= ended as u64;
        ended
    }

    // How many calls of the thread are open.
    fn depth(&self, tid: Tid) -> usize
        ensures { result ≡ length (calls_of self.now tid) }
    {
        match self.threads.get(tid) {
            Some(calls) => calls.depth(),
            None => 0,
        }
    }

    // The end of a thread; says how many calls it ended.
    fn end(&mut self, tid: Tid) -> usize
        requires few { length (calls_of self.old tid) ≤ self.old.pending }
        ensures count { result ≡ length (calls_of self.old tid) }
        ensures threads { self.new.threads ≡ without_thread self.old.threads tid }
        ensures pending { self.new.pending ≡ self.old.pending - result }
    {
        let ended = self.depth(tid);
        self.threads.remove(tid);
        self.pending -= ended as u64;
        ended
    }
}
