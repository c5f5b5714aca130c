//! The open calls of a thread.
ghost use Rattle.std.specs.Prelude.{◌≡◌, ◌+◌, ◌-◌, ◌≤◌, ◌++◌, ◌∷◌, [], length, map, slice_get, take, nat_lt, reverse, IfNone, IfOk, IfSome, IsOk, OnOk, OnErr};
ghost use Rattle.trace_model.specs.Activations.{count_returned};

use crate::{Missed, Returns};
use guest_words::Addr;
use room_stack::RoomStack;
use std::alloc::{AllocError, Global};
use std::marker::Model;

/// A call that has begun and not ended: the entry of its routine, and its return address, which the first routine of a
/// thread does not have.
#[derive(Clone, Copy, Debug, PartialEq, Eq)]
pub struct OpenCall {
    pub entry: Addr,
    pub back: Option<Addr>,
}

impl Returns for OpenCall {
    ghost back_of = { λ c. c.back };

    #[inline(always)]
    fn back(&self) -> Option<Addr> {
        self.back
    }
}

/// The open calls of a thread, each with what its owner keeps of it. Contracts see them as a list, the outermost first, and
/// beside it the spare room: how many can be pushed without allocating.
///
/// A return looks at the calls that it ends. One that ends none looks at the calls that began since the last return to its
/// target that ended none, as long as that target is one of the eight that are remembered, and else at all of them.
#[derive(Drop)]
pub struct OpenCalls<C: Returns> {
    calls: RoomStack<C>,
    missed: Missed,
}

impl<C: Returns> Model for OpenCalls<C> {
    ghost use Rattle.std.specs.Prelude.{map};
    ghost use Rattle.call_tracker.specs.Calls.{CallStack, stack_code};
    ghost use Rattle.call_tracker.specs.Missed.{AreMissed};

    ghost Value = { CallStack C };

    ghost coded = { stack_code C.code };

    ghost view = { λ c. record {
      calls = c.calls.items;
      spare = c.calls.spare;
    } };

    ghost invariant = { λ c. AreMissed (map C.back_of c.calls.items) c.missed };
}

impl<C: Returns> OpenCalls<C> {
    /// No call.
    pub fn new(alloc: Global) -> Result<OpenCalls<C>, AllocError>
        ensures { IfOk result (λ c. c.calls ≡ []) }
    {
        Ok(OpenCalls {
            calls: RoomStack::new(alloc),
            missed: Missed::nothing(),
        })
    }

    /// Makes the room for one call.
    pub fn reserve(&mut self) -> Result<(), AllocError>
        ensures room { OnOk result (1 ≤ self.new.spare) }
        ensures calls { self.new.calls ≡ self.old.calls }
        ensures kept { self.old.spare ≤ self.new.spare }
    {
        self.calls.reserve()
    }

    /// Begins a call. A refused one changes nothing, and none is refused where there is spare room.
    #[inline(always)]
    pub fn push(&mut self, call: C) -> Result<(), AllocError>
        ensures ok { OnOk result (self.new.calls ≡ self.old.calls ++ call ∷ []) }
        ensures err { OnErr result (self.new.calls ≡ self.old.calls) }
        ensures room { 1 ≤ self.old.spare → IsOk result }
        ensures lowered { self.old.spare ≤ self.new.spare + 1 }
    {
        self.calls.push(call)
    }

    /// The innermost call.
    pub fn top(&self) -> Option<C>
        ensures { result ≡ slice_get (reverse self.now.calls) 0 }
    {
        self.calls.as_slice().last().copied()
    }

    /// How many calls are open.
    pub fn depth(&self) -> usize
        ensures { result ≡ length self.now.calls }
    {
        self.calls.len()
    }

    /// Whether a call can be pushed without allocating.
    #[inline(always)]
    pub fn has_room(&self) -> bool
        ensures { result ≡ nat_lt 0 self.now.spare }
    {
        self.calls.has_room()
    }

    /// How many calls a return to the target ends: the innermost with that return address and all that it holds, and
    /// none where no call has it.
    #[inline(always)]
    pub fn ending(&mut self, target: Addr) -> usize
        ensures count { result ≡ count_returned target (map C.back_of (reverse self.old.calls)) }
        ensures within { result ≤ length self.old.calls }
        ensures same { self.new ≡ self.old }
    {
        self.missed.ending(target, self.calls.as_slice())
    }

    // Ends `ended` calls, the innermost first.
    #[inline(always)]
    fn cut(&mut self, ended: usize)
        requires { ended ≤ length self.old.calls }
        ensures calls { self.new.calls ≡ take (length self.old.calls - ended) self.old.calls }
        ensures spare { self.old.spare + ended ≤ self.new.spare }
    {
        let left = self.calls.len() - ended;
        self.calls.truncate(left);
        self.missed.keep(left);
    }

    /// Returns to the target, and says how many calls that ended.
    pub fn pop_to(&mut self, target: Addr) -> usize
        ensures count { result ≡ count_returned target (map C.back_of (reverse self.old.calls)) }
        ensures within { result ≤ length self.old.calls }
        ensures calls { self.new.calls ≡ take (length self.old.calls - result) self.old.calls }
        ensures spare { self.old.spare + result ≤ self.new.spare }
    {
        let ended = self.ending(target);
        self.cut(ended);
        ended
    }

    /// Takes the innermost call.
    #[inline(always)]
    pub fn pop(&mut self) -> Option<C>
        ensures some { IfSome result (λ call. self.old.calls ≡ self.new.calls ++ call ∷ []) }
        ensures none { IfNone result (self.old.calls ≡ []) }
        ensures spare { self.old.spare ≤ self.new.spare }
    {
        let call = self.calls.pop()?;
        self.missed.keep(self.calls.len());
        Some(call)
    }

    /// Ends all calls, and says how many they were.
    pub fn pop_all(&mut self) -> usize
        ensures count { result ≡ length self.old.calls }
        ensures calls { self.new.calls ≡ [] }
        ensures spare { self.old.spare + result ≤ self.new.spare }
    {
        let ended = self.calls.len();
        self.cut(ended);
        ended
    }
}
