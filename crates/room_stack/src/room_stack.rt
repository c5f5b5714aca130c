//! The stack.
ghost use Rattle.std.specs.Prelude.{◌≡◌, ◌+◌, ◌-◌, ◌<◌, ◌≤◌, ◌++◌, ◌∷◌, [], length, nat_lt, slice_get, slice_set, take, Some, IfNone, OnErr, OnOk, IsOk, true, false};
ghost use Rattle.std.specs.Borrow.{sem};
ghost use Rattle.std.specs.Option.{option_to_list};
ghost use Rattle.std.specs.Vec.{vec_capacity};

use std::alloc::{AllocError, Global};
use std::marker::Model;

/// Items, of which the last to come is the first to go. Contracts see them as a list, the first to come first, and beside it the
/// spare room: how many can be pushed without allocating. Only `push` and
/// `push_over` lower the room.
#[derive(Drop)]
pub struct RoomStack<T: Copy> {
    // The items, and behind them some that were popped.
    items: Vec<T>,
    depth: usize,
}

impl<T: Copy> Model for RoomStack<T> {
    ghost use Rattle.std.specs.Prelude.{◌≤◌, ◌-◌, length, take};
    ghost use Rattle.std.specs.Vec.{vec_capacity};
    ghost use Rattle.room_stack.specs.Stacked.{Stacked, stacked_code};

    ghost Value = { Stacked T };

    ghost coded = { stacked_code T.code };

    ghost view = { λ s. record {
      items = take s.depth s.items.items;
      spare = vec_capacity s.items - s.depth;
    } };

    ghost invariant = { λ s. s.depth ≤ length s.items.items };
}

// One more item at the end of a vector. It stands apart, so that the code of a push that needs no memory is short.
#[cold]
#[inline(never)]
fn push_behind<T: Copy>(items: &mut Vec<T>, item: T) -> Result<(), AllocError>
    ensures ok { OnOk result (items.new.items ≡ items.old.items ++ item ∷ []) }
    ensures err { OnErr result (items.new.items ≡ items.old.items) }
    ensures full { OnErr result (vec_capacity items.old ≤ length items.old.items) }
    ensures capacity { vec_capacity items.old ≤ vec_capacity items.new }
{
    items.push(item)?;
    Ok(())
}

impl<T: Copy> RoomStack<T> {
    ghost use Rattle.room_stack.specs.LentItem.{lends_item};

    /// No item.
    pub fn new(alloc: Global) -> RoomStack<T>
        ensures { result.items ≡ [] }
    {
        RoomStack {
            items: Vec::new(alloc),
            depth: 0,
        }
    }

    /// How many items there are.
    #[inline(always)]
    pub fn len(&self) -> usize
        ensures { result ≡ length self.now.items }
    {
        self.depth
    }

    /// The items.
    #[inline(always)]
    pub fn as_slice(&self) -> &[T]
        ensures { result.now ≡ self.now.items }
    {
        &self.items[..self.depth]
    }

    /// Whether an item can be pushed without allocating.
    #[inline(always)]
    pub fn has_room(&self) -> bool
        ensures { result ≡ nat_lt 0 self.now.spare }
    {
        self.depth < self.items.capacity()
    }

    /// Makes the room for one item.
    pub fn reserve(&mut self) -> Result<(), AllocError>
        ensures room { OnOk result (1 ≤ self.new.spare) }
        ensures items { self.new.items ≡ self.old.items }
        ensures kept { self.old.spare ≤ self.new.spare }
    {
        self.items.reserve(1)
    }

    /// One more item. A refused one changes nothing, and none is refused where there is spare room.
    #[inline(always)]
    pub fn push(&mut self, item: T) -> Result<(), AllocError>
        ensures ok { OnOk result (self.new.items ≡ self.old.items ++ item ∷ []) }
        ensures err { OnErr result (self.new.items ≡ self.old.items) }
        ensures room { 1 ≤ self.old.spare → IsOk result }
        ensures lowered { self.old.spare ≤ self.new.spare + 1 }
    {
        if self.depth == self.items.len() {
            push_behind(&mut self.items, item)?;
            self.depth += 1;
            return Ok(());
        }
        self.items[self.depth] = item;
        self.depth += 1;
        Ok(())
    }

    /// One more item, where it writes over one that was popped, and `true`; else `false`, and nothing changes. It does not allocate.
    #[inline(always)]
    pub fn push_over(&mut self, item: T) -> bool
        ensures pushed { result ≡ true → self.new.items ≡ self.old.items ++ item ∷ [] }
        ensures same { result ≡ false → self.new ≡ self.old }
        ensures lowered { self.old.spare ≤ self.new.spare + 1 }
    {
        if self.depth >= self.items.len() {
            return false;
        }
        self.items[self.depth] = item;
        self.depth += 1;
        true
    }

    /// Takes the last item.
    #[inline(always)]
    pub fn pop(&mut self) -> Option<T>
        ensures items { self.old.items ≡ self.new.items ++ option_to_list result }
        ensures none { IfNone result (self.old.items ≡ []) }
        ensures spare { self.old.spare ≤ self.new.spare }
    {
        if self.depth == 0 {
            return None;
        }
        self.depth -= 1;
        Some(self.items[self.depth])
    }

    /// Keeps the first `n` items, where there are more.
    pub fn truncate(&mut self, n: usize)
        ensures items { self.new.items ≡ take n self.old.items }
        ensures spare { self.old.spare + (length self.old.items - n) ≤ self.new.spare }
    {
        self.depth = self.depth.min(n);
    }

    /// Another item at a place.
    #[inline(always)]
    pub fn set(&mut self, i: usize, item: T)
        requires { i < length self.old.items }
        ensures items { self.new.items ≡ slice_set self.old.items i item }
        ensures kept { self.new.spare ≡ self.old.spare }
    {
        self.items[i] = item;
    }

    /// The item at a place, for writing.
    #[inline(always)]
    pub fn at_mut(&mut self, i: usize) -> &mut T
        requires { i < length self.old.items }
        ensures* writes_back { sem 𝓛 (lends_item T.row self.entry i result) }
        ensures value { slice_get self.old.items i ≡ Some result.now }
    {
        &mut self.items[i]
    }
}
