//! Waiters who are taken out of the list of those who wait, and who are added to it again.
ghost use Rattle.std.specs.Prelude.{◌≡◌, ◌≤◌, ◌+◌, ◌++◌, [], length, map, vec_len};
ghost use Rattle.std.specs.Vec.{vec_capacity};
ghost use Rattle.futex_table.specs.Once.{IsOnce};
ghost use Rattle.futex_table.specs.Waiting.{waits_at, woken, without, moved_to};

use crate::waiter::Waiter;
use guest_words::Addr;
use guest_words::limits::THREADS;
use std::mem;

/// Whether the thread waits at the address, with a bit in common.
pub(crate) fn waits_at(w: &Waiter, at: Addr, bits: u32) -> bool
    ensures { result ≡ waits_at at bits w.now }
{
    w.at == at && w.bits & bits != 0
}

/// Moves the first `most` who wait at the address and whose bits meet these from `waiting` to `taken`. `spare` is empty
/// before and after.
pub(crate) fn take_out(
    waiting: &mut Vec<Waiter>,
    at: Addr,
    bits: u32,
    most: u32,
    spare: &mut Vec<Waiter>,
    taken: &mut Vec<Waiter>,
)
    requires once { IsOnce waiting.old.items }
    requires few { vec_len waiting.old ≤ THREADS }
    requires none_spare { spare.old.items ≡ [] }
    requires none_taken { taken.old.items ≡ [] }
    requires room { THREADS ≤ vec_capacity waiting.old }
    requires room_spare { THREADS ≤ vec_capacity spare.old }
    requires room_taken { THREADS ≤ vec_capacity taken.old }
    ensures taken { taken.new.items ≡ woken waiting.old.items at most bits }
    ensures waiting { waiting.new.items ≡ without waiting.old.items
        (woken waiting.old.items at most bits) }
    ensures all { vec_len waiting.new + vec_len taken.new ≡ vec_len waiting.old }
    ensures none_spare { spare.new.items ≡ [] }
    ensures room { THREADS ≤ vec_capacity waiting.new }
    ensures room_spare { THREADS ≤ vec_capacity spare.new }
    ensures room_taken { THREADS ≤ vec_capacity taken.new }
{
    for w in waiting.iter() {
        if (taken.len() as u32) < most && waits_at(w, at, bits) {
            taken.push(*w).unwrap();
        } else {
            spare.push(*w).unwrap();
        }
    }
    mem::swap(waiting, spare);
    spare.clear();
}

/// Adds the taken ones behind all who wait, where they now wait at another address.
pub(crate) fn add_moved(taken: &[Waiter], to: Addr, waiting: &mut Vec<Waiter>)
    requires few { vec_len waiting.old + length taken.now ≤ THREADS }
    requires room { THREADS ≤ vec_capacity waiting.old }
    ensures added { waiting.new.items ≡ waiting.old.items ++ map (moved_to to) taken.now }
    ensures room { THREADS ≤ vec_capacity waiting.new }
{
    for w in taken {
        let moved = Waiter {
            at: to,
            tid: w.tid,
            bits: w.bits,
        };
        waiting.push(moved).unwrap();
    }
}
