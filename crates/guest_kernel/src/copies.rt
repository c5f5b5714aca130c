//! Copies from and to the guest.
ghost use Rattle.std.specs.Prelude.{◌≡◌, ◌<◌, ◌≤◌, ◌+◌, ◌/◌, ◌^◌, ◌++◌, drop, length, true, None};
ghost use Rattle.std.specs.Int.{w32, to_le_bytes};
ghost use Rattle.guest_memory.specs.Guest.{memory_of};
ghost use Rattle.guest_memory.specs.Memory.{bytes_at, with_bytes};
ghost use Rattle.guest_memory.specs.Reserved.{after_write};
ghost use Rattle.guest_memory.specs.ReservedBy.{reserved_by};
ghost use Rattle.rv_exec.specs.Accesses.{can_read, can_write};
ghost use Rattle.guest_kernel.specs.Copies.{Adds};
ghost use Rattle.guest_kernel.specs.Copies.{fill_event, read_event, words_touched};

use guest_memory::{GuestMemory, Reservations};
use guest_words::{Addr, Tid, words_over};
use trace_model::{Event, Events};

/// The kernel writes bytes, each of which can be written. That drops all reservations on their words.
#[tactic(auto, using(crate::proofs::Reach::writable_end, crate::proofs::Reach::filled_some, crate::proofs::Reach::filled_none, crate::proofs::Reach::untouched, crate::proofs::Room::pushed))]
pub fn fill(
    memory: &mut GuestMemory,
    held: &mut Reservations,
    events: &mut Events,
    at: Addr,
    bytes: &[u8],
)
    requires reach { can_write (memory_of memory.old) at (length bytes.now) ≡ true }
    requires few { length bytes.now < 2 ^ 32 }
    requires room { 1 ≤ events.old.room }
    ensures memory { memory_of memory.new ≡ with_bytes (memory_of memory.old) at bytes.now }
    ensures held { reserved_by held.new ≡ after_write (reserved_by held.old) None (at / 4)
        (words_touched at (length bytes.now)) }
    ensures events { Adds (fill_event at (length bytes.now)) events.old events.new }
{
    memory.copy_in(at, bytes).unwrap();
    if !bytes.is_empty() {
        let (first, count) = words_over(at, bytes.len() as u32);
        held.written(None, first, count);
        events.push(Event::Fill { first, count });
    }
}

/// The kernel writes a word, each byte of which can be written.
pub fn fill_word(
    memory: &mut GuestMemory,
    held: &mut Reservations,
    events: &mut Events,
    at: Addr,
    value: u32,
)
    requires reach { can_write (memory_of memory.old) at 4 ≡ true }
    requires room { 1 ≤ events.old.room }
    ensures memory { memory_of memory.new ≡ with_bytes (memory_of memory.old) at
        (to_le_bytes w32 value) }
    ensures held { reserved_by held.new ≡ after_write (reserved_by held.old) None (at / 4)
        (words_touched at 4) }
    ensures events { Adds (fill_event at 4) events.old events.new }
{
    fill(memory, held, events, at, &value.to_le_bytes());
}

/// The kernel has read `bytes` bytes for the thread, each of which can be read.
#[tactic(auto, using(crate::proofs::Reach::readable_end, crate::proofs::Reach::read_some, crate::proofs::Room::pushed))]
pub fn note_read(memory: &GuestMemory, events: &mut Events, tid: Tid, at: Addr, bytes: u32)
    requires reach { can_read (memory_of memory.now) at bytes ≡ true }
    requires room { 1 ≤ events.old.room }
    ensures events { Adds (read_event tid at bytes) events.old events.new }
{
    if bytes > 0 {
        let (first, count) = words_over(at, bytes);
        events.push(Event::Read { tid, first, count });
    }
}

/// Copies bytes of the guest's memory, each of which can be read, to the front of others.
pub fn copy_to(memory: &GuestMemory, at: Addr, front: &mut [u8], count: usize)
    requires few { count ≤ length front.old }
    requires reach { can_read (memory_of memory.now) at count ≡ true }
    ensures { front.new ≡ bytes_at (memory_of memory.now) at count ++ drop count front.old }
{
    memory.copy_out(at, &mut front[..count]).unwrap();
}
