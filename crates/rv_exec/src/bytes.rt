//! Bytes of memory, as an instruction reads and writes them.
ghost use Rattle.std.specs.Prelude.{◌≡◌, ◌+◌, ◌≤◌, ◌/◌, ◌^◌, IfSome, IfNone, Some, None, true, if◌then◌else◌};
ghost use Rattle.guest_memory.specs.Guest.{memory_of};
ghost use Rattle.guest_memory.specs.Memory.{byte_count, number_at, with_bytes};
ghost use Rattle.guest_memory.specs.Reserved.{after_write};
ghost use Rattle.guest_memory.specs.ReservedBy.{reserved_by};
ghost use Rattle.guest_words.specs.Words.{word_count};
ghost use Rattle.rv_exec.specs.Accesses.{can_read, can_write, low_bytes};

use guest_memory::{GuestMemory, Reservations, Size};
use guest_words::{Addr, Tid, Word, words_over};

/// The words that hold the bytes.
#[inline(always)]
pub fn words(at: Addr, size: Size) -> (Word, u32)
    requires { at + byte_count size ≤ 2 ^ 32 }
    ensures { result ≡ (at / 4, word_count at (byte_count size)) }
{
    words_over(at, size.bytes() as u32)
}

/// The number that the bytes give, the lowest byte first. None where one of them can't be read.
#[inline(always)]
pub fn read(memory: &GuestMemory, at: Addr, size: Size) -> Option<u32>
    ensures value { result ≡ (if can_read (memory_of memory.now) at (byte_count size)
        then Some (number_at (memory_of memory.now) at (byte_count size)) else None) }
    ensures end { IfSome result (λ _. at + byte_count size ≤ 2 ^ 32) }
{
    memory.load(at, size).ok()
}

/// The same, where the bytes lie within one page and can be read. Otherwise None, which says nothing of them.
#[inline(always)]
pub fn read_within(memory: &GuestMemory, at: Addr, size: Size) -> Option<u32>
    ensures readable { IfSome result (λ _. can_read (memory_of memory.now) at (byte_count size) ≡ true) }
    ensures value { IfSome result (λ n. n ≡ number_at (memory_of memory.now) at (byte_count size)) }
    ensures end { IfSome result (λ _. at + byte_count size ≤ 2 ^ 32) }
{
    memory.load_within(at, size)
}

/// Writes the lowest bytes for the thread, and drops the other threads' reservations on their words, which it gives. None
/// where one of the bytes can't be written.
#[inline(always)]
pub fn write(
    memory: &mut GuestMemory,
    held: &mut Reservations,
    tid: Tid,
    at: Addr,
    size: Size,
    n: u32,
) -> Option<(Word, u32)>
    ensures words { result ≡ (if can_write (memory_of memory.old) at (byte_count size)
        then Some (at / 4, word_count at (byte_count size)) else None) }
    ensures memory { IfSome result (λ _. memory_of memory.new
        ≡ with_bytes (memory_of memory.old) at (low_bytes size n)) }
    ensures held { IfSome result (λ _. reserved_by held.new
        ≡ after_write (reserved_by held.old) (Some tid) (at / 4)
        (word_count at (byte_count size))) }
    ensures memory_kept { IfNone result (memory_of memory.new ≡ memory_of memory.old) }
    ensures held_kept { IfNone result (reserved_by held.new ≡ reserved_by held.old) }
    ensures end { IfSome result (λ _. at + byte_count size ≤ 2 ^ 32) }
{
    memory.store(at, size, n).ok()?;
    let (first, count) = words(at, size);
    held.written(Some(tid), first, count);
    Some((first, count))
}
