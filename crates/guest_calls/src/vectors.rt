//! The system calls on files in parts: readv(2) and writev(2).
ghost use Rattle.std.specs.Prelude.{◌≡◌, ◌≤◌, ◌<◌, ◌+◌, ◌*◌, ◌^◌, ◌++◌, length, vec_len, true, None, IfOk, IfErr, OnErr};
ghost use Rattle.guest_memory.specs.Guest.{memory_of};
ghost use Rattle.guest_memory.specs.Memory.{number_at};
ghost use Rattle.rv_exec.specs.Accesses.{can_read, can_write};
ghost use Rattle.guest_kernel.specs.Copies.{Adds, KeepsRoom};
ghost use Rattle.guest_calls.specs.Outcome.{asked, guest_of, Does, IsUntouched};
ghost use Rattle.guest_calls.specs.Results.{first_answer};
ghost use Rattle.guest_calls.specs.Private.IoVecRefusal.{IsRefusal};
ghost use Rattle.guest_kernel.specs.Parts.{total, all_in_reach};
ghost use Rattle.guest_calls.specs.Vectors.{part_at, parts_at, table_tests, carried, filled_parts, read_events};
ghost use Rattle.guest_calls.specs.Vectors as specs;

use crate::caller::Caller;
use crate::files::first_bytes;
use guest_kernel::{Answer, EBADF, EFAULT, EINVAL, IoVec, State, fill, note_read};
use guest_memory::{GuestMemory, Reservations, Size};
use guest_words::limits::SYSCALL_EVENTS;
use guest_words::{Addr, Tid};
use std::alloc::{AllocError, Global};
use trace_model::Events;

// The most parts of one system call.
const PART_LIMIT: u32 = 1024;

// The most bytes that the parts of one system call have.
const SUM_LIMIT: u64 = 0x7FFF_FFFF;

/// The word at an address, each byte of which can be read.
pub(crate) fn word_at(memory: &GuestMemory, at: Addr) -> u32
    requires { can_read (memory_of memory.now) at 4 ≡ true }
    ensures { result ≡ number_at (memory_of memory.now) at 4 }
{
    memory.load(at, Size::Four).unwrap_or(0)
}

// The part at an address: an address and a length.
#[tactic(auto, using(guest_kernel::proofs::Reach::reads_within))]
fn part_at(memory: &GuestMemory, at: Addr) -> IoVec
    requires reach { can_read (memory_of memory.now) at 8 ≡ true }
    requires end { at + 8 ≤ 2 ^ 32 }
    ensures { result ≡ part_at (memory_of memory.now) at }
{
    IoVec {
        at: word_at(memory, at),
        size: word_at(memory, at + 4),
    }
}

/// `count` parts, from an address on.
pub(crate) fn parts_at(
    alloc: Global,
    memory: &GuestMemory,
    at: Addr,
    count: u32,
) -> Result<Vec<IoVec>, AllocError>
    requires few { count ≤ 1024 }
    requires reach { can_read (memory_of memory.now) at (8 * count) ≡ true }
    ensures parts { IfOk result (λ parts. parts.items ≡ parts_at (memory_of memory.now) at count) }
    ensures count { IfOk result (λ parts. vec_len parts ≡ count) }
{
    let mut parts = Vec::with_capacity(alloc, count as usize)?;
    for i in 0..count {
        parts.push(part_at(memory, at + 8 * i))?;
    }
    Ok(parts)
}

/// The sum of the lengths.
pub(crate) fn total(parts: &[IoVec]) -> u64
    requires { length parts.now ≤ 1024 }
    ensures { result ≡ total parts.now }
{
    let mut sum = 0;
    for p in parts {
        sum += u64::from(p.size);
    }
    sum
}

// Cuts the parts to their first bytes.
fn truncate_parts(parts: &mut [IoVec], most: usize)
    ensures { parts.new ≡ carried most parts.old }
{
    let mut left = most;
    for p in parts.iter_mut() {
        let size = left.min(p.size as usize);
        p.size = size as u32;
        left -= size;
    }
}

/// The parts, cut to their first bytes.
pub(crate) fn truncated(parts: Vec<IoVec>, most: usize) -> Vec<IoVec>
    ensures cut { result.items ≡ carried most parts.items }
    ensures few { total result.items ≤ most }
    ensures count { vec_len result ≡ vec_len parts }
{
    let mut parts = parts;
    truncate_parts(&mut parts, most);
    parts
}

/// Whether each byte of the parts can be read.
pub(crate) fn can_read_parts(memory: &GuestMemory, parts: &[IoVec]) -> bool
    ensures { result ≡ all_in_reach (can_read (memory_of memory.now)) parts.now }
{
    parts
        .iter()
        .all(|p| memory.can_read(p.at, u64::from(p.size)))
}

/// Whether each byte of the parts can be written.
pub(crate) fn can_write_parts(memory: &GuestMemory, parts: &[IoVec]) -> bool
    ensures { result ≡ all_in_reach (can_write (memory_of memory.now)) parts.now }
{
    parts
        .iter()
        .all(|p| memory.can_write(p.at, u64::from(p.size)))
}

/// Why a table of parts is refused.
#[derive(Debug, Drop)]
pub(crate) enum TableError {
    /// A test refused it, with this answer.
    Refused { errno: u32 },
    Memory,
}

impl From<AllocError> for TableError {
    ghost use Rattle.guest_calls.specs.declared.vectors.TableError.TheVariants.{Memory};

    ghost from_gives = { λ _ e. e ≡ Memory };

    fn from(_: AllocError) -> Self {
        TableError::Memory
    }
}

/// The table of parts at an address.
pub(crate) fn read_table(
    alloc: Global,
    memory: &GuestMemory,
    at: Addr,
    count: u32,
) -> Result<Vec<IoVec>, TableError>
    ensures ok { IfOk result (λ parts. parts.items ≡ parts_at (memory_of memory.now) at count) }
    ensures few { IfOk result (λ parts. vec_len parts ≤ 1024) }
    ensures reach { IfOk result (λ _. can_read (memory_of memory.now) at (8 * count) ≡ true) }
    ensures short { IfOk result (λ parts. total parts.items < 2 ^ 31) }
    ensures passed { IfOk result (λ _. first_answer (table_tests (memory_of memory.now) at count)
        ≡ None) }
    ensures refused { IfErr result (IsRefusal (first_answer
        (table_tests (memory_of memory.now) at count))) }
{
    if count > PART_LIMIT {
        return Err(TableError::Refused { errno: EINVAL });
    }
    if !memory.can_read(at, 8 * u64::from(count)) {
        return Err(TableError::Refused { errno: EFAULT });
    }
    let parts = parts_at(alloc, memory, at, count)?;
    if total(&parts) > SUM_LIMIT {
        return Err(TableError::Refused { errno: EINVAL });
    }
    Ok(parts)
}

// Copies the bytes to the parts, one part after another.
fn fill_parts(
    memory: &mut GuestMemory,
    held: &mut Reservations,
    events: &mut Events,
    parts: &[IoVec],
    bytes: &[u8],
)
    requires reach { all_in_reach (can_write (memory_of memory.old)) parts.now ≡ true }
    requires all { total parts.now ≤ length bytes.now }
    requires room { length parts.now ≤ events.old.room }
    ensures filled { guest_of memory.new held.new events.new
        ≡ filled_parts parts.now bytes.now (guest_of memory.old held.old events.old) }
    ensures room { KeepsRoom events.old events.new }
{
    let mut rest = bytes;
    for p in parts {
        let (bytes, later) = rest.split_at(p.size as usize);
        fill(memory, held, events, p.at, bytes);
        rest = later;
    }
}

/// The kernel has read the parts for the thread.
#[tactic(auto, using(guest_kernel::proofs::Room::room_read))]
pub(crate) fn note_parts(memory: &GuestMemory, events: &mut Events, tid: Tid, parts: &[IoVec])
    requires reach { all_in_reach (can_read (memory_of memory.now)) parts.now ≡ true }
    requires room { length parts.now ≤ events.old.room }
    ensures events { Adds (read_events tid parts.now) events.old events.new }
{
    for p in parts {
        note_read(memory, events, tid, p.at, p.size);
    }
}

/// readv(2)
pub(crate) fn readv(
    state: &mut State,
    memory: &mut GuestMemory,
    held: &mut Reservations,
    events: &mut Events,
    caller: &Caller,
) -> Result<Answer, AllocError>
    requires room { SYSCALL_EVENTS ≤ events.old.room }
    ensures does { IfOk result (λ answer. Does
        (specs.readv (asked caller.now state.old memory.old held.old)) answer
        state.new memory.new held.new events.old events.new) }
    ensures refused { OnErr result (IsUntouched state.old state.new
        memory.old memory.new held.old held.new events.old events.new) }
{
    let (fd, at, count) = (caller.argument(0), caller.argument(1), caller.argument(2));
    let file = state.descriptor(fd);
    if !file.is_source() {
        return Ok(Answer::Back { value: EBADF });
    }
    let parts = match read_table(state.alloc(), memory, at, count) {
        Ok(parts) => parts,
        Err(TableError::Refused { errno }) => return Ok(Answer::Back { value: errno }),
        Err(TableError::Memory) => return Err(AllocError),
    };
    let bytes = first_bytes(state.bytes_left(file), total(&parts) as u32);
    let carried = bytes.len();
    let into = truncated(parts, carried);
    if !can_write_parts(memory, &into) {
        return Ok(Answer::Back { value: EFAULT });
    }
    note_read(memory, events, caller.tid, at, 8 * count);
    fill_parts(memory, held, events, &into, bytes);
    state.advance(file, fd, carried);
    Ok(Answer::Back {
        value: carried as u32,
    })
}
