//! Paths in the guest's memory, and openat(2).
ghost use Rattle.std.specs.Prelude.{◌≡◌, ◌≤◌, ◌<◌, ◌+◌, ◌-◌, true, IfSome};
ghost use Rattle.std.specs.List.{position};
ghost use Rattle.guest_memory.specs.declared.reservations.Reservations.{Reservations};
ghost use Rattle.guest_memory.specs.Guest.{memory_of};
ghost use Rattle.guest_memory.specs.Memory.{bytes_at};
ghost use Rattle.rv_exec.specs.Accesses.{can_read};
ghost use Rattle.guest_kernel.specs.Inputs.{is_named};
ghost use Rattle.guest_calls.specs.Files.{ends_path, path_end};
ghost use Rattle.guest_calls.specs.Files as specs;
ghost use Rattle.guest_calls.specs.Outcome.{asked, Does};

use crate::caller::Caller;
use guest_kernel::{
    Answer, Descriptor, EACCES, EFAULT, EMFILE, ENAMETOOLONG, ENOENT, State, copy_to, note_read,
};
use guest_memory::{GuestMemory, Size};
use guest_words::Addr;
use trace_model::Events;

// The most bytes of a path with its zero byte.
const PATH_LIMIT: usize = 4096;

// O_ACCMODE, O_CREAT and O_TRUNC: the flags of a file that is written.
const WRITING_FLAGS: u32 = 0x243;

// Whether a byte can be read. No byte at or past 2^32 can.
fn is_readable(memory: &GuestMemory, at: u64) -> bool
    ensures { result ≡ can_read (memory_of memory.now) at 1 }
{
    match u32::try_from(at) {
        Ok(at) => memory.can_read(at, 1),
        Err(_) => false,
    }
}

// Whether a path ends at a byte: it can't be read, or is zero.
fn ends_path(memory: &GuestMemory, at: u64) -> bool
    ensures { result ≡ ends_path (memory_of memory.now) at }
{
    match u32::try_from(at) {
        Ok(at) => !matches!(memory.load(at, Size::One), Ok(byte) if byte != 0),
        Err(_) => true,
    }
}

// The first byte from the path on that can't be read or is zero.
fn path_end(memory: &GuestMemory, path: Addr) -> Option<u64>
    ensures value { result ≡ path_end (memory_of memory.now) path }
    ensures range { IfSome result (λ stop. (path ≤ stop) × (stop < path + 4096)) }
    ensures reach { IfSome result (λ stop. can_read (memory_of memory.now) path (stop - path)
        ≡ true) }
{
    let first = u64::from(path);
    for at in first..first + PATH_LIMIT as u64 {
        if ends_path(memory, at) {
            return Some(at);
        }
    }
    None
}

// The index of the input that bytes of the guest's memory name.
fn input_named(state: &State, memory: &GuestMemory, path: Addr, size: usize) -> Option<usize>
    requires few { size ≤ 4096 }
    requires reach { can_read (memory_of memory.now) path size ≡ true }
    ensures { result ≡ position (is_named
        (bytes_at (memory_of memory.now) path size)) state.now.inputs }
{
    let mut buffer = [0u8; PATH_LIMIT];
    copy_to(memory, path, &mut buffer, size);
    state.input_index(&buffer[..size])
}

/// openat(2)
pub(crate) fn openat(
    state: &mut State,
    memory: &GuestMemory,
    events: &mut Events,
    caller: &Caller,
) -> Answer
    requires room { 1 ≤ events.old.room }
    ensures does { (held : Reservations) → Does
        (specs.openat (asked caller.now state.old memory.now held)) result
        state.new memory.now held events.old events.new }
{
    let path = caller.argument(1);
    let Some(stop) = path_end(memory, path) else {
        return Answer::Back {
            value: ENAMETOOLONG,
        };
    };
    if !is_readable(memory, stop) {
        return Answer::Back { value: EFAULT };
    }
    let size = stop - u64::from(path);
    let Some(input) = input_named(state, memory, path, size as usize) else {
        return Answer::Back { value: ENOENT };
    };
    if caller.argument(2) & WRITING_FLAGS != 0 {
        return Answer::Back { value: EACCES };
    }
    let Some(fd) = state.least_free() else {
        return Answer::Back { value: EMFILE };
    };
    note_read(memory, events, caller.tid, path, size as u32 + 1);
    state.set_descriptor(fd as u32, Descriptor::InputFile { input, position: 0 });
    Answer::Back { value: fd as u32 }
}
