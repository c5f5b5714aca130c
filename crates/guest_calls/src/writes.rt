//! The system calls that write: write(2) and writev(2).
ghost use Rattle.std.specs.Prelude.{◌≡◌, ◌≤◌, ◌+◌, IfOk, OnErr};
ghost use Rattle.guest_memory.specs.declared.reservations.Reservations.{Reservations};
ghost use Rattle.guest_kernel.specs.Descriptors.{channel};
ghost use Rattle.guest_calls.specs.Files.{write};
ghost use Rattle.guest_kernel.specs.Kernel.{descriptor};
ghost use Rattle.guest_calls.specs.Outcome.{asked, Gives, IsAsBefore};
ghost use Rattle.guest_calls.specs.Vectors.{writev};

use crate::caller::Caller;
use crate::vectors::{TableError, can_read_parts, note_parts, read_table, total, truncated};
use guest_kernel::{Answer, Channel, EBADF, EFAULT, Kernel, WRITE_LIMIT, note_read};
use guest_memory::GuestMemory;
use guest_words::limits::SYSCALL_EVENTS;
use std::alloc::AllocError;
use trace_model::Events;

// The channel of output that a descriptor stands for.
fn channel_of(kernel: &Kernel, fd: u32) -> Option<Channel>
    ensures { result ≡ channel (descriptor kernel.now.state fd) }
{
    kernel.state.descriptor(fd).channel()
}

/// write(2)
pub(crate) fn write(
    kernel: &mut Kernel,
    memory: &GuestMemory,
    events: &mut Events,
    caller: &Caller,
) -> Answer
    requires room { 1 ≤ events.old.room }
    ensures does { (held : Reservations) → Gives
        (write (asked caller.now kernel.old.state memory.now held)) result
        kernel.new memory.now held events.old events.new }
{
    kernel.outgoing.clear();
    let at = caller.argument(1);
    let Some(channel) = channel_of(kernel, caller.argument(0)) else {
        return Answer::Back { value: EBADF };
    };
    let count = caller.argument(2).min(WRITE_LIMIT);
    if !memory.can_read(at, u64::from(count)) {
        return Answer::Back { value: EFAULT };
    }
    note_read(memory, events, caller.tid, at, count);
    kernel.outgoing.put(channel, memory, at, count);
    Answer::Back { value: count }
}

/// writev(2)
pub(crate) fn writev(
    kernel: &mut Kernel,
    memory: &GuestMemory,
    events: &mut Events,
    caller: &Caller,
) -> Result<Answer, AllocError>
    requires room { SYSCALL_EVENTS ≤ events.old.room }
    ensures does { (held : Reservations) → IfOk result
        (λ answer. Gives
        (writev (asked caller.now kernel.old.state memory.now held)) answer
        kernel.new memory.now held events.old events.new) }
    ensures refused { (held : Reservations) → OnErr result
        (IsAsBefore kernel.old kernel.new memory.now memory.now held held events.old events.new) }
{
    let (at, count) = (caller.argument(1), caller.argument(2));
    let Some(channel) = channel_of(kernel, caller.argument(0)) else {
        kernel.outgoing.clear();
        return Ok(Answer::Back { value: EBADF });
    };
    let parts = match read_table(kernel.state.alloc(), memory, at, count) {
        Ok(parts) => parts,
        Err(TableError::Refused { errno }) => {
            kernel.outgoing.clear();
            return Ok(Answer::Back { value: errno });
        }
        Err(TableError::Memory) => return Err(AllocError),
    };
    kernel.outgoing.clear();
    let carried = (total(&parts) as u32).min(WRITE_LIMIT);
    let from = truncated(parts, carried as usize);
    if !can_read_parts(memory, &from) {
        return Ok(Answer::Back { value: EFAULT });
    }
    note_read(memory, events, caller.tid, at, 8 * count);
    note_parts(memory, events, caller.tid, &from);
    kernel.outgoing.put_parts(channel, memory, &from);
    Ok(Answer::Back { value: carried })
}
