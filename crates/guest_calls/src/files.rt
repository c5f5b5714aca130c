//! The system calls on one file: openat(2), close(2), _llseek(2) and read(2).
ghost use Rattle.std.specs.Prelude.{◌≡◌, ◌<◌, ◌≤◌, ◌+◌, ◌*◌, ◌^◌, take, pos, ◌+ℤ◌, unsigned_abs, length, true, false, IfSome, IfNone};
ghost use Rattle.std.specs.List.{position};
ghost use Rattle.std.specs.Int.{w64, cast_signed};
ghost use Rattle.guest_calls.specs.Files.{is_out_of_range, origin};
ghost use Rattle.guest_calls.specs.Files as specs;
ghost use Rattle.guest_kernel.specs.Invariant.{IsSoundDescriptor};
ghost use Rattle.guest_calls.specs.Outcome.{asked, Does, DoesQuietly};

use crate::caller::Caller;
use guest_kernel::{Answer, Descriptor, EBADF, EFAULT, EINVAL, ESPIPE, State, fill};
use guest_memory::{GuestMemory, Reservations};
use trace_model::Events;

/// close(2)
pub(crate) fn close(state: &mut State, caller: &Caller) -> Answer
    ensures { DoesQuietly specs.close caller.now state.old result state.new }
{
    let fd = caller.argument(0);
    if state.descriptor(fd).is_closed() {
        return Answer::Back { value: EBADF };
    }
    state.set_descriptor(fd, Descriptor::Closed);
    Answer::Back { value: 0 }
}

/// read(2)
pub(crate) fn read(
    state: &mut State,
    memory: &mut GuestMemory,
    held: &mut Reservations,
    events: &mut Events,
    caller: &Caller,
) -> Answer
    requires room { 1 ≤ events.old.room }
    ensures does { Does (specs.read
        (asked caller.now state.old memory.old held.old)) result
        state.new memory.new held.new events.old events.new }
{
    let (fd, at) = (caller.argument(0), caller.argument(1));
    let file = state.descriptor(fd);
    if !file.is_source() {
        return Answer::Back { value: EBADF };
    }
    let bytes = first_bytes(state.bytes_left(file), caller.argument(2));
    let count = bytes.len();
    if !memory.can_write(at, count as u64) {
        return Answer::Back { value: EFAULT };
    }
    fill(memory, held, events, at, bytes);
    state.advance(file, fd, count);
    Answer::Back {
        value: count as u32,
    }
}

// What an offset is counted from, by `whence`: the start, the position or the end.
fn origin(state: &State, file: Descriptor, whence: u32) -> u64
    requires { IsSoundDescriptor file }
    ensures value { result ≡ origin state.now file whence }
    ensures within { result < 2 ^ 63 }
{
    match (file, whence) {
        (Descriptor::InputFile { position, .. }, 1) => position,
        (Descriptor::InputFile { input, .. }, 2) => state.input_bytes(input).len() as u64,
        _ => 0,
    }
}

// The new position in a file; None where it is out of range.
fn target(state: &State, file: Descriptor, offset: i64, whence: u32) -> Option<u64>
    requires within { IsSoundDescriptor file }
    ensures some { IfSome result (λ position. position
        ≡ unsigned_abs (pos (origin state.now file whence) +ℤ offset)) }
    ensures in_range { IfSome result (λ _. is_out_of_range
        (pos (origin state.now file whence) +ℤ offset) ≡ false) }
    ensures within { IfSome result (λ position. position < 2 ^ 63) }
    ensures none { IfNone result (is_out_of_range (pos (origin state.now file whence) +ℤ offset)
        ≡ true) }
{
    checked_seek(origin(state, file, whence), offset)
}

/// _llseek(2)
pub(crate) fn llseek(
    state: &mut State,
    memory: &mut GuestMemory,
    held: &mut Reservations,
    events: &mut Events,
    caller: &Caller,
) -> Answer
    requires room { 1 ≤ events.old.room }
    ensures does { Does (specs.llseek
        (asked caller.now state.old memory.old held.old)) result
        state.new memory.new held.new events.old events.new }
{
    let (fd, result_at, whence) = (caller.argument(0), caller.argument(3), caller.argument(4));
    let file = state.descriptor(fd);
    if file.is_closed() {
        return Answer::Back { value: EBADF };
    }
    if !file.is_input_file() {
        return Answer::Back { value: ESPIPE };
    }
    if whence > 2 {
        return Answer::Back { value: EINVAL };
    }
    let offset = offset_of(caller.argument(1), caller.argument(2));
    let Some(position) = target(state, file, offset, whence) else {
        return Answer::Back { value: EINVAL };
    };
    if !memory.can_write(result_at, 8) {
        return Answer::Back { value: EFAULT };
    }
    state.set_descriptor(fd, file.with_position(position));
    fill(memory, held, events, result_at, &position.to_le_bytes());
    Answer::Back { value: 0 }
}

// The signed number of two words.
fn offset_of(high: u32, low: u32) -> i64
    ensures { result ≡ cast_signed w64 (high * 2 ^ 32 + low) }
{
    (u64::from(high) * 0x1_0000_0000 + u64::from(low)).cast_signed()
}

// A position and an offset from it. None where that is below 0 or no signed number.
fn checked_seek(origin: u64, offset: i64) -> Option<u64>
    requires { origin < 2 ^ 63 }
    ensures some { IfSome result (λ position. position ≡ unsigned_abs (pos origin +ℤ offset)) }
    ensures in_range { IfSome result (λ _. is_out_of_range (pos origin +ℤ offset) ≡ false) }
    ensures within { IfSome result (λ position. position < 2 ^ 63) }
    ensures none { IfNone result (is_out_of_range (pos origin +ℤ offset) ≡ true) }
{
    let target = origin.cast_signed().checked_add(offset)?;
    u64::try_from(target).ok()
}

/// The first `most` bytes, or all if there are fewer.
pub(crate) fn first_bytes(bytes: &[u8], most: u32) -> &[u8]
    ensures value { result.now ≡ take most bytes.now }
    ensures few { length result.now ≤ most }
    ensures fewer { length result.now ≤ length bytes.now }
{
    &bytes[..bytes.len().min(most as usize)]
}
