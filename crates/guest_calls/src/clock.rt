//! The clock: clock_gettime(2) and clock_nanosleep(2).
ghost use Rattle.std.specs.Prelude.{◌≡◌, ◌≤◌, ◌+◌, nat_le, true, if◌then◌else◌};
ghost use Rattle.guest_memory.specs.declared.reservations.Reservations.{Reservations};
ghost use Rattle.guest_memory.specs.Guest.{memory_of};
ghost use Rattle.rv_exec.specs.Accesses.{can_read};
ghost use Rattle.virtual_clock.specs.Once.{has};
ghost use Rattle.guest_kernel.specs.Waits.{with_deadline};
ghost use Rattle.guest_calls.specs.Clock.{from_now, is_clock, sleep_end, time_at, time_bytes, time_of};
ghost use Rattle.guest_kernel.specs.Kernel.{can_run};
ghost use Rattle.guest_kernel.specs.declared.answer.Answer.TheVariants.{Back, Block};
ghost use Rattle.guest_calls.specs.Clock as specs;
ghost use Rattle.guest_calls.specs.Outcome.{asked, Does};

use crate::caller::Caller;
use crate::vectors::word_at;
use guest_kernel::{Answer, EFAULT, EINVAL, State, fill, note_read};
use guest_memory::{GuestMemory, Reservations};
use guest_words::{Addr, Tid};
use trace_model::Events;

// CLOCK_MONOTONIC, the last clock there is; the other is CLOCK_REALTIME 0.
const CLOCK_MONOTONIC: u32 = 1;

const SECOND: u64 = 1_000_000_000;

/// A time has this many bytes: the seconds, the nanoseconds, and padding.
pub(crate) const TIME_SIZE: usize = 16;

// The greatest signed number of 64 bits. No time and no deadline is later.
const LATEST: u64 = i64::MAX as u64;

// TIMER_ABSTIME: the time is no time from now on.
const TIMER_ABSTIME: u32 = 1;

// Whether there is such a clock.
fn is_clock(clock: u32) -> bool
    ensures { result ≡ is_clock clock }
{
    clock <= CLOCK_MONOTONIC
}

// A time, in nanoseconds, as it is written.
fn time_bytes(time: u64) -> [u8; TIME_SIZE]
    ensures { result ≡ time_bytes time }
{
    let seconds = (time / SECOND).to_le_bytes();
    let rest = ((time % SECOND) as u32).to_le_bytes();
    let mut bytes = [0; TIME_SIZE];
    bytes[..8].copy_from_slice(&seconds);
    bytes[8..12].copy_from_slice(&rest);
    bytes
}

/// The time at an address, each byte of which can be read, in nanoseconds. None where one of its numbers is negative, or the
/// nanoseconds are a second or more.
pub(crate) fn time_at(memory: &GuestMemory, at: Addr) -> Option<u64>
    requires reach { can_read (memory_of memory.now) at 16 ≡ true }
    ensures { result ≡ time_at (memory_of memory.now) at }
{
    let low = u64::from(word_at(memory, at));
    let high = u64::from(word_at(memory, at + 4));
    time_of(low + (high << 32), word_at(memory, at + 8))
}

// The time in nanoseconds; seconds and nanoseconds are each the bits of a signed number.
fn time_of(seconds: u64, nanoseconds: u32) -> Option<u64>
    ensures { result ≡ time_of seconds nanoseconds }
{
    let rest = u64::from(nanoseconds);
    if seconds > LATEST || rest >= SECOND {
        return None;
    }
    Some(
        seconds
            .saturating_mul(SECOND)
            .saturating_add(rest)
            .min(LATEST),
    )
}

/// clock_gettime(2)
pub(crate) fn clock_gettime(
    state: &State,
    memory: &mut GuestMemory,
    held: &mut Reservations,
    events: &mut Events,
    caller: &Caller,
) -> Answer
    requires room { 1 ≤ events.old.room }
    ensures does { Does (specs.clock_gettime
        (asked caller.now state.now memory.old held.old)) result
        state.now memory.new held.new events.old events.new }
{
    if !is_clock(caller.argument(0)) {
        return Answer::Back { value: EINVAL };
    }
    let at = caller.argument(1);
    if !memory.can_write(at, TIME_SIZE as u64) {
        return Answer::Back { value: EFAULT };
    }
    fill(memory, held, events, at, &time_bytes(state.time()));
    Answer::Back { value: 0 }
}

/// So long after now.
pub(crate) fn from_now(state: &State, time: u64) -> u64
    ensures { result ≡ from_now state.now.time time }
{
    state.time().saturating_add(time).min(LATEST)
}

// When a sleep of so long is over, or until then.
fn sleep_end(state: &State, flags: u32, time: u64) -> u64
    ensures { result ≡ sleep_end flags state.now.time time }
{
    if flags & TIMER_ABSTIME != 0 {
        time
    } else {
        from_now(state, time)
    }
}

// The thread sleeps until then, where that is ahead.
fn sleep_until(state: &mut State, tid: Tid, end: u64) -> Answer
    requires can_run { can_run state.old tid ≡ true }
    ensures answer { result ≡ (if nat_le end state.old.time then Back 0 else Block) }
    ensures after { state.new ≡ (if nat_le end state.old.time then state.old
        else with_deadline tid end 0 state.old) }
{
    if end <= state.time() {
        return Answer::Back { value: 0 };
    }
    state.set_deadline(tid, end, 0);
    Answer::Block
}

/// clock_nanosleep(2)
pub(crate) fn clock_nanosleep(
    state: &mut State,
    memory: &GuestMemory,
    events: &mut Events,
    caller: &Caller,
) -> Answer
    requires can_run { can_run state.old caller.now.tid ≡ true }
    requires room { 1 ≤ events.old.room }
    ensures does { (held : Reservations) → Does
        (specs.clock_nanosleep
        (asked caller.now state.old memory.now held)) result
        state.new memory.now held events.old events.new }
{
    if !is_clock(caller.argument(0)) {
        return Answer::Back { value: EINVAL };
    }
    let at = caller.argument(2);
    if !memory.can_read(at, TIME_SIZE as u64) {
        return Answer::Back { value: EFAULT };
    }
    let Some(time) = time_at(memory, at) else {
        return Answer::Back { value: EINVAL };
    };
    note_read(memory, events, caller.tid, at, TIME_SIZE as u32);
    let end = sleep_end(state, caller.argument(1), time);
    sleep_until(state, caller.tid, end)
}
