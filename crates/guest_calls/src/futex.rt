//! Waiting at a word and waking: futex(2).
ghost use Rattle.std.specs.Prelude.{◌≡◌, ◌≢◌, ◌≤◌, ◌==◌, ◌++◌, ◌+◌, ◌%◌, ◌&&◌, [], not, slice_index, true, false, is_none, is_some, IfNone, if◌then◌else◌};
ghost use Rattle.futex_table.specs.Waiting.{woken};
ghost use Rattle.virtual_clock.specs.Once.{has};
ghost use Rattle.guest_memory.specs.declared.reservations.Reservations.{Reservations};
ghost use Rattle.guest_memory.specs.Guest.{memory_of};
ghost use Rattle.guest_memory.specs.Memory.{number_at};
ghost use Rattle.guest_kernel.specs.declared.answer.Answer.TheVariants.{Back, Block};
ghost use Rattle.guest_calls.specs.declared.operation.Operation.TheVariants.{Requeue, CmpRequeue};
ghost use Rattle.rv_exec.specs.Accesses.{can_read};
ghost use Rattle.guest_kernel.specs.Waits.{with_waiter};
ghost use Rattle.guest_calls.specs.Futex.{futex_tests, has_bitset, is_over, is_requeue, is_wait, limit_end, performed, reads_word, wait_end, waited, wakes_with, with_end};
ghost use Rattle.guest_calls.specs.Clock.{time_at};
ghost use Rattle.guest_kernel.specs.Errors.{etimedout};
ghost use Rattle.guest_calls.specs.Futex as specs;
ghost use Rattle.guest_kernel.specs.Kernel.{KernelState, can_run, lives};
ghost use Rattle.guest_kernel.specs.Copies.{Adds};
ghost use Rattle.guest_calls.specs.Outcome.{asked, Does, DoesQuietly};
ghost use Rattle.guest_kernel.specs.Copies.{read_event};
ghost use Rattle.guest_calls.specs.Results.{first_answer};
ghost use Rattle.guest_calls.specs.Results as results;

use crate::caller::Caller;
use crate::clock::{TIME_SIZE, from_now, time_at};
use crate::operation::Operation;
use crate::vectors::word_at;
use guest_kernel::{Answer, EAGAIN, EFAULT, EINVAL, ENOSYS, ETIMEDOUT, State, note_read};
use guest_memory::GuestMemory;
use guest_words::{Addr, Tid};
use trace_model::Events;

// A wait's time is by the realtime clock.
const FUTEX_CLOCK_REALTIME: u32 = 256;

// The bits of an operation's number: all but FUTEX_PRIVATE_FLAG and FUTEX_CLOCK_REALTIME.
const NUMBER_BITS: u32 = u32::MAX - 128 - FUTEX_CLOCK_REALTIME;

// The bits of a wait or a wake that names none.
const ALL_BITS: u32 = u32::MAX;

// Whether it is a wait with a limit.
fn has_limit(operation: Operation, caller: &Caller) -> bool
    ensures { result ≡ (is_wait operation && not (slice_index caller.now.cpu.regs 13 == 0)) }
{
    operation.is_wait() && caller.argument(3) != 0
}

// Whether it is a wait whose limit can't be read.
fn is_limit_denied(memory: &GuestMemory, caller: &Caller, operation: Operation) -> bool
    ensures { result ≡ ((is_wait operation && not (slice_index caller.now.cpu.regs 13 == 0))
        && not (can_read (memory_of memory.now) (slice_index caller.now.cpu.regs 13) 16)) }
{
    has_limit(operation, caller) && !memory.can_read(caller.argument(3), TIME_SIZE as u64)
}

// Whether it is a wait whose limit, which can be read, is a bad time.
fn is_limit_bad(memory: &GuestMemory, caller: &Caller, operation: Operation) -> bool
    requires { ((is_wait operation && not (slice_index caller.now.cpu.regs 13 == 0))
        && not (can_read (memory_of memory.now) (slice_index caller.now.cpu.regs 13) 16)) ≡ false }
    ensures { result ≡ ((is_wait operation && not (slice_index caller.now.cpu.regs 13 == 0))
        && is_none (time_at (memory_of memory.now) (slice_index caller.now.cpu.regs 13))) }
{
    has_limit(operation, caller) && time_at(memory, caller.argument(3)).is_none()
}

// Whether the realtime clock is asked for, and it is no wait.
fn is_clock_unfit(caller: &Caller, operation: Operation) -> bool
    ensures { result ≡ (results.has (slice_index caller.now.cpu.regs 11) 256 && not (is_wait operation)) }
{
    caller.argument(1) & FUTEX_CLOCK_REALTIME != 0 && !operation.is_wait()
}

// Whether the place to move to is no multiple of 4.
fn is_target_unaligned(caller: &Caller, operation: Operation) -> bool
    ensures { result ≡ (is_requeue operation
        && not (slice_index caller.now.cpu.regs 14 % 4 == 0)) }
{
    operation.is_requeue() && caller.argument(4) % 4 != 0
}

// Whether there are bits to meet, and these are none.
fn is_bitset_empty(caller: &Caller, operation: Operation) -> bool
    ensures { result ≡ (has_bitset operation && slice_index caller.now.cpu.regs 15 == 0) }
{
    operation.has_bitset() && caller.argument(5) == 0
}

// Whether the word is looked at and can't be read.
fn is_word_denied(memory: &GuestMemory, caller: &Caller, operation: Operation) -> bool
    ensures { result ≡ (reads_word operation
        && not (can_read (memory_of memory.now) (slice_index caller.now.cpu.regs 10) 4)) }
{
    operation.reads_word() && !memory.can_read(caller.argument(0), 4)
}

// The answer of the first test that holds.
#[tactic(auto, using(crate::proofs::Waits::limit_in_reach))]
fn refusal(memory: &GuestMemory, caller: &Caller, operation: Operation) -> Option<u32>
    ensures value { (state : KernelState) (held : Reservations)
        → result ≡ first_answer (futex_tests operation (asked caller.now state memory.now held)) }
    ensures reach { IfNone result (reads_word operation ≡ true
        → can_read (memory_of memory.now) (slice_index caller.now.cpu.regs 10) 4 ≡ true) }
    ensures bits { IfNone result (has_bitset operation ≡ true
        → slice_index caller.now.cpu.regs 15 ≢ 0) }
    ensures limit { IfNone result (is_wait operation ≡ true → slice_index caller.now.cpu.regs 13 ≢ 0
        → can_read (memory_of memory.now) (slice_index caller.now.cpu.regs 13) 16 ≡ true) }
{
    if is_clock_unfit(caller, operation) {
        return Some(ENOSYS);
    }
    if caller.argument(0) % 4 != 0 {
        return Some(EINVAL);
    }
    if is_target_unaligned(caller, operation) {
        return Some(EINVAL);
    }
    if is_bitset_empty(caller, operation) {
        return Some(EINVAL);
    }
    if is_limit_denied(memory, caller, operation) {
        return Some(EFAULT);
    }
    if is_limit_bad(memory, caller, operation) {
        return Some(EINVAL);
    }
    if is_word_denied(memory, caller, operation) {
        return Some(EFAULT);
    }
    None
}

// Whether the word is the value. It is read, and the read is an event.
fn compare(memory: &GuestMemory, events: &mut Events, caller: &Caller, value: u32) -> bool
    requires reach { can_read (memory_of memory.now) (slice_index caller.now.cpu.regs 10) 4 ≡ true }
    requires room { 1 ≤ events.old.room }
    ensures same { result ≡ (number_at (memory_of memory.now)
        (slice_index caller.now.cpu.regs 10) 4 == value) }
    ensures events { Adds (read_event caller.now.tid (slice_index caller.now.cpu.regs 10) 4)
        events.old events.new }
{
    let at = caller.argument(0);
    note_read(memory, events, caller.tid, at, 4);
    word_at(memory, at) == value
}

// The limit of a wait is read, where it has one, and the read is an event.
fn note_limit(memory: &GuestMemory, events: &mut Events, caller: &Caller, end: Option<u64>)
    requires reach { is_some end ≡ true → can_read (memory_of memory.now)
        (slice_index caller.now.cpu.regs 13) 16 ≡ true }
    requires room { 1 ≤ events.old.room }
    ensures events { Adds
        (if is_some end then read_event caller.now.tid (slice_index caller.now.cpu.regs 13) 16
        else []) events.old events.new }
{
    if end.is_some() {
        let limit = caller.argument(3);
        note_read(memory, events, caller.tid, limit, TIME_SIZE as u32);
    }
}

// When a wait with a limit is over.
fn limit_end(state: &State, operation: Operation, time: u64) -> u64
    ensures { result ≡ limit_end operation state.now.time time }
{
    match operation {
        Operation::WaitBitset => time,
        _ => from_now(state, time),
    }
}

// When a wait is over, where it has a limit.
fn wait_end(
    state: &State,
    memory: &GuestMemory,
    caller: &Caller,
    operation: Operation,
) -> Option<u64>
    requires reach { slice_index caller.now.cpu.regs 13 ≢ 0
        → can_read (memory_of memory.now) (slice_index caller.now.cpu.regs 13) 16 ≡ true }
    ensures value { (held : Reservations) → result
        ≡ wait_end operation (asked caller.now state.now memory.now held) }
    ensures reach { is_some result ≡ true → can_read (memory_of memory.now)
        (slice_index caller.now.cpu.regs 13) 16 ≡ true }
{
    let limit = caller.argument(3);
    if limit == 0 {
        return None;
    }
    let time = time_at(memory, limit).unwrap_or(0);
    Some(limit_end(state, operation, time))
}

// Whether the time has come.
fn is_over(state: &State, end: Option<u64>) -> bool
    ensures { result ≡ is_over end state.now.time }
{
    match end {
        Some(end) => end <= state.time(),
        None => false,
    }
}

// The thread, which has no deadline, has the end of its wait as one, where there is one.
fn set_end(state: &mut State, tid: Tid, end: Option<u64>)
    requires lives { lives state.old tid ≡ true }
    requires none { has state.old.deadlines tid ≡ false }
    ensures { state.new ≡ with_end tid end state.old }
{
    if let Some(end) = end {
        state.set_deadline(tid, end, ETIMEDOUT);
    }
}

// The thread begins to wait until the end, where that is ahead.
fn wait_until(state: &mut State, at: Addr, tid: Tid, bits: u32, end: Option<u64>) -> Answer
    requires can_run { can_run state.old tid ≡ true }
    requires bits { bits ≢ 0 }
    ensures answer { result ≡ (if is_over end state.old.time then Back etimedout else Block) }
    ensures after { state.new ≡ (if is_over end state.old.time then state.old
        else with_end tid end (with_waiter at tid bits state.old)) }
{
    if is_over(state, end) {
        return Answer::Back { value: ETIMEDOUT };
    }
    state.begin_to_wait(at, tid, bits);
    set_end(state, tid, end);
    Answer::Block
}

// FUTEX_WAIT and FUTEX_WAIT_BITSET: the thread waits where the word is the value and its end is ahead.
fn futex_wait(
    state: &mut State,
    memory: &GuestMemory,
    events: &mut Events,
    caller: &Caller,
    operation: Operation,
    bits: u32,
) -> Answer
    requires can_run { can_run state.old caller.now.tid ≡ true }
    requires reach { can_read (memory_of memory.now) (slice_index caller.now.cpu.regs 10) 4
        ≡ true }
    requires limit { slice_index caller.now.cpu.regs 13 ≢ 0
        → can_read (memory_of memory.now) (slice_index caller.now.cpu.regs 13) 16 ≡ true }
    requires bits { bits ≢ 0 }
    requires room { 2 ≤ events.old.room }
    ensures does { (held : Reservations)
        → let c = asked caller.now state.old memory.now held in Does
        (waited c bits (wait_end operation c)) result
        state.new memory.now held events.old events.new }
{
    let end = wait_end(state, memory, caller, operation);
    note_limit(memory, events, caller, end);
    if !compare(memory, events, caller, caller.argument(2)) {
        return Answer::Back { value: EAGAIN };
    }
    wait_until(state, caller.argument(0), caller.tid, bits, end)
}

// FUTEX_WAKE and FUTEX_WAKE_BITSET
fn futex_wake(state: &mut State, caller: &Caller, bits: u32) -> Answer
    ensures { DoesQuietly (wakes_with bits) caller.now state.old result state.new }
{
    let count = state.wake(caller.argument(0), caller.argument(2), bits);
    Answer::Back { value: count }
}

// FUTEX_REQUEUE
fn futex_requeue(state: &mut State, caller: &Caller) -> Answer
    ensures { DoesQuietly (performed Requeue) caller.now state.old result state.new }
{
    let (at, most, shift, to) = (
        caller.argument(0),
        caller.argument(2),
        caller.argument(3),
        caller.argument(4),
    );
    let (woken, _) = state.requeue(at, most, shift, to);
    Answer::Back { value: woken }
}

// FUTEX_CMP_REQUEUE
fn futex_cmp_requeue(
    state: &mut State,
    memory: &GuestMemory,
    events: &mut Events,
    caller: &Caller,
) -> Answer
    requires reach { can_read (memory_of memory.now) (slice_index caller.now.cpu.regs 10) 4
        ≡ true }
    requires room { 1 ≤ events.old.room }
    ensures does { (held : Reservations)
        → let c = asked caller.now state.old memory.now held in Does
        (performed CmpRequeue c) result state.new memory.now held events.old events.new }
{
    if !compare(memory, events, caller, caller.argument(5)) {
        return Answer::Back { value: EAGAIN };
    }
    let (at, most, shift, to) = (
        caller.argument(0),
        caller.argument(2),
        caller.argument(3),
        caller.argument(4),
    );
    let (woken, moved) = state.requeue(at, most, shift, to);
    Answer::Back {
        value: woken + moved,
    }
}

/// futex(2)
pub(crate) fn futex(
    state: &mut State,
    memory: &GuestMemory,
    events: &mut Events,
    caller: &Caller,
) -> Answer
    requires can_run { can_run state.old caller.now.tid ≡ true }
    requires room { 2 ≤ events.old.room }
    ensures does { (held : Reservations) → Does
        (specs.futex (asked caller.now state.old memory.now held)) result
        state.new memory.now held events.old events.new }
{
    let Some(operation) = Operation::numbered(caller.argument(1) & NUMBER_BITS) else {
        return Answer::Back { value: ENOSYS };
    };
    if let Some(errno) = refusal(memory, caller, operation) {
        return Answer::Back { value: errno };
    }
    match operation {
        Operation::Wait => { futex_wait(state, memory, events, caller, Operation::Wait, ALL_BITS) }
        Operation::WaitBitset => {
            let bits = caller.argument(5);
            futex_wait(state, memory, events, caller, Operation::WaitBitset, bits)
        }
        Operation::Wake => futex_wake(state, caller, ALL_BITS),
        Operation::WakeBitset => futex_wake(state, caller, caller.argument(5)),
        Operation::Requeue => futex_requeue(state, caller),
        Operation::CmpRequeue => futex_cmp_requeue(state, memory, events, caller),
    }
}
