//! A new thread: clone(2).
ghost use Rattle.std.specs.Prelude.{◌≡◌, ◌≤◌, ◌+◌, true};
ghost use Rattle.guest_memory.specs.Guest.{memory_of};
ghost use Rattle.guest_calls.specs.Clone.{are_flags_taken, child_clear_tid, child_registers, is_denied};
ghost use Rattle.guest_calls.specs.Clone as specs;
ghost use Rattle.guest_kernel.specs.Copies.{KeepsRoom};
ghost use Rattle.guest_calls.specs.Outcome.{asked, guest_of, Does};
ghost use Rattle.guest_calls.specs.Results.{filled_where, has};
ghost use Rattle.rv_exec.specs.Accesses.{can_write};

use crate::caller::Caller;
use guest_kernel::{Answer, EAGAIN, EFAULT, ENOSYS, State, fill_word};
use guest_memory::{GuestMemory, Reservations};
use guest_words::Addr;
use rv_exec::Cpu;
use trace_model::Events;

// CLONE_VM, CLONE_SIGHAND and CLONE_THREAD: a thread of the same process.
const NEEDED_FLAGS: u32 = 0x1_0900;

// All flags that are taken, and the low eight bits, which are not looked at.
const KNOWN_FLAGS: u32 = 0x17D_0FFF;

// The new thread gets a thread pointer.
const CLONE_SETTLS: u32 = 0x8_0000;

// The new thread's number is written where the caller asks for it.
const CLONE_PARENT_SETTID: u32 = 0x10_0000;

// A zero is written when the new thread ends.
const CLONE_CHILD_CLEARTID: u32 = 0x20_0000;

// The new thread's number is written where the new thread looks for it.
const CLONE_CHILD_SETTID: u32 = 0x100_0000;

// Whether any of the bits is set.
fn has(flags: u32, bits: u32) -> bool
    ensures { result ≡ has flags bits }
{
    flags & bits != 0
}

// The registers of a new thread, which goes on after its caller's system call.
fn child_cpu(cpu: &Cpu, flags: u32, stack: u32, tls: u32) -> Cpu
    ensures { result ≡ child_registers cpu.now flags stack tls }
{
    let mut child = *cpu;
    child.regs[10] = 0;
    if stack != 0 {
        child.regs[2] = stack;
    }
    if has(flags, CLONE_SETTLS) {
        child.regs[4] = tls;
    }
    child.pc = child.pc.wrapping_add(4);
    child
}

// Whether the flags ask for a thread of the same process and for nothing unknown.
fn are_flags_taken(flags: u32) -> bool
    ensures { result ≡ are_flags_taken flags }
{
    flags & NEEDED_FLAGS == NEEDED_FLAGS && flags & KNOWN_FLAGS == flags
}

// Whether a word is asked for where it can't be written.
fn is_denied(memory: &GuestMemory, asked: bool, at: Addr) -> bool
    ensures { result ≡ is_denied (memory_of memory.now) asked at }
{
    asked && !memory.can_write(at, 4)
}

// Where a zero is written when the new thread ends, or 0.
fn child_clear_tid(flags: u32, child: Addr) -> Addr
    ensures { result ≡ child_clear_tid flags child }
{
    if has(flags, CLONE_CHILD_CLEARTID) {
        child
    } else {
        0
    }
}

// The kernel writes a word where that is asked for; then each byte can be written.
fn fill_word_if(
    asked: bool,
    memory: &mut GuestMemory,
    held: &mut Reservations,
    events: &mut Events,
    at: Addr,
    value: u32,
)
    requires reach { asked ≡ true → can_write (memory_of memory.old) at 4 ≡ true }
    requires room { 1 ≤ events.old.room }
    ensures filled { guest_of memory.new held.new events.new
        ≡ filled_where asked at value (guest_of memory.old held.old events.old) }
    ensures room { KeepsRoom events.old events.new }
{
    if asked {
        fill_word(memory, held, events, at, value);
    }
}

/// clone(2)
pub(crate) fn clone_thread(
    state: &mut State,
    memory: &mut GuestMemory,
    held: &mut Reservations,
    events: &mut Events,
    caller: &Caller,
) -> Answer
    requires room { 2 ≤ events.old.room }
    ensures does { Does (specs.clone
        (asked caller.now state.old memory.old held.old)) result
        state.new memory.new held.new events.old events.new }
{
    let (flags, parent, child) = (caller.argument(0), caller.argument(2), caller.argument(4));
    if !are_flags_taken(flags) {
        return Answer::Back { value: ENOSYS };
    }
    let Some(tid) = state.next_tid() else {
        return Answer::Back { value: EAGAIN };
    };
    let (to_parent, to_child) = (
        has(flags, CLONE_PARENT_SETTID),
        has(flags, CLONE_CHILD_SETTID),
    );
    if is_denied(memory, to_parent, parent) {
        return Answer::Back { value: EFAULT };
    }
    if is_denied(memory, to_child, child) {
        return Answer::Back { value: EFAULT };
    }
    fill_word_if(to_parent, memory, held, events, parent, tid.number());
    fill_word_if(to_child, memory, held, events, child, tid.number());
    state.add_thread(tid, child_clear_tid(flags, child));
    held.forget(tid);
    Answer::Born {
        tid,
        child: child_cpu(&caller.cpu, flags, caller.argument(1), caller.argument(3)),
    }
}
