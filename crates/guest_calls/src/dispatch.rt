//! A system call of a guest, by its number.
ghost use Rattle.std.specs.Prelude.{◌≡◌, true, IfOk, OnErr};
ghost use Rattle.guest_memory.specs.Guest.{memory_of};
ghost use Rattle.guest_kernel.specs.Invariant.{IsState};
ghost use Rattle.guest_kernel.specs.Kernel.{can_run, later};
ghost use Rattle.guest_calls.specs.Pages.{IsBreakFree};
ghost use Rattle.guest_calls.specs.Outcome.{asked, calling, Gives, IsAsBefore};
ghost use Rattle.guest_calls.specs.Table.{syscall};

use crate::caller::Caller;
use crate::numbers::{NR_WRITE, NR_WRITEV};
use crate::table;
use crate::writes::{write, writev};
use guest_kernel::{Answer, Kernel};
use guest_memory::{GuestMemory, Reservations};
use guest_words::Tid;
use guest_words::limits::SYSCALL_EVENTS;
use rv_exec::Cpu;
use std::alloc::AllocError;
use trace_model::Events;

// The system call, by its number.
fn carry_out(
    kernel: &mut Kernel,
    memory: &mut GuestMemory,
    held: &mut Reservations,
    tid: Tid,
    cpu: &Cpu,
    events: &mut Events,
) -> Result<Answer, AllocError>
    requires can_run { can_run kernel.old.state tid ≡ true }
    requires break_free { IsBreakFree (memory_of memory.old) kernel.old.state.program_break }
    ensures syscall { IfOk result (λ answer. Gives
        (syscall (asked (calling tid cpu.now) kernel.old.state memory.old held.old)) answer
        kernel.new memory.new held.new events.old events.new) }
    ensures refused { OnErr result (IsAsBefore kernel.old kernel.new
        memory.old memory.new held.old held.new events.old events.new) }
    ensures break_free { IsBreakFree (memory_of memory.new) kernel.new.state.program_break }
{
    events.reserve(SYSCALL_EVENTS)?;
    let caller = Caller { tid, cpu: *cpu };
    match caller.number() {
        NR_WRITE => Ok(write(kernel, memory, events, &caller)),
        NR_WRITEV => writev(kernel, memory, events, &caller),
        _ => {
            let answer = table::syscall(&mut kernel.state, memory, held, events, &caller)?;
            kernel.outgoing.clear();
            Ok(answer)
        }
    }
}

/// Carries out the system call that the thread's registers hold: the number in a7, the arguments in a0 to a5. The thread can
/// run, so it does not wait and has no deadline. The call is a step, so that the time goes on first. The copies from and to
/// the guest are added to the events, in order, at most `SYSCALL_EVENTS` of them; that a thread is born or ends is not. All
/// memory is taken before anything changes.
pub fn syscall(
    kernel: &mut Kernel,
    memory: &mut GuestMemory,
    held: &mut Reservations,
    tid: Tid,
    cpu: &Cpu,
    events: &mut Events,
) -> Result<Answer, AllocError>
    requires can_run { can_run kernel.old.state tid ≡ true }
    requires break_free { IsBreakFree (memory_of memory.old) kernel.old.state.program_break }
    ensures syscall { IfOk result (λ answer. Gives
        (syscall (asked (calling tid cpu.now) (later kernel.old.state) memory.old held.old)) answer
        kernel.new memory.new held.new events.old events.new) }
    ensures refused { OnErr result (IsAsBefore kernel.old kernel.new
        memory.old memory.new held.old held.new events.old events.new) }
    ensures break_free { IsBreakFree (memory_of memory.new) kernel.new.state.program_break }
    ensures state { IsState kernel.new.state }
{
    let before = kernel.state.time();
    kernel.state.tick();
    let answer = carry_out(kernel, memory, held, tid, cpu, events);
    let after = if answer.is_ok() {
        kernel.state.time()
    } else {
        before
    };
    kernel.state.set_time(after);
    answer
}
