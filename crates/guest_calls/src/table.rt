//! The system calls by their numbers on riscv32.
ghost use Rattle.std.specs.Prelude.{◌≡◌, ◌≢◌, ◌≤◌, ◌+◌, true, IfOk, OnErr, slice_index};
ghost use Rattle.guest_memory.specs.Guest.{memory_of};
ghost use Rattle.guest_kernel.specs.declared.answer.Answer.TheVariants.{Back};
ghost use Rattle.guest_calls.specs.declared.numbers.TheConstants.{NR_WRITE, NR_WRITEV};
ghost use Rattle.guest_kernel.specs.Kernel.{can_run};
ghost use Rattle.guest_calls.specs.Outcome.{asked, Does, IsUntouched};
ghost use Rattle.guest_calls.specs.Pages.{IsBreakFree};
ghost use Rattle.guest_calls.specs.Table.{syscall};

use crate::caller::Caller;
use crate::clock::{clock_gettime, clock_nanosleep};
use crate::clone::clone_thread;
use crate::files::{close, llseek, read};
use crate::futex::futex;
use crate::numbers::{
    NR_BRK, NR_CLOCK_GETTIME, NR_CLOCK_NANOSLEEP, NR_CLONE, NR_CLOSE, NR_EXIT, NR_EXIT_GROUP,
    NR_FUTEX, NR_GETPID, NR_GETTID, NR_IOCTL, NR_LLSEEK, NR_MADVISE, NR_MMAP2, NR_MPROTECT,
    NR_MUNMAP, NR_OPENAT, NR_READ, NR_READV, NR_RT_SIGACTION, NR_RT_SIGPROCMASK, NR_SCHED_YIELD,
    NR_SET_ROBUST_LIST, NR_SET_TID_ADDRESS,
};
use crate::pages::{brk, mmap2, mprotect, munmap};
use crate::paths::openat;
use crate::threads::{exit, exit_group, rt_sigprocmask, set_tid_address};
use crate::vectors::readv;
use guest_kernel::{Answer, ENOSYS, ENOTTY, State};
use guest_memory::{GuestMemory, Reservations};
use guest_words::limits::SYSCALL_EVENTS;
use std::alloc::AllocError;
use trace_model::Events;

// The system call does nothing, and this is answered.
fn always(value: u32) -> Answer
    ensures { result ≡ Back value }
{
    Answer::Back { value }
}

/// Carries out a system call that writes to no channel.
pub(crate) fn syscall(
    state: &mut State,
    memory: &mut GuestMemory,
    held: &mut Reservations,
    events: &mut Events,
    caller: &Caller,
) -> Result<Answer, AllocError>
    requires can_run { can_run state.old caller.now.tid ≡ true }
    requires break_free { IsBreakFree (memory_of memory.old) state.old.program_break }
    requires room { SYSCALL_EVENTS ≤ events.old.room }
    requires no_write { slice_index caller.now.cpu.regs 17 ≢ NR_WRITE }
    requires no_writev { slice_index caller.now.cpu.regs 17 ≢ NR_WRITEV }
    ensures does { IfOk result (λ answer. Does
        (syscall (asked caller.now state.old memory.old held.old)) answer
        state.new memory.new held.new events.old events.new) }
    ensures refused { OnErr result (IsUntouched state.old state.new
        memory.old memory.new held.old held.new events.old events.new) }
{
    match caller.number() {
        NR_IOCTL => Ok(always(ENOTTY)),
        NR_OPENAT => Ok(openat(state, memory, events, caller)),
        NR_CLOSE => Ok(close(state, caller)),
        NR_LLSEEK => Ok(llseek(state, memory, held, events, caller)),
        NR_READ => Ok(read(state, memory, held, events, caller)),
        NR_READV => readv(state, memory, held, events, caller),
        NR_EXIT => Ok(exit(state, memory, held, events, caller)),
        NR_EXIT_GROUP => Ok(exit_group(state, held, caller)),
        NR_SET_TID_ADDRESS => Ok(set_tid_address(state, caller)),
        NR_SET_ROBUST_LIST => Ok(always(0)),
        NR_SCHED_YIELD => Ok(Answer::Yield),
        NR_RT_SIGACTION => Ok(always(0)),
        NR_RT_SIGPROCMASK => Ok(rt_sigprocmask(memory, held, events, caller)),
        NR_GETPID => Ok(always(1)),
        NR_GETTID => Ok(always(caller.tid.number())),
        NR_BRK => brk(state, memory, caller),
        NR_MUNMAP => Ok(munmap(memory, caller)),
        NR_CLONE => Ok(clone_thread(state, memory, held, events, caller)),
        NR_MMAP2 => mmap2(memory, caller),
        NR_MPROTECT => Ok(mprotect(memory, caller)),
        NR_MADVISE => Ok(always(0)),
        NR_CLOCK_GETTIME => Ok(clock_gettime(state, memory, held, events, caller)),
        NR_CLOCK_NANOSLEEP => Ok(clock_nanosleep(state, memory, events, caller)),
        NR_FUTEX => Ok(futex(state, memory, events, caller)),
        _ => Ok(always(ENOSYS)),
    }
}
