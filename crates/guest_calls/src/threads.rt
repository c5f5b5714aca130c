//! The system calls on threads and the process: exit(2), exit_group(2), set_tid_address(2) and rt_sigprocmask(2).
ghost use Rattle.std.specs.Prelude.{◌≡◌, ◌≤◌, ◌+◌, true};
ghost use Rattle.guest_memory.specs.declared.memory.GuestMemory.{GuestMemory};
ghost use Rattle.trace_model.specs.EventList.{EventList};
ghost use Rattle.guest_kernel.specs.declared.answer.Answer.TheVariants.{Back};
ghost use Rattle.guest_kernel.specs.Kernel.{KernelState, can_run};
ghost use Rattle.guest_calls.specs.Outcome.{asked, Does, DoesQuietly};
ghost use Rattle.guest_calls.specs.Threads as specs;

use crate::caller::Caller;
use guest_kernel::{Answer, EFAULT, State, fill, fill_word};
use guest_memory::{GuestMemory, Reservations};
use trace_model::Events;

/// exit(2)
pub(crate) fn exit(
    state: &mut State,
    memory: &mut GuestMemory,
    held: &mut Reservations,
    events: &mut Events,
    caller: &Caller,
) -> Answer
    requires can_run { can_run state.old caller.now.tid ≡ true }
    requires room { 1 ≤ events.old.room }
    ensures does { Does (specs.exit
        (asked caller.now state.old memory.old held.old)) result
        state.new memory.new held.new events.old events.new }
{
    let tid = caller.tid;
    let goes_on = state.has_others(tid);
    tell_end(state, memory, held, events, caller);
    state.remove(tid);
    held.forget(tid);
    if goes_on {
        Answer::ThreadEnd
    } else {
        Answer::ProcessEnd {
            status: caller.status(),
        }
    }
}

#[tactic(auto, using(crate::proofs::Ends::told_where_cleared))]
// Writes a zero where the thread's end is waited for, and wakes one that waits there, if another thread lives.
fn tell_end(
    state: &mut State,
    memory: &mut GuestMemory,
    held: &mut Reservations,
    events: &mut Events,
    caller: &Caller,
)
    requires can_run { can_run state.old caller.now.tid ≡ true }
    requires room { 1 ≤ events.old.room }
    ensures told { Does (specs.told_end (asked caller.now state.old memory.old held.old))
        (Back 0) state.new memory.new held.new events.old events.new }
    ensures can_run { can_run state.new caller.now.tid ≡ true }
{
    if !state.has_others(caller.tid) {
        return;
    }
    let at = state.clear_tid_of(caller.tid);
    if at == 0 {
        return;
    }
    if !memory.can_write(at, 4) {
        return;
    }
    fill_word(memory, held, events, at, 0);
    state.wake(at, 1, u32::MAX);
}

/// exit_group(2)
pub(crate) fn exit_group(state: &mut State, held: &mut Reservations, caller: &Caller) -> Answer
    ensures { (memory : GuestMemory) (events : EventList)
        → Does (specs.exit_group
        (asked caller.now state.old memory held.old)) result
        state.new memory held.new events events }
{
    state.remove_all();
    *held = Reservations::new();
    Answer::ProcessEnd {
        status: caller.status(),
    }
}

/// set_tid_address(2)
pub(crate) fn set_tid_address(state: &mut State, caller: &Caller) -> Answer
    ensures { DoesQuietly specs.set_tid_address caller.now state.old result state.new }
{
    state.set_clear_tid(caller.tid, caller.argument(0));
    Answer::Back {
        value: caller.tid.number(),
    }
}

/// rt_sigprocmask(2)
pub(crate) fn rt_sigprocmask(
    memory: &mut GuestMemory,
    held: &mut Reservations,
    events: &mut Events,
    caller: &Caller,
) -> Answer
    requires room { 1 ≤ events.old.room }
    ensures does { (state : KernelState) → Does
        (specs.rt_sigprocmask
        (asked caller.now state memory.old held.old)) result
        state memory.new held.new events.old events.new }
{
    let old = caller.argument(2);
    if old != 0 {
        if !memory.can_write(old, 8) {
            return Answer::Back { value: EFAULT };
        }
        fill(memory, held, events, old, &[0; 8]);
    }
    Answer::Back { value: 0 }
}
