//! The registers of the live threads.
ghost use Rattle.std.specs.Prelude.{◌≡◌, ◌-◌, true, is_some};
ghost use Rattle.guest_memory.specs.ReservedBy.{reserved_by};
ghost use Rattle.guest_memory.specs.Reserved.{HoldAtMost, without_thread};
ghost use Rattle.guest_words.specs.ByThread.{value_of};
ghost use Rattle.rv_exec.specs.Effects.{effect, exec_state_of};
ghost use Rattle.guest_machine.specs.Machine.{registers_of, with_registers};
ghost use Rattle.guest_machine.specs.Step.{resumed};
ghost use Rattle.guest_machine.specs.Waking.{with_answer};

use guest_memory::{GuestMemory, Reservations};
use guest_words::limits::THREADS;
use guest_words::{Addr, ByThread, Tid};
use rv_exec::{Cpu, Outcome, execute};
use rv_isa::{Instr, Reg};

/// The registers of a live thread.
#[inline(always)]
pub(crate) fn cpu_of(harts: &ByThread<Cpu>, tid: Tid) -> &Cpu
    requires { is_some (value_of harts.now.list tid) ≡ true }
    ensures { result.now ≡ registers_of harts.now.list tid }
{
    harts.get(tid).unwrap()
}

/// Carries out an instruction of a live thread, and says where its pc is then.
#[inline(always)]
pub(crate) fn execute_for(
    harts: &mut ByThread<Cpu>,
    memory: &mut GuestMemory,
    held: &mut Reservations,
    tid: Tid,
    i: Instr,
) -> (Outcome, Addr)
    requires lives { is_some (value_of harts.old.list tid) ≡ true }
    requires held { HoldAtMost (without_thread (reserved_by held.old) tid) (THREADS - 1) }
    ensures effect { (
      result.0,
      exec_state_of (registers_of harts.new.list tid) memory.new held.new,
    ) ≡ effect tid i
        (exec_state_of (registers_of harts.old.list tid) memory.old held.old) }
    ensures pc { result.1 ≡ (registers_of harts.new.list tid).pc }
    ensures harts { harts.new.list ≡ with_registers harts.old.list tid
        (registers_of harts.new.list tid) }
    ensures lives { is_some (value_of harts.new.list tid) ≡ true }
    ensures room { harts.new.room ≡ harts.old.room }
{
    let cpu = harts.get_mut(tid).unwrap();
    let outcome = execute(cpu, memory, held, tid, i);
    (outcome, cpu.pc)
}

/// Resumes a live thread after its system call, with this answer in a0.
pub(crate) fn resume(harts: &mut ByThread<Cpu>, tid: Tid, value: u32)
    requires { is_some (value_of harts.old.list tid) ≡ true }
    ensures list { harts.new.list ≡ with_registers harts.old.list tid
        (resumed (registers_of harts.old.list tid) value) }
    ensures room { harts.new.room ≡ harts.old.room }
{
    let cpu = harts.get_mut(tid).unwrap();
    cpu.write(Reg::new(10).unwrap(), value);
    cpu.advance();
}

/// A live thread has this in a0, and its pc stays.
pub(crate) fn answer(harts: &mut ByThread<Cpu>, tid: Tid, value: u32)
    requires { is_some (value_of harts.old.list tid) ≡ true }
    ensures list { harts.new.list ≡ with_registers harts.old.list tid
        (with_answer (registers_of harts.old.list tid) value) }
    ensures room { harts.new.room ≡ harts.old.room }
{
    let cpu = harts.get_mut(tid).unwrap();
    cpu.write(Reg::new(10).unwrap(), value);
}
