//! The instruction that comes next, where it is known, and what it does.
ghost use Rattle.std.specs.Prelude.{◌≡◌, ◌%◌, ℕ, IfOk, IfSome, IfNone, OnErr};
ghost use Rattle.guest_memory.specs.Code.{IsInstructionAt};
ghost use Rattle.guest_memory.specs.Guest.{memory_of};
ghost use Rattle.rv_exec.specs.Effects.{exec_state_of};
ghost use Rattle.guest_machine.specs.Private.Carrying.{IsStateOf, IsStepOf};
ghost use Rattle.guest_machine.specs.Machine.{MachineState};
ghost use Rattle.guest_machine.specs.Told.{IsInstruction};

use crate::Advanced;
use crate::telling::told;
use guest_memory::{GuestMemory, Reservations};
use guest_words::{Addr, Tid};
use rv_exec::{Cpu, Outcome, execute};
use rv_isa::Instr;
use std::alloc::AllocError;

// The instruction at an address; none if its word can't be fetched or decoded. `place` is afterwards where the code of its page
// is kept.
#[inline(always)]
fn find_instruction(
    memory: &mut GuestMemory,
    place: &mut usize,
    at: Addr,
) -> Result<Option<Instr>, AllocError>
    requires { at % 4 ≡ 0 }
    ensures known { IfOk result (λ found. IfSome found (IsInstructionAt (memory_of memory.old) at)) }
    ensures kept { memory_of memory.new ≡ memory_of memory.old }
{
    *place = memory.code_place(at);
    match memory.known_instruction(*place, at) {
        Some(instruction) => Ok(Some(instruction)),
        None => learned_instruction(memory, place, at),
    }
}

// The same for an instruction that is not known: it is decoded, and known from then on.
#[cold]
#[inline(never)]
fn learned_instruction(
    memory: &mut GuestMemory,
    place: &mut usize,
    at: Addr,
) -> Result<Option<Instr>, AllocError>
    requires { at % 4 ≡ 0 }
    ensures known { IfOk result (λ found. IfSome found (IsInstructionAt (memory_of memory.old) at)) }
    ensures kept { memory_of memory.new ≡ memory_of memory.old }
{
    memory.learn_instruction(at)?;
    *place = memory.code_place(at);
    Ok(memory.known_instruction(*place, at))
}

/// Carries out the instruction at the pc; none, and nothing changes, if it is ECALL or faults.
#[inline(always)]
pub(crate) fn carry_out(
    cpu: &mut Cpu,
    memory: &mut GuestMemory,
    held: &mut Reservations,
    tid: Tid,
    instruction: Instr,
) -> Option<Advanced>
    requires state { (m : MachineState) × IsStateOf (exec_state_of cpu.old memory.old held.old) tid m }
    requires known { IsInstructionAt (memory_of memory.old) cpu.old.pc instruction }
    ensures step { IfSome result (IsStepOf (exec_state_of cpu.old memory.old held.old)
        (exec_state_of cpu.new memory.new held.new) tid) }
    ensures kept { IfNone result (exec_state_of cpu.new memory.new held.new
        ≡ exec_state_of cpu.old memory.old held.old) }
    ensures instruction { IfSome result IsInstruction }
{
    let pc = cpu.pc;
    match execute(cpu, memory, held, tid, instruction) {
        Outcome::Went { access } => Some(told(&instruction, access, cpu.pc, pc.wrapping_add(4))),
        Outcome::Fault { .. } => None,
        Outcome::Syscall => None,
    }
}

/// Finds the instruction at the pc and carries it out; none, and nothing changes, if it is not found, is ECALL or faults.
#[inline(never)]
pub(crate) fn carry_out_next(
    cpu: &mut Cpu,
    memory: &mut GuestMemory,
    held: &mut Reservations,
    tid: Tid,
    place: &mut usize,
) -> Result<Option<Advanced>, AllocError>
    requires { (m : MachineState) × IsStateOf (exec_state_of cpu.old memory.old held.old) tid m }
    ensures step { IfOk result (λ next. IfSome next
        (IsStepOf (exec_state_of cpu.old memory.old held.old)
        (exec_state_of cpu.new memory.new held.new) tid)) }
    ensures kept { IfOk result (λ next. IfNone next (exec_state_of cpu.new memory.new held.new
        ≡ exec_state_of cpu.old memory.old held.old)) }
    ensures refused { OnErr result (exec_state_of cpu.new memory.new held.new
        ≡ exec_state_of cpu.old memory.old held.old) }
    ensures instruction { IfOk result (λ next. IfSome next IsInstruction) }
{
    match find_instruction(memory, place, cpu.pc)? {
        Some(instruction) => Ok(carry_out(cpu, memory, held, tid, instruction)),
        None => Ok(None),
    }
}
