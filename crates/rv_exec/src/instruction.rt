//! One instruction of a thread.
ghost use Rattle.std.specs.Prelude.{◌≡◌, ◌+◌, ◌*◌, ◌-◌, ◌%◌, ◌^◌, true, false, Some, IfSome, IfNone, is_none};
ghost use Rattle.guest_memory.specs.Guest.{memory_of};
ghost use Rattle.guest_memory.specs.Memory.{Memory};
ghost use Rattle.guest_memory.specs.Reserved.{HoldAtMost, without_thread};
ghost use Rattle.guest_memory.specs.ReservedBy.{reserved_by};
ghost use Rattle.rv_exec.specs.Effects.{branched, computed, effect, exec_state_of, jumped, linked, value};
ghost use Rattle.rv_exec.specs.declared.outcome.Access.TheVariants as access;
ghost use Rattle.rv_exec.specs.declared.outcome.Outcome.TheVariants.{Fault, Went};
ghost use Rattle.guest_words.specs.declared.endings.FaultKind.TheVariants as fault;
ghost use Rattle.rv_exec.specs.Operations.{add_offset, immediate_result, is_taken, register_result};
ghost use Rattle.rv_exec.specs.Reading.{CarriesOut, GoesPlainly, StaysPlainly, may_write};
ghost use Rattle.guest_memory.specs.Code.{known_of};
ghost use Rattle.rv_isa.specs.declared.instruction.Instr.TheVariants.{Auipc, Branch, Immediate, Lui, Register};
ghost use Rattle.rv_exec.specs.Registers.{Registers, with_pc};

use crate::atomics::{Operands, atomic};
use crate::loads_and_stores::{load, store};
use crate::operations::{add_offset, immediate_result, is_taken, register_result};
use crate::{Access, Counter, Cpu, Outcome};
use guest_memory::{Decoded, GuestMemory, Reservations};
use guest_words::limits::THREADS;
use guest_words::{Addr, FaultKind, Tid};
use rv_isa::{ImmOp, Instr, Reg, RegOp, Test};

/// Carries out an instruction of the thread. Fewer than `THREADS` other threads have a reservation.
#[inline(always)]
pub fn execute(
    cpu: &mut Cpu,
    memory: &mut GuestMemory,
    held: &mut Reservations,
    tid: Tid,
    i: Instr,
) -> Outcome
    requires { HoldAtMost (without_thread (reserved_by held.old) tid) (THREADS - 1) }
    ensures effect { (result, exec_state_of cpu.new memory.new held.new)
        ≡ effect tid i (exec_state_of cpu.old memory.old held.old) }
{
    match i {
        Instr::Store {
            kind,
            value,
            base,
            offset,
        } => {
            let (at, n) = (add_offset(cpu.value(base), offset), cpu.value(value));
            store(cpu, memory, held, tid, kind, at, n)
        }
        Instr::Atomic {
            op,
            rd,
            base,
            value,
            ..
        } => {
            let (at, n) = (cpu.value(base), cpu.value(value));
            atomic(cpu, memory, held, tid, op, Operands { rd, at, n })
        }
        _ => {
            let mut pc = cpu.pc;
            let Some(outcome) = execute_reading(&mut pc, cpu, memory, i) else {
                unreachable!();
            };
            cpu.pc = pc;
            outcome
        }
    }
}

/// Carries out an instruction that does not write to memory, of a thread whose program counter is `pc`: that in `cpu` is not
/// looked at, and stays. None, and nothing changes, where the instruction may write.
#[inline(always)]
pub fn execute_reading<P: Counter>(
    pc: &mut P,
    cpu: &mut Cpu,
    memory: &GuestMemory,
    i: Instr,
) -> Option<Outcome>
    ensures effect { IfSome result (λ outcome. CarriesOut i (memory_of memory.now) (with_pc (P.at pc.old) cpu.old)
        outcome (with_pc (P.at pc.new) cpu.new)) }
    ensures none { IfNone result (with_pc (P.at pc.new) cpu.new ≡ with_pc (P.at pc.old) cpu.old) }
    ensures writes { is_none result ≡ may_write i }
{
    match i {
        Instr::Store { .. } | Instr::Atomic { .. } => None,
        Instr::Load {
            kind,
            rd,
            base,
            offset,
        } => {
            let at = add_offset(cpu.value(base), offset);
            Some(load(pc, cpu, memory, kind, rd, at))
        }
        Instr::Lui { rd, imm } => Some(compute(pc, cpu, rd, imm << 12)),
        Instr::Auipc { rd, imm } => Some(from_here(pc, cpu, rd, imm)),
        Instr::Jal { rd, offset } => {
            let target = add_offset(pc.address(), offset);
            Some(jump_and_link(pc, cpu, rd, target))
        }
        Instr::Jalr { rd, base, offset } => {
            let target = add_offset(cpu.value(base), offset);
            Some(jump_and_link(pc, cpu, rd, target / 2 * 2))
        }
        Instr::Branch {
            test,
            left,
            right,
            offset,
        } => Some(branch(pc, cpu, test, left, right, offset)),
        Instr::Immediate { op, rd, left, imm } => Some(immediate(pc, cpu, op, rd, left, imm)),
        Instr::Register {
            op,
            rd,
            left,
            right,
        } => Some(register(pc, cpu, op, rd, left, right)),
        Instr::Fence | Instr::FenceI => Some(pass(pc)),
        Instr::Ecall => Some(Outcome::Syscall),
        Instr::Ebreak => Some(Outcome::Fault {
            kind: FaultKind::Break,
        }),
    }
}

/// Carries out an instruction that accesses no memory and links no way back, of a thread whose program counter is `pc`, and says
/// whether it did: not if it is another one or not known, or a branch that faults. Then nothing changes.
#[inline(always)]
pub fn execute_plain<P: Counter>(pc: &mut P, cpu: &mut Cpu, d: Decoded) -> bool
    ensures goes { result ≡ true
        → GoesPlainly (known_of d) (with_pc (P.at pc.old) cpu.old) (with_pc (P.at pc.new) cpu.new) }
    ensures stays { result ≡ false
        → StaysPlainly (known_of d) (with_pc (P.at pc.old) cpu.old) (with_pc (P.at pc.new) cpu.new) }
{
    match d {
        Decoded::Lui { rd, imm } => plain_lui(pc, cpu, rd, imm),
        Decoded::Auipc { rd, imm } => plain_auipc(pc, cpu, rd, imm),
        Decoded::Beq {
            left,
            right,
            offset,
        } => plain_branch(pc, cpu, Test::Eq, left, right, offset),
        Decoded::Bne {
            left,
            right,
            offset,
        } => plain_branch(pc, cpu, Test::Ne, left, right, offset),
        Decoded::Blt {
            left,
            right,
            offset,
        } => plain_branch(pc, cpu, Test::Lt, left, right, offset),
        Decoded::Bge {
            left,
            right,
            offset,
        } => plain_branch(pc, cpu, Test::Ge, left, right, offset),
        Decoded::Bltu {
            left,
            right,
            offset,
        } => plain_branch(pc, cpu, Test::Ltu, left, right, offset),
        Decoded::Bgeu {
            left,
            right,
            offset,
        } => plain_branch(pc, cpu, Test::Geu, left, right, offset),
        Decoded::Addi { rd, left, imm } => plain_immediate(pc, cpu, ImmOp::Addi, rd, left, imm),
        Decoded::Slti { rd, left, imm } => plain_immediate(pc, cpu, ImmOp::Slti, rd, left, imm),
        Decoded::Sltiu { rd, left, imm } => plain_immediate(pc, cpu, ImmOp::Sltiu, rd, left, imm),
        Decoded::Xori { rd, left, imm } => plain_immediate(pc, cpu, ImmOp::Xori, rd, left, imm),
        Decoded::Ori { rd, left, imm } => plain_immediate(pc, cpu, ImmOp::Ori, rd, left, imm),
        Decoded::Andi { rd, left, imm } => plain_immediate(pc, cpu, ImmOp::Andi, rd, left, imm),
        Decoded::Slli { rd, left, imm } => plain_immediate(pc, cpu, ImmOp::Slli, rd, left, imm),
        Decoded::Srli { rd, left, imm } => plain_immediate(pc, cpu, ImmOp::Srli, rd, left, imm),
        Decoded::Srai { rd, left, imm } => plain_immediate(pc, cpu, ImmOp::Srai, rd, left, imm),
        Decoded::Add { rd, left, right } => plain_register(pc, cpu, RegOp::Add, rd, left, right),
        Decoded::Sub { rd, left, right } => plain_register(pc, cpu, RegOp::Sub, rd, left, right),
        Decoded::Sll { rd, left, right } => plain_register(pc, cpu, RegOp::Sll, rd, left, right),
        Decoded::Slt { rd, left, right } => plain_register(pc, cpu, RegOp::Slt, rd, left, right),
        Decoded::Sltu { rd, left, right } => plain_register(pc, cpu, RegOp::Sltu, rd, left, right),
        Decoded::Xor { rd, left, right } => plain_register(pc, cpu, RegOp::Xor, rd, left, right),
        Decoded::Srl { rd, left, right } => plain_register(pc, cpu, RegOp::Srl, rd, left, right),
        Decoded::Sra { rd, left, right } => plain_register(pc, cpu, RegOp::Sra, rd, left, right),
        Decoded::Or { rd, left, right } => plain_register(pc, cpu, RegOp::Or, rd, left, right),
        Decoded::And { rd, left, right } => plain_register(pc, cpu, RegOp::And, rd, left, right),
        Decoded::Mul { rd, left, right } => plain_register(pc, cpu, RegOp::Mul, rd, left, right),
        Decoded::Mulh { rd, left, right } => plain_register(pc, cpu, RegOp::Mulh, rd, left, right),
        Decoded::Mulhsu { rd, left, right } => plain_register(
            pc,
            cpu,
            RegOp::Mulhsu,
            rd,
            left,
            right,
        ),
        Decoded::Mulhu { rd, left, right } => plain_register(
            pc,
            cpu,
            RegOp::Mulhu,
            rd,
            left,
            right,
        ),
        Decoded::Div { rd, left, right } => plain_register(pc, cpu, RegOp::Div, rd, left, right),
        Decoded::Divu { rd, left, right } => plain_register(pc, cpu, RegOp::Divu, rd, left, right),
        Decoded::Rem { rd, left, right } => plain_register(pc, cpu, RegOp::Rem, rd, left, right),
        Decoded::Remu { rd, left, right } => plain_register(pc, cpu, RegOp::Remu, rd, left, right),
        Decoded::Fence | Decoded::FenceI => went(pass(pc)),
        _ => false,
    }
}

// LUI. The functions of plain instructions say only whether it went.
#[inline(always)]
fn plain_lui<P: Counter>(pc: &mut P, cpu: &mut Cpu, rd: Reg, imm: u32) -> bool
    ensures goes { result ≡ true
        → GoesPlainly (Some (Lui rd imm)) (with_pc (P.at pc.old) cpu.old) (with_pc (P.at pc.new) cpu.new) }
    ensures stays { result ≡ false
        → StaysPlainly (Some (Lui rd imm)) (with_pc (P.at pc.old) cpu.old) (with_pc (P.at pc.new) cpu.new) }
{
    went(compute(pc, cpu, rd, imm << 12))
}

// AUIPC.
#[inline(always)]
fn plain_auipc<P: Counter>(pc: &mut P, cpu: &mut Cpu, rd: Reg, imm: u32) -> bool
    ensures goes { result ≡ true
        → GoesPlainly (Some (Auipc rd imm)) (with_pc (P.at pc.old) cpu.old) (with_pc (P.at pc.new) cpu.new) }
    ensures stays { result ≡ false
        → StaysPlainly (Some (Auipc rd imm)) (with_pc (P.at pc.old) cpu.old) (with_pc (P.at pc.new) cpu.new) }
{
    went(from_here(pc, cpu, rd, imm))
}

// A branch.
#[inline]
fn plain_branch<P: Counter>(
    pc: &mut P,
    cpu: &Cpu,
    test: Test,
    left: Reg,
    right: Reg,
    offset: i32,
) -> bool
    ensures goes { result ≡ true
        → GoesPlainly (Some (Branch test left right offset)) (with_pc (P.at pc.old) cpu.now) (with_pc (P.at pc.new) cpu.now) }
    ensures stays { result ≡ false
        → StaysPlainly (Some (Branch test left right offset)) (with_pc (P.at pc.old) cpu.now) (with_pc (P.at pc.new) cpu.now) }
{
    went(branch(pc, cpu, test, left, right, offset))
}

// An operation on a register and an immediate.
#[inline]
fn plain_immediate<P: Counter>(
    pc: &mut P,
    cpu: &mut Cpu,
    op: ImmOp,
    rd: Reg,
    left: Reg,
    imm: i32,
) -> bool
    ensures goes { result ≡ true
        → GoesPlainly (Some (Immediate op rd left imm)) (with_pc (P.at pc.old) cpu.old) (with_pc (P.at pc.new) cpu.new) }
    ensures stays { result ≡ false
        → StaysPlainly (Some (Immediate op rd left imm)) (with_pc (P.at pc.old) cpu.old) (with_pc (P.at pc.new) cpu.new) }
{
    went(immediate(pc, cpu, op, rd, left, imm))
}

// An operation on two registers.
#[inline]
fn plain_register<P: Counter>(
    pc: &mut P,
    cpu: &mut Cpu,
    op: RegOp,
    rd: Reg,
    left: Reg,
    right: Reg,
) -> bool
    ensures goes { result ≡ true
        → GoesPlainly (Some (Register op rd left right)) (with_pc (P.at pc.old) cpu.old) (with_pc (P.at pc.new) cpu.new) }
    ensures stays { result ≡ false
        → StaysPlainly (Some (Register op rd left right)) (with_pc (P.at pc.old) cpu.old) (with_pc (P.at pc.new) cpu.new) }
{
    went(register(pc, cpu, op, rd, left, right))
}

// Whether an instruction went, and accessed nothing.
#[inline(always)]
fn went(outcome: Outcome) -> bool
    ensures yes { result ≡ true → outcome ≡ Went access.Nothing }
    ensures no { result ≡ false → (outcome ≡ Went access.Nothing → ⊥) }
{
    match outcome {
        Outcome::Went { access } => match access {
            Access::Nothing => true,
            _ => false,
        },
        Outcome::Fault { .. } => false,
        Outcome::Syscall => false,
    }
}

// Goes on behind an instruction that touched no register and no memory.
#[inline(always)]
fn pass<P: Counter>(pc: &mut P) -> Outcome
    ensures went { result ≡ Went access.Nothing }
    ensures pc { (P.at pc.new) ≡ ((P.at pc.old) + 4) % 2 ^ 32 }
{
    pc.pass();
    Outcome::WENT
}

// Writes what an instruction computed, and goes on behind it.
#[inline(always)]
fn compute<P: Counter>(pc: &mut P, cpu: &mut Cpu, rd: Reg, n: u32) -> Outcome
    ensures { (result, with_pc (P.at pc.new) cpu.new) ≡ computed rd n (with_pc (P.at pc.old) cpu.old) }
{
    cpu.write(rd, n);
    pass(pc)
}

// AUIPC.
#[inline(always)]
fn from_here<P: Counter>(pc: &mut P, cpu: &mut Cpu, rd: Reg, imm: u32) -> Outcome
    ensures { (result, with_pc (P.at pc.new) cpu.new)
        ≡ computed rd (((P.at pc.old) + imm * 2 ^ 12) % 2 ^ 32) (with_pc (P.at pc.old) cpu.old) }
{
    let n = pc.address().wrapping_add(imm << 12);
    compute(pc, cpu, rd, n)
}

// An operation on a register and an immediate.
#[inline(always)]
fn immediate<P: Counter>(
    pc: &mut P,
    cpu: &mut Cpu,
    op: ImmOp,
    rd: Reg,
    left: Reg,
    imm: i32,
) -> Outcome
    ensures { (result, with_pc (P.at pc.new) cpu.new)
        ≡ computed rd (immediate_result op (value cpu.old left) imm) (with_pc (P.at pc.old) cpu.old) }
{
    let n = immediate_result(op, cpu.value(left), imm);
    compute(pc, cpu, rd, n)
}

// An operation on two registers.
#[inline(always)]
fn register<P: Counter>(
    pc: &mut P,
    cpu: &mut Cpu,
    op: RegOp,
    rd: Reg,
    left: Reg,
    right: Reg,
) -> Outcome
    ensures { (result, with_pc (P.at pc.new) cpu.new)
        ≡ computed rd (register_result op (value cpu.old left) (value cpu.old right)) (with_pc (P.at pc.old) cpu.old) }
{
    let n = register_result(op, cpu.value(left), cpu.value(right));
    compute(pc, cpu, rd, n)
}

// Goes to a target, where that is a multiple of 4.
#[inline(always)]
fn jump<P: Counter>(pc: &mut P, target: Addr) -> Outcome
    ensures { (r : Registers) → (result, with_pc (P.at pc.new) r) ≡ jumped target r.regs (with_pc (P.at pc.old) r) }
{
    if target % 4 != 0 {
        return Outcome::Fault {
            kind: FaultKind::JumpAlign,
        };
    }
    pc.go_to(target);
    Outcome::WENT
}

/// Goes to a target, where that is a multiple of 4, and leaves the way back in a register: JAL and JALR.
#[inline(always)]
pub fn jump_and_link<P: Counter>(pc: &mut P, cpu: &mut Cpu, rd: Reg, target: Addr) -> Outcome
    ensures { (result, with_pc (P.at pc.new) cpu.new) ≡ linked rd target (with_pc (P.at pc.old) cpu.old) }
{
    if target % 4 != 0 {
        return Outcome::Fault {
            kind: FaultKind::JumpAlign,
        };
    }
    cpu.write(rd, pc.address().wrapping_add(4));
    pc.go_to(target);
    Outcome::WENT
}

// A branch, which goes to a target where the test holds.
#[inline(always)]
fn branch<P: Counter>(
    pc: &mut P,
    cpu: &Cpu,
    test: Test,
    left: Reg,
    right: Reg,
    offset: i32,
) -> Outcome
    ensures { (result, with_pc (P.at pc.new) cpu.now) ≡ branched
        (is_taken test (value cpu.now left) (value cpu.now right))
        (add_offset (P.at pc.old) offset) (with_pc (P.at pc.old) cpu.now) }
{
    if is_taken(test, cpu.value(left), cpu.value(right)) {
        let target = add_offset(pc.address(), offset);
        jump(pc, target)
    } else {
        pass(pc)
    }
}
