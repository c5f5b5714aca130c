//! The atomic operations.
ghost use Rattle.std.specs.Prelude.{◌≡◌, ◌-◌, ◌%◌};
ghost use Rattle.guest_memory.specs.Reserved.{HoldAtMost, without_thread};
ghost use Rattle.guest_memory.specs.ReservedBy.{reserved_by};
ghost use Rattle.rv_exec.specs.Accesses.{atomic_result};
ghost use Rattle.rv_exec.specs.Effects.{exec_state_of, atomic, load_reserved, store_conditional, modified};

use crate::bytes::{read, write};
use crate::operations::signed;
use crate::{Access, Cpu, Outcome};
use guest_memory::{GuestMemory, Reservations, Size};
use guest_words::limits::THREADS;
use guest_words::{Addr, FaultKind, Tid, Word};
use rv_isa::{AtomicOp, Reg};

/// What an atomic operation works with: the register that it writes, the address of its word, and the value that it is given.
#[derive(Clone, Copy)]
pub struct Operands {
    pub rd: Reg,
    pub at: Addr,
    pub n: u32,
}

/// An atomic operation with a register's value.
#[inline(never)]
pub fn atomic(
    cpu: &mut Cpu,
    memory: &mut GuestMemory,
    held: &mut Reservations,
    tid: Tid,
    op: AtomicOp,
    operands: Operands,
) -> Outcome
    requires { HoldAtMost (without_thread (reserved_by held.old) tid) (THREADS - 1) }
    ensures { (result, exec_state_of cpu.new memory.new held.new)
        ≡ atomic tid op operands.rd operands.at operands.n
        (exec_state_of cpu.old memory.old held.old) }
{
    let Operands { rd, at, n } = operands;
    if at % 4 != 0 {
        return Outcome::Fault {
            kind: FaultKind::AtomicAlign,
        };
    }
    match op {
        AtomicOp::Lr => load_reserved(cpu, memory, held, tid, rd, at),
        AtomicOp::Sc => store_conditional(cpu, memory, held, tid, operands),
        _ => modify(cpu, memory, held, tid, op, operands),
    }
}

// LR: loads the word and reserves it for the thread.
fn load_reserved(
    cpu: &mut Cpu,
    memory: &GuestMemory,
    held: &mut Reservations,
    tid: Tid,
    rd: Reg,
    at: Addr,
) -> Outcome
    requires { HoldAtMost (without_thread (reserved_by held.old) tid) (THREADS - 1) }
    ensures { (result, exec_state_of cpu.new memory.now held.new)
        ≡ load_reserved tid rd at (exec_state_of cpu.old memory.now held.old) }
{
    let Some(old) = read(memory, at, Size::Four) else {
        return Outcome::Fault {
            kind: FaultKind::Load,
        };
    };
    let word = Word::of(at);
    held.set(tid, word);
    cpu.put(rd, old);
    Outcome::Went {
        access: Access::Read {
            first: word,
            count: 1,
        },
    }
}

// SC: stores where the thread has reserved the word.
fn store_conditional(
    cpu: &mut Cpu,
    memory: &mut GuestMemory,
    held: &mut Reservations,
    tid: Tid,
    operands: Operands,
) -> Outcome
    requires { operands.at % 4 ≡ 0 }
    ensures { (result, exec_state_of cpu.new memory.new held.new)
        ≡ store_conditional tid operands.rd operands.at operands.n
        (exec_state_of cpu.old memory.old held.old) }
{
    let Operands { rd, at, n } = operands;
    if !memory.can_write(at, 4) {
        return Outcome::Fault {
            kind: FaultKind::Store,
        };
    }
    if !held.take(tid, Word::of(at)) {
        cpu.put(rd, 1);
        return Outcome::WENT;
    }
    let Some((first, count)) = write(memory, held, tid, at, Size::Four, n) else {
        unreachable!();
    };
    cpu.put(rd, 0);
    Outcome::Went {
        access: Access::Write { first, count },
    }
}

// The other operations: the word becomes the operation's result.
fn modify(
    cpu: &mut Cpu,
    memory: &mut GuestMemory,
    held: &mut Reservations,
    tid: Tid,
    op: AtomicOp,
    operands: Operands,
) -> Outcome
    ensures { (result, exec_state_of cpu.new memory.new held.new)
        ≡ modified tid op operands.rd operands.at operands.n
        (exec_state_of cpu.old memory.old held.old) }
{
    let Operands { rd, at, n } = operands;
    let refused = Outcome::Fault {
        kind: FaultKind::Store,
    };
    let Some(old) = read(memory, at, Size::Four) else {
        return refused;
    };
    let new = atomic_result(op, old, n);
    if write(memory, held, tid, at, Size::Four, new).is_none() {
        return refused;
    }
    cpu.put(rd, old);
    Outcome::Went {
        access: Access::Both { word: Word::of(at) },
    }
}

// What the operation leaves in the word.
fn atomic_result(op: AtomicOp, old: u32, n: u32) -> u32
    ensures { result ≡ atomic_result op old n }
{
    match op {
        AtomicOp::Lr => old,
        AtomicOp::Sc | AtomicOp::Swap => n,
        AtomicOp::Add => old.wrapping_add(n),
        AtomicOp::Xor => old ^ n,
        AtomicOp::And => old & n,
        AtomicOp::Or => old | n,
        AtomicOp::Min => signed(old).min(signed(n)).cast_unsigned(),
        AtomicOp::Max => signed(old).max(signed(n)).cast_unsigned(),
        AtomicOp::Minu => old.min(n),
        AtomicOp::Maxu => old.max(n),
    }
}
