//! Loads and stores.
ghost use Rattle.std.specs.Prelude.{◌≡◌, ◌<◌, ◌≤◌, ◌+◌, ◌*◌, ◌/◌, ◌%◌, ◌^◌, ℕ, IfOk, IfErr, IfSome, IfNone, Ok, Err, Some, if◌then◌else◌};
ghost use Rattle.rv_isa.specs.Fields.{twos_complement};
ghost use Rattle.rv_isa.specs.declared.instruction.LoadKind.TheVariants.{Lw};
ghost use Rattle.rv_isa.specs.declared.instruction.StoreKind.TheVariants.{Sw};
ghost use Rattle.guest_memory.specs.Guest.{memory_of};
ghost use Rattle.guest_memory.specs.Memory.{byte_count, number_at, with_bytes};
ghost use Rattle.guest_memory.specs.Reserved.{after_write};
ghost use Rattle.guest_memory.specs.ReservedBy.{reserved_by};
ghost use Rattle.guest_words.specs.Words.{word_count};
ghost use Rattle.guest_words.specs.declared.endings.FaultKind.TheVariants as fault;
ghost use Rattle.rv_exec.specs.Accesses.{can_read, can_write, load_size, extended, low_bytes, store_size};
ghost use Rattle.rv_exec.specs.Effects.{advanced, exec_state_of, loads, stores, written};
ghost use Rattle.rv_exec.specs.Operations.{low_32_bits};
ghost use Rattle.rv_exec.specs.Registers.{Registers, with_pc};
ghost use Rattle.rv_exec.specs.declared.outcome.Access.TheVariants as access;
ghost use Rattle.rv_exec.specs.declared.outcome.Outcome.TheVariants.{Fault, Went};

use crate::bytes::{read, read_within, words, write};
use crate::{Access, Counter, Cpu, Outcome};
use guest_memory::{GuestMemory, Reservations, Size};
use guest_words::{Addr, FaultKind, Tid, Word};
use rv_isa::{LoadKind, Reg, StoreKind};

// How many bytes a load reads.
#[inline(always)]
fn load_size(kind: LoadKind) -> Size
    ensures { result ≡ load_size kind }
{
    match kind {
        LoadKind::Lb | LoadKind::Lbu => Size::One,
        LoadKind::Lh | LoadKind::Lhu => Size::Two,
        LoadKind::Lw => Size::Four,
    }
}

// What a load writes to its register, of the number that its bytes give.
#[inline(always)]
fn extended(kind: LoadKind, n: u32) -> u32
    ensures { result ≡ extended kind n }
{
    match kind {
        LoadKind::Lb => sign_extended(n % 0x100, 0x80),
        LoadKind::Lh => sign_extended(n % 0x10000, 0x8000),
        LoadKind::Lw | LoadKind::Lbu | LoadKind::Lhu => n,
    }
}

// The 32 bits of the number that the bits stand for in two's complement, where the topmost one weighs `sign`.
fn sign_extended(n: u32, sign: u32) -> u32
    requires narrow { sign ≤ 2 ^ 15 }
    requires fits { n < 2 * sign }
    ensures { result ≡ low_32_bits (twos_complement sign n) }
{
    if n < sign {
        n
    } else {
        n.wrapping_sub(2 * sign)
    }
}

// How many bytes a store writes.
#[inline(always)]
fn store_size(kind: StoreKind) -> Size
    ensures { result ≡ store_size kind }
{
    match kind {
        StoreKind::Sb => Size::One,
        StoreKind::Sh => Size::Two,
        StoreKind::Sw => Size::Four,
    }
}

/// A load. Its code is short, so that it is inlined in the machine's loop: `load_number` stands apart and answers in a register.
#[inline(always)]
pub fn load<P: Counter>(
    pc: &mut P,
    cpu: &mut Cpu,
    memory: &GuestMemory,
    kind: LoadKind,
    rd: Reg,
    at: Addr,
) -> Outcome
    ensures { (result, with_pc (P.at pc.new) cpu.new)
        ≡ loads kind rd at (memory_of memory.now) (with_pc (P.at pc.old) cpu.old) }
{
    match load_number(cpu, memory, kind, rd, at) {
        Ok(()) => {
            pc.pass();
            let (first, count) = words(at, load_size(kind));
            Outcome::Went {
                access: Access::Read { first, count },
            }
        }
        Err(kind) => Outcome::Fault { kind },
    }
}

// What a load does to the registers x0 to x31. It stands apart from the other instructions.
#[inline(never)]
fn load_number(
    cpu: &mut Cpu,
    memory: &GuestMemory,
    kind: LoadKind,
    rd: Reg,
    at: Addr,
) -> Result<(), FaultKind>
    ensures readable { result ≡ (if can_read (memory_of memory.now) at (byte_count (load_size kind))
        then Ok tt else Err fault.Load) }
    ensures loaded { IfOk result (λ _. cpu.new ≡ record cpu.old {
      regs = written cpu.old rd
          (extended kind (number_at (memory_of memory.now) at (byte_count (load_size kind))));
    }) }
    ensures kept { IfErr result (λ _. cpu.new ≡ cpu.old) }
    ensures end { IfOk result (λ _. at + byte_count (load_size kind) ≤ 2 ^ 32) }
{
    match kind {
        LoadKind::Lb => load_as(cpu, memory, LoadKind::Lb, rd, at),
        LoadKind::Lh => load_as(cpu, memory, LoadKind::Lh, rd, at),
        LoadKind::Lw => load_as(cpu, memory, LoadKind::Lw, rd, at),
        LoadKind::Lbu => load_as(cpu, memory, LoadKind::Lbu, rd, at),
        LoadKind::Lhu => load_as(cpu, memory, LoadKind::Lhu, rd, at),
    }
}

/// A load but for the program counter: the words that it reads. Its code is inlined in that of the caller, and short where the
/// caller names the kind.
#[inline(always)]
pub fn load_words(
    cpu: &mut Cpu,
    memory: &GuestMemory,
    kind: LoadKind,
    rd: Reg,
    at: Addr,
) -> Result<(Word, u32), FaultKind>
    ensures went { (pc : ℕ) → IfOk result (λ words.
        (Went (access.Read words.0 words.1), with_pc ((pc + 4) % 2 ^ 32) cpu.new)
        ≡ loads kind rd at (memory_of memory.now) (with_pc pc cpu.old)) }
    ensures fault { (pc : ℕ) → IfErr result (λ error. (Fault error, with_pc pc cpu.new)
        ≡ loads kind rd at (memory_of memory.now) (with_pc pc cpu.old)) }
{
    load_as(cpu, memory, kind, rd, at)?;
    Ok(words(at, load_size(kind)))
}

// The same, whose code is made for the kind that a call names. It calls nothing where the bytes lie within a page that can be
// read, and saves no register then.
#[inline(always)]
fn load_as(
    cpu: &mut Cpu,
    memory: &GuestMemory,
    kind: LoadKind,
    rd: Reg,
    at: Addr,
) -> Result<(), FaultKind>
    ensures readable { result ≡ (if can_read (memory_of memory.now) at (byte_count (load_size kind))
        then Ok tt else Err fault.Load) }
    ensures loaded { IfOk result (λ _. cpu.new ≡ record cpu.old {
      regs = written cpu.old rd
          (extended kind (number_at (memory_of memory.now) at (byte_count (load_size kind))));
    }) }
    ensures kept { IfErr result (λ _. cpu.new ≡ cpu.old) }
    ensures end { IfOk result (λ _. at + byte_count (load_size kind) ≤ 2 ^ 32) }
{
    match read_within(memory, at, load_size(kind)) {
        Some(n) => {
            cpu.write(rd, extended(kind, n));
            Ok(())
        }
        None => load_apart(cpu, memory, kind, rd, at),
    }
}

// The same, wherever the bytes lie.
#[cold]
#[inline(never)]
fn load_apart(
    cpu: &mut Cpu,
    memory: &GuestMemory,
    kind: LoadKind,
    rd: Reg,
    at: Addr,
) -> Result<(), FaultKind>
    ensures readable { result ≡ (if can_read (memory_of memory.now) at (byte_count (load_size kind))
        then Ok tt else Err fault.Load) }
    ensures loaded { IfOk result (λ _. cpu.new ≡ record cpu.old {
      regs = written cpu.old rd
          (extended kind (number_at (memory_of memory.now) at (byte_count (load_size kind))));
    }) }
    ensures kept { IfErr result (λ _. cpu.new ≡ cpu.old) }
    ensures end { IfOk result (λ _. at + byte_count (load_size kind) ≤ 2 ^ 32) }
{
    let Some(n) = read(memory, at, load_size(kind)) else {
        return Err(FaultKind::Load);
    };
    cpu.write(rd, extended(kind, n));
    Ok(())
}

/// A store of a register's lowest bytes, which is inlined as a load is.
#[inline(always)]
pub fn store(
    cpu: &mut Cpu,
    memory: &mut GuestMemory,
    held: &mut Reservations,
    tid: Tid,
    kind: StoreKind,
    at: Addr,
    n: u32,
) -> Outcome
    ensures { (result, exec_state_of cpu.new memory.new held.new)
        ≡ stores tid kind at n (exec_state_of cpu.old memory.old held.old) }
{
    match store_number(memory, held, tid, kind, at, n) {
        Ok(()) => {
            cpu.advance();
            let (first, count) = words(at, store_size(kind));
            Outcome::Went {
                access: Access::Write { first, count },
            }
        }
        Err(kind) => Outcome::Fault { kind },
    }
}

// What a store does to memory and reservations. It stands apart, as `load_number` does.
#[inline(never)]
fn store_number(
    memory: &mut GuestMemory,
    held: &mut Reservations,
    tid: Tid,
    kind: StoreKind,
    at: Addr,
    n: u32,
) -> Result<(), FaultKind>
    ensures writable { result ≡ (if can_write (memory_of memory.old) at (byte_count (store_size kind))
        then Ok tt else Err fault.Store) }
    ensures memory { IfOk result (λ _. memory_of memory.new
        ≡ with_bytes (memory_of memory.old) at (low_bytes (store_size kind) n)) }
    ensures held { IfOk result (λ _. reserved_by held.new
        ≡ after_write (reserved_by held.old) (Some tid) (at / 4)
        (word_count at (byte_count (store_size kind)))) }
    ensures memory_kept { IfErr result (λ _. memory_of memory.new ≡ memory_of memory.old) }
    ensures held_kept { IfErr result (λ _. reserved_by held.new ≡ reserved_by held.old) }
    ensures end { IfOk result (λ _. at + byte_count (store_size kind) ≤ 2 ^ 32) }
{
    match write(memory, held, tid, at, store_size(kind), n) {
        Some(_) => Ok(()),
        None => Err(FaultKind::Store),
    }
}

/// A store but for the program counter: the words that it writes. Its code is inlined in that of the caller, as `load_words` is.
#[inline(always)]
pub fn store_words(
    memory: &mut GuestMemory,
    held: &mut Reservations,
    tid: Tid,
    kind: StoreKind,
    at: Addr,
    n: u32,
) -> Result<(Word, u32), FaultKind>
    ensures went { (r : Registers) → IfOk result (λ words.
        (Went (access.Write words.0 words.1), exec_state_of (advanced r) memory.new held.new)
        ≡ stores tid kind at n (exec_state_of r memory.old held.old)) }
    ensures fault { (r : Registers) → IfErr result (λ error. (Fault error, exec_state_of r memory.new held.new)
        ≡ stores tid kind at n (exec_state_of r memory.old held.old)) }
{
    write(memory, held, tid, at, store_size(kind), n).ok_or(FaultKind::Store)
}

/// A load of a word but for the program counter, where the address is a multiple of 4 and its page can be read: the word that it
/// reads. Otherwise None, which says nothing of the load, and nothing changes. Its code calls nothing.
#[inline(always)]
pub fn load_word(cpu: &mut Cpu, memory: &GuestMemory, rd: Reg, at: Addr) -> Option<Word>
    ensures went { (pc : ℕ) → IfSome result (λ word.
        (Went (access.Read word 1), with_pc ((pc + 4) % 2 ^ 32) cpu.new)
        ≡ loads Lw rd at (memory_of memory.now) (with_pc pc cpu.old)) }
    ensures same { IfNone result (cpu.new ≡ cpu.old) }
{
    if at % 4 != 0 {
        return None;
    }
    match read_within(memory, at, Size::Four) {
        Some(n) => {
            cpu.write(rd, n);
            Some(Word::of(at))
        }
        None => None,
    }
}

/// A store of a word but for the program counter, where the address is a multiple of 4, its page can be written and has no decoded
/// code, and no thread has a reservation: the word that it writes. Otherwise None, which says nothing of the store, and nothing
/// changes. Its code calls nothing.
#[inline(always)]
pub fn store_word(memory: &mut GuestMemory, held: &Reservations, at: Addr, n: u32) -> Option<Word>
    ensures went { (r : Registers) (tid : ℕ) → IfSome result (λ word.
        (Went (access.Write word 1), exec_state_of (advanced r) memory.new held.now)
        ≡ stores tid Sw at n (exec_state_of r memory.old held.now)) }
    ensures same { IfNone result (memory_of memory.new ≡ memory_of memory.old) }
{
    if at % 4 != 0 || !held.is_empty() {
        return None;
    }
    if memory.store_word(at, n) {
        Some(Word::of(at))
    } else {
        None
    }
}
