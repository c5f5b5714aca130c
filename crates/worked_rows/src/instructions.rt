//! Instructions of thread 1 at 0x10000. Before each, x7 is 0x20001, the words at 0x1FFC and 0x2000, over the border of two
//! pages, are 0xFFFE8001 and 0x80000005, and the threads 1 and 2 have reserved the second.
ghost use Rattle.std.specs.Prelude.{◌<◌};
ghost use Rattle.guest_memory.specs.Reserved.{HoldAtMost};
ghost use Rattle.guest_memory.specs.ReservedBy.{reserved_by};

use anyhow::{Context, Result, bail};
use guest_memory::{GuestMemory, Reservations, Size};
use guest_words::{Rights, Tid, Word};
use rv_exec::{Cpu, execute};
use rv_isa::{Instr, Reg, decode};
use std::alloc::Global;

/// The pages 0 to 2 can be read and written, page 3 only read and page 4 only written.
pub fn five_pages(alloc: Global) -> Result<GuestMemory> {
    let mut memory = GuestMemory::new(alloc)?;
    for page in 0..5 {
        if !memory.is_free(page, 1) {
            bail!("page {page} is mapped");
        }
        let rights = Rights {
            read: page != 4,
            write: page != 3,
            exec: false,
        };
        memory.map(page, 1, rights)?;
    }
    Ok(memory)
}

fn x(n: u8) -> Reg
    requires { n < 32 }
{
    Reg::new(n).unwrap()
}

// Threads 1 and 2 have reserved the word at 0x2000.
fn two_reservations() -> Reservations
    ensures few { HoldAtMost (reserved_by result) 2 }
{
    let word = Word::of(0x2000);
    let mut held = Reservations::new();
    held.set(Tid::FIRST, word);
    held.set(Tid::new(2).unwrap(), word);
    held
}

// The outcome of the instruction, and after it x7, the program counter, the two words, and whether each of the threads 1 and
// 2 has its reservation.
fn outcome_of(alloc: Global, memory: &mut GuestMemory, cpu: Cpu, instr: Instr) -> Result<String> {
    let mut cpu = cpu;
    let mut held = two_reservations();
    let outcome = execute(&mut cpu, memory, &mut held, Tid::FIRST, instr);
    let (x7, pc) = (cpu.value(x(7)), cpu.pc);
    let low = memory.load(0x1FFC, Size::Four)?;
    let high = memory.load(0x2000, Size::Four)?;
    let first = held.take(Tid::FIRST, Word::of(0x2000));
    let second = held.take(Tid::new(2).unwrap(), Word::of(0x2000));
    Ok(format!(in alloc; "{outcome:?} {x7:x} {pc:x} {low:x} {high:x} {first} {second}")?)
}

/// The instruction of the word, and what it does where x5 and x6 are as given.
pub fn answer(alloc: Global, memory: &mut GuestMemory, row: &str) -> Result<String> {
    let (word, registers) = row.split_once(' ').context("no x5")?;
    let (x5, x6) = registers.split_once(' ').context("no x6")?;
    let instr = decode(u32::from_str_radix(word, 16)?).context("no instruction")?;
    let mut cpu = Cpu::new(0x10000);
    cpu.write(x(5), u32::from_str_radix(x5, 16)?);
    cpu.write(x(6), u32::from_str_radix(x6, 16)?);
    cpu.write(x(7), 0x20001);
    memory.store(0x1FFC, Size::Four, 0xFFFE_8001)?;
    memory.store(0x2000, Size::Four, 0x8000_0005)?;
    let outcome = outcome_of(alloc, memory, cpu, instr)?;
    Ok(format!(in alloc; "{instr:?} {outcome}")?)
}
