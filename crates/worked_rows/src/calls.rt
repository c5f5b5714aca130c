//! A guest and its calls.
ghost use Rattle.guest_memory.specs.Guest.{memory_of};
ghost use Rattle.guest_calls.specs.Pages.{IsBreakFree};

use anyhow::{Context, Result, bail};
use guest_calls::syscall;
use guest_kernel::{Answer, Channel, Inputs, Kernel};
use guest_memory::{GuestMemory, Reservations};
use guest_words::{Rights, Tid};
use rv_exec::Cpu;
use std::alloc::Global;
use trace_model::Events;

const ALL: Rights = Rights {
    read: true,
    write: true,
    exec: true,
};

// The table of parts at 0x10800, an address and a size each: two of two bytes each, one that is out of reach, and two of
// 2^30 bytes each.
const TABLE: [u32; 10] = [
    0x10400,
    2,
    0x10410,
    2,
    0x20000,
    1,
    0x10500,
    0x4000_0000,
    0x10500,
    0x4000_0000,
];

// The pages 0x10 and 0x11. The path `in` stands at 0x10400 and the path `on` at 0x10410, the parts from 0x10800 on, and 4096
// bytes that are not zero at 0x11000.
fn memory(alloc: Global) -> Result<GuestMemory> {
    let mut memory = GuestMemory::new(alloc)?;
    if !memory.is_free(16, 2) {
        bail!("a page is mapped");
    }
    memory.map(16, 2, ALL)?;
    memory.copy_in(0x10400, b"in")?;
    memory.copy_in(0x10410, b"on")?;
    memory.copy_in(0x11000, &[b'x'; 4096])?;
    let mut at: u32 = 0x10800;
    for word in TABLE {
        memory.copy_in(at, &word.to_le_bytes())?;
        at = at.wrapping_add(4);
    }
    Ok(memory)
}

/// A guest with the pages 0x10 and 0x11, and the break behind them. It has the input `in` of five bytes, and four bytes to
/// read on its standard input.
#[derive(Drop)]
pub struct Guest {
    kernel: Kernel,
    memory: GuestMemory,
    held: Reservations,
    events: Events,
    ghost free: { IsBreakFree (memory_of memory) kernel.state.program_break },
}

impl Guest {
    pub fn new(alloc: Global) -> Result<Guest> {
        let mut inputs = Inputs::new(alloc)?;
        inputs.add("in", Vec::from_slice(alloc, b"hello")?)?;
        let stdin = Vec::from_slice(alloc, b"abcd")?;
        let kernel = Kernel::new(alloc, inputs, stdin, 0x12000)?;
        let memory = memory(alloc)?;
        if !memory.is_free(0x12, 0x40000 - 0x12) {
            bail!("a page is mapped");
        }
        Ok(Guest {
            kernel,
            memory,
            held: Reservations::new(),
            events: Events::new(alloc)?,
        })
    }

    // The answer to a call of the thread, whose stack is at 0x11800 and whose thread pointer is 5.
    fn call(&mut self, tid: Tid, number: u32, arguments: [u32; 6]) -> Result<Answer> {
        let mut cpu = Cpu::new(0x10054);
        cpu.regs[2] = 0x11800;
        cpu.regs[4] = 5;
        cpu.regs[17] = number;
        cpu.regs[10] = arguments[0];
        cpu.regs[11] = arguments[1];
        cpu.regs[12] = arguments[2];
        cpu.regs[13] = arguments[3];
        cpu.regs[14] = arguments[4];
        cpu.regs[15] = arguments[5];
        if !self.kernel.can_run(tid) {
            bail!("it can't run");
        }
        let (memory, held, events) = (&mut self.memory, &mut self.held, &mut self.events);
        Ok(syscall(&mut self.kernel, memory, held, tid, &cpu, events)?)
    }

    // Which thread the clock wakes, with which answer.
    fn wake(&mut self) -> Option<(Tid, u32)> {
        self.kernel.wake_due()
    }
}

// An error is its number with a minus, and any other value is in hexadecimal.
fn text_of_value(alloc: Global, value: u32) -> Result<String> {
    if value > 0xFFFF_F000 {
        Ok(format!(in alloc; "-{}", value.wrapping_neg())?)
    } else {
        Ok(format!(in alloc; "{value:x}")?)
    }
}

// A new thread has its number, its program counter, its stack and its thread pointer.
fn text_of_birth(alloc: Global, tid: Tid, child: &Cpu) -> Result<String> {
    let (number, pc, stack, thread) = (tid.number(), child.pc, child.regs[2], child.regs[4]);
    Ok(format!(in alloc; "born {number} {pc:x} {stack:x} {thread:x}")?)
}

fn text_of(alloc: Global, answer: &Answer) -> Result<String> {
    match answer {
        Answer::Back { value } => text_of_value(alloc, *value),
        Answer::Yield => Ok(String::from_str(alloc, "yield")?),
        Answer::Block => Ok(String::from_str(alloc, "block")?),
        Answer::ThreadEnd => Ok(String::from_str(alloc, "end")?),
        Answer::ProcessEnd { status } => Ok(format!(in alloc; "exit {status}")?),
        Answer::Born { tid, child } => text_of_birth(alloc, *tid, child),
    }
}

// The thread, the number and the arguments of a row.
fn call_of(row: &str) -> Result<(Tid, u32, [u32; 6])> {
    let (thread, row) = row.split_once(' ').context("no number")?;
    let (number, row) = row.split_once(' ').context("no argument")?;
    let tid = Tid::new(thread.parse()?).context("no thread")?;
    let mut arguments = [0; 6];
    for (i, word) in row.split(' ').enumerate() {
        if i < 6 {
            arguments[i] = u32::from_str_radix(word, 16)?;
        }
    }
    Ok((tid, number.parse()?, arguments))
}

// The descriptor that a channel has from the start.
fn number_of(channel: Channel) -> u32 {
    match channel {
        Channel::Out => 1,
        Channel::Err => 2,
    }
}

/// What the kernel answers, and what goes out: the channel's number, how many bytes there are, and the first of them.
pub fn answer(alloc: Global, guest: &mut Guest, row: &str) -> Result<String> {
    let (tid, number, arguments) = call_of(row)?;
    let answer = guest.call(tid, number, arguments)?;
    let text = text_of(alloc, &answer)?;
    match guest.kernel.outgoing() {
        None => Ok(text),
        Some((channel, bytes)) => {
            let (number, count) = (number_of(channel), bytes.len());
            let first = &bytes[..count.min(4)];
            Ok(format!(in alloc; "{text}, on {number} {count} bytes {first:?}")?)
        }
    }
}

/// Which thread the clock wakes, and with which answer.
pub fn wake(alloc: Global, guest: &mut Guest) -> Result<String> {
    match guest.wake() {
        None => Ok(String::from_str(alloc, "none")?),
        Some((tid, value)) => {
            let (number, text) = (tid.number(), text_of_value(alloc, value)?);
            Ok(format!(in alloc; "{number} {text}")?)
        }
    }
}
