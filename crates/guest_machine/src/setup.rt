//! The start of a guest.
ghost use Rattle.std.specs.Prelude.{◌≡◌, ◌≤◌, ◌+◌, ◌-◌, ◌*◌, ◌/◌, length, map, slice_set, replicate, string_bytes, None, IfOk};
ghost use Rattle.elf_image.specs.Image.{page_count};
ghost use Rattle.guest_machine.specs.Kept.{machine_of, out_of};
ghost use Rattle.guest_machine.specs.Start.{start, strings};

use crate::Machine;
use crate::image_pages::greatest_end;
use crate::stack::{RANDOM_ADDRESS, STRINGS_LIMIT};
use crate::start_memory::start_memory;
use elf_image::Image;
use guest_kernel::{Inputs, Kernel};
use guest_memory::Reservations;
use guest_words::limits::{PAGES, STACK_PAGES, THREADS};
use guest_words::{Addr, ByThread, PAGE_SIZE, Tid};
use rv_exec::Cpu;
use rv_isa::Reg;
use std::alloc::{AllocError, Global};
use thiserror::Error;

/// Why a guest can't begin.
#[derive(Clone, Copy, Debug, PartialEq, Eq, Error)]
pub enum SetupError {
    /// The argument strings, with their zero bytes, are longer than 65536 bytes.
    #[error("arguments too long")]
    ArgsTooLong,
    /// The pages of the image and of the stack are more than `PAGES`.
    #[error("too many pages")]
    Pages,
    /// Out of memory.
    #[error("out of memory")]
    Memory,
}

impl From<AllocError> for SetupError {
    ghost use Rattle.std.specs.Prelude.{◌≡◌};
    ghost use Rattle.guest_machine.specs.declared.setup.SetupError.TheVariants.{Memory};

    ghost from_gives = { λ _ e. e ≡ Memory };

    fn from(_error: AllocError) -> SetupError {
        SetupError::Memory
    }
}

// The words stand below the strings, at a multiple of 16.
fn stack_pointer(first: Addr, count: usize) -> Addr
    requires high { 0x70000000 ≤ first }
    requires few { count ≤ STRINGS_LIMIT }
    ensures { result ≡ (first - 4 * (count + 17)) / 16 * 16 }
{
    (first - 4 * (count as u32 + 17)) / 16 * 16
}

// The registers of thread 1: at the entry, with the stack pointer in x2.
fn first_cpu(entry: Addr, pointer: Addr) -> Cpu
    ensures { result ≡ record { pc = entry; regs = slice_set (replicate 32 0) 2 pointer } }
{
    let mut cpu = Cpu::new(entry);
    cpu.write(Reg::new(2).unwrap(), pointer);
    cpu
}

/// A machine that begins, where the argument strings have `text_bytes` bytes with their zero bytes.
pub(crate) fn first_machine(
    alloc: Global,
    image: &Image,
    arguments: &[String],
    inputs: Inputs,
    stdin: Vec<u8>,
    text_bytes: u32,
) -> Result<Machine, AllocError>
    requires texts { text_bytes ≡ length (strings (map string_bytes arguments.now)) }
    requires limit { text_bytes ≤ STRINGS_LIMIT }
    requires few { page_count image.now.segments + STACK_PAGES ≤ PAGES }
    ensures start { IfOk result (λ machine. machine_of machine
        ≡ start image.now (map string_bytes arguments.now) inputs stdin.items) }
    ensures out { IfOk result (λ machine. out_of machine ≡ None) }
    ensures entry { IfOk result (λ machine. machine.entry ≡ image.now.entry) }
{
    let first = RANDOM_ADDRESS - text_bytes;
    let pointer = stack_pointer(first, arguments.len());
    let first_break = greatest_end(image.segments()).next_multiple_of(PAGE_SIZE);
    let memory = start_memory(alloc, image, arguments, first, pointer)?;
    let kernel = Kernel::new(alloc, inputs, stdin, first_break)?;
    let mut harts = ByThread::new(alloc);
    harts.reserve(THREADS)?;
    harts.insert(Tid::FIRST, first_cpu(image.entry(), pointer))?;
    Ok(Machine {
        harts,
        kernel,
        memory,
        held: Reservations::new(),
        entry: image.entry(),
        called: false,
    })
}
