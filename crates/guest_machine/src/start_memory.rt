//! The memory of a guest at its start.
ghost use Rattle.std.specs.Prelude.{◌≡◌, ◌≤◌, ◌+◌, Some, length, map, string_bytes, IfOk, OnOk};
ghost use Rattle.guest_memory.specs.Guest.{memory_of};
ghost use Rattle.guest_memory.specs.Memory.{AreFree, mapped_pages, with_pages};
ghost use Rattle.elf_image.specs.Image.{page_count};
ghost use Rattle.guest_machine.specs.Start.{stack_page, stack_pointer, stack_rights, start_memory, strings, strings_address};

use crate::image_pages::image_memory;
use crate::stack::{STRINGS_LIMIT, argument_bytes, word_bytes};
use elf_image::Image;
use guest_memory::{GuestMemory, MemError};
use guest_words::limits::{PAGES, STACK_PAGES};
use guest_words::{Addr, Rights};
use std::alloc::{AllocError, Global};

// The first page of the stack.
const STACK_PAGE: u32 = 0x7F800;

// Maps the stack, which can be read and written.
fn map_stack(memory: &mut GuestMemory) -> Result<(), AllocError>
    requires free { AreFree (memory_of memory.old) stack_page STACK_PAGES }
    requires few { mapped_pages (memory_of memory.old) + STACK_PAGES ≤ PAGES }
    ensures { OnOk result (memory_of memory.new
        ≡ with_pages (memory_of memory.old) stack_page STACK_PAGES (Some stack_rights)) }
{
    let rights = Rights {
        read: true,
        write: true,
        exec: false,
    };
    match memory.map(STACK_PAGE, STACK_PAGES, rights) {
        Ok(()) => Ok(()),
        Err(MemError::NoRoom) => unreachable!(),
        Err(_) => Err(AllocError),
    }
}

/// The image and the stack, with the argument strings from `first` on and the words at the stack pointer.
pub(crate) fn start_memory(
    alloc: Global,
    image: &Image,
    arguments: &[String],
    first: Addr,
    pointer: Addr,
) -> Result<GuestMemory, AllocError>
    requires first { first ≡ strings_address (map string_bytes arguments.now) }
    requires pointer { pointer ≡ stack_pointer (map string_bytes arguments.now) }
    requires limit { length (strings (map string_bytes arguments.now)) ≤ STRINGS_LIMIT }
    requires few { page_count image.now.segments + STACK_PAGES ≤ PAGES }
    ensures { IfOk result (λ memory. memory_of memory
        ≡ start_memory image.now (map string_bytes arguments.now)) }
{
    let words = word_bytes(alloc, image, arguments, first)?;
    let strings = argument_bytes(alloc, arguments)?;
    let mut memory = image_memory(alloc, image.segments())?;
    map_stack(&mut memory)?;
    memory.first_contents(pointer, words.as_slice());
    memory.first_contents(first, strings.as_slice());
    Ok(memory)
}
