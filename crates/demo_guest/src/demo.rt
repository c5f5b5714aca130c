//! The demo as an executable.
ghost use Rattle.std.specs.Prelude.{◌≡◌, ◌≤◌, ◌-◌, None, IfOk};
ghost use Rattle.elf_image.specs.Image.{page_count};
ghost use Rattle.elf_image.specs.Reading.{image_of};
ghost use Rattle.elf_image.specs.Tests.{first_refusal};
ghost use Rattle.demo_guest.specs.Image.{IsDemoFile, OneDemoFile};

use crate::code::code;
use crate::names::symbols;
use guest_words::limits::{DEMO_ROUTINES, PAGES, STACK_PAGES};
use rv_asm::write_exec;
use rv_isa::one_word_for_an_instruction;
use std::alloc::{AllocError, Global};
use written_images::written_files_are_accepted;

/// The executable of the demo with that many routines. Of the `PAGES` of a guest it leaves the `STACK_PAGES` of the stack.
pub fn demo_image(alloc: Global, routines: u32) -> Result<Vec<u8>, AllocError>
    requires { (1 ≤ routines) × (routines ≤ DEMO_ROUTINES) }
    ensures file { IfOk result (λ file. IsDemoFile routines file.items) }
    ensures accepted { IfOk result (λ file. first_refusal file.items ≡ None) }
    ensures fits { IfOk result (λ file. page_count (image_of file.items).segments
        ≤ PAGES - STACK_PAGES) }
{
    let code = code(alloc, routines)?;
    let symbols = symbols(alloc, routines)?;
    written_files_are_accepted();
    write_exec(alloc, &code, &symbols)
}

/// The demo has one executable: the instructions leave no choice of words.
pub fn a_demo_has_one_file()
    ensures { OneDemoFile }
{
    one_word_for_an_instruction();
}
