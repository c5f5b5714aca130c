//! Reading a file.
ghost use Rattle.std.specs.Prelude.{◌≡◌, ◌≢◌, ℕ, Some, None, IfOk, IfErr, OnOk};
ghost use Rattle.elf_image.specs.Image.{name_of};
ghost use Rattle.elf_image.specs.Reading.{image_of, name_at};
ghost use Rattle.elf_image.specs.Tests.{first_refusal};

use crate::header_checks::check_header;
use crate::loading::load;
use crate::names::first_symbols;
use crate::segments::{check_segments, header_place};
use crate::{ElfError, Image};
use std::alloc::Global;

/// The executable of a file, or the first of the tests that the file fails. Names need no test: a file whose section or
/// symbol tables can't be read has none.
pub fn read_image(alloc: Global, file: &[u8]) -> Result<Image, ElfError>
    // Out of memory may come at any file, every other error at those whose first failing test it is.
    ensures refused { IfErr result (λ e. e ≢ ElfError.Memory → first_refusal file.now ≡ Some e) }
    ensures accepted { OnOk result (first_refusal file.now ≡ None) }
    ensures image { IfOk result (λ image. image ≡ image_of file.now) }
    ensures names { IfOk result (λ image. (at : ℕ) → name_of image at ≡ name_at file.now at) }
{
    let header = check_header(file)?;
    let headers = check_segments(alloc, file, &header)?;
    let (segments, pages) = load(alloc, file, &header, &headers)?;
    let symbols = first_symbols(alloc, file, &header)?;
    Ok(Image::new(
        header.e_entry,
        header_place(file, &header, &headers),
        header.e_phnum as u32,
        segments,
        pages,
        symbols,
    ))
}
