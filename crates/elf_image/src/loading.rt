//! The load segments of a file that passes all tests.
ghost use Rattle.std.specs.Prelude.{◌≡◌, ◌≢◌, Some, None, length, All, IfOk, IfErr};
ghost use Rattle.elf_image.specs.Headers.{file_header};
ghost use Rattle.elf_image.specs.Image.{page_count};
ghost use Rattle.elf_image.specs.Private.Layout.{IsLoadable};
ghost use Rattle.elf_image.specs.Segments.{occupied_headers, segments_of};
ghost use Rattle.elf_image.specs.Tests.{first_of, layout_tests};
ghost use Rattle.elf_image.specs.declared.error.ElfError.TheVariants as error;

use crate::headers::{FileHeader, ProgramHeader};
use crate::layout::{by_place, count_pages, has_overlap, is_entry};
use crate::segments::segments;
use crate::{ElfError, Segment};
use guest_words::limits::PAGES;
use std::alloc::Global;

/// The segments, where they pass the tests together, and how many pages they touch.
pub(crate) fn load(
    alloc: Global,
    file: &[u8],
    header: &FileHeader,
    headers: &[ProgramHeader],
) -> Result<(Vec<Segment>, u32), ElfError>
    requires header { header.now ≡ file_header file.now }
    requires headers { headers.now ≡ occupied_headers file.now }
    requires loadable { All (IsLoadable (length file.now)) headers.now }
    ensures refused { IfErr result (λ e. e ≢ error.Memory
        → first_of (layout_tests file.now) ≡ Some e) }
    ensures passed { IfOk result (λ _. first_of (layout_tests file.now) ≡ None) }
    ensures segments { IfOk result (λ loaded. loaded.0.items ≡ segments_of file.now) }
    ensures pages { IfOk result (λ loaded. loaded.1 ≡ page_count (segments_of file.now)) }
{
    let ordered = by_place(alloc, headers)?;
    if has_overlap(&ordered) {
        return Err(ElfError::Overlap);
    }
    if headers.is_empty() {
        return Err(ElfError::NoLoad);
    }
    if !is_entry(headers, header.e_entry) {
        return Err(ElfError::Entry);
    }
    let pages = count_pages(&ordered);
    if pages > PAGES {
        return Err(ElfError::Pages);
    }
    let segments = segments(alloc, file, headers)?;
    Ok((segments, pages))
}
