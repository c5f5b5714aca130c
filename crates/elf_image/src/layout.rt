//! The load segments together: their order in memory, overlaps and pages.
ghost use Rattle.std.specs.Prelude.{◌≡◌, ◌+◌, ◌%◌, ◌&&◌, ◌==◌, nat_le, nat_lt, not, ℕ, List, All, IfOk};
ghost use Rattle.std.specs.List.{list_any};
ghost use Rattle.std.specs.List.Sorted.{IsNonDecreasingBy, IsPermutation};
ghost use Rattle.elf_image.specs.Image.{page_count};
ghost use Rattle.elf_image.specs.Private.Layout.{IsLoadable};
ghost use Rattle.elf_image.specs.Headers.{file_header};
ghost use Rattle.elf_image.specs.Segments.{occupied_headers, segments_of};
ghost use Rattle.elf_image.specs.Tests.{fails_entry, fails_overlap};

use crate::headers::ProgramHeader;
use guest_words::{Addr, PAGE_SIZE};
use std::alloc::{AllocError, Global};

/// The same segments by rising place.
pub(crate) fn by_place(
    alloc: Global,
    headers: &[ProgramHeader],
) -> Result<Vec<ProgramHeader>, AllocError>
    ensures same { IfOk result (λ ordered. IsPermutation headers.now ordered.items) }
    ensures rising { IfOk result (λ ordered. IsNonDecreasingBy (λ h. h.p_vaddr) ordered.items) }
{
    let mut ordered = Vec::from_slice(alloc, headers)?;
    ordered.sort_by_key(|h| h.p_vaddr)?;
    Ok(ordered)
}

/// Whether two of the segments share a byte. Where any two do, two neighbours by rising place do.
pub(crate) fn has_overlap(ordered: &[ProgramHeader]) -> bool
    requires loadable { (file_size : ℕ) × All (IsLoadable file_size) ordered.now }
    requires rising { IsNonDecreasingBy (λ h. h.p_vaddr) ordered.now }
    ensures { (file : List ℕ) → IsPermutation (occupied_headers file) ordered.now
        → result ≡ fails_overlap file }
{
    let mut end = 0u64;
    for h in ordered {
        if (h.p_vaddr as u64) < end {
            return true;
        }
        end = h.p_vaddr as u64 + h.p_memsz as u64;
    }
    false
}

/// How many pages the segments touch.
pub(crate) fn count_pages(ordered: &[ProgramHeader]) -> u32
    requires loadable { (file_size : ℕ) × All (IsLoadable file_size) ordered.now }
    requires rising { IsNonDecreasingBy (λ h. h.p_vaddr) ordered.now }
    ensures { (file : List ℕ) → IsPermutation (occupied_headers file) ordered.now
        → result ≡ page_count (segments_of file) }
{
    let mut pages = 0u32;
    // The first page behind those that were counted.
    let mut next = 0u32;
    for h in ordered {
        let first = h.p_vaddr / PAGE_SIZE;
        let end = (h.p_vaddr + h.p_memsz - 1) / PAGE_SIZE + 1;
        pages += end.saturating_sub(next.max(first));
        next = next.max(end);
    }
    pages
}

// Whether an address is one of a segment's bytes that may be run, by the headers alone.
fn is_code_in(headers: &[ProgramHeader], at: Addr) -> bool
    ensures { result ≡ list_any (λ h. nat_le h.p_vaddr at && nat_lt at (h.p_vaddr + h.p_memsz)
        && (h.p_flags % 2 == 1)) headers.now }
{
    headers.iter().any(|h| {
        h.p_vaddr <= at && (at as u64) < h.p_vaddr as u64 + h.p_memsz as u64 && h.p_flags % 2 == 1
    })
}

/// Whether a guest can begin at an address: a multiple of 4, and one of a segment's bytes that may be run.
pub(crate) fn is_entry(headers: &[ProgramHeader], at: Addr) -> bool
    ensures { (file : List ℕ) → headers.now ≡ occupied_headers file
        → at ≡ (file_header file).e_entry → not result ≡ fails_entry file }
{
    at % 4 == 0 && is_code_in(headers, at)
}
