//! The load segments of a file, and the tests of each.
ghost use Rattle.std.specs.Prelude.{◌≡◌, ◌≢◌, ◌<◌, ◌≤◌, ◌^◌, ◌+◌, ◌*◌, ℕ, List, length, filter, map, All, nat_lt, ◌==◌, ◌||◌, Some, None, IfOk, IfErr};
ghost use Rattle.std.specs.List.{list_any};
ghost use Rattle.elf_image.specs.Headers.{file_header, program_headers};
ghost use Rattle.elf_image.specs.Private.Layout.{IsLoadable};
ghost use Rattle.elf_image.specs.Segments.{header_place, is_load, is_occupied, load_headers, occupied_headers, rights_of, segment_of};
ghost use Rattle.elf_image.specs.Tests.{file_part_tests, first_of, place_tests, segment_tests, type_tests};
ghost use Rattle.elf_image.specs.Private.Checks.{unless_refused};
ghost use Rattle.elf_image.specs.declared.error.ElfError.TheVariants as error;

use crate::headers::{FileHeader, PROGRAM_HEADER_SIZE, ProgramHeader};
use crate::{ElfError, Segment};
use guest_words::{Addr, MMAP_BASE, Rights};
use std::alloc::{AllocError, Global};

// The type of a load segment.
const PT_LOAD: u32 = 1;

// The type of the segment that names an interpreter.
const PT_INTERP: u32 = 3;

// The least address of a segment.
const LOWEST_ADDRESS: u32 = 0x1000;

// All program headers.
fn program_headers(
    alloc: Global,
    file: &[u8],
    header: &FileHeader,
) -> Result<Vec<ProgramHeader>, AllocError>
    requires header { header.now ≡ file_header file.now }
    requires table { header.now.e_phoff + 32 * header.now.e_phnum ≤ length file.now }
    ensures { IfOk result (λ headers. headers.items ≡ program_headers file.now) }
{
    let first = header.e_phoff as usize;
    let count = header.e_phnum as usize;
    let mut headers = Vec::with_capacity(alloc, count)?;
    for i in 0..count {
        headers.push(ProgramHeader::at(file, first + PROGRAM_HEADER_SIZE * i))?;
    }
    Ok(headers)
}

// Drops the headers that are not of load segments.
fn keep_loads(headers: &mut Vec<ProgramHeader>)
    ensures { headers.new.items ≡ filter is_load headers.old.items }
{
    headers.retain(|h| h.p_type == PT_LOAD);
}

// Drops the headers of segments that take no memory.
fn keep_occupied(headers: &mut Vec<ProgramHeader>)
    ensures { headers.new.items ≡ filter is_occupied headers.old.items }
{
    headers.retain(|h| h.p_memsz != 0);
}

// Whether there is the name of an interpreter.
fn names_interpreter(headers: &[ProgramHeader]) -> bool
    ensures { result ≡ list_any (λ h. h.p_type == 3) headers.now }
{
    headers.iter().any(|h| h.p_type == PT_INTERP)
}

// Whether the file part of a segment is larger than the segment.
fn is_oversized(headers: &[ProgramHeader]) -> bool
    ensures { result ≡ list_any (λ h. nat_lt h.p_memsz h.p_filesz) headers.now }
{
    headers.iter().any(|h| h.p_filesz > h.p_memsz)
}

// Whether the file part of a segment ends past the file's end.
fn is_cut_off(headers: &[ProgramHeader], file_size: usize) -> bool
    ensures { result ≡ list_any (λ h. nat_lt file_size (h.p_offset + h.p_filesz)) headers.now }
{
    headers.iter().any(|h| h.p_offset as u64 + h.p_filesz as u64 > file_size as u64)
}

// Whether a segment lies too low or too high.
fn is_misplaced(headers: &[ProgramHeader]) -> bool
    ensures { result ≡ list_any (λ h. nat_lt h.p_vaddr 0x1000
        || nat_lt 0x40000000 (h.p_vaddr + h.p_memsz)) headers.now }
{
    headers.iter().any(|h| h.p_vaddr < LOWEST_ADDRESS
        || h.p_vaddr as u64 + h.p_memsz as u64 > MMAP_BASE as u64)
}

// The tests of the types of segments.
fn check_types(headers: &[ProgramHeader]) -> Result<(), ElfError>
    ensures { (file : List ℕ) → headers.now ≡ program_headers file
        → result ≡ unless_refused (first_of (type_tests file)) }
{
    if names_interpreter(headers) {
        return Err(ElfError::Interpreter);
    }
    Ok(())
}

// The tests of the file parts of load segments.
fn check_file_parts(file: &[u8], loads: &[ProgramHeader]) -> Result<(), ElfError>
    requires { loads.now ≡ load_headers file.now }
    ensures { result ≡ unless_refused (first_of (file_part_tests file.now)) }
{
    if is_cut_off(loads, file.len()) {
        return Err(ElfError::SegmentFile);
    }
    if is_oversized(loads) {
        return Err(ElfError::SegmentSize);
    }
    Ok(())
}

// The tests of the places of load segments that take memory.
fn check_places(occupied: &[ProgramHeader]) -> Result<(), ElfError>
    ensures { (file : List ℕ) → occupied.now ≡ occupied_headers file
        → result ≡ unless_refused (first_of (place_tests file)) }
{
    if is_misplaced(occupied) {
        return Err(ElfError::SegmentPlace);
    }
    Ok(())
}

/// The headers of the load segments that take memory, where each passes the tests.
#[tactic(auto, unfolding(crate::specs::Segments::load_headers, crate::specs::Segments::occupied_headers))]
pub(crate) fn check_segments(
    alloc: Global,
    file: &[u8],
    header: &FileHeader,
) -> Result<Vec<ProgramHeader>, ElfError>
    requires header { header.now ≡ file_header file.now }
    requires table { header.now.e_phoff + 32 * header.now.e_phnum ≤ length file.now }
    ensures refused { IfErr result (λ e. e ≢ error.Memory
        → first_of (segment_tests file.now) ≡ Some e) }
    ensures passed { IfOk result (λ _. first_of (segment_tests file.now) ≡ None) }
    ensures occupied { IfOk result (λ headers. headers.items ≡ occupied_headers file.now) }
{
    let mut headers = program_headers(alloc, file, header)?;
    check_types(&headers)?;
    keep_loads(&mut headers);
    check_file_parts(file, &headers)?;
    keep_occupied(&mut headers);
    check_places(&headers)?;
    Ok(headers)
}

// What may be done with a segment, by its flags.
fn rights(flags: u32) -> Rights
    ensures { result ≡ rights_of flags }
{
    Rights {
        read: flags / 4 % 2 == 1,
        write: flags / 2 % 2 == 1,
        exec: flags % 2 == 1,
    }
}

// The segment of a header.
fn segment(alloc: Global, file: &[u8], h: &ProgramHeader) -> Result<Segment, AllocError>
    requires { h.now.p_offset + h.now.p_filesz ≤ length file.now }
    ensures { IfOk result (λ s. s ≡ segment_of file.now h.now) }
{
    let begin = h.p_offset as usize;
    let part = &file[begin..begin + h.p_filesz as usize];
    let bytes = Vec::from_slice(alloc, part)?;
    Ok(Segment {
        place: h.p_vaddr,
        size: h.p_memsz,
        rights: rights(h.p_flags),
        bytes,
    })
}

/// The segments of headers, in their order.
pub(crate) fn segments(
    alloc: Global,
    file: &[u8],
    headers: &[ProgramHeader],
) -> Result<Vec<Segment>, AllocError>
    requires { All (IsLoadable (length file.now)) headers.now }
    ensures { IfOk result (λ v. v.items ≡ map (segment_of file.now) headers.now) }
{
    let mut segments = Vec::with_capacity(alloc, headers.len())?;
    for h in headers {
        segments.push(segment(alloc, file, h)?)?;
    }
    Ok(segments)
}

/// The address of the program headers in the first segment whose file part holds them all, or 0.
pub(crate) fn header_place(file: &[u8], header: &FileHeader, headers: &[ProgramHeader]) -> Addr
    requires header { header.now ≡ file_header file.now }
    requires headers { headers.now ≡ occupied_headers file.now }
    requires loadable { All (IsLoadable (length file.now)) headers.now }
    ensures value { result ≡ header_place file.now }
    ensures range { result < 2 ^ 32 }
{
    let end = header.e_phoff as u64 + PROGRAM_HEADER_SIZE as u64 * header.e_phnum as u64;
    for h in headers {
        if h.p_offset <= header.e_phoff && end <= h.p_offset as u64 + h.p_filesz as u64 {
            return h.p_vaddr + (header.e_phoff - h.p_offset);
        }
    }
    0
}
