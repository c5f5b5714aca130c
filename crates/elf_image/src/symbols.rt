//! The symbols of a file that name routines.
ghost use Rattle.std.specs.Prelude.{◌≡◌, ◌<◌, ◌≤◌, ◌+◌, true, Some, None, length, option_map, if◌then◌else◌, IfOk, IfSome};
ghost use Rattle.guest_words.specs.Names.{is_name};
ghost use Rattle.elf_image.specs.Symbols.{has_sections, is_in_file, is_readable, is_zero, name_in, rank_of, section_bytes, symbol_at, symbol_table};
ghost use Rattle.elf_image.specs.Headers.{file_header, section_header};
ghost use Rattle.elf_image.specs.Private.Places.{IsNamed, placed};
ghost use Rattle.std.specs.List.{position};

use crate::headers::{FileHeader, SectionHeader, half_at, word_at};
use guest_words::limits::NAME_BYTES;
use guest_words::{Addr, Name, NameError};
use memchr::memchr;
use std::alloc::{AllocError, Global};

// The type of symbols of routines.
const STT_FUNC: u8 = 2;

// The section index of an undefined symbol.
const SHN_UNDEF: u16 = 0;

// The type of a symbol table.
const SHT_SYMTAB: u32 = 2;

// The type of a string table.
const SHT_STRTAB: u32 = 3;

// The size of a section header (Elf32_Shdr).
const SECTION_HEADER_SIZE: usize = 40;

/// The size of a symbol (Elf32_Sym).
pub(crate) const SYMBOL_SIZE: usize = 16;

/// A symbol that counts: its value, the rank of its binding (the lowest goes first), and where its name stands among the
/// strings of its table.
#[derive(Clone, Copy)]
pub(crate) struct SymbolPlace {
    pub(crate) value: Addr,
    pub(crate) rank: u8,
    pub(crate) start: u32,
    pub(crate) len: u32,
}

// The place of the first zero byte.
fn first_zero(bytes: &[u8]) -> Option<usize>
    ensures { result ≡ position is_zero bytes.now }
{
    memchr(0, bytes)
}

// The name of these bytes, if they are one.
fn name_of(alloc: Global, bytes: &[u8]) -> Result<Option<Name>, AllocError>
    ensures { IfOk result (λ name. name ≡ (if is_name bytes.now then Some bytes.now else None)) }
{
    match Name::new(alloc, bytes) {
        Ok(name) => Ok(Some(name)),
        Err(NameError::Bad) => Ok(None),
        Err(NameError::Memory) => Err(AllocError),
    }
}

// The name that begins at an offset of a string table and ends before the next zero byte. No byte is read past the end
// of the longest name.
fn name_in(alloc: Global, strings: &[u8], offset: usize) -> Result<Option<Name>, AllocError>
    ensures { IfOk result (λ name. name ≡ name_in strings.now offset) }
{
    if offset >= strings.len() {
        return Ok(None);
    }
    let end = strings.len().min(offset + NAME_BYTES + 1);
    let window = &strings[offset..end];
    match first_zero(window) {
        None => Ok(None),
        Some(len) => name_of(alloc, &window[..len]),
    }
}

// Which of several symbols goes first, by the binding: the lowest.
fn rank_of(binding: u8) -> u8
    ensures { result ≡ rank_of binding }
{
    match binding {
        1 => 0,
        2 => 1,
        0 => 2,
        _ => 3,
    }
}

/// The symbol (Elf32_Sym) at a place, where it counts. Its name is made to be tested, and not kept.
#[tactic(auto, unfolding(crate::specs::Symbols::symbol_at))]
pub(crate) fn symbol_at(
    alloc: Global,
    file: &[u8],
    strings: &[u8],
    at: usize,
) -> Result<Option<SymbolPlace>, AllocError>
    requires { at + 16 ≤ length file.now }
    ensures symbol { IfOk result (λ place. option_map (placed strings.now) place
        ≡ symbol_at file.now strings.now at) }
    ensures named { IfOk result (λ place. IfSome place (IsNamed strings.now)) }
{
    let info = file[at + 12];
    if info % 16 != STT_FUNC || half_at(file, at + 14) == SHN_UNDEF {
        return Ok(None);
    }
    let value = word_at(file, at + 4);
    let start = word_at(file, at);
    match name_in(alloc, strings, start as usize)? {
        None => Ok(None),
        Some(name) => Ok(Some(SymbolPlace {
            value,
            rank: rank_of(info / 16),
            start,
            len: name.bytes().len() as u32,
        })),
    }
}

/// The bytes of a section.
pub(crate) fn section_bytes<'a>(file: &'a [u8], section: &SectionHeader) -> &'a [u8]
    requires { section.now.sh_offset + section.now.sh_size ≤ length file.now }
    ensures { result.now ≡ section_bytes file.now section.now }
{
    let begin = section.sh_offset as usize;
    &file[begin..begin + section.sh_size as usize]
}

/// The section header with this index.
pub(crate) fn section_header(file: &[u8], header: &FileHeader, i: u32) -> SectionHeader
    requires header { header.now ≡ file_header file.now }
    requires sections { has_sections file.now ≡ true }
    requires index { i < header.now.e_shnum }
    ensures { result ≡ section_header file.now i }
{
    SectionHeader::at(
        file,
        header.e_shoff as usize + SECTION_HEADER_SIZE * i as usize,
    )
}

// Whether section headers are of their size, and all in the file.
fn has_sections(file: &[u8], header: &FileHeader) -> bool
    requires { header.now ≡ file_header file.now }
    ensures { result ≡ has_sections file.now }
{
    let end = header.e_shoff as usize + SECTION_HEADER_SIZE * header.e_shnum as usize;
    header.e_shentsize as usize == SECTION_HEADER_SIZE && end <= file.len()
}

/// The first symbol table.
pub(crate) fn symbol_table(file: &[u8], header: &FileHeader) -> Option<SectionHeader>
    requires { header.now ≡ file_header file.now }
    ensures { result ≡ symbol_table file.now }
{
    if !has_sections(file, header) {
        return None;
    }
    for i in 0..header.e_shnum as u32 {
        let section = section_header(file, header, i);
        if section.sh_type == SHT_SYMTAB {
            return Some(section);
        }
    }
    None
}

// Whether a section is all in the file.
fn is_in_file(file: &[u8], section: &SectionHeader) -> bool
    ensures { result ≡ is_in_file file.now section.now }
{
    section.sh_offset as usize + section.sh_size as usize <= file.len()
}

/// Whether a symbol table can be read.
pub(crate) fn is_readable(file: &[u8], header: &FileHeader, table: &SectionHeader) -> bool
    requires header { header.now ≡ file_header file.now }
    requires sections { has_sections file.now ≡ true }
    ensures { result ≡ is_readable file.now table.now }
{
    if table.sh_entsize as usize != SYMBOL_SIZE || table.sh_link >= header.e_shnum as u32 {
        return false;
    }
    let strings = section_header(file, header, table.sh_link);
    strings.sh_type == SHT_STRTAB && is_in_file(file, table) && is_in_file(file, &strings)
}
