//! Executables: ELF files of one segment, which holds the headers and the code.
ghost use Rattle.std.specs.Prelude.{◌≡◌, ◌≤◌, ◌<◌, ◌+◌, ◌*◌, ◌^◌, ◌++◌, length, IfOk, OnOk};
ghost use Rattle.rv_asm.specs.Executable.{e_ident, executable, file_header, image_bytes, named_file, plain_file, program_header, strings_end};
ghost use Rattle.rv_asm.specs.Fields.{bytes_of, file_fields, program_fields};

use crate::builder::Code;
use crate::fields::push_words;
use crate::headers::{FileHeader, ProgramHeader};
use crate::symbols::{push_padding, push_section_headers, push_symbols, string_table};
use guest_words::limits::FILE_BYTES;
use guest_words::{Addr, Name};
use std::alloc::{AllocError, Global};

/// A routine of a program: its name, and the address where it begins.
#[derive(Drop)]
pub struct Symbol {
    pub name: Name,
    pub at: Addr,
}

// The first bytes of each file (e_ident).
const IDENT: [u8; 16] = [0x7f, 0x45, 0x4c, 0x46, 1, 1, 1, 0, 0, 0, 0, 0, 0, 0, 0, 0];

// The address where the file's first byte is loaded.
const ADDRESS: u32 = 0x1_0000;

/// The address of the first word of code, where the program begins to run.
pub const ENTRY: Addr = 0x1_0054;

// The size of the file header and the program header.
const HEADERS: u32 = 84;

// The size of an entry of the symbol table.
const SYMBOL_SIZE: u32 = 16;

// Appends the file header, with the section headers at a place.
fn push_file_header(file: &mut Vec<u8>, e_shoff: u32, e_shnum: u16) -> Result<(), AllocError>
    ensures { OnOk result (file.new.items
        ≡ file.old.items ++ (e_ident ++ bytes_of (file_fields (file_header e_shoff e_shnum)))) }
{
    file.extend_from_slice(&IDENT)?;
    let header = FileHeader {
        e_type: 2,
        e_machine: 243,
        e_version: 1,
        e_entry: ENTRY,
        e_phoff: 52,
        e_shoff,
        e_flags: 0,
        e_ehsize: 52,
        e_phentsize: 32,
        e_phnum: 1,
        e_shentsize: 40,
        e_shnum,
        e_shstrndx: 0,
    };
    header.push(file)
}

// Appends the header of the segment, which holds the first bytes of the file.
fn push_program_header(file: &mut Vec<u8>, size: u32) -> Result<(), AllocError>
    ensures { OnOk result (file.new.items
        ≡ file.old.items ++ bytes_of (program_fields (program_header size))) }
{
    let header = ProgramHeader {
        p_type: 1,
        p_offset: 0,
        p_vaddr: ADDRESS,
        p_paddr: ADDRESS,
        p_filesz: size,
        p_memsz: size,
        p_flags: 7,
        p_align: 4096,
    };
    header.push(file)
}

// Appends the headers and the code.
#[tactic(auto, unfolding(crate::specs::Executable::image_bytes))]
fn push_image(
    file: &mut Vec<u8>,
    words: &[u32],
    e_shoff: u32,
    e_shnum: u16,
) -> Result<(), AllocError>
    requires { 84 + 4 * length words.now < 2 ^ 32 }
    ensures { OnOk result (file.new.items
        ≡ file.old.items ++ image_bytes words.now e_shoff e_shnum) }
{
    push_file_header(file, e_shoff, e_shnum)?;
    push_program_header(file, HEADERS + 4 * words.len() as u32)?;
    push_words(file, words)
}

// The file without symbols.
#[tactic(auto, unfolding(crate::specs::Executable::plain_file))]
fn plain_file(alloc: Global, words: &[u32]) -> Result<Vec<u8>, AllocError>
    requires { 84 + 4 * length words.now < 2 ^ 32 }
    ensures { IfOk result (λ file. file.items ≡ plain_file words.now) }
{
    let mut file = Vec::new(alloc);
    push_image(&mut file, words, 0, 0)?;
    Ok(file)
}

// The file with symbols.
#[tactic(auto, unfolding(crate::specs::Executable::named_file))]
fn named_file(alloc: Global, words: &[u32], symbols: &[Symbol]) -> Result<Vec<u8>, AllocError>
    requires { strings_end words.now symbols.now + 4 < 2 ^ 32 }
    ensures { IfOk result (λ file. file.items ≡ named_file words.now symbols.now) }
{
    let strings = string_table(alloc, symbols)?;
    let code_end = HEADERS + 4 * words.len() as u32;
    let strings_begin = code_end + SYMBOL_SIZE * (symbols.len() as u32 + 1);
    let strings_size = strings.len() as u32;
    let strings_end = strings_begin + strings_size;
    let mut file = Vec::new(alloc);
    push_image(&mut file, words, strings_end.next_multiple_of(4), 3)?;
    push_symbols(&mut file, symbols)?;
    file.extend_from_slice(&strings)?;
    push_padding(&mut file, strings_end)?;
    push_section_headers(&mut file, code_end, strings_begin, strings_size)?;
    Ok(file)
}

/// The executable of a program; its first word is loaded at 0x10054, where it begins to run. The symbols name its routines.
pub fn write_exec(alloc: Global, code: &Code, symbols: &[Symbol]) -> Result<Vec<u8>, AllocError>
    requires some { 1 ≤ length code.now }
    requires size { length (executable code.now symbols.now) ≤ FILE_BYTES }
    ensures file { IfOk result (λ file. file.items ≡ executable code.now symbols.now) }
{
    if symbols.is_empty() {
        plain_file(alloc, code.words())
    } else {
        named_file(alloc, code.words(), symbols)
    }
}
