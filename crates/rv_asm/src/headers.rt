//! The headers of an ELF file and the entries of its symbol table, by the names of the ELF gABI.
ghost use Rattle.std.specs.Prelude.{◌≡◌, ◌++◌, OnOk};
ghost use Rattle.rv_asm.specs.Fields.{bytes_of, file_fields, program_fields, section_fields, symbol_fields};

use crate::fields::Field::{Byte, Half, Word};
use crate::fields::push_fields;
use std::alloc::AllocError;

/// The file header (Elf32_Ehdr) behind its first 16 bytes.
#[derive(Clone, Copy)]
pub(crate) struct FileHeader {
    pub(crate) e_type: u16,
    pub(crate) e_machine: u16,
    pub(crate) e_version: u32,
    pub(crate) e_entry: u32,
    pub(crate) e_phoff: u32,
    pub(crate) e_shoff: u32,
    pub(crate) e_flags: u32,
    pub(crate) e_ehsize: u16,
    pub(crate) e_phentsize: u16,
    pub(crate) e_phnum: u16,
    pub(crate) e_shentsize: u16,
    pub(crate) e_shnum: u16,
    pub(crate) e_shstrndx: u16,
}

impl FileHeader {
    /// Appends the header's fields.
    pub(crate) fn push(&self, file: &mut Vec<u8>) -> Result<(), AllocError>
        ensures { OnOk result (file.new.items ≡ file.old.items ++ bytes_of (file_fields self.now)) }
    {
        let fields = [
            Half(self.e_type),
            Half(self.e_machine),
            Word(self.e_version),
            Word(self.e_entry),
            Word(self.e_phoff),
            Word(self.e_shoff),
            Word(self.e_flags),
            Half(self.e_ehsize),
            Half(self.e_phentsize),
            Half(self.e_phnum),
            Half(self.e_shentsize),
            Half(self.e_shnum),
            Half(self.e_shstrndx),
        ];
        push_fields(file, &fields)
    }
}

/// A program header (Elf32_Phdr).
#[derive(Clone, Copy)]
pub(crate) struct ProgramHeader {
    pub(crate) p_type: u32,
    pub(crate) p_offset: u32,
    pub(crate) p_vaddr: u32,
    pub(crate) p_paddr: u32,
    pub(crate) p_filesz: u32,
    pub(crate) p_memsz: u32,
    pub(crate) p_flags: u32,
    pub(crate) p_align: u32,
}

impl ProgramHeader {
    /// Appends the header's fields.
    pub(crate) fn push(&self, file: &mut Vec<u8>) -> Result<(), AllocError>
        ensures { OnOk result (file.new.items
            ≡ file.old.items ++ bytes_of (program_fields self.now)) }
    {
        let fields = [
            Word(self.p_type),
            Word(self.p_offset),
            Word(self.p_vaddr),
            Word(self.p_paddr),
            Word(self.p_filesz),
            Word(self.p_memsz),
            Word(self.p_flags),
            Word(self.p_align),
        ];
        push_fields(file, &fields)
    }
}

/// A section header (Elf32_Shdr).
#[derive(Clone, Copy)]
pub(crate) struct SectionHeader {
    pub(crate) sh_name: u32,
    pub(crate) sh_type: u32,
    pub(crate) sh_flags: u32,
    pub(crate) sh_addr: u32,
    pub(crate) sh_offset: u32,
    pub(crate) sh_size: u32,
    pub(crate) sh_link: u32,
    pub(crate) sh_info: u32,
    pub(crate) sh_addralign: u32,
    pub(crate) sh_entsize: u32,
}

impl SectionHeader {
    /// Appends the header's fields.
    pub(crate) fn push(&self, file: &mut Vec<u8>) -> Result<(), AllocError>
        ensures { OnOk result (file.new.items
            ≡ file.old.items ++ bytes_of (section_fields self.now)) }
    {
        let fields = [
            Word(self.sh_name),
            Word(self.sh_type),
            Word(self.sh_flags),
            Word(self.sh_addr),
            Word(self.sh_offset),
            Word(self.sh_size),
            Word(self.sh_link),
            Word(self.sh_info),
            Word(self.sh_addralign),
            Word(self.sh_entsize),
        ];
        push_fields(file, &fields)
    }
}

/// An entry of a symbol table (Elf32_Sym).
#[derive(Clone, Copy)]
pub(crate) struct SymbolEntry {
    pub(crate) st_name: u32,
    pub(crate) st_value: u32,
    pub(crate) st_size: u32,
    pub(crate) st_info: u8,
    pub(crate) st_other: u8,
    pub(crate) st_shndx: u16,
}

impl SymbolEntry {
    /// Appends the entry's fields.
    pub(crate) fn push(&self, file: &mut Vec<u8>) -> Result<(), AllocError>
        ensures { OnOk result (file.new.items
            ≡ file.old.items ++ bytes_of (symbol_fields self.now)) }
    {
        let fields = [
            Word(self.st_name),
            Word(self.st_value),
            Word(self.st_size),
            Byte(self.st_info),
            Byte(self.st_other),
            Half(self.st_shndx),
        ];
        push_fields(file, &fields)
    }
}
