//! The headers of an ELF file, by the names of the ELF gABI.
ghost use Rattle.std.specs.Prelude.{◌≡◌, ◌≤◌, ◌+◌, length};
ghost use Rattle.elf_image.specs.Headers.{file_header, half_at, program_header_at, section_header_at, word_at};

use guest_words::{le16, le32};

/// The 16-bit field at a place of the file.
#[tactic(auto, unfolding(crate::specs::Headers::half_at))]
pub(crate) fn half_at(file: &[u8], at: usize) -> u16
    requires { at + 2 ≤ length file.now }
    ensures { result ≡ half_at file.now at }
{
    le16(file, at)
}

/// The 32-bit field at a place of the file.
#[tactic(auto, unfolding(crate::specs::Headers::word_at))]
pub(crate) fn word_at(file: &[u8], at: usize) -> u32
    requires { at + 4 ≤ length file.now }
    ensures { result ≡ word_at file.now at }
{
    le32(file, at)
}

/// The file header (Elf32_Ehdr), but for its first 16 bytes.
#[derive(Clone, Copy)]
pub(crate) struct FileHeader {
    pub(crate) e_type: u16,
    pub(crate) e_machine: u16,
    pub(crate) e_version: u32,
    pub(crate) e_entry: u32,
    pub(crate) e_phoff: u32,
    pub(crate) e_shoff: u32,
    pub(crate) e_flags: u32,
    pub(crate) e_ehsize: u16,
    pub(crate) e_phentsize: u16,
    pub(crate) e_phnum: u16,
    pub(crate) e_shentsize: u16,
    pub(crate) e_shnum: u16,
}

impl FileHeader {
    /// The header of a file.
    pub(crate) fn of(file: &[u8]) -> FileHeader
        requires { 52 ≤ length file.now }
        ensures { result ≡ file_header file.now }
    {
        FileHeader {
            e_type: half_at(file, 16),
            e_machine: half_at(file, 18),
            e_version: word_at(file, 20),
            e_entry: word_at(file, 24),
            e_phoff: word_at(file, 28),
            e_shoff: word_at(file, 32),
            e_flags: word_at(file, 36),
            e_ehsize: half_at(file, 40),
            e_phentsize: half_at(file, 42),
            e_phnum: half_at(file, 44),
            e_shentsize: half_at(file, 46),
            e_shnum: half_at(file, 48),
        }
    }
}

/// How many bytes a program header has.
pub const PROGRAM_HEADER_SIZE: usize = 32;

/// A program header (Elf32_Phdr), but for p_paddr and p_align.
#[derive(Clone, Copy)]
pub(crate) struct ProgramHeader {
    pub(crate) p_type: u32,
    pub(crate) p_offset: u32,
    pub(crate) p_vaddr: u32,
    pub(crate) p_filesz: u32,
    pub(crate) p_memsz: u32,
    pub(crate) p_flags: u32,
}

impl ProgramHeader {
    /// The header at a place.
    pub(crate) fn at(file: &[u8], at: usize) -> ProgramHeader
        requires { at + 32 ≤ length file.now }
        ensures { result ≡ program_header_at file.now at }
    {
        ProgramHeader {
            p_type: word_at(file, at),
            p_offset: word_at(file, at + 4),
            p_vaddr: word_at(file, at + 8),
            p_filesz: word_at(file, at + 16),
            p_memsz: word_at(file, at + 20),
            p_flags: word_at(file, at + 24),
        }
    }
}

/// A section header (Elf32_Shdr), as far as names need it.
#[derive(Clone, Copy)]
pub(crate) struct SectionHeader {
    pub(crate) sh_type: u32,
    pub(crate) sh_offset: u32,
    pub(crate) sh_size: u32,
    pub(crate) sh_link: u32,
    pub(crate) sh_entsize: u32,
}

impl SectionHeader {
    /// The header at a place.
    pub(crate) fn at(file: &[u8], at: usize) -> SectionHeader
        requires { at + 40 ≤ length file.now }
        ensures { result ≡ section_header_at file.now at }
    {
        SectionHeader {
            sh_type: word_at(file, at + 4),
            sh_offset: word_at(file, at + 16),
            sh_size: word_at(file, at + 20),
            sh_link: word_at(file, at + 24),
            sh_entsize: word_at(file, at + 36),
        }
    }
}
