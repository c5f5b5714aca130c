//! The tests of the file header.
ghost use Rattle.std.specs.Prelude.{◌≡◌, ◌<◌, ◌≤◌, ◌+◌, ◌*◌, length, IfOk, IfErr, OnOk};
ghost use Rattle.elf_image.specs.Headers.{file_header};
ghost use Rattle.elf_image.specs.Tests.{first_of, format_tests, header_tests, kind_tests, table_tests};
ghost use Rattle.elf_image.specs.Private.Checks.{unless_refused};

use crate::ElfError;
use crate::headers::{FileHeader, PROGRAM_HEADER_SIZE};

// The tests of the first 16 bytes and of the version.
fn check_format(file: &[u8], header: &FileHeader) -> Result<(), ElfError>
    requires long { 52 ≤ length file.now }
    requires header { header.now ≡ file_header file.now }
    ensures { result ≡ unless_refused (first_of (format_tests file.now)) }
{
    if !(file[0] == 0x7f && file[1] == b'E' && file[2] == b'L' && file[3] == b'F') {
        return Err(ElfError::Magic);
    }
    if file[4] != 1 {
        return Err(ElfError::Class);
    }
    if file[5] != 1 {
        return Err(ElfError::ByteOrder);
    }
    if file[6] != 1 || header.e_version != 1 {
        return Err(ElfError::Version);
    }
    Ok(())
}

// The tests of what the file is for.
fn check_kind(file: &[u8], header: &FileHeader) -> Result<(), ElfError>
    requires { header.now ≡ file_header file.now }
    ensures { result ≡ unless_refused (first_of (kind_tests file.now)) }
{
    if header.e_type != 2 {
        return Err(ElfError::FileKind);
    }
    if header.e_machine != 243 {
        return Err(ElfError::Machine);
    }
    if header.e_flags % 16 != 0 {
        return Err(ElfError::Flags);
    }
    Ok(())
}

// The tests of the program headers' size and place.
fn check_table(file: &[u8], header: &FileHeader) -> Result<(), ElfError>
    requires { header.now ≡ file_header file.now }
    ensures { result ≡ unless_refused (first_of (table_tests file.now)) }
{
    if header.e_ehsize != 52
        || (header.e_phnum != 0 && header.e_phentsize as usize != PROGRAM_HEADER_SIZE)
    {
        return Err(ElfError::HeaderSize);
    }
    let end = header.e_phoff as usize + PROGRAM_HEADER_SIZE * header.e_phnum as usize;
    if header.e_phnum == 0xffff || end > file.len() {
        return Err(ElfError::HeaderTable);
    }
    Ok(())
}

/// The header of a file that passes its tests.
pub(crate) fn check_header(file: &[u8]) -> Result<FileHeader, ElfError>
    ensures refused { IfErr result (λ e. first_of (header_tests file.now) ≡ Some e) }
    ensures passed { IfOk result (λ _. first_of (header_tests file.now) ≡ None) }
    ensures header { IfOk result (λ header. header ≡ file_header file.now) }
    ensures long { OnOk result (52 ≤ length file.now) }
    ensures table { IfOk result (λ header. header.e_phoff + 32 * header.e_phnum ≤ length file.now) }
    ensures count { IfOk result (λ header. header.e_phnum < 65535) }
{
    if file.len() < 52 {
        return Err(ElfError::Short);
    }
    let header = FileHeader::of(file);
    check_format(file, &header)?;
    check_kind(file, &header)?;
    check_table(file, &header)?;
    Ok(header)
}
