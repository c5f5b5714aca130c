//! The symbol table of an executable and its strings.
ghost use Rattle.std.specs.Prelude.{◌≡◌, ◌≤◌, ◌<◌, ◌^◌, ◌++◌, length, IfOk, OnOk};
ghost use Rattle.rv_asm.specs.Executable.{padding, section_headers, string_of, string_table, symbol_entry, symbol_table};
ghost use Rattle.rv_asm.specs.Fields.{bytes_of, symbol_fields};

use crate::executable::Symbol;
use crate::headers::{SectionHeader, SymbolEntry};
use std::alloc::{AllocError, Global};

// Appends a name and the zero byte that ends it.
fn push_string(strings: &mut Vec<u8>, symbol: &Symbol) -> Result<(), AllocError>
    ensures { OnOk result (strings.new.items ≡ strings.old.items ++ string_of symbol.now) }
{
    strings.extend_from_slice(symbol.name.bytes())?;
    strings.push(0)?;
    Ok(())
}

/// The string table: the empty name, and then the names in order.
#[tactic(auto, unfolding(crate::specs::Executable::string_table))]
pub(crate) fn string_table(alloc: Global, symbols: &[Symbol]) -> Result<Vec<u8>, AllocError>
    ensures { IfOk result (λ strings. strings.items ≡ string_table symbols.now) }
{
    let mut strings = Vec::from_slice(alloc, &[0])?;
    for symbol in symbols {
        push_string(&mut strings, symbol)?;
    }
    Ok(strings)
}

// Appends the entry of a symbol: a global symbol of a routine, with an absolute value.
fn push_symbol(file: &mut Vec<u8>, st_name: u32, symbol: &Symbol) -> Result<(), AllocError>
    ensures { OnOk result (file.new.items
        ≡ file.old.items ++ bytes_of (symbol_fields (symbol_entry st_name symbol.now))) }
{
    let entry = SymbolEntry {
        st_name,
        st_value: symbol.at,
        st_size: 0,
        st_info: 0x12,
        st_other: 0,
        st_shndx: 0xfff1,
    };
    entry.push(file)
}

/// Appends the symbol table.
#[tactic(auto, unfolding(crate::specs::Executable::string_table, crate::specs::Executable::symbol_table))]
pub(crate) fn push_symbols(file: &mut Vec<u8>, symbols: &[Symbol]) -> Result<(), AllocError>
    requires { length (string_table symbols.now) < 2 ^ 32 }
    ensures { OnOk result (file.new.items ≡ file.old.items ++ symbol_table symbols.now) }
{
    file.extend_from_slice(&[0; 16])?;
    let mut st_name = 1;
    for symbol in symbols {
        push_symbol(file, st_name, symbol)?;
        st_name += symbol.name.bytes().len() as u32 + 1;
    }
    Ok(())
}

/// Appends zeros up to the next multiple of 4 of an offset.
pub(crate) fn push_padding(file: &mut Vec<u8>, offset: u32) -> Result<(), AllocError>
    ensures { OnOk result (file.new.items ≡ file.old.items ++ padding offset) }
{
    let zeros = [0; 4];
    file.extend_from_slice(&zeros[..((4 - offset % 4) % 4) as usize])
}

/// Appends the section headers: the empty one, the symbol table's and that of its strings.
pub(crate) fn push_section_headers(
    file: &mut Vec<u8>,
    symbols_begin: u32,
    strings_begin: u32,
    strings_size: u32,
) -> Result<(), AllocError>
    requires { symbols_begin ≤ strings_begin }
    ensures { OnOk result (file.new.items
        ≡ file.old.items ++ section_headers symbols_begin strings_begin strings_size) }
{
    file.extend_from_slice(&[0; 40])?;
    let symbols = SectionHeader {
        sh_name: 0,
        sh_type: 2,
        sh_flags: 0,
        sh_addr: 0,
        sh_offset: symbols_begin,
        sh_size: strings_begin - symbols_begin,
        sh_link: 2,
        sh_info: 1,
        sh_addralign: 4,
        sh_entsize: 16,
    };
    symbols.push(file)?;
    let strings = SectionHeader {
        sh_name: 0,
        sh_type: 3,
        sh_flags: 0,
        sh_addr: 0,
        sh_offset: strings_begin,
        sh_size: strings_size,
        sh_link: 0,
        sh_info: 0,
        sh_addralign: 1,
        sh_entsize: 0,
    };
    strings.push(file)
}
