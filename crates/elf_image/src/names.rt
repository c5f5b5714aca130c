//! Which symbol names an address.
ghost use Rattle.std.specs.Prelude.{◌≡◌, ◌≤◌, ◌+◌, ◌/◌, ◌==◌, ◌++◌, ◌∷◌, [], ℕ, List, All, filter, length, map, option_map, IfOk, IfSome, OnOk};
ghost use Rattle.std.specs.List.{cons_option, range_with_len};
ghost use Rattle.std.specs.List.Sorted.{IsNonDecreasingBy, IsPermutation};
ghost use Rattle.elf_image.specs.Private.FirstSymbols.{AreFirst, IsEntry, entry_at, symbols_of_entries};
ghost use Rattle.elf_image.specs.Headers.{file_header, section_header};
ghost use Rattle.elf_image.specs.Private.Places.{IsNamed, placed};
ghost use Rattle.elf_image.specs.Symbols.{Symbol, goes_before, section_bytes, symbols, symbols_in};

use crate::headers::{FileHeader, SectionHeader, word_at};
use crate::symbol_names::{SymbolNames, name_of};
use crate::symbols::{
    SYMBOL_SIZE, SymbolPlace, is_readable, section_bytes, section_header, symbol_at, symbol_table,
};
use guest_words::Addr;
use std::alloc::{AllocError, Global};
use std::cmp::Ordering;

// An entry of a symbol table: its value, and its number in the table.
#[derive(Clone, Copy)]
struct Entry {
    value: Addr,
    index: u32,
}

// Whether a symbol goes before another at the same value.
fn goes_before(strings: &[u8], s: SymbolPlace, t: SymbolPlace) -> bool
    requires first { IsNamed strings.now s }
    requires second { IsNamed strings.now t }
    ensures { result ≡ goes_before (placed strings.now s) (placed strings.now t) }
{
    if s.rank != t.rank {
        return s.rank < t.rank;
    }
    name_of(strings, s).cmp(name_of(strings, t)) == Ordering::Less
}

// One more symbol, whose value is not below those seen.
fn merge_symbol(
    strings: &[u8],
    first: &mut Vec<SymbolPlace>,
    symbol: SymbolPlace,
) -> Result<(), AllocError>
    requires symbol { IsNamed strings.now symbol }
    requires named { All (IsNamed strings.now) first.old.items }
    ensures first { (seen : List Symbol) → AreFirst seen (map (placed strings.now) first.old.items)
        → All (λ s. s.value ≤ symbol.value) seen
        → OnOk result (AreFirst (seen ++ placed strings.now symbol ∷ [])
        (map (placed strings.now) first.new.items)) }
    ensures named { OnOk result (All (IsNamed strings.now) first.new.items) }
{
    let len = first.len();
    if len == 0 || first[len - 1].value != symbol.value {
        return Ok(first.push(symbol)?);
    }
    if goes_before(strings, symbol, first[len - 1]) {
        first[len - 1] = symbol;
    }
    Ok(())
}

// One more symbol, if there is one, whose value is not below those seen.
fn merge_some(
    strings: &[u8],
    first: &mut Vec<SymbolPlace>,
    symbol: Option<SymbolPlace>,
) -> Result<(), AllocError>
    requires symbol { IfSome symbol (IsNamed strings.now) }
    requires named { All (IsNamed strings.now) first.old.items }
    ensures first { (seen : List Symbol) → AreFirst seen (map (placed strings.now) first.old.items)
        → IfSome symbol (λ s. All (λ t. t.value ≤ s.value) seen)
        → OnOk result (AreFirst
        (seen ++ cons_option (option_map (placed strings.now) symbol) [])
        (map (placed strings.now) first.new.items)) }
    ensures named { OnOk result (All (IsNamed strings.now) first.new.items) }
{
    match symbol {
        None => Ok(()),
        Some(symbol) => merge_symbol(strings, first, symbol),
    }
}

// All entries of a symbol table.
fn entries(alloc: Global, file: &[u8], table: &SectionHeader) -> Result<Vec<Entry>, AllocError>
    requires { table.now.sh_offset + table.now.sh_size ≤ length file.now }
    ensures { IfOk result (λ v. v.items
        ≡ map (entry_at file.now table.now) (range_with_len 0 (table.now.sh_size / 16))) }
{
    let first = table.sh_offset as usize;
    let count = table.sh_size / SYMBOL_SIZE as u32;
    let mut entries = Vec::with_capacity(alloc, count as usize)?;
    for index in 0..count {
        let value = word_at(file, first + SYMBOL_SIZE * index as usize + 4);
        entries.push(Entry { value, index })?;
    }
    Ok(entries)
}

// The same entries by rising value, those at one value in their order.
fn order_by_value(entries: &mut Vec<Entry>) -> Result<(), AllocError>
    ensures moved { OnOk result (IsPermutation entries.old.items entries.new.items) }
    ensures rising { OnOk result (IsNonDecreasingBy (λ e. e.value) entries.new.items) }
    ensures same { OnOk result ((at : ℕ) → filter (λ e. e.value == at) entries.new.items
        ≡ filter (λ e. e.value == at) entries.old.items) }
{
    Ok(entries.sort_by_key(|e| e.value)?)
}

// The symbol that goes first at each value, of entries by rising value.
fn first_of_entries(
    alloc: Global,
    file: &[u8],
    table: &SectionHeader,
    strings: &[u8],
    ordered: &[Entry],
) -> Result<Vec<SymbolPlace>, AllocError>
    requires table { table.now.sh_offset + table.now.sh_size ≤ length file.now }
    requires entries { All (IsEntry file.now table.now) ordered.now }
    requires rising { IsNonDecreasingBy (λ e. e.value) ordered.now }
    ensures first { IfOk result (λ first. AreFirst
        (symbols_of_entries file.now strings.now table.now ordered.now)
        (map (placed strings.now) first.items)) }
    ensures named { IfOk result (λ first. All (IsNamed strings.now) first.items) }
{
    let offset = table.sh_offset as usize;
    let mut first = Vec::new(alloc);
    for entry in ordered {
        let at = offset + SYMBOL_SIZE * entry.index as usize;
        let symbol = symbol_at(alloc, file, strings, at)?;
        merge_some(strings, &mut first, symbol)?;
    }
    Ok(first)
}

// The symbol that goes first at each value of a table.
fn first_in(
    alloc: Global,
    file: &[u8],
    table: &SectionHeader,
    strings: &[u8],
) -> Result<Vec<SymbolPlace>, AllocError>
    requires table { table.now.sh_offset + table.now.sh_size ≤ length file.now }
    requires strings { strings.now ≡ section_bytes file.now
        (section_header file.now table.now.sh_link) }
    ensures first { IfOk result (λ first. AreFirst (symbols_in file.now table.now)
        (map (placed strings.now) first.items)) }
    ensures named { IfOk result (λ first. All (IsNamed strings.now) first.items) }
{
    let mut ordered = entries(alloc, file, table)?;
    order_by_value(&mut ordered)?;
    first_of_entries(alloc, file, table, strings, &ordered)
}

/// The symbol that goes first at each value: none where the first symbol table can't be read.
pub(crate) fn first_symbols(
    alloc: Global,
    file: &[u8],
    header: &FileHeader,
) -> Result<SymbolNames, AllocError>
    requires { header.now ≡ file_header file.now }
    ensures { IfOk result (λ first. AreFirst (symbols file.now) first) }
{
    let Some(table) = symbol_table(file, header) else {
        return Ok(SymbolNames::none(alloc));
    };
    if !is_readable(file, header, &table) {
        return Ok(SymbolNames::none(alloc));
    }
    let section = section_header(file, header, table.sh_link);
    let strings = Vec::from_slice(alloc, section_bytes(file, &section))?;
    let places = first_in(alloc, file, &table, &strings)?;
    Ok(SymbolNames::new(strings, places))
}
