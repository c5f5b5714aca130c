//! The symbols that name addresses, without a copy of each name.
ghost use Rattle.std.specs.Prelude.{◌≡◌, ◌<◌, ◌==◌, None, All, AllPairs, IfOk, IsOk, MatchOption, length, map, slice_get};
ghost use Rattle.std.specs.List.{find};
ghost use Rattle.elf_image.specs.Image.{name_beside};
ghost use Rattle.elf_image.specs.Private.Places.{IsNamed, placed};

use crate::symbols::SymbolPlace;
use guest_words::{Addr, Name, NameError};
use std::alloc::{AllocError, Global};
use std::marker::Model;

/// Symbols with the strings of their table, so that many names take no more memory than the file: a name is made when it is
/// asked for.
#[derive(Drop)]
pub(crate) struct SymbolNames {
    strings: Vec<u8>,
    places: Vec<SymbolPlace>,
}

impl Model for SymbolNames {
    ghost use Rattle.std.specs.Prelude.{All, List, map};
    ghost use Rattle.elf_image.specs.Private.Places.{IsNamed, placed};
    ghost use Rattle.elf_image.specs.Symbols.{Symbol};

    ghost Value = { List Symbol };

    ghost view = { λ n. map (placed n.strings.items) n.places.items };

    ghost invariant = { λ n. All (IsNamed n.strings.items) n.places.items };
}

/// The name of a symbol.
pub(crate) fn name_of(strings: &[u8], symbol: SymbolPlace) -> &[u8]
    requires { IsNamed strings.now symbol }
    ensures { result.now ≡ (placed strings.now symbol).name }
{
    let start = symbol.start as usize;
    &strings[start..start + symbol.len as usize]
}

// Where the symbol of this value is, among symbols by rising value.
fn search(places: &[SymbolPlace], value: Addr) -> Option<usize>
    requires { AllPairs (λ s t. s.value < t.value) places.now }
    ensures { MatchOption result (find (λ s. s.value == value) places.now ≡ None)
        (λ place. (place < length places.now)
        × (find (λ s. s.value == value) places.now ≡ slice_get places.now place)) }
{
    places
        .binary_search_by_key(&value, |place| place.value)
        .ok()
}

impl SymbolNames {
    ghost use Rattle.std.specs.Prelude.{[]};

    /// No symbol.
    pub(crate) fn none(alloc: Global) -> SymbolNames
        ensures { result ≡ [] }
    {
        SymbolNames {
            strings: Vec::new(alloc),
            places: Vec::new(alloc),
        }
    }

    /// Symbols whose names are among the strings.
    pub(crate) fn new(strings: Vec<u8>, places: Vec<SymbolPlace>) -> SymbolNames
        requires { All (IsNamed strings.items) places.items }
        ensures { result ≡ map (placed strings.items) places.items }
    {
        SymbolNames { strings, places }
    }

    /// The name of the symbol of this value, where the values rise. Only a name is allocated.
    pub(crate) fn name_of(&self, alloc: Global, value: Addr) -> Result<Option<Name>, AllocError>
        requires { AllPairs (λ s t. s.value < t.value) self.now }
        ensures name { IfOk result (λ name. name
            ≡ name_beside (map (λ s. (s.value, s.name)) self.now) value) }
        ensures no_allocation { name_beside (map (λ s. (s.value, s.name)) self.now) value ≡ None
            → IsOk result }
    {
        let Some(index) = search(&self.places, value) else {
            return Ok(None);
        };
        match Name::new(alloc, name_of(&self.strings, self.places[index])) {
            Ok(name) => Ok(Some(name)),
            Err(NameError::Memory) => Err(AllocError),
            Err(NameError::Bad) => unreachable!(), // it was kept as a name
        }
    }
}
