//! An executable that can be run, and its segments.
ghost use Rattle.std.specs.Prelude.{◌≡◌, map, None, IfOk, IsOk};
ghost use Rattle.elf_image.specs.Fields.{IsFilled};
ghost use Rattle.elf_image.specs.Image.{IsSoundImage, name_of, page_count};

use crate::symbol_names::SymbolNames;
use guest_words::{Addr, Name, Rights};
use std::alloc::{AllocError, Global};
use std::marker::Model;

/// A load segment: `size` bytes of memory from `place` on. The first of them are `bytes`, its part of the file, and the
/// others are 0.
#[derive(Drop)]
pub struct Segment {
    pub place: Addr,
    pub size: u32,
    pub rights: Rights,
    pub bytes: Vec<u8>,
}

impl Model for Segment {
    ghost use Rattle.elf_image.specs.Image as spec;

    ghost Value = { spec.Segment };

    ghost view = { λ s. record {
      place = s.place;
      size = s.size;
      rights = s.rights;
      bytes = s.bytes.items;
    } };
}

/// An executable that can be run.
#[derive(Drop)]
pub struct Image {
    entry: Addr,
    header_place: Addr,
    header_count: u32,
    segments: Vec<Segment>,
    pages: u32,
    // By rising value, the symbol that names each.
    symbols: SymbolNames,
}

impl Model for Image {
    ghost use Rattle.std.specs.Prelude.{map};
    ghost use Rattle.elf_image.specs.Image.{Executable};
    ghost use Rattle.elf_image.specs.Fields.{IsFilled};

    ghost Value = { Executable };

    ghost view = { λ i. record {
      entry = i.entry;
      header_place = i.header_place;
      header_count = i.header_count;
      segments = i.segments.items;
      names = map (λ s. (s.value, s.name)) i.symbols;
    } };

    ghost invariant = { λ i. IsFilled (record {
      entry = i.entry;
      header_place = i.header_place;
      header_count = i.header_count;
      segments = i.segments.items;
      names = map (λ s. (s.value, s.name)) i.symbols;
    }) i.pages i.symbols };
}

impl Image {
    /// An image of these parts.
    pub(crate) fn new(
        entry: Addr,
        header_place: Addr,
        header_count: u32,
        segments: Vec<Segment>,
        pages: u32,
        symbols: SymbolNames,
    ) -> Image
        requires { IsFilled (record {
          entry = entry;
          header_place = header_place;
          header_count = header_count;
          segments = segments.items;
          names = map (λ s. (s.value, s.name)) symbols;
        }) pages symbols }
        ensures { result ≡ record {
          entry = entry;
          header_place = header_place;
          header_count = header_count;
          segments = segments.items;
          names = map (λ s. (s.value, s.name)) symbols;
        } }
    {
        Image {
            entry,
            header_place,
            header_count,
            segments,
            pages,
            symbols,
        }
    }

    /// The address where the executable begins to run.
    pub fn entry(&self) -> Addr
        ensures { result ≡ self.now.entry }
    {
        self.entry
    }

    /// The address of the program headers, or 0 where no segment holds them all.
    pub fn header_place(&self) -> Addr
        ensures { result ≡ self.now.header_place }
    {
        self.header_place
    }

    /// How many program headers there are.
    pub fn header_count(&self) -> u32
        ensures { result ≡ self.now.header_count }
    {
        self.header_count
    }

    /// The load segments in the order of their headers, those without memory left out.
    pub fn segments(&self) -> &[Segment]
        ensures same { result.now ≡ self.now.segments }
        ensures sound { IsSoundImage self.now }
    {
        &self.segments
    }

    /// How many pages of 4096 bytes the segments touch.
    pub fn page_count(&self) -> u32
        ensures { result ≡ page_count self.now.segments }
    {
        self.pages
    }

    /// The name of the routine at an address, if it has one. Only a name is allocated.
    pub fn name_of(&self, alloc: Global, at: Addr) -> Result<Option<Name>, AllocError>
        ensures name { IfOk result (λ name. name ≡ name_of self.now at) }
        ensures no_allocation { name_of self.now at ≡ None → IsOk result }
    {
        self.symbols.name_of(alloc, at)
    }
}
