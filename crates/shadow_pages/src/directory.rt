//! The places of pages, by page number.
ghost use Rattle.std.specs.Prelude.{◌≡◌, ◌≢◌, ◌<◌, ◌≤◌, ◌/◌, ◌^◌, ℕ, List, [], None, Some, IfOk, OnOk, get_or, length, map, replicate, vec_len};
ghost use Rattle.shadow_pages.specs.Directory.{IsApart, IsDirectory, HasTable, HaveTables, entry, table_of};

use std::alloc::{AllocError, Global};
use std::marker::Model;

// How many entries a table has.
const TABLE_ENTRIES: usize = 1024;

/// For each page number below 2^20 the place of the page, or none. There are tables up to the last that was made; one that was
/// not made is an empty vector.
#[derive(Drop)]
pub struct Directory {
    tables: Vec<Vec<Option<usize>>>,
}

impl Model for Directory {
    ghost use Rattle.std.specs.Prelude.{ℕ, List, Option, map};
    ghost use Rattle.shadow_pages.specs.Directory.{IsDirectory};

    ghost Value = { List (List (Option ℕ)) };

    ghost view = { λ d. map (λ t. t.items) d.tables.items };

    ghost invariant = { λ d. IsDirectory (map (λ t. t.items) d.tables.items) };
}

impl Directory {
    /// No place. It does not allocate.
    pub fn new(alloc: Global) -> Directory
        ensures { (n : ℕ) → entry result n ≡ None }
    {
        Directory {
            tables: Vec::new(alloc),
        }
    }

    /// The place of a page.
    #[inline(always)]
    pub fn place(&self, number: u32) -> Option<usize>
        requires { number < 2 ^ 20 }
        ensures { result ≡ entry self.now number }
    {
        let table = self.tables.get((number >> 10) as usize)?;
        table
            .get(number as usize % TABLE_ENTRIES)
            .copied()
            .flatten()
    }

    // Makes the list of tables reach to an index.
    fn reach(&mut self, alloc: Global, index: usize) -> Result<(), AllocError>
        ensures tables { (i : ℕ) → get_or self.new i [] ≡ get_or self.old i [] }
        ensures longer { length self.old ≤ length self.new }
        ensures reached { OnOk result (index < length self.new) }
    {
        grow(&mut self.tables, alloc, index)
    }

    /// Makes the table in which a page has its entry.
    pub fn reserve(&mut self, alloc: Global, number: u32) -> Result<(), AllocError>
        requires { number < 2 ^ 20 }
        ensures entries { (n : ℕ) → entry self.new n ≡ entry self.old n }
        ensures placed { OnOk result (HasTable self.new number) }
        ensures others { (n : ℕ) → HasTable self.old n → HasTable self.new n }
        ensures only { (n : ℕ) → n / 2 ^ 10 ≢ number / 2 ^ 10
            → table_of self.new n ≡ table_of self.old n }
    {
        let index = (number >> 10) as usize;
        self.reach(alloc, index)?;
        if self.tables[index].is_empty() {
            let table = no_places(alloc)?;
            self.tables[index] = table;
        }
        Ok(())
    }

    /// Makes the tables of all pages from the first on, up to the end, and no others.
    pub fn reserve_all(&mut self, alloc: Global, first: u32, end: u32) -> Result<(), AllocError>
        requires { end ≤ 2 ^ 20 }
        ensures entries { (n : ℕ) → entry self.new n ≡ entry self.old n }
        ensures placed { OnOk result (HaveTables self.new first end) }
        ensures only { (n : ℕ) → IsApart first end n → table_of self.new n ≡ table_of self.old n }
    {
        for number in first..end {
            self.reserve(alloc, number)?;
        }
        Ok(())
    }

    /// Sets the place of a page.
    pub fn put(&mut self, number: u32, place: usize)
        requires { HasTable self.old number }
        ensures this { entry self.new number ≡ Some place }
        ensures others { (n : ℕ) → n ≢ number → entry self.new n ≡ entry self.old n }
        ensures tables { (n : ℕ) → HasTable self.old n → HasTable self.new n }
    {
        let table = &mut self.tables[(number >> 10) as usize];
        table[number as usize % TABLE_ENTRIES] = Some(place);
    }
}

// Appends empty tables, until there is one of this index.
fn grow(tables: &mut Vec<Vec<Option<usize>>>, alloc: Global, index: usize) -> Result<(), AllocError>
    ensures tables { (i : ℕ) → get_or (map (λ t. t.items) tables.new.items) i []
        ≡ get_or (map (λ t. t.items) tables.old.items) i [] }
    ensures longer { vec_len tables.old ≤ vec_len tables.new }
    ensures reached { OnOk result (index < vec_len tables.new) }
{
    'grow: while tables.len() <= index {
        tables.push(Vec::new(alloc))?;
    }
    Ok(())
}

// The entries of a table that says no place.
fn no_places(alloc: Global) -> Result<Vec<Option<usize>>, AllocError>
    ensures { IfOk result (λ v. v.items ≡ replicate 1024 None) }
{
    let mut entries = Vec::with_capacity(alloc, TABLE_ENTRIES)?;
    'fill: while entries.len() < TABLE_ENTRIES {
        entries.push(None)?;
    }
    Ok(entries)
}
