//! Pages by number, in tables of 1024 pages. An absent table has no page, and an absent page has no byte.
ghost use Rattle.std.specs.Prelude.{true, false, None, ◌⊎◌, ◌≡◌, ◌<◌, ◌≤◌, ◌+◌, ◌^◌, ◌/◌, ◌%◌, ℕ, List, [], length, map, replicate, IfOk, OnOk};
ghost use Rattle.std.specs.Option.{is_some};
ghost use Rattle.guest_memory.specs.Memory.{AreFree, no_memory, with_bytes, with_pages, with_rights};
ghost use Rattle.guest_words.specs.declared.rights.Rights.{Rights};
ghost use Rattle.guest_memory.specs.State.{memory_in, rights_of};
ghost use Rattle.guest_memory.specs.Pages.{IsDirectory, page_of, overwritten, no_rights, IsPlaced, table_of, zeros};

use guest_words::Rights;
use std::alloc::{AllocError, Global};
use std::marker::Model;

/// How many pages a table has, and how many tables the directory has.
pub const TABLE_ENTRIES: usize = 1024;

/// How many bytes a page has.
pub const PAGE_SIZE: usize = guest_words::PAGE_SIZE as usize;

// A page: no bytes where it is absent.
#[derive(Drop)]
struct Page {
    rights: Rights,
    bytes: Vec<u8>,
}

/// Pages by number.
#[derive(Drop)]
pub struct Directory {
    tables: Vec<Vec<Page>>,
}

impl Model for Directory {
    ghost use Rattle.std.specs.Prelude.{ℕ, List, map};
    ghost use Rattle.guest_memory.specs.Pages.{IsDirectory};
    ghost use Rattle.guest_words.specs.declared.rights.Rights.{Rights};

    ghost Value = { List (List (Rights × List ℕ)) };

    ghost view = { λ d. map (λ t. map (λ p. (p.rights, p.bytes.items)) t.items) d.tables.items };

    ghost invariant = { λ d. IsDirectory (map (λ t. map (λ p. (p.rights, p.bytes.items)) t.items) d.tables.items) };
}

impl Directory {
    /// The rights and the bytes of a page: no bytes where it is absent.
    #[inline(always)]
    pub fn page(&self, number: u64) -> (Rights, &[u8])
        ensures rights { result.0 ≡ (page_of self.now number).0 }
        ensures bytes { result.1.now ≡ (page_of self.now number).1 }
        ensures range { 0 < length (page_of self.now number).1 → number < 2 ^ 20 }
        ensures size { length (page_of self.now number).1 ≤ 4096 }
        ensures full { 0 < length (page_of self.now number).1
            → length (page_of self.now number).1 ≡ 4096 }
    {
        match self.tables.get((number >> 10) as usize) {
            None => (NO_RIGHTS, &[]),
            Some(table) => match table.get(number as usize % TABLE_ENTRIES) {
                None => (NO_RIGHTS, &[]),
                Some(page) => (page.rights, page.bytes.as_slice()),
            },
        }
    }

    /// Writes bytes that lie within one page.
    #[inline(always)]
    pub fn write(&mut self, at: u64, bytes: &[u8])
        requires mapped { is_some ((memory_in self.old).rights (at / 4096)) ≡ true }
        requires within { at % 4096 + length bytes.now ≤ 4096 }
        ensures { memory_in self.new ≡ with_bytes (memory_in self.old) at bytes.now }
    {
        let number = at >> 12;
        let table = &mut self.tables[(number >> 10) as usize];
        let page = &mut table[number as usize % TABLE_ENTRIES];
        overwrite(&mut page.bytes, at as usize % PAGE_SIZE, bytes);
    }

    /// No page.
    pub fn new(alloc: Global) -> Result<Directory, AllocError>
        ensures { IfOk result (λ d. memory_in d ≡ no_memory) }
    {
        Ok(Directory {
            tables: empty_rows(alloc)?,
        })
    }

    /// Whether the table is there in which a page lies. If it is not, none of its pages is mapped.
    pub fn has_table(&self, number: u32) -> bool
        requires { number < 2 ^ 20 }
        ensures { result ≡ false → table_of self.now number ≡ [] }
    {
        !self.tables[(number >> 10) as usize].is_empty()
    }

    /// Makes the table in which a page lies.
    pub fn reserve_table(&mut self, alloc: Global, number: u32) -> Result<(), AllocError>
        requires { number < 2 ^ 20 }
        ensures memory { memory_in self.new ≡ memory_in self.old }
        ensures placed { OnOk result (IsPlaced self.new number) }
        ensures others { (n : ℕ) → IsPlaced self.old n → IsPlaced self.new n }
    {
        let index = (number >> 10) as usize;
        if self.tables[index].is_empty() {
            let table = absent_pages(alloc)?;
            self.tables[index] = table;
        }
        Ok(())
    }

    /// Drops the table of 1024 pages, none of which is mapped.
    pub fn drop_table(&mut self, alloc: Global, first: u32)
        requires range { first < 2 ^ 20 }
        requires whole { first % 1024 ≡ 0 }
        requires free { AreFree (memory_in self.old) first 1024 }
        ensures { memory_in self.new ≡ memory_in self.old }
    {
        self.tables[(first >> 10) as usize] = Vec::new(alloc);
    }

    /// Puts a page of zeros, or of no byte, in its place.
    pub fn put(&mut self, number: u32, rights: Rights, bytes: Vec<u8>)
        requires placed { IsPlaced self.old number }
        requires zeros { (bytes.items ≡ []) ⊎ (bytes.items ≡ zeros) }
        ensures memory { memory_in self.new ≡ with_pages (memory_in self.old) number 1
            (rights_of (rights, bytes.items)) }
        ensures others { (n : ℕ) → IsPlaced self.old n → IsPlaced self.new n }
    {
        let table = &mut self.tables[(number >> 10) as usize];
        let page = &mut table[number as usize % TABLE_ENTRIES];
        *page = Page { rights, bytes };
    }

    /// Sets the rights of a mapped page.
    pub fn set_rights(&mut self, number: u32, rights: Rights)
        requires { is_some ((memory_in self.old).rights number) ≡ true }
        ensures { memory_in self.new ≡ with_rights (memory_in self.old) number 1 rights }
    {
        let table = &mut self.tables[(number >> 10) as usize];
        let page = &mut table[number as usize % TABLE_ENTRIES];
        page.rights = rights;
    }
}

/// The rights of an absent page.
pub const NO_RIGHTS: Rights = Rights {
    read: false,
    write: false,
    exec: false,
};

/// Writes bytes over others, from an index on.
#[inline(always)]
pub fn overwrite(old: &mut [u8], start: usize, bytes: &[u8])
    requires { start + length bytes.now ≤ length old.old }
    ensures { old.new ≡ overwritten old.old start bytes.now }
{
    old[start..start + bytes.len()].copy_from_slice(bytes);
}

// 1024 empty vectors.
fn empty_rows<T: Drop>(alloc: Global) -> Result<Vec<Vec<T>>, AllocError>
    ensures { IfOk result (λ v. map (λ r. r.items) v.items ≡ replicate 1024 []) }
{
    let mut rows = Vec::with_capacity(alloc, TABLE_ENTRIES)?;
    'fill: while rows.len() < TABLE_ENTRIES {
        rows.push(Vec::new(alloc))?;
    }
    Ok(rows)
}

// A table of absent pages.
fn absent_pages(alloc: Global) -> Result<Vec<Page>, AllocError>
    ensures { IfOk result (λ v. map {B = Rights × List ℕ} (λ p. (p.rights, p.bytes.items)) v.items
        ≡ replicate 1024 (no_rights, [])) }
{
    let mut pages = Vec::with_capacity(alloc, TABLE_ENTRIES)?;
    'fill: while pages.len() < TABLE_ENTRIES {
        pages.push(Page {
            rights: NO_RIGHTS,
            bytes: Vec::new(alloc),
        })?;
    }
    Ok(pages)
}

/// The bytes of a new page.
pub fn zero_page(alloc: Global) -> Result<Vec<u8>, AllocError>
    ensures { IfOk result (λ v. v.items ≡ zeros) }
{
    let bytes = vec![in alloc; 0u8; PAGE_SIZE]?;
    Ok(bytes)
}
