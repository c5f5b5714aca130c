//! The memory of a guest: calls on pages and on bytes.
#![tactic(auto, unfolding(crate::specs::Guest::memory_of))]

ghost use Rattle.std.specs.Prelude.{◌≡◌, ◌<◌, ◌≤◌, ◌+◌, ◌%◌, ℕ, length, take, IfOk, IfSome, IfNone, OnOk, OnErr, IsTrue, ◌↔◌, true, false, None};
ghost use Rattle.std.specs.Int.{to_le_bytes, w32};
ghost use Rattle.std.specs.Option.{is_none};
ghost use Rattle.guest_memory.specs.Memory.{IsFreeRange, AreFree, AreMapped, ArePagesMapped, MapEnds, no_memory, with_pages, with_rights, byte_count, bytes_at, first_refusal, loaded, mapped_pages, unless_refused, with_bytes};
ghost use Rattle.guest_memory.specs.State.{memory_in};
ghost use Rattle.guest_memory.specs.Code.{IsCodeOf, IsInstructionAt};
ghost use Rattle.guest_memory.specs.Private.HeldCode.{HoldsCode};
ghost use Rattle.guest_memory.specs.declared.refusal.Permission.TheVariants as permission;
ghost use Rattle.guest_words.specs.declared.limits.TheConstants.{PAGES};

use crate::Size;
use crate::code_cache::CodeCache;
use crate::code_page::CodePage;
use crate::directory::{Directory, PAGE_SIZE, TABLE_ENTRIES};
use crate::page_ranges::zero_pages;
use crate::refusal::{MemError, Permission};
use guest_words::limits::PAGES;
use guest_words::{Addr, MMAP_BASE, Rights};
use rv_isa::Instr;
use std::alloc::{AllocError, Global};

// The pages in which a free range is searched.
const FIRST_OF_SEARCH: u32 = MMAP_BASE / guest_words::PAGE_SIZE;

const END_OF_SEARCH: u32 = 0x7F000;

// How many pages a table of the directory has.
const TABLE_PAGES: u32 = TABLE_ENTRIES as u32;

/// The memory of a guest: 2^20 pages of 4096 bytes, of which at most `PAGES` are mapped. A page is given by its number,
/// a byte by its address. A byte at or past 2^32 is not mapped.
#[derive(Drop)]
pub struct GuestMemory {
    alloc: Global,
    directory: Directory,
    mapped: u32,
    code: CodeCache,
    ghost counted: { mapped ≡ mapped_pages (memory_in directory) },
    ghost few: { mapped ≤ PAGES },
    ghost coherent: { HoldsCode code (memory_in directory) },
}

impl GuestMemory {
    ghost use Rattle.guest_memory.specs.Guest.{memory_of};

    /// Nothing is mapped.
    pub fn new(alloc: Global) -> Result<GuestMemory, AllocError>
        ensures { IfOk result (λ m. memory_of m ≡ no_memory) }
    {
        Ok(GuestMemory {
            alloc,
            directory: Directory::new(alloc)?,
            mapped: 0,
            code: CodeCache::new(alloc)?,
        })
    }

    /// Maps free pages, which hold zeros. It is refused where more than `PAGES` pages would be mapped.
    pub fn map(&mut self, page: u32, count: u32, rights: Rights) -> Result<(), MemError>
        requires range { page + count ≤ 1048576 }
        requires free { AreFree (memory_of self.old) page count }
        ensures { MapEnds (memory_of self.old) page count rights (memory_of self.new) result }
    {
        if self.mapped + count > PAGES {
            return Err(MemError::NoRoom);
        }
        let fresh = zero_pages(self.alloc, count)?;
        self.directory.reserve(self.alloc, page, count)?;
        self.directory.put_all(page, rights, fresh);
        self.mapped += count;
        Ok(())
    }

    /// Unmaps those pages that are mapped.
    pub fn unmap(&mut self, page: u32, count: u32)
        requires { page + count ≤ 1048576 }
        ensures { memory_of self.new ≡ with_pages (memory_of self.old) page count None }
    {
        // table by table, since a large range mostly has none
        let mut done = 0;
        'tables: while done < count {
            let next = page + done;
            let here = (count - done).min(TABLE_PAGES - next % TABLE_PAGES);
            self.unmap_in_table(next, here);
            done += here;
        }
    }

    // The same for pages of one table.
    fn unmap_in_table(&mut self, page: u32, count: u32)
        requires some { 0 < count }
        requires range { page + count ≤ 1048576 }
        requires within { page % 1024 + count ≤ 1024 }
        ensures { memory_of self.new ≡ with_pages (memory_of self.old) page count None }
    {
        if !self.directory.has_table(page) {
            return;
        }
        let taken = self.directory.take_in_table(self.alloc, page, count);
        self.mapped -= taken;
        self.code.forget_pages(page, count);
    }

    /// Sets the rights of mapped pages.
    pub fn protect(&mut self, page: u32, count: u32, rights: Rights)
        requires range { page + count ≤ 1048576 }
        requires mapped { ArePagesMapped (memory_of self.old) page count }
        ensures { memory_of self.new ≡ with_rights (memory_of self.old) page count rights }
    {
        self.directory.set_all_rights(page, count, rights);
        self.code.forget_pages(page, count);
    }

    /// Whether no page of the range is mapped.
    pub fn is_free(&self, page: u32, count: u32) -> bool
        requires { page + count ≤ 1048576 }
        ensures { IsTrue result ↔ AreFree (memory_of self.now) page count }
    {
        for k in 0..count {
            if self.directory.is_page_mapped(page + k) {
                return false;
            }
        }
        true
    }

    /// Whether each page of the range is mapped.
    pub fn is_mapped(&self, page: u32, count: u32) -> bool
        requires { page + count ≤ 1048576 }
        ensures { IsTrue result ↔ ArePagesMapped (memory_of self.now) page count }
    {
        for k in 0..count {
            if !self.directory.is_page_mapped(page + k) {
                return false;
            }
        }
        true
    }

    /// The lowest free range of `count` pages, from the address 0x40000000 up to 0x7F000000.
    pub fn find_free(&self, count: u32) -> Option<u32>
        ensures found { IfSome result (λ page. IsFreeRange (memory_of self.now) count page) }
        ensures lowest { IfSome result (λ page. (q : ℕ) → q < page
            → ¬ IsFreeRange (memory_of self.now) count q) }
        ensures none { IfNone result ((q : ℕ) → ¬ IsFreeRange (memory_of self.now) count q) }
    {
        if count > END_OF_SEARCH - FIRST_OF_SEARCH {
            return None;
        }
        let mut start = FIRST_OF_SEARCH;
        let mut next = FIRST_OF_SEARCH;
        'pages: while start + count <= END_OF_SEARCH {
            if next == start + count {
                return Some(start);
            }
            if self.directory.is_page_mapped(next) {
                start = next + 1;
            }
            next += 1;
        }
        None
    }

    /// How many pages are mapped.
    pub fn mapped(&self) -> u32
        ensures value { result ≡ mapped_pages (memory_of self.now) }
        ensures limit { result ≤ PAGES }
    {
        self.mapped
    }

    /// The little-endian number of that size, or why its bytes can't be read.
    #[inline(always)]
    pub fn load(&self, at: Addr, size: Size) -> Result<u32, MemError>
        ensures { result ≡ loaded (memory_of self.now) permission.Read at (byte_count size) }
    {
        // the code of each size apart
        let at = u64::from(at);
        match size {
            Size::One => self.directory.loaded(Permission::Read, at, Size::One),
            Size::Two => self.directory.loaded(Permission::Read, at, Size::Two),
            Size::Four => self.directory.loaded(Permission::Read, at, Size::Four),
        }
    }

    /// The number that `load` answers, where the bytes lie within one page and can be read. Where they don't, None, which says
    /// nothing of the load: its code is shorter than that of `load`.
    #[inline(always)]
    pub fn load_within(&self, at: Addr, size: Size) -> Option<u32>
        ensures { IfSome result (λ n. loaded (memory_of self.now) permission.Read at (byte_count size) ≡ Ok n) }
    {
        self.directory
            .number_within(Permission::Read, u64::from(at), size)
    }

    /// The word of an instruction, where each of its bytes can be run.
    #[inline(always)]
    pub fn fetch(&self, at: Addr) -> Result<u32, MemError>
        requires { at % 4 ≡ 0 }
        ensures { result ≡ loaded (memory_of self.now) permission.Execute at 4 }
    {
        self.directory
            .loaded(Permission::Execute, u64::from(at), Size::Four)
    }

    /// Where the code of an address's page is kept, for `code_page` and `known_instruction`. It may be somewhere else after
    /// the memory changed.
    #[inline(always)]
    pub fn code_place(&self, at: Addr) -> usize {
        self.code.place_of(at)
    }

    /// The decoded code of a page, which is kept at this place (`code_place`).
    #[inline(always)]
    pub fn code_page(&self, place: usize) -> Option<&CodePage>
        ensures { IfSome result (λ page. IsCodeOf (memory_of self.now) page.now) }
    {
        self.code.page_at(place)
    }

    /// The instruction at an address, where it is known, its word can be fetched, and the code of its page is at this place.
    #[inline(always)]
    pub fn known_instruction(&self, place: usize, at: Addr) -> Option<Instr>
        requires { at % 4 ≡ 0 }
        ensures { IfSome result (IsInstructionAt (memory_of self.now) at) }
    {
        self.code_page(place)?.find(at)
    }

    /// Decodes the instruction at an address, which is known from then on, where there is one whose word can be fetched. It
    /// allocates 8 KiB for the first of a page.
    #[cold]
    #[inline(never)]
    pub fn learn_instruction(&mut self, at: Addr) -> Result<(), AllocError>
        requires { at % 4 ≡ 0 }
        ensures { memory_of self.new ≡ memory_of self.old }
    {
        match self.fetch(at) {
            Ok(word) => self.code.learn(self.alloc, at, word),
            Err(_) => Ok(()),
        }
    }

    /// Whether each of `bytes` bytes can be read.
    pub fn can_read(&self, at: Addr, bytes: u64) -> bool
        ensures { result ≡ is_none (first_refusal (memory_of self.now) permission.Read at bytes) }
    {
        self.directory
            .first_refusal(Permission::Read, u64::from(at), bytes)
            .is_none()
    }

    /// Whether each of `bytes` bytes can be written.
    pub fn can_write(&self, at: Addr, bytes: u64) -> bool
        ensures { result ≡ is_none (first_refusal (memory_of self.now) permission.Write at bytes) }
    {
        self.directory
            .first_refusal(Permission::Write, u64::from(at), bytes)
            .is_none()
    }

    /// Writes the lowest bytes of a value, the lowest first, where each of them can be written.
    #[inline(always)]
    pub fn store(&mut self, at: Addr, size: Size, value: u32) -> Result<(), MemError>
        ensures result { result ≡ unless_refused (first_refusal
            (memory_of self.old) permission.Write at (byte_count size)) tt }
        ensures ok { OnOk result (memory_of self.new
            ≡ with_bytes (memory_of self.old) at (take (byte_count size) (to_le_bytes w32 value))) }
        ensures err { OnErr result (memory_of self.new ≡ memory_of self.old) }
    {
        let bytes = value.to_le_bytes();
        // the code of each size apart
        match size {
            Size::One => self.store_bytes(at, &bytes[..1]),
            Size::Two => self.store_bytes(at, &bytes[..2]),
            Size::Four => self.store_bytes(at, &bytes[..4]),
        }
    }

    /// Writes a word, its lowest byte first, where its page can be written and has no decoded code, and answers `true`.
    /// Otherwise `false`, which says nothing of the bytes, and nothing changes. Its code is shorter than that of `store`.
    #[inline(always)]
    pub fn store_word(&mut self, at: Addr, value: u32) -> bool
        requires { at % 4 ≡ 0 }
        ensures allowed { result ≡ true → first_refusal (memory_of self.old) permission.Write at 4 ≡ None }
        ensures stored { result ≡ true → memory_of self.new
            ≡ with_bytes (memory_of self.old) at (to_le_bytes w32 value) }
        ensures same { result ≡ false → memory_of self.new ≡ memory_of self.old }
    {
        if self.code.has_code(at) {
            return false;
        }
        let bytes = value.to_le_bytes();
        self.directory.store_within(u64::from(at), &bytes).is_ok()
    }

    // Writes at least one byte, where each of the bytes can be written.
    #[inline(always)]
    fn store_bytes(&mut self, at: Addr, bytes: &[u8]) -> Result<(), MemError>
        requires { 0 < length bytes.now }
        ensures result { result ≡ unless_refused (first_refusal
            (memory_of self.old) permission.Write at (length bytes.now)) tt }
        ensures ok { OnOk result (memory_of self.new
            ≡ with_bytes (memory_of self.old) at bytes.now) }
        ensures err { OnErr result (memory_of self.new ≡ memory_of self.old) }
    {
        if at as usize % PAGE_SIZE + bytes.len() <= PAGE_SIZE {
            let first = u64::from(at);
            match self.directory.store_within(first, bytes) {
                Ok(()) => {
                    self.code.forget_within(first, bytes.len());
                    Ok(())
                }
                Err(refusal) => Err(refusal),
            }
        } else {
            self.copy_in(at, bytes)
        }
    }

    /// Writes bytes, where each of them can be written.
    pub fn copy_in(&mut self, at: Addr, bytes: &[u8]) -> Result<(), MemError>
        ensures result { result ≡ unless_refused (first_refusal
            (memory_of self.old) permission.Write at (length bytes.now)) tt }
        ensures ok { OnOk result (memory_of self.new
            ≡ with_bytes (memory_of self.old) at bytes.now) }
        ensures err { OnErr result (memory_of self.new ≡ memory_of self.old) }
    {
        let first = u64::from(at);
        let count = bytes.len() as u64;
        match self
            .directory
            .first_refusal(Permission::Write, first, count)
        {
            Some(refusal) => Err(refusal),
            None => {
                self.directory.write_all(first, bytes);
                self.code.forget(at, bytes.len());
                Ok(())
            }
        }
    }

    /// Reads bytes, where each of them can be read.
    pub fn copy_out(&self, at: Addr, into: &mut [u8]) -> Result<(), MemError>
        ensures result { result ≡ unless_refused (first_refusal
            (memory_of self.now) permission.Read at (length into.old)) tt }
        ensures ok { OnOk result (into.new ≡ bytes_at (memory_of self.now) at (length into.old)) }
        ensures err { OnErr result (into.new ≡ into.old) }
    {
        let from = u64::from(at);
        let count = into.len() as u64;
        match self.directory.first_refusal(Permission::Read, from, count) {
            Some(refusal) => Err(refusal),
            None => {
                self.directory.read_all(from, into);
                Ok(())
            }
        }
    }

    /// Writes bytes, whatever the rights are.
    pub fn first_contents(&mut self, at: Addr, bytes: &[u8])
        requires { AreMapped (memory_of self.old) at (length bytes.now) }
        ensures { memory_of self.new ≡ with_bytes (memory_of self.old) at bytes.now }
    {
        self.directory.write_all(u64::from(at), bytes);
        self.code.forget(at, bytes.len());
    }
}
