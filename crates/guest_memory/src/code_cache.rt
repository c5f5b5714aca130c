//! The guest's code, decoded by page.
ghost use Rattle.std.specs.Prelude.{◌≡◌, ◌≢◌, ◌<◌, ◌≤◌, ◌+◌, ◌/◌, ◌%◌, ◌^◌, ℕ, List, false, Some, Ok, get_or, length, IfOk, IfSome, OnOk};
ghost use Rattle.guest_memory.specs.Private.CodePages.{IsIndex, known_in};
ghost use Rattle.guest_memory.specs.Memory.{Memory, loaded, with_bytes};
ghost use Rattle.guest_memory.specs.declared.refusal.Permission.TheVariants as permission;
ghost use Rattle.guest_words.specs.declared.limits.TheConstants.{PAGES};

use crate::code_page::{CodePage, PAGE_WORDS};
use crate::directory::PAGE_SIZE;
use guest_words::Addr;
use guest_words::limits::PAGES;
use rv_isa::decode;
use std::alloc::{AllocError, Global};

/// The code of the pages that ran, decoded, and an index of it: 8 KiB for each page with code, of which there are no more
/// than can be mapped, and 2 bytes for each number up to the greatest of such a page. The memory that the code is of is no
/// part of it (specs/Private/HeldCode.antt).
#[derive(Drop)]
pub struct CodeCache {
    // the code of no page, and that of each page that has some
    pages: Vec<CodePage>,
    // the place of each page's code, by the page's number: 0 where it has none
    places: Vec<u16>,
    ghost index: { IsIndex places.items pages.items },
    ghost few: { length pages.items ≤ PAGES + 1 },
}

impl CodeCache {
    ghost use Rattle.guest_memory.specs.Code.{IsCodeOf};
    ghost use Rattle.guest_memory.specs.Private.HeldCode.{AgreeBut, HoldsCode};

    /// No instruction is known.
    pub fn new(alloc: Global) -> Result<CodeCache, AllocError>
        ensures { IfOk result (λ cache. (m : Memory) → HoldsCode cache m) }
    {
        let mut pages = Vec::new(alloc);
        pages.push(CodePage::new(alloc, 0)?)?;
        Ok(CodeCache {
            pages,
            places: Vec::new(alloc),
        })
    }

    // The place of a page's code: 0 where it has none.
    #[inline(always)]
    fn place(&self, page: u64) -> usize
        ensures place { result ≡ get_or self.now.places.items page 0 }
        ensures inside { result < length self.now.pages.items }
    {
        match self.places.get(page as usize) {
            Some(place) => usize::from(*place),
            None => 0,
        }
    }

    /// The place of the code of an address's page: 0 where it has none.
    #[inline(always)]
    pub fn place_of(&self, at: Addr) -> usize
        ensures { result ≡ get_or self.now.places.items (at / 4096) 0 }
    {
        self.place(u64::from(at >> 12))
    }

    /// Whether the page of an address has code. As long as it has none, its bytes may change.
    #[inline(always)]
    pub fn has_code(&self, at: Addr) -> bool
        ensures { result ≡ false → (m : Memory) (bytes : List ℕ) → at % 4096 + length bytes ≤ 4096
            → HoldsCode self.now m → HoldsCode self.now (with_bytes m at bytes) }
    {
        self.place_of(at) != 0
    }

    /// The code of a page that is at this place, if one is.
    #[inline(always)]
    pub fn page_at(&self, place: usize) -> Option<&CodePage>
        ensures { (m : Memory) → HoldsCode self.now m → IfSome result (λ page. IsCodeOf m page.now) }
    {
        self.pages.get(place)
    }

    // Makes the index reach to a page.
    fn reach(&mut self, page: u32) -> Result<(), AllocError>
        ensures places { (number : ℕ) → get_or self.new.places.items number 0
            ≡ get_or self.old.places.items number 0 }
        ensures pages { self.new.pages.items ≡ self.old.pages.items }
        ensures reached { OnOk result (page < length self.new.places.items) }
    {
        if self.places.len() <= page as usize {
            self.places.resize(page as usize + 1, 0)?;
        }
        Ok(())
    }

    // The place of a page's code, which is made where there is none.
    fn place_for(&mut self, alloc: Global, page: u32) -> Result<usize, AllocError>
        requires { page < 2 ^ 20 }
        ensures known { (word : ℕ) → known_in self.new.places.items self.new.pages.items word
            ≡ known_in self.old.places.items self.old.pages.items word }
        ensures some { IfOk result (λ place. 0 < place) }
        ensures place { IfOk result (λ place. place ≡ get_or self.new.places.items page 0) }
        ensures inside { IfOk result (λ place. place < length self.new.pages.items) }
    {
        let place = self.place(u64::from(page));
        if place != 0 {
            return Ok(place);
        }
        self.reach(page)?;
        let next = self.pages.len();
        // no more pages have code than can be mapped, so that each place is a number of 16 bits
        if next > PAGES as usize {
            return Err(AllocError);
        }
        self.pages.push(CodePage::new(alloc, page)?)?;
        self.places[page as usize] = next as u16;
        Ok(next)
    }

    /// Caches the instruction of the word that stands at an address, if it is one.
    pub fn learn(&mut self, alloc: Global, at: Addr, word: u32) -> Result<(), AllocError>
        requires { at % 4 ≡ 0 }
        ensures { (m : Memory) → HoldsCode self.old m → loaded m permission.Execute at 4 ≡ Ok word
            → HoldsCode self.new m }
    {
        if let Some(instruction) = decode(word) {
            let place = self.place_for(alloc, at >> 12)?;
            self.pages[place].learn((at >> 2) as usize % PAGE_WORDS, instruction);
        }
        Ok(())
    }

    /// Forgets the words that were written within a page.
    #[inline(always)]
    pub fn forget_within(&mut self, at: u64, count: usize)
        requires { at % 4096 + count ≤ 4096 }
        ensures { (m : Memory) (bytes : List ℕ) → length bytes ≤ count
            → HoldsCode self.old m → HoldsCode self.new (with_bytes m at bytes) }
    {
        let place = self.place(at >> 12);
        if place != 0 {
            let start = at as usize % PAGE_SIZE;
            self.pages[place].forget(start / 4, (start + count + 3) / 4);
        }
    }

    /// Forgets the words that were written.
    pub fn forget(&mut self, at: Addr, count: usize)
        requires { at + count < 2 ^ 64 }
        ensures { (m : Memory) (bytes : List ℕ) → length bytes ≡ count
            → HoldsCode self.old m → HoldsCode self.new (with_bytes m at bytes) }
    {
        let mut done = 0;
        'pages: while done < count {
            let next = u64::from(at) + done as u64;
            let here = (count - done).min(PAGE_SIZE - next as usize % PAGE_SIZE);
            self.forget_within(next, here);
            done += here;
        }
    }

    // Forgets the code of a page. The last page's code takes its place.
    fn forget_page(&mut self, page: u32)
        ensures gone { (word : ℕ) → word / 1024 ≡ page
            → known_in self.new.places.items self.new.pages.items word ≡ None }
        ensures rest { (word : ℕ) → word / 1024 ≢ page
            → known_in self.new.places.items self.new.pages.items word
            ≡ known_in self.old.places.items self.old.pages.items word }
    {
        let place = self.place(u64::from(page));
        if place != 0 {
            let last = self.pages[self.pages.len() - 1].number();
            self.places[last as usize] = place as u16;
            self.places[page as usize] = 0;
            self.pages.swap_remove(place);
        }
    }

    /// Forgets the code of pages, which may be any then.
    pub fn forget_pages(&mut self, first: u32, count: u32)
        requires { first + count ≤ 2 ^ 20 }
        ensures { (m n : Memory) → AgreeBut first count m n → HoldsCode self.old m
            → HoldsCode self.new n }
    {
        for k in 0..count {
            self.forget_page(first + k);
        }
    }
}
