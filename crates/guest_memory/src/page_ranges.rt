//! Changes of ranges of pages.
ghost use Rattle.std.specs.Prelude.{◌≡◌, ◌<◌, ◌≤◌, ◌+◌, ◌%◌, ◌^◌, IfOk, OnOk, All, Some, None, vec_len};
ghost use Rattle.std.specs.Option.{is_some};
ghost use Rattle.guest_memory.specs.Memory.{AreFree, ArePagesMapped, mapped_pages, with_pages, with_rights};
ghost use Rattle.guest_memory.specs.Pages.{ArePlaced, zeros};
ghost use Rattle.guest_memory.specs.State.{memory_in};

use crate::directory::{Directory, NO_RIGHTS, TABLE_ENTRIES, zero_page};
use guest_words::Rights;
use std::alloc::{AllocError, Global};

impl Directory {
    /// Makes the places of pages.
    pub fn reserve(&mut self, alloc: Global, first: u32, count: u32) -> Result<(), AllocError>
        requires { first + count ≤ 2 ^ 20 }
        ensures memory { memory_in self.new ≡ memory_in self.old }
        ensures placed { OnOk result (ArePlaced self.new first count) }
    {
        for k in 0..count {
            self.reserve_table(alloc, first + k)?;
        }
        Ok(())
    }

    /// Puts pages of zeros in free places.
    pub fn put_all(&mut self, first: u32, rights: Rights, mut fresh: Vec<Vec<u8>>)
        requires range { first + vec_len fresh ≤ 2 ^ 20 }
        requires placed { ArePlaced self.old first (vec_len fresh) }
        requires zeros { All (λ p. p.items ≡ zeros) fresh.items }
        requires free { AreFree (memory_in self.old) first (vec_len fresh) }
        ensures memory { memory_in self.new ≡ with_pages (memory_in self.old) first (vec_len fresh)
            (Some rights) }
        ensures count { mapped_pages (memory_in self.new)
            ≡ mapped_pages (memory_in self.old) + vec_len fresh }
    {
        'pages: while let Some(bytes) = fresh.pop() {
            self.put(first + fresh.len() as u32, rights, bytes);
        }
    }

    /// Whether a page is mapped.
    pub fn is_page_mapped(&self, number: u32) -> bool
        ensures { result ≡ is_some ((memory_in self.now).rights number) }
    {
        !self.page(u64::from(number)).1.is_empty()
    }

    // Takes a page away, and says whether it was mapped.
    fn take(&mut self, alloc: Global, number: u32) -> bool
        ensures memory { memory_in self.new ≡ with_pages (memory_in self.old) number 1 None }
        ensures was { result ≡ is_some ((memory_in self.old).rights number) }
    {
        let mapped = self.is_page_mapped(number);
        if mapped {
            self.put(number, NO_RIGHTS, Vec::new(alloc));
        }
        mapped
    }

    /// Takes pages away, and says how many of them were mapped.
    pub fn take_all(&mut self, alloc: Global, first: u32, count: u32) -> u32
        requires { first + count ≤ 2 ^ 20 }
        ensures memory { memory_in self.new ≡ with_pages (memory_in self.old) first count None }
        ensures count { mapped_pages (memory_in self.new) + result
            ≡ mapped_pages (memory_in self.old) }
    {
        let mut taken = 0;
        for k in 0..count {
            if self.take(alloc, first + k) {
                taken += 1;
            }
        }
        taken
    }

    /// Takes pages of one table away, and says how many of them were mapped. If they are all its pages, the table goes too, so
    /// that it is not gone over again.
    pub fn take_in_table(&mut self, alloc: Global, first: u32, count: u32) -> u32
        requires some { 0 < count }
        requires range { first + count ≤ 2 ^ 20 }
        requires within { first % 1024 + count ≤ 1024 }
        ensures memory { memory_in self.new ≡ with_pages (memory_in self.old) first count None }
        ensures count { mapped_pages (memory_in self.new) + result
            ≡ mapped_pages (memory_in self.old) }
    {
        let taken = self.take_all(alloc, first, count);
        if count as usize == TABLE_ENTRIES {
            self.drop_table(alloc, first);
        }
        taken
    }

    /// Sets the rights of mapped pages.
    pub fn set_all_rights(&mut self, first: u32, count: u32, rights: Rights)
        requires range { first + count ≤ 2 ^ 20 }
        requires mapped { ArePagesMapped (memory_in self.old) first count }
        ensures memory { memory_in self.new ≡ with_rights (memory_in self.old) first count rights }
        ensures count { mapped_pages (memory_in self.new) ≡ mapped_pages (memory_in self.old) }
    {
        for k in 0..count {
            self.set_rights(first + k, rights);
        }
    }
}

/// `count` new pages.
pub fn zero_pages(alloc: Global, count: u32) -> Result<Vec<Vec<u8>>, AllocError>
    ensures count { IfOk result (λ v. vec_len v ≡ count) }
    ensures zeros { IfOk result (λ v. All (λ p. p.items ≡ zeros) v.items) }
{
    let mut pages = Vec::new(alloc);
    for _ in 0..count {
        pages.push(zero_page(alloc)?)?;
    }
    Ok(pages)
}
