//! Bytes by address: their permissions, and reads and writes of ranges.
ghost use Rattle.std.specs.Prelude.{IfSome, ◌≡◌, ◌<◌, ◌≤◌, ◌+◌, ◌^◌, ◌%◌, drop, length, OnOk, OnErr, IfNone};
ghost use Rattle.guest_memory.specs.Memory.{AreMapped, byte_refusal, first_refusal, number_at, byte_count, bytes_at, with_bytes, loaded, unless_refused};
ghost use Rattle.guest_memory.specs.declared.refusal.Permission.TheVariants as permission;
ghost use Rattle.guest_memory.specs.State.{memory_in};
ghost use Rattle.byteorder.specs.Endian.{little_number};

use crate::Size;
use crate::directory::{Directory, PAGE_SIZE, overwrite};
use crate::refusal::{MemError, Permission};
use guest_words::{le16, le32};

impl Directory {
    /// Why the byte at an address is refused, if it is.
    #[inline(always)]
    pub fn byte_refusal(&self, permission: Permission, at: u64) -> Option<MemError>
        ensures value { result ≡ byte_refusal (memory_in self.now) permission at }
        ensures range { IfNone result (at < 2 ^ 32) }
    {
        let page = self.page(at >> 12);
        if page.1.is_empty() {
            Some(MemError::Unmapped)
        } else if permission.is_allowed(page.0) {
            None
        } else {
            Some(permission.denial())
        }
    }

    /// Why the first of these bytes that is refused is refused, if one is.
    pub fn first_refusal(&self, permission: Permission, at: u64, count: u64) -> Option<MemError>
        ensures { result ≡ first_refusal (memory_in self.now) permission at count }
    {
        let mut next = at;
        let mut left = count;
        'pages: while left > 0 {
            let refusal = self.byte_refusal(permission, next);
            if refusal.is_some() {
                return refusal;
            }
            let here = left.min(PAGE_SIZE as u64 - next % PAGE_SIZE as u64);
            next += here;
            left -= here;
        }
        None
    }

    // The little-endian number of that size, whose bytes are mapped.
    fn number(&self, at: u64, size: Size) -> u32
        requires range { at < 2 ^ 32 }
        requires mapped { AreMapped (memory_in self.now) at (byte_count size) }
        ensures { result ≡ number_at (memory_in self.now) at (byte_count size) }
    {
        let mut bytes = [0; 4];
        self.read_all(at, &mut bytes[..size.bytes()]);
        number_from(&bytes, 0, size)
    }

    /// What a load of that size answers.
    #[inline(always)]
    pub fn loaded(&self, permission: Permission, at: u64, size: Size) -> Result<u32, MemError>
        requires { at < 2 ^ 32 }
        ensures { result ≡ loaded (memory_in self.now) permission at (byte_count size) }
    {
        match self.number_within(permission, at, size) {
            Some(n) => Ok(n),
            None => self.loaded_apart(permission, at, size),
        }
    }

    /// The number that a load of that size answers, where its bytes lie within a page that allows it. Where they don't, None,
    /// which says nothing of the load.
    #[inline(always)]
    pub fn number_within(&self, permission: Permission, at: u64, size: Size) -> Option<u32>
        requires { at < 2 ^ 32 }
        ensures { IfSome result (λ n. loaded (memory_in self.now) permission at (byte_count size) ≡ Ok n) }
    {
        let page = self.page(at >> 12);
        let start = at as usize % PAGE_SIZE;
        if start + size.bytes() <= page.1.len() && permission.is_allowed(page.0) {
            Some(number_from(page.1, start, size))
        } else {
            None
        }
    }

    // What any load answers.
    #[cold]
    #[inline(never)]
    fn loaded_apart(&self, permission: Permission, at: u64, size: Size) -> Result<u32, MemError>
        requires { at < 2 ^ 32 }
        ensures { result ≡ loaded (memory_in self.now) permission at (byte_count size) }
    {
        match self.first_refusal(permission, at, size.bytes() as u64) {
            Some(refusal) => Err(refusal),
            None => Ok(self.number(at, size)),
        }
    }

    /// Writes bytes that lie within one page, where they can be written.
    #[inline(always)]
    pub fn store_within(&mut self, at: u64, bytes: &[u8]) -> Result<(), MemError>
        requires some { 0 < length bytes.now }
        requires within { at % 4096 + length bytes.now ≤ 4096 }
        ensures result { result ≡ unless_refused (first_refusal
            (memory_in self.old) permission.Write at (length bytes.now)) tt }
        ensures ok { OnOk result (memory_in self.new
            ≡ with_bytes (memory_in self.old) at bytes.now) }
        ensures err { OnErr result (memory_in self.new ≡ memory_in self.old) }
    {
        match self.byte_refusal(Permission::Write, at) {
            Some(refusal) => Err(refusal),
            None => {
                self.write(at, bytes);
                Ok(())
            }
        }
    }

    /// Reads bytes, each of which is mapped.
    pub fn read_all(&self, at: u64, into: &mut [u8])
        requires range { at < 2 ^ 32 }
        requires mapped { AreMapped (memory_in self.now) at (length into.old) }
        ensures { into.new ≡ bytes_at (memory_in self.now) at (length into.old) }
    {
        let mut done = 0;
        'pages: while done < into.len() {
            let next = at + done as u64;
            let start = next as usize % PAGE_SIZE;
            let here = (into.len() - done).min(PAGE_SIZE - start);
            let page = self.page(next >> 12);
            overwrite(into, done, &page.1[start..start + here]);
            done += here;
        }
    }

    /// Writes bytes, each of which is mapped.
    pub fn write_all(&mut self, at: u64, bytes: &[u8])
        requires range { at < 2 ^ 32 }
        requires mapped { AreMapped (memory_in self.old) at (length bytes.now) }
        ensures { memory_in self.new ≡ with_bytes (memory_in self.old) at bytes.now }
    {
        let mut done = 0;
        'pages: while done < bytes.len() {
            let next = at + done as u64;
            let here = (bytes.len() - done).min(PAGE_SIZE - next as usize % PAGE_SIZE);
            self.write(next, &bytes[done..done + here]);
            done += here;
        }
    }
}

// The little-endian number of that size in a slice.
#[inline(always)]
fn number_from(bytes: &[u8], start: usize, size: Size) -> u32
    requires { start + byte_count size ≤ length bytes.now }
    ensures { result ≡ little_number (byte_count size) (drop start bytes.now) }
{
    match size {
        Size::One => u32::from(bytes[start]),
        Size::Two => u32::from(le16(bytes, start)),
        Size::Four => le32(bytes, start),
    }
}
