//! Bytes in parts.
ghost use Rattle.std.specs.Prelude.{◌≡◌, ◌≤◌, take, length, true};
ghost use Rattle.guest_memory.specs.Guest.{memory_of};
ghost use Rattle.rv_exec.specs.Accesses.{can_read};
ghost use Rattle.guest_kernel.specs.Parts.{all_in_reach, bytes_of, total};

use crate::copies::copy_to;
use guest_memory::GuestMemory;
use guest_words::Addr;

/// A part of the bytes that one system call carries.
#[derive(Clone, Copy, Debug, PartialEq, Eq)]
pub struct IoVec {
    pub at: Addr,
    pub size: u32,
}

/// Copies the parts' bytes to the front of others, and says how many there are.
pub(crate) fn copy_parts(memory: &GuestMemory, parts: &[IoVec], front: &mut [u8]) -> usize
    requires reach { all_in_reach (can_read (memory_of memory.now)) parts.now ≡ true }
    requires room { total parts.now ≤ length front.old }
    ensures count { result ≡ total parts.now }
    ensures bytes { take result front.new ≡ bytes_of (memory_of memory.now) parts.now }
{
    let mut count = 0;
    for p in parts {
        copy_to(memory, p.at, &mut front[count..], p.size as usize);
        count += p.size as usize;
    }
    count
}
