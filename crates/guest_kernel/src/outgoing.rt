//! The bytes that a system call writes.
ghost use Rattle.std.specs.Prelude.{◌≡◌, ◌≤◌, true, None, IfOk};
ghost use Rattle.guest_memory.specs.Guest.{memory_of};
ghost use Rattle.guest_memory.specs.Memory.{bytes_at};
ghost use Rattle.guest_kernel.specs.Kernel.{output};
ghost use Rattle.rv_exec.specs.Accesses.{can_read};
ghost use Rattle.guest_kernel.specs.Parts.{all_in_reach, bytes_of, total};
ghost use Rattle.std.specs.Option.{option_map};

use crate::Channel;
use crate::copies::copy_to;
use crate::parts::{IoVec, copy_parts};
use guest_memory::GuestMemory;
use guest_words::Addr;
use std::alloc::{AllocError, Global};
use std::marker::Model;

/// The most bytes that one system call writes.
pub const WRITE_LIMIT: u32 = 65536;

/// The bytes of the last write and their channel. The room for them is taken as it is made.
#[derive(Drop)]
pub struct Outgoing {
    channel: Channel,
    count: usize,
    buffer: Vec<u8>,
}

impl Model for Outgoing {
    ghost use Rattle.std.specs.Prelude.{◌≡◌, ◌≤◌, ℕ, List, Option, take, length};
    ghost use Rattle.guest_kernel.specs.declared.channel.Channel.{Channel};
    ghost use Rattle.guest_kernel.specs.Kernel.{output};
    ghost use Rattle.guest_kernel.specs.declared.outgoing.TheConstants.{WRITE_LIMIT};

    ghost Value = { Option (Channel × List ℕ) };

    ghost view = { λ o. output o.channel (take o.count o.buffer.items) };

    ghost invariant = { λ o. (length o.buffer.items ≡ WRITE_LIMIT) × (o.count ≤ WRITE_LIMIT) };
}

impl Outgoing {
    /// A buffer from which nothing goes out.
    pub fn new(alloc: Global) -> Result<Outgoing, AllocError>
        ensures { IfOk result (λ out. out ≡ None) }
    {
        Ok(Outgoing {
            channel: Channel::Out,
            count: 0,
            buffer: vec![in alloc; 0u8; WRITE_LIMIT as usize]?,
        })
    }

    /// Drops the bytes of the last system call.
    pub fn clear(&mut self)
        ensures { self.new ≡ None }
    {
        self.count = 0;
    }

    /// The channel and the bytes; None where there is no byte.
    pub fn bytes(&self) -> Option<(Channel, &[u8])>
        ensures { option_map (λ out. (out.0, out.1.now)) result ≡ self.now }
    {
        if self.count == 0 {
            None
        } else {
            Some((self.channel, &self.buffer[..self.count]))
        }
    }

    /// Bytes of the guest's memory go out, each of which can be read.
    pub fn put(&mut self, channel: Channel, memory: &GuestMemory, at: Addr, count: u32)
        requires few { count ≤ WRITE_LIMIT }
        requires reach { can_read (memory_of memory.now) at count ≡ true }
        ensures { self.new ≡ output channel (bytes_at (memory_of memory.now) at count) }
    {
        self.channel = channel;
        self.count = count as usize;
        copy_to(memory, at, &mut self.buffer, self.count);
    }

    /// The bytes of the parts go out, each of which can be read.
    pub fn put_parts(&mut self, channel: Channel, memory: &GuestMemory, parts: &[IoVec])
        requires few { total parts.now ≤ WRITE_LIMIT }
        requires reach { all_in_reach (can_read (memory_of memory.now)) parts.now ≡ true }
        ensures { self.new ≡ output channel (bytes_of (memory_of memory.now) parts.now) }
    {
        self.channel = channel;
        self.count = copy_parts(memory, parts, &mut self.buffer);
    }
}
