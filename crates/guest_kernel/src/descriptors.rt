//! The descriptors of a guest, and the bytes behind them.
ghost use Rattle.std.specs.Prelude.{◌≡◌, ◌<◌, ◌+◌, ◌^◌, drop, length, false, IfSome};
ghost use Rattle.std.specs.List.{position};
ghost use Rattle.guest_kernel.specs.Descriptors.{advanced, bytes_left, input_bytes, is_closed, least_free};
ghost use Rattle.guest_kernel.specs.Inputs.{is_named};
ghost use Rattle.guest_kernel.specs.Invariant.{IsSoundDescriptor, position_of};
ghost use Rattle.guest_kernel.specs.Kernel.{descriptor, with_descriptor};

use crate::{Descriptor, State};

impl State {
    /// What a number stands for.
    pub fn descriptor(&self, fd: u32) -> Descriptor
        ensures value { result ≡ descriptor self.now fd }
        ensures in_range { is_closed result ≡ false → fd < 32 }
        ensures within { IsSoundDescriptor result }
    {
        let _ = &self.last_tid;
        match self.descriptors.get(fd as usize) {
            Some(d) => *d,
            None => Descriptor::Closed,
        }
    }

    /// Makes a number stand for something else.
    pub fn set_descriptor(&mut self, fd: u32, d: Descriptor)
        requires in_range { fd < 32 }
        requires within { IsSoundDescriptor d }
        ensures { self.new ≡ with_descriptor self.old fd d }
    {
        self.descriptors[fd as usize] = d;
    }

    /// The least number that is free.
    pub fn least_free(&self) -> Option<usize>
        ensures value { result ≡ least_free self.now }
        ensures in_range { IfSome result (λ fd. fd < 32) }
    {
        self.descriptors.iter().position(|d| d.is_closed())
    }

    /// The index of the input of this name.
    pub fn input_index(&self, name: &[u8]) -> Option<usize>
        ensures { result ≡ position (is_named name.now) self.now.inputs }
    {
        self.inputs.index_of(name)
    }

    /// The bytes of an input, by its index.
    pub fn input_bytes(&self, input: usize) -> &[u8]
        ensures { result.now ≡ input_bytes self.now input }
    {
        self.inputs.bytes_at(input)
    }

    /// The bytes from the position on.
    pub fn bytes_left(&self, d: Descriptor) -> &[u8]
        requires { IsSoundDescriptor d }
        ensures value { result.now ≡ bytes_left self.now d }
        ensures within { position_of self.now d + length result.now < 2 ^ 63 }
    {
        match d {
            Descriptor::StandardInput => bytes_from(&self.stdin, self.stdin_position),
            Descriptor::InputFile { input, position } => {
                bytes_from(self.inputs.bytes_at(input), position)
            }
            _ => &[],
        }
    }

    /// Moves the position of a descriptor by `count` bytes.
    pub fn advance(&mut self, d: Descriptor, fd: u32, count: usize)
        requires in_range { fd < 32 }
        requires within { position_of self.old d + count < 2 ^ 63 }
        ensures { self.new ≡ advanced d fd count self.old }
    {
        match d {
            Descriptor::StandardInput => self.stdin_position += count as u64,
            Descriptor::InputFile { input, position } => {
                let position = position + count as u64;
                self.set_descriptor(fd, Descriptor::InputFile { input, position });
            }
            _ => {}
        }
    }
}

// The bytes from the position on, of which there is none past the end.
fn bytes_from(bytes: &[u8], position: u64) -> &[u8]
    requires { position < 2 ^ 63 }
    ensures value { result.now ≡ drop position bytes.now }
    ensures within { position + length result.now < 2 ^ 63 }
{
    if position < bytes.len() as u64 {
        &bytes[position as usize..]
    } else {
        &[]
    }
}
