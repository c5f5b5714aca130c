//! File descriptors.
use crate::Channel;

/// What a descriptor's number stands for.
#[derive(Clone, Copy, Debug, PartialEq, Eq)]
pub enum Descriptor {
    /// Nothing: the number is free.
    Closed,
    StandardInput,
    Output { channel: Channel },
    /// The input at an index of the list, and the position in it.
    InputFile { input: usize, position: u64 },
}

impl Descriptor {
    ghost use Rattle.std.specs.Prelude.{◌≡◌, ◌<◌, ◌^◌};
    ghost use Rattle.guest_kernel.specs.Descriptors.{is_closed, is_input_file, is_source, channel, with_position};
    ghost use Rattle.guest_kernel.specs.Invariant.{IsSoundDescriptor};

    /// Whether the number is free.
    pub fn is_closed(self) -> bool
        ensures { result ≡ is_closed self }
    {
        matches!(self, Descriptor::Closed)
    }

    /// Whether it is a file with a position.
    pub fn is_input_file(self) -> bool
        ensures { result ≡ is_input_file self }
    {
        matches!(self, Descriptor::InputFile { .. })
    }

    /// Whether it can be read.
    pub fn is_source(self) -> bool
        ensures { result ≡ is_source self }
    {
        matches!(
            self,
            Descriptor::StandardInput | Descriptor::InputFile { .. }
        )
    }

    /// The channel of output.
    pub fn channel(self) -> Option<Channel>
        ensures { result ≡ channel self }
    {
        match self {
            Descriptor::Output { channel } => Some(channel),
            _ => None,
        }
    }

    /// A file at another position.
    pub fn with_position(self, position: u64) -> Descriptor
        requires { position < 2 ^ 63 }
        ensures value { result ≡ with_position self position }
        ensures within { IsSoundDescriptor self → IsSoundDescriptor result }
    {
        match self {
            Descriptor::InputFile { input, .. } => Descriptor::InputFile { input, position },
            other => other,
        }
    }
}
