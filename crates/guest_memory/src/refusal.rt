//! The permission that an access to a byte needs, and why it is refused.
ghost use Rattle.std.specs.Prelude.{◌≡◌};
ghost use Rattle.guest_memory.specs.Memory.{allows, denial};

use guest_words::Rights;
use std::alloc::AllocError;
use thiserror::Error;

/// Why a call was refused.
#[derive(Clone, Copy, Debug, PartialEq, Eq, Error)]
pub enum MemError {
    #[error("the byte is not mapped")]
    Unmapped,
    #[error("the byte cannot be read")]
    NotReadable,
    #[error("the byte cannot be written")]
    NotWritable,
    #[error("the byte cannot be run")]
    NotExecutable,
    #[error("too many pages are mapped")]
    NoRoom,
    #[error("out of memory")]
    Memory,
}

impl From<AllocError> for MemError {
    ghost use Rattle.guest_memory.specs.declared.refusal.MemError.TheVariants.{Memory};

    ghost from_gives = { λ _ e. e ≡ Memory };

    fn from(_: AllocError) -> Self {
        MemError::Memory
    }
}

/// What an access to a byte has to be allowed.
#[derive(Clone, Copy, PartialEq, Eq, Debug)]
pub enum Permission {
    Read,
    Write,
    Execute,
}

impl Permission {
    /// Whether these rights give it.
    #[inline(always)]
    pub fn is_allowed(self, rights: Rights) -> bool
        ensures { result ≡ allows self rights }
    {
        match self {
            Permission::Read => rights.read,
            Permission::Write => rights.write,
            Permission::Execute => rights.exec,
        }
    }

    /// How it is refused where the byte is mapped.
    #[inline(always)]
    pub fn denial(self) -> MemError
        ensures { result ≡ denial self }
    {
        match self {
            Permission::Read => MemError::NotReadable,
            Permission::Write => MemError::NotWritable,
            Permission::Execute => MemError::NotExecutable,
        }
    }
}
