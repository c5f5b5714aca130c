//! What became of an instruction.
use guest_words::{FaultKind, Word};

/// The words of memory that an instruction accessed.
#[derive(Clone, Copy, Debug, PartialEq, Eq)]
pub enum Access {
    Nothing,
    /// `count` words, from the first on.
    Read { first: Word, count: u32 },
    Write { first: Word, count: u32 },
    /// A read, and then a write of the same word.
    Both { word: Word },
}

/// What became of an instruction.
#[derive(Clone, Copy, Debug, PartialEq, Eq)]
pub enum Outcome {
    Went { access: Access },
    /// ECALL, which the kernel answers. Nothing has changed yet.
    Syscall,
    /// The instruction can't run. Nothing has changed.
    Fault { kind: FaultKind },
}

impl Outcome {
    /// It went on and touched no memory.
    pub(crate) const WENT: Outcome = Outcome::Went {
        access: Access::Nothing,
    };
}
