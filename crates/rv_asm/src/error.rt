//! Why a program is not assembled.
use std::alloc::{AllocError, AllocFailed};
use thiserror::Error;

/// Why a call of the assembler is refused.
#[derive(Clone, Copy, Debug, PartialEq, Eq, Error)]
pub enum AsmError {
    /// A jump goes to this label, which is not bound. No jump before it goes to such a label.
    #[error("a label that is not bound")]
    Unbound { label: u32 },
    /// The label is bound already.
    #[error("a label that is bound already")]
    Twice { label: u32 },
    /// The offset of the jump at this word is out of the range of its form. No jump before it has such an offset.
    #[error("a jump that is too far")]
    Reach { at: u32 },
    /// Of `emit`: the instruction has no word. Of `jump`: it is neither JAL nor a branch. It would be this word.
    #[error("an instruction that can't be written")]
    Unencodable { at: u32 },
    /// Out of memory.
    #[error("out of memory")]
    Memory,
}

impl From<AllocError> for AsmError {
    ghost use Rattle.std.specs.Prelude.{◌≡◌};
    ghost use Rattle.rv_asm.specs.declared.error.AsmError.TheVariants.{Memory};

    ghost from_gives = { λ _ e. e ≡ Memory };

    fn from(_error: AllocError) -> AsmError {
        AsmError::Memory
    }
}

impl<T: Drop> From<AllocFailed<T>> for AsmError {
    ghost use Rattle.std.specs.Prelude.{◌≡◌};
    ghost use Rattle.rv_asm.specs.declared.error.AsmError.TheVariants.{Memory};

    ghost from_gives = { λ _ e. e ≡ Memory };

    fn from(_error: AllocFailed<T>) -> AsmError {
        AsmError::Memory
    }
}
