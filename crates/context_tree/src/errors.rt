//! Why a tree takes no event.
use std::alloc::AllocError;
use thiserror::Error;

/// Why a tree takes no event.
#[derive(Clone, Copy, Debug, PartialEq, Eq, Error)]
pub enum TreeError {
    /// There are as many contexts as can be numbered.
    #[error("too many contexts")]
    TooMany,
    /// Out of memory.
    #[error("out of memory")]
    Memory,
}

impl From<AllocError> for TreeError {
    ghost use Rattle.std.specs.Prelude.{◌≡◌};
    ghost use Rattle.context_tree.specs.declared.errors.TreeError.TheVariants.{Memory};

    ghost from_gives = { λ _ e. e ≡ Memory };

    fn from(_error: AllocError) -> TreeError {
        TreeError::Memory
    }
}
