//! Why a profiler does not take an event.
use std::alloc::AllocError;
use thiserror::Error;

/// Why a profiler does not take an event.
#[derive(Clone, Copy, Debug, PartialEq, Eq, Error)]
pub enum ApplyError {
    /// The activation that begins is one more than stamps can tell apart: `pending` are open.
    #[error("too deep: {pending} activations are open")]
    TooDeep { pending: u64 },
    /// Out of memory.
    #[error("out of memory")]
    Memory,
}

impl From<AllocError> for ApplyError {
    ghost use Rattle.std.specs.Prelude.{◌≡◌};
    ghost use Rattle.shadow_core.specs.declared.apply_error.ApplyError.TheVariants.{Memory};

    ghost from_gives = { λ _ e. e ≡ Memory };

    fn from(_error: AllocError) -> ApplyError {
        ApplyError::Memory
    }
}
