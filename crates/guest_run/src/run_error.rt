//! Why a run is given up.

use guest_kernel::Channel;
use std::alloc::AllocError;
use thiserror::Error;

/// Why a run is given up before its end.
#[derive(Clone, Copy, Debug, PartialEq, Eq, Error)]
pub enum RunError {
    /// A put of the guest's output failed.
    #[error("the guest's output cannot be put")]
    CannotPut { channel: Channel },
    /// Out of memory.
    #[error("out of memory")]
    Memory,
}

impl From<AllocError> for RunError {
    ghost use Rattle.std.specs.Prelude.{◌≡◌};
    ghost use Rattle.guest_run.specs.declared.run_error.RunError.TheVariants.{Memory};

    ghost from_gives = { λ _ e. e ≡ Memory };

    fn from(_error: AllocError) -> RunError {
        RunError::Memory
    }
}
