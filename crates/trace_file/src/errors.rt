//! Why bytes are not read as a trace.
ghost use Rattle.std.specs.Prelude.{◌≡◌};
ghost use Rattle.trace_file.specs.Errors.{refusal_number};

use std::alloc::AllocError;
use thiserror::Error;

/// Why bytes are not read as a trace. A place is how many bytes stand before the record.
#[derive(Clone, Copy, Debug, PartialEq, Eq, Error)]
pub enum TraceError {
    /// The first line is not that of a trace.
    #[error("not a trace")]
    Magic,
    /// The record has no form, or a number out of its range, or it comes behind the end.
    #[error("the record at byte {at} may not stand there")]
    Record { at: u64 },
    /// The record's event breaks the order of events or comes behind a name, or its entry does not rise.
    #[error("the record at byte {at} is out of order")]
    Order { at: u64 },
    /// The bytes end before the trace does.
    #[error("the trace is cut off")]
    Short,
    /// Out of memory.
    #[error("out of memory")]
    Memory,
}

impl From<AllocError> for TraceError {
    ghost use Rattle.std.specs.Prelude.{◌≡◌};
    ghost use Rattle.trace_file.specs.declared.errors.TraceError.TheVariants.{Memory};

    ghost from_gives = { λ _ e. e ≡ Memory };

    fn from(_error: AllocError) -> TraceError {
        TraceError::Memory
    }
}

impl TraceError {
    /// The number of the refusal. Out of memory has none.
    pub fn number(self) -> Option<u32>
        ensures { result ≡ refusal_number self }
    {
        match self {
            TraceError::Magic => Some(1),
            TraceError::Record { .. } => Some(2),
            TraceError::Order { .. } => Some(3),
            TraceError::Short => Some(4),
            TraceError::Memory => None,
        }
    }
}
