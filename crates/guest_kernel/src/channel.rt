//! What a guest writes to.

/// What a guest writes to: its standard output, or its standard error.
#[derive(Clone, Copy, Debug, PartialEq, Eq)]
pub enum Channel {
    Out,
    Err,
}
