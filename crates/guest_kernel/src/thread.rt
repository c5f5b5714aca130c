//! A live thread.
use guest_words::{Addr, Tid};

/// A thread that lives, as the kernel keeps it. Its registers are the machine's.
#[derive(Clone, Copy, Debug, PartialEq, Eq)]
pub struct Thread {
    pub tid: Tid,
    /// Where a zero is written when it ends, or 0: set_tid_address(2).
    pub clear_tid: Addr,
}
