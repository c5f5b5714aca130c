//! One thread that waits.
use guest_words::{Addr, Tid};

/// A thread that waits at an address, with the bits that a wake has to meet.
#[derive(Clone, Copy, Debug, PartialEq, Eq)]
pub struct Waiter {
    pub at: Addr,
    pub tid: Tid,
    pub bits: u32,
}
