//! What a guest may do with a page.

/// What the guest may do with the bytes of a page.
#[derive(Clone, Copy, Debug, PartialEq, Eq)]
pub struct Rights {
    pub read: bool,
    pub write: bool,
    pub exec: bool,
}
