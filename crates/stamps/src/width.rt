//! The widths of stamps.
ghost use Rattle.std.specs.Prelude.{◌+◌, ◌*◌, ◌≤◌, ◌↔◌, ℕ};
ghost use Rattle.stamps.specs.Widths.{greatest};

use crate::Stamp;

/// The width of stamps in bits.
#[derive(Clone, Copy, Debug, PartialEq, Eq)]
pub enum StampBits {
    B8,
    B16,
    B32,
}

/// How many activations of all threads can be open at once: three stamps for each and three more fit in the width.
pub fn depth_limit(bits: StampBits) -> u32
    ensures { (n : ℕ) → (n ≤ result) ↔ (3 * (n + 1) ≤ greatest bits) }
{
    let most = match bits {
        StampBits::B8 => <u8 as Stamp>::MAX,
        StampBits::B16 => <u16 as Stamp>::MAX,
        StampBits::B32 => <u32 as Stamp>::MAX,
    };
    most / 3 - 1
}
