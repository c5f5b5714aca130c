//! The partial sums of a frame.
ghost use Rattle.std.specs.Prelude.{◌≡◌};
ghost use Rattle.shadow_stack.specs.Frames.{FitsSums, plus};

/// The part of an activation's sums that is kept in its frame: the sum over its frame and all those inside it is the plain
/// part of its size, and its plain read memory size. A part alone can be below zero.
#[derive(Clone, Copy, Debug, PartialEq, Eq)]
pub struct Sums {
    pub plain: i64,
    pub bare: i64,
}

impl Sums {
    /// No word.
    pub const NONE: Sums = Sums { plain: 0, bare: 0 };

    /// Both together.
    pub(crate) fn plus(self, by: Sums) -> Sums
        requires { FitsSums (plus self by) }
        ensures { result ≡ plus self by }
    {
        Sums {
            plain: self.plain + by.plain,
            bare: self.bare + by.bare,
        }
    }
}
