//! The point of a size.
ghost use Rattle.std.specs.Prelude.{◌≡◌, [], ◌∷◌};
ghost use Rattle.cost_points.specs.Points.{point_of_one, split_of};
ghost use Rattle.cost_points.specs.Merging.{merged, split_both, split_sum};
ghost use Rattle.cost_points.specs.Search.{HasRoom, HasSplitRoom};

use trace_model::Done;

/// The parts of the sizes of activations, in words, each summed up over them: the reads of words that no one else wrote last,
/// that another thread wrote last, and that the kernel filled last; and beside these their plain read memory sizes.
#[derive(Clone, Copy, Debug, PartialEq, Eq)]
pub struct Split {
    pub plain: u128,
    pub thread: u128,
    pub kernel: u128,
    pub bare: u128,
}

/// The activations of a routine that had one size: that size in words, how many they are, the least, the greatest and the
/// sum of their costs in instructions, and the parts of their sizes. A report of version 1 does not say these parts.
#[derive(Clone, Copy, Debug, PartialEq, Eq)]
pub struct Point {
    pub size: u64,
    pub calls: u64,
    pub least: u64,
    pub most: u64,
    pub sum: u128,
    pub split: Option<Split>,
}

impl Split {
    // The parts of one activation.
    fn of_one(ended: Done) -> Split
        ensures { result ≡ split_of (ended ∷ []) }
    {
        Split {
            plain: u128::from(ended.plain),
            thread: u128::from(ended.thread),
            kernel: u128::from(ended.kernel),
            bare: u128::from(ended.bare),
        }
    }

    /// The parts of no activation.
    pub(crate) const NONE: Split = Split {
        plain: 0,
        thread: 0,
        kernel: 0,
        bare: 0,
    };

    /// The parts with those of others.
    pub(crate) fn plus(self, other: Split) -> Split
        requires own { HasSplitRoom self }
        requires others { HasSplitRoom other }
        ensures { result ≡ split_sum self other }
    {
        Split {
            plain: self.plain + other.plain,
            thread: self.thread + other.thread,
            kernel: self.kernel + other.kernel,
            bare: self.bare + other.bare,
        }
    }
}

impl Split {
    /// The parts with those of one more activation.
    #[inline(always)]
    pub(crate) fn add_one(&mut self, ended: &Done)
        requires { HasSplitRoom self.old }
        ensures { self.new ≡ split_sum self.old (split_of (ended.now ∷ [])) }
    {
        self.plain += u128::from(ended.plain);
        self.thread += u128::from(ended.thread);
        self.kernel += u128::from(ended.kernel);
        self.bare += u128::from(ended.bare);
    }
}

impl Point {
    /// The point of one activation.
    pub fn of_one(ended: Done) -> Point
        ensures { result ≡ point_of_one ended }
    {
        let Done { size, cost, .. } = ended;
        Point {
            size,
            calls: 1,
            least: cost,
            most: cost,
            sum: u128::from(cost),
            split: Some(Split::of_one(ended)),
        }
    }

    // The parts of both, where both are told.
    fn split_with(self, other: Point) -> Option<Split>
        requires own { HasRoom self }
        requires others { HasRoom other }
        ensures { result ≡ split_both self.split other.split }
    {
        match (self.split, other.split) {
            (Some(own), Some(others)) => Some(own.plus(others)),
            _ => None,
        }
    }

    /// The point with the activations of another of its size.
    pub(crate) fn merged(self, other: Point) -> Point
        requires own { HasRoom self }
        requires others { HasRoom other }
        ensures { result ≡ merged self other }
    {
        Point {
            size: self.size,
            calls: self.calls + other.calls,
            least: self.least.min(other.least),
            most: self.most.max(other.most),
            sum: self.sum + other.sum,
            split: self.split_with(other),
        }
    }
}
