//! The shape of a cache.
ghost use Rattle.std.specs.Prelude.{◌≡◌};
ghost use Rattle.cache_lines.specs.Shapes.{shape_of};

use std::marker::Model;

/// How many sets a cache can have.
pub const SETS: u32 = 65_536;

/// How many lines a set can hold.
pub const WAYS: u32 = 64;

/// The fewest bytes of a line.
pub const LEAST_LINE: u32 = 4;

/// The most bytes of a line.
pub const LINE: u32 = 4096;

/// How many sets a cache has, how many lines each can hold, and how many bytes a line has.
#[derive(Clone, Copy, Debug, PartialEq, Eq)]
pub struct Shape {
    pub(crate) sets: u32,
    pub(crate) ways: u32,
    pub(crate) line: u32,
}

impl Model for Shape {
    ghost use Rattle.std.specs.Prelude.{◌≡◌, Some};
    ghost use Rattle.cache_lines.specs.Shapes.{Dimensions, shape_of};

    ghost Value = { Dimensions };

    ghost view = { λ s. record { sets = s.sets; ways = s.ways; line = s.line } };

    ghost invariant = { λ s. shape_of s.sets s.ways s.line ≡ Some (record {
      sets = s.sets;
      ways = s.ways;
      line = s.line;
    }) };

    ghost inverse = { λ f. record { sets = f.sets; ways = f.ways; line = f.line } };
}

impl Shape {
    /// The shape of these numbers, where the number of sets is a power of two up to `SETS`, that of ways is 1 to `WAYS`, and
    /// the bytes of a line are a power of two from `LEAST_LINE` to `LINE`. Otherwise None.
    pub fn new(sets: u32, ways: u32, line: u32) -> Option<Shape>
        ensures { result ≡ shape_of sets ways line }
    {
        let are_sets = sets.is_power_of_two() && sets <= SETS;
        let are_ways = 1 <= ways && ways <= WAYS;
        let is_line = line.is_power_of_two() && LEAST_LINE <= line && line <= LINE;
        if are_sets && are_ways && is_line {
            Some(Shape { sets, ways, line })
        } else {
            None
        }
    }
}
