//! The points of contexts in a table.
ghost use Rattle.std.specs.Prelude.{◌≡◌, ◌+◌, ◌<◌, ◌^◌, ◌++◌, true, is_some, List, sum_by, OnOk};
ghost use Rattle.std.specs.List.{All};
ghost use Rattle.trace_model.specs.declared.slow_profile.Done.{Done};
ghost use Rattle.cost_points.specs.Contents.{contents_of};
ghost use Rattle.cost_points.specs.Valid.{IsPoint};
ghost use Rattle.context_tree.specs.Points.{points_from};

use cost_points::{Point, Table};
use guest_words::Addr;
use std::alloc::AllocError;

/// Adds points of the routine at the entry.
pub(crate) fn add_points(table: &mut Table, entry: Addr, points: &[Point]) -> Result<(), AllocError>
    requires told { All (λ p. is_some p.split ≡ true) points.now }
    requires each { All IsPoint points.now }
    requires few { table.old.members + sum_by (λ p. p.calls) points.now < 2 ^ 63 }
    ensures { (added more : List Done) → table.old ≡ contents_of added
        → All (λ d. d.entry ≡ entry) more → points.now ≡ points_from more
        → OnOk result (table.new ≡ contents_of (added ++ more)) }
{
    for point in points {
        table.add_point(entry, point)?;
    }
    Ok(())
}
