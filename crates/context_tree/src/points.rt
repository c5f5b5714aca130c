//! The points of contexts, by number.
ghost use Rattle.std.specs.Prelude.{◌≡◌, ◌≤◌, ◌+◌, ◌++◌, [], List, ℕ, length, map, IfOk, IsOk, OnErr, OnOk};
ghost use Rattle.std.specs.List.{All};
ghost use Rattle.trace_model.specs.declared.slow_profile.Done.{Done};
ghost use Rattle.context_tree.specs.Numbers.{NumbersStandFor};
ghost use Rattle.cost_points.specs.Search.{HasRoom};
ghost use Rattle.context_tree.specs.Private.Pending.{known, with_point};
ghost use Rattle.context_tree.specs.Points.{points_of};
ghost use Rattle.context_tree.specs.Private.Ways.{ArePoints, HasSpare, IsWay, lists, tagged, up, with_ended};

use crate::ContextNumbers;
use cost_points::{Point, SortedPoints, insert_point};
use std::alloc::{AllocError, Global};
use std::marker::Model;
use trace_model::Done;

/// The points of a context, sizes rising. Contracts see them as a list, and beside it the room: how many can be added without
/// memory. The point of the last activation may stand apart, so that adding it does not allocate: it joins the others as room
/// is made for the next one.
#[derive(Drop)]
pub(crate) struct ContextPoints {
    alloc: Global,
    earlier: Option<SortedPoints>,
    last: Option<Point>,
}

impl Model for ContextPoints {
    ghost use Rattle.std.specs.Option.{ForSome};
    ghost use Rattle.context_tree.specs.Private.Pending.{MayJoin, known, with_last};
    ghost use Rattle.context_tree.specs.Private.Ways.{PointList};

    ghost Value = { PointList };

    ghost view = { λ c. with_last c.last (known c.earlier) };

    ghost invariant = { λ c. ForSome c.last (MayJoin (known c.earlier)) };
}

// The point joins the points.
fn join(alloc: Global, points: &mut Option<SortedPoints>, point: Point) -> Result<(), AllocError>
    requires points { ArePoints (known points.old) }
    requires fits { HasRoom point }
    ensures ok { OnOk result (known points.new ≡ with_point point (known points.old)) }
    ensures err { OnErr result (known points.new ≡ known points.old) }
{
    match points {
        Some(points) => points.add(point),
        None => {
            *points = Some(SortedPoints::of_one(alloc, point)?);
            Ok(())
        }
    }
}

// The points in one piece.
fn in_one(alloc: Global, points: &Option<SortedPoints>) -> Result<Vec<Point>, AllocError>
    ensures { IfOk result (λ all. all.items ≡ known points.now) }
{
    match points {
        Some(points) => points.list(alloc),
        None => Ok(Vec::new(alloc)),
    }
}

impl ContextPoints {
    /// No point.
    pub(crate) fn new(alloc: Global) -> ContextPoints
        ensures { result.points ≡ [] }
    {
        ContextPoints {
            alloc,
            earlier: None,
            last: None,
        }
    }

    /// The points.
    pub(crate) fn list(&self, alloc: Global) -> Result<Vec<Point>, AllocError>
        ensures { IfOk result (λ points. points.items ≡ self.now.points) }
    {
        let mut points = in_one(alloc, &self.earlier)?;
        if let Some(point) = self.last {
            points.reserve(1)?;
            insert_point(&mut points, point);
        }
        Ok(points)
    }

    // Makes room for one point.
    fn reserve(&mut self) -> Result<(), AllocError>
        ensures room { OnOk result (1 ≤ self.new.room) }
        ensures points { self.new.points ≡ self.old.points }
    {
        if let Some(point) = self.last {
            join(self.alloc, &mut self.earlier, point)?;
            self.last = None;
        }
        Ok(())
    }

    // Adds an activation that ended. There is room, so it does not allocate.
    fn add(&mut self, ended: Done)
        requires spare { 1 ≤ self.old.room }
        requires points { ArePoints self.old.points }
        ensures { self.new.points ≡ with_ended ended self.old.points }
    {
        self.last = Some(Point::of_one(ended));
    }
}

/// Makes room for one point more in the context of the number `from`, and in those above it, `count` in all.
pub(crate) fn reserve_up(
    points: &mut Vec<ContextPoints>,
    numbers: &ContextNumbers,
    from: u32,
    count: usize,
) -> Result<(), AllocError>
    requires long { length points.old.items ≡ length numbers.now }
    requires way { IsWay numbers.now from count }
    ensures points { lists points.new.items ≡ lists points.old.items }
    ensures room { OnOk result (HasSpare points.new.items numbers.now from count) }
    ensures no_allocation { count ≡ 0 → IsOk result }
{
    let mut n = from;
    for _ in 0..count {
        let context = &mut points[n as usize - 1];
        context.reserve()?;
        n = numbers.place(n).0;
    }
    Ok(())
}

/// Adds activations that ended, the innermost first: the first is of the context of the number `from`, and each other of the
/// one right above that before it. Gives the number of the one above the last. There is room, so it does not allocate.
pub(crate) fn add_up(
    points: &mut Vec<ContextPoints>,
    numbers: &ContextNumbers,
    from: u32,
    ended: &[Done],
) -> u32
    requires long { length points.old.items ≡ length numbers.now }
    requires way { IsWay numbers.now from (length ended.now) }
    requires spare { HasSpare points.old.items numbers.now from (length ended.now) }
    requires each { All ArePoints (lists points.old.items) }
    ensures above { result ≡ up numbers.now from (length ended.now) }
    ensures points { (contexts : List (List ℕ)) (members : List (List ℕ × Done))
        → NumbersStandFor numbers.now contexts
        → lists points.old.items ≡ map (points_of members) contexts
        → lists points.new.items ≡ map (points_of (members ++ tagged numbers.now contexts from ended.now)) contexts }
{
    let mut number = from;
    for done in ended {
        let context = &mut points[number as usize - 1];
        context.add(*done);
        number = numbers.place(number).0;
    }
    number
}
