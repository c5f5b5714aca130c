//! The points of one routine.
ghost use Rattle.std.specs.Prelude.{◌≡◌, [], ◌∷◌, ℕ, false, map, true, IfOk, IsOk, OnOk, OnErr};
ghost use Rattle.std.specs.List.{All};
ghost use Rattle.trace_model.specs.Profile.{HasParts};
ghost use Rattle.cost_points.specs.Keys.{IsRising};
ghost use Rattle.cost_points.specs.Merging.{point_added};
ghost use Rattle.cost_points.specs.Search.{HasRoom, IsAt};
ghost use Rattle.cost_points.specs.Points.{point_of_one};

use crate::{Point, SortedPoints};
use guest_words::Addr;
use std::alloc::{AllocError, Global};
use std::marker::Model;
use trace_model::Done;

/// A routine's entry and its points, sizes rising.
#[derive(Drop)]
pub struct RoutinePoints {
    pub entry: Addr,
    points: SortedPoints,
}

impl Model for RoutinePoints {
    ghost use Rattle.cost_points.specs.Points.{Routine};

    ghost Value = { Routine };

    ghost view = { λ r. record { entry = r.entry; points = r.points } };
}

impl RoutinePoints {
    /// The routine of one point.
    pub fn of_one(alloc: Global, entry: Addr, point: Point) -> Result<RoutinePoints, AllocError>
        ensures { IfOk result (λ r. r ≡ record { entry = entry; points = point ∷ [] }) }
    {
        let points = SortedPoints::of_one(alloc, point)?;
        Ok(RoutinePoints { entry, points })
    }

    /// One more point of the routine.
    pub fn add(&mut self, point: Point) -> Result<(), AllocError>
        requires rising { IsRising (map (λ p. p.size) self.old.points) }
        requires room { All HasRoom self.old.points }
        requires fits { HasRoom point }
        ensures ok { OnOk result (self.new ≡ point_added point self.old) }
        ensures err { OnErr result (self.new ≡ self.old) }
        ensures no_allocation { (place : ℕ) → IsAt (map (λ p. p.size) self.old.points) point.size place
            → IsOk result }
    {
        self.points.add(point)
    }

    /// One more activation of the routine.
    #[inline(always)]
    pub fn add_one(&mut self, ended: &Done) -> Result<(), AllocError>
        requires rising { IsRising (map (λ p. p.size) self.old.points) }
        requires room { All HasRoom self.old.points }
        ensures ok { OnOk result (self.new ≡ point_added (point_of_one ended.now) self.old) }
        ensures err { OnErr result (self.new ≡ self.old) }
        ensures no_allocation { (place : ℕ) → IsAt (map (λ p. p.size) self.old.points) ended.now.size place
            → IsOk result }
    {
        self.points.add_one(ended)
    }

    /// One more activation of the routine, if its point that was changed last has that size, and true; else false, and nothing
    /// changes.
    #[tactic(auto, using(crate::proofs::Tallied::own_by_parts))]
    #[inline(always)]
    pub fn add_last(&mut self, ended: &Done) -> bool
        requires parts { HasParts ended.now }
        requires rising { IsRising (map (λ p. p.size) self.old.points) }
        requires room { All HasRoom self.old.points }
        ensures added { result ≡ true → self.new ≡ point_added (point_of_one ended.now) self.old }
        ensures same { result ≡ false → self.new ≡ self.old }
    {
        let own = ended.plain == ended.size; // the parts add up to the size
        self.points.add_last(ended, own)
    }

    /// The points, by rising size.
    pub fn points(&self, alloc: Global) -> Result<Vec<Point>, AllocError>
        ensures { IfOk result (λ points. points.items ≡ self.now.points) }
    {
        self.points.list(alloc)
    }
}
