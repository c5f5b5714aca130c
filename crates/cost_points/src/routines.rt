//! Routines by rising entry.
ghost use Rattle.std.specs.Prelude.{◌≡◌, ◌<◌, ◌^◌, [], ◌∷◌, ℕ, Some, false, length, map, slice_get, true, IsOk, OnErr, OnOk};
ghost use Rattle.std.specs.List.{All};
ghost use Rattle.trace_model.specs.Profile.{HasParts};
ghost use Rattle.cost_points.specs.Joined.{joined};
ghost use Rattle.cost_points.specs.Keys.{IsRising};
ghost use Rattle.cost_points.specs.Merging.{with_point};
ghost use Rattle.cost_points.specs.Places.{IsGapOf};
ghost use Rattle.cost_points.specs.Points.{Routine, point_of_one};
ghost use Rattle.cost_points.specs.Search.{HasRoom, IsAt};
ghost use Rattle.cost_points.specs.Valid.{IsProfile};

use crate::routine::RoutinePoints;
use crate::{ByKey, Keyed, Place, Point};
use guest_words::Addr;
use std::alloc::{AllocError, Global};
use trace_model::Done;

impl Keyed for RoutinePoints {
    ghost key_of = { λ r. r.entry };

    #[inline(always)]
    fn key(&self) -> u64 {
        u64::from(self.entry)
    }
}

/// One more activation. A refusal changes no routine.
#[inline(always)]
pub(crate) fn add_one(
    routines: &mut ByKey<RoutinePoints>,
    alloc: Global,
    ended: &Done,
) -> Result<(), AllocError>
    requires few { length (joined routines.old) < 2 ^ 63 }
    requires profile { IsProfile (joined routines.old) }
    requires room { All (λ r. All HasRoom r.points) (joined routines.old) }
    ensures ok { OnOk result (joined routines.new
        ≡ with_point ended.now.entry (point_of_one ended.now)
        (joined routines.old)) }
    ensures err { OnErr result (joined routines.new ≡ joined routines.old) }
    ensures no_allocation { (at place : ℕ) (r : Routine) → slice_get (joined routines.old) at ≡ Some r
        → r.entry ≡ ended.now.entry → IsAt (map (λ p. p.size) r.points) ended.now.size place
        → IsOk result }
{
    let key = u64::from(ended.entry);
    match routines.find(key) {
        Ok(place) => {
            let routine = routines.at_mut(key, place);
            routine.add_one(ended)
        }
        Err(place) => add_routine(routines, alloc, place, ended.entry, Point::of_one(*ended)),
    }
}

/// One more activation, if the place of its routine is remembered and its size is that routine's last one, and true; else false,
/// and no routine changes.
#[inline(always)]
pub(crate) fn add_last(routines: &mut ByKey<RoutinePoints>, ended: &Done) -> bool
    requires parts { HasParts ended.now }
    requires profile { IsProfile (joined routines.old) }
    requires room { All (λ r. All HasRoom r.points) (joined routines.old) }
    ensures added { result ≡ true → joined routines.new
        ≡ with_point ended.now.entry (point_of_one ended.now)
        (joined routines.old) }
    ensures same { result ≡ false → joined routines.new ≡ joined routines.old }
{
    let key = u64::from(ended.entry);
    match routines.recent_place(key) {
        Some(place) => {
            let routine = routines.at_mut(key, place);
            routine.add_last(ended)
        }
        None => false,
    }
}

// A new routine at its place, of one point.
#[cold]
#[inline(never)]
fn add_routine(
    routines: &mut ByKey<RoutinePoints>,
    alloc: Global,
    place: Place,
    entry: Addr,
    point: Point,
) -> Result<(), AllocError>
    requires few { length (joined routines.old) < 2 ^ 63 }
    requires rising { IsRising (map (λ r. r.entry) (joined routines.old)) }
    requires gap { IsGapOf (λ r. r.entry) routines.old entry place.block place.at }
    ensures ok { OnOk result (joined routines.new ≡ with_point entry point (joined routines.old)) }
    ensures err { OnErr result (joined routines.new ≡ joined routines.old) }
{
    let routine = RoutinePoints::of_one(alloc, entry, point)?;
    routines.insert(place, routine)?;
    Ok(())
}

/// One more point. A refusal changes no routine.
pub(crate) fn add(
    routines: &mut ByKey<RoutinePoints>,
    alloc: Global,
    entry: Addr,
    point: Point,
) -> Result<(), AllocError>
    requires few { length (joined routines.old) < 2 ^ 63 }
    requires profile { IsProfile (joined routines.old) }
    requires room { All (λ r. All HasRoom r.points) (joined routines.old) }
    requires fits { HasRoom point }
    ensures ok { OnOk result (joined routines.new ≡ with_point entry point (joined routines.old)) }
    ensures err { OnErr result (joined routines.new ≡ joined routines.old) }
    ensures no_allocation { (at place : ℕ) (r : Routine) → slice_get (joined routines.old) at ≡ Some r
        → r.entry ≡ entry → IsAt (map (λ p. p.size) r.points) point.size place → IsOk result }
{
    let key = u64::from(entry);
    match routines.find(key) {
        Ok(place) => {
            let routine = routines.at_mut(key, place);
            routine.add(point)
        }
        Err(place) => add_routine(routines, alloc, place, entry, point),
    }
}
