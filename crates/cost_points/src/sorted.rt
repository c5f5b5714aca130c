//! Points by rising size.
ghost use Rattle.std.specs.Prelude.{◌≡◌, ◌<◌, [], ◌∷◌, ℕ, false, map, true, vec_len, IfOk, IsOk, OnOk, OnErr};
ghost use Rattle.std.specs.List.{All};
ghost use Rattle.std.specs.Vec.{vec_capacity};
ghost use Rattle.cost_points.specs.Joined.{IsFilled, items_in};
ghost use Rattle.cost_points.specs.Places.{IsGapOf};
ghost use Rattle.cost_points.specs.Keys.{IsRising};
ghost use Rattle.cost_points.specs.Merging.{put_point};
ghost use Rattle.cost_points.specs.Points.{point_of_one};
ghost use Rattle.cost_points.specs.Search.{HasRoom, IsAt};
ghost use Rattle.cost_points.specs.Private.Tallies.{is_own};

use crate::Point;
use crate::blocks::{self, Keyed, Place};
use crate::tally::Tally;
use std::alloc::{AllocError, Global};
use std::marker::Model;
use trace_model::Done;

/// Points by rising size, at least one, in blocks: a new one moves the rest of its block, and no other point. Contracts see
/// them as a list.
#[derive(Drop)]
pub struct SortedPoints {
    points: Vec<Vec<Tally>>,
    // The place of the point that was changed last.
    last: Place,
}

impl Model for SortedPoints {
    ghost use Rattle.std.specs.Prelude.{List, map};
    ghost use Rattle.cost_points.specs.declared.point.Point.{Point};
    ghost use Rattle.cost_points.specs.Joined.{IsFilled, items_in};

    ghost Value = { List Point };

    ghost view = { λ s. items_in s.points.items };

    ghost invariant = { λ s. IsFilled (map (λ b. b.items) s.points.items) };
}

impl Keyed for Point {
    ghost key_of = { λ p. p.size };

    #[inline(always)]
    fn key(&self) -> u64 {
        self.size
    }
}

impl Keyed for Tally {
    ghost key_of = { λ p. p.size };

    #[inline(always)]
    fn key(&self) -> u64 {
        self.size()
    }
}

/// One more point among points whose sizes rise: the one of its size takes it in, and where there is none it is a new one.
/// There is room for one more, so it does not allocate.
pub fn insert_point(points: &mut Vec<Point>, point: Point)
    requires spare { vec_len points.old < vec_capacity points.old }
    requires rising { IsRising (map (λ p. p.size) points.old.items) }
    requires room { All HasRoom points.old.items }
    requires fits { HasRoom point }
    ensures { points.new.items ≡ put_point point points.old.items }
{
    match blocks::search_block(points, point.size) {
        Ok(at) => points[at] = points[at].merged(point),
        Err(at) => {
            points.insert(at, point).unwrap();
        }
    }
}

// One more point among blocks of points, the last of which was changed at a place.
fn add_to(points: &mut Vec<Vec<Tally>>, last: &mut Place, point: Point) -> Result<(), AllocError>
    requires filled { IsFilled (map (λ b. b.items) points.old.items) }
    requires rising { IsRising (map (λ p. p.size) (items_in points.old.items)) }
    requires room { All HasRoom (items_in points.old.items) }
    requires fits { HasRoom point }
    ensures ok { OnOk result (items_in points.new.items ≡ put_point point (items_in points.old.items)) }
    ensures err { OnErr result (items_in points.new.items ≡ items_in points.old.items) }
    ensures filled { IsFilled (map (λ b. b.items) points.new.items) }
    ensures no_allocation { (place : ℕ) → IsAt (map (λ p. p.size) (items_in points.old.items))
        point.size place → IsOk result }
{
    match blocks::find(points, *last, point.size) {
        Ok(place) => {
            *last = place;
            let block = &mut points[place.block];
            let tally = &mut block[place.at];
            tally.add(point);
            Ok(())
        }
        Err(place) => {
            *last = blocks::insert(points, place, Tally::of_point(point))?;
            Ok(())
        }
    }
}

// One more activation among blocks of points, the last of which was changed at a place.
#[inline(always)]
fn add_one(points: &mut Vec<Vec<Tally>>, last: &mut Place, ended: &Done) -> Result<(), AllocError>
    requires filled { IsFilled (map (λ b. b.items) points.old.items) }
    requires rising { IsRising (map (λ p. p.size) (items_in points.old.items)) }
    requires room { All HasRoom (items_in points.old.items) }
    ensures ok { OnOk result (items_in points.new.items
        ≡ put_point (point_of_one ended.now) (items_in points.old.items)) }
    ensures err { OnErr result (items_in points.new.items ≡ items_in points.old.items) }
    ensures filled { IsFilled (map (λ b. b.items) points.new.items) }
    ensures no_allocation { (place : ℕ) → IsAt (map (λ p. p.size) (items_in points.old.items))
        ended.now.size place → IsOk result }
{
    match blocks::find(points, *last, ended.size) {
        Ok(place) => {
            *last = place;
            let block = &mut points[place.block];
            let tally = &mut block[place.at];
            tally.add_one(ended);
            Ok(())
        }
        Err(place) => add_size(points, last, place, *ended),
    }
}

// One more activation among blocks of points, if the point at the place has its size, and true; else false, and nothing changes.
// `own` is true only if the activation has no part but its size.
#[inline(always)]
fn add_at(points: &mut Vec<Vec<Tally>>, place: Place, ended: &Done, own: bool) -> bool
    requires own { own ≡ true → is_own ended.now ≡ true }
    requires filled { IsFilled (map (λ b. b.items) points.old.items) }
    requires rising { IsRising (map (λ p. p.size) (items_in points.old.items)) }
    requires room { All HasRoom (items_in points.old.items) }
    ensures added { result ≡ true → items_in points.new.items
        ≡ put_point (point_of_one ended.now) (items_in points.old.items) }
    ensures same { result ≡ false → items_in points.new.items ≡ items_in points.old.items }
    ensures filled { IsFilled (map (λ b. b.items) points.new.items) }
{
    if blocks::stands_at(points, place, ended.size) {
        let block = &mut points[place.block];
        let tally = &mut block[place.at];
        tally.take_in(ended, own);
        return true;
    }
    false
}

// The first activation of its size: a new point at its place.
#[cold]
#[inline(never)]
fn add_size(
    points: &mut Vec<Vec<Tally>>,
    last: &mut Place,
    place: Place,
    ended: Done,
) -> Result<(), AllocError>
    requires filled { IsFilled (map (λ b. b.items) points.old.items) }
    requires gap { IsGapOf (λ p. p.size) (map (λ b. b.items) points.old.items) ended.size place.block place.at }
    ensures ok { OnOk result (items_in points.new.items
        ≡ put_point (point_of_one ended) (items_in points.old.items)) }
    ensures err { OnErr result (items_in points.new.items ≡ items_in points.old.items) }
    ensures filled { IsFilled (map (λ b. b.items) points.new.items) }
{
    *last = blocks::insert(points, place, Tally::of_point(Point::of_one(ended)))?;
    Ok(())
}

impl SortedPoints {
    /// One point.
    pub fn of_one(alloc: Global, point: Point) -> Result<SortedPoints, AllocError>
        ensures { IfOk result (λ s. s ≡ point ∷ []) }
    {
        let mut block = Vec::new(alloc);
        block.push(Tally::of_point(point))?;
        let mut points = Vec::new(alloc);
        points.push(block)?;
        Ok(SortedPoints {
            points,
            last: Place::FIRST,
        })
    }

    /// One more point: the one of its size takes it in, and where there is none it is a new one.
    pub fn add(&mut self, point: Point) -> Result<(), AllocError>
        requires rising { IsRising (map (λ p. p.size) self.old) }
        requires room { All HasRoom self.old }
        requires fits { HasRoom point }
        ensures ok { OnOk result (self.new ≡ put_point point self.old) }
        ensures err { OnErr result (self.new ≡ self.old) }
        ensures no_allocation { (place : ℕ) → IsAt (map (λ p. p.size) self.old) point.size place → IsOk result }
    {
        add_to(&mut self.points, &mut self.last, point)
    }

    /// One more activation.
    #[inline(always)]
    pub fn add_one(&mut self, ended: &Done) -> Result<(), AllocError>
        requires rising { IsRising (map (λ p. p.size) self.old) }
        requires room { All HasRoom self.old }
        ensures ok { OnOk result (self.new ≡ put_point (point_of_one ended.now) self.old) }
        ensures err { OnErr result (self.new ≡ self.old) }
        ensures no_allocation { (place : ℕ) → IsAt (map (λ p. p.size) self.old) ended.now.size place → IsOk result }
    {
        add_one(&mut self.points, &mut self.last, ended)
    }

    /// One more activation, if the point that was changed last has its size, and true; else false, and nothing changes. `own` is
    /// true only if the activation has no part but its size.
    #[inline(always)]
    pub(crate) fn add_last(&mut self, ended: &Done, own: bool) -> bool
        requires own { own ≡ true → is_own ended.now ≡ true }
        requires rising { IsRising (map (λ p. p.size) self.old) }
        requires room { All HasRoom self.old }
        ensures added { result ≡ true → self.new ≡ put_point (point_of_one ended.now) self.old }
        ensures same { result ≡ false → self.new ≡ self.old }
    {
        add_at(&mut self.points, self.last, ended, own)
    }

    /// The points, by rising size.
    pub fn list(&self, alloc: Global) -> Result<Vec<Point>, AllocError>
        ensures { IfOk result (λ points. points.items ≡ self.now) }
    {
        blocks::items(alloc, &self.points)
    }
}
