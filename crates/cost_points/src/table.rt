//! The table of all routines.
ghost use Rattle.std.specs.Prelude.{◌≡◌, ◌+◌, ◌<◌, ◌^◌, [], ◌∷◌, ◌++◌, false, true, is_some, ℕ, List, length, map, slice_get, IfOk, IsOk, OnOk, OnErr};
ghost use Rattle.std.specs.List.{All};
ghost use Rattle.trace_model.specs.declared.slow_profile.Done.{Done};
ghost use Rattle.trace_model.specs.Profile.{HasParts};
ghost use Rattle.cost_points.specs.Keys.{IsRising};
ghost use Rattle.cost_points.specs.Merging.{ArePointOf, with_point};
ghost use Rattle.cost_points.specs.Search.{FindsKey, HasRoom, IsAt, IsInsertionPoint};
ghost use Rattle.cost_points.specs.Points.{Routine, point_of_one};
ghost use Rattle.cost_points.specs.Contents.{contents_of};
ghost use Rattle.cost_points.specs.Valid.{IsPoint, IsProfile};

use crate::routine::RoutinePoints;
use crate::{ByKey, Point, routines};
use guest_words::Addr;
use std::alloc::{AllocError, Global};
use std::marker::Model;
use trace_model::Done;

/// The points of the activations that were added. Contracts see how many these are, and their routines. Looking up a
/// routine and a size is logarithmic. A new size and a new routine move the rest of a block.
#[derive(Drop)]
pub struct Table {
    alloc: Global,
    members: u64,
    routines: ByKey<RoutinePoints>,
}

impl Model for Table {
    ghost use Rattle.cost_points.specs.Joined.{joined};
    ghost use Rattle.cost_points.specs.Contents.{TableContents, IsContents};

    ghost Value = { TableContents };

    ghost view = { λ t. record {
      members = t.members;
      routines = joined t.routines;
    } };

    ghost invariant = { λ t. IsContents (record {
      members = t.members;
      routines = joined t.routines;
    }) };
}

impl Table {
    /// No activation.
    pub fn new(alloc: Global) -> Result<Table, AllocError>
        ensures { IfOk result (λ t. t ≡ contents_of []) }
    {
        Ok(Table {
            alloc,
            members: 0,
            routines: ByKey::new(alloc)?,
        })
    }

    /// One more activation. A refused one changes nothing.
    pub fn add(&mut self, ended: Done) -> Result<(), AllocError>
        requires few { self.old.members < 2 ^ 63 }
        requires parts { HasParts ended }
        ensures ok { (added : List Done) → self.old ≡ contents_of added
            → OnOk result (self.new ≡ contents_of (added ++ ended ∷ [])) }
        ensures routines { OnOk result (self.new.routines
            ≡ with_point ended.entry (point_of_one ended) self.old.routines) }
        ensures members { OnOk result (self.new.members ≡ self.old.members + 1) }
        ensures err { OnErr result (self.new ≡ self.old) }
        ensures no_allocation { (at place : ℕ) (r : Routine) → slice_get self.old.routines at ≡ Some r
            → r.entry ≡ ended.entry → IsAt (map (λ p. p.size) r.points) ended.size place
            → IsOk result }
    {
        self.add_ended(&ended)
    }

    /// The same, of an activation that is kept elsewhere.
    #[inline(always)]
    pub fn add_ended(&mut self, ended: &Done) -> Result<(), AllocError>
        requires few { self.old.members < 2 ^ 63 }
        requires parts { HasParts ended.now }
        ensures ok { (added : List Done) → self.old ≡ contents_of added
            → OnOk result (self.new ≡ contents_of (added ++ ended.now ∷ [])) }
        ensures routines { OnOk result (self.new.routines
            ≡ with_point ended.now.entry (point_of_one ended.now) self.old.routines) }
        ensures members { OnOk result (self.new.members ≡ self.old.members + 1) }
        ensures err { OnErr result (self.new ≡ self.old) }
        ensures no_allocation { (at place : ℕ) (r : Routine) → slice_get self.old.routines at ≡ Some r
            → r.entry ≡ ended.now.entry → IsAt (map (λ p. p.size) r.points) ended.now.size place
            → IsOk result }
    {
        let (_size, _cost) = (ended.size, ended.cost); // so that they are known to be of 64 bits
        routines::add_one(&mut self.routines, self.alloc, ended)?;
        self.members += 1;
        Ok(())
    }

    /// One more activation, if the place of its routine is remembered and its size is that routine's last one, and true; else false,
    /// and nothing changes. It needs no search and no memory.
    #[inline(always)]
    pub fn add_last(&mut self, ended: &Done) -> bool
        requires few { self.old.members < 2 ^ 63 }
        requires parts { HasParts ended.now }
        ensures added { (added : List Done) → self.old ≡ contents_of added
            → result ≡ true → self.new ≡ contents_of (added ++ ended.now ∷ []) }
        ensures routines { result ≡ true → self.new.routines
            ≡ with_point ended.now.entry (point_of_one ended.now) self.old.routines }
        ensures members { result ≡ true → self.new.members ≡ self.old.members + 1 }
        ensures same { result ≡ false → self.new ≡ self.old }
    {
        let (_size, _cost) = (ended.size, ended.cost); // so that they are known to be of 64 bits
        if routines::add_last(&mut self.routines, ended) {
            self.members += 1;
            return true;
        }
        false
    }

    /// One more point of the routine at the entry: the activations of another table's point. A refused one changes nothing.
    pub fn add_point(&mut self, entry: Addr, p: &Point) -> Result<(), AllocError>
        requires told { is_some p.now.split ≡ true }
        requires point { IsPoint p.now }
        requires few { self.old.members + p.now.calls < 2 ^ 63 }
        ensures ok { OnOk result (self.new.routines ≡ with_point entry p.now self.old.routines) }
        ensures members { OnOk result (self.new.members ≡ self.old.members + p.now.calls) }
        ensures added { (added more : List Done) → self.old ≡ contents_of added
            → ArePointOf entry p.now more
            → OnOk result (self.new ≡ contents_of (added ++ more)) }
        ensures err { OnErr result (self.new ≡ self.old) }
        ensures no_allocation { (at place : ℕ) (r : Routine) → slice_get self.old.routines at ≡ Some r
            → r.entry ≡ entry → IsAt (map (λ q. q.size) r.points) p.now.size place → IsOk result }
    {
        let point = *p;
        routines::add(&mut self.routines, self.alloc, entry, point)?;
        self.members += point.calls;
        Ok(())
    }

    /// How many activations were added.
    pub fn members(&self) -> u64
        ensures { result ≡ self.now.members }
    {
        self.members
    }

    /// How many routines they have.
    pub fn routines(&self) -> usize
        ensures count { result ≡ length self.now.routines }
        ensures profile { IsProfile self.now.routines }
    {
        self.routines.len()
    }

    /// Makes looking up routines by their index quick: logarithmic in their number, until a new one comes. Without it, a lookup
    /// goes past the blocks of routines one by one.
    pub fn index_routines(&mut self) -> Result<(), AllocError>
        ensures { self.new ≡ self.old }
    {
        self.routines.index()
    }

    /// The entry and the points of a routine, the routines by rising entry and the points by rising size.
    pub fn routine(&self, alloc: Global, i: usize) -> Result<(Addr, Vec<Point>), AllocError>
        requires { i < length self.now.routines }
        ensures { IfOk result (λ r. slice_get self.now.routines i
            ≡ Some (record { entry = r.0; points = r.1.items })) }
    {
        let routine = self.routines.get(i);
        let points = routine.points(alloc)?;
        Ok((routine.entry, points))
    }
}
