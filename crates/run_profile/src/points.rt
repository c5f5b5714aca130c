//! The points of the activations that ended.
ghost use Rattle.std.specs.Prelude.{◌≡◌, ◌≤◌, ◌<◌, ◌+◌, ◌^◌, ◌++◌, [], ℕ, List, false, length, take, true, IfOk, OnOk};
ghost use Rattle.std.specs.List.{All};
ghost use Rattle.trace_model.specs.declared.event_kinds.Event.{Event};
ghost use Rattle.trace_model.specs.declared.slow_profile.Done.{Done};
ghost use Rattle.trace_model.specs.Profile.{HasParts};
ghost use Rattle.cost_points.specs.Contents.{contents_of};
ghost use Rattle.run_profile.specs.Points.{HoldsPoints, may_end};
ghost use Rattle.run_profile.specs.Profile.{AreCountsOf, AreTotalsOf};

use crate::{Counts, Keeper, Totals};
use cost_points::Table;
use guest_words::Tid;
use std::alloc::{AllocError, Global};
use std::marker::Model;
use trace_model::{Done, Event};

/// The points of the activations that ended, by routine and size.
#[derive(Drop)]
pub struct Points {
    table: Table,
    // How many of the activations that ended last are in the table.
    added: usize,
}

impl Model for Points {
    ghost use Rattle.run_profile.specs.Points.{KeptPoints};

    ghost Value = { KeptPoints };

    ghost view = { λ p. record { table = p.table; added = p.added } };
}

// Adds activations that ended to the points, those from the place `added` on. An `Err` has added some of them.
#[inline(always)]
fn add_ended(table: &mut Table, ends: &[Done], added: &mut usize) -> Result<(), AllocError>
    requires few { table.old.members + length ends.now < 2 ^ 63 }
    requires parts { All HasParts ends.now }
    requires inside { added.old ≤ length ends.now }
    ensures points { (earlier : List Done) → table.old
        ≡ contents_of (earlier ++ take added.old ends.now)
        → table.new ≡ contents_of (earlier ++ take added.new ends.now) }
    ensures inside { added.new ≤ length ends.now }
    ensures all { OnOk result (added.new ≡ length ends.now) }
{
    while *added < ends.len() {
        table.add_ended(&ends[*added])?;
        *added += 1;
    }
    Ok(())
}

// Whether the event may end activations.
#[inline(always)]
fn may_end(e: &Event) -> bool
    ensures { result ≡ may_end e.now }
{
    match *e {
        Event::Ret { .. } | Event::End { .. } => true,
        _ => false,
    }
}

// Adds the activation that ended, if its point is the one that was changed last, and true; else false, and no point changes.
#[inline(always)]
fn pass_ended(table: &mut Table, ends: &[Done]) -> bool
    requires few { table.old.members + length ends.now < 2 ^ 63 }
    requires parts { All HasParts ends.now }
    ensures points { (earlier : List Done) → table.old ≡ contents_of earlier
        → result ≡ true → table.new ≡ contents_of (earlier ++ ends.now) }
    ensures same { result ≡ false → table.new ≡ table.old }
{
    match ends.len() {
        0 => true,
        1 => table.add_last(&ends[0]),
        _ => false,
    }
}

impl Points {
    /// No activation ended so far.
    pub fn new(alloc: Global) -> Result<Points, AllocError>
        ensures { IfOk result (λ points. HoldsPoints points [] []) }
    {
        Ok(Points {
            table: Table::new(alloc)?,
            added: 0,
        })
    }

    /// The totals of a run with these counts.
    pub fn into_totals(self, counts: Counts) -> Result<Totals, AllocError>
        ensures { IfOk result (λ totals. (most : ℕ) (past : List Event) → HoldsPoints self past []
            → AreCountsOf most counts past → AreTotalsOf most totals past) }
    {
        let mut points = self.table;
        points.index_routines()?;
        Ok(Totals { points, counts })
    }
}

impl Keeper for Points {
    ghost use Rattle.run_profile.specs.Points.{HoldsPoints};

    ghost holds = { HoldsPoints };

    ghost is_too_much = { λ past. ⊥ };

    // An event that ends no activation changes no point. One that ends an activation mostly changes the point that was changed last.
    #[inline(always)]
    fn pass(&mut self, e: &Event, ends: &[Done]) -> bool {
        if may_end(e) {
            pass_ended(&mut self.table, ends)
        } else {
            true
        }
    }

    #[inline(always)]
    fn take(&mut self, e: Event, ends: &[Done]) -> Result<(), AllocError> {
        let _ = e;
        add_ended(&mut self.table, ends, &mut self.added)?;
        self.added = 0;
        Ok(())
    }

    #[inline(always)]
    fn take_steps(&mut self, tid: Tid, count: u64) {
        let _ = tid;
        let _ = count;
    }
}
