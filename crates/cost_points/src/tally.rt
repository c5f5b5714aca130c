//! What is kept of the activations of a size.
ghost use Rattle.std.specs.Prelude.{◌≡◌, [], ◌∷◌, max, min, true};
ghost use Rattle.cost_points.specs.Points.{point_of_one};
ghost use Rattle.cost_points.specs.Merging.{merged};
ghost use Rattle.cost_points.specs.Search.{HasRoom};
ghost use Rattle.cost_points.specs.Private.Tallies.{is_own};

use crate::{Point, Split};
use std::marker::Model;
use trace_model::Done;

/// The activations of a routine that had one size. Contracts see their point. Most activations read no word that another thread
/// or the kernel wrote last: their parts are their size, so these are counted, and only the parts of the others are summed up.
#[derive(Drop)]
pub(crate) struct Tally {
    size: u64,
    // How many activations have no part but their size.
    own: u64,
    least: u64,
    most: u64,
    sum: u128,
    // How many others there are, whether their parts are told, and these.
    others: u64,
    told: bool,
    split: Split,
}

impl Model for Tally {
    ghost use Rattle.std.specs.Prelude.{◌+◌};
    ghost use Rattle.cost_points.specs.declared.point.Point.{Point};
    ghost use Rattle.cost_points.specs.Private.Tallies.{IsTallied, tallied};

    ghost Value = { Point };

    ghost view = { λ t. record {
      size = t.size;
      calls = t.own + t.others;
      least = t.least;
      most = t.most;
      sum = t.sum;
      split = tallied t.told t.size t.own t.split;
    } };

    ghost invariant = { λ t. IsTallied (record {
      size = t.size;
      calls = t.own + t.others;
      least = t.least;
      most = t.most;
      sum = t.sum;
      split = tallied t.told t.size t.own t.split;
    }) };
}

/// Whether the activation has no part but its size.
#[inline(always)]
pub(crate) fn is_own(ended: &Done) -> bool
    ensures { result ≡ is_own ended.now }
{
    ended.thread == 0 && ended.kernel == 0 && ended.plain == ended.size && ended.bare == ended.size
}

// The lesser of two costs. Mostly nothing is written.
#[inline(always)]
fn lower(least: &mut u64, cost: u64)
    ensures { least.new ≡ min least.old cost }
{
    if cost < *least {
        *least = cost;
    }
}

// The greater of two costs.
#[inline(always)]
fn raise(most: &mut u64, cost: u64)
    ensures { most.new ≡ max most.old cost }
{
    if cost > *most {
        *most = cost;
    }
}

impl Tally {
    /// The activations of a point.
    pub(crate) fn of_point(point: Point) -> Tally
        ensures { result ≡ point }
    {
        Tally {
            size: point.size,
            own: 0,
            least: point.least,
            most: point.most,
            sum: point.sum,
            others: point.calls,
            told: point.split.is_some(),
            split: point.split.unwrap_or(Split::NONE),
        }
    }

    /// Their size.
    #[inline(always)]
    pub(crate) fn size(&self) -> u64
        ensures { result ≡ self.now.size }
    {
        self.size
    }

    // The parts of their sizes.
    fn split(&self) -> Option<Split>
        ensures { result ≡ self.now.split }
    {
        if !self.told {
            return None;
        }
        let sizes = u128::from(self.size) * u128::from(self.own);
        Some(Split {
            plain: self.split.plain + sizes,
            thread: self.split.thread,
            kernel: self.split.kernel,
            bare: self.split.bare + sizes,
        })
    }

    /// Their point.
    pub(crate) fn point(&self) -> Point
        ensures { result ≡ self.now }
    {
        Point {
            size: self.size,
            calls: self.own + self.others,
            least: self.least,
            most: self.most,
            sum: self.sum,
            split: self.split(),
        }
    }

    /// Takes in the activations of a point of that size.
    pub(crate) fn add(&mut self, point: Point)
        requires room { HasRoom self.old }
        requires fits { HasRoom point }
        ensures { self.new ≡ merged self.old point }
    {
        self.others += point.calls;
        self.least = self.least.min(point.least);
        self.most = self.most.max(point.most);
        self.sum += point.sum;
        match point.split {
            Some(split) if self.told => self.split = self.split.plus(split),
            _ => self.told = false,
        }
    }

    /// Takes in one more activation of that size; `own` is true only if it has no part but the size.
    #[inline(always)]
    pub(crate) fn take_in(&mut self, ended: &Done, own: bool)
        requires own { own ≡ true → is_own ended.now ≡ true }
        requires size { self.old.size ≡ ended.now.size }
        requires room { HasRoom self.old }
        ensures { self.new ≡ merged self.old (point_of_one ended.now) }
    {
        let Done {
            cost,
            plain: _plain,
            bare: _bare,
            ..
        } = *ended; // these are known to be of 64 bits
        lower(&mut self.least, cost);
        raise(&mut self.most, cost);
        self.sum += u128::from(cost);
        if own {
            self.own += 1;
        } else {
            self.others += 1;
            if self.told {
                self.split.add_one(ended);
            }
        }
    }

    /// Takes in one more activation of that size.
    pub(crate) fn add_one(&mut self, ended: &Done)
        requires size { self.old.size ≡ ended.now.size }
        requires room { HasRoom self.old }
        ensures { self.new ≡ merged self.old (point_of_one ended.now) }
    {
        self.take_in(ended, is_own(ended));
    }
}
