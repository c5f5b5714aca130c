//! Targets of returns that no open call has.
ghost use Rattle.std.specs.Prelude.{◌≡◌, ◌<◌, ◌≤◌, [], ℕ, All, List, Option, length, map, reverse, take};
ghost use Rattle.trace_model.specs.Activations.{count_returned};
ghost use Rattle.call_tracker.specs.Missed.{AreMissed, IsMissed};

use crate::Returns;
use crate::returns::{count_returned, top_returns_to};
use guest_words::Addr;

// How many targets are remembered.
const PLACES: usize = 8;

/// A target, and how many of the outermost calls are known not to return to it.
#[derive(Clone, Copy)]
pub(crate) struct Miss {
    target: Addr,
    depth: usize,
}

/// The targets of the last searches that found no call, each at the place that its address gives. Of calls that began since,
/// nothing is known. It stands beside the open calls of a thread, which their owner keeps, the outermost first.
#[derive(Clone, Copy)]
pub struct Missed {
    places: [Miss; PLACES],
    // The fewest calls that were open since the last of these searches.
    low: usize,
}

// The place of a target.
fn place_of(target: Addr) -> usize
    ensures { result < 8 }
{
    (target / 4) as usize % PLACES
}

impl Missed {
    /// Nothing is known.
    pub fn nothing() -> Missed
        ensures { AreMissed [] result }
    {
        let unknown = Miss {
            target: 0,
            depth: 0,
        };
        Missed {
            places: [unknown; PLACES],
            low: 0,
        }
    }

    /// How many of the open calls a return to the target ends: the innermost with that return address and all that it holds, and
    /// none where no call has it, which is remembered. Mostly it is the innermost of all, which is looked at first.
    #[inline(always)]
    pub fn ending<C: Returns>(&mut self, target: Addr, calls: &[C]) -> usize
        requires { AreMissed (map C.back_of calls.now) self.old }
        ensures count { result ≡ count_returned target (map C.back_of (reverse calls.now)) }
        ensures within { result ≤ length calls.now }
        ensures missed { AreMissed (map C.back_of calls.now) self.new }
    {
        if top_returns_to(target, calls) {
            return 1;
        }
        self.search(target, calls)
    }

    // The same, for a target that need not be the innermost call's.
    #[cold]
    #[inline(never)]
    fn search<C: Returns>(&mut self, target: Addr, calls: &[C]) -> usize
        requires { AreMissed (map C.back_of calls.now) self.old }
        ensures count { result ≡ count_returned target (map C.back_of (reverse calls.now)) }
        ensures within { result ≤ length calls.now }
        ensures missed { AreMissed (map C.back_of calls.now) self.new }
    {
        let missed = self.depth_of(target);
        let ended = count_returned(target, &calls[missed..]);
        if ended == 0 {
            self.remember(target, calls.len());
        }
        ended
    }

    // How many of the outermost calls are known not to return to the target.
    fn depth_of(&self, target: Addr) -> usize
        ensures within { result ≤ self.now.low }
        ensures missed { (backs : List (Option ℕ)) → AreMissed backs self.now
            → IsMissed backs target result }
    {
        let miss = self.places[place_of(target)];
        if miss.target == target {
            miss.depth.min(self.low)
        } else {
            0
        }
    }

    // Knows no more of any target than of the calls that were open all the time.
    fn settle(&mut self)
        ensures low { self.new.low ≡ self.old.low }
        ensures count { length self.new.places ≡ length self.old.places }
        ensures missed { (backs : List (Option ℕ)) → AreMissed backs self.old
            → AreMissed backs self.new }
        ensures settled { All (λ miss. miss.depth ≤ self.new.low) self.new.places }
    {
        for i in 0..PLACES {
            let miss = self.places[i];
            self.places[i] = Miss {
                target: miss.target,
                depth: miss.depth.min(self.low),
            };
        }
    }

    // Remembers that none of the `depth` open calls returns to the target.
    #[cold]
    fn remember(&mut self, target: Addr, depth: usize)
        ensures { (backs : List (Option ℕ)) → AreMissed backs self.old → length backs ≡ depth
            → IsMissed backs target depth → AreMissed backs self.new }
    {
        self.settle();
        self.places[place_of(target)] = Miss { target, depth };
        self.low = depth;
    }

    /// Calls ended, and `depth` are left.
    #[inline(always)]
    pub fn keep(&mut self, depth: usize)
        ensures { (backs : List (Option ℕ)) → AreMissed backs self.old
            → AreMissed (take depth backs) self.new }
    {
        if depth < self.low {
            self.low = depth;
        }
    }
}
