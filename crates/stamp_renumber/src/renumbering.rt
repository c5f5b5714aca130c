//! New stamps for all threads.
ghost use Rattle.std.specs.Prelude.{◌≡◌, ◌≤◌, ◌+◌, ◌*◌, All, Contains, length, map, sum_by};
ghost use Rattle.std.specs.Vec.{vec_capacity};
ghost use Rattle.std.specs.List.Sorted.{IsNonDecreasingBy, IsPermutation};
ghost use Rattle.stamp_renumber.specs.Costs.{stamps_of};
ghost use Rattle.stamp_renumber.specs.Renumbered.{AreRenumbered};
ghost use Rattle.stamp_renumber.specs.Threads.{all_starts};

use crate::frames::collect_starts;
use crate::rows::WorkRows;
use crate::thread_stamps::ThreadStamps;
use guest_words::{ByThread, Tid};
use shadow_pages::Shadow;
use shadow_stack::Steps;
use stamp_lanes::Lanes;
use std::sync::ledger::Ledger;

// The starts of the frames of all threads. There is room for them.
fn gather_starts<S: Lanes>(threads: &[(Tid, ThreadStamps<S>)], starts: &mut Vec<S>)
    requires room { length (all_starts threads.now) ≤ vec_capacity starts.old }
    ensures items { map S.number_of starts.new.items ≡ all_starts threads.now }
    ensures capacity { vec_capacity starts.old ≤ vec_capacity starts.new }
{
    starts.clear();
    for entry in threads {
        collect_starts(entry.1.frames(), starts);
    }
}

/// The same in order.
pub(crate) fn sorted_starts<S: Lanes>(threads: &[(Tid, ThreadStamps<S>)], starts: &mut Vec<S>)
    requires room { length (all_starts threads.now) ≤ vec_capacity starts.old }
    ensures sorted { IsNonDecreasingBy S.number_of starts.new.items }
    ensures same { IsPermutation (all_starts threads.now) (map S.number_of starts.new.items) }
    ensures capacity { vec_capacity starts.old ≤ vec_capacity starts.new }
{
    gather_starts(threads, starts);
    starts.sort_unstable();
}

/// Gives all threads their new starts and access stamps. The write stamps are still the old ones. A step is one stamp.
pub(crate) fn renumber_threads<S: Lanes, L: Ledger>(
    threads: &mut ByThread<ThreadStamps<S>>,
    writes: &Shadow<S>,
    starts: &[S],
    renewed: &mut Vec<S>,
    rows: &mut WorkRows<S>,
    steps: &mut Steps<L>,
)
    requires sorted { IsNonDecreasingBy S.number_of starts.now }
    requires fit { 3 * length starts.now + 2 ≤ S.MAX }
    requires among { All (Contains (map S.number_of starts.now)) (all_starts threads.old.list) }
    requires room { length (all_starts threads.old.list) ≤ vec_capacity renewed.old }
    ensures threads { AreRenumbered (map S.number_of starts.now) writes.now.pages
        threads.old.list threads.new.list }
    ensures capacity { vec_capacity renewed.old ≤ vec_capacity renewed.new }
    ensures cost { steps.new ≡ steps.old + sum_by (λ x. stamps_of x.1) threads.old.list }
{
    for i in 0..threads.len() {
        let tid = threads.list()[i].0;
        let thread = threads.get_mut(tid).unwrap();
        thread.renumber(writes, starts, renewed, rows, steps);
    }
}
