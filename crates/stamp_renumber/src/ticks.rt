//! The tick of the counter.
ghost use Rattle.std.specs.Prelude.{◌≡◌, ◌≤◌, ◌<◌, ◌+◌, ◌*◌, length};
ghost use Rattle.stamp_renumber.specs.Costs.{tick_cost};
ghost use Rattle.stamp_renumber.specs.Threads.{all_starts};
ghost use Rattle.stamp_renumber.specs.Ticks.{IsRenumbered, ticked};

use crate::Threads;
use shadow_pages::Shadow;
use shadow_stack::Steps;
use stamp_lanes::Lanes;
use std::sync::ledger::Ledger;

/// The counter after a tick, and whether all stamps were renumbered.
#[derive(Clone, Copy, Debug, PartialEq, Eq)]
pub struct Ticked {
    pub counter: u32,
    pub renewed: bool,
}

/// Counts one more. Where the counter is at the greatest stamp, all stamps are renumbered in the order that a profiler looks
/// at, and it goes on above them. It does not allocate. A step is one stamp that gets its new number.
#[inline(always)]
pub fn tick<S: Lanes, L: Ledger>(
    threads: &mut Threads<S>,
    writes: &mut Shadow<S>,
    counter: u32,
    steps: &mut Steps<L>,
) -> Ticked
    requires within { counter ≤ S.MAX }
    requires room { 3 * length (all_starts threads.old.threads) + 3 ≤ S.MAX }
    ensures answer { result ≡ ticked S.MAX counter (length (all_starts threads.old.threads)) }
    ensures below { counter < S.MAX → (threads.new ≡ threads.old) × (writes.new ≡ writes.old) }
    ensures renewed { counter ≡ S.MAX
        → IsRenumbered threads.old threads.new writes.old.pages writes.new.pages }
    ensures cost { steps.new ≡ steps.old + tick_cost S.MAX counter threads.old writes.old.pages }
{
    if counter < S::MAX {
        return Ticked {
            counter: counter + 1,
            renewed: false,
        };
    }
    let frames = threads.renumber(writes, steps);
    Ticked {
        counter: 3 * frames as u32 + 3,
        renewed: true,
    }
}
