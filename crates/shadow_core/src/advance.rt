//! The tick of a profiler.
ghost use Rattle.std.specs.Prelude.{◌≡◌, ◌≤◌, ◌<◌, ◌+◌, ◌*◌, ◌^◌, if◌then◌else◌, length};
ghost use Rattle.guest_words.specs.ByThread.{IsRising, numbers};
ghost use Rattle.stamp_renumber.specs.Costs.{tick_cost};
ghost use Rattle.stamp_renumber.specs.Threads.{all_starts};
ghost use Rattle.shadow_core.specs.Profiling.{IsAdvanced};

use shadow_pages::Shadow;
use shadow_stack::Steps;
use stamp_lanes::Lanes;
use stamp_renumber::{Threads, tick};
use std::sync::ledger::Ledger;

/// Ticks, where the counter is to tick, and counts how often the stamps were renumbered. It does not allocate. A step is one stamp
/// that gets its new number.
#[inline(always)]
pub(crate) fn advance<S: Lanes, L: Ledger>(
    ticks: bool,
    threads: &mut Threads<S>,
    writes: &mut Shadow<S>,
    counter: &mut u32,
    renumbered: &mut u64,
    steps: &mut Steps<L>,
)
    requires within { counter.old ≤ S.MAX }
    requires room { 3 * length (all_starts threads.old.threads) + 3 ≤ S.MAX }
    requires rising { IsRising (numbers threads.old.threads) }
    requires few { renumbered.old + 1 < 2 ^ 64 }
    ensures advanced { IsAdvanced S.MAX ticks
        (record { counter = counter.old; writes = writes.old.pages; live = threads.old; renumbered = renumbered.old })
        (record { counter = counter.new; writes = writes.new.pages; live = threads.new; renumbered = renumbered.new }) }
    ensures cost { steps.new ≡ steps.old
        + (if ticks then tick_cost S.MAX counter.old threads.old writes.old.pages else 0) }
{
    if !ticks {
        return;
    }
    let answer = tick(threads, writes, *counter, steps);
    *counter = answer.counter;
    *renumbered += u64::from(answer.renewed);
}
