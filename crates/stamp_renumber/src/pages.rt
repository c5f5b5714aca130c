//! New stamps of all words of a map.
ghost use Rattle.std.specs.Prelude.{◌≡◌, ◌≤◌, ◌<◌, ◌+◌, ◌*◌, ℕ, length, map, slice_set};
ghost use Rattle.std.specs.List.Sorted.{IsNonDecreasingBy};
ghost use Rattle.shadow_pages.specs.Pages.{covers, page_at, stamp_at};
ghost use Rattle.stamp_renumber.specs.Classes.{new_access, new_write};
ghost use Rattle.stamp_renumber.specs.Private.Rows.{renewed_accesses, renewed_writes};

use crate::rows::WorkRows;
use shadow_pages::{PAGE_WORDS, Shadow};
use shadow_stack::Steps;
use stamp_lanes::Lanes;
use std::sync::ledger::Ledger;

// A thread's page of access stamps. A page without write stamps was not written.
fn renew_access_page<S: Lanes>(
    shadow: &mut Shadow<S>,
    i: usize,
    writes: &Shadow<S>,
    starts: &[S],
    rows: &mut WorkRows<S>,
)
    requires sorted { IsNonDecreasingBy S.number_of starts.now }
    requires room { 3 * length starts.now + 2 ≤ S.MAX }
    requires within { i < length shadow.old.pages }
    ensures { shadow.new.pages ≡ slice_set shadow.old.pages i
        (renewed_accesses (map S.number_of starts.now) writes.now.pages
        (page_at shadow.old.pages i)) }
{
    let (first, own) = shadow.page(i);
    if writes.covers(first) {
        rows.renew_accesses(own, writes.row(first, PAGE_WORDS as u32), starts);
    } else {
        rows.renew_unwritten(own, starts);
    }
    shadow.page_mut(i).copy_from_slice(rows.renewed());
}

// A page of write stamps.
fn renew_write_page<S: Lanes>(
    writes: &mut Shadow<S>,
    i: usize,
    starts: &[S],
    rows: &mut WorkRows<S>,
)
    requires sorted { IsNonDecreasingBy S.number_of starts.now }
    requires room { 3 * length starts.now + 2 ≤ S.MAX }
    requires within { i < length writes.old.pages }
    ensures { writes.new.pages ≡ slice_set writes.old.pages i
        (renewed_writes (map S.number_of starts.now) (page_at writes.old.pages i)) }
{
    let (_, own) = writes.page(i);
    rows.renew_writes(own, starts);
    writes.page_mut(i).copy_from_slice(rows.renewed());
}

/// New access stamps of a thread, by the write stamps, which are still the old ones. A step is one stamp.
pub(crate) fn renew_accesses<S: Lanes, L: Ledger>(
    shadow: &mut Shadow<S>,
    writes: &Shadow<S>,
    starts: &[S],
    rows: &mut WorkRows<S>,
    steps: &mut Steps<L>,
)
    requires sorted { IsNonDecreasingBy S.number_of starts.now }
    requires room { 3 * length starts.now + 2 ≤ S.MAX }
    ensures stamps { (w : ℕ) → stamp_at shadow.new.pages w
        ≡ new_access (map S.number_of starts.now) (stamp_at shadow.old.pages w)
        (stamp_at writes.now.pages w) }
    ensures covered { (w : ℕ) → covers shadow.new.pages w ≡ covers shadow.old.pages w }
    ensures cost { steps.new ≡ steps.old + 1024 * length shadow.old.pages }
{
    for i in 0..shadow.pages() {
        renew_access_page(shadow, i, writes, starts, rows);
        steps.count(PAGE_WORDS as u64);
    }
}

/// New write stamps. A step is one stamp.
pub(crate) fn renew_writes<S: Lanes, L: Ledger>(
    writes: &mut Shadow<S>,
    starts: &[S],
    rows: &mut WorkRows<S>,
    steps: &mut Steps<L>,
)
    requires sorted { IsNonDecreasingBy S.number_of starts.now }
    requires room { 3 * length starts.now + 2 ≤ S.MAX }
    ensures stamps { (w : ℕ) → stamp_at writes.new.pages w
        ≡ new_write (map S.number_of starts.now) (stamp_at writes.old.pages w) }
    ensures covered { (w : ℕ) → covers writes.new.pages w ≡ covers writes.old.pages w }
    ensures cost { steps.new ≡ steps.old + 1024 * length writes.old.pages }
{
    for i in 0..writes.pages() {
        renew_write_page(writes, i, starts, rows);
        steps.count(PAGE_WORDS as u64);
    }
}
