//! The rows that new stamps are worked out in.
ghost use Rattle.std.specs.Prelude.{◌≡◌, ◌≤◌, ◌+◌, ◌*◌, IfOk, length, map};
ghost use Rattle.std.specs.List.Sorted.{IsNonDecreasingBy};
ghost use Rattle.shadow_pages.specs.Pages.{zeros};
ghost use Rattle.stamp_renumber.specs.Classes.{new_write};
ghost use Rattle.stamp_renumber.specs.Private.Rows.{new_accesses};

use crate::starts::classes_into;
use shadow_pages::PAGE_WORDS;
use stamp_lanes::Lanes;
use stamps::Stamp;
use std::alloc::{AllocError, Global};
use std::marker::Model;

/// Rows as long as a page. Contracts see the one that the last call wrote.
#[derive(Drop)]
pub(crate) struct WorkRows<S: Stamp> {
    own_classes: Vec<S>,
    write_classes: Vec<S>,
    renewed: Vec<S>,
    untouched: Vec<S>,
}

impl<S: Stamp> Model for WorkRows<S> {
    ghost use Rattle.std.specs.Prelude.{ℕ, List, map};
    ghost use Rattle.stamp_renumber.specs.WorkRows.{AreRows};

    ghost Value = { List ℕ };

    ghost view = { λ r. map S.number_of r.renewed.items };

    ghost invariant = { λ r. AreRows
        (map S.number_of r.own_classes.items)
        (map S.number_of r.write_classes.items)
        (map S.number_of r.renewed.items)
        (map S.number_of r.untouched.items) };
}

// A row of zeros.
fn zero_row<S: Stamp>(alloc: Global) -> Result<Vec<S>, AllocError>
    ensures { IfOk result (λ v. map S.number_of v.items ≡ zeros) }
{
    let mut row = Vec::with_capacity(alloc, PAGE_WORDS)?;
    'fill: while row.len() < PAGE_WORDS {
        row.push(S::from_number(0))?;
    }
    Ok(row)
}

// The new stamps of a row of access stamps, by the row of their words' write stamps.
fn renew_row<S: Lanes>(
    own: &[S],
    write: &[S],
    starts: &[S],
    own_classes: &mut [S],
    write_classes: &mut [S],
    into: &mut [S],
)
    requires sorted { IsNonDecreasingBy S.number_of starts.now }
    requires room { 3 * length starts.now + 2 ≤ S.MAX }
    requires lengths { (length own.now ≡ length into.old)
        × (length write.now ≡ length into.old)
        × (length own_classes.old ≡ length into.old)
        × (length write_classes.old ≡ length into.old) }
    ensures own_classes { length own_classes.new ≡ length own_classes.old }
    ensures write_classes { length write_classes.new ≡ length write_classes.old }
    ensures value { map S.number_of into.new
        ≡ new_accesses (map S.number_of starts.now) (map S.number_of own.now)
        (map S.number_of write.now) }
{
    classes_into(own, starts, own_classes);
    classes_into(write, starts, write_classes);
    S::renew_into(own, own_classes, write, write_classes, into);
}

// The new stamps of a row of write stamps, each renewed against itself.
fn rewrite_row<S: Lanes>(own: &[S], starts: &[S], classes: &mut [S], into: &mut [S])
    requires sorted { IsNonDecreasingBy S.number_of starts.now }
    requires room { 3 * length starts.now + 2 ≤ S.MAX }
    requires lengths { (length own.now ≡ length into.old) × (length classes.old ≡ length into.old) }
    ensures classes { length classes.new ≡ length classes.old }
    ensures value { map S.number_of into.new
        ≡ map (new_write (map S.number_of starts.now)) (map S.number_of own.now) }
{
    classes_into(own, starts, classes);
    S::renew_into(own, classes, own, classes, into);
}

impl<S: Lanes> WorkRows<S> {
    /// Takes the memory of the rows.
    pub(crate) fn new(alloc: Global) -> Result<WorkRows<S>, AllocError> {
        Ok(WorkRows {
            own_classes: zero_row(alloc)?,
            write_classes: zero_row(alloc)?,
            renewed: zero_row(alloc)?,
            untouched: zero_row(alloc)?,
        })
    }

    /// The row that was written last.
    pub(crate) fn renewed(&self) -> &[S]
        ensures value { map S.number_of result.now ≡ self.now }
        ensures count { length result.now ≡ 1024 }
    {
        &self.renewed
    }

    /// The new stamps of a row of access stamps, by the row of their words' write stamps.
    pub(crate) fn renew_accesses(&mut self, own: &[S], write: &[S], starts: &[S])
        requires sorted { IsNonDecreasingBy S.number_of starts.now }
        requires room { 3 * length starts.now + 2 ≤ S.MAX }
        requires lengths { (length own.now ≡ 1024) × (length write.now ≡ 1024) }
        ensures { self.new ≡ new_accesses (map S.number_of starts.now) (map S.number_of own.now)
            (map S.number_of write.now) }
    {
        renew_row(
            own,
            write,
            starts,
            &mut self.own_classes,
            &mut self.write_classes,
            &mut self.renewed,
        );
    }

    /// The same where none of the words was written.
    pub(crate) fn renew_unwritten(&mut self, own: &[S], starts: &[S])
        requires sorted { IsNonDecreasingBy S.number_of starts.now }
        requires room { 3 * length starts.now + 2 ≤ S.MAX }
        requires lengths { length own.now ≡ 1024 }
        ensures { self.new ≡ new_accesses (map S.number_of starts.now)
            (map S.number_of own.now) zeros }
    {
        renew_row(
            own,
            &self.untouched,
            starts,
            &mut self.own_classes,
            &mut self.write_classes,
            &mut self.renewed,
        );
    }

    /// The new stamps of a row of write stamps.
    pub(crate) fn renew_writes(&mut self, own: &[S], starts: &[S])
        requires sorted { IsNonDecreasingBy S.number_of starts.now }
        requires room { 3 * length starts.now + 2 ≤ S.MAX }
        requires lengths { length own.now ≡ 1024 }
        ensures { self.new ≡ map (new_write (map S.number_of starts.now))
            (map S.number_of own.now) }
    {
        rewrite_row(own, starts, &mut self.own_classes, &mut self.renewed);
    }
}
