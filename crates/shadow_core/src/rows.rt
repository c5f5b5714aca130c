//! Rows of stamps: the words of a part that lies in one page.
ghost use Rattle.std.specs.Prelude.{◌≡◌, ◌≤◌, ◌<◌, ◌+◌, ◌%◌, ◌==◌, ◌&&◌, ℕ, IfOk, if◌then◌else◌, length, map, nat_le, nat_lt, slice_index, true};
ghost use Rattle.std.specs.List.{range_with_len};
ghost use Rattle.std.specs.Simd.Lanes.{chunk};
ghost use Rattle.shadow_pages.specs.Pages.{covers, in_range, stamp_at, zeros};
ghost use Rattle.stamp_lanes.specs.Plain.{IsBulk, places};

use guest_words::Word;
use shadow_pages::{PAGE_WORDS, Shadow};
use stamp_lanes::{Bulk, Lanes};
use stamps::Stamp;
use std::alloc::{AllocError, Global};
use std::marker::Model;

/// A row of zero stamps and one of zero marks, each as long as a page.
#[derive(Drop)]
pub(crate) struct ZeroRows<S: Stamp> {
    stamps: Vec<S>,
    marks: Vec<u8>,
}

impl<S: Stamp> Model for ZeroRows<S> {
    ghost use Rattle.std.specs.Prelude.{◌≡◌, List, ℕ, map};
    ghost use Rattle.shadow_pages.specs.Pages.{zeros};

    ghost Value = { List ℕ × List ℕ };

    ghost view = { λ r. (map S.number_of r.stamps.items, r.marks.items) };

    ghost invariant = { λ r. (map S.number_of r.stamps.items ≡ zeros) × (r.marks.items ≡ zeros) };
}

// A row of zeros.
fn zero_row<S: Stamp>(alloc: Global) -> Result<Vec<S>, AllocError>
    ensures { IfOk result (λ v. map S.number_of v.items ≡ zeros) }
{
    let mut row = Vec::with_capacity(alloc, PAGE_WORDS)?;
    'fill: while row.len() < PAGE_WORDS {
        row.push(S::from_number(0))?;
    }
    Ok(row)
}

impl<S: Stamp> ZeroRows<S> {
    /// Takes the memory of both.
    pub(crate) fn new(alloc: Global) -> Result<ZeroRows<S>, AllocError> {
        Ok(ZeroRows {
            stamps: zero_row(alloc)?,
            marks: zero_row(alloc)?,
        })
    }

    /// The row of zero stamps.
    pub(crate) fn stamps(&self) -> &[S]
        ensures { map S.number_of result.now ≡ zeros }
    {
        &self.stamps
    }

    /// The row of zero marks.
    pub(crate) fn marks(&self) -> &[u8]
        ensures { result.now ≡ zeros }
    {
        &self.marks
    }
}

/// The stamps of words of one page: zeros where there is no such page.
pub(crate) fn row_of<'a, S: Stamp>(
    pages: &'a Shadow<S>,
    first: Word,
    count: u32,
    none: &'a [S],
) -> &'a [S]
    requires within { first % 1024 + count ≤ 1024 }
    requires none { map S.number_of none.now ≡ zeros }
    ensures row { map S.number_of result.now
        ≡ map (stamp_at pages.now.pages) (range_with_len first count) }
    ensures count { length result.now ≡ count }
{
    if pages.covers(first) {
        pages.row(first, count)
    } else {
        &none[..count as usize]
    }
}

// A read of a part of a row.
fn read_row<S: Lanes>(
    row: &mut [S],
    at: usize,
    write: &[S],
    marks: &[u8],
    start: S,
    stamp: S,
) -> Bulk
    requires within { at + length write.now ≤ length row.old }
    requires size { length row.old ≤ 1024 }
    requires lengths { length write.now ≡ length marks.now }
    ensures counts { IsBulk (S.number_of start)
        (places (chunk at (length write.now) (map S.number_of row.old))
        (map S.number_of write.now) marks.now) result }
    ensures stamps { (k : ℕ) → slice_index (map S.number_of row.new) k
        ≡ (if (result.old == 0) && (nat_le at k && nat_lt k (at + length write.now))
        then S.number_of stamp else slice_index (map S.number_of row.old) k) }
    ensures count { length row.new ≡ length row.old }
{
    let end = at + write.len();
    let part = &mut row[at..end];
    S::bulk_read(part, write, marks, start, stamp)
}

/// A read of words of one page at once: what it finds, and the stamps, which become `now` where none is old.
pub(crate) fn read_page<S: Lanes>(
    pages: &mut Shadow<S>,
    first: Word,
    write: &[S],
    marks: &[u8],
    start: S,
    stamp: S,
) -> Bulk
    requires covered { covers pages.old.pages first ≡ true }
    requires within { first % 1024 + length write.now ≤ 1024 }
    requires lengths { length write.now ≡ length marks.now }
    ensures counts { IsBulk (S.number_of start)
        (places (map (stamp_at pages.old.pages) (range_with_len first (length write.now)))
        (map S.number_of write.now) marks.now) result }
    ensures stamps { (w : ℕ) → stamp_at pages.new.pages w
        ≡ (if (result.old == 0) && in_range first (length write.now) w then S.number_of stamp
        else stamp_at pages.old.pages w) }
    ensures covered { (w : ℕ) → covers pages.new.pages w ≡ covers pages.old.pages w }
{
    let row = pages.page_of_mut(first);
    read_row(
        row,
        first.number() as usize % PAGE_WORDS,
        write,
        marks,
        start,
        stamp,
    )
}
