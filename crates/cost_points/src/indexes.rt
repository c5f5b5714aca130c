//! Items in blocks by their index among all. A list says at which index each block begins, of the first blocks up to one: a new
//! item shortens it to the block that takes the item, and `extend` makes it the list of all blocks.
ghost use Rattle.std.specs.Prelude.{◌≡◌, ◌+◌, ◌<◌, ◌≤◌, length, map, slice_index, OnOk};
ghost use Rattle.cost_points.specs.Joined.{items_in};
ghost use Rattle.cost_points.specs.Indexes.{AreStarts};
ghost use Rattle.cost_points.specs.Private.Blocks.{IsIndexOf};

use crate::blocks::Place;
use std::alloc::AllocError;

// A block that is known to begin at the index or before it, where the one behind it, if it is known, begins after.
fn known_block(starts: &[usize], i: usize) -> usize
    requires some { 1 ≤ length starts.now }
    requires first { slice_index starts.now 0 ≡ 0 }
    ensures inside { result < length starts.now }
    ensures begins { slice_index starts.now result ≤ i }
    ensures ends { result + 1 < length starts.now → i < slice_index starts.now (result + 1) }
{
    let mut low = 0;
    let mut high = starts.len();
    'halve: while high - low > 1 {
        let middle = low + (high - low) / 2;
        if starts[middle] <= i {
            low = middle;
        } else {
            high = middle;
        }
    }
    low
}

/// The place of an index.
pub(crate) fn place_of<T>(blocks: &[Vec<T>], starts: &[usize], i: usize) -> Place
    requires starts { AreStarts (map (λ b. b.items) blocks.now) starts.now }
    requires inside { i < length (items_in blocks.now) }
    ensures { IsIndexOf (map (λ b. b.items) blocks.now) i result.block result.at }
{
    let mut block = known_block(starts, i);
    let mut at = i - starts[block];
    'walk: while at >= blocks[block].len() {
        at -= blocks[block].len();
        block += 1;
    }
    Place { block, at }
}

/// Where all blocks begin, from where some do. A refusal keeps what is known.
pub(crate) fn extend<T>(
    blocks: &[Vec<T>],
    count: usize,
    starts: &mut Vec<usize>,
) -> Result<(), AllocError>
    requires starts { AreStarts (map (λ b. b.items) blocks.now) starts.old.items }
    requires count { count ≡ length (items_in blocks.now) }
    ensures starts { AreStarts (map (λ b. b.items) blocks.now) starts.new.items }
    ensures all { OnOk result (length starts.new.items ≡ length blocks.now) }
{
    let known = starts.len();
    for block in known - 1..blocks.len() - 1 {
        let start = starts[block] + blocks[block].len();
        starts.push(start)?;
    }
    Ok(())
}
