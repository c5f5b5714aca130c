//! Items by rising key, in blocks: one more moves the rest of a block, and no other item.
ghost use Rattle.std.specs.Prelude.{◌≡◌, ◌<◌, ◌≤◌, ◌++◌, [], ℕ, false, get_or, length, map, true, IfOk, MatchResult, OnErr, OnOk};
ghost use Rattle.cost_points.specs.Joined.{IsFilled, items_in};
ghost use Rattle.cost_points.specs.Places.{IsBlockOf, IsGapOf, IsPlaceOf, before};
ghost use Rattle.cost_points.specs.Private.Blocks.{IsItemAt, cut, with_item};
ghost use Rattle.cost_points.specs.Keys.{IsRising};
ghost use Rattle.cost_points.specs.Search.{FindsKey, IsAt};

use crate::Point;
use crate::tally::Tally;
use std::alloc::{AllocError, Global};

// How many items a block has at most.
const MOST: usize = 128;

// How many items stay in a block that is cut in two.
const HALF: usize = 64;

/// What stands in blocks, by its key.
pub trait Keyed {
    ghost key_of: { Self → ℕ };

    /// The key.
    fn key(&self) -> u64
        ensures { result ≡ key_of self.now };
}

/// A place of an item: its block, and the place in that.
#[derive(Clone, Copy, Debug, PartialEq, Eq)]
pub struct Place {
    pub block: usize,
    pub at: usize,
}

impl Place {
    /// The first one.
    pub const FIRST: Place = Place { block: 0, at: 0 };
}

// The block that the key belongs into.
fn block_of<T: Keyed>(blocks: &[Vec<T>], key: u64) -> usize
    requires filled { IsFilled (map (λ b. b.items) blocks.now) }
    requires rising { IsRising (map T.key_of (items_in blocks.now)) }
    ensures { IsBlockOf T.key_of (map (λ b. b.items) blocks.now) key result }
{
    let mut low = 0;
    let mut high = blocks.len();
    'halve: while high - low > 1 {
        let middle = low + (high - low) / 2;
        let block = &blocks[middle];
        if block[0].key() <= key {
            low = middle;
        } else {
            high = middle;
        }
    }
    low
}

/// Where in a block the key stands, or where it would go.
pub(crate) fn search_block<T: Keyed>(block: &[T], key: u64) -> Result<usize, usize>
    requires { IsRising (map T.key_of block.now) }
    ensures { FindsKey (map T.key_of block.now) key result }
{
    block.binary_search_by_key(&key, |item| item.key())
}

/// Where the key stands, or where it would go.
pub(crate) fn search<T: Keyed>(blocks: &[Vec<T>], key: u64) -> Result<Place, Place>
    requires filled { IsFilled (map (λ b. b.items) blocks.now) }
    requires rising { IsRising (map T.key_of (items_in blocks.now)) }
    ensures { MatchResult result
        (λ p. IsPlaceOf T.key_of (map (λ b. b.items) blocks.now) key p.block p.at)
        (λ p. IsGapOf T.key_of (map (λ b. b.items) blocks.now) key p.block p.at) }
{
    let block = block_of(blocks, key);
    match search_block(&blocks[block], key) {
        Ok(at) => Ok(Place { block, at }),
        Err(at) => Err(Place { block, at }),
    }
}

/// Whether the key stands at the place; a place that is none has no key.
#[inline(always)]
pub(crate) fn stands_at<T: Keyed>(blocks: &[Vec<T>], place: Place, key: u64) -> bool
    requires { IsRising (map T.key_of (items_in blocks.now)) }
    ensures { result ≡ true → IsPlaceOf T.key_of (map (λ b. b.items) blocks.now) key place.block place.at }
{
    if place.block < blocks.len() {
        let block = &blocks[place.block];
        if place.at < block.len() && block[place.at].key() == key {
            return true;
        }
    }
    false
}

/// Where the key stands, or where it would go. The place that is given is tried first.
#[inline(always)]
pub(crate) fn find<T: Keyed>(blocks: &[Vec<T>], last: Place, key: u64) -> Result<Place, Place>
    requires filled { IsFilled (map (λ b. b.items) blocks.now) }
    requires rising { IsRising (map T.key_of (items_in blocks.now)) }
    ensures { MatchResult result
        (λ p. IsPlaceOf T.key_of (map (λ b. b.items) blocks.now) key p.block p.at)
        (λ p. IsGapOf T.key_of (map (λ b. b.items) blocks.now) key p.block p.at) }
{
    if stands_at(blocks, last, key) {
        return Ok(last);
    }
    search(blocks, key)
}

// Cuts a block in two. A refusal changes no item.
fn cut_block<T: Drop>(blocks: &mut Vec<Vec<T>>, b: usize) -> Result<(), AllocError>
    requires inside { b < length blocks.old.items }
    requires long { 128 ≤ length (get_or (map (λ v. v.items) blocks.old.items) b []) }
    ensures ok { OnOk result (map (λ v. v.items) blocks.new.items
        ≡ cut 64 b (map (λ v. v.items) blocks.old.items)) }
    ensures err { OnErr result (map (λ v. v.items) blocks.new.items
        ≡ map (λ v. v.items) blocks.old.items) }
{
    blocks.reserve(1)?;
    let block = &mut blocks[b];
    let upper = block.split_off(HALF)?;
    blocks.insert(b + 1, upper).unwrap();
    Ok(())
}

// Makes a block shorter than the longest, and says where its place is then. A refusal changes no item.
fn shorten<T: Drop>(blocks: &mut Vec<Vec<T>>, place: Place) -> Result<Place, AllocError>
    requires inside { place.block < length blocks.old.items }
    requires at { place.at ≤ length (get_or (map (λ v. v.items) blocks.old.items) place.block []) }
    requires filled { IsFilled (map (λ v. v.items) blocks.old.items) }
    ensures block { IfOk result (λ p. p.block < length blocks.new.items) }
    ensures at { IfOk result (λ p. p.at ≤ length (get_or (map (λ v. v.items) blocks.new.items) p.block [])) }
    ensures same { (x : T) → IfOk result (λ p. with_item (map (λ v. v.items) blocks.new.items) p.block p.at x
        ≡ with_item (map (λ v. v.items) blocks.old.items) place.block place.at x) }
    ensures items { items_in blocks.new.items ≡ items_in blocks.old.items }
    ensures filled { IsFilled (map (λ v. v.items) blocks.new.items) }
    ensures before { (b : ℕ) → b ≤ place.block → before b (map (λ v. v.items) blocks.new.items)
        ≡ before b (map (λ v. v.items) blocks.old.items) }
    ensures not_before { IfOk result (λ p. place.block ≤ p.block) }
    ensures inside { place.block < length blocks.new.items }
{
    if blocks[place.block].len() < MOST {
        return Ok(place);
    }
    cut_block(blocks, place.block)?;
    if place.at <= HALF {
        return Ok(place);
    }
    Ok(Place {
        block: place.block + 1,
        at: place.at - HALF,
    })
}

/// One item more, at a place, and where it stands then. A refusal changes no item.
pub(crate) fn insert<T: Drop>(
    blocks: &mut Vec<Vec<T>>,
    place: Place,
    item: T,
) -> Result<Place, AllocError>
    requires inside { place.block < length blocks.old.items }
    requires at { place.at ≤ length (get_or (map (λ v. v.items) blocks.old.items) place.block []) }
    requires filled { IsFilled (map (λ v. v.items) blocks.old.items) }
    ensures ok { OnOk result (items_in blocks.new.items
        ≡ with_item (map (λ v. v.items) blocks.old.items) place.block place.at item) }
    ensures err { OnErr result (items_in blocks.new.items ≡ items_in blocks.old.items) }
    ensures placed { IfOk result (λ p. IsItemAt (map (λ v. v.items) blocks.new.items) p.block p.at item) }
    ensures filled { IsFilled (map (λ v. v.items) blocks.new.items) }
    ensures before { (b : ℕ) → b ≤ place.block → before b (map (λ v. v.items) blocks.new.items)
        ≡ before b (map (λ v. v.items) blocks.old.items) }
    ensures inside { place.block < length blocks.new.items }
{
    let place = shorten(blocks, place)?;
    let block = &mut blocks[place.block];
    block.insert(place.at, item)?;
    Ok(place)
}

// The points of one block behind others.
fn extend(all: &mut Vec<Point>, block: &[Tally]) -> Result<(), AllocError>
    ensures { OnOk result (all.new.items ≡ all.old.items ++ block.now) }
{
    for tally in block {
        all.push(tally.point())?;
    }
    Ok(())
}

/// All points, by rising size.
pub(crate) fn items(alloc: Global, blocks: &[Vec<Tally>]) -> Result<Vec<Point>, AllocError>
    ensures { IfOk result (λ all. all.items ≡ items_in blocks.now) }
{
    let mut all = Vec::new(alloc);
    for i in 0..blocks.len() {
        extend(&mut all, &blocks[i])?;
    }
    Ok(all)
}
