//! Items by their keys, and by their index among all.
ghost use Rattle.std.specs.Prelude.{◌≡◌, ◌<◌, ◌^◌, [], ℕ, Some, get_or, length, map, slice_get, IfNone, IfOk, IfSome, MatchResult, OnErr, OnOk};
ghost use Rattle.std.specs.Borrow.{sem};
ghost use Rattle.cost_points.specs.Joined.{joined};
ghost use Rattle.cost_points.specs.Keys.{IsRising, put};
ghost use Rattle.cost_points.specs.Places.{IsGapOf, IsPlaceOf};
ghost use Rattle.cost_points.specs.Search.{IsAt};

use crate::blocks::{self, Keyed, Place};
use crate::indexes;
use std::alloc::{AllocError, Global};
use std::marker::Model;

// How many places are remembered.
const SLOTS: usize = 64;

/// Items in blocks, for rising keys: a new one moves the rest of its block, and no other item. Contracts see the blocks, each
/// as the list of its items.
#[derive(Drop)]
pub struct ByKey<T> {
    blocks: Vec<Vec<T>>,
    count: usize,
    // The index of the first item of each block, of the first blocks up to one.
    starts: Vec<usize>,
    // The places that were found last, each in the slot of its key. The item there may be another one by now.
    recent: [Place; SLOTS],
}

impl<T> Model for ByKey<T> {
    ghost use Rattle.std.specs.Prelude.{List, map};
    ghost use Rattle.cost_points.specs.Indexes.{AreIndexed};

    ghost Value = { List (List T) };

    ghost view = { λ k. map (λ b. b.items) k.blocks.items };

    ghost invariant = { λ k. AreIndexed (map (λ b. b.items) k.blocks.items) k.count k.starts.items };
}

// The slot of a key. Keys are mostly addresses of code, and so multiples of 4.
#[inline(always)]
fn slot_of(key: u64) -> usize
    ensures { result < 64 }
{
    (key >> 2) as usize % SLOTS
}

impl<T> ByKey<T> {
    ghost use Rattle.cost_points.specs.LentItem.{lends_item};

    /// How many items there are.
    pub fn len(&self) -> usize
        ensures { result ≡ length (joined self.now) }
    {
        self.count
    }

    /// The item at a place, for writing. The place is remembered for a key.
    #[inline(always)]
    pub fn at_mut(&mut self, key: u64, place: Place) -> &mut T
        requires block { place.block < length self.old }
        requires at { place.at < length (get_or self.old place.block []) }
        ensures* writes_back { sem 𝓛 (lends_item T.row self.entry place.block place.at result) }
        ensures found { result.now ≡ get_or (get_or self.old place.block []) place.at result.now }
    {
        self.recent[slot_of(key)] = place;
        let block = &mut self.blocks[place.block];
        &mut block[place.at]
    }

    /// Makes looking up items by their index quick, until a new one comes.
    pub fn index(&mut self) -> Result<(), AllocError>
        ensures { self.new ≡ self.old }
    {
        indexes::extend(&self.blocks, self.count, &mut self.starts)
    }

    /// The item of an index.
    pub fn get(&self, i: usize) -> &T
        requires { i < length (joined self.now) }
        ensures { slice_get (joined self.now) i ≡ Some result.now }
    {
        let place = indexes::place_of(&self.blocks, &self.starts, i);
        let block = &self.blocks[place.block];
        &block[place.at]
    }
}

impl<T: Keyed + Drop> ByKey<T> {
    /// No item.
    pub fn new(alloc: Global) -> Result<ByKey<T>, AllocError>
        ensures { IfOk result (λ k. joined k ≡ []) }
    {
        let mut blocks = Vec::new(alloc);
        blocks.push(Vec::new(alloc))?;
        let mut starts = Vec::new(alloc);
        starts.push(0)?;
        Ok(ByKey {
            blocks,
            count: 0,
            starts,
            recent: [Place::FIRST; SLOTS],
        })
    }

    /// Where the key stands, or where it would go. The place that is remembered is tried first.
    #[inline(always)]
    pub fn find(&self, key: u64) -> Result<Place, Place>
        requires { IsRising (map T.key_of (joined self.now)) }
        ensures { MatchResult result
            (λ p. IsPlaceOf T.key_of self.now key p.block p.at)
            (λ p. IsGapOf T.key_of self.now key p.block p.at) }
    {
        blocks::find(&self.blocks, self.recent[slot_of(key)], key)
    }

    /// Where the key stands, if that is remembered.
    #[inline(always)]
    pub fn recent_place(&self, key: u64) -> Option<Place>
        requires { IsRising (map T.key_of (joined self.now)) }
        ensures { IfSome result (λ p. IsPlaceOf T.key_of self.now key p.block p.at) }
    {
        let place = self.recent[slot_of(key)];
        if blocks::stands_at(&self.blocks, place, key) {
            Some(place)
        } else {
            None
        }
    }

    /// One item more, at the place where its key would go, and where it stands then. A refusal changes no item.
    #[cold]
    #[inline(never)]
    pub fn insert(&mut self, place: Place, item: T) -> Result<Place, AllocError>
        requires few { length (joined self.old) < 2 ^ 63 }
        requires rising { IsRising (map T.key_of (joined self.old)) }
        requires gap { IsGapOf T.key_of self.old (T.key_of item) place.block place.at }
        ensures ok { (change : T → T) → OnOk result (joined self.new
            ≡ put T.key_of (T.key_of item) change item (joined self.old)) }
        ensures place { IfOk result (λ p. IsPlaceOf T.key_of self.new (T.key_of item) p.block p.at) }
        ensures err { OnErr result (joined self.new ≡ joined self.old) }
    {
        self.starts.truncate(place.block + 1);
        let placed = blocks::insert(&mut self.blocks, place, item)?;
        self.count += 1;
        Ok(placed)
    }

    /// The place of the item that has the key of this one. Where there is none, this one takes its place. A refusal changes no
    /// item.
    #[inline(always)]
    pub fn find_or_insert(&mut self, item: T) -> Result<Place, AllocError>
        requires few { length (joined self.old) < 2 ^ 63 }
        requires rising { IsRising (map T.key_of (joined self.old)) }
        ensures ok { OnOk result (joined self.new
            ≡ put T.key_of (T.key_of item) (λ a. a) item (joined self.old)) }
        ensures place { IfOk result (λ p. IsPlaceOf T.key_of self.new (T.key_of item) p.block p.at) }
        ensures err { OnErr result (joined self.new ≡ joined self.old) }
    {
        match self.find(item.key()) {
            Ok(place) => Ok(place),
            Err(place) => self.insert(place, item),
        }
    }
}
