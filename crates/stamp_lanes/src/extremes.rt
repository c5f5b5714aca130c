//! The least and the greatest stamp.
ghost use Rattle.std.specs.Prelude.{◌≡◌, ◌≤◌, ℕ, length, map, take, min, max, fold, option_map};
ghost use Rattle.stamp_lanes.specs.Plain.{extremes};

use crate::block::Block;
use stamps::Stamp;

// The lesser of two stamps.
fn lesser<S: Stamp>(one: S, other: S) -> S
    ensures { S.number_of result ≡ min (S.number_of one) (S.number_of other) }
{
    if other.number() < one.number() {
        other
    } else {
        one
    }
}

// The greater of two stamps.
fn greater<S: Stamp>(one: S, other: S) -> S
    ensures { S.number_of result ≡ max (S.number_of one) (S.number_of other) }
{
    if one.number() < other.number() {
        other
    } else {
        one
    }
}

// The least and the greatest of these stamps and two more.
fn scalar_extremes<S: Stamp>(stamps: &[S], least: S, greatest: S) -> (S, S)
    ensures least { S.number_of result.0 ≡ fold min (S.number_of least)
        (map S.number_of stamps.now) }
    ensures greatest { S.number_of result.1 ≡ fold max (S.number_of greatest)
        (map S.number_of stamps.now) }
{
    let mut low = least;
    let mut high = greatest;
    for stamp in stamps {
        low = lesser(low, *stamp);
        high = greater(high, *stamp);
    }
    (low, high)
}

// The least and the greatest, lane by lane, of the whole blocks, and where these end.
fn block_extremes<B: Block>(stamps: &[B::Lane]) -> (B, B, usize)
    requires { 16 ≤ length stamps.now }
    ensures end { result.2 ≤ length stamps.now }
    ensures sixteen { (length (B.lanes result.0) ≡ 16) × (length (B.lanes result.1) ≡ 16) }
    ensures least { (a : ℕ) → fold min a (B.lanes result.0)
        ≡ fold min a (take result.2 (map B.Lane.number_of stamps.now)) }
    ensures greatest { (a : ℕ) → fold max a (B.lanes result.1)
        ≡ fold max a (take result.2 (map B.Lane.number_of stamps.now)) }
{
    let first = B::load(stamps, 0);
    let mut low = first;
    let mut high = first;
    let mut at = 16;
    while stamps.len() - at >= 16 {
        let block = B::load(stamps, at);
        low = low.where_below(block, low, block);
        high = high.where_below(block, block, high);
        at += 16;
    }
    (low, high, at)
}

/// The least and the greatest stamp.
pub fn least_greatest<B: Block>(stamps: &[B::Lane]) -> Option<(B::Lane, B::Lane)>
    ensures { option_map (λ p. (B.Lane.number_of p.0, B.Lane.number_of p.1)) result
        ≡ extremes (map B.Lane.number_of stamps.now) }
{
    let first = *stamps.first()?;
    if stamps.len() < 16 {
        return Some(scalar_extremes(stamps, first, first));
    }
    let (low, high, at) = block_extremes::<B>(stamps);
    let mut lows = [first; 16];
    low.store(&mut lows, 0);
    let mut highs = [first; 16];
    high.store(&mut highs, 0);
    let (least, _) = scalar_extremes(&lows, first, first);
    let (_, greatest) = scalar_extremes(&highs, first, first);
    Some(scalar_extremes(&stamps[at..], least, greatest))
}
