//! The classes of stamps.
ghost use Rattle.std.specs.Prelude.{◌≡◌, ◌≤◌, ◌+◌, length, map, take};
ghost use Rattle.stamp_lanes.specs.Plain.{class_of};

use crate::block::Block;
use stamps::Stamp;

// The class of one stamp.
fn class_number<S: Stamp>(stamp: S, starts: &[S], below: u32) -> u32
    requires { below + length starts.now ≤ S.MAX }
    ensures { result ≡ class_of (map S.number_of starts.now) below (S.number_of stamp) }
{
    let _most = S::MAX;
    let mut class = below;
    for start in starts {
        if start.number() <= stamp.number() {
            class += 1;
        }
    }
    class
}

// The classes of a block.
fn block_classes<B: Block>(block: B, starts: &[B::Lane], below: u32) -> B
    requires sixteen { length (B.lanes block) ≡ 16 }
    requires room { below + length starts.now ≤ B.Lane.MAX }
    ensures { B.lanes result ≡ map (class_of (map B.Lane.number_of starts.now) below)
        (B.lanes block) }
{
    let mut classes = B::splat(B::Lane::from_number(below));
    for start in starts {
        let none = B::splat(B::Lane::from_number(0));
        let one = B::splat(B::Lane::from_number(1));
        classes = classes.sum(block.where_below(B::splat(*start), none, one));
    }
    classes
}

// Writes the classes of the whole blocks, and answers where these end.
fn classes_of_blocks<B: Block>(
    stamps: &[B::Lane],
    starts: &[B::Lane],
    below: u32,
    into: &mut [B::Lane],
) -> usize
    requires lengths { length stamps.now ≡ length into.old }
    requires room { below + length starts.now ≤ B.Lane.MAX }
    ensures end { result ≤ length stamps.now }
    ensures length { length into.new ≡ length into.old }
    ensures written { take result (map B.Lane.number_of into.new)
        ≡ map (class_of (map B.Lane.number_of starts.now) below)
        (take result (map B.Lane.number_of stamps.now)) }
{
    let mut at = 0;
    while stamps.len() - at >= 16 {
        block_classes(B::load(stamps, at), starts, below).store(into, at);
        at += 16;
    }
    at
}

/// The class of each stamp: `below` and how many of the starts are at most it.
pub fn classes_into<B: Block>(
    stamps: &[B::Lane],
    starts: &[B::Lane],
    below: u32,
    into: &mut [B::Lane],
)
    requires lengths { length stamps.now ≡ length into.old }
    requires room { below + length starts.now ≤ B.Lane.MAX }
    ensures { map B.Lane.number_of into.new
        ≡ map (class_of (map B.Lane.number_of starts.now) below) (map B.Lane.number_of stamps.now) }
{
    let mut at = classes_of_blocks::<B>(stamps, starts, below, into);
    while at < stamps.len() {
        into[at] = B::Lane::from_number(class_number(stamps[at], starts, below));
        at += 1;
    }
}
