//! New stamps for old ones, by their classes.
ghost use Rattle.std.specs.Prelude.{◌≡◌, ◌≤◌, ◌+◌, ◌*◌, All, List, length, map, take};
ghost use Rattle.stamp_lanes.specs.Plain.{Renewal, renewals, renewed};

use crate::block::Block;
use stamps::Stamp;
use std::cmp::Ordering;

// The new number of one stamp.
fn renewed_number<S: Stamp>(own: S, own_class: S, write: S, write_class: S) -> u32
    requires { 3 * S.number_of own_class + 2 ≤ S.MAX }
    ensures { result ≡ renewed (record {
      own = S.number_of own;
      own_class = S.number_of own_class;
      write = S.number_of write;
      write_class = S.number_of write_class;
    }) }
{
    let _most = S::MAX;
    if own.number() == 0 {
        return 0;
    }
    let first = 3 * own_class.number();
    if own_class.number() != write_class.number() {
        return first;
    }
    match own.number().cmp(&write.number()) {
        Ordering::Less => first,
        Ordering::Equal => first + 1,
        Ordering::Greater => first + 2,
    }
}

// The new stamps of a block.
fn renewed_block<B: Block>(own: B, own_class: B, write: B, write_class: B) -> B
    requires sixteen { length (B.lanes own) ≡ 16 }
    requires width { 2 ≤ B.Lane.MAX }
    requires room { All (λ k. 3 * k + 2 ≤ B.Lane.MAX) (B.lanes own_class) }
    ensures { (rs : List Renewal)
        → B.lanes own ≡ map (λ r. r.own) rs
        → B.lanes own_class ≡ map (λ r. r.own_class) rs
        → B.lanes write ≡ map (λ r. r.write) rs
        → B.lanes write_class ≡ map (λ r. r.write_class) rs
        → B.lanes result ≡ map renewed rs }
{
    let zero = B::splat(B::Lane::from_number(0));
    let one = B::splat(B::Lane::from_number(1));
    let two = B::splat(B::Lane::from_number(2));
    let first = own_class.sum(own_class).sum(own_class);
    let at_least = own.where_equal(write, one, two);
    let rank = own.where_below(write, zero, at_least);
    let rank_in_class = own_class.where_equal(write_class, rank, zero);
    own.where_equal(zero, zero, first.sum(rank_in_class))
}

// Writes the new stamps of the whole blocks, and answers where these end.
fn renew_blocks<B: Block>(
    own: &[B::Lane],
    own_class: &[B::Lane],
    write: &[B::Lane],
    write_class: &[B::Lane],
    into: &mut [B::Lane],
) -> usize
    requires lengths { (length own.now ≡ length into.old)
        × (length own_class.now ≡ length into.old)
        × (length write.now ≡ length into.old)
        × (length write_class.now ≡ length into.old) }
    requires room { All (λ k. 3 * k + 2 ≤ B.Lane.MAX) (map B.Lane.number_of own_class.now) }
    ensures end { result ≤ length own.now }
    ensures length { length into.new ≡ length into.old }
    ensures written { take result (map B.Lane.number_of into.new)
        ≡ map renewed (take result (renewals
        (map B.Lane.number_of own.now)
        (map B.Lane.number_of own_class.now)
        (map B.Lane.number_of write.now)
        (map B.Lane.number_of write_class.now))) }
{
    let mut at = 0;
    while own.len() - at >= 16 {
        let stamps = B::load(own, at);
        let classes = B::load(own_class, at);
        let renewed = renewed_block(
            stamps,
            classes,
            B::load(write, at),
            B::load(write_class, at),
        );
        renewed.store(into, at);
        at += 16;
    }
    at
}

/// New stamps, three for each class.
pub fn renew_into<B: Block>(
    own: &[B::Lane],
    own_class: &[B::Lane],
    write: &[B::Lane],
    write_class: &[B::Lane],
    into: &mut [B::Lane],
)
    requires lengths { (length own.now ≡ length into.old)
        × (length own_class.now ≡ length into.old)
        × (length write.now ≡ length into.old)
        × (length write_class.now ≡ length into.old) }
    requires room { All (λ k. 3 * k + 2 ≤ B.Lane.MAX) (map B.Lane.number_of own_class.now) }
    ensures { map B.Lane.number_of into.new
        ≡ map renewed (renewals
        (map B.Lane.number_of own.now)
        (map B.Lane.number_of own_class.now)
        (map B.Lane.number_of write.now)
        (map B.Lane.number_of write_class.now)) }
{
    let mut at = renew_blocks::<B>(own, own_class, write, write_class, into);
    while at < own.len() {
        into[at] = B::Lane::from_number(renewed_number(
            own[at],
            own_class[at],
            write[at],
            write_class[at],
        ));
        at += 1;
    }
}
