//! The calls on slices of stamps.
ghost use Rattle.std.specs.Prelude.{◌≡◌, ◌≤◌, ◌+◌, ◌*◌, ◌^◌, ◌==◌, All, cond, length, map, option_map, replicate};
ghost use Rattle.stamp_lanes.specs.Plain.{IsBulk, class_of, extremes, places, renewals, renewed};

use crate::{Bulk, bulk, classes, extremes, renewal};
use stamps::Stamp;
use std::simd::prelude::*;

/// Stamps whose slices are gone over a block at a time.
pub trait Lanes: Stamp {
    /// The least and the greatest stamp, and `None` for the empty slice.
    fn least_greatest(stamps: &[Self]) -> Option<(Self, Self)>
        ensures { option_map (λ p. (Self.number_of p.0, Self.number_of p.1)) result
            ≡ extremes (map Self.number_of stamps.now) };

    /// Writes the class of each stamp: `below`, and one for each start that is at most it.
    fn classes_into(stamps: &[Self], starts: &[Self], below: u32, into: &mut [Self])
        requires lengths { length stamps.now ≡ length into.old }
        requires room { below + length starts.now ≤ Self.MAX }
        ensures { map Self.number_of into.new
            ≡ map (class_of (map Self.number_of starts.now) below)
            (map Self.number_of stamps.now) };

    /// Writes a new stamp for each own one, three for each class: the order within a class stays.
    fn renew_into(
        own: &[Self],
        own_class: &[Self],
        write: &[Self],
        write_class: &[Self],
        into: &mut [Self],
    )
        requires lengths { (length own.now ≡ length into.old)
            × (length own_class.now ≡ length into.old)
            × (length write.now ≡ length into.old)
            × (length write_class.now ≡ length into.old) }
        requires room { All (λ k. 3 * k + 2 ≤ Self.MAX) (map Self.number_of own_class.now) }
        ensures { map Self.number_of into.new
            ≡ map renewed (renewals
            (map Self.number_of own.now)
            (map Self.number_of own_class.now)
            (map Self.number_of write.now)
            (map Self.number_of write_class.now)) };

    /// A read of many places. `write` has the latest writes, and `marks` a 0 where a thread wrote and another byte where the
    /// kernel did. The own stamps become `now` where none of them is old, and else all stay.
    fn bulk_read(own: &mut [Self], write: &[Self], marks: &[u8], start: Self, now: Self) -> Bulk
        requires lengths { (length own.old ≡ length write.now)
            × (length own.old ≡ length marks.now) }
        requires few { length own.old ≤ 2 ^ 30 }
        ensures counts { IsBulk (Self.number_of start)
            (places (map Self.number_of own.old) (map Self.number_of write.now) marks.now)
            result }
        ensures filled { own.new ≡ cond (result.old == 0)
            (replicate (length own.old) now) own.old };
}

impl Lanes for u8 {
    fn least_greatest(stamps: &[u8]) -> Option<(u8, u8)> {
        extremes::least_greatest::<u8x16>(stamps)
    }

    fn classes_into(stamps: &[u8], starts: &[u8], below: u32, into: &mut [u8]) {
        classes::classes_into::<u8x16>(stamps, starts, below, into)
    }

    fn renew_into(own: &[u8], own_class: &[u8], write: &[u8], write_class: &[u8], into: &mut [u8]) {
        renewal::renew_into::<u8x16>(own, own_class, write, write_class, into)
    }

    fn bulk_read(own: &mut [u8], write: &[u8], marks: &[u8], start: u8, now: u8) -> Bulk {
        bulk::bulk_read::<u8x16>(own, write, marks, start, now)
    }
}

impl Lanes for u16 {
    fn least_greatest(stamps: &[u16]) -> Option<(u16, u16)> {
        extremes::least_greatest::<u16x16>(stamps)
    }

    fn classes_into(stamps: &[u16], starts: &[u16], below: u32, into: &mut [u16]) {
        classes::classes_into::<u16x16>(stamps, starts, below, into)
    }

    fn renew_into(
        own: &[u16],
        own_class: &[u16],
        write: &[u16],
        write_class: &[u16],
        into: &mut [u16],
    ) {
        renewal::renew_into::<u16x16>(own, own_class, write, write_class, into)
    }

    fn bulk_read(own: &mut [u16], write: &[u16], marks: &[u8], start: u16, now: u16) -> Bulk {
        bulk::bulk_read::<u16x16>(own, write, marks, start, now)
    }
}

impl Lanes for u32 {
    fn least_greatest(stamps: &[u32]) -> Option<(u32, u32)> {
        extremes::least_greatest::<u32x16>(stamps)
    }

    fn classes_into(stamps: &[u32], starts: &[u32], below: u32, into: &mut [u32]) {
        classes::classes_into::<u32x16>(stamps, starts, below, into)
    }

    fn renew_into(
        own: &[u32],
        own_class: &[u32],
        write: &[u32],
        write_class: &[u32],
        into: &mut [u32],
    ) {
        renewal::renew_into::<u32x16>(own, own_class, write, write_class, into)
    }

    fn bulk_read(own: &mut [u32], write: &[u32], marks: &[u8], start: u32, now: u32) -> Bulk {
        bulk::bulk_read::<u32x16>(own, write, marks, start, now)
    }
}
