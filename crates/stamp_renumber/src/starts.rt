//! Start stamps in order, and the classes that they make.
ghost use Rattle.std.specs.Prelude.{◌≡◌, ◌≤◌, ◌<◌, ℕ, length, map, slice_index};
ghost use Rattle.std.specs.List.Sorted.{IsNonDecreasingBy};
ghost use Rattle.stamp_renumber.specs.Classes.{class};

use stamp_lanes::Lanes;
use stamps::Stamp;

/// How many of the starts are at most the stamp.
pub(crate) fn class_of<S: Stamp>(starts: &[S], stamp: S) -> usize
    requires sorted { IsNonDecreasingBy S.number_of starts.now }
    ensures value { result ≡ class (map S.number_of starts.now) (S.number_of stamp) }
    ensures within { result ≤ length starts.now }
    ensures below { (i : ℕ) → i < result → slice_index (map S.number_of starts.now) i
        ≤ S.number_of stamp }
    ensures above { (i : ℕ) → result ≤ i → i < length starts.now
        → S.number_of stamp < slice_index (map S.number_of starts.now) i }
{
    let n = stamp.number();
    starts.partition_point(|start| start.number() <= n)
}

/// Writes the classes of a row of stamps. Only the starts above the least stamp and at most the greatest are gone over.
pub(crate) fn classes_into<S: Lanes>(stamps: &[S], starts: &[S], into: &mut [S])
    requires sorted { IsNonDecreasingBy S.number_of starts.now }
    requires room { length starts.now ≤ S.MAX }
    requires lengths { length stamps.now ≡ length into.old }
    ensures { map S.number_of into.new
        ≡ map (class (map S.number_of starts.now)) (map S.number_of stamps.now) }
{
    let _most = S::MAX;
    if let Some(ends) = S::least_greatest(stamps) {
        let low = class_of(starts, ends.0);
        let high = class_of(starts, ends.1);
        S::classes_into(stamps, &starts[low..high], low as u32, into);
    }
}
