//! New starts of frames.
ghost use Rattle.std.specs.Prelude.{◌≡◌, ◌≤◌, ◌+◌, ◌*◌, ◌++◌, All, Contains, length, map, vec_len};
ghost use Rattle.std.specs.Vec.{vec_capacity};
ghost use Rattle.std.specs.List.Sorted.{IsNonDecreasingBy};
ghost use Rattle.shadow_stack.specs.Frames.{IsRising, starts_of};
ghost use Rattle.stamp_renumber.specs.Classes.{new_start};
ghost use Rattle.stamp_renumber.specs.Renumbered.{renewed_frames};

use crate::starts::class_of;
use shadow_stack::{Frames, Steps};
use stamps::Stamp;
use std::sync::ledger::Ledger;

/// Adds the starts of the frames to those that are there. There is room for them.
pub(crate) fn collect_starts<S: Stamp>(frames: &Frames<S>, starts: &mut Vec<S>)
    requires room { vec_len starts.old + length frames.now.list ≤ vec_capacity starts.old }
    ensures items { map S.number_of starts.new.items
        ≡ map S.number_of starts.old.items ++ starts_of frames.now.list }
    ensures capacity { vec_capacity starts.old ≤ vec_capacity starts.new }
{
    for i in 0..frames.depth() {
        starts.push(frames.start_at(i)).unwrap();
    }
}

// The new starts of the frames, the outermost first. There is room for them.
fn renewed_starts<S: Stamp, L: Ledger>(
    frames: &Frames<S>,
    starts: &[S],
    renewed: &mut Vec<S>,
    steps: &mut Steps<L>,
)
    requires sorted { IsNonDecreasingBy S.number_of starts.now }
    requires fit { 3 * length starts.now + 2 ≤ S.MAX }
    requires empty { vec_len renewed.old ≡ 0 }
    requires room { length frames.now.list ≤ vec_capacity renewed.old }
    ensures items { map S.number_of renewed.new.items
        ≡ map (new_start (map S.number_of starts.now)) (starts_of frames.now.list) }
    ensures rising { IsRising (starts_of frames.now.list) }
    ensures capacity { vec_capacity renewed.old ≤ vec_capacity renewed.new }
    ensures cost { steps.new ≡ steps.old + length frames.now.list }
{
    let _most = S::MAX;
    for i in 0..frames.depth() {
        let class = class_of(starts, frames.start_at(i));
        renewed.push(S::from_number(3 * class as u32)).unwrap();
        steps.tick();
    }
}

/// Gives the frames their new starts. `renewed` is room to work them out in. A step is one start.
pub(crate) fn renew_frames<S: Stamp, L: Ledger>(
    frames: &mut Frames<S>,
    starts: &[S],
    renewed: &mut Vec<S>,
    steps: &mut Steps<L>,
)
    requires sorted { IsNonDecreasingBy S.number_of starts.now }
    requires fit { 3 * length starts.now + 2 ≤ S.MAX }
    requires among { All (Contains (map S.number_of starts.now)) (starts_of frames.old.list) }
    requires room { length frames.old.list ≤ vec_capacity renewed.old }
    ensures list { frames.new.list ≡ renewed_frames (map S.number_of starts.now) frames.old.list }
    ensures calls { frames.new.calls ≡ frames.old.calls }
    ensures spare { frames.new.spare ≡ frames.old.spare }
    ensures capacity { vec_capacity renewed.old ≤ vec_capacity renewed.new }
    ensures cost { steps.new ≡ steps.old + length frames.old.list }
{
    renewed.clear();
    renewed_starts(frames, starts, renewed, steps);
    frames.renew(renewed);
}
