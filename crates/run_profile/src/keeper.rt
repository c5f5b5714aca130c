//! What keeps the activations of a run that ended.
ghost use Rattle.std.specs.Prelude.{◌≡◌, ◌≤◌, [], ◌∷◌, ℕ, List, false, IsOk, OnErr, OnOk};
ghost use Rattle.trace_model.specs.declared.event_kinds.Event.{Event};
ghost use Rattle.trace_model.specs.declared.slow_profile.Done.{Done};
ghost use Rattle.trace_model.specs.Observing.{with_steps};
ghost use Rattle.trace_model.specs.Profile.{ended};
ghost use Rattle.run_profile.specs.Keeping.{MayKeep, MayKeepSteps, Passes};

use guest_words::Tid;
use std::alloc::AllocError;
use trace_model::{Done, Event};

/// What keeps the activations of a run that ended. It takes each event after the profiler, with the activations that ended at the
/// event, the innermost first: at once if it can, and otherwise before the next event. So an event that the profiler took is not
/// refused because the keeper runs out of memory.
pub trait Keeper: Drop {
    /// It holds this past, and the first few of these activations, which ended at the event after it.
    ghost holds: { Self → List Event → List Done → Type 0 };

    /// A past that is too much for it: it keeps nothing of that.
    ghost is_too_much: { List Event → Type 0 };

    /// Takes the event, with what ended at it, and answers `true`, if that is quick and there is the memory. Otherwise the event is
    /// left for `take`, with all that ended.
    fn pass(&mut self, e: &Event, ends: &[Done]) -> bool
        requires { MayKeep holds self.old [] e.now ends.now }
        ensures passes { (past : List Event) → holds self.old past [] → ends.now ≡ ended e.now past
            → Passes holds self.new e.now past ends.now result }
        ensures nothing { result ≡ false → (past : List Event) → holds self.old past []
            → holds self.new past [] };

    /// Takes the event. After an `Err` it may hold the first few of the activations; called again, it takes the rest.
    fn take(&mut self, e: Event, ends: &[Done]) -> Result<(), AllocError>
        requires { MayKeep holds self.old ends.now e ends.now }
        ensures taken { (past : List Event) → holds self.old past ends.now → ends.now ≡ ended e past
            → OnOk result (holds self.new (e ∷ past) []) }
        ensures refused { (past : List Event) → holds self.old past ends.now
            → OnErr result (holds self.new past ends.now) }
        ensures no_allocation { (past : List Event) → holds self.old past ends.now
            → is_too_much (e ∷ past) → IsOk result };

    /// Takes steps of a thread in a row.
    fn take_steps(&mut self, tid: Tid, count: u64)
        requires some { 1 ≤ count }
        requires may { MayKeepSteps holds self.old tid count }
        ensures { (past : List Event) → holds self.old past []
            → holds self.new (with_steps tid count past) [] };
}
