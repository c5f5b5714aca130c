//! The trace of a run that goes on.
ghost use Rattle.std.specs.Prelude.{◌≡◌, ◌<◌, ◌≤◌, ◌∷◌, [], true, false, not, List, length, is_some, IfOk, IfSome, IsOk, Ok, OnErr, OnOk, MatchOption};
ghost use Rattle.trace_model.specs.declared.event_kinds.Event.{Event};
ghost use Rattle.trace_model.specs.Depth.{is_within};
ghost use Rattle.trace_model.specs.Observing.{MayTake, Observes, StandsAsBefore};
ghost use Rattle.trace_model.specs.declared.observer.Observed.{Observed};
ghost use Rattle.trace_file.specs.TraceText.{IsTextOf};
ghost use Rattle.stamps.specs.declared.width.StampBits.TheVariants.{B32};
ghost use Rattle.stamps.specs.Widths.{greatest};
ghost use Rattle.stored_traces.specs.Entries.{entries_begun};
ghost use Rattle.stored_traces.specs.Kept.{IsTooLong, IsTraceOf, IsTraceOfFormed, IsSettled};

use crate::entries::entry_begun;
use crate::written::{EventText, Written};
use call_tracker::CallStacks;
use guest_words::limits::TRACE_BYTES;
use stamps::{StampBits, depth_limit};
use std::alloc::{AllocError, Global};
use std::marker::Model;
use trace_model::{Event, Observed, Observer};

/// The trace of the events so far. Its text is dropped once it is longer than the limit.
#[derive(Drop)]
pub struct RunTrace {
    stacks: CallStacks,
    written: Option<Written>,
}

impl Model for RunTrace {
    ghost use Rattle.stored_traces.specs.Kept.{KeptTrace};

    ghost Value = { KeptTrace };

    ghost view = { λ t. record { stacks = t.stacks; written = t.written } };
}

impl RunTrace {
    /// No event so far.
    pub fn new(alloc: Global) -> Result<RunTrace, AllocError>
        ensures { IfOk result (λ trace. IsTraceOf trace []) }
    {
        Ok(RunTrace {
            stacks: CallStacks::new(alloc),
            written: Some(Written::new(alloc)?),
        })
    }

    // Whether stamps can't tell apart what is open with the event.
    fn is_too_deep(&self, e: &Event) -> bool
        ensures { (past : List Event) → IsTraceOf self.now past
            → is_within (greatest B32) (e.now ∷ past) ≡ not result }
    {
        entry_begun(e).is_some() && self.stacks.pending() >= u64::from(depth_limit(StampBits::B32))
    }

    // Writes what is still to come. A text that is too long is dropped, which does not allocate.
    fn settle(&mut self) -> Result<(), AllocError>
        requires { IsTraceOfFormed self.old }
        ensures stands { (past : List Event) → IsTraceOf self.old past → IsTraceOf self.new past }
        ensures settled { OnOk result (IsSettled self.new) }
        ensures refused { OnErr result (is_some self.new.written ≡ true) }
        ensures no_allocation { IsSettled self.old → IsOk result }
    {
        let outgrown = match &mut self.written {
            Some(written) => {
                written.settle()?;
                written.length() > TRACE_BYTES
            }
            None => false,
        };
        if outgrown {
            self.written = None;
        }
        Ok(())
    }

    /// The text of the events and the entries of the activations that began; `None` where the text is longer than the limit.
    /// If nothing is still to come, it does not allocate.
    pub fn into_text(self) -> Result<Option<EventText>, AllocError>
        requires { IsTraceOfFormed self }
        ensures text { IfOk result (λ found. (past : List Event) → IsTraceOf self past
            → MatchOption found (IsTooLong past) (λ text. IsTextOf text.writer past × (text.entries.keys ≡ entries_begun past))) }
        ensures within { IfOk result (λ found. IfSome found
            (λ text. length text.writer.text ≤ TRACE_BYTES)) }
        ensures no_allocation { IsSettled self → IsOk result }
    {
        let mut trace = self;
        trace.settle()?;
        let RunTrace { written, .. } = trace;
        match written {
            Some(written) => Ok(Some(written.into_text())),
            None => Ok(None),
        }
    }
}

impl Observer for RunTrace {
    ghost use Rattle.trace_model.specs.Depth.{is_within};
    ghost use Rattle.trace_model.proofs.Cut.{steps_within, within_closed};
    ghost use Rattle.stamps.specs.declared.width.StampBits.TheVariants.{B32};
    ghost use Rattle.stamps.specs.Widths.{greatest};
    ghost use Rattle.stored_traces.specs.Kept.{IsTraceOf};

    ghost stands = { IsTraceOf };

    ghost fits = { λ _. is_within (greatest B32) };

    ghost fits_closed = { λ _. within_closed (greatest B32) };

    ghost steps_fit = { λ _. steps_within (greatest B32) };

    // What is too deep is refused without allocating.
    fn observe(&mut self, e: Event) -> Result<Observed, AllocError>
        requires { MayTake IsTraceOf self.old e }
        ensures observed { IfOk result (Observes IsTraceOf (is_within (greatest B32)) e self.old self.new) }
        ensures refused { OnErr result (StandsAsBefore IsTraceOf self.old self.new) }
        ensures too_deep { (past : List Event) → IsTraceOf self.old past
            → is_within (greatest B32) (e ∷ past) ≡ false → result ≡ Ok Observed.Refused }
    {
        if self.is_too_deep(&e) {
            return Ok(Observed::Refused);
        }
        self.settle()?;
        self.stacks.apply(e)?;
        if let Some(written) = &mut self.written {
            written.add(e);
        }
        Ok(Observed::Taken)
    }
}
