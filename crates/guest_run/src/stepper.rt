//! One step of a machine: its bytes go out, and its events to an observer.
ghost use Rattle.std.specs.Prelude.{◌≡◌, ◌∷◌, [], true, IfOk, if◌then◌else◌};
ghost use Rattle.guest_words.specs.declared.endings.Finish.TheVariants.{Deep};
ghost use Rattle.trace_model.specs.Observing.{MayTakeAll, ObservesAll, is_taken};
ghost use Rattle.trace_model.specs.declared.event_kinds.Event.TheVariants.{Step};
ghost use Rattle.guest_machine.specs.Kept.{machine_of, out_of};
ghost use Rattle.guest_machine.specs.Machine.{can_run};
ghost use Rattle.guest_machine.specs.Step.{access_events, jump_events};
ghost use Rattle.guest_run.specs.declared.turn_status.TurnStatus.TheVariants.{Ends};
ghost use Rattle.guest_run.specs.Machine.{guest};
ghost use Rattle.guest_run.specs.Output.{sinks};
ghost use Rattle.guest_run.specs.Private.Steps.{PutEndsOn, PutsSent, StepEnds, StepEndsAs};

use crate::turn_status::turn_status_of;
use crate::{Channel, RunError, TurnStatus};
use guest_machine::{Advanced, Machine, Stepped, observe_told};
use guest_words::{Finish, Tid};
use host_io::{PutError, Sink};
use std::alloc::{AllocError, Global};
use trace_model::{Events, Observed, Observer, feed};

/// A machine, with room for the events of a step.
#[derive(Drop)]
pub(crate) struct Stepper {
    pub(crate) machine: Machine,
    pub(crate) events: Events,
}

// Puts bytes on the sink of a channel, where there are any.
#[cold]
#[inline(never)]
fn put<S: Sink>(bytes: &[u8], channel: Channel, sink: &mut S) -> Result<(), RunError>
    ensures { PutEndsOn channel bytes.now (S.state sink.old) (S.state sink.new) result }
{
    if bytes.is_empty() {
        return Ok(());
    }
    match sink.put(bytes) {
        Ok(()) => Ok(()),
        Err(PutError::Failed) => Err(RunError::CannotPut { channel }),
        Err(PutError::Memory) => Err(RunError::Memory),
    }
}

// Puts the bytes that the last step wrote.
#[inline(always)]
fn put_outgoing<O: Sink, E: Sink>(
    machine: &Machine,
    out: &mut O,
    err: &mut E,
) -> Result<(), RunError>
    ensures { PutsSent (out_of machine.now) (sinks (O.state out.old) (E.state err.old))
        (sinks (O.state out.new) (E.state err.new)) result }
{
    match machine.outgoing() {
        Some((Channel::Out, bytes)) => put(bytes, Channel::Out, out),
        Some((Channel::Err, bytes)) => put(bytes, Channel::Err, err),
        None => Ok(()),
    }
}

impl Stepper {
    /// A machine that has made no step.
    pub(crate) fn new(alloc: Global, machine: Machine) -> Result<Stepper, AllocError>
        ensures { IfOk result (λ stepper. stepper.machine ≡ machine) }
    {
        Ok(Stepper {
            machine,
            events: Events::new(alloc)?,
        })
    }

    /// Runs one step of a thread that can run: first its bytes are put, then its events are handed out.
    #[inline(always)]
    pub(crate) fn step<W: Observer, O: Sink, E: Sink>(
        &mut self,
        tid: Tid,
        observer: &mut W,
        out: &mut O,
        err: &mut E,
    ) -> Result<TurnStatus, RunError>
        requires can_run { can_run (machine_of self.old.machine) tid ≡ true }
        requires next { MayTakeAll W.stands (W.fits observer.old) observer.old
            (guest.step (machine_of self.old.machine) tid).events }
        ensures ends { StepEnds W.stands (W.fits observer.old)
            (guest.step (machine_of self.old.machine) tid)
            observer.old (sinks (O.state out.old) (E.state err.old))
            (machine_of self.new.machine) observer.new
            (sinks (O.state out.new) (E.state err.new)) result }
        ensures same { W.fits observer.new ≡ W.fits observer.old }
    {
        self.events.clear();
        match self.machine.advance(tid, &mut self.events)? {
            Advanced::Other { stepped } => self.finish_step(tid, stepped, observer, out, err),
            instruction => {
                let observed = observe_told(tid, 1, instruction, observer)?;
                Ok(status_of(observed, TurnStatus::GoesOn))
            }
        }
    }

    // Puts the bytes of a step whose events are in the list, and hands these out.
    #[cold]
    #[inline(never)]
    fn finish_step<W: Observer, O: Sink, E: Sink>(
        &mut self,
        tid: Tid,
        stepped: Stepped,
        observer: &mut W,
        out: &mut O,
        err: &mut E,
    ) -> Result<TurnStatus, RunError>
        requires { MayTakeAll W.stands (W.fits observer.old) observer.old self.old.events.list }
        ensures ends { StepEndsAs W.stands (W.fits observer.old) tid stepped
            self.old.machine self.old.events.list
            observer.old (sinks (O.state out.old) (E.state err.old))
            (machine_of self.new.machine) observer.new
            (sinks (O.state out.new) (E.state err.new)) result }
        ensures same { W.fits observer.new ≡ W.fits observer.old }
    {
        put_outgoing(&self.machine, out, err)?;
        let observed = feed(self.events.list(), observer)?;
        Ok(status_of(observed, turn_status_of(tid, stepped)))
    }
}

// What a step means for its turn, where the observer took its events or not.
#[inline(always)]
fn status_of(observed: Observed, status: TurnStatus) -> TurnStatus
    ensures { result ≡ (if is_taken observed then status else Ends Deep) }
{
    match observed {
        Observed::Taken => status,
        Observed::Refused => TurnStatus::Ends {
            finish: Finish::Deep,
        },
    }
}
