//! The run.
ghost use Rattle.std.specs.Prelude.{◌≡◌, ◌≤◌, ◌+◌, ◌<◌, [], true, IfOk, IfErr};
ghost use Rattle.trace_model.specs.declared.event_kinds.Event.{Event};
ghost use Rattle.guest_machine.specs.Kept.{machine_of};
ghost use Rattle.guest_run.specs.declared.run_error.RunError.TheVariants.{Memory};
ghost use Rattle.guest_run.specs.Private.CurrentTurn.{recorded};
ghost use Rattle.guest_run.specs.Private.Going.{IsCounted, IsNewRunner, MakesAMove, MakesMoves, MayAdvance, RemainsSome, standing_of};
ghost use Rattle.guest_run.specs.Machine.{guest};
ghost use Rattle.guest_run.specs.Output.{Sinks, sinks};
ghost use Rattle.guest_run.specs.ObservedRun.{first_past, observed_run};
ghost use Rattle.guest_run.specs.Run.{run};
ghost use Rattle.guest_run.specs.RunEnds.{IsAtStart, RunEnds};

use crate::stepper::Stepper;
use crate::turns::{Choice, CurrentTurn, Recorder};
use crate::{RunError, TurnStatus};
use guest_machine::Machine;
use guest_words::limits::RUN_STEPS;
use guest_words::{Addr, Finish, Tid};
use host_io::Sink;
use std::alloc::{AllocError, Global};
use std::ops::ControlFlow;
use thread_sched::{Recording, Sched};
use trace_model::{Event, Observed, Observer};

/// What is known of a run that ended, beside what its observer knows.
#[derive(Drop)]
pub struct Ended {
    pub finish: Finish,
    pub recording: Recording,
}

/// A run that goes on.
#[derive(Drop)]
pub(crate) struct Runner {
    pub(crate) stepper: Stepper,
    pub(crate) turn: CurrentTurn,
    pub(crate) recorder: Recorder,
}

// Thread 1 starts, which fits.
fn observe_start<W: Observer>(observer: &mut W, entry: Addr) -> Result<(), AllocError>
    requires stands { W.stands observer.old [] }
    requires fits { W.fits observer.old (first_past entry) ≡ true }
    ensures stands { IfOk result (λ u. W.stands observer.new (first_past entry)) }
    ensures same { W.fits observer.new ≡ W.fits observer.old }
{
    let first = Event::Start {
        tid: Tid::FIRST,
        entry,
    };
    match observer.observe(first)? {
        Observed::Taken => Ok(()),
        Observed::Refused => unreachable!(),
    }
}

impl Runner {
    // A run that made no move.
    fn new(alloc: Global, machine: Machine, turns: Sched) -> Result<Runner, AllocError>
        ensures { IfOk result (IsNewRunner machine turns) }
    {
        Ok(Runner {
            stepper: Stepper::new(alloc, machine)?,
            turn: CurrentTurn::new(turns),
            recorder: Recorder::new(alloc)?,
        })
    }

    // Makes one move, or says how the run ends, by this move or before one. It stands apart from the moves that the machine's
    // loop makes.
    #[inline(never)]
    fn advance<W: Observer, O: Sink, E: Sink>(
        &mut self,
        observer: &mut W,
        out: &mut O,
        err: &mut E,
    ) -> Result<Option<Finish>, RunError>
        requires { MayAdvance W.stands (W.fits observer.old) (standing_of self.old) observer.old }
        ensures advances { MakesAMove W.stands (W.fits observer.old)
            (standing_of self.old) observer.old (sinks (O.state out.old) (E.state err.old))
            (standing_of self.new) observer.new (sinks (O.state out.new) (E.state err.new)) result }
        ensures same { W.fits observer.new ≡ W.fits observer.old }
        ensures made { IfOk result (λ end. self.new.recorder.made ≤ self.old.recorder.made + 1) }
    {
        let opens = match self.turn.choose(&mut self.stepper.machine) {
            Choice::Stops { finish } => return Ok(Some(finish)),
            Choice::Moves { opens } => opens,
        };
        let tid = self.turn.tid;
        self.recorder.add(opens, tid)?;
        match self.stepper.step(tid, observer, out, err)? {
            TurnStatus::Ends { finish } => Ok(Some(finish)),
            TurnStatus::TurnOver => {
                self.turn.left = 0;
                Ok(None)
            }
            TurnStatus::GoesOn => {
                self.turn.left = self.turn.left.saturating_sub(1);
                Ok(None)
            }
        }
    }

    // Makes further moves of the present turn, after the `made` ones, while their instructions are known, the turn has some left
    // and the budget lasts. The run goes on, with the number of moves made, or is at its end.
    fn run_known<W: Observer>(
        &mut self,
        made: u64,
        budget: u64,
        observer: &mut W,
    ) -> Result<ControlFlow<Finish, u64>, RunError>
        requires remains { (now : Sinks)
            × RemainsSome W.stands (W.fits observer.old) made (standing_of self.old) observer.old now }
        requires budget { made ≤ budget }
        requires limit { budget ≤ RUN_STEPS }
        ensures ends { (now : Sinks) → MakesMoves W.stands (W.fits observer.old) made budget
            (standing_of self.old) observer.old now (standing_of self.new) observer.new now result }
        ensures count { IsCounted made budget result }
        ensures same { W.fits observer.new ≡ W.fits observer.old }
        ensures made { IfOk result (λ end. self.new.recorder.made ≤ RUN_STEPS) }
    {
        let most = self.turn.left.min(budget - made);
        if most == 0 {
            return Ok(ControlFlow::Continue(made));
        }
        let tid = self.turn.tid;
        let known = self.stepper.machine.run_known(tid, most, observer)?;
        self.turn.left -= known.count;
        self.recorder.made += known.count;
        match known.observed {
            Observed::Taken => Ok(ControlFlow::Continue(made + known.count)),
            Observed::Refused => Ok(ControlFlow::Break(Finish::Deep)),
        }
    }

    // Makes moves after the `made` ones: the next one, and those that follow it in its turn while the budget lasts. The run goes
    // on, with the number of moves made, or is at its end.
    fn take_turn<W: Observer, O: Sink, E: Sink>(
        &mut self,
        made: u64,
        budget: u64,
        observer: &mut W,
        out: &mut O,
        err: &mut E,
    ) -> Result<ControlFlow<Finish, u64>, RunError>
        requires remains { RemainsSome W.stands (W.fits observer.old) made (standing_of self.old) observer.old
            (sinks (O.state out.old) (E.state err.old)) }
        requires budget { made < budget }
        requires limit { budget ≤ RUN_STEPS }
        ensures ends { MakesMoves W.stands (W.fits observer.old) made budget
            (standing_of self.old) observer.old (sinks (O.state out.old) (E.state err.old))
            (standing_of self.new) observer.new (sinks (O.state out.new) (E.state err.new)) result }
        ensures count { IsCounted (made + 1) budget result }
        ensures same { W.fits observer.new ≡ W.fits observer.old }
        ensures made { IfOk result (λ end. self.new.recorder.made ≤ RUN_STEPS) }
    {
        if let Some(finish) = self.advance(observer, out, err)? {
            return Ok(ControlFlow::Break(finish));
        }
        self.run_known(made + 1, budget, observer)
    }

    // What is known of the run, which ends so.
    fn finish(self, finish: Finish) -> Result<Ended, RunError>
        requires { self.recorder.made ≤ RUN_STEPS }
        ensures ended { IfOk result (λ ended. (ended.recording ≡ recorded self.recorder [])
            × (ended.finish ≡ finish)) }
        ensures refused { IfErr result (λ e. e ≡ Memory) }
    {
        Ok(Ended {
            finish,
            recording: self.recorder.finish()?,
        })
    }
}

/// Runs a machine that has made no step, at most `budget` steps. Each event goes to the observer as it comes, and the bytes of
/// each write to the sink of their channel when its step is over; a put that fails ends the run at once. So does an event that
/// the observer refuses: the run ends `Deep` by that step.
pub fn run_guest<W: Observer, O: Sink, E: Sink>(
    alloc: Global,
    machine: Machine,
    turns: Sched,
    budget: u64,
    observer: &mut W,
    out: &mut O,
    err: &mut E,
) -> Result<Ended, RunError>
    requires begins { IsAtStart machine }
    requires budget { budget ≤ RUN_STEPS }
    requires empty { W.stands observer.old [] }
    requires first { W.fits observer.old (first_past machine.entry) ≡ true }
    ensures ends { RunEnds W.stands (observed_run (W.fits observer.old) (first_past machine.entry)
        (run guest turns budget (machine_of machine)))
        (sinks (O.state out.old) (E.state err.old)) observer.new (sinks (O.state out.new) (E.state err.new)) result }
    ensures same { W.fits observer.new ≡ W.fits observer.old }
{
    observe_start(observer, machine.entry())?;
    let mut runner = Runner::new(alloc, machine, turns)?;
    let mut count = 0;
    'run: while count < budget {
        match runner.take_turn(count, budget, observer, out, err)? {
            ControlFlow::Continue(made) => count = made,
            ControlFlow::Break(finish) => return runner.finish(finish),
        }
    }
    runner.finish(Finish::Budget)
}
