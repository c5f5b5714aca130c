//! Who moves next, and the recording so far.
ghost use Rattle.std.specs.Prelude.{◌≡◌, ◌≤◌, ◌+◌, ◌<◌, [], ◌∷◌, List, true, false, IfOk};
ghost use Rattle.guest_machine.specs.Kept.{machine_of};
ghost use Rattle.guest_machine.specs.Laws.{KeepsThreads};
ghost use Rattle.guest_run.specs.Machine.{guest};
ghost use Rattle.guest_run.specs.Private.CurrentTurn.{IsUnderWay, chosen_of, position, recorded};
ghost use Rattle.guest_run.specs.Run.{Move, chosen};

use guest_machine::Machine;
use guest_words::limits::RUN_STEPS;
use guest_words::{Finish, ReadyList, Tid};
use std::alloc::{AllocError, Global};
use thread_sched::{Recording, Sched, Turn};

/// The present turn: the scheduler that gave it, its thread, and how many moves it has left at most, 0 where it is over.
#[derive(Drop)]
pub(crate) struct CurrentTurn {
    pub(crate) scheduler: Sched,
    pub(crate) tid: Tid,
    pub(crate) left: u64,
}

/// Who moves next: the thread of the turn, which is a new one or not, or no one.
#[derive(Clone, Copy)]
pub(crate) enum Choice {
    Moves { opens: bool },
    Stops { finish: Finish },
}

impl CurrentTurn {
    /// Before the first turn.
    pub(crate) fn new(scheduler: Sched) -> CurrentTurn
        ensures { (result.scheduler ≡ scheduler) × (result.left ≡ 0) }
    {
        CurrentTurn {
            scheduler,
            tid: Tid::FIRST,
            left: 0,
        }
    }

    // Begins a turn, once all threads are woken that are due by the clock.
    #[tactic(auto, unfolding(crate::specs::Run::chosen))]
    #[cold]
    #[inline(never)]
    fn begin_turn(&mut self, machine: &mut Machine) -> Choice
        requires { self.old.left ≡ 0 }
        ensures chosen { chosen guest (position (machine_of machine.old) self.old)
            ≡ chosen_of (machine_of machine.new) self.new result }
        ensures way { (opens : _) → result ≡ Choice.Moves opens
            → (opens ≡ true) × IsUnderWay (machine_of machine.new) self.new }
        ensures kept { KeepsThreads (machine_of machine.old) (machine_of machine.new) }
    {
        machine.wake_due();
        let mut live = ReadyList::new();
        machine.ready_into(&mut live);
        match self.scheduler.next(&live) {
            Turn::Run { tid, most } => {
                self.tid = tid;
                self.left = most;
                Choice::Moves { opens: true }
            }
            Turn::Deadlock => Choice::Stops {
                finish: Finish::Deadlock,
            },
            Turn::Mismatch { line } => Choice::Stops {
                finish: Finish::Schedule { line },
            },
        }
    }

    /// Chooses who moves next.
    #[tactic(auto, unfolding(crate::specs::Run::chosen))]
    #[inline(always)]
    pub(crate) fn choose(&mut self, machine: &mut Machine) -> Choice
        requires { 0 < self.old.left → IsUnderWay (machine_of machine.old) self.old }
        ensures chosen { chosen guest (position (machine_of machine.old) self.old)
            ≡ chosen_of (machine_of machine.new) self.new result }
        ensures way { (opens : _) → result ≡ Choice.Moves opens
            → IsUnderWay (machine_of machine.new) self.new }
        ensures kept { KeepsThreads (machine_of machine.old) (machine_of machine.new) }
        ensures going { result ≡ Choice.Moves false → 0 < self.old.left }
    {
        if self.left > 0 {
            return Choice::Moves { opens: false };
        }
        self.begin_turn(machine)
    }
}

/// The recording so far, and the present turn with how many moves it made.
#[derive(Drop)]
pub(crate) struct Recorder {
    pub(crate) turns: Recording,
    pub(crate) tid: Tid,
    pub(crate) made: u64,
}

impl Recorder {
    /// No turn.
    pub(crate) fn new(alloc: Global) -> Result<Recorder, AllocError>
        ensures { IfOk result (λ r. (r.turns ≡ []) × (r.made ≡ 0)) }
    {
        Ok(Recorder {
            turns: Recording::new(alloc)?,
            tid: Tid::FIRST,
            made: 0,
        })
    }

    /// Takes one more move of the present turn.
    #[inline(always)]
    pub(crate) fn add_to_turn(&mut self)
        requires going { 0 < self.old.made }
        requires room { self.old.made < RUN_STEPS }
        ensures recorded { (move : Move) (rest : List Move) → move.opens ≡ false
            → recorded self.old (move ∷ rest) ≡ recorded self.new rest }
        ensures made { self.new.made ≡ self.old.made + 1 }
    {
        self.made += 1;
    }

    /// Takes one more move.
    #[inline(always)]
    pub(crate) fn add(&mut self, opens: bool, tid: Tid) -> Result<(), AllocError>
        requires going { opens ≡ false → 0 < self.old.made }
        requires room { self.old.made < RUN_STEPS }
        ensures recorded { IfOk result (λ u. (move : Move) (rest : List Move) → move.opens ≡ opens
            → move.tid ≡ tid → recorded self.old (move ∷ rest) ≡ recorded self.new rest) }
        ensures made { IfOk result (λ u. (0 < self.new.made)
            × (self.new.made ≤ self.old.made + 1)) }
    {
        if !opens {
            self.add_to_turn();
            return Ok(());
        }
        if self.made > 0 {
            self.turns.add(self.tid, self.made)?;
        }
        self.tid = tid;
        self.made = 1;
        Ok(())
    }

    /// The whole recording.
    pub(crate) fn finish(self) -> Result<Recording, AllocError>
        requires { self.made ≤ RUN_STEPS }
        ensures { IfOk result (λ turns. turns ≡ recorded self []) }
    {
        let mut turns = self.turns;
        if self.made > 0 {
            turns.add(self.tid, self.made)?;
        }
        Ok(turns)
    }
}
