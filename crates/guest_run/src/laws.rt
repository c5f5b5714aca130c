//! Laws of a run: each is the contract of a function that does nothing.
ghost use Rattle.guest_run.specs.Laws.{CountsSteps, EndsDeepExactly, ObservesPart, RecordsObservedTurns, RecordsTurns, ReplaysObserved, ReplaysRun, SpendsBudget, StaysWithin, StepsWithin};
ghost use Rattle.guest_run.specs.Machine.{guest};
ghost use Rattle.guest_run.specs.Traces.{EveryRunIsLight, EveryRunIsOfShortParts, EveryRunIsWellFormed, EveryRunRecordsEntries, EveryRunTellsInRange};

/// A run of the guest under the schedule that is its own recording is the same in all its moves and its end, and so is what is
/// observed of it, whatever fits the observer, unless it ended at an entry of its schedule.
pub fn runs_replay()
    ensures run { ReplaysRun guest }
    ensures observed_run { ReplaysObserved }
{}

/// The bounds of a run of the guest: it has at most as many moves as its budget, and as many where it ends for the budget;
/// each turn that it records has a move, and so has each turn of what is observed of it. That is a first part of the run, and
/// ends `Deep` exactly where the past of the whole run does not fit the observer. The run has a step for each move but one that
/// faults; so what is observed of it has at most as many steps as the budget.
pub fn runs_stay_within()
    ensures moves { StaysWithin guest }
    ensures spent { SpendsBudget guest }
    ensures turns { RecordsTurns guest }
    ensures observed_turns { RecordsObservedTurns }
    ensures observed_run { ObservesPart }
    ensures deep { EndsDeepExactly }
    ensures steps { CountsSteps }
    ensures few_steps { StepsWithin }
{}

/// The trace of a run of the guest from its start, cut before each step, has short parts alone. Of at most `RUN_STEPS` moves,
/// it is light enough that sizes and costs are 64-bit numbers, and well formed: each event may come where it does. So is what
/// is observed of it.
pub fn traces_are_well_formed()
    ensures short { EveryRunIsOfShortParts }
    ensures light { EveryRunIsLight }
    ensures formed { EveryRunIsWellFormed }
{}

/// The recording of a run of the guest from its start, of at most `RUN_STEPS` moves, is a schedule: each turn is an entry, of a
/// thread's number and a number of moves that its text can say. So is the recording of what is observed of the run.
pub fn recordings_are_schedules()
    ensures entries { EveryRunRecordsEntries }
{}

/// The numbers that a run of the guest from its start tells, in its events and by its end, are those of threads, words of memory
/// and addresses, of a byte, and of lines of its schedule.
pub fn runs_tell_in_range()
    ensures { EveryRunTellsInRange }
{}
