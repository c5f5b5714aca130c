//! Laws of the table: each is the contract of a function that does nothing.
ghost use Rattle.stamp_table.specs.Laws.{AgreesOn, CounterFits, CountsOn, EmptyStands, FinishesWhatEnds, FinishesWhatIsDone, OpenAreAsDefined, RenumberingsAreRare, RenumberingsByEvents, RunsAgree, StandsOn, TicksKeepTheTable};
ghost use Rattle.stamp_table.specs.Allows.{AllowsWhatMayFollow, CountsStayWithin, DeepDoesNotFit, FitsByFrames, PopsStayWithin, SumsStayWithin};
ghost use Rattle.stamp_table.specs.Observing.{TakesEvents};
ghost use Rattle.stamp_table.specs.Bulk.{ReadsAtOnce};
ghost use Rattle.stamp_table.specs.Worked.{WorkedTables};

/// A tick keeps what the table says of the past, renumbered or not, and leaves the counter above all stamps.
pub fn a_tick_keeps_the_table()
    ensures { TicksKeepTheTable }
{}

/// The empty table stands for the empty past. After each event that may follow, the table stands for the longer past, renumbered
/// or not, and what it pops is what ends there, with its size, the size's parts and its cost; what is still open stands there
/// with the same. So over a whole run it records what the definitions say.
pub fn each_event_keeps_the_table()
    ensures empty { EmptyStands }
    ensures agrees_on { AgreesOn }
    ensures stands_on { StandsOn }
    ensures finishes { FinishesWhatEnds }
    ensures open_ones { OpenAreAsDefined }
    ensures whole_run { FinishesWhatIsDone }
{}

/// The table is an observer of events: whatever past it stands for, it takes what fits, and what it records is what the
/// profile gains; and what does not fit leaves it as it is.
pub fn the_table_takes_events()
    ensures { TakesEvents }
{}

/// The frames are as many as the open activations, and the counter and the renumberings are folds over the trace. The
/// counter stays at most the greatest stamp where three stamps for each open activation and three more fit. Renumberings are
/// rare where few activations are open at once.
pub fn the_counter_is_that_of_the_trace()
    ensures counts_on { CountsOn }
    ensures runs { RunsAgree }
    ensures fits { CounterFits }
    ensures rare { RenumberingsAreRare }
    ensures rare_by_events { RenumberingsByEvents }
{}

/// Which event may follow is a test of the table alone, and so is whether it fits. No sum passes the weight of the past and the
/// words of a read, and no count the weight. A read of words of which none was accessed in an outer activation alone
/// changes the innermost frame only.
pub fn a_table_tells_what_may_follow()
    ensures allows { AllowsWhatMayFollow }
    ensures fits { FitsByFrames }
    ensures sums { SumsStayWithin }
    ensures pops { PopsStayWithin }
    ensures counts { CountsStayWithin }
    ensures at_once { ReadsAtOnce }
    ensures deep { DeepDoesNotFit }
{}

/// Worked traces with renumberings.
pub fn worked_tables_are_as_written()
    ensures { WorkedTables }
{}
