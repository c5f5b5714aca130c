//! Laws of the definitions: each is the contract of a function that does nothing.
ghost use Rattle.trace_model.specs.Laws.{AccessedIsByAnAccess, CausesAreByTheLatestTouch, CutIsTheLongestPrefix, ForeignPartsAreCounts, KnownIsByTheLatestTouch, PendingIsOfAllThreads, EachBegunIsDoneOrPending, ExitIsOneActivation, SizesAreParts, WithinIsOfEachPrefix};
ghost use Rattle.trace_model.specs.Parts.{ShortPartsAreLight};
ghost use Rattle.trace_model.specs.Positions.{BareCountsWords, CostCountsSteps, DoneIsByEndings, OpenActivationsArePositions, PartsAreInTime, PartsCountUnknownReads, SizeCountsUnknownReads};
ghost use Rattle.trace_model.specs.WorkedTraces.{WorkedTraces};

/// The cut is the longest prefix of the trace that fits. The test by the greatest stamp is one of each prefix.
pub fn cut_is_the_longest_prefix()
    ensures cut { CutIsTheLongestPrefix }
    ensures within { WithinIsOfEachPrefix }
{}

/// A word is known exactly where the latest touch of it inside the activation is the thread's own. The cause of a read is
/// by the latest touch in the whole past.
pub fn known_is_by_the_latest_touch()
    ensures known { KnownIsByTheLatestTouch }
    ensures causes { CausesAreByTheLatestTouch }
    ensures accessed { AccessedIsByAnAccess }
{}

/// The parts of a size by cause add up to it, and the plain read memory size lies between the plain part and the size. The
/// other two parts are differences of counts that only rise.
pub fn sizes_are_parts()
    ensures parts { SizesAreParts }
    ensures counts { ForeignPartsAreCounts }
{}

/// The pending activations are the open ones of all threads.
pub fn pending_is_of_all_threads()
    ensures { PendingIsOfAllThreads }
{}

/// No activation is lost, and none is counted twice.
pub fn each_begun_is_done_or_pending()
    ensures { EachBegunIsDoneOrPending }
{}

/// A thread that runs and ends without a call or an access is one activation of size 0.
pub fn an_exit_is_one_activation()
    ensures { ExitIsOneActivation }
{}

/// A trace of at most `RUN_STEPS` steps is light, whatever it is of, where each of its parts, cut before each step, has
/// fewer than 1100 events, which read fewer than 65536 words.
pub fn short_parts_are_light()
    ensures { ShortPartsAreLight }
{}

/// The events before a position and since a position are parts of the trace in time.
pub fn parts_are_in_time()
    ensures { PartsAreInTime }
{}

/// The open activations are positions of the trace, which each event changes by its rule.
pub fn open_activations_are_positions()
    ensures { OpenActivationsArePositions }
{}

/// The profile has each activation that ended, in the order of the ends, the innermost first where several end at once.
pub fn done_is_by_endings()
    ensures { DoneIsByEndings }
{}

/// The size of an activation is the number of the words that it reads and does not know, each time that it does, and each
/// part of it that of those with its cause. The plain read memory size is the number of words that it reads first.
pub fn size_counts_unknown_reads()
    ensures size { SizeCountsUnknownReads }
    ensures parts { PartsCountUnknownReads }
    ensures bare { BareCountsWords }
{}

/// The cost of an activation is the number of the steps of its thread.
pub fn cost_counts_steps()
    ensures { CostCountsSteps }
{}

/// The profiles of short runs, worked out by hand.
pub fn worked_traces_are_as_written()
    ensures { WorkedTraces }
{}
