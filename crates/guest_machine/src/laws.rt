//! Laws of a step: each is the contract of a function that does nothing.
ghost use Rattle.guest_machine.specs.Laws.{EveryStepContinues, EveryStepIsInRange, EveryStepIsLight, EveryStepIsOnePart, EveryStepStaysWithinLimits, EveryWakingEnds, EveryWakingIsInRange, EveryWakingAnswers, EveryWakingKeepsThreads, EveryWakingTakesTheDue};

/// A step of a thread that can run, after any past after which exactly the machine's threads live: its events may follow
/// that past, and after both exactly the threads of the new machine live. The events' weight and the number of threads after
/// the step are at most 65540 and the number of threads before it.
pub fn every_step_is_traced()
    ensures continues { EveryStepContinues }
    ensures light { EveryStepIsLight }
{}

/// A step of a machine of at most `THREADS` threads, none of which has a number above the greatest: its events are one part
/// of a trace, fewer than 1100 that read fewer than 65536 words, or none; and after it there are still at most `THREADS`
/// threads, none with a number above the greatest.
pub fn every_step_is_short()
    ensures part { EveryStepIsOnePart }
    ensures limits { EveryStepStaysWithinLimits }
{}

/// Once all threads are woken that are due, no deadline is due, and a thread can run or no deadline is left. Those are woken
/// whose deadlines have come by then, and no others. Memory, the reservations, the live threads and their numbers are as before.
pub fn every_waking_ends()
    ensures ends { EveryWakingEnds }
    ensures due { EveryWakingTakesTheDue }
    ensures answers { EveryWakingAnswers }
    ensures keeps { EveryWakingKeepsThreads }
{}

/// A step of a machine whose threads have addresses in their pc, numbers below 2^32: so they have after it and after a waking.
/// What its events tell of calls, returns and starts are addresses, and so is the place of a fault; the status of an exit is
/// below 256.
pub fn every_step_is_in_range()
    ensures step { EveryStepIsInRange }
    ensures waking { EveryWakingIsInRange }
{}
