//! A law of the clock: the contract of a function that does nothing.
ghost use Rattle.guest_kernel.specs.Laws.{WakesExactly};

/// No thread is woken exactly where no deadline is due, and a thread can run or no deadline is left.
pub fn wakes_exactly()
    ensures exactly { WakesExactly }
{}
