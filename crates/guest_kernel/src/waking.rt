//! Threads that the clock wakes.
ghost use Rattle.std.specs.Prelude.{◌≡◌, true, IfSome};
ghost use Rattle.std.specs.Option.{option_map};
ghost use Rattle.guest_kernel.specs.Invariant.{IsState};
ghost use Rattle.guest_kernel.specs.Kernel.{lives};
ghost use Rattle.guest_kernel.specs.Waking.{moved_on, next_due, some_can_run, woken_by_time};
ghost use Rattle.virtual_clock.specs.Order.{IsDue};

use crate::state::State;
use guest_words::Tid;

impl State {
    // Whether one of the live threads can run.
    fn can_some_run(&self) -> bool
        ensures { result ≡ some_can_run self.now }
    {
        self.threads.iter().any(|t| !self.is_blocked(t.tid))
    }

    // Where no thread can run, the time goes on to the earliest deadline, if it is ahead.
    fn move_on(&mut self)
        ensures { self.new ≡ moved_on self.old }
    {
        let Some(at) = self.deadlines.earliest() else {
            return;
        };
        if !self.can_some_run() {
            self.time = self.time.max(at);
        }
    }

    /// Wakes the thread whose deadline is due first, and says with which answer. Where none is due and no thread can run, the
    /// time first goes on to the earliest deadline, if there is one.
    pub(crate) fn wake_due(&mut self) -> Option<(Tid, u32)>
        ensures due { result ≡ option_map (λ d. (d.tid, d.answer)) (next_due self.old) }
        ensures first { IsDue self.old.deadlines (moved_on self.old).time result }
        ensures after { self.new ≡ woken_by_time self.old }
        ensures lives { IfSome result (λ woken. lives self.old woken.0 ≡ true) }
        ensures state { IsState self.new }
    {
        self.move_on();
        let (tid, answer) = self.deadlines.due(self.time)?;
        self.waiting.forget(tid);
        Some((tid, answer))
    }
}
