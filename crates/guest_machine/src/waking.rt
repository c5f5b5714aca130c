//! The clock wakes threads.
ghost use Rattle.std.specs.Prelude.{◌≡◌, is_some};
ghost use Rattle.guest_kernel.specs.Waking.{next_due};
ghost use Rattle.guest_machine.specs.Kept.{machine_of, out_of};
ghost use Rattle.guest_machine.specs.Waking.{one_woken, woken};

use crate::Machine;
use crate::hart::answer;

impl Machine {
    // Wakes the thread that is due first, and says whether there was one.
    fn wake_one(&mut self) -> bool
        ensures some { result ≡ is_some (next_due self.old.kernel.state) }
        ensures woken { machine_of self.new ≡ one_woken (machine_of self.old) }
        ensures out { out_of self.new ≡ out_of self.old }
        ensures entry { self.new.entry ≡ self.old.entry }
    {
        let Some((tid, value)) = self.kernel.wake_due() else {
            return false;
        };
        answer(&mut self.harts, tid, value);
        true
    }

    /// Wakes all threads that are due by the clock, each with its deadline's answer in a0. Where then no thread can run and a
    /// deadline is left, the time goes on to the earliest, and those due are woken. It does not allocate.
    pub fn wake_due(&mut self)
        ensures woken { machine_of self.new ≡ woken (machine_of self.old) }
        ensures out { out_of self.new ≡ out_of self.old }
        ensures entry { self.new.entry ≡ self.old.entry }
    {
        'wakings: while self.wake_one() {}
    }
}
