//! How many steps of a thread were made in a row.
ghost use Rattle.std.specs.Prelude.{◌≡◌, ◌≤◌, ◌<◌, ◌+◌, ◌^◌, true, false};
ghost use Rattle.guest_machine.specs.Private.Rows.{Row, handed};

use std::marker::Model;

/// Steps of a thread in a row, of at most so many. The observer has all but the last of them, which accessed nothing, and were no
/// calls and no returns. A step lowers one number; what was made is worked out where it is asked for.
#[derive(Drop)]
pub(crate) struct StepRow {
    // How many steps there may be.
    most: u64,
    // How many may follow those that the observer has.
    left: u64,
    // How many may follow those that were made.
    ahead: u64,
}

impl Model for StepRow {
    ghost use Rattle.std.specs.Prelude.{◌≤◌, ◌-◌};
    ghost use Rattle.guest_machine.specs.Private.Rows.{Row};

    ghost Value = { Row };

    ghost view = { λ r. record {
      told = r.most - r.left;
      plain = r.left - r.ahead;
      left = r.left;
    } };

    ghost invariant = { λ r. (r.left ≤ r.most) × (r.ahead ≤ r.left) };
}

impl StepRow {
    /// None so far, and at most so many.
    pub(crate) fn new(most: u64) -> StepRow
        ensures { result ≡ record { told = 0; plain = 0; left = most } }
    {
        StepRow {
            most,
            left: most,
            ahead: most,
        }
    }

    /// Whether one more may follow.
    #[inline(always)]
    pub(crate) fn goes_on(&self) -> bool
        ensures yes { result ≡ true → self.now.plain < self.now.left }
        ensures no { result ≡ false → self.now.left ≤ self.now.plain }
    {
        self.ahead > 0
    }

    /// How many the observer has yet to get.
    #[inline(always)]
    pub(crate) fn plain(&self) -> u64
        ensures value { result ≡ self.now.plain }
        ensures within { self.now.plain ≤ self.now.left }
    {
        self.left - self.ahead
    }

    /// How many the observer gets with the next one.
    #[inline(always)]
    pub(crate) fn due(&self) -> u64
        requires { self.now.plain < self.now.left }
        ensures { result ≡ self.now.plain + 1 }
    {
        self.left - self.ahead + 1
    }

    /// How many the observer has.
    pub(crate) fn told(&self) -> u64
        ensures { result ≡ self.now.told }
    {
        self.most - self.left
    }

    /// How many were made.
    #[inline(always)]
    pub(crate) fn made(&self) -> u64
        ensures { result ≡ self.now.told + self.now.plain }
    {
        self.most - self.ahead
    }

    /// Counts a step that the observer need not get at once.
    #[inline(always)]
    pub(crate) fn pass(&mut self)
        requires { self.old.plain < self.old.left }
        ensures { self.new ≡ record self.old { plain = self.old.plain + 1 } }
    {
        self.ahead -= 1;
    }

    /// Counts a step that the observer gets, with those before it: how many these are.
    #[inline(always)]
    pub(crate) fn hand(&mut self) -> u64
        requires { self.old.plain < self.old.left }
        ensures row { self.new ≡ handed self.old }
        ensures steps { result ≡ self.old.plain + 1 }
    {
        let steps = self.due();
        self.ahead -= 1;
        self.left = self.ahead;
        steps
    }
}
