//! What a step means for its turn.
ghost use Rattle.std.specs.Prelude.{◌≡◌};
ghost use Rattle.guest_run.specs.Machine.{turn_status_of};

use guest_machine::Stepped;
use guest_words::{Finish, Tid};

/// What a step means for the turn that it is a part of.
#[derive(Clone, Copy, Debug, PartialEq, Eq)]
pub enum TurnStatus {
    /// The turn goes on, where it has moves left.
    GoesOn,
    /// The turn is over.
    TurnOver,
    /// The run is over.
    Ends { finish: Finish },
}

/// What the step of a thread means.
#[inline(always)]
pub(crate) fn turn_status_of(tid: Tid, stepped: Stepped) -> TurnStatus
    ensures { result ≡ turn_status_of tid stepped }
{
    match stepped {
        Stepped::Went => TurnStatus::GoesOn,
        Stepped::Yielded | Stepped::Blocked | Stepped::Ended => TurnStatus::TurnOver,
        Stepped::Finished { status } => TurnStatus::Ends {
            finish: Finish::Exit { status },
        },
        Stepped::Faulted { kind, at } => TurnStatus::Ends {
            finish: Finish::Fault { kind, tid, at },
        },
    }
}
