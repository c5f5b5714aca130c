//! What a step gives.
use call_tracker::JumpKind;
use guest_words::{Addr, FaultKind};
use rv_exec::Access;

/// What became of a thread by its step.
#[derive(Clone, Copy, Debug, PartialEq, Eq)]
pub enum Stepped {
    /// It can go on.
    Went,
    /// It can go on, and gives up its turn.
    Yielded,
    /// It waits.
    Blocked,
    /// It ended, and another thread lives.
    Ended,
    /// All threads ended, with this status.
    Finished { status: u8 },
    /// Its instruction, at this address, can't run. Nothing changed.
    Faulted { kind: FaultKind, at: Addr },
}

/// A step that was made. The events of an instruction that went are told by what it did; those of any other step are in a list.
#[derive(Clone, Copy, Debug, PartialEq, Eq)]
pub enum Advanced {
    /// An instruction went, which accessed nothing and was no call and no return.
    Ran,
    /// An instruction went, with this access.
    Accessed {
        access: Access,
    },
    /// An instruction went that was a call or a return: it jumped to the target, from the instruction before `back`.
    Jumped {
        jump: JumpKind,
        target: Addr,
        back: Addr,
    },
    /// A system call, or an instruction that can't run.
    Other {
        stepped: Stepped,
    },
}
