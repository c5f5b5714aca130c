//! What a system call answers.
use guest_words::Tid;
use rv_exec::Cpu;

/// What becomes of the thread that made a system call.
#[derive(Clone, Copy, Debug, PartialEq, Eq)]
pub enum Answer {
    /// It goes on, with this in a0.
    Back { value: u32 },
    /// It goes on, with 0 in a0, and its turn is over.
    Yield,
    /// It waits, with 0 in a0.
    Block,
    /// It ended, and another thread lives.
    ThreadEnd,
    /// All threads ended, with this status.
    ProcessEnd { status: u8 },
    /// It goes on, with the new thread's number in a0. The new thread has these registers.
    Born { tid: Tid, child: Cpu },
}
