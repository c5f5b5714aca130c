//! How a run ends.
ghost use Rattle.std.specs.Prelude.{◌≡◌, ◌≤◌, true, IfSome, Some};
ghost use Rattle.std.specs.Option.{is_some};
ghost use Rattle.guest_words.specs.Endings.{kind_number};

use crate::{Addr, Tid};

/// Why an instruction can't run. Each kind's number stands beside it.
#[derive(Clone, Copy, Debug, PartialEq, Eq)]
pub enum FaultKind {
    /// The word is no instruction.
    Illegal = 1,
    /// The word at the pc is not mapped, or not executable.
    Fetch = 2,
    /// A byte is not mapped, or not readable.
    Load = 3,
    /// A byte is not mapped or not writable, or, for an atomic operation that also reads its word, not readable.
    Store = 4,
    /// The target of a jump is no multiple of 4.
    JumpAlign = 5,
    /// The address of an atomic operation is no multiple of 4.
    AtomicAlign = 6,
    /// EBREAK.
    Break = 7,
}

impl FaultKind {
    /// The kind's number, by which texts name it.
    pub fn number(self) -> u32
        ensures value { result ≡ kind_number self }
        ensures least { 1 ≤ result }
        ensures most { result ≤ 7 }
    {
        match self {
            FaultKind::Illegal => 1,
            FaultKind::Fetch => 2,
            FaultKind::Load => 3,
            FaultKind::Store => 4,
            FaultKind::JumpAlign => 5,
            FaultKind::AtomicAlign => 6,
            FaultKind::Break => 7,
        }
    }

    /// The kind of this number; None where it is that of no kind.
    pub fn numbered(number: u64) -> Option<FaultKind>
        ensures found { IfSome result (λ kind. number ≡ kind_number kind) }
        ensures only { (kind : FaultKind) → number ≡ kind_number kind → result ≡ Some kind }
        ensures some { 1 ≤ number → number ≤ 7 → is_some result ≡ true }
    {
        match number {
            1 => Some(FaultKind::Illegal),
            2 => Some(FaultKind::Fetch),
            3 => Some(FaultKind::Load),
            4 => Some(FaultKind::Store),
            5 => Some(FaultKind::JumpAlign),
            6 => Some(FaultKind::AtomicAlign),
            7 => Some(FaultKind::Break),
            _ => None,
        }
    }
}

/// How a run of the guest ends.
#[derive(Clone, Copy, Debug, PartialEq, Eq)]
pub enum Finish {
    /// The process ended, with this status.
    Exit { status: u8 },
    /// An instruction could not run: what was wrong, whose it was, and its address.
    Fault { kind: FaultKind, tid: Tid, at: Addr },
    /// The number of instructions that was allowed is spent.
    Budget,
    /// Threads live, and none can run.
    Deadlock,
    /// More activations are open at once than the stamps can tell apart.
    Deep,
    /// The schedule's entry on this line, counted from 1, names a thread that can't run while another can.
    Schedule { line: u64 },
}
