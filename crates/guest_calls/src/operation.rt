//! The operations of futex(2).

#[derive(Clone, Copy, Debug, PartialEq, Eq)]
pub enum Operation {
    Wait,
    Wake,
    Requeue,
    CmpRequeue,
    WaitBitset,
    WakeBitset,
}

impl Operation {
    ghost use Rattle.std.specs.Prelude.{◌≡◌};
    ghost use Rattle.guest_calls.specs.Futex.{operation_numbered, is_wait, is_requeue, has_bitset, reads_word};

    /// The operation of that number, without its flags.
    pub(crate) fn numbered(n: u32) -> Option<Operation>
        ensures { result ≡ operation_numbered n }
    {
        match n {
            0 => Some(Operation::Wait),
            1 => Some(Operation::Wake),
            3 => Some(Operation::Requeue),
            4 => Some(Operation::CmpRequeue),
            9 => Some(Operation::WaitBitset),
            10 => Some(Operation::WakeBitset),
            _ => None,
        }
    }

    /// Whether the thread waits at the futex.
    pub(crate) fn is_wait(self) -> bool
        ensures { result ≡ is_wait self }
    {
        matches!(self, Operation::Wait | Operation::WaitBitset)
    }

    /// Whether waiting threads go to another futex.
    pub(crate) fn is_requeue(self) -> bool
        ensures { result ≡ is_requeue self }
    {
        matches!(self, Operation::Requeue | Operation::CmpRequeue)
    }

    /// Whether the last argument is a set of bits to meet.
    pub(crate) fn has_bitset(self) -> bool
        ensures { result ≡ has_bitset self }
    {
        matches!(self, Operation::WaitBitset | Operation::WakeBitset)
    }

    /// Whether it looks at the word.
    pub(crate) fn reads_word(self) -> bool
        ensures { result ≡ reads_word self }
    {
        matches!(
            self,
            Operation::Wait | Operation::WaitBitset | Operation::CmpRequeue
        )
    }
}
