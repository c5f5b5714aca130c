//! The kernel of a guest.
ghost use Rattle.std.specs.Prelude.{◌≡◌, true, None, IfOk, IfSome};
ghost use Rattle.std.specs.Option.{option_map};
ghost use Rattle.guest_kernel.specs.Invariant.{IsState};
ghost use Rattle.guest_kernel.specs.Kernel.{started, can_run, later, later_by, lives, ready};
ghost use Rattle.guest_kernel.specs.Waking.{moved_on, next_due, woken_by_time};
ghost use Rattle.virtual_clock.specs.Order.{IsDue};

use crate::{Channel, Inputs, Outgoing, State};
use guest_words::{Addr, ReadyList, Tid};
use std::alloc::{AllocError, Global};

/// What the kernel keeps of a guest, and the bytes that the last system call wrote.
#[derive(Drop)]
pub struct Kernel {
    /// What is kept between two system calls.
    pub state: State,
    /// What the last system call wrote.
    pub outgoing: Outgoing,
}

impl Kernel {
    /// Thread 1 lives, the descriptors 0, 1 and 2 are open, and the break is the first one. The room for what a system call
    /// writes is taken here.
    pub fn new(
        alloc: Global,
        inputs: Inputs,
        stdin: Vec<u8>,
        first_break: Addr,
    ) -> Result<Kernel, AllocError>
        ensures state { IfOk result (λ kernel. IsState kernel.state) }
        ensures started { IfOk result (λ kernel. kernel
            ≡ record { state = started inputs stdin.items first_break; outgoing = None }) }
    {
        Ok(Kernel {
            state: State::new(alloc, inputs, stdin, first_break)?,
            outgoing: Outgoing::new(alloc)?,
        })
    }

    /// The time goes on by a step.
    #[inline(always)]
    pub fn advance(&mut self)
        ensures { self.new ≡ record self.old { state = later self.old.state } }
    {
        self.state.tick();
    }

    /// Moves the clock on by that many steps.
    #[inline(always)]
    pub fn advance_by(&mut self, steps: u64)
        ensures { self.new ≡ record self.old { state = later_by steps self.old.state } }
    {
        self.state.tick_by(steps);
    }

    /// Whether the thread lives, does not wait and has no deadline.
    pub fn can_run(&self, tid: Tid) -> bool
        ensures { result ≡ can_run self.now.state tid }
    {
        self.state.can_run(tid)
    }

    /// Wakes the thread whose deadline is due first, by time and then by thread, and says with which answer; its place among
    /// those that wait goes too. Where none is due and no thread can run, the time first goes on to the earliest deadline, if
    /// there is one. None where nothing is due, and a thread can run or no deadline is left.
    pub fn wake_due(&mut self) -> Option<(Tid, u32)>
        ensures due { result ≡ option_map (λ d. (d.tid, d.answer)) (next_due self.old.state) }
        ensures first { IsDue self.old.state.deadlines (moved_on self.old.state).time result }
        ensures after { self.new ≡ record self.old { state = woken_by_time self.old.state } }
        ensures lives { IfSome result (λ woken. lives self.old.state woken.0 ≡ true) }
        ensures state { IsState self.new.state }
    {
        self.state.wake_due()
    }

    /// The channel and the bytes of the last system call, where it was a write of at least one byte.
    pub fn outgoing(&self) -> Option<(Channel, &[u8])>
        ensures out { option_map (λ out. (out.0, out.1.now)) result ≡ self.now.outgoing }
    {
        self.outgoing.bytes()
    }

    /// Lists the live threads, rising, each with whether it can run.
    pub fn ready_into(&self, into: &mut ReadyList)
        ensures ready { into.new ≡ ready self.now.state }
    {
        self.state.ready_into(into);
    }
}
