//! What the kernel keeps of a guest.
ghost use Rattle.std.specs.Prelude.{◌≡◌, IfOk};
ghost use Rattle.guest_kernel.specs.Invariant.{IsState};
ghost use Rattle.guest_kernel.specs.Kernel.{can_run, is_blocked, later, later_by, lives, ready, started};

use crate::descriptor::Descriptor;
use crate::thread::Thread;
use crate::{Channel, Inputs};
use futex_table::FutexTable;
use guest_words::limits::THREADS;
use guest_words::{Addr, ReadyList, Tid};
use std::alloc::{AllocError, Global};
use std::marker::Model;
use virtual_clock::Deadlines;

// The numbers of descriptors are 0 to 31.
const DESCRIPTORS: usize = 32;

// How long a step takes, in nanoseconds.
const STEP_TIME: u64 = 1000;

/// What the kernel keeps of a guest.
#[derive(Drop)]
pub struct State {
    pub(crate) alloc: Global,
    pub(crate) threads: Vec<Thread>,
    pub(crate) waiting: FutexTable,
    pub(crate) deadlines: Deadlines,
    pub(crate) descriptors: [Descriptor; DESCRIPTORS],
    pub(crate) stdin: Vec<u8>,
    pub(crate) stdin_position: u64,
    pub(crate) inputs: Inputs,
    pub(crate) first_break: Addr,
    pub(crate) program_break: Addr,
    pub(crate) last_tid: Tid,
    /// The time since the start, in nanoseconds.
    pub(crate) time: u64,
}

impl Model for State {
    ghost use Rattle.guest_kernel.specs.Kernel.{KernelState};
    ghost use Rattle.guest_kernel.specs.State.{IsKept, state_in};

    ghost Value = { KernelState };

    ghost view = { state_in };

    ghost invariant = { IsKept };
}

impl State {
    /// Thread 1 lives, and the descriptors 0, 1 and 2 are open.
    pub fn new(
        alloc: Global,
        inputs: Inputs,
        stdin: Vec<u8>,
        first_break: Addr,
    ) -> Result<State, AllocError>
        ensures started { IfOk result (λ state. state ≡ started inputs stdin.items first_break) }
        ensures state { IfOk result IsState }
    {
        let mut threads = Vec::with_capacity(alloc, THREADS)?;
        threads.push(Thread {
            tid: Tid::FIRST,
            clear_tid: 0,
        })?;
        let mut descriptors = [Descriptor::Closed; DESCRIPTORS];
        descriptors[0] = Descriptor::StandardInput;
        descriptors[1] = Descriptor::Output {
            channel: Channel::Out,
        };
        descriptors[2] = Descriptor::Output {
            channel: Channel::Err,
        };
        Ok(State {
            alloc,
            threads,
            waiting: FutexTable::new(alloc)?,
            deadlines: Deadlines::new(alloc)?,
            descriptors,
            stdin,
            stdin_position: 0,
            inputs,
            first_break,
            program_break: first_break,
            last_tid: Tid::FIRST,
            time: 0,
        })
    }

    /// What takes memory for the guest.
    pub fn alloc(&self) -> Global {
        self.alloc
    }

    /// The time since the start, in nanoseconds.
    pub fn time(&self) -> u64
        ensures { result ≡ self.now.time }
    {
        self.time
    }

    /// Where the break was at the start.
    pub fn first_break(&self) -> Addr
        ensures { result ≡ self.now.first_break }
    {
        self.first_break
    }

    /// Where the break is.
    pub fn program_break(&self) -> Addr
        ensures { result ≡ self.now.program_break }
    {
        self.program_break
    }

    /// The break is there.
    pub fn set_program_break(&mut self, at: Addr)
        ensures { self.new ≡ record self.old { program_break = at } }
    {
        self.program_break = at;
    }

    /// The time goes on by a step.
    #[inline(always)]
    pub fn tick(&mut self)
        ensures { self.new ≡ later self.old }
    {
        self.time = self.time.saturating_add(STEP_TIME);
    }

    /// Moves the clock on by that many steps.
    #[inline(always)]
    pub fn tick_by(&mut self, steps: u64)
        ensures { self.new ≡ later_by steps self.old }
    {
        self.time = self.time.saturating_add(steps.saturating_mul(STEP_TIME));
    }

    /// The time is this one.
    pub fn set_time(&mut self, time: u64)
        ensures time { self.new ≡ record self.old { time = time } }
        ensures state { IsState self.new }
    {
        self.time = time;
    }

    /// The live threads, rising, each with whether it can run.
    pub fn ready_into(&self, into: &mut ReadyList)
        ensures { into.new ≡ ready self.now }
    {
        *into = ReadyList::new();
        for t in &self.threads {
            into.push(t.tid, !self.is_blocked(t.tid));
        }
    }

    /// Whether the thread waits or has a deadline.
    pub(crate) fn is_blocked(&self, tid: Tid) -> bool
        ensures { result ≡ is_blocked self.now tid }
    {
        self.waiting.waits(tid) || self.deadlines.has(tid)
    }

    // Whether the thread lives.
    fn lives(&self, tid: Tid) -> bool
        ensures { result ≡ lives self.now tid }
    {
        self.threads.iter().any(|t| t.tid == tid)
    }

    /// Whether the thread lives, does not wait and has no deadline.
    pub fn can_run(&self, tid: Tid) -> bool
        ensures { result ≡ can_run self.now tid }
    {
        self.lives(tid) && !self.is_blocked(tid)
    }
}
