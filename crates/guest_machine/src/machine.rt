//! The machine.
ghost use Rattle.std.specs.Prelude.{◌≡◌, ◌≤◌, true, IfOk};

use crate::rows::run_on;
use crate::setup::first_machine;
use crate::stack::strings_length;
use crate::{KnownSteps, SetupError};
use elf_image::Image;
use guest_kernel::{Channel, Inputs, Kernel};
use guest_memory::{GuestMemory, Reservations};
use guest_words::limits::{PAGES, STACK_PAGES};
use guest_words::{Addr, ByThread, ReadyList, Tid};
use rv_exec::Cpu;
use std::alloc::{AllocError, Global};
use std::marker::Model;
use trace_model::Observer;

/// A guest between two steps.
#[derive(Drop)]
pub struct Machine {
    pub(crate) harts: ByThread<Cpu>,
    pub(crate) kernel: Kernel,
    pub(crate) memory: GuestMemory,
    pub(crate) held: Reservations,
    /// Where thread 1 began.
    pub(crate) entry: Addr,
    /// Whether the last step was a system call.
    pub(crate) called: bool,
}

impl Model for Machine {
    ghost use Rattle.guest_machine.specs.Kept.{Parts};

    ghost Value = { Parts };

    ghost use Rattle.guest_machine.specs.Parts.{IsKept, parts_of};

    ghost view = { parts_of };

    ghost invariant = { IsKept };
}

// The most pages of the image, so that the stack has room.
const IMAGE_LIMIT: u32 = PAGES - STACK_PAGES;

impl Machine {
    ghost use Rattle.std.specs.Prelude.{None, map, string_bytes, IfSome, IfNone, IfErr, Err};
    ghost use Rattle.guest_machine.specs.declared.setup.SetupError.TheVariants.{Memory};
    ghost use Rattle.guest_machine.specs.Setup.{setup_refusal};
    ghost use Rattle.guest_machine.specs.Start.{start};
    ghost use Rattle.std.specs.Option.{option_map};
    ghost use Rattle.guest_machine.specs.Kept.{machine_of, out_of};
    ghost use Rattle.guest_machine.specs.Machine.{can_run, ready};
    ghost use Rattle.guest_machine.specs.Running.{MakesSteps, MayTakeSteps};

    /// A machine that begins: the image's segments, the argument strings, the first of which is the program's name, the
    /// input files, and what is on standard input.
    pub fn new(
        alloc: Global,
        image: &Image,
        arguments: &[String],
        inputs: Inputs,
        stdin: Vec<u8>,
    ) -> Result<Machine, SetupError>
        ensures refused { IfSome (setup_refusal image.now (map string_bytes arguments.now))
            (λ refusal. result ≡ Err refusal) }
        ensures no_allocation { IfNone (setup_refusal image.now (map string_bytes arguments.now))
            (IfErr result (λ e. e ≡ Memory)) }
        ensures start { IfOk result (λ machine. machine_of machine
            ≡ start image.now (map string_bytes arguments.now) inputs stdin.items) }
        ensures out { IfOk result (λ machine. out_of machine ≡ None) }
        ensures entry { IfOk result (λ machine. machine.entry ≡ image.now.entry) }
    {
        let text_bytes = strings_length(arguments).ok_or(SetupError::ArgsTooLong)?;
        if image.page_count() > IMAGE_LIMIT {
            return Err(SetupError::Pages);
        }
        Ok(first_machine(alloc, image, arguments, inputs, stdin, text_bytes)?)
    }

    /// The channel and the bytes that the last step wrote, where it was a write of at least one byte.
    #[inline(always)]
    pub fn outgoing(&self) -> Option<(Channel, &[u8])>
        ensures out { option_map (λ out. (out.0, out.1.now)) result ≡ out_of self.now }
    {
        if self.called {
            self.kernel.outgoing()
        } else {
            None
        }
    }

    /// Makes at most `most` steps of a thread that can run, one after the other, while the instruction of each can run and is
    /// no ECALL, and while the observer takes its events. If decoded code or the observer can't be allocated, no clause says
    /// what was done.
    pub fn run_known<W: Observer>(
        &mut self,
        tid: Tid,
        most: u64,
        observer: &mut W,
    ) -> Result<KnownSteps, AllocError>
        requires can_run { can_run (machine_of self.old) tid ≡ true }
        requires next { MayTakeSteps W.stands (W.fits observer.old) observer.old
            (machine_of self.old) tid most }
        ensures made { IfOk result (MakesSteps W.stands (W.fits observer.old)
            (machine_of self.old) tid observer.old self.new observer.new) }
        ensures most { IfOk result (λ known. known.count ≤ most) }
        ensures same { W.fits observer.new ≡ W.fits observer.old }
        ensures entry { self.new.entry ≡ self.old.entry }
    {
        let cpu = self.harts.get_mut(tid).unwrap();
        let (count, observed) = run_on(cpu, &mut self.memory, &mut self.held, tid, most, observer);
        self.called = false;
        self.kernel.advance_by(count);
        let observed = observed?;
        Ok(KnownSteps { count, observed })
    }

    /// Whether the thread lives, does not wait and has no deadline.
    pub fn can_run(&self, tid: Tid) -> bool
        ensures { result ≡ can_run (machine_of self.now) tid }
    {
        self.kernel.can_run(tid)
    }

    /// Lists the live threads, rising, each with whether it can run.
    pub fn ready_into(&self, into: &mut ReadyList)
        ensures { into.new ≡ ready (machine_of self.now) }
    {
        self.kernel.ready_into(into);
    }

    /// Where thread 1 began.
    pub fn entry(&self) -> Addr
        ensures { result ≡ self.now.entry }
    {
        self.entry
    }
}
