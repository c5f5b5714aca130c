//! One step of a thread.
ghost use Rattle.std.specs.Prelude.{◌≡◌, ◌≢◌, ◌≤◌, ◌%◌, ◌++◌, List, None, true, false, Ok, OnOk, OnErr, IfOk, IfErr, IsOk};
ghost use Rattle.guest_memory.specs.Guest.{memory_of};
ghost use Rattle.rv_isa.specs.declared.instruction.Instr.TheVariants.{Ecall};
ghost use Rattle.guest_machine.specs.Kept.{IsAsBefore, Steps, machine_of, out_of};
ghost use Rattle.guest_machine.specs.Machine.{can_run};
ghost use Rattle.guest_machine.specs.Told.{IsInstruction, IsQuiet, StepsTold};
ghost use Rattle.guest_machine.specs.Step.{executed, faulted, instruction_at, next_instruction, pc_of, step, syscall_step};
ghost use Rattle.trace_model.specs.EventList.{EventList};
ghost use Rattle.trace_model.specs.declared.event_kinds.Event.{Event};

use crate::answers::apply_answer;
use crate::hart::{cpu_of, execute_for};
use crate::step_events::{add_jump, add_step};
use crate::telling::told;
use crate::{Advanced, Machine, Stepped};
use guest_calls::syscall;
use guest_memory::GuestMemory;
use guest_words::limits::{SYSCALL_EVENTS, THREADS};
use guest_words::{Addr, FaultKind, Tid};
use rv_exec::Outcome;
use rv_isa::{Instr, decode};
use std::alloc::AllocError;
use trace_model::{Event, Events};

// The room for the events of an instruction: its step, and at most two accesses, or a return and a call.
const EVENTS_OF_AN_INSTRUCTION: usize = 4;

// A call has its step, at most `SYSCALL_EVENTS` copies that the kernel makes, and ends at most `THREADS` threads.
const EVENTS_OF_A_CALL_STEP: usize = 1 + SYSCALL_EVENTS + THREADS;

// Makes room for the events of an instruction, where there is none.
#[inline(always)]
fn make_room(events: &mut Events) -> Result<(), AllocError>
    ensures room { OnOk result (4 ≤ events.new.room) }
    ensures list { events.new.list ≡ events.old.list }
    ensures no_allocation { 4 ≤ events.old.room → IsOk result }
{
    if events.room() >= EVENTS_OF_AN_INSTRUCTION {
        return Ok(());
    }
    events.reserve(EVENTS_OF_AN_INSTRUCTION)
}

// The instruction at an address, or why it can't run.
fn instruction_at(memory: &GuestMemory, at: Addr) -> Result<Instr, FaultKind>
    requires { at % 4 ≡ 0 }
    ensures { result ≡ instruction_at (memory_of memory.now) at }
{
    match memory.fetch(at) {
        Ok(word) => decode(word).ok_or(FaultKind::Illegal),
        Err(_) => Err(FaultKind::Fetch),
    }
}

#[tactic(auto, unfolding(crate::specs::Kept::machine_of, crate::specs::Step::step))]
impl Machine {
    // Carries out an instruction, which is no system call, or says how it faults.
    #[inline(always)]
    fn carry_out(&mut self, tid: Tid, pc: Addr, instruction: &Instr) -> Result<Advanced, FaultKind>
        requires pc { pc ≡ pc_of (machine_of self.old) tid }
        requires can_run { can_run (machine_of self.old) tid ≡ true }
        requires no_call { instruction.now ≢ Ecall }
        ensures step { IfOk result (λ advanced. (before : List Event)
            → StepsTold (executed (machine_of self.old) tid (Ok instruction.now))
            tid advanced self.new before before) }
        ensures fault { IfErr result (λ kind. executed (machine_of self.old) tid
            (Ok instruction.now) ≡ faulted (machine_of self.old) tid kind) }
        ensures kept { OnErr result (machine_of self.new ≡ machine_of self.old) }
        ensures entry { self.new.entry ≡ self.old.entry }
        ensures quiet { IfOk result (λ advanced. (events : EventList)
            → IsQuiet advanced self.new events events) }
        ensures out { IfOk result (λ advanced. out_of self.new ≡ None) }
        ensures instruction { IfOk result IsInstruction }
    {
        let (outcome, target) = execute_for(
            &mut self.harts,
            &mut self.memory,
            &mut self.held,
            tid,
            *instruction,
        );
        match outcome {
            Outcome::Went { access } => {
                self.called = false;
                self.kernel.advance();
                Ok(told(instruction, access, target, pc.wrapping_add(4)))
            }
            Outcome::Fault { kind } => Err(kind),
            Outcome::Syscall => unreachable!(),
        }
    }

    // Calls the kernel, and lets the threads start, wait or end as it answers.
    #[cold]
    #[inline(never)]
    fn make_syscall(&mut self, tid: Tid, events: &mut Events) -> Result<Stepped, AllocError>
        requires can_run { can_run (machine_of self.old) tid ≡ true }
        ensures step { IfOk result (λ stepped. Steps
            (syscall_step (machine_of self.old) tid) stepped
            self.new events.old.list events.new.list) }
        ensures refused { OnErr result (IsAsBefore self.old self.new
            events.old.list events.new.list) }
        ensures entry { self.new.entry ≡ self.old.entry }
    {
        let before = events.list().len();
        events.reserve(EVENTS_OF_A_CALL_STEP)?;
        events.push(Event::Step { tid });
        let cpu = *cpu_of(&self.harts, tid);
        match syscall(
            &mut self.kernel,
            &mut self.memory,
            &mut self.held,
            tid,
            &cpu,
            events,
        ) {
            Ok(answer) => {
                self.called = true;
                Ok(apply_answer(&mut self.harts, tid, answer, events))
            }
            Err(refused) => {
                events.truncate(before);
                Err(refused)
            }
        }
    }

    /// Runs one step of a thread that can run. The events of an instruction that went are told by what it did, and those of
    /// any other step are added. An instruction other than ECALL does not allocate.
    pub fn advance(&mut self, tid: Tid, events: &mut Events) -> Result<Advanced, AllocError>
        requires { can_run (machine_of self.old) tid ≡ true }
        ensures step { IfOk result (λ advanced. StepsTold (step (machine_of self.old) tid)
            tid advanced self.new events.old.list events.new.list) }
        ensures refused { OnErr result (IsAsBefore self.old self.new
            events.old.list events.new.list) }
        ensures no_allocation { next_instruction (machine_of self.old) tid ≢ Ok Ecall → IsOk result }
        ensures entry { self.new.entry ≡ self.old.entry }
        ensures quiet { IfOk result (λ advanced. IsQuiet advanced self.new events.old events.new) }
    {
        let pc = cpu_of(&self.harts, tid).pc;
        match instruction_at(&self.memory, pc) {
            Err(kind) => Ok(self.fault(kind, pc)),
            Ok(Instr::Ecall) => {
                let stepped = self.make_syscall(tid, events)?;
                Ok(Advanced::Other { stepped })
            }
            Ok(instruction) => match self.carry_out(tid, pc, &instruction) {
                Ok(advanced) => Ok(advanced),
                Err(kind) => Ok(self.fault(kind, pc)),
            },
        }
    }

    // The step of an instruction that can't run.
    fn fault(&mut self, kind: FaultKind, pc: Addr) -> Advanced
        ensures result { result ≡ Advanced.Other (Stepped.Faulted kind pc) }
        ensures parts { self.new ≡ record self.old { called = false } }
    {
        self.called = false;
        Advanced::Other {
            stepped: Stepped::Faulted { kind, at: pc },
        }
    }

    /// Runs one step of a thread that can run, and adds its events. An instruction other than ECALL does not allocate if
    /// there is room for four events.
    pub fn step(&mut self, tid: Tid, events: &mut Events) -> Result<Stepped, AllocError>
        requires { can_run (machine_of self.old) tid ≡ true }
        ensures step { IfOk result (λ stepped. Steps
            (step (machine_of self.old) tid) stepped self.new events.old.list events.new.list) }
        ensures refused { OnErr result (IsAsBefore self.old self.new
            events.old.list events.new.list) }
        ensures no_allocation { 4 ≤ events.old.room → next_instruction
            (machine_of self.old) tid ≢ Ok Ecall → IsOk result }
        ensures entry { self.new.entry ≡ self.old.entry }
    {
        make_room(events)?;
        match self.advance(tid, events)? {
            Advanced::Ran => {
                events.push(Event::Step { tid });
                Ok(Stepped::Went)
            }
            Advanced::Accessed { access } => {
                add_step(events, tid, access);
                Ok(Stepped::Went)
            }
            Advanced::Jumped { jump, target, back } => {
                events.push(Event::Step { tid });
                add_jump(events, tid, jump, target, back);
                Ok(Stepped::Went)
            }
            Advanced::Other { stepped } => Ok(stepped),
        }
    }
}
