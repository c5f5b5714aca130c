//! One step of a row: an instruction that accesses memory is carried out, and the observer is told of it.
ghost use Rattle.std.specs.Prelude.{◌≡◌, ◌≤◌};
ghost use Rattle.guest_memory.specs.Code.{IsInstructionAt};
ghost use Rattle.guest_memory.specs.Guest.{memory_of};
ghost use Rattle.guest_memory.specs.declared.reservations.Reservations.{Reservations};
ghost use Rattle.rv_isa.specs.declared.instruction.Instr.TheVariants.{Load, Store};
ghost use Rattle.rv_isa.specs.declared.instruction.LoadKind.TheVariants.{Lw};
ghost use Rattle.rv_isa.specs.declared.instruction.StoreKind.TheVariants.{Sw};
ghost use Rattle.rv_exec.specs.Effects.{exec_state_of};
ghost use Rattle.rv_exec.specs.Registers.{with_pc};
ghost use Rattle.guest_machine.specs.Private.Making.{Makes, MakesLoad, MakesStore, MayLoad, MayMake, MayStore, behind, made_of, stored};

use crate::telling::{observe_words_read, observe_words_written};
use guest_memory::{GuestMemory, Reservations};
use guest_words::{Addr, Tid};
use rv_exec::{Counter, Cpu, Cursor, add_offset, load_words, store_words};
use rv_isa::{LoadKind, Reg, StoreKind};
use trace_model::{Answer, Observer};

/// What became of an instruction.
#[derive(Clone, Copy)]
pub(crate) enum Made {
    // It went, and the observer has taken it, with the steps before it.
    Taken,
    // It went, and the observer refused an event of it.
    Refused,
    // It faults, and changed nothing.
    Stops,
    // It went, and memory for its event could not be allocated.
    OutOfMemory,
}

// What became of an instruction that the observer was told of.
#[inline(always)]
fn made_by(answer: Answer) -> Made
    ensures { result ≡ made_of answer }
{
    match answer {
        Answer::Taken => Made::Taken,
        Answer::Refused => Made::Refused,
        Answer::OutOfMemory => Made::OutOfMemory,
    }
}

// Carries out a load but for the program counter, and tells the observer.
#[inline(always)]
fn load_and_tell<W: Observer>(
    cpu: &mut Cpu,
    memory: &GuestMemory,
    tid: Tid,
    kind: LoadKind,
    rd: Reg,
    at: Addr,
    steps: u64,
    observer: &mut W,
) -> Made
    requires some { 1 ≤ steps }
    requires may { MayLoad W.stands (W.fits observer.old) tid steps kind rd at cpu.old memory.now observer.old }
    ensures made { MakesLoad W.stands (W.fits observer.old) tid steps kind rd at memory.now
        cpu.old observer.old cpu.new observer.new result }
    ensures same { W.fits observer.new ≡ W.fits observer.old }
{
    match load_words(cpu, memory, kind, rd, at) {
        Ok((first, count)) => made_by(observe_words_read(observer, tid, steps, first, count)),
        Err(_) => Made::Stops,
    }
}

// The same for LW, whose code stands apart from the loop: it is the load that most programs make most.
#[inline(never)]
fn load_word_and_tell<W: Observer>(
    cpu: &mut Cpu,
    memory: &GuestMemory,
    tid: Tid,
    rd: Reg,
    at: Addr,
    steps: u64,
    observer: &mut W,
) -> Made
    requires some { 1 ≤ steps }
    requires may { MayLoad W.stands (W.fits observer.old) tid steps Lw rd at cpu.old memory.now observer.old }
    ensures made { MakesLoad W.stands (W.fits observer.old) tid steps Lw rd at memory.now
        cpu.old observer.old cpu.new observer.new result }
    ensures same { W.fits observer.new ≡ W.fits observer.old }
{
    load_and_tell(cpu, memory, tid, LoadKind::Lw, rd, at, steps, observer)
}

// The same for the other loads, the code of each kind apart.
#[inline(never)]
fn load_part_and_tell<W: Observer>(
    cpu: &mut Cpu,
    memory: &GuestMemory,
    tid: Tid,
    kind: LoadKind,
    rd: Reg,
    at: Addr,
    steps: u64,
    observer: &mut W,
) -> Made
    requires some { 1 ≤ steps }
    requires may { MayLoad W.stands (W.fits observer.old) tid steps kind rd at cpu.old memory.now observer.old }
    ensures made { MakesLoad W.stands (W.fits observer.old) tid steps kind rd at memory.now
        cpu.old observer.old cpu.new observer.new result }
    ensures same { W.fits observer.new ≡ W.fits observer.old }
{
    match kind {
        LoadKind::Lb => load_and_tell(cpu, memory, tid, LoadKind::Lb, rd, at, steps, observer),
        LoadKind::Lh => load_and_tell(cpu, memory, tid, LoadKind::Lh, rd, at, steps, observer),
        LoadKind::Lw => load_and_tell(cpu, memory, tid, LoadKind::Lw, rd, at, steps, observer),
        LoadKind::Lbu => load_and_tell(cpu, memory, tid, LoadKind::Lbu, rd, at, steps, observer),
        LoadKind::Lhu => load_and_tell(cpu, memory, tid, LoadKind::Lhu, rd, at, steps, observer),
    }
}

// The same for any load.
#[inline(always)]
fn load_any_and_tell<W: Observer>(
    cpu: &mut Cpu,
    memory: &GuestMemory,
    tid: Tid,
    kind: LoadKind,
    rd: Reg,
    at: Addr,
    steps: u64,
    observer: &mut W,
) -> Made
    requires some { 1 ≤ steps }
    requires may { MayLoad W.stands (W.fits observer.old) tid steps kind rd at cpu.old memory.now observer.old }
    ensures made { MakesLoad W.stands (W.fits observer.old) tid steps kind rd at memory.now
        cpu.old observer.old cpu.new observer.new result }
    ensures same { W.fits observer.new ≡ W.fits observer.old }
{
    match kind {
        LoadKind::Lw => load_word_and_tell(cpu, memory, tid, rd, at, steps, observer),
        _ => load_part_and_tell(cpu, memory, tid, kind, rd, at, steps, observer),
    }
}

// The program counter goes on behind an instruction that went.
#[inline(always)]
fn go_behind(pc: &mut Cursor, made: &Made)
    ensures { pc.new ≡ behind pc.old made.now }
{
    match *made {
        Made::Stops => {}
        Made::Taken | Made::Refused | Made::OutOfMemory => pc.pass(),
    }
}

/// Carries out a load of a thread whose program counter is `pc`, and tells the observer of it and the steps before it, `steps` in
/// all.
#[inline(always)]
pub(crate) fn make_load<W: Observer>(
    pc: &mut Cursor,
    cpu: &mut Cpu,
    memory: &GuestMemory,
    tid: Tid,
    kind: LoadKind,
    rd: Reg,
    base: Reg,
    offset: i32,
    steps: u64,
    observer: &mut W,
) -> Made
    requires some { 1 ≤ steps }
    requires known { IsInstructionAt (memory_of memory.now) pc.old (Load kind rd base offset) }
    requires may { (held : Reservations) × MayMake W.stands (W.fits observer.old) tid steps
        (exec_state_of (with_pc pc.old cpu.old) memory.now held) observer.old }
    ensures made { (held : Reservations) → Makes W.stands (W.fits observer.old) tid steps
        (exec_state_of (with_pc pc.old cpu.old) memory.now held) observer.old
        (exec_state_of (with_pc pc.new cpu.new) memory.now held) observer.new result }
    ensures same { W.fits observer.new ≡ W.fits observer.old }
{
    let at = add_offset(cpu.value(base), offset);
    let made = load_any_and_tell(cpu, memory, tid, kind, rd, at, steps, observer);
    go_behind(pc, &made);
    made
}

// Carries out a store but for the program counter, and tells the observer.
#[inline(always)]
fn store_and_tell<W: Observer>(
    memory: &mut GuestMemory,
    held: &mut Reservations,
    tid: Tid,
    kind: StoreKind,
    at: Addr,
    n: u32,
    steps: u64,
    observer: &mut W,
) -> Made
    requires some { 1 ≤ steps }
    requires may { MayStore W.stands (W.fits observer.old) tid steps kind at n memory.old held.old observer.old }
    ensures made { MakesStore W.stands (W.fits observer.old) tid steps kind at n
        memory.old held.old observer.old memory.new held.new observer.new result }
    ensures same { W.fits observer.new ≡ W.fits observer.old }
{
    match store_words(memory, held, tid, kind, at, n) {
        Ok((first, count)) => made_by(observe_words_written(observer, tid, steps, first, count)),
        Err(_) => Made::Stops,
    }
}

// The same for SW, apart from the loop as LW is.
#[inline(never)]
fn store_word_and_tell<W: Observer>(
    memory: &mut GuestMemory,
    held: &mut Reservations,
    tid: Tid,
    at: Addr,
    n: u32,
    steps: u64,
    observer: &mut W,
) -> Made
    requires some { 1 ≤ steps }
    requires may { MayStore W.stands (W.fits observer.old) tid steps Sw at n memory.old held.old observer.old }
    ensures made { MakesStore W.stands (W.fits observer.old) tid steps Sw at n
        memory.old held.old observer.old memory.new held.new observer.new result }
    ensures same { W.fits observer.new ≡ W.fits observer.old }
{
    store_and_tell(memory, held, tid, StoreKind::Sw, at, n, steps, observer)
}

// The same for the other stores.
#[inline(never)]
fn store_part_and_tell<W: Observer>(
    memory: &mut GuestMemory,
    held: &mut Reservations,
    tid: Tid,
    kind: StoreKind,
    at: Addr,
    n: u32,
    steps: u64,
    observer: &mut W,
) -> Made
    requires some { 1 ≤ steps }
    requires may { MayStore W.stands (W.fits observer.old) tid steps kind at n memory.old held.old observer.old }
    ensures made { MakesStore W.stands (W.fits observer.old) tid steps kind at n
        memory.old held.old observer.old memory.new held.new observer.new result }
    ensures same { W.fits observer.new ≡ W.fits observer.old }
{
    match kind {
        StoreKind::Sb => store_and_tell(memory, held, tid, StoreKind::Sb, at, n, steps, observer),
        StoreKind::Sh => store_and_tell(memory, held, tid, StoreKind::Sh, at, n, steps, observer),
        StoreKind::Sw => store_and_tell(memory, held, tid, StoreKind::Sw, at, n, steps, observer),
    }
}

// The same for any store.
#[inline(always)]
fn store_any_and_tell<W: Observer>(
    memory: &mut GuestMemory,
    held: &mut Reservations,
    tid: Tid,
    kind: StoreKind,
    at: Addr,
    n: u32,
    steps: u64,
    observer: &mut W,
) -> Made
    requires some { 1 ≤ steps }
    requires may { MayStore W.stands (W.fits observer.old) tid steps kind at n memory.old held.old observer.old }
    ensures made { MakesStore W.stands (W.fits observer.old) tid steps kind at n
        memory.old held.old observer.old memory.new held.new observer.new result }
    ensures same { W.fits observer.new ≡ W.fits observer.old }
{
    match kind {
        StoreKind::Sw => store_word_and_tell(memory, held, tid, at, n, steps, observer),
        _ => store_part_and_tell(memory, held, tid, kind, at, n, steps, observer),
    }
}

// The thread goes on behind an instruction that went.
#[inline(always)]
fn advance_behind(cpu: &mut Cpu, made: &Made)
    ensures { cpu.new ≡ stored cpu.old made.now }
{
    match *made {
        Made::Stops => {}
        Made::Taken | Made::Refused | Made::OutOfMemory => cpu.advance(),
    }
}

/// Carries out a store of a thread, and tells the observer of it and the steps before it, `steps` in all.
#[inline(always)]
pub(crate) fn make_store<W: Observer>(
    cpu: &mut Cpu,
    memory: &mut GuestMemory,
    held: &mut Reservations,
    tid: Tid,
    kind: StoreKind,
    value: Reg,
    base: Reg,
    offset: i32,
    steps: u64,
    observer: &mut W,
) -> Made
    requires some { 1 ≤ steps }
    requires known { IsInstructionAt (memory_of memory.old) cpu.old.pc (Store kind value base offset) }
    requires may { MayMake W.stands (W.fits observer.old) tid steps
        (exec_state_of cpu.old memory.old held.old) observer.old }
    ensures made { Makes W.stands (W.fits observer.old) tid steps
        (exec_state_of cpu.old memory.old held.old) observer.old
        (exec_state_of cpu.new memory.new held.new) observer.new result }
    ensures same { W.fits observer.new ≡ W.fits observer.old }
{
    let at = add_offset(cpu.value(base), offset);
    let n = cpu.value(value);
    let made = store_any_and_tell(memory, held, tid, kind, at, n, steps, observer);
    advance_behind(cpu, &made);
    made
}
