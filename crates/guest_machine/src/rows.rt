//! Steps of one thread in a row, as long as their instructions can be known.
ghost use Rattle.std.specs.Prelude.{◌≡◌, ◌≤◌, ◌<◌, ◌+◌, ◌%◌, ◌^◌, ◌++◌, ◌∷◌, [], IfOk, IfSome, OnOk, length};
ghost use Rattle.guest_memory.specs.Code.{IsCodeFrom, IsInstructionAt, known_of};
ghost use Rattle.guest_memory.specs.declared.reservations.Reservations.{Reservations};
ghost use Rattle.rv_isa.specs.declared.instruction.Instr.{Instr};
ghost use Rattle.rv_isa.specs.declared.instruction.Instr.TheVariants.{Load, Store};
ghost use Rattle.guest_memory.specs.Guest.{memory_of};
ghost use Rattle.rv_exec.specs.Effects.{exec_state_of};
ghost use Rattle.rv_exec.specs.Registers.{with_pc};
ghost use Rattle.trace_model.specs.declared.event_kinds.Event.TheVariants.{Read, Write};
ghost use Rattle.trace_model.specs.declared.observer.Observed.TheVariants.{Taken};
ghost use Rattle.trace_model.specs.Observing.{MayTakeAll, ObservesAll, result_of};
ghost use Rattle.guest_machine.specs.Private.Carrying.{Carries, IsStateOf, JumpsTo, MayCarry, ObservesFrom};
ghost use Rattle.guest_machine.specs.Private.Making.{made_answer, made_row};
ghost use Rattle.guest_machine.specs.Private.Rows.{Counts, IsPaused, MakesNext, MayCount, MayRun, RunsOn, answer_of, further_of, handed, tried_answer, tried_row};
ghost use Rattle.guest_machine.specs.Machine.{MachineState};
ghost use Rattle.guest_machine.specs.Step.{jump_events};
ghost use Rattle.guest_machine.specs.Told.{IsInstruction, done_by, steps_of};

use crate::Advanced;
use crate::known::carry_out_next;
use crate::making::{Made, make_load, make_store};
use crate::step_row::StepRow;
use crate::telling::{observe_jump, observe_told, tell_word_read, tell_word_written};
use call_tracker::{JumpKind, kind};
use guest_memory::{Decoded, GuestMemory, Reservations, find_word};
use guest_words::{Addr, Tid, Word};
use rv_exec::{
    Counter, Cpu, Cursor, Outcome, add_offset, execute_plain, jump_and_link, load_word, store_word,
};
use rv_isa::{Instr, LoadKind, Reg, StoreKind};
use std::alloc::AllocError;
use trace_model::{Answer, Observed, Observer};

/// Steps of a thread that were made in a row: how many, and whether the observer took the events of the last.
#[derive(Clone, Copy, Debug, PartialEq, Eq)]
pub struct KnownSteps {
    pub count: u64,
    pub observed: Observed,
}

// Hands out a step that also accessed memory, called or returned, with the plain ones before it.
#[inline(always)]
fn hand_step<W: Observer>(
    row: &mut StepRow,
    tid: Tid,
    advanced: Advanced,
    observer: &mut W,
) -> Answer
    requires instruction { IsInstruction advanced }
    requires within { row.old.plain < row.old.left }
    requires next { MayTakeAll W.stands (W.fits observer.old) observer.old
        (steps_of tid (row.old.plain + 1) ++ done_by tid advanced) }
    ensures row { row.new ≡ handed row.old }
    ensures observed { IfOk (result_of result) (ObservesAll W.stands (W.fits observer.old)
        (steps_of tid (row.old.plain + 1) ++ done_by tid advanced) observer.old observer.new) }
    ensures same { W.fits observer.new ≡ W.fits observer.old }
{
    let steps = row.hand();
    Answer::of(observe_told(tid, steps, advanced, observer))
}

// The same for a step that called or returned.
#[inline(always)]
fn hand_jump<W: Observer>(
    row: &mut StepRow,
    tid: Tid,
    jump: JumpKind,
    target: Addr,
    back: Addr,
    observer: &mut W,
) -> Answer
    requires within { row.old.plain < row.old.left }
    requires next { MayTakeAll W.stands (W.fits observer.old) observer.old
        (steps_of tid (row.old.plain + 1) ++ jump_events jump tid target back) }
    ensures row { row.new ≡ handed row.old }
    ensures observed { IfOk (result_of result) (ObservesAll W.stands (W.fits observer.old)
        (steps_of tid (row.old.plain + 1) ++ jump_events jump tid target back) observer.old observer.new) }
    ensures same { W.fits observer.new ≡ W.fits observer.old }
{
    let steps = row.hand();
    Answer::of(observe_jump(tid, steps, jump, target, back, observer))
}

// The same for a step that read one word.
#[inline(always)]
fn hand_read<W: Observer>(row: &mut StepRow, tid: Tid, first: Word, observer: &mut W) -> Answer
    requires within { row.old.plain < row.old.left }
    requires next { MayTakeAll W.stands (W.fits observer.old) observer.old
        (steps_of tid (row.old.plain + 1) ++ Read tid first 1 ∷ []) }
    ensures row { row.new ≡ handed row.old }
    ensures observed { IfOk (result_of result) (ObservesAll W.stands (W.fits observer.old)
        (steps_of tid (row.old.plain + 1) ++ Read tid first 1 ∷ []) observer.old observer.new) }
    ensures same { W.fits observer.new ≡ W.fits observer.old }
{
    let steps = row.hand();
    tell_word_read(observer, tid, steps, first)
}

// The same for a step that wrote one word.
#[inline(always)]
fn hand_write<W: Observer>(row: &mut StepRow, tid: Tid, first: Word, observer: &mut W) -> Answer
    requires within { row.old.plain < row.old.left }
    requires next { MayTakeAll W.stands (W.fits observer.old) observer.old
        (steps_of tid (row.old.plain + 1) ++ Write tid first 1 ∷ []) }
    ensures row { row.new ≡ handed row.old }
    ensures observed { IfOk (result_of result) (ObservesAll W.stands (W.fits observer.old)
        (steps_of tid (row.old.plain + 1) ++ Write tid first 1 ∷ []) observer.old observer.new) }
    ensures same { W.fits observer.new ≡ W.fits observer.old }
{
    let steps = row.hand();
    tell_word_written(observer, tid, steps, first)
}

// What became of a load or a store that was tried in the loop itself.
enum Tried {
    // It went, and the observer has taken it.
    Taken,
    // It went, and the observer refused an event of it.
    Refused,
    // It is left to the function for any load or store, and nothing changed.
    Declined,
    // It went, and memory for its event could not be allocated.
    OutOfMemory,
}

// Makes the next step of a row if it loads a word within a page that can be read. Each answer is made where it is known: the
// compiler then keeps the ways that lead on apart.
#[inline(always)]
fn try_load<W: Observer>(
    pc: &mut Cursor,
    cpu: &mut Cpu,
    memory: &GuestMemory,
    tid: Tid,
    kind: LoadKind,
    rd: Reg,
    base: Reg,
    offset: i32,
    row: &mut StepRow,
    observer: &mut W,
) -> Tried
    requires known { IsInstructionAt (memory_of memory.now) pc.old (Load kind rd base offset) }
    requires run { (held : Reservations) × MayRun W.stands (W.fits observer.old) tid row.old
        (exec_state_of (with_pc pc.old cpu.old) memory.now held) observer.old }
    requires within { row.old.plain < row.old.left }
    ensures runs { (held : Reservations) → RunsOn W.stands (W.fits observer.old) tid
        row.old (exec_state_of (with_pc pc.old cpu.old) memory.now held) observer.old
        row.new (exec_state_of (with_pc pc.new cpu.new) memory.now held) observer.new
        (tried_answer result) }
    ensures row { row.new ≡ tried_row row.old result }
    ensures again { result ≡ Tried.Declined
        → IsInstructionAt (memory_of memory.now) pc.new (Load kind rd base offset) }
    ensures same { W.fits observer.new ≡ W.fits observer.old }
{
    let LoadKind::Lw = kind else {
        return Tried::Declined;
    };
    let at = add_offset(cpu.value(base), offset);
    let Some(first) = load_word(cpu, memory, rd, at) else {
        return Tried::Declined;
    };
    pc.pass();
    match hand_read(row, tid, first, observer) {
        Answer::Taken => Tried::Taken,
        Answer::Refused => Tried::Refused,
        Answer::OutOfMemory => Tried::OutOfMemory,
    }
}

// The same for a store of a word within a page that can be written and has no decoded code, while no word is reserved.
#[inline(always)]
fn try_store<W: Observer>(
    cpu: &mut Cpu,
    memory: &mut GuestMemory,
    held: &Reservations,
    tid: Tid,
    kind: StoreKind,
    value: Reg,
    base: Reg,
    offset: i32,
    row: &mut StepRow,
    observer: &mut W,
) -> Tried
    requires known { IsInstructionAt (memory_of memory.old) cpu.old.pc (Store kind value base offset) }
    requires run { MayRun W.stands (W.fits observer.old) tid row.old
        (exec_state_of cpu.old memory.old held.now) observer.old }
    requires within { row.old.plain < row.old.left }
    ensures runs { RunsOn W.stands (W.fits observer.old) tid
        row.old (exec_state_of cpu.old memory.old held.now) observer.old
        row.new (exec_state_of cpu.new memory.new held.now) observer.new (tried_answer result) }
    ensures row { row.new ≡ tried_row row.old result }
    ensures again { result ≡ Tried.Declined
        → IsInstructionAt (memory_of memory.new) cpu.new.pc (Store kind value base offset) }
    ensures same { W.fits observer.new ≡ W.fits observer.old }
{
    let StoreKind::Sw = kind else {
        return Tried::Declined;
    };
    let at = add_offset(cpu.value(base), offset);
    let Some(first) = store_word(memory, held, at, cpu.value(value)) else {
        return Tried::Declined;
    };
    cpu.advance();
    match hand_write(row, tid, first, observer) {
        Answer::Taken => Tried::Taken,
        Answer::Refused => Tried::Refused,
        Answer::OutOfMemory => Tried::OutOfMemory,
    }
}

// What became of the next step within a page of code, or why the steps within it end.
enum Paused {
    // It was made, or all were.
    Went,
    // The observer refused an event of the last.
    Refused,
    // The next instruction stores.
    Store {
        kind: StoreKind,
        value: Reg,
        base: Reg,
        offset: i32,
    },
    // The next instruction is not made here: it is not known to be in the page, or it is ECALL, EBREAK, an atomic operation or a
    // branch that faults.
    Elsewhere,
    // The next instruction is a load or a jump that faults.
    Stops,
    // Memory for an event of the last could not be allocated.
    OutOfMemory,
}

// Whether a row of steps goes on.
enum Further {
    Went,
    // The observer refused an event of the last step.
    Refused,
    // The next instruction is not known, or can't go on.
    Stopped,
    // Memory for an event of the last step, or for what is known of code, could not be allocated.
    OutOfMemory,
}

// Counts the next step of a row, by what became of it.
#[inline(always)]
fn count_made(row: &mut StepRow, made: Made) -> Further
    requires within { row.old.plain < row.old.left }
    ensures row { row.new ≡ made_row row.old made }
    ensures further { further_of result ≡ made_answer made }
    ensures grows { result ≡ Further.Went
        → row.old.told + row.old.plain < row.new.told + row.new.plain }
{
    if let Made::Stops = made {
        return Further::Stopped;
    }
    let _ = row.hand();
    match made {
        Made::Taken => Further::Went,
        Made::Refused => Further::Refused,
        Made::OutOfMemory => Further::OutOfMemory,
        Made::Stops => Further::Stopped,
    }
}

// Makes the next step of a row, which is a load of any kind.
#[inline(always)]
fn run_any_load<W: Observer>(
    pc: &mut Cursor,
    cpu: &mut Cpu,
    memory: &GuestMemory,
    tid: Tid,
    kind: LoadKind,
    rd: Reg,
    base: Reg,
    offset: i32,
    row: &mut StepRow,
    observer: &mut W,
) -> Paused
    requires known { IsInstructionAt (memory_of memory.now) pc.old (Load kind rd base offset) }
    requires run { (held : Reservations) × MayRun W.stands (W.fits observer.old) tid row.old
        (exec_state_of (with_pc pc.old cpu.old) memory.now held) observer.old }
    requires within { row.old.plain < row.old.left }
    ensures { MakesNext W.stands W.fits tid memory.now row.old pc.old cpu.old observer.old
        row.new pc.new cpu.new observer.new result }
{
    let steps = row.due();
    let made = make_load(
        pc, cpu, memory, tid, kind, rd, base, offset, steps, observer,
    );
    match count_made(row, made) {
        Further::Went => Paused::Went,
        Further::Refused => Paused::Refused,
        Further::Stopped => Paused::Stops,
        Further::OutOfMemory => Paused::OutOfMemory,
    }
}

// Makes the next step of a row, which is a load. A load of a word is tried first without a call.
#[inline(always)]
fn run_load<W: Observer>(
    pc: &mut Cursor,
    cpu: &mut Cpu,
    memory: &GuestMemory,
    tid: Tid,
    kind: LoadKind,
    rd: Reg,
    base: Reg,
    offset: i32,
    row: &mut StepRow,
    observer: &mut W,
) -> Paused
    requires known { IsInstructionAt (memory_of memory.now) pc.old (Load kind rd base offset) }
    requires run { (held : Reservations) × MayRun W.stands (W.fits observer.old) tid row.old
        (exec_state_of (with_pc pc.old cpu.old) memory.now held) observer.old }
    requires within { row.old.plain < row.old.left }
    ensures { MakesNext W.stands W.fits tid memory.now row.old pc.old cpu.old observer.old
        row.new pc.new cpu.new observer.new result }
{
    match try_load(pc, cpu, memory, tid, kind, rd, base, offset, row, observer) {
        Tried::Taken => Paused::Went,
        Tried::Refused => Paused::Refused,
        Tried::OutOfMemory => Paused::OutOfMemory,
        Tried::Declined => run_any_load(
            pc, cpu, memory, tid, kind, rd, base, offset, row, observer,
        ),
    }
}

// Makes the next step of a row, which is a jump to the target that leaves the way back in a register.
#[inline(always)]
fn run_jump<W: Observer>(
    pc: &mut Cursor,
    cpu: &mut Cpu,
    memory: &GuestMemory,
    tid: Tid,
    rd: Reg,
    target: Addr,
    jump: JumpKind,
    row: &mut StepRow,
    observer: &mut W,
) -> Paused
    requires known { (i : Instr) × IsInstructionAt (memory_of memory.now) pc.old i × JumpsTo i (with_pc pc.old cpu.old) rd target jump }
    requires run { (held : Reservations) × MayRun W.stands (W.fits observer.old) tid row.old
        (exec_state_of (with_pc pc.old cpu.old) memory.now held) observer.old }
    requires within { row.old.plain < row.old.left }
    ensures { MakesNext W.stands W.fits tid memory.now row.old pc.old cpu.old observer.old
        row.new pc.new cpu.new observer.new result }
{
    let _ = memory; // of which the contract speaks
    let back = pc.address().wrapping_add(4);
    let Outcome::Went { .. } = jump_and_link(pc, cpu, rd, target) else {
        return Paused::Stops;
    };
    if let JumpKind::Nothing = jump {
        row.pass();
        return Paused::Went;
    }
    match hand_jump(row, tid, jump, target, back, observer) {
        Answer::Taken => Paused::Went,
        Answer::Refused => Paused::Refused,
        Answer::OutOfMemory => Paused::OutOfMemory,
    }
}

// Makes the next step of a row if its instruction loads, or links the way back. If it stores, it says so; another one is left
// to the function for any instruction.
#[inline(always)]
fn run_decoded<W: Observer>(
    pc: &mut Cursor,
    cpu: &mut Cpu,
    memory: &GuestMemory,
    tid: Tid,
    decoded: &Decoded,
    row: &mut StepRow,
    observer: &mut W,
) -> Paused
    requires known { IfSome (known_of decoded.now) (IsInstructionAt (memory_of memory.now) pc.old) }
    requires run { (held : Reservations) × MayRun W.stands (W.fits observer.old) tid row.old
        (exec_state_of (with_pc pc.old cpu.old) memory.now held) observer.old }
    requires within { row.old.plain < row.old.left }
    ensures { MakesNext W.stands W.fits tid memory.now row.old pc.old cpu.old observer.old
        row.new pc.new cpu.new observer.new result }
{
    match *decoded {
        Decoded::Jal { rd, offset } => {
            let jump = kind(Instr::Jal { rd, offset });
            let target = add_offset(pc.address(), offset);
            run_jump(pc, cpu, memory, tid, rd, target, jump, row, observer)
        }
        Decoded::Jalr { rd, base, offset } => {
            let jump = kind(Instr::Jalr { rd, base, offset });
            let target = add_offset(cpu.value(base), offset) / 2 * 2;
            run_jump(pc, cpu, memory, tid, rd, target, jump, row, observer)
        }
        Decoded::Lb { rd, base, offset } => run_any_load(
            pc,
            cpu,
            memory,
            tid,
            LoadKind::Lb,
            rd,
            base,
            offset,
            row,
            observer,
        ),
        Decoded::Lh { rd, base, offset } => run_any_load(
            pc,
            cpu,
            memory,
            tid,
            LoadKind::Lh,
            rd,
            base,
            offset,
            row,
            observer,
        ),
        Decoded::Lw { rd, base, offset } => run_load(
            pc,
            cpu,
            memory,
            tid,
            LoadKind::Lw,
            rd,
            base,
            offset,
            row,
            observer,
        ),
        Decoded::Lbu { rd, base, offset } => run_any_load(
            pc,
            cpu,
            memory,
            tid,
            LoadKind::Lbu,
            rd,
            base,
            offset,
            row,
            observer,
        ),
        Decoded::Lhu { rd, base, offset } => run_any_load(
            pc,
            cpu,
            memory,
            tid,
            LoadKind::Lhu,
            rd,
            base,
            offset,
            row,
            observer,
        ),
        Decoded::Sb {
            value,
            base,
            offset,
        } => Paused::Store {
            kind: StoreKind::Sb,
            value,
            base,
            offset,
        },
        Decoded::Sh {
            value,
            base,
            offset,
        } => Paused::Store {
            kind: StoreKind::Sh,
            value,
            base,
            offset,
        },
        Decoded::Sw {
            value,
            base,
            offset,
        } => Paused::Store {
            kind: StoreKind::Sw,
            value,
            base,
            offset,
        },
        _ => Paused::Elsewhere,
    }
}

// Makes the steps of a row that lie in a page of code, as long as they can't write. The thread's program counter is `pc`, apart
// from its registers, so that the compiler keeps it in a register.
#[inline(always)]
fn run_page<W: Observer>(
    pc: &mut Cursor,
    cpu: &mut Cpu,
    memory: &GuestMemory,
    held: &Reservations,
    tid: Tid,
    first: Addr,
    code: &[Decoded],
    row: &mut StepRow,
    observer: &mut W,
) -> Paused
    requires first { first % 4096 ≡ 0 }
    requires whole { length code.now ≡ 1024 }
    requires code { IsCodeFrom (memory_of memory.now) first code.now }
    requires run { MayRun W.stands (W.fits observer.old) tid row.old
        (exec_state_of (with_pc pc.old cpu.old) memory.now held.now) observer.old }
    ensures runs { RunsOn W.stands (W.fits observer.old) tid
        row.old (exec_state_of (with_pc pc.old cpu.old) memory.now held.now) observer.old
        row.new (exec_state_of (with_pc pc.new cpu.new) memory.now held.now) observer.new
        (answer_of result) }
    ensures next { IsPaused (memory_of memory.now) pc.new row.new result }
    ensures went { result ≡ Paused.Went → row.new.left ≤ row.new.plain }
    ensures grows { row.old.told + row.old.plain ≤ row.new.told + row.new.plain }
    ensures same { W.fits observer.new ≡ W.fits observer.old }
{
    'steps: while row.goes_on() {
        let Some(word) = pc.word_from(first) else {
            return Paused::Elsewhere;
        };
        let Some(decoded) = find_word(first, code, word) else {
            return Paused::Elsewhere;
        };
        if execute_plain(pc, cpu, decoded) {
            row.pass();
            continue;
        }
        match run_decoded(pc, cpu, memory, tid, &decoded, row, observer) {
            Paused::Went => {}
            Paused::Refused => return Paused::Refused,
            Paused::Store {
                kind,
                value,
                base,
                offset,
            } => {
                return Paused::Store {
                    kind,
                    value,
                    base,
                    offset,
                };
            }
            Paused::Elsewhere => return Paused::Elsewhere,
            Paused::Stops => return Paused::Stops,
            Paused::OutOfMemory => return Paused::OutOfMemory,
        }
    }
    Paused::Went
}

// Makes the steps of a row that lie in the page of code at the place, as long as they can't write.
#[inline(always)]
fn run_page_at<W: Observer>(
    cpu: &mut Cpu,
    memory: &GuestMemory,
    held: &Reservations,
    tid: Tid,
    place: usize,
    row: &mut StepRow,
    observer: &mut W,
) -> Paused
    requires run { MayRun W.stands (W.fits observer.old) tid row.old
        (exec_state_of cpu.old memory.now held.now) observer.old }
    requires within { row.old.plain < row.old.left }
    ensures runs { RunsOn W.stands (W.fits observer.old) tid
        row.old (exec_state_of cpu.old memory.now held.now) observer.old
        row.new (exec_state_of cpu.new memory.now held.now) observer.new (answer_of result) }
    ensures next { IsPaused (memory_of memory.now) cpu.new.pc row.new result }
    ensures went { result ≡ Paused.Went → row.new.left ≤ row.new.plain }
    ensures grows { row.old.told + row.old.plain ≤ row.new.told + row.new.plain }
    ensures same { W.fits observer.new ≡ W.fits observer.old }
{
    let Some(page) = memory.code_page(place) else {
        return Paused::Elsewhere;
    };
    let (first, code) = page.parts();
    let mut pc = Cursor::new(first, cpu.pc);
    let answer = run_page(&mut pc, cpu, memory, held, tid, first, code, row, observer);
    cpu.pc = pc.address();
    answer
}

// Counts a step of a row, if one was made.
#[inline(always)]
fn count_next<W: Observer>(
    row: &mut StepRow,
    tid: Tid,
    next: Option<Advanced>,
    observer: &mut W,
) -> Further
    requires step { MayCount W.stands (W.fits observer.old) tid row.old next observer.old }
    requires within { row.old.plain < row.old.left }
    ensures counts { Counts W.stands (W.fits observer.old) tid row.old next observer.old
        row.new observer.new (further_of result) }
    ensures grows { result ≡ Further.Went
        → row.old.told + row.old.plain < row.new.told + row.new.plain }
    ensures same { W.fits observer.new ≡ W.fits observer.old }
{
    match next {
        None => Further::Stopped,
        Some(Advanced::Ran) => {
            row.pass();
            Further::Went
        }
        Some(acted) => match hand_step(row, tid, acted, observer) {
            Answer::Taken => Further::Went,
            Answer::Refused => Further::Refused,
            Answer::OutOfMemory => Further::OutOfMemory,
        },
    }
}

// Makes the next step of a row, which is a store.
#[inline(always)]
fn run_store<W: Observer>(
    cpu: &mut Cpu,
    memory: &mut GuestMemory,
    held: &mut Reservations,
    tid: Tid,
    kind: StoreKind,
    value: Reg,
    base: Reg,
    offset: i32,
    row: &mut StepRow,
    observer: &mut W,
) -> Further
    requires known { IsInstructionAt (memory_of memory.old) cpu.old.pc (Store kind value base offset) }
    requires run { MayRun W.stands (W.fits observer.old) tid row.old
        (exec_state_of cpu.old memory.old held.old) observer.old }
    requires within { row.old.plain < row.old.left }
    ensures runs { RunsOn W.stands (W.fits observer.old) tid
        row.old (exec_state_of cpu.old memory.old held.old) observer.old
        row.new (exec_state_of cpu.new memory.new held.new) observer.new (further_of result) }
    ensures grows { result ≡ Further.Went
        → row.old.told + row.old.plain < row.new.told + row.new.plain }
    ensures same { W.fits observer.new ≡ W.fits observer.old }
{
    match try_store(
        cpu, memory, held, tid, kind, value, base, offset, row, observer,
    ) {
        Tried::Taken => return Further::Went,
        Tried::Refused => return Further::Refused,
        Tried::OutOfMemory => return Further::OutOfMemory,
        Tried::Declined => {}
    }
    let steps = row.due();
    let made = make_store(
        cpu, memory, held, tid, kind, value, base, offset, steps, observer,
    );
    count_made(row, made)
}

// Makes the next steps of a row: those within the page of code at the place, and one more if there are none or if it may write.
#[inline(always)]
fn run_further<W: Observer>(
    cpu: &mut Cpu,
    memory: &mut GuestMemory,
    held: &mut Reservations,
    tid: Tid,
    place: &mut usize,
    row: &mut StepRow,
    observer: &mut W,
) -> Further
    requires run { MayRun W.stands (W.fits observer.old) tid row.old
        (exec_state_of cpu.old memory.old held.old) observer.old }
    requires within { row.old.plain < row.old.left }
    ensures runs { RunsOn W.stands (W.fits observer.old) tid
        row.old (exec_state_of cpu.old memory.old held.old) observer.old
        row.new (exec_state_of cpu.new memory.new held.new) observer.new (further_of result) }
    ensures grows { result ≡ Further.Went
        → row.old.told + row.old.plain < row.new.told + row.new.plain }
    ensures same { W.fits observer.new ≡ W.fits observer.old }
{
    let before = row.made();
    match run_page_at(cpu, memory, held, tid, *place, row, observer) {
        Paused::Went => Further::Went,
        Paused::Refused => Further::Refused,
        Paused::Stops => Further::Stopped,
        Paused::OutOfMemory => Further::OutOfMemory,
        Paused::Store {
            kind,
            value,
            base,
            offset,
        } => run_store(
            cpu, memory, held, tid, kind, value, base, offset, row, observer,
        ),
        Paused::Elsewhere => {
            // it goes on in another page, whose code is mostly known
            if row.made() > before {
                *place = memory.code_place(cpu.pc);
                return Further::Went;
            }
            match carry_out_next(cpu, memory, held, tid, place) {
                Ok(next) => count_next(row, tid, next, observer),
                Err(_) => Further::OutOfMemory,
            }
        }
    }
}

/// Makes at most `most` steps of a thread, whose registers these are, while their instructions are known or can be learned and
/// the observer takes their events. It says how many were made, and what became of the events of the last. The time is left to
/// the caller.
pub(crate) fn run_on<W: Observer>(
    cpu: &mut Cpu,
    memory: &mut GuestMemory,
    held: &mut Reservations,
    tid: Tid,
    most: u64,
    observer: &mut W,
) -> (u64, Result<Observed, AllocError>)
    requires { MayCarry W.stands (W.fits observer.old) observer.old
        (exec_state_of cpu.old memory.old held.old) tid most }
    ensures carried { (m : MachineState) → IsStateOf (exec_state_of cpu.old memory.old held.old) tid m
        → Carries m tid (exec_state_of cpu.new memory.new held.new) result.0 }
    ensures observed { IfOk result.1 (ObservesFrom W.stands (W.fits observer.old)
        (exec_state_of cpu.old memory.old held.old) tid observer.old observer.new result.0) }
    ensures most { result.0 ≤ most }
    ensures same { W.fits observer.new ≡ W.fits observer.old }
{
    let mut place = 0;
    let mut row = StepRow::new(most);
    'steps: while row.goes_on() {
        match run_further(cpu, memory, held, tid, &mut place, &mut row, observer) {
            Further::Went => {}
            Further::Stopped => {
                return (row.made(), observe_plain(tid, row.plain(), observer));
            }
            Further::Refused => return (row.told(), Ok(Observed::Refused)),
            Further::OutOfMemory => return (row.made(), Err(AllocError)),
        }
    }
    (row.made(), observe_plain(tid, row.plain(), observer))
}

// Hands out `steps` steps of a thread, which may be none.
#[inline(never)]
fn observe_plain<W: Observer>(
    tid: Tid,
    steps: u64,
    observer: &mut W,
) -> Result<Observed, AllocError>
    requires { 1 ≤ steps → MayTakeAll W.stands (W.fits observer.old) observer.old (steps_of tid steps) }
    ensures taken { IfOk result (λ observed. observed ≡ Taken) }
    ensures observed { OnOk result (ObservesAll W.stands (W.fits observer.old)
        (steps_of tid steps) observer.old observer.new Taken) }
    ensures same { W.fits observer.new ≡ W.fits observer.old }
{
    if steps > 0 {
        observer.observe_steps(tid, steps)?;
    }
    Ok(Observed::Taken)
}
