//! The code of the demo.
ghost use Rattle.std.specs.Prelude.{◌≡◌, ℕ, ◌≤◌, ◌<◌, ◌+◌, ◌*◌, ◌^◌, ◌++◌, [], length, map, pos, None, Some, IfOk, OnOk, All};
ghost use Rattle.std.specs.List.{AllByRecursion, flat_map, range_with_len};
ghost use Rattle.rv_isa.specs.Table.{decoded};
ghost use Rattle.rv_isa.specs.declared.instruction.ImmOp.TheVariants.{Addi};
ghost use Rattle.rv_isa.specs.declared.instruction.Instr.TheVariants.{Immediate, Jal};
ghost use Rattle.rv_asm.specs.Assembled.{binding_of};
ghost use Rattle.demo_guest.specs.Guest.{ending, instructions, load};
ghost use Rattle.demo_guest.specs.Private.Drafts.{call_lines, lines, plain, routine_lines, start_lines};
ghost use Rattle.demo_guest.specs.Private.Drafts.{AreBound, AreRoutines, IsStarted};
ghost use Rattle.rv_asm.specs.declared.limits.TheConstants.{PROGRAM_LINES};

use crate::program::{bind, emit, emit_all, finish, jump, label};
use guest_words::limits::DEMO_ROUTINES;
use rv_asm::{Builder, Code, Label};
use rv_isa::{ImmOp, Instr, LoadKind, Reg, StoreKind, Test};
use std::alloc::{AllocError, Global};

// The register of a number.
fn x(n: u8) -> Reg
    requires { n < 32 }
    ensures number { result ≡ n }
{
    Reg::new(n).unwrap()
}

// The sum of a register and a number.
fn addi(rd: u8, left: u8, imm: i32) -> Instr
    requires { (rd < 32) × (left < 32) }
    ensures sum { result ≡ Immediate Addi rd left imm }
{
    Instr::Immediate {
        op: ImmOp::Addi,
        rd: x(rd),
        left: x(left),
        imm,
    }
}

// A jump to a label, which sets the register of this number to the address behind it.
fn jal(rd: u8) -> Instr
    requires { rd < 32 }
    ensures call { result ≡ Jal rd (pos 0) }
{
    Instr::Jal {
        rd: x(rd),
        offset: 0,
    }
}

// Appends the start of a thread. The new one runs on in a loop, and the old one at the first call.
fn emit_start(program: &mut Builder, main: Label, worker: Label) -> Result<(), AllocError>
    requires labels { (main ≡ 0) × (worker ≡ 1) × (2 ≤ length program.old.bindings) }
    requires no_line { program.old.lines ≡ [] }
    requires unbound { (k : ℕ) → binding_of program.old.bindings k ≡ None }
    ensures lines { OnOk result (program.new.lines ≡ start_lines) }
    ensures bindings { OnOk result (IsStarted program.old.bindings program.new.bindings) }
{
    let start = [
        addi(6, 2, -1024),
        Instr::Lui { rd: x(10), imm: 17 },
        addi(10, 10, -1792),
        addi(17, 0, 220),
        Instr::Ecall,
        addi(17, 0, 124),
    ];
    emit_all(program, &start)?;
    let bne = Instr::Branch {
        test: Test::Ne,
        left: x(10),
        right: x(0),
        offset: 0,
    };
    jump(program, bne, main)?;
    bind(program, worker);
    let write = Instr::Store {
        kind: StoreKind::Sw,
        value: x(0),
        base: x(6),
        offset: 0,
    };
    emit(program, write)?;
    emit(program, Instr::Ecall)?;
    jump(program, jal(0), worker)?;
    bind(program, main);
    Ok(())
}

// Appends a call of the routine of each label. Behind each call it is the other thread's turn.
fn emit_calls(program: &mut Builder, labels: &[Label]) -> Result<(), AllocError>
    requires room { length program.old.lines + 2 * length labels.now ≤ PROGRAM_LINES }
    requires labels { All (λ label. label < length program.old.bindings) labels.now }
    ensures lines { OnOk result (program.new.lines
        ≡ program.old.lines ++ flat_map call_lines labels.now) }
    ensures bindings { OnOk result (program.new.bindings ≡ program.old.bindings) }
{
    for label in labels {
        jump(program, jal(1), *label)?;
        emit(program, Instr::Ecall)?;
    }
    Ok(())
}

// Appends the end of all threads.
fn emit_ending(program: &mut Builder) -> Result<(), AllocError>
    requires room { length program.old.lines + 3 ≤ PROGRAM_LINES }
    ensures lines { OnOk result (program.new.lines ≡ program.old.lines ++ map plain ending) }
    ensures bindings { OnOk result (program.new.bindings ≡ program.old.bindings) }
{
    emit_all(program, &[addi(10, 0, 0), addi(17, 0, 94), Instr::Ecall])
}

// The load of one of the words that routines read.
fn load(word: u32) -> Instr
    requires { word < 4 }
    ensures load { result ≡ load word }
{
    Instr::Load {
        kind: LoadKind::Lw,
        rd: x(7),
        base: x(6),
        offset: 4 * word as i32,
    }
}

// Appends a routine.
fn emit_routine(program: &mut Builder, routine: u32) -> Result<(), AllocError>
    requires room { length program.old.lines + 5 ≤ PROGRAM_LINES }
    ensures lines { OnOk result (program.new.lines ≡ program.old.lines ++ routine_lines routine) }
    ensures bindings { OnOk result (program.new.bindings ≡ program.old.bindings) }
{
    for k in 0..routine % 4 + 1 {
        emit(program, load(k))?;
    }
    let back = Instr::Jalr {
        rd: x(0),
        base: x(1),
        offset: 0,
    };
    emit(program, back)
}

// Appends the routines, each at its label.
fn emit_routines(program: &mut Builder, labels: &[Label]) -> Result<(), AllocError>
    requires few { length labels.now ≤ DEMO_ROUTINES }
    requires labels { labels.now ≡ range_with_len 2 (length labels.now) }
    requires begin { length program.old.lines ≡ 13 + 2 * length labels.now }
    requires bindings { length program.old.bindings ≡ 2 + length labels.now }
    requires unbound { (k : ℕ) → binding_of program.old.bindings (2 + k) ≡ None }
    ensures lines { OnOk result (program.new.lines
        ≡ program.old.lines ++ flat_map routine_lines (range_with_len 0 (length labels.now))) }
    ensures bound { OnOk result (AreRoutines (length labels.now)
        (length labels.now) program.new.bindings) }
    ensures main { OnOk result (binding_of program.new.bindings 0
        ≡ binding_of program.old.bindings 0) }
    ensures worker { OnOk result (binding_of program.new.bindings 1
        ≡ binding_of program.old.bindings 1) }
{
    for (routine, label) in labels.iter().enumerate() {
        bind(program, *label);
        emit_routine(program, routine as u32)?;
    }
    Ok(())
}

// Makes the labels of the routines.
fn routine_labels(
    alloc: Global,
    program: &mut Builder,
    routines: u32,
) -> Result<Vec<Label>, AllocError>
    requires few { routines ≤ DEMO_ROUTINES }
    requires two { length program.old.bindings ≡ 2 }
    requires unbound { (k : ℕ) → binding_of program.old.bindings k ≡ None }
    ensures labels { IfOk result (λ labels. labels.items ≡ range_with_len 2 routines) }
    ensures lines { OnOk result (program.new.lines ≡ program.old.lines) }
    ensures bindings { OnOk result (length program.new.bindings ≡ 2 + routines) }
    ensures unbound { OnOk result ((k : ℕ) → binding_of program.new.bindings k ≡ None) }
{
    let mut labels = Vec::new(alloc);
    for _ in 0..routines {
        labels.push(label(program)?)?;
    }
    Ok(labels)
}

fn demo_program(alloc: Global, routines: u32) -> Result<Builder, AllocError>
    requires { routines ≤ DEMO_ROUTINES }
    ensures lines { IfOk result (λ program. program.lines ≡ lines routines) }
    ensures bindings { IfOk result (λ program. AreBound routines program.bindings) }
{
    let mut program = Builder::new(alloc)?;
    let main = label(&mut program)?;
    let worker = label(&mut program)?;
    let labels = routine_labels(alloc, &mut program, routines)?;
    emit_start(&mut program, main, worker)?;
    emit_calls(&mut program, &labels)?;
    emit_ending(&mut program)?;
    emit_routines(&mut program, &labels)?;
    Ok(program)
}

/// The code of the demo with that many routines.
pub(crate) fn code(alloc: Global, routines: u32) -> Result<Code, AllocError>
    requires { routines ≤ DEMO_ROUTINES }
    ensures words { IfOk result (λ code. map decoded code ≡ map Some (instructions routines)) }
    ensures fit { IfOk result (λ code. AllByRecursion (λ word. word < 2 ^ 32) code) }
{
    finish(demo_program(alloc, routines)?)
}
