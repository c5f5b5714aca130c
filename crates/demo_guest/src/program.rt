//! The steps of writing a program, which can fail only out of memory.
ghost use Rattle.std.specs.Prelude.{◌≡◌, ◌<◌, ◌≤◌, ◌+◌, ◌++◌, length, map, true, None, IfOk, OnOk, All};
ghost use Rattle.rv_isa.specs.Encoding.{IsEncodable};
ghost use Rattle.rv_asm.specs.Assembled.{binding_of, AreAssembled};
ghost use Rattle.rv_asm.specs.Lines.{is_jump};
ghost use Rattle.rv_asm.specs.Refusals.{IsAccepted};
ghost use Rattle.rv_asm.specs.Draft.{with_label, with_line, with_binding};
ghost use Rattle.demo_guest.specs.Private.Drafts.{jump, plain};
ghost use Rattle.rv_asm.specs.declared.limits.TheConstants.{PROGRAM_LINES};

use rv_asm::{AsmError, Builder, Code, Label};
use rv_isa::Instr;
use std::alloc::AllocError;

/// Appends an instruction that has a word.
pub(crate) fn emit(program: &mut Builder, instruction: Instr) -> Result<(), AllocError>
    requires room { length program.old.lines < PROGRAM_LINES }
    requires encodable { IsEncodable instruction }
    ensures line { OnOk result (program.new ≡ with_line program.old (plain instruction)) }
{
    match program.emit(instruction) {
        Ok(()) => Ok(()),
        Err(AsmError::Memory) => Err(AllocError),
        Err(_) => unreachable!(), // the instruction has a word
    }
}

/// Appends instructions that have words.
pub(crate) fn emit_all(program: &mut Builder, instructions: &[Instr]) -> Result<(), AllocError>
    requires room { length program.old.lines + length instructions.now ≤ PROGRAM_LINES }
    requires encodable { All IsEncodable instructions.now }
    ensures lines { OnOk result (program.new.lines
        ≡ program.old.lines ++ map plain instructions.now) }
    ensures bindings { OnOk result (program.new.bindings ≡ program.old.bindings) }
{
    for instruction in instructions {
        emit(program, *instruction)?;
    }
    Ok(())
}

/// Makes a label.
pub(crate) fn label(program: &mut Builder) -> Result<Label, AllocError>
    requires room { length program.old.bindings < PROGRAM_LINES }
    ensures made { OnOk result (program.new ≡ with_label program.old) }
    ensures number { IfOk result (λ label. label ≡ length program.old.bindings) }
{
    match program.label() {
        Ok(label) => Ok(label),
        Err(AsmError::Memory) => Err(AllocError),
        Err(_) => unreachable!(), // a label is refused only when out of memory
    }
}

/// Appends a jump to a label.
pub(crate) fn jump(program: &mut Builder, instruction: Instr, to: Label) -> Result<(), AllocError>
    requires room { length program.old.lines < PROGRAM_LINES }
    requires label { to < length program.old.bindings }
    requires jump { is_jump instruction ≡ true }
    ensures line { OnOk result (program.new ≡ with_line program.old (jump instruction to)) }
{
    match program.jump(instruction, to) {
        Ok(()) => Ok(()),
        Err(AsmError::Memory) => Err(AllocError),
        Err(_) => unreachable!(), // the instruction is a jump
    }
}

/// A label that is not bound stands for the next word from now on.
pub(crate) fn bind(program: &mut Builder, label: Label)
    requires label { label < length program.old.bindings }
    requires once { binding_of program.old.bindings label ≡ None }
    ensures bound { program.new ≡ with_binding program.old label }
{
    match program.bind(label) {
        Ok(()) => (),
        Err(_) => unreachable!(), // the label is not bound
    }
}

/// The words of a program whose jumps are all bound and in reach.
pub(crate) fn finish(program: Builder) -> Result<Code, AllocError>
    requires accepted { IsAccepted program }
    ensures words { IfOk result (AreAssembled program) }
{
    match program.finish() {
        Ok(code) => Ok(code),
        Err(AsmError::Memory) => Err(AllocError),
        Err(AsmError::Unbound { label: _ }) => unreachable!(), // each is bound
        Err(AsmError::Reach { at: _ }) => unreachable!(), // each is in reach
        // other calls are refused so
        Err(AsmError::Twice { label: _ } | AsmError::Unencodable { at: _ }) => unreachable!(),
    }
}
