//! From the lines of a program to its words.
ghost use Rattle.std.specs.Prelude.{◌≡◌, ◌≤◌, ◌↔◌, length, All, IfOk, IfErr, IfSome, IsSome, IsTrue, OnOk};
ghost use Rattle.rv_isa.specs.Encoding.{IsEncodable};
ghost use Rattle.rv_asm.specs.Assembled.{instruction_at, binding_of, AreAssembled, IsWordOf};
ghost use Rattle.rv_asm.specs.Draft.{IsBinding, IsWritable};
ghost use Rattle.rv_asm.specs.Refusals.{first_unbound, is_ready, AreInReach};
ghost use Rattle.rv_asm.specs.Private.Reach.{IsOutOfReach};
ghost use Rattle.rv_asm.specs.declared.limits.TheConstants.{PROGRAM_LINES};

use crate::error::AsmError;
use crate::line::{Line, with_offset};
use rv_isa::{Instr, encode};
use std::alloc::Global;

/// The word that a label is bound to, once it is.
pub(crate) fn binding_of(bindings: &[Option<u32>], label: u32) -> Option<u32>
    ensures binding { result ≡ binding_of bindings.now label }
{
    bindings.get(label as usize).copied().flatten()
}

// Whether a line needs no label, or one that is bound.
fn is_ready(to: Option<u32>, bindings: &[Option<u32>]) -> bool
    ensures { result ≡ is_ready bindings.now to }
{
    match to {
        None => true,
        Some(label) => binding_of(bindings, label).is_some(),
    }
}

/// The label of the first jump whose label is not bound.
pub(crate) fn first_unbound(lines: &[Line], bindings: &[Option<u32>]) -> Option<u32>
    ensures { result ≡ first_unbound bindings.now lines.now }
{
    for line in lines {
        if !is_ready(line.to, bindings) {
            return line.to;
        }
    }
    None
}

// The instruction of the line at a word, where each label stands for a word of the code or for its end.
fn instruction_at(line: Line, at: u32, bindings: &[Option<u32>]) -> Instr
    requires at { at ≤ PROGRAM_LINES }
    requires bindings { All IsBinding bindings.now }
    ensures { result ≡ instruction_at bindings.now at line }
{
    match line.to {
        None => line.instruction,
        Some(label) => {
            let to = binding_of(bindings, label).unwrap_or(0);
            with_offset(line.instruction, 4 * to as i32 - 4 * at as i32)
        }
    }
}

/// Whether an instruction has a word.
pub(crate) fn is_encodable(instruction: &Instr) -> bool
    ensures { IsTrue result ↔ IsEncodable instruction.now }
{
    encode(*instruction).is_some()
}

// The word of an instruction, where it has one.
fn word_of(instruction: Instr) -> Option<u32>
    ensures encodable { IsSome result ↔ IsEncodable instruction }
    ensures word { IfSome result (IsWordOf instruction) }
{
    encode(instruction)
}

/// The words of the lines, where each jump is in reach.
pub(crate) fn words_of(
    alloc: Global,
    lines: &[Line],
    bindings: &[Option<u32>],
) -> Result<Vec<u32>, AsmError>
    requires short { length lines.now ≤ PROGRAM_LINES }
    requires writable { All IsWritable lines.now }
    requires bindings { All IsBinding bindings.now }
    ensures words { IfOk result (λ words.
        AreAssembled (record { lines = lines.now; bindings = bindings.now }) words.items) }
    ensures reach { OnOk result (
        AreInReach (record { lines = lines.now; bindings = bindings.now }) (length lines.now)) }
    ensures refused { IfErr result (IsOutOfReach
        (record { lines = lines.now; bindings = bindings.now })) }
{
    let mut words = Vec::new(alloc);
    for (at, line) in lines.iter().enumerate() {
        let at = at as u32;
        let Some(word) = word_of(instruction_at(*line, at, bindings)) else {
            return Err(AsmError::Reach { at });
        };
        words.push(word)?;
    }
    Ok(words)
}
