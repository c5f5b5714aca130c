//! Lines of a program: instructions, and jumps to labels.
ghost use Rattle.std.specs.Prelude.{◌≡◌};
ghost use Rattle.rv_asm.specs.Lines.{is_jump, with_offset};

use rv_isa::Instr;

/// A line of a program: an instruction, and the label that it jumps to, if its offset is that label's.
#[derive(Clone, Copy)]
pub(crate) struct Line {
    pub(crate) instruction: Instr,
    pub(crate) to: Option<u32>,
}

/// Whether an instruction jumps by an offset.
pub(crate) fn is_jump(instruction: &Instr) -> bool
    ensures { result ≡ is_jump instruction.now }
{
    matches!(*instruction, Instr::Jal { .. } | Instr::Branch { .. })
}

/// A jump with another offset.
pub(crate) fn with_offset(instruction: Instr, offset: i32) -> Instr
    ensures { result ≡ with_offset instruction offset }
{
    match instruction {
        Instr::Jal { rd, offset: _ } => Instr::Jal { rd, offset },
        Instr::Branch {
            test,
            left,
            right,
            offset: _,
        } => Instr::Branch {
            test,
            left,
            right,
            offset,
        },
        other => other,
    }
}
