//! Which jumps are calls and which are returns.
ghost use Rattle.std.specs.Prelude.{◌≡◌};
ghost use Rattle.call_tracker.specs.Links.{is_link, jalr_kind, kind_of};

use rv_isa::{Instr, Reg};

/// What an instruction does to the calls of its thread.
#[derive(Clone, Copy, Debug, PartialEq, Eq)]
pub enum JumpKind {
    /// Neither a call nor a return.
    Nothing,
    /// A call.
    Push,
    /// A return.
    Pop,
    /// A return, and then a call.
    PopPush,
}

// Whether the register holds return addresses.
#[inline(always)]
fn is_link(register: Reg) -> bool
    ensures { result ≡ is_link register }
{
    register.number() == 1 || register.number() == 5
}

/// What the instruction does, by its registers alone.
#[inline(always)]
pub fn kind(i: Instr) -> JumpKind
    ensures { result ≡ kind_of i }
{
    match i {
        Instr::Jal { rd, .. } => {
            if is_link(rd) {
                JumpKind::Push
            } else {
                JumpKind::Nothing
            }
        }
        Instr::Jalr { rd, base, .. } => jalr_kind(rd, base),
        _ => JumpKind::Nothing,
    }
}

// What JALR does: it goes to the address in `base`, and leaves its return address in `rd`.
#[inline(always)]
fn jalr_kind(rd: Reg, base: Reg) -> JumpKind
    ensures { result ≡ jalr_kind rd base }
{
    match (is_link(rd), is_link(base)) {
        (false, false) => JumpKind::Nothing,
        (false, true) => JumpKind::Pop,
        (true, false) => JumpKind::Push,
        (true, true) => {
            if rd.number() == base.number() {
                JumpKind::Push
            } else {
                JumpKind::PopPush
            }
        }
    }
}
