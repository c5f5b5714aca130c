//! What the operations compute, as in specs/Operations.antt.
ghost use Rattle.std.specs.Prelude.{◌≡◌};
ghost use Rattle.rv_exec.specs.Operations.{register_result, immediate_result, is_taken, add_offset, signed};
ghost use Rattle.rv_isa.specs.declared.instruction.RegOp.{RegOp};

use rv_isa::{ImmOp, RegOp, Test};

/// What the operation writes to its destination.
#[inline(always)]
pub fn register_result(op: RegOp, left: u32, right: u32) -> u32
    ensures { result ≡ register_result op left right }
{
    match op {
        RegOp::Add => left.wrapping_add(right),
        RegOp::Sub => left.wrapping_sub(right),
        RegOp::Sll => left.wrapping_shl(right),
        RegOp::Slt => u32::from(signed(left) < signed(right)),
        RegOp::Sltu => u32::from(left < right),
        RegOp::Xor => left ^ right,
        RegOp::Srl => left.wrapping_shr(right),
        RegOp::Sra => signed(left).wrapping_shr(right).cast_unsigned(),
        RegOp::Or => left | right,
        RegOp::And => left & right,
        RegOp::Mul => left.wrapping_mul(right),
        RegOp::Mulh => upper_signed(left, right),
        RegOp::Mulhsu => upper_signed_unsigned(left, right),
        RegOp::Mulhu => ((u64::from(left) * u64::from(right)) >> 32) as u32,
        RegOp::Div => quotient(left, right),
        RegOp::Divu => left.checked_div(right).unwrap_or(u32::MAX),
        RegOp::Rem => remainder(left, right),
        RegOp::Remu => left.checked_rem(right).unwrap_or(left),
    }
}

// The upper 32 bits of the product of two signed numbers.
fn upper_signed(left: u32, right: u32) -> u32
    ensures { result ≡ register_result RegOp.Mulh left right }
{
    let product = i64::from(signed(left)) * i64::from(signed(right));
    (product.cast_unsigned() >> 32) as u32
}

// The upper 32 bits of the product of a signed and an unsigned number.
fn upper_signed_unsigned(left: u32, right: u32) -> u32
    ensures { result ≡ register_result RegOp.Mulhsu left right }
{
    let product = i64::from(signed(left)) * i64::from(right);
    (product.cast_unsigned() >> 32) as u32
}

// The signed quotient, and all ones over zero.
#[inline(never)]
fn quotient(left: u32, right: u32) -> u32
    ensures { result ≡ register_result RegOp.Div left right }
{
    if right == 0 {
        return u32::MAX;
    }
    signed(left).wrapping_div(signed(right)).cast_unsigned()
}

// The signed remainder, and the left number over zero.
#[inline(never)]
fn remainder(left: u32, right: u32) -> u32
    ensures { result ≡ register_result RegOp.Rem left right }
{
    if right == 0 {
        return left;
    }
    signed(left).wrapping_rem(signed(right)).cast_unsigned()
}

/// What the operation on a register and an immediate writes.
#[inline(always)]
pub fn immediate_result(op: ImmOp, left: u32, imm: i32) -> u32
    ensures { result ≡ immediate_result op left imm }
{
    let op = match op {
        ImmOp::Addi => RegOp::Add,
        ImmOp::Slti => RegOp::Slt,
        ImmOp::Sltiu => RegOp::Sltu,
        ImmOp::Xori => RegOp::Xor,
        ImmOp::Ori => RegOp::Or,
        ImmOp::Andi => RegOp::And,
        ImmOp::Slli => RegOp::Sll,
        ImmOp::Srli => RegOp::Srl,
        ImmOp::Srai => RegOp::Sra,
    };
    register_result(op, left, imm.cast_unsigned())
}

/// Whether a branch is taken.
#[inline(always)]
pub fn is_taken(test: Test, left: u32, right: u32) -> bool
    ensures { result ≡ is_taken test left right }
{
    match test {
        Test::Eq => left == right,
        Test::Ne => left != right,
        Test::Lt => signed(left) < signed(right),
        Test::Ge => signed(left) >= signed(right),
        Test::Ltu => left < right,
        Test::Geu => left >= right,
    }
}

/// An address and a signed offset, modulo 2 ^ 32.
#[inline(always)]
pub fn add_offset(at: u32, offset: i32) -> u32
    ensures { result ≡ add_offset at offset }
{
    at.wrapping_add_signed(offset)
}

/// The number that the bits stand for in two's complement.
#[inline(always)]
pub fn signed(n: u32) -> i32
    ensures { result ≡ signed n }
{
    n.cast_signed()
}
