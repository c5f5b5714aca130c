//! From an instruction to its word.
ghost use Rattle.std.specs.Prelude.{◌≡◌, ◌+◌, ◌*◌, ◌^◌, ◌<◌, ◌↔◌, ℕ, Some, IsSome, IsTrue, IfSome};
ghost use Rattle.rv_isa.specs.Fields.{opcode, funct3, funct5, funct7, rs2};
ghost use Rattle.rv_isa.specs.Table.{decoded, i_type, s_type, b_type, r_type, atomic_type};
ghost use Rattle.rv_isa.specs.Encoding.{IsEncodable, IsImmediate, IsBranchOffset, IsJumpOffset, IsAmount, IsValueOf, IsOperand};
ghost use Rattle.rv_isa.specs.Private.Formats.{IsRWord, IsAtomicWord, IsIWord, IsShiftWord, IsSWord, IsBWord, IsUWord, IsJWord};

use crate::fields::bits;
use crate::instruction::{AtomicOp, ImmOp, Instr, LoadKind, RegOp, StoreKind, Test};
use crate::register::Reg;

/// The word of an instruction, where its fields are in range.
#[tactic(auto, using(crate::proofs::Rows::unparted))]
pub fn encode(i: Instr) -> Option<u32>
    ensures encodable { IsSome result ↔ IsEncodable i }
    ensures decoded { IfSome result (λ word. decoded word ≡ Some i) }
    // Of the words of a fence, these are written.
    ensures fence { i ≡ Instr.Fence → result ≡ Some 0x0FF0000F }
    ensures fence_i { i ≡ Instr.FenceI → result ≡ Some 0x0000100F }
{
    match i {
        Instr::Lui { rd, imm } => u_word(imm, rd, 0x37),
        Instr::Auipc { rd, imm } => u_word(imm, rd, 0x17),
        Instr::Jal { rd, offset } => j_word(offset, rd, 0x6F),
        Instr::Jalr { rd, base, offset } => i_word(offset, base, 0, rd, 0x67),
        Instr::Branch {
            test,
            left,
            right,
            offset,
        } => b_word(offset, right, left, branch_funct3(test), 0x63),
        Instr::Load {
            kind,
            rd,
            base,
            offset,
        } => i_word(offset, base, load_funct3(kind), rd, 0x03),
        Instr::Store {
            kind,
            value,
            base,
            offset,
        } => s_word(offset, value, base, store_funct3(kind), 0x23),
        Instr::Immediate { op, rd, left, imm } => immediate(op, rd, left, imm),
        Instr::Register {
            op,
            rd,
            left,
            right,
        } => Some(register(op, rd, left, right)),
        Instr::Atomic {
            op,
            rd,
            base,
            value,
            order,
        } => atomic(op, rd, base, value, order),
        Instr::Fence | Instr::FenceI | Instr::Ecall | Instr::Ebreak => fixed_word(i),
    }
}

// The word of an instruction that has no fields.
#[tactic(auto, using(crate::proofs::Rows::unparted))]
fn fixed_word(i: Instr) -> Option<u32>
    ensures decoded { IfSome result (λ word. decoded word ≡ Some i) }
    ensures fence { i ≡ Instr.Fence → result ≡ Some 0x0FF0000F }
    ensures fence_i { i ≡ Instr.FenceI → result ≡ Some 0x0000100F }
    ensures ecall { i ≡ Instr.Ecall → IsSome result }
    ensures ebreak { i ≡ Instr.Ebreak → IsSome result }
{
    match i {
        Instr::Fence => Some(0x0FF0_000F),
        Instr::FenceI => Some(0x0000_100F),
        Instr::Ecall => Some(0x0000_0073),
        Instr::Ebreak => Some(0x0010_0073),
        _ => None,
    }
}

// The word of the six fields that the format R has, from the topmost down.
fn word_of(funct7: u32, rs2: u32, rs1: u32, funct3: u32, rd: u32, opcode: u32) -> u32
    requires funct7 { funct7 < 2 ^ 7 }
    requires rs2 { rs2 < 2 ^ 5 }
    requires rs1 { rs1 < 2 ^ 5 }
    requires funct3 { funct3 < 2 ^ 3 }
    requires rd { rd < 2 ^ 5 }
    requires opcode { opcode < 2 ^ 7 }
    ensures sum { result
        ≡ funct7 * 2 ^ 25 + rs2 * 2 ^ 20 + rs1 * 2 ^ 15 + funct3 * 2 ^ 12 + rd * 2 ^ 7 + opcode }
{
    ((((funct7 << 5 | rs2) << 5 | rs1) << 3 | funct3) << 5 | rd) << 7 | opcode
}

// The field of a word that holds the number of a register.
fn field(register: Reg) -> u32
    ensures number { result ≡ register }
    ensures small { result < 2 ^ 5 }
{
    u32::from(register.number())
}

// A word of the format R.
fn r_word(funct7: u32, rs2: Reg, rs1: Reg, funct3: u32, rd: Reg, opcode: u32) -> u32
    requires funct7 { funct7 < 2 ^ 7 }
    requires funct3 { funct3 < 2 ^ 3 }
    requires opcode { opcode < 2 ^ 7 }
    ensures fields { IsRWord result funct7 rs2 rs1 funct3 rd opcode }
{
    word_of(funct7, field(rs2), field(rs1), funct3, field(rd), opcode)
}

// A word of the format I, where the immediate is in its range.
fn i_word(imm: i32, rs1: Reg, funct3: u32, rd: Reg, opcode: u32) -> Option<u32>
    requires funct3 { funct3 < 2 ^ 3 }
    requires opcode { opcode < 2 ^ 7 }
    ensures range { IsSome result ↔ IsImmediate imm }
    ensures word { IfSome result (λ word. IsIWord word imm rs1 funct3 rd opcode) }
{
    if imm < -2048 || imm > 2047 {
        return None;
    }
    let imm = imm.cast_unsigned();
    let (upper, lower) = (bits(imm, 11, 5), bits(imm, 4, 0));
    Some(word_of(upper, lower, field(rs1), funct3, field(rd), opcode))
}

// A word of the format S, where the immediate is in its range.
fn s_word(imm: i32, rs2: Reg, rs1: Reg, funct3: u32, opcode: u32) -> Option<u32>
    requires funct3 { funct3 < 2 ^ 3 }
    requires opcode { opcode < 2 ^ 7 }
    ensures range { IsSome result ↔ IsImmediate imm }
    ensures word { IfSome result (λ word. IsSWord word imm rs2 rs1 funct3 opcode) }
{
    if imm < -2048 || imm > 2047 {
        return None;
    }
    let imm = imm.cast_unsigned();
    let (upper, lower) = (bits(imm, 11, 5), bits(imm, 4, 0));
    Some(word_of(upper, field(rs2), field(rs1), funct3, lower, opcode))
}

// A word of the format B, where the offset is in its range.
fn b_word(imm: i32, rs2: Reg, rs1: Reg, funct3: u32, opcode: u32) -> Option<u32>
    requires funct3 { funct3 < 2 ^ 3 }
    requires opcode { opcode < 2 ^ 7 }
    ensures range { IsSome result ↔ IsBranchOffset imm }
    ensures word { IfSome result (λ word. IsBWord word imm rs2 rs1 funct3 opcode) }
{
    if imm < -4096 || imm > 4094 || imm % 2 != 0 {
        return None;
    }
    let imm = imm.cast_unsigned();
    let upper = bits(imm, 12, 12) << 6 | bits(imm, 10, 5);
    let lower = bits(imm, 4, 1) << 1 | bits(imm, 11, 11);
    Some(word_of(upper, field(rs2), field(rs1), funct3, lower, opcode))
}

// The word of the three fields that the formats U and J have.
fn upper_word(imm: u32, rd: Reg, opcode: u32) -> u32
    requires imm { imm < 2 ^ 20 }
    requires opcode { opcode < 2 ^ 7 }
    ensures sum { result ≡ imm * 2 ^ 12 + rd * 2 ^ 7 + opcode }
{
    (imm << 5 | field(rd)) << 7 | opcode
}

// A word of the format U, where the immediate is in its range.
fn u_word(imm: u32, rd: Reg, opcode: u32) -> Option<u32>
    requires { opcode < 2 ^ 7 }
    ensures range { IsSome result ↔ (imm < 2 ^ 20) }
    ensures word { IfSome result (λ word. IsUWord word imm rd opcode) }
{
    if imm < 1 << 20 {
        Some(upper_word(imm, rd, opcode))
    } else {
        None
    }
}

// A word of the format J, where the offset is in its range.
fn j_word(imm: i32, rd: Reg, opcode: u32) -> Option<u32>
    requires { opcode < 2 ^ 7 }
    ensures range { IsSome result ↔ IsJumpOffset imm }
    ensures word { IfSome result (λ word. IsJWord word imm rd opcode) }
{
    if imm < -1048576 || imm > 1048574 || imm % 2 != 0 {
        return None;
    }
    let imm = imm.cast_unsigned();
    let upper = bits(imm, 20, 20) << 10 | bits(imm, 10, 1);
    let lower = bits(imm, 11, 11) << 8 | bits(imm, 19, 12);
    Some(upper_word(upper << 9 | lower, rd, opcode))
}

// The funct3 of a branch.
#[tactic(auto, using(crate::proofs::Rows::branches, std::proofs::lemmas::Bool::Decides::nat_tests))]
fn branch_funct3(test: Test) -> u32
    ensures small { result < 2 ^ 3 }
    ensures row { (word : ℕ) → opcode word ≡ 0x63 → funct3 word ≡ result →
        decoded word ≡ Some (b_type (Instr.Branch test) word) }
{
    match test {
        Test::Eq => 0,
        Test::Ne => 1,
        Test::Lt => 4,
        Test::Ge => 5,
        Test::Ltu => 6,
        Test::Geu => 7,
    }
}

// The funct3 of a load.
#[tactic(auto, using(crate::proofs::Rows::loads, std::proofs::lemmas::Bool::Decides::nat_tests))]
fn load_funct3(kind: LoadKind) -> u32
    ensures small { result < 2 ^ 3 }
    ensures row { (word : ℕ) → opcode word ≡ 0x03 → funct3 word ≡ result →
        decoded word ≡ Some (i_type (Instr.Load kind) word) }
{
    match kind {
        LoadKind::Lb => 0,
        LoadKind::Lh => 1,
        LoadKind::Lw => 2,
        LoadKind::Lbu => 4,
        LoadKind::Lhu => 5,
    }
}

// The funct3 of a store.
#[tactic(auto, using(crate::proofs::Rows::stores, std::proofs::lemmas::Bool::Decides::nat_tests))]
fn store_funct3(kind: StoreKind) -> u32
    ensures small { result < 2 ^ 3 }
    ensures row { (word : ℕ) → opcode word ≡ 0x23 → funct3 word ≡ result →
        decoded word ≡ Some (s_type (Instr.Store kind) word) }
{
    match kind {
        StoreKind::Sb => 0,
        StoreKind::Sh => 1,
        StoreKind::Sw => 2,
    }
}

// The funct7 and the funct3 of an operation on two registers.
#[tactic(auto, using(crate::proofs::Rows::registers))]
fn register_functs(op: RegOp) -> (u32, u32)
    ensures small_funct7 { result.0 < 2 ^ 7 }
    ensures small_funct3 { result.1 < 2 ^ 3 }
    ensures row { (word : ℕ) → opcode word ≡ 0x33 → funct7 word ≡ result.0
        → funct3 word ≡ result.1 →
        decoded word ≡ Some (r_type (Instr.Register op) word) }
{
    match op {
        RegOp::Add => (0x00, 0),
        RegOp::Sub => (0x20, 0),
        RegOp::Sll => (0x00, 1),
        RegOp::Slt => (0x00, 2),
        RegOp::Sltu => (0x00, 3),
        RegOp::Xor => (0x00, 4),
        RegOp::Srl => (0x00, 5),
        RegOp::Sra => (0x20, 5),
        RegOp::Or => (0x00, 6),
        RegOp::And => (0x00, 7),
        RegOp::Mul => (0x01, 0),
        RegOp::Mulh => (0x01, 1),
        RegOp::Mulhsu => (0x01, 2),
        RegOp::Mulhu => (0x01, 3),
        RegOp::Div => (0x01, 4),
        RegOp::Divu => (0x01, 5),
        RegOp::Rem => (0x01, 6),
        RegOp::Remu => (0x01, 7),
    }
}

// The word of an operation on two registers.
fn register(op: RegOp, rd: Reg, left: Reg, right: Reg) -> u32
    ensures decoded { decoded result ≡ Some (Instr.Register op rd left right) }
{
    let (funct7, funct3) = register_functs(op);
    r_word(funct7, right, left, funct3, rd, 0x33)
}

// A word of the format R whose rs2 is a constant amount, where that is in its range.
fn shift_word(funct7: u32, amount: i32, rs1: Reg, funct3: u32, rd: Reg) -> Option<u32>
    requires funct7 { funct7 < 2 ^ 7 }
    requires funct3 { funct3 < 2 ^ 3 }
    ensures range { IsSome result ↔ IsAmount amount }
    ensures word { IfSome result (λ word. IsShiftWord word funct7 amount rs1 funct3 rd 0x13) }
{
    if amount < 0 || amount > 31 {
        return None;
    }
    let amount = amount.cast_unsigned();
    Some(word_of(funct7, amount, field(rs1), funct3, field(rd), 0x13))
}

// The word of an operation on a register and an immediate, where that is in its range.
#[tactic(auto, using(crate::proofs::Rows::all_immediates))]
fn immediate(op: ImmOp, rd: Reg, left: Reg, imm: i32) -> Option<u32>
    ensures range { IsSome result ↔ IsOperand op imm }
    ensures word { IfSome result (λ word. decoded word ≡ Some (Instr.Immediate op rd left imm)) }
{
    match op {
        ImmOp::Addi => i_word(imm, left, 0, rd, 0x13),
        ImmOp::Slti => i_word(imm, left, 2, rd, 0x13),
        ImmOp::Sltiu => i_word(imm, left, 3, rd, 0x13),
        ImmOp::Xori => i_word(imm, left, 4, rd, 0x13),
        ImmOp::Ori => i_word(imm, left, 6, rd, 0x13),
        ImmOp::Andi => i_word(imm, left, 7, rd, 0x13),
        ImmOp::Slli => shift_word(0x00, imm, left, 1, rd),
        ImmOp::Srli => shift_word(0x00, imm, left, 5, rd),
        ImmOp::Srai => shift_word(0x20, imm, left, 5, rd),
    }
}

// The funct5 of an atomic operation.
#[tactic(auto, using(crate::proofs::Rows::all_atomics))]
fn atomic_funct5(op: AtomicOp) -> u32
    ensures small { result < 2 ^ 5 }
    ensures row { (word value : ℕ) → opcode word ≡ 0x2F → funct3 word ≡ 2 → funct5 word ≡ result →
        rs2 word ≡ value → IsValueOf op value →
        decoded word ≡ Some (atomic_type (Instr.Atomic op) word) }
{
    match op {
        AtomicOp::Lr => 0b00010,
        AtomicOp::Sc => 0b00011,
        AtomicOp::Swap => 0b00001,
        AtomicOp::Add => 0b00000,
        AtomicOp::Xor => 0b00100,
        AtomicOp::And => 0b01100,
        AtomicOp::Or => 0b01000,
        AtomicOp::Min => 0b10000,
        AtomicOp::Max => 0b10100,
        AtomicOp::Minu => 0b11000,
        AtomicOp::Maxu => 0b11100,
    }
}

// Whether the operation can have this value register. LR has none, so that its field is x0.
fn is_value_of(op: AtomicOp, value: Reg) -> bool
    ensures value { IsTrue result ↔ IsValueOf op value }
{
    op != AtomicOp::Lr || value.number() == 0
}

// A word of the format R whose funct7 is a funct5 and the order.
fn atomic_word(funct5: u32, order: u32, rs2: Reg, rs1: Reg, rd: Reg) -> u32
    requires funct5 { funct5 < 2 ^ 5 }
    requires order { order < 2 ^ 2 }
    ensures fields { IsAtomicWord result funct5 order rs2 rs1 2 rd 0x2F }
{
    word_of(
        funct5 << 2 | order,
        field(rs2),
        field(rs1),
        2,
        field(rd),
        0x2F,
    )
}

// The word of an atomic operation, where its order and its value register are in their ranges.
fn atomic(op: AtomicOp, rd: Reg, base: Reg, value: Reg, order: u8) -> Option<u32>
    ensures range { IsSome result ↔ (order < 4) × IsValueOf op value }
    ensures word { IfSome result (λ word. decoded word
        ≡ Some (Instr.Atomic op rd base value order)) }
{
    if order > 3 || !is_value_of(op, value) {
        return None;
    }
    let funct5 = atomic_funct5(op);
    Some(atomic_word(funct5, u32::from(order), value, base, rd))
}
