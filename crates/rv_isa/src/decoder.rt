//! From a word to its instruction.
ghost use Rattle.std.specs.Prelude.{◌≡◌, Some};
ghost use Rattle.rv_isa.specs.Fields.{opcode, funct3, funct5, funct7};
ghost use Rattle.rv_isa.specs.Table.{
  decoded,
  i_type,
  s_type,
  b_type,
  r_type,
  shift_type,
  atomic_type,
};

use crate::fields::{
    bits, destination, first_source, immediate_b, immediate_i, immediate_j, immediate_s,
    immediate_u, second_source,
};
use crate::instruction::{AtomicOp, ImmOp, Instr, LoadKind, RegOp, StoreKind, Test};

/// The instruction that `word` stands for, where it stands for one.
#[tactic(auto, using(crate::proofs::Rows::opcodes))]
pub fn decode(word: u32) -> Option<Instr>
    ensures instruction { result ≡ decoded word }
{
    match bits(word, 6, 0) {
        0x37 => Some(Instr::Lui {
            rd: destination(word),
            imm: immediate_u(word),
        }),
        0x17 => Some(Instr::Auipc {
            rd: destination(word),
            imm: immediate_u(word),
        }),
        0x6F => Some(Instr::Jal {
            rd: destination(word),
            offset: immediate_j(word),
        }),
        0x67 => jump_register(word),
        0x63 => branch(word),
        0x03 => load(word),
        0x23 => store(word),
        0x13 => immediate(word),
        0x33 => register(word),
        0x2F => atomic(word),
        0x0F => fence(word),
        0x73 => system(word),
        _ => None,
    }
}

// The words of the opcode JALR.
#[tactic(auto, using(crate::proofs::Rows::jumps, std::proofs::lemmas::Bool::Decides::nat_tests))]
fn jump_register(word: u32) -> Option<Instr>
    requires { opcode word ≡ 0x67 }
    ensures instruction { result ≡ decoded word }
{
    match bits(word, 14, 12) {
        0 => Some(Instr::Jalr {
            rd: destination(word),
            base: first_source(word),
            offset: immediate_i(word),
        }),
        _ => None,
    }
}

// The words of the opcode BRANCH: funct3 tells the test.
#[tactic(auto, using(crate::proofs::Rows::branches, std::proofs::lemmas::Bool::Decides::nat_tests))]
fn branch(word: u32) -> Option<Instr>
    requires { opcode word ≡ 0x63 }
    ensures instruction { result ≡ decoded word }
{
    match bits(word, 14, 12) {
        0 => Some(branch_on(Test::Eq, word)),
        1 => Some(branch_on(Test::Ne, word)),
        4 => Some(branch_on(Test::Lt, word)),
        5 => Some(branch_on(Test::Ge, word)),
        6 => Some(branch_on(Test::Ltu, word)),
        7 => Some(branch_on(Test::Geu, word)),
        _ => None,
    }
}

// A branch by its test: the B-type.
fn branch_on(test: Test, word: u32) -> Instr
    ensures instruction { result ≡ b_type (Instr.Branch test) word }
{
    Instr::Branch {
        test,
        left: first_source(word),
        right: second_source(word),
        offset: immediate_b(word),
    }
}

// The words of the opcode LOAD: funct3 tells the width and the extension.
#[tactic(auto, using(crate::proofs::Rows::loads, std::proofs::lemmas::Bool::Decides::nat_tests))]
fn load(word: u32) -> Option<Instr>
    requires { opcode word ≡ 0x03 }
    ensures instruction { result ≡ decoded word }
{
    match bits(word, 14, 12) {
        0 => Some(load_of(LoadKind::Lb, word)),
        1 => Some(load_of(LoadKind::Lh, word)),
        2 => Some(load_of(LoadKind::Lw, word)),
        4 => Some(load_of(LoadKind::Lbu, word)),
        5 => Some(load_of(LoadKind::Lhu, word)),
        _ => None,
    }
}

// A load by its kind: the I-type.
fn load_of(kind: LoadKind, word: u32) -> Instr
    ensures instruction { result ≡ i_type (Instr.Load kind) word }
{
    Instr::Load {
        kind,
        rd: destination(word),
        base: first_source(word),
        offset: immediate_i(word),
    }
}

// The words of the opcode STORE: funct3 tells the width.
#[tactic(auto, using(crate::proofs::Rows::stores, std::proofs::lemmas::Bool::Decides::nat_tests))]
fn store(word: u32) -> Option<Instr>
    requires { opcode word ≡ 0x23 }
    ensures instruction { result ≡ decoded word }
{
    match bits(word, 14, 12) {
        0 => Some(store_of(StoreKind::Sb, word)),
        1 => Some(store_of(StoreKind::Sh, word)),
        2 => Some(store_of(StoreKind::Sw, word)),
        _ => None,
    }
}

// A store by its kind: the S-type.
fn store_of(kind: StoreKind, word: u32) -> Instr
    ensures instruction { result ≡ s_type (Instr.Store kind) word }
{
    Instr::Store {
        kind,
        value: second_source(word),
        base: first_source(word),
        offset: immediate_s(word),
    }
}

// The words of the opcode OP-IMM: funct3 tells the operation.
#[tactic(auto, using(crate::proofs::Rows::immediates, std::proofs::lemmas::Bool::Decides::nat_tests))]
fn immediate(word: u32) -> Option<Instr>
    requires { opcode word ≡ 0x13 }
    ensures instruction { result ≡ decoded word }
{
    match bits(word, 14, 12) {
        0 => Some(with_immediate(ImmOp::Addi, word)),
        1 => shift_left(word),
        2 => Some(with_immediate(ImmOp::Slti, word)),
        3 => Some(with_immediate(ImmOp::Sltiu, word)),
        4 => Some(with_immediate(ImmOp::Xori, word)),
        5 => shift_right(word),
        6 => Some(with_immediate(ImmOp::Ori, word)),
        7 => Some(with_immediate(ImmOp::Andi, word)),
        _ => None,
    }
}

// An operation on a register and an immediate: the I-type.
fn with_immediate(op: ImmOp, word: u32) -> Instr
    ensures instruction { result ≡ i_type (Instr.Immediate op) word }
{
    Instr::Immediate {
        op,
        rd: destination(word),
        left: first_source(word),
        imm: immediate_i(word),
    }
}

// The shift to the left by an immediate. Its upper seven bits are 0.
#[tactic(auto, using(crate::proofs::Rows::left_shifts, std::proofs::lemmas::Bool::Decides::nat_tests))]
fn shift_left(word: u32) -> Option<Instr>
    requires operation { opcode word ≡ 0x13 }
    requires left { funct3 word ≡ 1 }
    ensures instruction { result ≡ decoded word }
{
    match bits(word, 31, 25) {
        0x00 => Some(shift_by(ImmOp::Slli, word)),
        _ => None,
    }
}

// The shifts to the right by an immediate: the upper seven bits tell the logical from the arithmetic one.
#[tactic(auto, using(crate::proofs::Rows::right_shifts, std::proofs::lemmas::Bool::Decides::nat_tests))]
fn shift_right(word: u32) -> Option<Instr>
    requires operation { opcode word ≡ 0x13 }
    requires right { funct3 word ≡ 5 }
    ensures instruction { result ≡ decoded word }
{
    match bits(word, 31, 25) {
        0x00 => Some(shift_by(ImmOp::Srli, word)),
        0x20 => Some(shift_by(ImmOp::Srai, word)),
        _ => None,
    }
}

// A shift by its amount, which stands where rs2 does in other words.
fn shift_by(op: ImmOp, word: u32) -> Instr
    ensures instruction { result ≡ shift_type (Instr.Immediate op) word }
{
    Instr::Immediate {
        op,
        rd: destination(word),
        left: first_source(word),
        imm: bits(word, 24, 20) as i32,
    }
}

// The words of the opcode OP: funct7 tells the group of operations.
#[tactic(auto, using(crate::proofs::Rows::no_registers, std::proofs::lemmas::Bool::Decides::nat_tests))]
fn register(word: u32) -> Option<Instr>
    requires { opcode word ≡ 0x33 }
    ensures instruction { result ≡ decoded word }
{
    match bits(word, 31, 25) {
        0x00 => integer_op(word),
        0x20 => alternate_op(word),
        0x01 => multiply(word),
        _ => None,
    }
}

// The operations of RV32I on two registers, but for those of `alternate_op`.
#[tactic(auto, using(crate::proofs::Rows::base_registers, std::proofs::lemmas::Bool::Decides::nat_tests))]
fn integer_op(word: u32) -> Option<Instr>
    requires operation { opcode word ≡ 0x33 }
    requires base { funct7 word ≡ 0x00 }
    ensures instruction { result ≡ decoded word }
{
    match bits(word, 14, 12) {
        0 => Some(on_registers(RegOp::Add, word)),
        1 => Some(on_registers(RegOp::Sll, word)),
        2 => Some(on_registers(RegOp::Slt, word)),
        3 => Some(on_registers(RegOp::Sltu, word)),
        4 => Some(on_registers(RegOp::Xor, word)),
        5 => Some(on_registers(RegOp::Srl, word)),
        6 => Some(on_registers(RegOp::Or, word)),
        7 => Some(on_registers(RegOp::And, word)),
        _ => None,
    }
}

// SUB and SRA, which differ from ADD and SRL in one bit of funct7.
#[tactic(auto, using(crate::proofs::Rows::alternate_registers, std::proofs::lemmas::Bool::Decides::nat_tests))]
fn alternate_op(word: u32) -> Option<Instr>
    requires operation { opcode word ≡ 0x33 }
    requires alternate { funct7 word ≡ 0x20 }
    ensures instruction { result ≡ decoded word }
{
    match bits(word, 14, 12) {
        0 => Some(on_registers(RegOp::Sub, word)),
        5 => Some(on_registers(RegOp::Sra, word)),
        _ => None,
    }
}

// The M extension: products, quotients and remainders.
#[tactic(auto, using(crate::proofs::Rows::multiplications, std::proofs::lemmas::Bool::Decides::nat_tests))]
fn multiply(word: u32) -> Option<Instr>
    requires operation { opcode word ≡ 0x33 }
    requires multiply { funct7 word ≡ 0x01 }
    ensures instruction { result ≡ decoded word }
{
    match bits(word, 14, 12) {
        0 => Some(on_registers(RegOp::Mul, word)),
        1 => Some(on_registers(RegOp::Mulh, word)),
        2 => Some(on_registers(RegOp::Mulhsu, word)),
        3 => Some(on_registers(RegOp::Mulhu, word)),
        4 => Some(on_registers(RegOp::Div, word)),
        5 => Some(on_registers(RegOp::Divu, word)),
        6 => Some(on_registers(RegOp::Rem, word)),
        7 => Some(on_registers(RegOp::Remu, word)),
        _ => None,
    }
}

// An operation on two registers: the R-type.
fn on_registers(op: RegOp, word: u32) -> Instr
    ensures instruction { result ≡ r_type (Instr.Register op) word }
{
    Instr::Register {
        op,
        rd: destination(word),
        left: first_source(word),
        right: second_source(word),
    }
}

// The words of the opcode AMO. RV32A has those of 32 bits alone.
#[tactic(auto, using(crate::proofs::Rows::no_atomics, std::proofs::lemmas::Bool::Decides::nat_tests))]
fn atomic(word: u32) -> Option<Instr>
    requires { opcode word ≡ 0x2F }
    ensures instruction { result ≡ decoded word }
{
    match bits(word, 14, 12) {
        2 => atomic_word(word),
        _ => None,
    }
}

// The A extension: funct5 tells the operation.
#[tactic(auto, using(crate::proofs::Rows::atomics, std::proofs::lemmas::Bool::Decides::nat_tests))]
fn atomic_word(word: u32) -> Option<Instr>
    requires operation { opcode word ≡ 0x2F }
    requires width { funct3 word ≡ 2 }
    ensures instruction { result ≡ decoded word }
{
    match bits(word, 31, 27) {
        0b00010 => load_reserved(word),
        0b00011 => Some(atomic_of(AtomicOp::Sc, word)),
        0b00001 => Some(atomic_of(AtomicOp::Swap, word)),
        0b00000 => Some(atomic_of(AtomicOp::Add, word)),
        0b00100 => Some(atomic_of(AtomicOp::Xor, word)),
        0b01100 => Some(atomic_of(AtomicOp::And, word)),
        0b01000 => Some(atomic_of(AtomicOp::Or, word)),
        0b10000 => Some(atomic_of(AtomicOp::Min, word)),
        0b10100 => Some(atomic_of(AtomicOp::Max, word)),
        0b11000 => Some(atomic_of(AtomicOp::Minu, word)),
        0b11100 => Some(atomic_of(AtomicOp::Maxu, word)),
        _ => None,
    }
}

// LR.W, which has no second source: that field is 0.
#[tactic(auto, using(crate::proofs::Rows::load_reservations, std::proofs::lemmas::Bool::Decides::nat_tests))]
fn load_reserved(word: u32) -> Option<Instr>
    requires operation { opcode word ≡ 0x2F }
    requires width { funct3 word ≡ 2 }
    requires reserved { funct5 word ≡ 0b00010 }
    ensures instruction { result ≡ decoded word }
{
    match bits(word, 24, 20) {
        0 => Some(atomic_of(AtomicOp::Lr, word)),
        _ => None,
    }
}

// An atomic operation, with its bits aq and rl.
fn atomic_of(op: AtomicOp, word: u32) -> Instr
    ensures instruction { result ≡ atomic_type (Instr.Atomic op) word }
{
    Instr::Atomic {
        op,
        rd: destination(word),
        base: first_source(word),
        value: second_source(word),
        order: bits(word, 26, 25) as u8,
    }
}

// The words of the opcode MISC-MEM: the other fields of a fence are ignored.
#[tactic(auto, using(crate::proofs::Rows::fences, std::proofs::lemmas::Bool::Decides::nat_tests))]
fn fence(word: u32) -> Option<Instr>
    requires { opcode word ≡ 0x0F }
    ensures instruction { result ≡ decoded word }
{
    match bits(word, 14, 12) {
        0 => Some(Instr::Fence),
        1 => Some(Instr::FenceI),
        _ => None,
    }
}

// The words of the opcode SYSTEM that are taken: ECALL and EBREAK.
#[tactic(auto, using(crate::proofs::Rows::environment, std::proofs::lemmas::Bool::Decides::nat_tests))]
fn system(word: u32) -> Option<Instr>
    requires { opcode word ≡ 0x73 }
    ensures instruction { result ≡ decoded word }
{
    match word {
        0x0000_0073 => Some(Instr::Ecall),
        0x0010_0073 => Some(Instr::Ebreak),
        _ => None,
    }
}
