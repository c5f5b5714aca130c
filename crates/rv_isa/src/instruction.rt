//! The instructions of RV32IMA and FENCE.I as values.
use crate::register::Reg;

/// What a conditional branch asks of its two registers.
#[derive(Clone, Copy, PartialEq, Eq, Debug)]
pub enum Test {
    Eq,
    Ne,
    Lt,
    Ge,
    Ltu,
    Geu,
}

/// How many bytes a load reads, and how it extends them.
#[derive(Clone, Copy, PartialEq, Eq, Debug)]
pub enum LoadKind {
    Lb,
    Lh,
    Lw,
    Lbu,
    Lhu,
}

/// How many bytes a store writes.
#[derive(Clone, Copy, PartialEq, Eq, Debug)]
pub enum StoreKind {
    Sb,
    Sh,
    Sw,
}

/// The operations on a register and an immediate.
#[derive(Clone, Copy, PartialEq, Eq, Debug)]
pub enum ImmOp {
    Addi,
    Slti,
    Sltiu,
    Xori,
    Ori,
    Andi,
    Slli,
    Srli,
    Srai,
}

/// The operations on two registers.
#[derive(Clone, Copy, PartialEq, Eq, Debug)]
pub enum RegOp {
    Add,
    Sub,
    Sll,
    Slt,
    Sltu,
    Xor,
    Srl,
    Sra,
    Or,
    And,
    Mul,
    Mulh,
    Mulhsu,
    Mulhu,
    Div,
    Divu,
    Rem,
    Remu,
}

/// The atomic operations on a word of memory.
#[derive(Clone, Copy, PartialEq, Eq, Debug)]
pub enum AtomicOp {
    Lr,
    Sc,
    Swap,
    Add,
    Xor,
    And,
    Or,
    Min,
    Max,
    Minu,
    Maxu,
}

/// An instruction. Offsets are in bytes; offsets and immediates are sign-extended. The immediates of LUI
/// and AUIPC are the twenty bits as they stand in the word, and the amount of a shift by a constant is
/// its `imm`. An address is `base` plus `offset`, `left` and `right` are rs1 and
/// rs2, `value` is the register that is stored or operated with, and `order` is 2 for the bit `aq` plus
/// 1 for `rl`.
#[derive(Clone, Copy, PartialEq, Eq, Debug)]
pub enum Instr {
    Lui {
        rd: Reg,
        imm: u32,
    },
    Auipc {
        rd: Reg,
        imm: u32,
    },
    Jal {
        rd: Reg,
        offset: i32,
    },
    Jalr {
        rd: Reg,
        base: Reg,
        offset: i32,
    },
    Branch {
        test: Test,
        left: Reg,
        right: Reg,
        offset: i32,
    },
    Load {
        kind: LoadKind,
        rd: Reg,
        base: Reg,
        offset: i32,
    },
    Store {
        kind: StoreKind,
        value: Reg,
        base: Reg,
        offset: i32,
    },
    Immediate {
        op: ImmOp,
        rd: Reg,
        left: Reg,
        imm: i32,
    },
    Register {
        op: RegOp,
        rd: Reg,
        left: Reg,
        right: Reg,
    },
    Atomic {
        op: AtomicOp,
        rd: Reg,
        base: Reg,
        value: Reg,
        order: u8,
    },
    Fence,
    FenceI,
    Ecall,
    Ebreak,
}
