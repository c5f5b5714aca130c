//! Code as a loop over it wants it: one choice for each operation.
ghost use Rattle.std.specs.Prelude.{◌≡◌, Some};
ghost use Rattle.guest_memory.specs.Code.{known_of};
ghost use Rattle.rv_isa.specs.declared.instruction.Instr.TheVariants.{Branch, Immediate, Load, Register, Store};

use guest_words::Addr;
use rv_isa::{AtomicOp, ImmOp, Instr, LoadKind, Reg, RegOp, StoreKind, Test};

/// What is known of a word of code: nothing, or its instruction. Each operation is a variant of its own, so that what an
/// instruction does is found by one jump. It takes 8 bytes.
#[derive(Clone, Copy)]
pub enum Decoded {
    Unknown,
    Lui {
        rd: Reg,
        imm: u32,
    },
    Auipc {
        rd: Reg,
        imm: u32,
    },
    Jal {
        rd: Reg,
        offset: i32,
    },
    Jalr {
        rd: Reg,
        base: Reg,
        offset: i32,
    },
    Beq {
        left: Reg,
        right: Reg,
        offset: i32,
    },
    Bne {
        left: Reg,
        right: Reg,
        offset: i32,
    },
    Blt {
        left: Reg,
        right: Reg,
        offset: i32,
    },
    Bge {
        left: Reg,
        right: Reg,
        offset: i32,
    },
    Bltu {
        left: Reg,
        right: Reg,
        offset: i32,
    },
    Bgeu {
        left: Reg,
        right: Reg,
        offset: i32,
    },
    Lb {
        rd: Reg,
        base: Reg,
        offset: i32,
    },
    Lh {
        rd: Reg,
        base: Reg,
        offset: i32,
    },
    Lw {
        rd: Reg,
        base: Reg,
        offset: i32,
    },
    Lbu {
        rd: Reg,
        base: Reg,
        offset: i32,
    },
    Lhu {
        rd: Reg,
        base: Reg,
        offset: i32,
    },
    Sb {
        value: Reg,
        base: Reg,
        offset: i32,
    },
    Sh {
        value: Reg,
        base: Reg,
        offset: i32,
    },
    Sw {
        value: Reg,
        base: Reg,
        offset: i32,
    },
    Addi {
        rd: Reg,
        left: Reg,
        imm: i32,
    },
    Slti {
        rd: Reg,
        left: Reg,
        imm: i32,
    },
    Sltiu {
        rd: Reg,
        left: Reg,
        imm: i32,
    },
    Xori {
        rd: Reg,
        left: Reg,
        imm: i32,
    },
    Ori {
        rd: Reg,
        left: Reg,
        imm: i32,
    },
    Andi {
        rd: Reg,
        left: Reg,
        imm: i32,
    },
    Slli {
        rd: Reg,
        left: Reg,
        imm: i32,
    },
    Srli {
        rd: Reg,
        left: Reg,
        imm: i32,
    },
    Srai {
        rd: Reg,
        left: Reg,
        imm: i32,
    },
    Add {
        rd: Reg,
        left: Reg,
        right: Reg,
    },
    Sub {
        rd: Reg,
        left: Reg,
        right: Reg,
    },
    Sll {
        rd: Reg,
        left: Reg,
        right: Reg,
    },
    Slt {
        rd: Reg,
        left: Reg,
        right: Reg,
    },
    Sltu {
        rd: Reg,
        left: Reg,
        right: Reg,
    },
    Xor {
        rd: Reg,
        left: Reg,
        right: Reg,
    },
    Srl {
        rd: Reg,
        left: Reg,
        right: Reg,
    },
    Sra {
        rd: Reg,
        left: Reg,
        right: Reg,
    },
    Or {
        rd: Reg,
        left: Reg,
        right: Reg,
    },
    And {
        rd: Reg,
        left: Reg,
        right: Reg,
    },
    Mul {
        rd: Reg,
        left: Reg,
        right: Reg,
    },
    Mulh {
        rd: Reg,
        left: Reg,
        right: Reg,
    },
    Mulhsu {
        rd: Reg,
        left: Reg,
        right: Reg,
    },
    Mulhu {
        rd: Reg,
        left: Reg,
        right: Reg,
    },
    Div {
        rd: Reg,
        left: Reg,
        right: Reg,
    },
    Divu {
        rd: Reg,
        left: Reg,
        right: Reg,
    },
    Rem {
        rd: Reg,
        left: Reg,
        right: Reg,
    },
    Remu {
        rd: Reg,
        left: Reg,
        right: Reg,
    },
    Atomic {
        op: AtomicOp,
        rd: Reg,
        base: Reg,
        value: Reg,
        order: u8,
    },
    Fence,
    FenceI,
    Ecall,
    Ebreak,
}

// A branch.
#[inline(always)]
fn branch(test: Test, left: Reg, right: Reg, offset: i32) -> Decoded
    ensures { known_of result ≡ Some (Branch test left right offset) }
{
    match test {
        Test::Eq => Decoded::Beq {
            left,
            right,
            offset,
        },
        Test::Ne => Decoded::Bne {
            left,
            right,
            offset,
        },
        Test::Lt => Decoded::Blt {
            left,
            right,
            offset,
        },
        Test::Ge => Decoded::Bge {
            left,
            right,
            offset,
        },
        Test::Ltu => Decoded::Bltu {
            left,
            right,
            offset,
        },
        Test::Geu => Decoded::Bgeu {
            left,
            right,
            offset,
        },
    }
}

// A load.
#[inline(always)]
fn load(kind: LoadKind, rd: Reg, base: Reg, offset: i32) -> Decoded
    ensures { known_of result ≡ Some (Load kind rd base offset) }
{
    match kind {
        LoadKind::Lb => Decoded::Lb { rd, base, offset },
        LoadKind::Lh => Decoded::Lh { rd, base, offset },
        LoadKind::Lw => Decoded::Lw { rd, base, offset },
        LoadKind::Lbu => Decoded::Lbu { rd, base, offset },
        LoadKind::Lhu => Decoded::Lhu { rd, base, offset },
    }
}

// A store.
#[inline(always)]
fn store(kind: StoreKind, value: Reg, base: Reg, offset: i32) -> Decoded
    ensures { known_of result ≡ Some (Store kind value base offset) }
{
    match kind {
        StoreKind::Sb => Decoded::Sb {
            value,
            base,
            offset,
        },
        StoreKind::Sh => Decoded::Sh {
            value,
            base,
            offset,
        },
        StoreKind::Sw => Decoded::Sw {
            value,
            base,
            offset,
        },
    }
}

// An operation on a register and an immediate.
#[inline(always)]
fn immediate(op: ImmOp, rd: Reg, left: Reg, imm: i32) -> Decoded
    ensures { known_of result ≡ Some (Immediate op rd left imm) }
{
    match op {
        ImmOp::Addi => Decoded::Addi { rd, left, imm },
        ImmOp::Slti => Decoded::Slti { rd, left, imm },
        ImmOp::Sltiu => Decoded::Sltiu { rd, left, imm },
        ImmOp::Xori => Decoded::Xori { rd, left, imm },
        ImmOp::Ori => Decoded::Ori { rd, left, imm },
        ImmOp::Andi => Decoded::Andi { rd, left, imm },
        ImmOp::Slli => Decoded::Slli { rd, left, imm },
        ImmOp::Srli => Decoded::Srli { rd, left, imm },
        ImmOp::Srai => Decoded::Srai { rd, left, imm },
    }
}

// An operation on two registers.
#[inline(always)]
fn register(op: RegOp, rd: Reg, left: Reg, right: Reg) -> Decoded
    ensures { known_of result ≡ Some (Register op rd left right) }
{
    match op {
        RegOp::Add => Decoded::Add { rd, left, right },
        RegOp::Sub => Decoded::Sub { rd, left, right },
        RegOp::Sll => Decoded::Sll { rd, left, right },
        RegOp::Slt => Decoded::Slt { rd, left, right },
        RegOp::Sltu => Decoded::Sltu { rd, left, right },
        RegOp::Xor => Decoded::Xor { rd, left, right },
        RegOp::Srl => Decoded::Srl { rd, left, right },
        RegOp::Sra => Decoded::Sra { rd, left, right },
        RegOp::Or => Decoded::Or { rd, left, right },
        RegOp::And => Decoded::And { rd, left, right },
        RegOp::Mul => Decoded::Mul { rd, left, right },
        RegOp::Mulh => Decoded::Mulh { rd, left, right },
        RegOp::Mulhsu => Decoded::Mulhsu { rd, left, right },
        RegOp::Mulhu => Decoded::Mulhu { rd, left, right },
        RegOp::Div => Decoded::Div { rd, left, right },
        RegOp::Divu => Decoded::Divu { rd, left, right },
        RegOp::Rem => Decoded::Rem { rd, left, right },
        RegOp::Remu => Decoded::Remu { rd, left, right },
    }
}

impl Decoded {
    /// An instruction.
    pub fn of(i: Instr) -> Decoded
        ensures { known_of result ≡ Some i }
    {
        match i {
            Instr::Lui { rd, imm } => Decoded::Lui { rd, imm },
            Instr::Auipc { rd, imm } => Decoded::Auipc { rd, imm },
            Instr::Jal { rd, offset } => Decoded::Jal { rd, offset },
            Instr::Jalr { rd, base, offset } => Decoded::Jalr { rd, base, offset },
            Instr::Branch {
                test,
                left,
                right,
                offset,
            } => branch(test, left, right, offset),
            Instr::Load {
                kind,
                rd,
                base,
                offset,
            } => load(kind, rd, base, offset),
            Instr::Store {
                kind,
                value,
                base,
                offset,
            } => store(kind, value, base, offset),
            Instr::Immediate { op, rd, left, imm } => immediate(op, rd, left, imm),
            Instr::Register {
                op,
                rd,
                left,
                right,
            } => register(op, rd, left, right),
            Instr::Atomic {
                op,
                rd,
                base,
                value,
                order,
            } => Decoded::Atomic {
                op,
                rd,
                base,
                value,
                order,
            },
            Instr::Fence => Decoded::Fence,
            Instr::FenceI => Decoded::FenceI,
            Instr::Ecall => Decoded::Ecall,
            Instr::Ebreak => Decoded::Ebreak,
        }
    }

    /// The instruction, where it is known.
    #[inline(always)]
    pub fn instruction(&self) -> Option<Instr>
        ensures { result ≡ known_of self.now }
    {
        let known = match *self {
            Decoded::Unknown => return None,
            Decoded::Lui { rd, imm } => Instr::Lui { rd, imm },
            Decoded::Auipc { rd, imm } => Instr::Auipc { rd, imm },
            Decoded::Jal { rd, offset } => Instr::Jal { rd, offset },
            Decoded::Jalr { rd, base, offset } => Instr::Jalr { rd, base, offset },
            Decoded::Beq {
                left,
                right,
                offset,
            } => Instr::Branch {
                test: Test::Eq,
                left,
                right,
                offset,
            },
            Decoded::Bne {
                left,
                right,
                offset,
            } => Instr::Branch {
                test: Test::Ne,
                left,
                right,
                offset,
            },
            Decoded::Blt {
                left,
                right,
                offset,
            } => Instr::Branch {
                test: Test::Lt,
                left,
                right,
                offset,
            },
            Decoded::Bge {
                left,
                right,
                offset,
            } => Instr::Branch {
                test: Test::Ge,
                left,
                right,
                offset,
            },
            Decoded::Bltu {
                left,
                right,
                offset,
            } => Instr::Branch {
                test: Test::Ltu,
                left,
                right,
                offset,
            },
            Decoded::Bgeu {
                left,
                right,
                offset,
            } => Instr::Branch {
                test: Test::Geu,
                left,
                right,
                offset,
            },
            Decoded::Lb { rd, base, offset } => Instr::Load {
                kind: LoadKind::Lb,
                rd,
                base,
                offset,
            },
            Decoded::Lh { rd, base, offset } => Instr::Load {
                kind: LoadKind::Lh,
                rd,
                base,
                offset,
            },
            Decoded::Lw { rd, base, offset } => Instr::Load {
                kind: LoadKind::Lw,
                rd,
                base,
                offset,
            },
            Decoded::Lbu { rd, base, offset } => Instr::Load {
                kind: LoadKind::Lbu,
                rd,
                base,
                offset,
            },
            Decoded::Lhu { rd, base, offset } => Instr::Load {
                kind: LoadKind::Lhu,
                rd,
                base,
                offset,
            },
            Decoded::Sb {
                value,
                base,
                offset,
            } => Instr::Store {
                kind: StoreKind::Sb,
                value,
                base,
                offset,
            },
            Decoded::Sh {
                value,
                base,
                offset,
            } => Instr::Store {
                kind: StoreKind::Sh,
                value,
                base,
                offset,
            },
            Decoded::Sw {
                value,
                base,
                offset,
            } => Instr::Store {
                kind: StoreKind::Sw,
                value,
                base,
                offset,
            },
            Decoded::Addi { rd, left, imm } => Instr::Immediate {
                op: ImmOp::Addi,
                rd,
                left,
                imm,
            },
            Decoded::Slti { rd, left, imm } => Instr::Immediate {
                op: ImmOp::Slti,
                rd,
                left,
                imm,
            },
            Decoded::Sltiu { rd, left, imm } => Instr::Immediate {
                op: ImmOp::Sltiu,
                rd,
                left,
                imm,
            },
            Decoded::Xori { rd, left, imm } => Instr::Immediate {
                op: ImmOp::Xori,
                rd,
                left,
                imm,
            },
            Decoded::Ori { rd, left, imm } => Instr::Immediate {
                op: ImmOp::Ori,
                rd,
                left,
                imm,
            },
            Decoded::Andi { rd, left, imm } => Instr::Immediate {
                op: ImmOp::Andi,
                rd,
                left,
                imm,
            },
            Decoded::Slli { rd, left, imm } => Instr::Immediate {
                op: ImmOp::Slli,
                rd,
                left,
                imm,
            },
            Decoded::Srli { rd, left, imm } => Instr::Immediate {
                op: ImmOp::Srli,
                rd,
                left,
                imm,
            },
            Decoded::Srai { rd, left, imm } => Instr::Immediate {
                op: ImmOp::Srai,
                rd,
                left,
                imm,
            },
            Decoded::Add { rd, left, right } => Instr::Register {
                op: RegOp::Add,
                rd,
                left,
                right,
            },
            Decoded::Sub { rd, left, right } => Instr::Register {
                op: RegOp::Sub,
                rd,
                left,
                right,
            },
            Decoded::Sll { rd, left, right } => Instr::Register {
                op: RegOp::Sll,
                rd,
                left,
                right,
            },
            Decoded::Slt { rd, left, right } => Instr::Register {
                op: RegOp::Slt,
                rd,
                left,
                right,
            },
            Decoded::Sltu { rd, left, right } => Instr::Register {
                op: RegOp::Sltu,
                rd,
                left,
                right,
            },
            Decoded::Xor { rd, left, right } => Instr::Register {
                op: RegOp::Xor,
                rd,
                left,
                right,
            },
            Decoded::Srl { rd, left, right } => Instr::Register {
                op: RegOp::Srl,
                rd,
                left,
                right,
            },
            Decoded::Sra { rd, left, right } => Instr::Register {
                op: RegOp::Sra,
                rd,
                left,
                right,
            },
            Decoded::Or { rd, left, right } => Instr::Register {
                op: RegOp::Or,
                rd,
                left,
                right,
            },
            Decoded::And { rd, left, right } => Instr::Register {
                op: RegOp::And,
                rd,
                left,
                right,
            },
            Decoded::Mul { rd, left, right } => Instr::Register {
                op: RegOp::Mul,
                rd,
                left,
                right,
            },
            Decoded::Mulh { rd, left, right } => Instr::Register {
                op: RegOp::Mulh,
                rd,
                left,
                right,
            },
            Decoded::Mulhsu { rd, left, right } => Instr::Register {
                op: RegOp::Mulhsu,
                rd,
                left,
                right,
            },
            Decoded::Mulhu { rd, left, right } => Instr::Register {
                op: RegOp::Mulhu,
                rd,
                left,
                right,
            },
            Decoded::Div { rd, left, right } => Instr::Register {
                op: RegOp::Div,
                rd,
                left,
                right,
            },
            Decoded::Divu { rd, left, right } => Instr::Register {
                op: RegOp::Divu,
                rd,
                left,
                right,
            },
            Decoded::Rem { rd, left, right } => Instr::Register {
                op: RegOp::Rem,
                rd,
                left,
                right,
            },
            Decoded::Remu { rd, left, right } => Instr::Register {
                op: RegOp::Remu,
                rd,
                left,
                right,
            },
            Decoded::Atomic {
                op,
                rd,
                base,
                value,
                order,
            } => Instr::Atomic {
                op,
                rd,
                base,
                value,
                order,
            },
            Decoded::Fence => Instr::Fence,
            Decoded::FenceI => Instr::FenceI,
            Decoded::Ecall => Instr::Ecall,
            Decoded::Ebreak => Instr::Ebreak,
        };
        Some(known)
    }
}
