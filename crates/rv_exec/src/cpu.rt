//! The registers of a thread.
use guest_words::Addr;
use rv_isa::Reg;
use std::marker::Model;

/// The program counter, and the registers x0 to x31, of which x0 is always 0.
#[derive(Clone, Copy, PartialEq, Eq, Debug)]
pub struct Cpu {
    pub pc: Addr,
    pub regs: [u32; 32],
}

impl Model for Cpu {
    ghost use Rattle.std.specs.Prelude.{◌≡◌, slice_index};
    ghost use Rattle.rv_exec.specs.Registers.{Registers};

    ghost Value = { Registers };

    ghost view = { λ c. record { pc = c.pc; regs = c.regs } };

    ghost invariant = { λ c. slice_index c.regs 0 ≡ 0 };

    ghost inverse = { λ v. record { pc = v.pc; regs = v.regs } };
}

impl Cpu {
    ghost use Rattle.std.specs.Prelude.{◌≡◌, replicate};
    ghost use Rattle.rv_exec.specs.Effects.{advanced, put, value, written};

    /// All registers hold 0.
    pub fn new(pc: Addr) -> Cpu
        ensures registers { result ≡ record { pc = pc; regs = replicate 32 0 } }
    {
        Cpu { pc, regs: [0; 32] }
    }

    /// What a register holds.
    #[inline(always)]
    pub fn value(&self, r: Reg) -> u32
        ensures value { result ≡ value self.now r }
        ensures zero { r ≡ 0 → result ≡ 0 }
    {
        self.regs[usize::from(r.number())]
    }

    /// Writes to a register. A write to x0 is lost.
    #[inline(always)]
    pub fn write(&mut self, rd: Reg, n: u32)
        ensures registers { self.new ≡ record self.old { regs = written self.old rd n } }
    {
        self.regs[usize::from(rd.number())] = n;
        self.regs[0] = 0; // quicker than a test of rd
    }

    /// Goes on behind the instruction at the pc.
    #[inline(always)]
    pub fn advance(&mut self)
        ensures registers { self.new ≡ advanced self.old }
    {
        self.pc = self.pc.wrapping_add(4);
    }

    /// Writes to a register, and goes on behind the instruction.
    #[inline(always)]
    pub(crate) fn put(&mut self, rd: Reg, n: u32)
        ensures { self.new ≡ put rd n self.old }
    {
        self.write(rd, n);
        self.advance();
    }
}
