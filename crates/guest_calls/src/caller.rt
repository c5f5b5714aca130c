//! The thread that makes a system call.
ghost use Rattle.std.specs.Prelude.{◌≡◌, ◌<◌, ◌+◌, ◌%◌, ◌^◌, slice_index};

use guest_words::Tid;
use rv_exec::Cpu;

/// The thread that makes a system call, and its registers.
#[derive(Clone, Copy, Debug)]
pub struct Caller {
    pub tid: Tid,
    pub cpu: Cpu,
}

impl Caller {
    /// The number of the system call, in a7.
    pub(crate) fn number(&self) -> u32
        ensures { result ≡ slice_index self.now.cpu.regs 17 }
    {
        self.cpu.regs[17]
    }

    /// One of the arguments, in a0 to a5.
    pub(crate) fn argument(&self, i: usize) -> u32
        requires { i < 6 }
        ensures { result ≡ slice_index self.now.cpu.regs (10 + i) }
    {
        self.cpu.regs[10 + i]
    }

    /// The exit status that the first argument gives.
    pub(crate) fn status(&self) -> u8
        ensures { result ≡ slice_index self.now.cpu.regs 10 % 2 ^ 8 }
    {
        (self.cpu.regs[10] % 0x100) as u8
    }
}
