//! What holds of every instruction.
ghost use Rattle.rv_exec.specs.Laws.{RefusalsChangeNothing, OnlyEcallCalls, OthersGainNothing, KeepsRights, KeepsAlignment, AccessesFewWords};

/// A fault or a system call changes nothing, only ECALL calls the kernel, an instruction gives no other thread a
/// reservation, the rights of pages stay as they are, the pc stays a multiple of 4, and at most two words are accessed, which
/// are words of memory.
pub fn every_instruction()
    ensures kept { RefusalsChangeNothing }
    ensures calls { OnlyEcallCalls }
    ensures others { OthersGainNothing }
    ensures rights { KeepsRights }
    ensures aligned { KeepsAlignment }
    ensures accesses { AccessesFewWords }
{}
