//! Why a file is no executable that can be run.
ghost use Rattle.std.specs.Prelude.{◌≡◌};
ghost use Rattle.elf_image.specs.Tests.{number_of};

use std::alloc::AllocError;
use thiserror::Error;

/// Why a file is refused: the first test that it fails. Each test's number stands beside it.
#[derive(Clone, Copy, Debug, PartialEq, Eq, Error)]
pub enum ElfError {
    /// Out of memory, which is no test.
    #[error("out of memory")]
    Memory = 0,
    /// The file is shorter than a file header.
    #[error("the file is too short")]
    Short = 1,
    /// The magic number is another.
    #[error("not an ELF file")]
    Magic = 2,
    /// The file is not for 32 bits.
    #[error("not a 32-bit file")]
    Class = 3,
    /// The lowest byte does not come first.
    #[error("not a little-endian file")]
    ByteOrder = 4,
    /// The version of the identification, or that of the file, is not 1.
    #[error("not of version 1")]
    Version = 5,
    /// The file is no executable.
    #[error("not an executable")]
    FileKind = 6,
    /// The machine is not RISC-V.
    #[error("not for RISC-V")]
    Machine = 7,
    /// The flags ask for compressed instructions, floating-point registers or fewer registers.
    #[error("flags that can't be met")]
    Flags = 8,
    /// A header has another size.
    #[error("a header of another size")]
    HeaderSize = 9,
    /// The program headers are too many, or not all in the file.
    #[error("program headers outside the file")]
    HeaderTable = 10,
    /// The file asks for an interpreter.
    #[error("an interpreter is asked for")]
    Interpreter = 11,
    /// The file part of a segment is not all in the file.
    #[error("a segment outside the file")]
    SegmentFile = 12,
    /// The file part of a segment is larger than the segment.
    #[error("a segment larger in the file than in memory")]
    SegmentSize = 13,
    /// A segment lies too low or too high.
    #[error("a segment that lies too low or too high")]
    SegmentPlace = 14,
    /// Two segments share a byte.
    #[error("segments that overlap")]
    Overlap = 15,
    /// There is no segment.
    #[error("no segment")]
    NoLoad = 16,
    /// The entry is no multiple of 4, or in no segment that may be run.
    #[error("a bad entry")]
    Entry = 17,
    /// The segments touch too many pages.
    #[error("too many pages")]
    Pages = 18,
}

impl From<AllocError> for ElfError {
    ghost use Rattle.std.specs.Prelude.{◌≡◌};
    ghost use Rattle.elf_image.specs.declared.error.ElfError.TheVariants.{Memory};

    ghost from_gives = { λ _ e. e ≡ Memory };

    fn from(_error: AllocError) -> ElfError {
        ElfError::Memory
    }
}

impl ElfError {
    /// The number of the test that fails, and 0 for out of memory.
    pub fn number(self) -> u8
        ensures { result ≡ number_of self }
    {
        self as u8
    }
}
