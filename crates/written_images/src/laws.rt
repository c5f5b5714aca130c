//! Laws of the writer and the reader together.
ghost use Rattle.std.specs.Prelude.{◌≡◌, ℕ, List, [], None, All, MatchOption};
ghost use Rattle.elf_image.specs.Reading.{image_of, name_at};
ghost use Rattle.elf_image.specs.Tests.{first_refusal};
ghost use Rattle.rv_asm.specs.Executable.{executable};
ghost use Rattle.rv_asm.specs.declared.executable.Symbol.{Symbol};
ghost use Rattle.written_images.specs.Written.{IsLeast, IsRoutine, IsWritten, names_at, written_image};

/// No test refuses a file that is written, and its executable has the file's headers and code as its one segment.
pub fn written_files_are_accepted()
    ensures accepted { (words : List ℕ) → (symbols : List Symbol) → IsWritten words symbols
        → first_refusal (executable words symbols) ≡ None }
    ensures image { (words : List ℕ) → (symbols : List Symbol) → IsWritten words symbols
        → image_of (executable words symbols) ≡ written_image words symbols }
{}

/// An address has no name where none of the symbols stands at it, and else the least of their names.
pub fn written_names_are_read()
    ensures names { (words : List ℕ) → (symbols : List Symbol) → IsWritten words symbols
        → All IsRoutine symbols → (at : ℕ)
        → MatchOption (name_at (executable words symbols) at) (names_at symbols at ≡ []) (IsLeast (names_at symbols at)) }
{}
