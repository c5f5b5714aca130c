//! The limits of the program. Each is named here once: what is refused beyond a limit cites its name, and so do the clauses.
//! `limits_are_promised` says each in numbers.
ghost use Rattle.guest_words.specs.Limits.{AreLimits};

/// How many pages of 4096 bytes a guest can have mapped.
pub const PAGES: u32 = 16384;

/// How many of them are a guest's stack.
pub const STACK_PAGES: u32 = 2048;

/// How many threads of a guest can live at one time.
pub const THREADS: usize = 32;

/// The last thread number, which is Linux's. The first is 1.
pub const LAST_TID: u32 = 4_194_303;

/// How many events one system call can have: one for a table of parts, and one for each of 1024 parts. The step of
/// the call, and the threads that it begins and ends, are not among them.
pub const SYSCALL_EVENTS: usize = 1025;

/// How many steps a run can have, and so an entry of a schedule.
pub const RUN_STEPS: u64 = 1_000_000_000_000;

/// How many steps the quantum of a run can be: the steps of a turn that no schedule gives.
pub const QUANTUM_STEPS: u64 = 1_000_000_000;

/// The weight of a trace, its events and the words that they read, is below this, so that no size and no cost passes a
/// number of 64 bits.
pub const TRACE_WEIGHT: u64 = 1 << 62;

/// How many bytes the name of a routine can have.
pub const NAME_BYTES: usize = 1024;

/// How many bytes a file can have that is loaded: an image, a schedule or an input.
pub const FILE_BYTES: usize = 16_777_216;

/// How many bytes a guest's input files and standard input can have together.
pub const INPUT_BYTES: usize = 67_108_864;

/// How many calling contexts a run can have: their numbers are those of 32 bits, without 0 and the last one.
pub const CONTEXTS: usize = 4_294_967_294;

/// How many bytes a stored trace can have.
pub const TRACE_BYTES: u64 = 67_108_864;

/// How many routines the demo can have.
pub const DEMO_ROUTINES: u32 = 40_000;

/// The limits in numbers: what the program promises of them, whatever the definitions that cite their names.
pub fn limits_are_promised()
    ensures { AreLimits }
{}
