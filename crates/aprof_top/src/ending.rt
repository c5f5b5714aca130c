//! How a command ends: its status and its last text.
ghost use Rattle.std.specs.Prelude.{◌≡◌, ◌<◌, length, IfOk, OnOk, OnErr};
ghost use Rattle.aprof_top.specs.Private.Ending.{end_of};
ghost use Rattle.aprof_top.specs.Ends.{end_status, end_text};
ghost use Rattle.aprof_top.specs.Private.Jobs.{ending_by};
ghost use Rattle.aprof_top.specs.Private.LastTexts.{bytes_of};
ghost use Rattle.aprof_top.specs.LastText.{IsMade, IsPut, LastText};
ghost use Rattle.aprof_top.specs.Verdicts.{finish_status, verdict_status};

use crate::delivery::put_all;
use crate::source::Load;
use crate::texts::{Text, cannot_read_text, verdict_text};
use command_line::CommandError;
use elf_image::ElfError;
use guest_machine::SetupError;
use guest_run::{Channel, RunError};
use guest_words::Finish;
use host_io::{PutError, Sink, StoreError};
use std::alloc::{AllocError, AllocFailed, Global};
use thread_sched::ScheduleError;
use trace_file::TraceError;

/// What the program answers by the words, the files and the run of the guest.
#[derive(Clone, Copy)]
pub(crate) enum Verdict {
    BadCommand,
    BadImage(ElfError),
    BadSchedule(u64),
    BadTrace(TraceError),
    TooLarge,
    Ran(Finish),
    // The guest ran, and what is made of its run is too long to be stored.
    ResultTooLarge,
    // What was asked was done, and no run of a guest is told of.
    Done,
}

/// How a command ended whose files were loaded.
#[derive(Clone, Copy)]
pub(crate) enum Ending {
    Decided(Verdict),
    CannotWrite,
    // A put on `err` failed, so nothing more is put there.
    CannotPut,
    OutOfMemory,
}

/// How a command ended.
#[derive(Clone, Copy)]
pub(crate) enum CommandEnding<'a> {
    // This load failed.
    CannotRead(Load<'a>),
    Ended(Ending),
}

impl From<AllocError> for Ending {
    ghost use Rattle.std.specs.Prelude.{◌≡◌};
    ghost use Rattle.aprof_top.specs.declared.ending.Ending.TheVariants.{OutOfMemory};

    ghost from_gives = { λ _ e. e ≡ OutOfMemory };

    fn from(_error: AllocError) -> Ending {
        Ending::OutOfMemory
    }
}

impl From<AllocError> for CommandEnding<'_> {
    ghost use Rattle.std.specs.Prelude.{◌≡◌};
    ghost use Rattle.aprof_top.specs.declared.ending.CommandEnding.TheVariants.{Ended};
    ghost use Rattle.aprof_top.specs.declared.ending.Ending.TheVariants.{OutOfMemory};

    ghost from_gives = { λ _ e. e ≡ Ended OutOfMemory };

    fn from(_error: AllocError) -> Self {
        CommandEnding::Ended(Ending::OutOfMemory)
    }
}

impl<T: Drop> From<AllocFailed<T>> for Ending {
    ghost use Rattle.std.specs.Prelude.{◌≡◌};
    ghost use Rattle.aprof_top.specs.declared.ending.Ending.TheVariants.{OutOfMemory};

    ghost from_gives = { λ _ e. e ≡ OutOfMemory };

    fn from(_error: AllocFailed<T>) -> Ending {
        Ending::OutOfMemory
    }
}

impl From<CommandError> for Ending {
    ghost use Rattle.std.specs.Prelude.{◌≡◌};
    ghost use Rattle.aprof_top.specs.Private.Ending.{of_command};

    ghost from_gives = { λ error e. e ≡ of_command error };

    fn from(error: CommandError) -> Ending {
        match error {
            CommandError::Refused => Ending::Decided(Verdict::BadCommand),
            CommandError::Memory => Ending::OutOfMemory,
        }
    }
}

impl From<ElfError> for Ending {
    ghost use Rattle.std.specs.Prelude.{◌≡◌};
    ghost use Rattle.aprof_top.specs.Private.Ending.{of_image};

    ghost from_gives = { λ error e. e ≡ of_image error };

    fn from(error: ElfError) -> Ending {
        match error {
            ElfError::Memory => Ending::OutOfMemory,
            _ => Ending::Decided(Verdict::BadImage(error)),
        }
    }
}

impl From<ScheduleError> for Ending {
    ghost use Rattle.std.specs.Prelude.{◌≡◌};
    ghost use Rattle.aprof_top.specs.Private.Ending.{of_schedule};

    ghost from_gives = { λ error e. e ≡ of_schedule error };

    fn from(error: ScheduleError) -> Ending {
        match error {
            ScheduleError::BadLine { line } => Ending::Decided(Verdict::BadSchedule(line)),
            ScheduleError::Memory => Ending::OutOfMemory,
        }
    }
}

impl From<TraceError> for Ending {
    ghost use Rattle.std.specs.Prelude.{◌≡◌};
    ghost use Rattle.aprof_top.specs.Private.Ending.{of_trace};

    ghost from_gives = { λ error e. e ≡ of_trace error };

    fn from(error: TraceError) -> Ending {
        match error {
            TraceError::Memory => Ending::OutOfMemory,
            _ => Ending::Decided(Verdict::BadTrace(error)),
        }
    }
}

impl From<SetupError> for Ending {
    ghost use Rattle.std.specs.Prelude.{◌≡◌};
    ghost use Rattle.aprof_top.specs.Private.Ending.{of_setup};

    ghost from_gives = { λ error e. e ≡ of_setup error };

    fn from(error: SetupError) -> Ending {
        match error {
            SetupError::ArgsTooLong | SetupError::Pages => Ending::Decided(Verdict::TooLarge),
            SetupError::Memory => Ending::OutOfMemory,
        }
    }
}

impl From<RunError> for Ending {
    ghost use Rattle.std.specs.Prelude.{◌≡◌};
    ghost use Rattle.aprof_top.specs.Private.Ending.{of_run};

    ghost from_gives = { λ error e. e ≡ of_run error };

    fn from(error: RunError) -> Ending {
        match error {
            RunError::CannotPut {
                channel: Channel::Out,
            } => Ending::CannotWrite,
            RunError::CannotPut {
                channel: Channel::Err,
            } => Ending::CannotPut,
            RunError::Memory => Ending::OutOfMemory,
        }
    }
}

impl From<PutError> for Ending {
    ghost use Rattle.std.specs.Prelude.{◌≡◌};
    ghost use Rattle.aprof_top.specs.Private.Ending.{of_put};

    ghost from_gives = { λ error e. e ≡ of_put error };

    fn from(error: PutError) -> Ending {
        match error {
            PutError::Failed => Ending::CannotWrite,
            PutError::Memory => Ending::OutOfMemory,
        }
    }
}

impl From<StoreError> for Ending {
    ghost use Rattle.std.specs.Prelude.{◌≡◌};
    ghost use Rattle.aprof_top.specs.Private.Ending.{of_store};

    ghost from_gives = { λ error e. e ≡ of_store error };

    fn from(error: StoreError) -> Ending {
        match error {
            StoreError::Failed => Ending::CannotWrite,
            StoreError::Memory => Ending::OutOfMemory,
        }
    }
}

/// The ending of a command with this result.
pub(crate) fn ending_by(done: Result<Verdict, Ending>) -> Ending
    ensures { result ≡ ending_by done }
{
    match done {
        Ok(verdict) => Ending::Decided(verdict),
        Err(ending) => ending,
    }
}

// The status of a run that ended so.
fn finish_status(finish: Finish) -> u8
    ensures { result ≡ finish_status finish }
{
    match finish {
        Finish::Exit { .. } => 0,
        Finish::Fault { .. } => 5,
        Finish::Budget => 6,
        Finish::Deadlock => 7,
        Finish::Deep => 8,
        Finish::Schedule { .. } => 9,
    }
}

// The status of a verdict.
fn verdict_status(verdict: Verdict) -> u8
    ensures { result ≡ verdict_status verdict }
{
    match verdict {
        Verdict::BadCommand => 1,
        Verdict::BadImage(_) => 3,
        Verdict::BadSchedule(_) => 9,
        Verdict::BadTrace(_) => 13,
        Verdict::TooLarge | Verdict::ResultTooLarge => 11,
        Verdict::Ran(finish) => finish_status(finish),
        Verdict::Done => 0,
    }
}

// The status of a command that ended so.
fn status(ending: &CommandEnding<'_>) -> u8
    ensures { result ≡ end_status (end_of ending.now) }
{
    match ending {
        CommandEnding::CannotRead(_) => 2,
        CommandEnding::Ended(Ending::Decided(verdict)) => verdict_status(*verdict),
        CommandEnding::Ended(Ending::CannotWrite | Ending::CannotPut) => 4,
        CommandEnding::Ended(Ending::OutOfMemory) => 10,
    }
}

// The last text of a command that ended so.
fn text_of(alloc: Global, ending: &CommandEnding<'_>) -> Result<Text, AllocError>
    ensures text { IfOk result (λ text. bytes_of text ≡ end_text (end_of ending.now)) }
    ensures made { OnErr result (IsMade (end_of ending.now)) }
{
    match ending {
        CommandEnding::CannotRead(load) => cannot_read_text(alloc, load.path),
        CommandEnding::Ended(Ending::Decided(verdict)) => verdict_text(alloc, *verdict),
        CommandEnding::Ended(Ending::CannotWrite) => Ok(Text::Fixed(b"aprof: cannot write\n")),
        CommandEnding::Ended(Ending::CannotPut) => Ok(Text::Fixed(b"")),
        CommandEnding::Ended(Ending::OutOfMemory) => Ok(Text::Fixed(b"aprof: out of memory\n")),
    }
}

// Puts a text, where it is not empty. An `Err` has put nothing.
fn put_text<E: Sink>(text: &[u8], err: &mut E) -> Result<(), AllocError>
    ensures ok { OnOk result (IsPut text.now (E.state err.old) (E.state err.new)) }
    ensures err { OnErr result (E.state err.new ≡ E.state err.old) }
    ensures some { OnErr result (0 < length text.now) }
{
    match put_all(text, err) {
        Ok(()) => Ok(()),
        Err(PutError::Failed) => Ok(()),
        Err(PutError::Memory) => Err(AllocError),
    }
}

/// Puts the last text of a command that ended so, and answers the status. No text follows one that is refused.
pub(crate) fn tell<E: Sink>(alloc: Global, ending: &CommandEnding<'_>, err: &mut E) -> u8
    ensures { LastText (end_of ending.now) result (E.state err.old) (E.state err.new) }
{
    match text_of(alloc, ending) {
        Ok(text) => match put_text(text.as_slice(), err) {
            Ok(()) => status(ending),
            Err(_) => 10,
        },
        Err(_) => match put_text(b"aprof: out of memory\n", err) {
            Ok(()) | Err(_) => 10,
        },
    }
}
