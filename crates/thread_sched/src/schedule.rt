//! Schedules, and their text.
ghost use Rattle.std.specs.Prelude.{◌≡◌, ◌+◌, List, [], ◌∷◌, ◌++◌, length, IfErr, IfOk, MatchResult, OnOk};
ghost use Rattle.std.specs.List.{AllByRecursion};
ghost use Rattle.thread_sched.specs.ScheduleText.{IsEntry, IsScheduleRefused, IsText};
ghost use Rattle.thread_sched.specs.Private.Lines.{RefusesLine, Says};
ghost use Rattle.thread_sched.specs.declared.entry.Entry.{Entry};

use crate::Entry;
use crate::entry::entry_of;
use guest_words::cut;
use std::alloc::{AllocError, AllocFailed, Global};
use std::marker::Model;
use thiserror::Error;

/// Turns in order.
#[derive(Drop)]
pub struct Schedule {
    pub(crate) entries: Vec<Entry>,
}

impl Model for Schedule {
    ghost use Rattle.std.specs.Prelude.{List};
    ghost use Rattle.thread_sched.specs.declared.entry.Entry.{Entry};

    ghost Value = { List Entry };

    ghost view = { λ s. s.entries.items };
}

/// Why a text is no schedule.
#[derive(Clone, Copy, Debug, PartialEq, Eq, Error)]
pub enum ScheduleError {
    /// The number, counted from 1, of the first line that is not an entry's.
    #[error("line {line} is no entry")]
    BadLine { line: u64 },
    /// Out of memory.
    #[error("out of memory")]
    Memory,
}

impl From<AllocError> for ScheduleError {
    ghost use Rattle.std.specs.Prelude.{◌≡◌};
    ghost use Rattle.thread_sched.specs.declared.schedule.ScheduleError.TheVariants.{Memory};

    ghost from_gives = { λ _ e. e ≡ Memory };

    fn from(_error: AllocError) -> ScheduleError {
        ScheduleError::Memory
    }
}

impl<T: Drop> From<AllocFailed<T>> for ScheduleError {
    ghost use Rattle.std.specs.Prelude.{◌≡◌};
    ghost use Rattle.thread_sched.specs.declared.schedule.ScheduleError.TheVariants.{Memory};

    ghost from_gives = { λ _ e. e ≡ Memory };

    fn from(_error: AllocFailed<T>) -> ScheduleError {
        ScheduleError::Memory
    }
}

// Adds the entry of one more line, without the byte that ends it.
fn push_line(entries: &mut Vec<Entry>, line: &[u8]) -> Result<(), ScheduleError>
    ensures ok { OnOk result ((e : Entry) × Says line.now e × (entries.new.items
        ≡ entries.old.items ++ e ∷ [])) }
    ensures err { IfErr result (λ e. RefusesLine (length entries.old.items + 1) line.now e) }
{
    let Some(entry) = entry_of(line) else {
        return Err(ScheduleError::BadLine {
            line: entries.len() as u64 + 1,
        });
    };
    entries.push(entry)?;
    Ok(())
}

impl Schedule {
    /// No turn.
    pub fn empty(alloc: Global) -> Result<Schedule, AllocError>
        ensures { IfOk result (λ s. s ≡ []) }
    {
        Ok(Schedule {
            entries: Vec::new(alloc),
        })
    }

    /// The schedule whose text this is; the last line may lack the byte that ends it.
    pub fn read(alloc: Global, text: &[u8]) -> Result<Schedule, ScheduleError>
        ensures found { IfOk result (λ s. AllByRecursion IsEntry s × IsText text.now s) }
        ensures only { (s : List Entry) → AllByRecursion IsEntry s → IsText text.now s
            → MatchResult result (λ x. x ≡ s) (λ e. e ≡ ScheduleError.Memory) }
        ensures refused { IfErr result (λ e. IsScheduleRefused text.now e) }
    {
        let mut entries = Vec::new(alloc);
        let mut rest = text;
        while let Some((line, after)) = cut(rest, b'\n') {
            push_line(&mut entries, line)?;
            rest = after;
        }
        if rest.is_empty() {
            return Ok(Schedule { entries });
        }
        push_line(&mut entries, rest)?;
        Ok(Schedule { entries })
    }
}
