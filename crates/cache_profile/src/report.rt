//! The report of cache misses.
ghost use Rattle.std.specs.Prelude.{◌≡◌, ◌++◌, IfOk, OnOk};
ghost use Rattle.std.specs.List.{flat_map};
ghost use Rattle.profile_report.specs.LineForms.{ended};
ghost use Rattle.cache_profile.specs.ReportText.{cache_text, counts_line, routine_text};

use crate::RoutineMisses;
use guest_words::{Finish, Name, push_decimal};
use profile_report::{push_end_line, push_number_line, push_routine_line};
use std::alloc::{AllocError, Global};
use std::marker::Model;

/// A routine: its counts, and its name where it has one.
#[derive(Drop)]
pub struct ReportedMisses {
    pub counts: RoutineMisses,
    pub name: Option<Name>,
}

impl Model for ReportedMisses {
    ghost use Rattle.cache_profile.specs.ReportText.{ReportedMisses};

    ghost Value = { ReportedMisses };

    ghost view = { λ r. record { counts = r.counts; name = r.name } };
}

/// A report: how the run ended, how many instructions it ran, and the routines that have line accesses.
#[derive(Drop)]
pub struct CacheReport {
    pub finish: Finish,
    pub steps: u64,
    pub routines: Vec<ReportedMisses>,
}

impl Model for CacheReport {
    ghost use Rattle.cache_profile.specs.ReportText.{Reported};

    ghost Value = { Reported };

    ghost view = { λ r. record { finish = r.finish; steps = r.steps; routines = r.routines.items } };
}

// Appends the line of a routine's counts.
fn push_counts_line(text: &mut Vec<u8>, counts: RoutineMisses) -> Result<(), AllocError>
    ensures { OnOk result (text.new.items ≡ text.old.items ++ ended (counts_line counts)) }
{
    push_decimal(text, counts.accesses)?;
    text.extend_from_slice(b" ")?;
    push_decimal(text, counts.misses)?;
    text.extend_from_slice(b"\n")
}

// Appends a routine's line and that of its counts.
fn push_routine(text: &mut Vec<u8>, routine: &ReportedMisses) -> Result<(), AllocError>
    ensures { OnOk result (text.new.items ≡ text.old.items ++ routine_text routine.now) }
{
    push_routine_line(text, routine.counts.entry, &routine.name)?;
    push_counts_line(text, routine.counts)
}

// Appends the lines of all routines.
fn push_routines(text: &mut Vec<u8>, routines: &[ReportedMisses]) -> Result<(), AllocError>
    ensures { OnOk result (text.new.items ≡ text.old.items ++ flat_map routine_text routines.now) }
{
    for routine in routines {
        push_routine(text, routine)?;
    }
    Ok(())
}

/// The text of a report.
pub fn write_cache_report(alloc: Global, report: &CacheReport) -> Result<Vec<u8>, AllocError>
    ensures { IfOk result (λ text. text.items ≡ cache_text report.now) }
{
    let mut text = Vec::from_slice(alloc, b"aprof cache 1\n")?;
    push_end_line(&mut text, report.finish)?;
    push_number_line(&mut text, b"steps ", report.steps)?;
    push_routines(&mut text, &report.routines)?;
    push_number_line(&mut text, b"done ", report.routines.len() as u64)?;
    Ok(text)
}
