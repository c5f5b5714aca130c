//! The report of a run.
ghost use Rattle.std.specs.Prelude.{◌≡◌, ℕ, List, map, IfOk};
ghost use Rattle.elf_image.specs.Image.{name_beside};
ghost use Rattle.trace_model.specs.declared.event_kinds.Event.{Event};
ghost use Rattle.run_profile.specs.Profile.{AreTotalsOf};
ghost use Rattle.aprof_top.specs.Report.{named, report_of};

use cost_points::Table;
use elf_image::Image;
use guest_words::{Addr, Finish, Name};
use profile_report::{Report, ReportVersion, Routine};
use run_profile::Totals;
use std::alloc::{AllocError, Global};

/// What gives routines their names, by their entries.
pub(crate) trait RoutineNames {
    /// The entries that have a name, with their names.
    ghost names: { Self → List (ℕ × List ℕ) };

    // The name of the routine at an entry, if it has one.
    fn name_at(&self, alloc: Global, entry: Addr) -> Result<Option<Name>, AllocError>
        ensures { IfOk result (λ name. name ≡ name_beside (names self.now) entry) };
}

impl RoutineNames for Image {
    ghost names = { λ image. image.names };

    fn name_at(&self, alloc: Global, entry: Addr) -> Result<Option<Name>, AllocError> {
        self.name_of(alloc, entry)
    }
}

// The routines of a table, with their names.
fn named_routines<N: RoutineNames>(
    alloc: Global,
    names: &N,
    table: &Table,
) -> Result<Vec<Routine>, AllocError>
    ensures { IfOk result (λ routines. routines.items
        ≡ map (named (N.names names.now)) table.now.routines) }
{
    let mut routines = Vec::new(alloc);
    for i in 0..table.routines() {
        let (entry, points) = table.routine(alloc, i)?;
        let name = names.name_at(alloc, entry)?;
        routines.push(Routine {
            entry,
            name,
            points,
        })?;
    }
    Ok(routines)
}

/// The report, of version 2, of a run that came to this and ended so, with these names.
pub(crate) fn report_of<N: RoutineNames>(
    alloc: Global,
    names: &N,
    totals: &Totals,
    finish: Finish,
) -> Result<Report, AllocError>
    ensures { IfOk result (λ report. (most : ℕ) (past : List Event)
        → AreTotalsOf most totals.now past → report ≡ report_of (N.names names.now) finish past) }
{
    let routines = named_routines(alloc, names, &totals.points)?;
    Ok(Report {
        version: ReportVersion::Two,
        finish,
        steps: totals.counts.steps,
        pending: totals.counts.pending,
        routines,
    })
}
