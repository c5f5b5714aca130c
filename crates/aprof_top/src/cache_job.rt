//! The command `cache`: a guest's output, and the report of its cache misses.
ghost use Rattle.std.specs.Prelude.{◌≡◌, true, List, map, IfOk};
ghost use Rattle.command_line.specs.Options.Analysis.{Cache};
ghost use Rattle.command_line.specs.Read.{AreInRange, guest_in};
ghost use Rattle.cache_lines.specs.Shapes.{Dimensions};
ghost use Rattle.elf_image.specs.Image.{Executable};
ghost use Rattle.aprof_top.specs.CacheMisses.{misses_of, named_misses};
ghost use Rattle.aprof_top.specs.Private.Jobs.{GuestIsRun, IsMissed, IsStored, JobRuns, ending_by};
ghost use Rattle.aprof_top.specs.Outcome.{analysed, job_of};
ghost use Rattle.aprof_top.specs.Outside.{outside};
ghost use Rattle.trace_model.specs.declared.event_kinds.Event.{Event};
ghost use Rattle.guest_run.specs.Output.{sinks};
ghost use Rattle.cache_profile.specs.Profile.{MissesStandFor};

use crate::delivery::store_result;
use crate::ending::{Ending, Verdict};
use crate::guest_job::{GuestFiles, run_image};
use crate::preparation::Prepared;
use cache_lines::Shape;
use cache_profile::{CacheProfile, CacheReport, ReportedMisses, Shaped, write_cache_report};
use command_line::GuestOptions;
use elf_image::Image;
use guest_words::Finish;
use host_io::{Files, Sink};
use std::alloc::{AllocError, Global};
use std::marker::Brand;

// The routines of a profile, with their names.
fn named_misses<K: Shaped>(
    alloc: Global,
    image: &Image,
    profile: &CacheProfile<K>,
) -> Result<Vec<ReportedMisses>, AllocError>
    ensures { IfOk result (λ routines. routines.items
        ≡ map (named_misses image.now) profile.now.routines) }
{
    let mut routines = Vec::new(alloc);
    for i in 0..profile.routines() {
        let counts = profile.routine(i);
        let name = image.name_of(alloc, counts.entry)?;
        routines.push(ReportedMisses { counts, name })?;
    }
    Ok(routines)
}

// The report of a profile of a run that ended so.
fn report_of<K: Shaped>(
    alloc: Global,
    image: &Image,
    profile: &mut CacheProfile<K>,
    finish: Finish,
) -> Result<CacheReport, AllocError>
    ensures { IfOk result (λ report. (past : List Event) → MissesStandFor K.shape profile.old past
        → report ≡ misses_of K.shape image.now finish past) }
{
    profile.index_routines()?;
    let routines = named_misses(alloc, image, profile)?;
    Ok(CacheReport {
        finish,
        steps: profile.steps(),
        routines,
    })
}

// Runs an executable, and counts its misses of a cache whose shape `K` carries.
fn misses_by<K: Shaped, O: Sink, E: Sink>(
    alloc: Global,
    shape: Shape,
    options: &GuestOptions<'_>,
    image: &Image,
    files: GuestFiles,
    out: &mut O,
    err: &mut E,
) -> Result<CacheReport, Ending>
    requires range { AreInRange (guest_in options.now) }
    requires shape { shape ≡ K.shape }
    ensures { GuestIsRun (IsMissed K.shape image.now) (λ _. true)
        (guest_in options.now) image.now files
        (sinks (O.state out.old) (E.state err.old)) (sinks (O.state out.new) (E.state err.new)) result }
{
    let mut profile = CacheProfile::<K>::new(alloc, shape)?;
    let ended = run_image(alloc, options, image, files, &mut profile, out, err)?;
    let report = report_of(alloc, image, &mut profile, ended.finish)?;
    Ok(report)
}

// Runs an executable, and counts its misses of a cache of the shape.
fn count_misses<O: Sink, E: Sink>(
    alloc: Global,
    shape: Shape,
    options: &GuestOptions<'_>,
    image: &Image,
    files: GuestFiles,
    out: &mut O,
    err: &mut E,
) -> Result<CacheReport, Ending>
    requires { AreInRange (guest_in options.now) }
    ensures { GuestIsRun (IsMissed shape image.now) (λ _. true)
        (guest_in options.now) image.now files
        (sinks (O.state out.old) (E.state err.old)) (sinks (O.state out.new) (E.state err.new)) result }
{
    misses_by::<Brand, O, E>(alloc, shape, options, image, files, out, err)
}

// Stores the report of a run's cache misses.
fn deliver_misses<F: Files>(
    alloc: Global,
    path: &str,
    report: &CacheReport,
    files: &mut F,
) -> Result<Verdict, Ending>
    ensures { (shape : Dimensions) (image : Executable) → IsStored (IsMissed shape image)
        (analysed path.now (Cache shape) image) report.now (F.state files.old) (F.state files.new) result }
{
    let bytes = write_cache_report(alloc, report)?;
    store_result(path, bytes.as_slice(), report.finish, files)
}

/// Runs a guest that was prepared, and stores the report of its cache misses.
pub(crate) fn cache_job<F: Files, O: Sink, E: Sink>(
    alloc: Global,
    guest: &GuestOptions<'_>,
    path: &str,
    shape: Shape,
    prepared: Prepared,
    files: &mut F,
    out: &mut O,
    err: &mut E,
) -> Result<Verdict, Ending>
    requires { AreInRange (guest_in guest.now) }
    ensures { JobRuns (job_of (guest_in guest.now) path.now (Cache shape)) prepared
        (outside (F.state files.old) (O.state out.old) (E.state err.old))
        (outside (F.state files.new) (O.state out.new) (E.state err.new)) (ending_by result) }
{
    let image = prepared.image;
    let report = count_misses(alloc, shape, guest, &image, prepared.files, out, err)?;
    deliver_misses(alloc, path, &report, files)
}
