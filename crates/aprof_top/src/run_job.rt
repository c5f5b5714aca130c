//! The command `run`: a guest's output, its recording and its report.
ghost use Rattle.std.specs.Prelude.{◌≡◌, ℕ, List, map, option_map, IfOk};
ghost use Rattle.command_line.specs.Options.Analysis.{Run};
ghost use Rattle.command_line.specs.Read.{AreInRange, guest_in, run_in};
ghost use Rattle.stamps.specs.Widths.{greatest};
ghost use Rattle.run_profile.specs.Profile.{AreTotalsOf};
ghost use Rattle.aprof_top.specs.Private.Jobs.{IsDelivered, IsProfiled, JobRuns, desk, ending_by, store_of};
ghost use Rattle.aprof_top.specs.Outcome.{analysed, job_of, recording_stores, run_stores};
ghost use Rattle.aprof_top.specs.Outside.{outside};
ghost use Rattle.trace_model.specs.declared.event_kinds.Event.{Event};

use crate::delivery::{Store, put_stats, store_all};
use crate::ending::{Ending, Verdict};
use crate::preparation::Prepared;
use crate::profiled_run::{ProfiledRun, profile_image};
use crate::report::report_of;
use command_line::{GuestOptions, RunOptions};
use elf_image::Image;
use host_io::{Files, Sink};
use profile_report::write_report;
use std::alloc::{AllocError, Global};
use thread_sched::Recording;

// The recording to store, where the command has a path for it.
fn recording_stores<'a>(
    alloc: Global,
    path: Option<&'a str>,
    recording: &Recording,
) -> Result<Vec<Store<'a>>, AllocError>
    ensures { IfOk result (λ stores. map store_of stores.items
        ≡ recording_stores (option_map (λ p. p.now) path.entry) recording.now) }
{
    let mut stores = Vec::new(alloc);
    if let Some(path) = path {
        let bytes = recording.text(alloc)?;
        stores.push(Store { path, bytes })?;
    }
    Ok(stores)
}

// The files to store of a run, in order.
fn run_stores<'a>(
    alloc: Global,
    path: &'a str,
    options: &RunOptions<'a>,
    image: &Image,
    run: &ProfiledRun,
) -> Result<Vec<Store<'a>>, AllocError>
    ensures { IfOk result (λ stores. (most : ℕ) (past : List Event)
        → AreTotalsOf most run.now.totals past
        → map store_of stores.items ≡ run_stores path.entry.now (run_in options.now) image.now
        run.now.ended.finish past run.now.ended.recording) }
{
    let mut stores = recording_stores(alloc, options.recording, &run.ended.recording)?;
    let report = report_of(alloc, image, &run.totals, run.ended.finish)?;
    let bytes = write_report(alloc, &report)?;
    stores.push(Store { path, bytes })?;
    Ok(stores)
}

// Stores what a run leaves, and then puts its statistics.
fn deliver_run<F: Files, E: Sink>(
    alloc: Global,
    path: &str,
    options: &RunOptions<'_>,
    image: &Image,
    run: &ProfiledRun,
    files: &mut F,
    err: &mut E,
) -> Result<Verdict, Ending>
    ensures { IsDelivered (IsProfiled (greatest options.now.bits))
        (analysed path.now (Run (run_in options.now)) image.now) run.now
        (desk (F.state files.old) (E.state err.old)) (desk (F.state files.new) (E.state err.new)) result }
{
    let stores = run_stores(alloc, path, options, image, run)?;
    store_all(stores.as_slice(), files)?;
    put_stats(alloc, options.stats, run.totals.counts.renumbered, err)?;
    Ok(Verdict::Ran(run.ended.finish))
}

/// Runs a guest that was prepared, stores what the run leaves, and puts its statistics.
pub(crate) fn run_job<F: Files, O: Sink, E: Sink>(
    alloc: Global,
    guest: &GuestOptions<'_>,
    path: &str,
    options: &RunOptions<'_>,
    prepared: Prepared,
    files: &mut F,
    out: &mut O,
    err: &mut E,
) -> Result<Verdict, Ending>
    requires { AreInRange (guest_in guest.now) }
    ensures { JobRuns (job_of (guest_in guest.now) path.now (Run (run_in options.now))) prepared
        (outside (F.state files.old) (O.state out.old) (E.state err.old))
        (outside (F.state files.new) (O.state out.new) (E.state err.new)) (ending_by result) }
{
    let image = prepared.image;
    let run = profile_image(alloc, options.bits, guest, &image, prepared.files, out, err)?;
    deliver_run(alloc, path, options, &image, &run, files, err)
}
