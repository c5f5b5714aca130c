//! The command `contexts`: a guest's output, and the report of its run with its calling contexts.
ghost use Rattle.std.specs.Prelude.{◌≡◌, ℕ, List, true, IfOk};
ghost use Rattle.command_line.specs.Options.Analysis.{Contexts as ContextsAsked};
ghost use Rattle.command_line.specs.Read.{AreInRange, guest_in};
ghost use Rattle.guest_run.specs.ObservedRun.{ObservedRun};
ghost use Rattle.run_profile.specs.Contexts.{AreContextTotalsOf};
ghost use Rattle.stamps.specs.declared.width.StampBits.{StampBits};
ghost use Rattle.trace_model.specs.declared.event_kinds.Event.{Event};
ghost use Rattle.aprof_top.specs.ContextReports.{can_be_numbered, contexts_report};
ghost use Rattle.aprof_top.specs.Private.Jobs.{GuestIsRun, HasContexts, HaveContexts, IsStored, JobRuns, ending_by};
ghost use Rattle.aprof_top.specs.Outcome.{analysed, job_of};
ghost use Rattle.aprof_top.specs.Outside.{outside};
ghost use Rattle.stamps.specs.Widths.{greatest};
ghost use Rattle.trace_model.specs.Depth.{is_within};
ghost use Rattle.guest_run.specs.Output.{sinks};

use crate::delivery::store_result;
use crate::ending::{Ending, Verdict};
use crate::guest_job::GuestFiles;
use crate::preparation::Prepared;
use crate::profiled_run::{KeptRun, keep_run};
use crate::report::report_of;
use command_line::GuestOptions;
use elf_image::Image;
use guest_words::Finish;
use host_io::{Files, Sink};
use profile_report::{push_contexts, write_report};
use run_profile::{ContextTotals, Contexts};
use stamps::StampBits;
use std::alloc::{AllocError, Global};

/// What a run came to with its contexts, unless those are more than can be numbered, and how it ended.
#[derive(Drop)]
pub(crate) struct ContextsRun {
    pub(crate) contexts: Option<ContextTotals>,
    pub(crate) finish: Finish,
}

// Runs an executable, and tells its contexts apart by stamps of the width.
fn contexts_of_run<O: Sink, E: Sink>(
    alloc: Global,
    bits: StampBits,
    options: &GuestOptions<'_>,
    image: &Image,
    files: GuestFiles,
    out: &mut O,
    err: &mut E,
) -> Result<ContextsRun, Ending>
    requires { AreInRange (guest_in options.now) }
    ensures { GuestIsRun (HasContexts (greatest bits)) (is_within (greatest bits))
        (guest_in options.now) image.now files
        (sinks (O.state out.old) (E.state err.old)) (sinks (O.state out.new) (E.state err.new)) result }
{
    let none = Contexts::new(alloc)?;
    let run = keep_run(alloc, bits, options, image, files, none, out, err)?;
    let KeptRun {
        kept,
        counts,
        ended,
    } = run;
    let contexts = kept.into_totals(alloc, counts)?;
    Ok(ContextsRun {
        contexts,
        finish: ended.finish,
    })
}

// The text of a report, and behind it the contexts.
fn contexts_report(
    alloc: Global,
    image: &Image,
    contexts: &ContextTotals,
    finish: &Finish,
) -> Result<Vec<u8>, AllocError>
    requires { (most : ℕ) × ((past : List Event) × AreContextTotalsOf most contexts.now past) }
    ensures few { IfOk result (λ text. (most : ℕ) (past : List Event)
        → AreContextTotalsOf most contexts.now past → can_be_numbered past ≡ true) }
    ensures text { IfOk result (λ text. (most : ℕ) (seen : ObservedRun)
        → AreContextTotalsOf most contexts.now seen.past → finish.now ≡ seen.finish
        → text.items ≡ contexts_report image.now seen) }
{
    let report = report_of(alloc, image, &contexts.totals, *finish)?;
    let mut text = write_report(alloc, &report)?;
    push_contexts(&mut text, &contexts.tree)?;
    Ok(text)
}

// Stores the report of a run with its contexts, where those can be numbered.
fn deliver_contexts<F: Files>(
    alloc: Global,
    path: &str,
    image: &Image,
    run: ContextsRun,
    files: &mut F,
) -> Result<Verdict, Ending>
    requires { (most : ℕ) × ((past : List Event) × HaveContexts most run.contexts past) }
    ensures { (bits : StampBits) (most : ℕ) → IsStored (HasContexts most)
        (analysed path.now (ContextsAsked bits) image.now) run (F.state files.old) (F.state files.new) result }
{
    let ContextsRun { contexts, finish } = run;
    let Some(contexts) = contexts else {
        return Ok(Verdict::ResultTooLarge);
    };
    let text = contexts_report(alloc, image, &contexts, &finish)?;
    store_result(path, text.as_slice(), finish, files)
}

/// Runs a guest that was prepared, and stores the report of its run with its contexts.
pub(crate) fn contexts_job<F: Files, O: Sink, E: Sink>(
    alloc: Global,
    guest: &GuestOptions<'_>,
    path: &str,
    bits: StampBits,
    prepared: Prepared,
    files: &mut F,
    out: &mut O,
    err: &mut E,
) -> Result<Verdict, Ending>
    requires { AreInRange (guest_in guest.now) }
    ensures { JobRuns (job_of (guest_in guest.now) path.now (ContextsAsked bits)) prepared
        (outside (F.state files.old) (O.state out.old) (E.state err.old))
        (outside (F.state files.new) (O.state out.new) (E.state err.new)) (ending_by result) }
{
    let image = prepared.image;
    let run = contexts_of_run(alloc, bits, guest, &image, prepared.files, out, err)?;
    deliver_contexts(alloc, path, &image, run, files)
}
