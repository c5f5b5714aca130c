//! The command `trace`: a guest's output, and the trace of its run.
ghost use Rattle.std.specs.Prelude.{◌≡◌, ◌≤◌, ℕ, List, Some, IfOk};
ghost use Rattle.command_line.specs.Options.Analysis.{Trace};
ghost use Rattle.command_line.specs.Read.{AreInRange, guest_in};
ghost use Rattle.guest_words.specs.declared.endings.Finish.TheVariants as ends;
ghost use Rattle.trace_file.specs.TraceText.{trace_text};
ghost use Rattle.trace_model.specs.declared.event_kinds.Event.{Event};
ghost use Rattle.aprof_top.specs.Private.Jobs.{AreTexts, GuestIsRun, IsShortText, IsStored, IsTraced, JobRuns, ending_by};
ghost use Rattle.aprof_top.specs.Outcome.{analysed, job_of};
ghost use Rattle.aprof_top.specs.Outside.{outside};
ghost use Rattle.aprof_top.specs.Traces.{named_entries, names_begun};
ghost use Rattle.stamps.specs.declared.width.StampBits.TheVariants.{B32};
ghost use Rattle.stamps.specs.Widths.{greatest};
ghost use Rattle.trace_model.specs.Depth.{is_within};
ghost use Rattle.guest_run.specs.Output.{sinks};

use crate::delivery::store_result;
use crate::ending::{Ending, Verdict};
use crate::guest_job::{GuestFiles, run_image};
use crate::preparation::Prepared;
use command_line::GuestOptions;
use elf_image::Image;
use guest_words::limits::TRACE_BYTES;
use guest_words::{Addr, Finish, Name};
use host_io::{Files, Sink};
use std::alloc::{AllocError, Global};
use std::collections::BTreeSet;
use stored_traces::{EventText, RunTrace};

/// The text of a run's events, unless that is too long, and how the run ended.
#[derive(Drop)]
pub(crate) struct TracedRun {
    pub(crate) text: Option<EventText>,
    pub(crate) finish: Finish,
}

// Runs an executable, and writes the trace of its run.
fn trace_image<O: Sink, E: Sink>(
    alloc: Global,
    options: &GuestOptions<'_>,
    image: &Image,
    files: GuestFiles,
    out: &mut O,
    err: &mut E,
) -> Result<TracedRun, Ending>
    requires { AreInRange (guest_in options.now) }
    ensures { GuestIsRun IsTraced (is_within (greatest B32))
        (guest_in options.now) image.now files
        (sinks (O.state out.old) (E.state err.old)) (sinks (O.state out.new) (E.state err.new)) result }
{
    let mut trace = RunTrace::new(alloc)?;
    let ended = run_image(alloc, options, image, files, &mut trace, out, err)?;
    let text = trace.into_text()?;
    Ok(TracedRun {
        text,
        finish: ended.finish,
    })
}

// The entries that the executable gives a name, with these.
fn named_entries(
    alloc: Global,
    image: &Image,
    entries: BTreeSet<Addr>,
) -> Result<Vec<(Addr, Name)>, AllocError>
    ensures { IfOk result (λ names. names.items ≡ named_entries image.now entries.keys) }
{
    let mut entries = entries;
    let mut names = Vec::new(alloc);
    while let Some(entry) = entries.pop_first() {
        if let Some(name) = image.name_of(alloc, entry)? {
            names.push((entry, name))?;
        }
    }
    Ok(names)
}

// The text of a trace, with the names of the entries and how the run ended; `None` where it is too long.
fn whole_text(
    alloc: Global,
    image: &Image,
    text: EventText,
    finish: &Finish,
) -> Result<Option<Vec<u8>>, AllocError>
    requires line { (line : ℕ) → finish.now ≡ ends.Schedule line → 1 ≤ line }
    requires text { (past : List Event) × AreTexts (Some text) past }
    ensures { IfOk result (λ found. (past : List Event) → AreTexts (Some text) past
        → IsShortText (trace_text past (names_begun image.now past) finish.now) found) }
{
    let EventText { writer, entries } = text;
    let names = named_entries(alloc, image, entries)?;
    let bytes = writer.finish(names.as_slice(), finish)?;
    if bytes.len() as u64 > TRACE_BYTES {
        return Ok(None);
    }
    Ok(Some(bytes))
}

// Stores the trace of a run, where it is not too long.
fn deliver_trace<F: Files>(
    alloc: Global,
    path: &str,
    image: &Image,
    run: TracedRun,
    files: &mut F,
) -> Result<Verdict, Ending>
    requires line { (line : ℕ) → run.finish ≡ ends.Schedule line → 1 ≤ line }
    requires text { (past : List Event) × AreTexts run.text past }
    ensures { IsStored IsTraced (analysed path.now Trace image.now) run (F.state files.old) (F.state files.new) result }
{
    let TracedRun { text, finish } = run;
    let Some(text) = text else {
        return Ok(Verdict::ResultTooLarge);
    };
    let Some(bytes) = whole_text(alloc, image, text, &finish)? else {
        return Ok(Verdict::ResultTooLarge);
    };
    store_result(path, bytes.as_slice(), finish, files)
}

/// Runs a guest that was prepared, and stores the trace of its run.
pub(crate) fn trace_job<F: Files, O: Sink, E: Sink>(
    alloc: Global,
    guest: &GuestOptions<'_>,
    path: &str,
    prepared: Prepared,
    files: &mut F,
    out: &mut O,
    err: &mut E,
) -> Result<Verdict, Ending>
    requires { AreInRange (guest_in guest.now) }
    ensures { JobRuns (job_of (guest_in guest.now) path.now Trace) prepared
        (outside (F.state files.old) (O.state out.old) (E.state err.old))
        (outside (F.state files.new) (O.state out.new) (E.state err.new)) (ending_by result) }
{
    let image = prepared.image;
    let run = trace_image(alloc, guest, &image, prepared.files, out, err)?;
    deliver_trace(alloc, path, &image, run, files)
}
