//! The command `replay`: the report of a stored trace.
ghost use Rattle.std.specs.Prelude.{◌≡◌, ℕ, List, [], ◌∷◌, map, if◌then◌else◌, IfOk};
ghost use Rattle.command_line.specs.Read.{replay_in};
ghost use Rattle.guest_words.specs.declared.endings.Finish.TheVariants.{Deep};
ghost use Rattle.host_io.specs.Sink.{SinkState};
ghost use Rattle.stamps.specs.Widths.{greatest};
ghost use Rattle.stored_traces.specs.Replays.{IsReplayOf, Replays};
ghost use Rattle.aprof_top.specs.Private.Jobs.{HandsOut, RunIsStored, desk, ending_by, store_of};
ghost use Rattle.aprof_top.specs.Outcome.{IsReplay, replay_outcome, replay_text};
ghost use Rattle.aprof_top.specs.Outside.{outside};

use crate::delivery::{Store, put_stats, store_all};
use crate::ending::{Ending, Verdict};
use crate::report::report_of;
use crate::trace_names::TraceNames;
use command_line::ReplayCommand;
use guest_words::Finish;
use host_io::{Files, Sink};
use profile_report::write_report;
use stamps::StampBits;
use std::alloc::{AllocError, Global};
use stored_traces::{Replayed, replay};
use trace_file::TraceError;

// Profiles a trace by stamps of the width.
fn replay_by_width(alloc: Global, bits: StampBits, bytes: &[u8]) -> Result<Replayed, TraceError>
    ensures { Replays (greatest bits) bytes.now result }
{
    match bits {
        StampBits::B8 => replay::<u8>(alloc, bytes),
        StampBits::B16 => replay::<u16>(alloc, bytes),
        StampBits::B32 => replay::<u32>(alloc, bytes),
    }
}

// How a trace ended, by whether stamps tell its open activations apart to its end.
fn told_finish(whole: bool, finish: Finish) -> Finish
    ensures { result ≡ (if whole then finish else Deep) }
{
    if whole { finish } else { Finish::Deep }
}

// The files to store of a trace: its report.
fn replay_stores<'a>(
    alloc: Global,
    path: &'a str,
    bits: StampBits,
    replayed: Replayed,
) -> Result<Vec<Store<'a>>, AllocError>
    requires { (bytes : List ℕ) × IsReplayOf (greatest bits) bytes replayed }
    ensures { IfOk result (λ stores. (bytes : List ℕ)
        (is : IsReplayOf (greatest bits) bytes replayed) →
        map store_of stores.items ≡ (path.entry.now, replay_text bits replayed.names.items replayed.finish is.past) ∷ []) }
{
    let finish = told_finish(replayed.whole, replayed.finish);
    let names = TraceNames::new(replayed.names);
    let report = report_of(alloc, &names, &replayed.totals, finish)?;
    let bytes = write_report(alloc, &report)?;
    let mut stores = Vec::new(alloc);
    stores.push(Store { path, bytes })?;
    Ok(stores)
}

// Stores the report of a trace, and then puts its statistics.
fn deliver_replay<F: Files, E: Sink>(
    alloc: Global,
    command: &ReplayCommand<'_>,
    replayed: Replayed,
    files: &mut F,
    err: &mut E,
) -> Result<Verdict, Ending>
    requires { (bytes : List ℕ) × IsReplayOf (greatest command.now.bits) bytes replayed }
    ensures { (bytes : List ℕ) (is : IsReplayOf (greatest command.now.bits) bytes replayed) →
        RunIsStored (replay_outcome (replay_in command.now) replayed.names.items replayed.finish is.past)
        (desk (F.state files.old) (E.state err.old)) (desk (F.state files.new) (E.state err.new)) result }
{
    let renumbered = replayed.totals.counts.renumbered;
    let stores = replay_stores(alloc, command.report, command.bits, replayed)?;
    store_all(stores.as_slice(), files)?;
    put_stats(alloc, command.stats, renumbered, err)?;
    Ok(Verdict::Done)
}

/// Stores the report of a trace, and puts its statistics.
pub(crate) fn replay_command<F: Files, E: Sink>(
    alloc: Global,
    command: &ReplayCommand<'_>,
    trace: &[u8],
    files: &mut F,
    err: &mut E,
) -> Result<Verdict, Ending>
    ensures { (out : SinkState) → HandsOut (IsReplay (replay_in command.now) trace.now)
        (outside (F.state files.old) out (E.state err.old))
        (outside (F.state files.new) out (E.state err.new)) (ending_by result) }
{
    let replayed = replay_by_width(alloc, command.bits, trace)?;
    deliver_replay(alloc, command, replayed, files, err)
}
