//! The commands that run a guest: its output, and what each makes of its run.
ghost use Rattle.command_line.specs.Read.{AreInRange, guest_in};
ghost use Rattle.aprof_top.specs.Private.Jobs.{FilesRun, JobRuns, ending_by, job_in};
ghost use Rattle.aprof_top.specs.Private.Loading.{loaded_in};
ghost use Rattle.aprof_top.specs.Outside.{outside};

use crate::cache_job::cache_job;
use crate::contexts_job::contexts_job;
use crate::ending::{Ending, Verdict};
use crate::loaded::Loaded;
use crate::preparation::{Prepared, prepare};
use crate::run_job::run_job;
use crate::trace_job::trace_job;
use command_line::{Analysis, GuestCommand};
use host_io::{Files, Sink};
use std::alloc::Global;

// Runs a guest that was prepared, and stores what the command makes of its run.
fn run_prepared<F: Files, O: Sink, E: Sink>(
    alloc: Global,
    command: &GuestCommand<'_>,
    prepared: Prepared,
    files: &mut F,
    out: &mut O,
    err: &mut E,
) -> Result<Verdict, Ending>
    requires { AreInRange (guest_in command.now.guest) }
    ensures { JobRuns (job_in command.now) prepared
        (outside (F.state files.old) (O.state out.old) (E.state err.old))
        (outside (F.state files.new) (O.state out.new) (E.state err.new)) (ending_by result) }
{
    let guest = &command.guest;
    let path = command.output;
    match &command.analysis {
        Analysis::Run(options) => run_job(alloc, guest, path, options, prepared, files, out, err),
        Analysis::Trace => trace_job(alloc, guest, path, prepared, files, out, err),
        Analysis::Cache(shape) => cache_job(alloc, guest, path, *shape, prepared, files, out, err),
        Analysis::Contexts(bits) => {
            contexts_job(alloc, guest, path, *bits, prepared, files, out, err)
        }
    }
}

/// Prepares the guest of a command of these files, runs it, and stores what the command makes of its run.
pub(crate) fn guest_command<F: Files, O: Sink, E: Sink>(
    alloc: Global,
    command: &GuestCommand<'_>,
    loaded: Loaded,
    files: &mut F,
    out: &mut O,
    err: &mut E,
) -> Result<Verdict, Ending>
    requires { AreInRange (guest_in command.now.guest) }
    ensures { FilesRun (job_in command.now) (loaded_in loaded)
        (outside (F.state files.old) (O.state out.old) (E.state err.old))
        (outside (F.state files.new) (O.state out.new) (E.state err.new)) (ending_by result) }
{
    let prepared = prepare(alloc, loaded)?;
    run_prepared(alloc, command, prepared, files, out, err)
}
