//! The run of a guest, as every command that has one makes it.
ghost use Rattle.std.specs.Prelude.{◌≡◌, [], true};
ghost use Rattle.command_line.specs.Read.{AreInRange, guest_in};
ghost use Rattle.guest_run.specs.Output.{sinks};
ghost use Rattle.guest_run.specs.ObservedRun.{first_past};
ghost use Rattle.aprof_top.specs.Private.Jobs.{GuestRuns};

use crate::ending::Ending;
use command_line::GuestOptions;
use elf_image::Image;
use guest_kernel::Inputs;
use guest_machine::Machine;
use guest_run::{Ended, run_guest};
use host_io::Sink;
use std::alloc::Global;
use thread_sched::{Sched, Schedule};
use trace_model::Observer;

/// What a guest finds beside its executable: its schedule, its input files and its standard input.
#[derive(Drop)]
pub(crate) struct GuestFiles {
    pub(crate) schedule: Schedule,
    pub(crate) inputs: Inputs,
    pub(crate) stdin: Vec<u8>,
}

/// Runs an executable: its output goes to the sinks step by step, and its events to the observer.
pub(crate) fn run_image<W: Observer, O: Sink, E: Sink>(
    alloc: Global,
    options: &GuestOptions<'_>,
    image: &Image,
    files: GuestFiles,
    observer: &mut W,
    out: &mut O,
    err: &mut E,
) -> Result<Ended, Ending>
    requires range { AreInRange (guest_in options.now) }
    requires empty { W.stands observer.old [] }
    requires first { W.fits observer.old (first_past image.now.entry) ≡ true }
    ensures { GuestRuns W.stands (W.fits observer.old) (guest_in options.now) image.now files
        (sinks (O.state out.old) (E.state err.old)) observer.new (sinks (O.state out.new) (E.state err.new)) result }
{
    let words = options.arguments(alloc)?;
    let machine = Machine::new(alloc, image, words.as_slice(), files.inputs, files.stdin)?;
    let turns = Sched::new(options.quantum, files.schedule);
    let ended = run_guest(alloc, machine, turns, options.budget, observer, out, err)?;
    Ok(ended)
}
