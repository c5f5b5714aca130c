//! The top call.
ghost use Rattle.std.specs.Prelude.{◌≤◌, map, string_bytes};
ghost use Rattle.aprof_top.specs.Answers.{EndsBy, IsAnswered};
ghost use Rattle.aprof_top.specs.Ends.{End};
ghost use Rattle.aprof_top.specs.Standing.{Stands};
ghost use Rattle.aprof_top.specs.StoredReports.{ReportsAreValid};
ghost use Rattle.aprof_top.specs.Private.Ending.{AskedEnds, end_of};
ghost use Rattle.aprof_top.specs.Private.Jobs.{HandsOut, ending_by};
ghost use Rattle.aprof_top.specs.Private.Loading.{LoadsSo, loaded_in};
ghost use Rattle.aprof_top.specs.Loads.{loads_of};
ghost use Rattle.aprof_top.specs.Outcome.{IsAnswer, IsDemo};
ghost use Rattle.aprof_top.specs.Outside.{outside};
ghost use Rattle.host_io.specs.Files.{FilesState};
ghost use Rattle.host_io.specs.Sink.{SinkState};
ghost use Rattle.command_line.specs.Read.{IsCommandInRange, asked_in};

use crate::delivery::put_all;
use crate::demo::run_demo;
use crate::ending::{CommandEnding, Ending, Verdict, ending_by, tell};
use crate::guest_command::guest_command;
use crate::loaded::Loaded;
use crate::loads::load_files;
use crate::replay_job::replay_command;
use crate::source::loads_of;
use command_line::{Command, read_command};
use guest_words::limits::DEMO_ROUTINES;
use host_io::{Files, Sink};
use std::alloc::Global;

// Runs the demo, and puts its summary.
fn show_demo<O: Sink>(alloc: Global, number: u32, out: &mut O) -> Result<Verdict, Ending>
    requires { (1 ≤ number) × (number ≤ DEMO_ROUTINES) }
    ensures { (files : FilesState) (err : SinkState)
        → HandsOut (IsDemo number) (outside files (O.state out.old) err) (outside files (O.state out.new) err) (ending_by result) }
{
    let summary = run_demo(alloc, number)?;
    put_all(summary.as_slice(), out)?;
    Ok(Verdict::Done)
}

// Loads the files of a command.
fn load<'a, F: Files>(
    alloc: Global,
    command: &Command<'a>,
    files: &mut F,
) -> Result<Loaded, CommandEnding<'a>>
    ensures { LoadsSo (loads_of (asked_in command.now)) (F.state files.old) (F.state files.new)
        result }
{
    let loads = loads_of(alloc, command)?;
    load_files(alloc, loads.as_slice(), files)
}

// Does what a command asks for, with its files.
fn do_command<F: Files, O: Sink, E: Sink>(
    alloc: Global,
    command: &Command<'_>,
    loaded: Loaded,
    files: &mut F,
    out: &mut O,
    err: &mut E,
) -> Result<Verdict, Ending>
    requires { IsCommandInRange command.now }
    ensures { HandsOut (IsAnswer (asked_in command.now) (loaded_in loaded))
        (outside (F.state files.old) (O.state out.old) (E.state err.old))
        (outside (F.state files.new) (O.state out.new) (E.state err.new)) (ending_by result) }
{
    match command {
        Command::Guest(command) => guest_command(alloc, command, loaded, files, out, err),
        Command::Replay(command) => {
            replay_command(alloc, command, loaded.trace.as_slice(), files, err)
        }
        Command::Demo(number) => show_demo(alloc, *number, out),
    }
}

// Loads the files of a command, and does what it asks for with them.
fn load_and_do<'a, F: Files, O: Sink, E: Sink>(
    alloc: Global,
    command: &Command<'a>,
    files: &mut F,
    out: &mut O,
    err: &mut E,
) -> CommandEnding<'a>
    requires { IsCommandInRange command.now }
    ensures { AskedEnds (asked_in command.now)
        (outside (F.state files.old) (O.state out.old) (E.state err.old))
        (outside (F.state files.new) (O.state out.new) (E.state err.new)) (end_of result) }
{
    match load(alloc, command, files) {
        Ok(loaded) => {
            let done = do_command(alloc, command, loaded, files, out, err);
            CommandEnding::Ended(ending_by(done))
        }
        Err(ending) => ending,
    }
}

// Does what the words ask for, and puts the last text.
fn answer<F: Files, O: Sink, E: Sink>(
    alloc: Global,
    words: &[String],
    files: &mut F,
    out: &mut O,
    err: &mut E,
) -> u8
    ensures { (end : End) × EndsBy (map string_bytes words.now) end result
        (outside (F.state files.old) (O.state out.old) (E.state err.old))
        (outside (F.state files.new) (O.state out.new) (E.state err.new)) }
{
    match read_command(alloc, words) {
        Ok(command) => {
            let ending = load_and_do(alloc, &command, files, out, err);
            tell(alloc, &ending, err)
        }
        Err(error) => tell(alloc, &CommandEnding::Ended(Ending::from(error)), err),
    }
}

/// Runs the program on the words of its command line, its own name first, and answers its status.
///
/// In words, where the contents of files and sinks are observable: the words ask for a command, and the files that it loads
/// decide an outcome. Of `run` it is the written machine's output, its recording if one is asked for, and the report of its
/// trace; of `trace` the output and the trace; of `cache` the output and the report of cache misses; of `contexts` the output
/// and the report with its calling contexts; of `replay` the report of a stored trace; and of `demo` the summary of the report
/// of a guest of its own.
///
/// The status says how the call ended. Every status but 2, 4 and 10 is the outcome's: all of its output was put and all of its
/// files were stored. At 2 the load of the next file failed, and only the last text was put. At 4 a store, or a put of the
/// output or of the line of `--stats`, failed, and what came before is a first part of the outcome. At 10 memory ran out, and
/// no load, store or put had failed, unless it was the last text of another status that could not be allocated; then the last
/// text of out of memory was put on `err`, unless a put on `err` had failed or that put ran out of memory too. If nothing
/// failed and no file was too long, the status is the outcome's, or 10. Whatever outcome is decided, a report that it stores is a
/// valid one.
pub fn aprof<F: Files, O: Sink, E: Sink>(
    alloc: Global,
    words: &[String],
    files: &mut F,
    out: &mut O,
    err: &mut E,
) -> u8
    ensures answered { IsAnswered (map string_bytes words.now) result
        (outside (F.state files.old) (O.state out.old) (E.state err.old))
        (outside (F.state files.new) (O.state out.new) (E.state err.new)) }
    ensures stands { Stands (map string_bytes words.now) result
        (outside (F.state files.old) (O.state out.old) (E.state err.old))
        (outside (F.state files.new) (O.state out.new) (E.state err.new)) }
    ensures reports { ReportsAreValid (map string_bytes words.now)
        (outside (F.state files.old) (O.state out.old) (E.state err.old))
        (outside (F.state files.new) (O.state out.new) (E.state err.new)) }
{
    answer(alloc, words, files, out, err)
}
