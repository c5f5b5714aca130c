//! Laws on the written product, each the contract of a function that does nothing but call other laws.
ghost use Rattle.aprof_top.specs.CallCosts.{KernelCallsCostByTheirBytes};
ghost use Rattle.aprof_top.specs.Contexts.{ContextsAreATree};
ghost use Rattle.aprof_top.specs.Laws.{ContextsBeginWithTheReport, EachCommandHasAnOutcome, OneOutcome, RunsAreBounded, TracesReplay, TwoRunsAgree};
ghost use Rattle.aprof_top.specs.ProgramLimits.{AreProgramLimits};
ghost use Rattle.aprof_top.specs.StoredReports.{StoredReportsAreValid};

use demo_guest::a_demo_has_one_file;
use guest_calls::every_syscall_is_lawful;
use guest_run::{recordings_are_schedules, runs_replay, runs_stay_within};
use guest_words::limits::limits_are_promised;
use trace_file::{a_text_is_of_one_trace, bytes_read_in_one_way};

/// A command has at most one outcome over the files that it loads: one verdict, with the same output and the same files to
/// store.
pub fn a_command_has_one_outcome()
    ensures { OneOutcome }
{
    a_demo_has_one_file();
    a_text_is_of_one_trace();
    bytes_read_in_one_way();
}

/// No command lacks an outcome: whatever the words, and whatever the files that they load, it can't be that no outcome is right.
pub fn a_command_has_an_outcome()
    ensures { EachCommandHasAnOutcome }
{}

/// Two runs agree, where the second is under the recording that the first stored, with the same other words and files: verdict,
/// output, recording and report are the same, unless the first run ended at an entry of its own schedule.
pub fn two_runs_agree()
    ensures { TwoRunsAgree }
{
    runs_replay();
    recordings_are_schedules();
}

/// The report of a stored trace is that of its run: what `replay` makes of the trace that `trace` stores is what `run` stores with
/// the same other words and files, for stamps of any width, and `--stats` counts the same.
pub fn traces_replay()
    ensures { TracesReplay }
{
    a_text_is_of_one_trace();
    bytes_read_in_one_way();
}

/// What `contexts` stores begins, byte for byte, with the report that `run` stores with the same options and files, and both
/// have the same verdict and the same output of the guest.
pub fn contexts_begin_with_the_report()
    ensures { ContextsBeginWithTheReport }
{}

/// The contexts of a run are a tree: that of an open activation is the one that it got when it began; and the order of the text
/// is depth first, where those right under one context stand in order of their first begins.
pub fn contexts_are_a_tree()
    ensures { ContextsAreATree }
{}

/// The report that a command stores is valid: its routines stand by rising entry, their points by rising size, each number is in
/// its width, and the parts and the costs of a point are those of as many activations. What `contexts` stores begins with such
/// a report.
pub fn stored_reports_are_valid()
    ensures { StoredReportsAreValid }
{}

/// The run of a command is bounded by its budget, whatever the executable, its files and its schedule: in its steps, and in the
/// moves of each turn, of which there is one at least. So is the whole run, which goes on where stamps no longer tell its open
/// calls apart, as `cache` counts its misses.
pub fn runs_are_bounded()
    ensures { RunsAreBounded }
{
    runs_stay_within();
}

/// What the copies of a kernel call cost the profiler, without their ticks, is at most 8 steps for each event, and 32 and the
/// binary digits of the depth for each word that the bytes carried and a table of 1024 parts fill, and for two more words an
/// event, whatever the state of the profiler at each.
pub fn kernel_calls_cost_by_their_bytes()
    ensures { KernelCallsCostByTheirBytes }
{
    every_syscall_is_lawful();
}

/// The limits of the program in numbers: what is promised of them, whatever the definitions that cite their names.
pub fn program_limits_are_promised()
    ensures { AreProgramLimits }
{
    limits_are_promised();
}
