//! The fixed command line.
ghost use Rattle.std.specs.Prelude.{◌≡◌, IfOk, false};
ghost use Rattle.clap.specs.Words.{App, app_of, rule_of, with_subcommand};
ghost use Rattle.clap.specs.declared.builder.command.Command.TheViews.{out-Command};
ghost use Rattle.command_line.specs.App.{the_app, top_app, guest_app, run_app, demo_app, trace_app, cache_app, replay_app, contexts_app, flag_rule, output_rule, required_option, required_rule, value_rule, word_rule};
ghost use Rattle.command_line.specs.Private.Parts.{options_app};

use clap::{Arg, ArgAction, Command};
use std::alloc::{AllocError, Global};

// An option that takes one value, `--name VALUE`.
fn value_option<'a>(alloc: Global, name: &'a str) -> Arg<'a>
    ensures rule { rule_of result ≡ value_rule name.entry.now }
    ensures local { result.global ≡ false }
{
    Arg::new(alloc, name).long(name).action(ArgAction::Set)
}

// The same, which has to be there.
fn required_option<'a>(alloc: Global, name: &'a str) -> Arg<'a>
    ensures rule { rule_of result ≡ required_option name.entry.now }
    ensures local { result.global ≡ false }
{
    Arg::new(alloc, name)
        .long(name)
        .action(ArgAction::Set)
        .required(true)
}

// An option without a value, `--name`.
fn flag<'a>(alloc: Global, name: &'a str) -> Arg<'a>
    ensures rule { rule_of result ≡ flag_rule name.entry.now }
    ensures local { result.global ≡ false }
{
    Arg::new(alloc, name).long(name).action(ArgAction::SetTrue)
}

// `-o PATH`, which has to be there.
fn output_option<'a>(alloc: Global) -> Arg<'a>
    ensures rule { rule_of result ≡ output_rule }
    ensures local { result.global ≡ false }
{
    Arg::new(alloc, "output")
        .short('o')
        .action(ArgAction::Set)
        .required(true)
}

// One word of its own, which has to be there.
fn required_value<'a>(alloc: Global, name: &'a str) -> Arg<'a>
    ensures rule { rule_of result ≡ required_rule name.entry.now }
    ensures local { result.global ≡ false }
{
    Arg::new(alloc, name).action(ArgAction::Set).required(true)
}

// Any number of further words.
fn further_words<'a>(alloc: Global) -> Arg<'a>
    ensures rule { rule_of result ≡ word_rule }
    ensures local { result.global ≡ false }
{
    Arg::new(alloc, "word")
        .action(ArgAction::Append)
        .num_args(0..)
}

// A command of this name, with how a guest is run. It stands apart since a long chain of calls takes long to prove.
fn with_options<'a>(alloc: Global, name: &'a str) -> Result<Command<'a>, AllocError>
    ensures app { IfOk result (λ c. app_of c ≡ options_app name.entry.now) }
    ensures local { IfOk result (λ c. (out-Command c).has_globals ≡ false) }
{
    Command::new(alloc, name)
        .arg(value_option(alloc, "stdin"))?
        .arg(value_option(alloc, "quantum"))?
        .arg(value_option(alloc, "schedule"))?
        .arg(value_option(alloc, "budget"))
}

// A command of this name that runs a guest: how the guest is run, where the result is stored, the image and the further words.
fn guest_subcommand<'a>(alloc: Global, name: &'a str) -> Result<Command<'a>, AllocError>
    ensures app { IfOk result (λ c. app_of c ≡ guest_app name.entry.now) }
    ensures local { IfOk result (λ c. (out-Command c).has_globals ≡ false) }
{
    with_options(alloc, name)?
        .arg(output_option(alloc))?
        .arg(required_value(alloc, "image"))?
        .arg(further_words(alloc))
}

// `run`, with what it has beside.
fn run_subcommand<'a>(alloc: Global) -> Result<Command<'a>, AllocError>
    ensures app { IfOk result (λ c. app_of c ≡ run_app) }
    ensures local { IfOk result (λ c. (out-Command c).has_globals ≡ false) }
{
    guest_subcommand(alloc, "run")?
        .arg(value_option(alloc, "record"))?
        .arg(value_option(alloc, "stamps"))?
        .arg(flag(alloc, "stats"))
}

// `cache`, with its shape.
fn cache_subcommand<'a>(alloc: Global) -> Result<Command<'a>, AllocError>
    ensures app { IfOk result (λ c. app_of c ≡ cache_app) }
    ensures local { IfOk result (λ c. (out-Command c).has_globals ≡ false) }
{
    guest_subcommand(alloc, "cache")?
        .arg(required_option(alloc, "sets"))?
        .arg(required_option(alloc, "ways"))?
        .arg(required_option(alloc, "line"))
}

// `contexts`, with the width of stamps.
fn contexts_subcommand<'a>(alloc: Global) -> Result<Command<'a>, AllocError>
    ensures app { IfOk result (λ c. app_of c ≡ contexts_app) }
    ensures local { IfOk result (λ c. (out-Command c).has_globals ≡ false) }
{
    guest_subcommand(alloc, "contexts")?.arg(value_option(alloc, "stamps"))
}

// `replay`, with its options and the trace.
fn replay_subcommand<'a>(alloc: Global) -> Result<Command<'a>, AllocError>
    ensures app { IfOk result (λ c. app_of c ≡ replay_app) }
    ensures local { IfOk result (λ c. (out-Command c).has_globals ≡ false) }
{
    Command::new(alloc, "replay")
        .arg(value_option(alloc, "stamps"))?
        .arg(flag(alloc, "stats"))?
        .arg(output_option(alloc))?
        .arg(required_value(alloc, "trace"))
}

// `demo`, with its number.
#[tactic(auto, unfolding(crate::specs::App::demo_app))]
fn demo_subcommand<'a>(alloc: Global) -> Result<Command<'a>, AllocError>
    ensures app { IfOk result (λ c. app_of c ≡ demo_app) }
    ensures local { IfOk result (λ c. (out-Command c).has_globals ≡ false) }
{
    Command::new(alloc, "demo").arg(required_value(alloc, "number"))
}

// The command without its subcommands.
#[tactic(auto, unfolding(crate::specs::App::top_app))]
fn top_command<'a>(alloc: Global) -> Command<'a>
    ensures app { app_of result ≡ top_app }
    ensures local { (out-Command result).has_globals ≡ false }
{
    Command::new(alloc, "aprof")
        .subcommand_required(true)
        .disable_help_flag(true)
        .disable_help_subcommand(true)
        .disable_version_flag(true)
}

// The command with the subcommand, where that was made.
fn with_made<'a>(
    command: Command<'a>,
    made: Result<Command<'a>, AllocError>,
) -> Result<Command<'a>, AllocError>
    ensures { (top : App) (sub : App) → app_of command.entry ≡ top
        → IfOk made.entry (λ c. app_of c ≡ sub)
        → IfOk made.entry (λ c. (out-Command c).has_globals ≡ false)
        → IfOk result (λ c. app_of c ≡ with_subcommand top sub.top) }
{
    command.subcommand(made?)
}

/// The whole command.
pub(crate) fn whole_command<'a>(alloc: Global) -> Result<Command<'a>, AllocError>
    ensures { IfOk result (λ c. app_of c ≡ the_app) }
{
    let command = with_made(top_command(alloc), run_subcommand(alloc))?;
    let command = with_made(command, demo_subcommand(alloc))?;
    let command = with_made(command, guest_subcommand(alloc, "trace"))?;
    let command = with_made(command, cache_subcommand(alloc))?;
    let command = with_made(command, replay_subcommand(alloc))?;
    with_made(command, contexts_subcommand(alloc))
}
