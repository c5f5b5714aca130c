//! The commands that run a guest, of the matches that `clap` makes.
ghost use Rattle.std.specs.Prelude.{◌≡◌, IfOk, IfErr, Some, None};
ghost use Rattle.clap.specs.Words.{found_of, rows_of};
ghost use Rattle.command_line.specs.Options.{guest_asked_of_rows};
ghost use Rattle.command_line.specs.Read.{AreInRange, guest_asked_in, guest_in};
ghost use Rattle.command_line.specs.declared.commands.CommandError.TheVariants.{Refused};

use crate::analysis::{Analysis, analysis_of_matches};
use crate::commands::CommandError;
use crate::guest_options::{GuestOptions, guest_of_matches};
use crate::matches::text_of;
use clap::ArgMatches;
use std::alloc::Global;

/// What a command that runs a guest is asked: `guest_asked_in` says it.
#[derive(Drop)]
pub struct GuestCommand<'a> {
    /// How the guest is run.
    pub guest: GuestOptions<'a>,
    /// The path of what is stored of the run, after `-o`.
    pub output: &'a str,
    /// What is made of the run.
    pub analysis: Analysis<'a>,
}

/// The command of this name, which runs a guest, that its matches say.
pub(crate) fn guest_command_of_matches<'a>(
    alloc: Global,
    name: &str,
    matches: &ArgMatches<'a>,
) -> Result<GuestCommand<'a>, CommandError>
    ensures asked { IfOk result (λ command.
        guest_asked_of_rows name.now (rows_of (found_of matches.now)) ≡ Some (guest_asked_in command)) }
    ensures refused { IfErr result (λ e. e ≡ Refused
        → guest_asked_of_rows name.now (rows_of (found_of matches.now)) ≡ None) }
    ensures ranges { IfOk result (λ command. AreInRange (guest_in command.guest)) }
{
    let Some(analysis) = analysis_of_matches(name, matches) else {
        return Err(CommandError::Refused);
    };
    Ok(GuestCommand {
        guest: guest_of_matches(alloc, matches)?,
        output: text_of(matches, "output").ok_or(CommandError::Refused)?,
        analysis,
    })
}
