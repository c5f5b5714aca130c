//! The commands, and the words that ask for them.
ghost use Rattle.std.specs.Prelude.{◌≡◌, ◌≤◌, IfOk, IfErr, IfSome, false, map, Some, None, string_bytes};
ghost use Rattle.std.specs.List.{list_any};
ghost use Rattle.clap.specs.Words.{found_of, rows_of};
ghost use Rattle.command_line.specs.Options.{AsksFor, asked_of_rows, demo_of_rows, has_zero};
ghost use Rattle.command_line.specs.Read.{IsCommandInRange, asked_in};
ghost use Rattle.command_line.specs.declared.commands.CommandError.TheVariants.{Memory, Refused};

use crate::guest_command::{GuestCommand, guest_command_of_matches};
use crate::matches::{matches_of_words, subcommand_of, text_of};
use crate::numbers::number_between;
use crate::replay_command::{ReplayCommand, replay_of_matches};
use clap::ArgMatches;
use clap::error::ErrorKind;
use guest_words::limits::DEMO_ROUTINES;
use std::alloc::{AllocError, Global};
use thiserror::Error;

// The greatest number of a demo.
const MAX_DEMO: u64 = DEMO_ROUTINES as u64;

/// Why no command is made of the words.
#[derive(Clone, Copy, Debug, PartialEq, Eq, Error)]
pub enum CommandError {
    /// The words are not of the form.
    #[error("bad command line")]
    Refused,
    /// Out of memory.
    #[error("out of memory")]
    Memory,
}

impl From<AllocError> for CommandError {
    ghost use Rattle.std.specs.Prelude.{◌≡◌};
    ghost use Rattle.command_line.specs.declared.commands.CommandError.TheVariants.{Memory};

    ghost from_gives = { λ _ e. e ≡ Memory };

    fn from(_error: AllocError) -> CommandError {
        CommandError::Memory
    }
}

/// What the words ask for: `asked_in` says it.
#[derive(Drop)]
pub enum Command<'a> {
    /// A guest's run, and what is made of it.
    Guest(GuestCommand<'a>),
    /// The report of a stored trace.
    Replay(ReplayCommand<'a>),
    /// The demo of a number.
    Demo(u32),
}

// Whether a word has a zero byte.
fn has_zero(word: &str) -> bool
    ensures { result ≡ has_zero word.now }
{
    word.as_bytes().contains(&0)
}

// Whether some word has a zero byte.
fn some_has_zero(words: &[String]) -> bool
    ensures { result ≡ list_any (λ word. has_zero (string_bytes word)) words.now }
{
    words.iter().any(|word| has_zero(word.as_str()))
}

// The number that the matches of `demo` say.
fn demo_of_matches(matches: &ArgMatches) -> Option<u32>
    ensures number { result ≡ demo_of_rows (rows_of (found_of matches.now)) }
    ensures range { IfSome result (λ number. (1 ≤ number) × (number ≤ DEMO_ROUTINES)) }
{
    let number = number_between(1, MAX_DEMO, text_of(matches, "number")?)?;
    Some(number as u32)
}

// The command that a subcommand asks for.
fn command_of<'a>(
    alloc: Global,
    name: &str,
    matches: &ArgMatches<'a>,
) -> Result<Command<'a>, CommandError>
    ensures asked { IfOk result (λ command. asked_of_rows name.now (rows_of (found_of matches.now))
        ≡ Some (asked_in command)) }
    ensures refused { IfErr result (λ e. e ≡ Refused
        → asked_of_rows name.now (rows_of (found_of matches.now)) ≡ None) }
    ensures ranges { IfOk result (λ command. IsCommandInRange command) }
{
    if name == "replay" {
        let command = replay_of_matches(matches).ok_or(CommandError::Refused)?;
        return Ok(Command::Replay(command));
    }
    if name == "demo" {
        let number = demo_of_matches(matches).ok_or(CommandError::Refused)?;
        return Ok(Command::Demo(number));
    }
    Ok(Command::Guest(guest_command_of_matches(alloc, name, matches)?))
}

/// Reads the words of the command line, the program's name first.
pub fn read_command<'a>(alloc: Global, words: &'a [String]) -> Result<Command<'a>, CommandError>
    ensures asked { IfOk result (λ command. AsksFor (map string_bytes words.entry.now)
        (Some (asked_in command))) }
    ensures refused { IfErr result (λ e. e ≡ Refused
        → AsksFor (map string_bytes words.entry.now) None) }

    // That a word has a zero byte is seen before any memory is wanted.
    ensures zero { IfErr result (λ e. e ≡ Memory
        → list_any has_zero (map string_bytes words.entry.now) ≡ false) }
    ensures ranges { IfOk result (λ command. IsCommandInRange command) }
{
    if some_has_zero(words) {
        return Err(CommandError::Refused);
    }
    let matches = match matches_of_words(alloc, words) {
        Ok(matches) => matches,
        Err(error) if error.kind() == ErrorKind::OutOfMemory => return Err(CommandError::Memory),
        Err(_) => return Err(CommandError::Refused),
    };
    match subcommand_of(&matches) {
        Some((name, found)) => command_of(alloc, name, found),
        None => Err(CommandError::Refused),
    }
}
