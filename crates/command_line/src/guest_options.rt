//! How a guest is run, of the matches that `clap` makes: what every command that runs one is asked.
ghost use Rattle.std.specs.Prelude.{◌≡◌, IfOk, IfErr, MatchOption, ◌&&◌, not, map, true, false, Some, None, string_bytes};
ghost use Rattle.std.specs.List.{list_any};
ghost use Rattle.std.specs.Str.{bytes_eq};
ghost use Rattle.clap.specs.Words.{found_of, rows_of};
ghost use Rattle.command_line.specs.Options.{arguments, inputs, is_plain_argument, argument_of, guest_of_rows};
ghost use Rattle.command_line.specs.Read.{AreInRange, guest_in};
ghost use Rattle.command_line.specs.declared.commands.CommandError.TheVariants.{Refused};

use crate::commands::CommandError;
use crate::matches::{text_of, texts_of};
use crate::numbers::number_or;
use clap::ArgMatches;
use guest_words::limits::{QUANTUM_STEPS, RUN_STEPS};
use std::alloc::{AllocError, Global};

/// The most steps of a turn, where the words don't say.
pub const DEFAULT_QUANTUM: u64 = 10_000;

/// The most steps of a run, where the words don't say.
pub const DEFAULT_BUDGET: u64 = 1_000_000_000;

/// How a guest is run: what every command that runs one is asked. `guest_in` says its options.
#[derive(Drop)]
pub struct GuestOptions<'a> {
    /// The path of the guest's standard input.
    pub stdin: Option<&'a str>,
    /// The path of a schedule that the run is to follow.
    pub schedule: Option<&'a str>,
    /// The most steps of a turn.
    pub quantum: u64,
    /// The most steps of the run.
    pub budget: u64,
    /// The path of the image.
    pub image: &'a str,
    /// The further words.
    pub words: Vec<&'a str>,
}

/// The guest's options that the matches of a command say.
pub(crate) fn guest_of_matches<'a>(
    alloc: Global,
    matches: &ArgMatches<'a>,
) -> Result<GuestOptions<'a>, CommandError>
    ensures asked { IfOk result (λ guest. guest_of_rows (rows_of (found_of matches.now))
        ≡ Some (guest_in guest)) }
    ensures refused { IfErr result (λ e. e ≡ Refused
        → guest_of_rows (rows_of (found_of matches.now)) ≡ None) }
    ensures ranges { IfOk result (λ guest. AreInRange (guest_in guest)) }
{
    let quantum_text = text_of(matches, "quantum");
    let quantum = number_or(DEFAULT_QUANTUM, 1, QUANTUM_STEPS, quantum_text);
    let budget_text = text_of(matches, "budget");
    let budget = number_or(DEFAULT_BUDGET, 1, RUN_STEPS, budget_text);
    Ok(GuestOptions {
        stdin: text_of(matches, "stdin"),
        schedule: text_of(matches, "schedule"),
        quantum: quantum.ok_or(CommandError::Refused)?,
        budget: budget.ok_or(CommandError::Refused)?,
        image: text_of(matches, "image").ok_or(CommandError::Refused)?,
        words: texts_of(alloc, matches, "word")?,
    })
}

// What follows the `=` that a word begins with.
fn plain_argument(word: &str) -> Option<&str>
    ensures { MatchOption result (is_plain_argument word.now ≡ false)
        (λ text. (is_plain_argument word.now ≡ true) × (text.now ≡ argument_of word.now)) }
{
    word.strip_prefix('=')
}

// The argument that a word gives the guest.
fn argument(alloc: Global, word: &str) -> Result<String, AllocError>
    ensures { IfOk result (λ text. string_bytes text ≡ argument_of word.now) }
{
    match plain_argument(word) {
        Some(text) => String::from_str(alloc, text),
        None => String::from_str(alloc, word),
    }
}

// Whether the word names an input that was not found before.
fn is_new_input(found: &[&str], word: &str) -> bool
    ensures { result ≡ (not (is_plain_argument word.now)
        && not (list_any (λ name. bytes_eq name.now word.now) found.now)) }
{
    plain_argument(word).is_none() && !found.contains(&word)
}

impl<'a> GuestOptions<'a> {
    /// The guest's arguments: the image's path and then the words, without their `=`.
    pub fn arguments(&self, alloc: Global) -> Result<Vec<String>, AllocError>
        ensures { IfOk result (λ v. map string_bytes v.items ≡ arguments (guest_in self.now)) }
    {
        let mut arguments = Vec::new(alloc);
        arguments.push(String::from_str(alloc, self.image)?)?;
        for word in &self.words {
            arguments.push(argument(alloc, word)?)?;
        }
        Ok(arguments)
    }

    /// The names of the input files: the words that don't begin with `=`, each once.
    pub fn inputs(&self, alloc: Global) -> Result<Vec<&'a str>, AllocError>
        ensures { IfOk result (λ v. map (λ name. name.now) v.items ≡ inputs (guest_in self.now)) }
    {
        let mut inputs: Vec<&'a str> = Vec::new(alloc);
        for word in &self.words {
            if is_new_input(&inputs, word) {
                inputs.push(*word)?;
            }
        }
        Ok(inputs)
    }
}
