//! What `clap` makes of the words.
ghost use Rattle.std.specs.Prelude.{◌≡◌, IfOk, IfErr, [], map, true, option_map, string_bytes, unwrap_or};
ghost use Rattle.clap.specs.Words.{all_of, first_of, found_of, kind_of, rows_of, subcommand_of, subcommand_rows_of, takes};
ghost use Rattle.clap.specs.declared.error.kind.ErrorKind.TheVariants.{OutOfMemory};
ghost use Rattle.command_line.specs.App.{the_app};
ghost use Rattle.command_line.specs.Options.{has_flag};

use crate::app::whole_command;
use clap::{ArgMatches, Error};
use std::alloc::{AllocError, Global};

/// The matches of the words. An error other than out of memory comes only where `clap`'s stated test does not take them.
pub(crate) fn matches_of_words<'a>(
    alloc: Global,
    words: &'a [String],
) -> Result<ArgMatches<'a>, Error>
    ensures rows { IfOk result (λ m. subcommand_rows_of m
        ≡ subcommand_of the_app (map string_bytes words.entry.now)) }
    ensures passes { IfErr result (λ e. takes the_app (map string_bytes words.entry.now) ≡ true
        → kind_of e ≡ OutOfMemory) }
{
    whole_command(alloc)?.try_get_matches_from(words)
}

/// The name and the matches of the subcommand.
pub(crate) fn subcommand_of<'m, 'a>(
    matches: &'m ArgMatches<'a>,
) -> Option<(&'a str, &'m ArgMatches<'a>)>
    ensures { option_map (λ p. (p.0.now, rows_of (found_of p.1.now))) result
        ≡ subcommand_rows_of matches.now }
{
    matches.subcommand()
}

/// The first value of an argument.
pub(crate) fn text_of<'a>(matches: &ArgMatches<'a>, id: &str) -> Option<&'a str>
    ensures { option_map (λ s. s.now) result ≡ first_of id.now (rows_of (found_of matches.now)) }
{
    matches.get_str(id)
}

/// Whether an option without a value is given.
pub(crate) fn has_flag(matches: &ArgMatches, id: &str) -> bool
    ensures { result ≡ has_flag id.now (rows_of (found_of matches.now)) }
{
    text_of(matches, id) == Some("true")
}

/// All values of an argument.
pub(crate) fn texts_of<'a>(
    alloc: Global,
    matches: &ArgMatches<'a>,
    id: &str,
) -> Result<Vec<&'a str>, AllocError>
    ensures { IfOk result (λ texts. map (λ t. t.now) texts.items
        ≡ unwrap_or (all_of id.now (rows_of (found_of matches.now))) []) }
{
    match matches.get_raw(id) {
        Some(texts) => Vec::from_slice(alloc, texts),
        None => Ok(Vec::new(alloc)),
    }
}
