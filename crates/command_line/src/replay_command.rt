//! The command `replay`, of the matches that `clap` makes.
ghost use Rattle.std.specs.Prelude.{◌≡◌, option_map};
ghost use Rattle.clap.specs.Words.{found_of, rows_of};
ghost use Rattle.command_line.specs.Options.{replay_of_rows};
ghost use Rattle.command_line.specs.Read.{replay_in};

use crate::commands::CommandError;
use crate::matches::{has_flag, text_of};
use crate::numbers::bits_of;
use clap::ArgMatches;
use stamps::StampBits;

/// What `replay` is asked: `replay_in` says its options.
#[derive(Drop)]
pub struct ReplayCommand<'a> {
    /// The path of the trace.
    pub trace: &'a str,
    /// The path of the report, after `-o`.
    pub report: &'a str,
    /// The width of stamps.
    pub bits: StampBits,
    /// Whether the number of renumberings is to be put.
    pub stats: bool,
}

/// The command that the matches of `replay` say.
pub(crate) fn replay_of_matches<'a>(matches: &ArgMatches<'a>) -> Option<ReplayCommand<'a>>
    ensures { option_map replay_in result ≡ replay_of_rows (rows_of (found_of matches.now)) }
{
    Some(ReplayCommand {
        trace: text_of(matches, "trace")?,
        report: text_of(matches, "output")?,
        bits: bits_of(text_of(matches, "stamps"))?,
        stats: has_flag(matches, "stats"),
    })
}
