//! What a command makes of its guest's run, of the matches that `clap` makes.
ghost use Rattle.std.specs.Prelude.{◌≡◌, option_map};
ghost use Rattle.clap.specs.Words.{found_of, rows_of};
ghost use Rattle.command_line.specs.Options.{analysis_of_rows, number_to, shape_of_rows};
ghost use Rattle.command_line.specs.Read.{analysis_in};

use crate::matches::{has_flag, text_of};
use crate::numbers::{bits_of, number_between};
use cache_lines::{LINE, SETS, Shape, WAYS};
use clap::ArgMatches;
use stamps::StampBits;

/// What `run` is asked beside: `run_in` says it.
#[derive(Drop)]
pub struct RunOptions<'a> {
    /// The path of a recording of the run's turns, after `--record`.
    pub recording: Option<&'a str>,
    /// The width of stamps.
    pub bits: StampBits,
    /// Whether the number of renumberings is to be put.
    pub stats: bool,
}

/// What is made of a guest's run: `analysis_in` says it.
#[derive(Drop)]
pub enum Analysis<'a> {
    /// The report of `run`.
    Run(RunOptions<'a>),
    /// The trace.
    Trace,
    /// The misses of a cache of the shape.
    Cache(Shape),
    /// The report with its calling contexts, by stamps of the width.
    Contexts(StampBits),
}

// The number that the text says, where there is one: 1 to the greatest.
fn number_to(greatest: u32, text: Option<&str>) -> Option<u32>
    ensures { result ≡ number_to greatest (option_map (λ s. s.now) text.entry) }
{
    let number = number_between(1, u64::from(greatest), text?)?;
    Some(number as u32)
}

// The shape of a cache that the matches say.
fn shape_of_matches(matches: &ArgMatches) -> Option<Shape>
    ensures { result ≡ shape_of_rows (rows_of (found_of matches.now)) }
{
    let sets = number_to(SETS, text_of(matches, "sets"))?;
    let ways = number_to(WAYS, text_of(matches, "ways"))?;
    let line = number_to(LINE, text_of(matches, "line"))?;
    Shape::new(sets, ways, line)
}

/// What the command of this name makes of its guest's run, by its matches.
pub(crate) fn analysis_of_matches<'a>(name: &str, matches: &ArgMatches<'a>) -> Option<Analysis<'a>>
    ensures { option_map analysis_in result
        ≡ analysis_of_rows name.now (rows_of (found_of matches.now)) }
{
    if name == "run" {
        return Some(Analysis::Run(RunOptions {
            bits: bits_of(text_of(matches, "stamps"))?,
            recording: text_of(matches, "record"),
            stats: has_flag(matches, "stats"),
        }));
    }
    if name == "trace" {
        return Some(Analysis::Trace);
    }
    if name == "cache" {
        return Some(Analysis::Cache(shape_of_matches(matches)?));
    }
    if name == "contexts" {
        return Some(Analysis::Contexts(bits_of(text_of(matches, "stamps"))?));
    }
    None
}
