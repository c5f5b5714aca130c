//! Reading a report.
ghost use Rattle.std.specs.Prelude.{◌≡◌, ℕ, List, [], IfOk, IfErr, MatchResult};
ghost use Rattle.profile_report.specs.Reading.{IsMisplaced, IsReportRefused, RefusesLine, RefusesRest};
ghost use Rattle.profile_report.specs.Private.Lines.{Leads};
ghost use Rattle.profile_report.specs.Reported.{Reported};
ghost use Rattle.profile_report.specs.ReportText.{report_text};
ghost use Rattle.profile_report.specs.Valid.{IsValid};
ghost use Rattle.profile_report.specs.declared.parse_state.ParseState.TheVariants.{Over};

use crate::Report;
use crate::line::LineError;
use crate::line_reader::read_line;
use crate::parse_state::{ParseState, may_stand, next, rises};
use guest_words::cut;
use std::alloc::{AllocError, Global};
use thiserror::Error;

/// Why a text is not read as a report. Lines are counted from 1.
#[derive(Clone, Copy, Debug, PartialEq, Eq, Error)]
pub enum ReportError {
    /// The first line names no version that is known.
    #[error("not a report of a known version")]
    Version,
    /// The line has no form that may stand there, or bytes follow the last line.
    #[error("line {line} may not stand there")]
    Line { line: u64 },
    /// The line's entry or size does not rise.
    #[error("line {line} does not rise")]
    Order { line: u64 },
    /// The text ends before the report does.
    #[error("the report is cut off")]
    Short,
    /// Out of memory.
    #[error("out of memory")]
    Memory,
}

impl From<AllocError> for ReportError {
    ghost use Rattle.std.specs.Prelude.{◌≡◌};
    ghost use Rattle.profile_report.specs.declared.reader.ReportError.TheVariants.{Memory};

    ghost from_gives = { λ _ e. e ≡ Memory };

    fn from(_error: AllocError) -> ReportError {
        ReportError::Memory
    }
}

// The refusal of a line that may not come in a state.
fn misplaced(state: &ParseState, number: u64) -> ReportError
    ensures { (bytes : List ℕ) → IsMisplaced state.now bytes
        → RefusesLine number state.now bytes result }
{
    match state {
        ParseState::AtVersion => ReportError::Version,
        _ => ReportError::Line { line: number },
    }
}

// The state behind a line of this number.
fn step(
    alloc: Global,
    state: ParseState,
    bytes: &[u8],
    number: u64,
) -> Result<ParseState, ReportError>
    ensures ok { IfOk result (λ after. Leads state bytes.now after) }
    ensures err { IfErr result (λ e. RefusesLine number state bytes.now e) }
{
    let line = match read_line(alloc, bytes) {
        Ok(line) => line,
        Err(LineError::NoForm) => return Err(misplaced(&state, number)),
        Err(LineError::Memory) => return Err(ReportError::Memory),
    };
    if !may_stand(&state, &line) {
        return Err(misplaced(&state, number));
    }
    if !rises(&state, &line) {
        return Err(ReportError::Order { line: number });
    }
    Ok(next(alloc, state, line)?)
}

// The report behind whose lines stands a rest that has no whole line.
fn finish(state: ParseState, rest: &[u8], number: u64) -> Result<Report, ReportError>
    ensures ok { IfOk result (λ r. (state ≡ Over r) × (rest.now ≡ [])) }
    ensures err { IfErr result (λ e. RefusesRest number state rest.now e) }
{
    match state {
        ParseState::Over(report) => {
            if rest.is_empty() {
                Ok(report)
            } else {
                Err(ReportError::Line { line: number })
            }
        }
        _ => Err(ReportError::Short),
    }
}

/// The report whose text this is: line by line, and the first line that fails gives the refusal.
pub fn read_report(alloc: Global, text: &[u8]) -> Result<Report, ReportError>
    ensures found { IfOk result (λ r. IsValid r × (text.now ≡ report_text r)) }
    ensures only { (r : Reported) → IsValid r → text.now ≡ report_text r
        → MatchResult result (λ x. x ≡ r) (λ e. e ≡ ReportError.Memory) }
    ensures refused { IfErr result (λ e. IsReportRefused text.now e) }
{
    let mut state = ParseState::AtVersion;
    let mut rest = text;
    let mut number = 1;
    while let Some((line, after)) = cut(rest, b'\n') {
        state = step(alloc, state, line, number)?;
        rest = after;
        number += 1;
    }
    finish(state, rest, number)
}
