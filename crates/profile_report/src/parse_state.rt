//! How far a report has been read.
ghost use Rattle.std.specs.Prelude.{◌≡◌, true, [], ◌∷◌, ◌++◌, is_some, IfErr, IfOk};
ghost use Rattle.profile_report.specs.Grammar.{closed, count_of, has_points, is_above, last_entry, last_size, may_stand, next, rises};
ghost use Rattle.profile_report.specs.Fits.{is_of_version};
ghost use Rattle.profile_report.specs.Reading.{has_begun};
ghost use Rattle.profile_report.specs.declared.parse_state.ParseState.TheVariants.{AtRoutines};

use crate::line::Line;
use crate::{Report, ReportVersion, Routine};
use cost_points::Point;
use guest_words::{Addr, Finish, Name};
use std::alloc::{AllocError, Global};

/// What the lines so far said, named for the line that comes next.
#[derive(Drop)]
pub enum ParseState {
    /// The version comes next.
    AtVersion,
    /// How the run ended comes next.
    AtEnd(ReportVersion),
    /// The number of instructions comes next.
    AtSteps(ReportVersion, Finish),
    /// The number of open activations comes next.
    AtOpen(ReportVersion, Finish, u64),
    /// Routines and their points come, or the end: the routines that are whole, and the one that began last.
    AtRoutines(Report, Option<Routine>),
    /// Nothing comes.
    Over(Report),
}

// Whether the routine that began last has a point, where one began.
fn has_points(begun: &Option<Routine>) -> bool
    ensures { result ≡ has_points begun.now }
{
    match begun {
        Some(routine) => !routine.points.is_empty(),
        None => true,
    }
}

// The number of routines, with the one that began last.
fn count_of(report: &Report, begun: &Option<Routine>) -> u64
    ensures { result ≡ count_of report.now begun.now }
{
    let whole = report.routines.len() as u64;
    match begun {
        Some(_) => whole + 1,
        None => whole,
    }
}

// Whether a point is one of the version: the parts of its sizes are told in version 2 only.
fn is_of_version(version: ReportVersion, point: &Point) -> bool
    ensures { result ≡ is_of_version version point.now }
{
    match version {
        ReportVersion::One => point.split.is_none(),
        ReportVersion::Two => point.split.is_some(),
    }
}

/// Whether a line may come in a state, apart from its order.
pub fn may_stand(state: &ParseState, line: &Line) -> bool
    ensures { result ≡ may_stand state.now line.now }
{
    match (state, line) {
        (ParseState::AtVersion, Line::First(_)) => true,
        (ParseState::AtEnd(_), Line::End(_)) => true,
        (ParseState::AtSteps(_, _), Line::Steps(_)) => true,
        (ParseState::AtOpen(_, _, _), Line::Open(_)) => true,
        (ParseState::AtRoutines(_, begun), Line::OfRoutine(_, _)) => has_points(begun),
        (ParseState::AtRoutines(report, begun), Line::OfPoint(point)) => {
            begun.is_some() && is_of_version(report.version, point)
        }
        (ParseState::AtRoutines(report, begun), Line::Done(routines)) => {
            has_points(begun) && *routines == count_of(report, begun)
        }
        _ => false,
    }
}

// The entry of the routine that began last, where one began.
fn last_entry(begun: &Option<Routine>) -> Option<u64>
    ensures { result ≡ last_entry begun.now }
{
    match begun {
        Some(routine) => Some(u64::from(routine.entry)),
        None => None,
    }
}

// The last size of the routine that began last, where it has a point.
fn last_size(begun: &Option<Routine>) -> Option<u64>
    ensures { result ≡ last_size begun.now }
{
    match begun {
        Some(routine) => match routine.points.last() {
            Some(point) => Some(point.size),
            None => None,
        },
        None => None,
    }
}

// Whether a number is above the last one, where there is one.
fn is_above(last: Option<u64>, number: u64) -> bool
    ensures { result ≡ is_above last number }
{
    match last {
        Some(last) => last < number,
        None => true,
    }
}

/// Whether a line keeps the order: entries rise, and sizes rise within a routine.
pub fn rises(state: &ParseState, line: &Line) -> bool
    ensures { result ≡ rises state.now line.now }
{
    match (state, line) {
        (ParseState::AtRoutines(_, begun), Line::OfRoutine(entry, _)) => {
            is_above(last_entry(begun), u64::from(*entry))
        }
        (ParseState::AtRoutines(_, begun), Line::OfPoint(point)) => is_above(
            last_size(begun),
            point.size,
        ),
        _ => true,
    }
}

// The report with the routine that began last, where one began.
fn closed(mut report: Report, begun: Option<Routine>) -> Result<Report, AllocError>
    ensures ok { IfOk result (λ r. r ≡ closed report begun) }
    ensures err { IfErr result (λ _. is_some begun ≡ true) }
{
    if let Some(routine) = begun {
        report.routines.push(routine)?;
    }
    Ok(report)
}

// A report that has no routine yet.
fn without_routines(
    alloc: Global,
    version: ReportVersion,
    finish: Finish,
    steps: u64,
    pending: u64,
) -> Report
    ensures { result ≡ record {
      version = version;
      finish = finish;
      steps = steps;
      pending = pending;
      routines = [];
    } }
{
    Report {
        version,
        finish,
        steps,
        pending,
        routines: Vec::new(alloc),
    }
}

// A routine that has no point yet.
fn without_points(alloc: Global, entry: Addr, name: Option<Name>) -> Routine
    ensures { result ≡ record { entry = entry; name = name; points = [] } }
{
    Routine {
        entry,
        name,
        points: Vec::new(alloc),
    }
}

// The routine with one more point.
fn with_point(mut routine: Routine, point: Point) -> Result<Routine, AllocError>
    ensures { IfOk result (λ r. r ≡ record routine { points = routine.points ++ point ∷ [] }) }
{
    routine.points.push(point)?;
    Ok(routine)
}

// The state behind a line that may come where routines do.
fn next_of_routines(
    alloc: Global,
    report: Report,
    begun: Option<Routine>,
    line: Line,
) -> Result<ParseState, AllocError>
    ensures ok { IfOk result (λ p. p ≡ next (AtRoutines report begun) line) }
    ensures err { IfErr result (λ _. is_some begun ≡ true) }
{
    match line {
        Line::OfRoutine(entry, name) => {
            let report = closed(report, begun)?;
            Ok(ParseState::AtRoutines(report, Some(without_points(alloc, entry, name))))
        }
        Line::OfPoint(point) => match begun {
            Some(routine) => Ok(ParseState::AtRoutines(report, Some(with_point(routine, point)?))),
            None => Ok(ParseState::AtRoutines(report, None)),
        },
        Line::Done(_) => Ok(ParseState::Over(closed(report, begun)?)),
        _ => Ok(ParseState::AtRoutines(report, begun)),
    }
}

/// The state behind a line that may come in this one.
pub fn next(alloc: Global, state: ParseState, line: Line) -> Result<ParseState, AllocError>
    ensures ok { IfOk result (λ p. p ≡ next state line) }
    ensures err { IfErr result (λ _. has_begun state ≡ true) }
{
    match (state, line) {
        (ParseState::AtVersion, Line::First(version)) => Ok(ParseState::AtEnd(version)),
        (ParseState::AtEnd(version), Line::End(finish)) => {
            Ok(ParseState::AtSteps(version, finish))
        }
        (ParseState::AtSteps(version, finish), Line::Steps(steps)) => {
            Ok(ParseState::AtOpen(version, finish, steps))
        }
        (ParseState::AtOpen(version, finish, steps), Line::Open(pending)) => {
            let report = without_routines(alloc, version, finish, steps, pending);
            Ok(ParseState::AtRoutines(report, None))
        }
        (ParseState::AtRoutines(report, begun), line) => {
            next_of_routines(alloc, report, begun, line)
        }
        (state, _) => Ok(state),
    }
}
