//! Writing a report.
ghost use Rattle.std.specs.Prelude.{◌≡◌, ◌++◌, IfOk, OnErr, OnOk};
ghost use Rattle.std.specs.List.{flat_map};
ghost use Rattle.profile_report.specs.LineForms.{ended, point_line};
ghost use Rattle.profile_report.specs.ReportText.{report_text, routine_text};

use crate::line_text::{
    or_cut_back, push_end_line, push_first_line, push_number_line, push_point_line,
    push_routine_line,
};
use crate::{Report, Routine};
use cost_points::Point;
use std::alloc::{AllocError, Global};

/// Appends a line for each point. If it runs out of memory, the text stays as it was.
#[tactic(auto, using(guest_words::proofs::Texts::keeps, guest_words::proofs::Texts::cut_back))]
pub fn push_points(text: &mut Vec<u8>, points: &[Point]) -> Result<(), AllocError>
    ensures ok { OnOk result (text.new.items
        ≡ text.old.items ++ flat_map (λ p. ended (point_line p)) points.now) }
    ensures err { OnErr result (text.new.items ≡ text.old.items) }
{
    let length = text.len();
    for point in points {
        or_cut_back(push_point_line(text, *point), text, length)?;
    }
    Ok(())
}

// Appends a routine's line and those of its points.
fn push_routine(text: &mut Vec<u8>, routine: &Routine) -> Result<(), AllocError>
    ensures { OnOk result (text.new.items ≡ text.old.items ++ routine_text routine.now) }
{
    push_routine_line(text, routine.entry, &routine.name)?;
    push_points(text, &routine.points)
}

// Appends the lines of all routines.
fn push_routines(text: &mut Vec<u8>, routines: &[Routine]) -> Result<(), AllocError>
    ensures { OnOk result (text.new.items
        ≡ text.old.items ++ flat_map routine_text routines.now) }
{
    for routine in routines {
        push_routine(text, routine)?;
    }
    Ok(())
}

/// The text of a report, in its version. Whether each point is one of this version is not looked at: where one isn't, the
/// text is refused when it is read.
pub fn write_report(alloc: Global, report: &Report) -> Result<Vec<u8>, AllocError>
    ensures { IfOk result (λ text. text.items ≡ report_text report.now) }
{
    let mut text = Vec::new(alloc);
    push_first_line(&mut text, report.version)?;
    push_end_line(&mut text, report.finish)?;
    push_number_line(&mut text, b"steps ", report.steps)?;
    push_number_line(&mut text, b"open ", report.pending)?;
    push_routines(&mut text, &report.routines)?;
    push_number_line(&mut text, b"done ", report.routines.len() as u64)?;
    Ok(text)
}
