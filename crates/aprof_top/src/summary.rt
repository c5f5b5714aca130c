//! The summary of a report.
ghost use Rattle.std.specs.Prelude.{◌≡◌, ◌+◌, ◌++◌, ◌*◌, ◌<◌, ◌^◌, IfOk, OnOk};
ghost use Rattle.std.specs.List.{sum_by};
ghost use Rattle.profile_report.specs.LineForms.{ended, labelled};
ghost use Rattle.aprof_top.specs.Summary.{activations, costs, sizes, summary_text};
ghost use Rattle.aprof_top.specs.Private.Totals.{FitsTotals};

use cost_points::Point;
use guest_words::push_decimal;
use profile_report::{Report, Routine, push_end_line};
use std::alloc::{AllocError, Global};

// The totals of routines: how many activations they had, and the sums of these activations' sizes and costs.
#[derive(Clone, Copy)]
struct Sums {
    activations: u128,
    sizes: u128,
    costs: u128,
}

impl Sums {
    // These totals and those of a routine's points.
    fn with_points(self, points: &[Point]) -> Sums
        requires activations { self.activations + sum_by (λ p. p.calls) points.now < 2 ^ 128 }
        requires sizes { self.sizes + sum_by (λ p. p.size * p.calls) points.now < 2 ^ 128 }
        requires costs { self.costs + sum_by (λ p. p.sum) points.now < 2 ^ 128 }
        ensures activations { result.activations ≡ self.activations
            + sum_by (λ p. p.calls) points.now }
        ensures sizes { result.sizes ≡ self.sizes + sum_by (λ p. p.size * p.calls) points.now }
        ensures costs { result.costs ≡ self.costs + sum_by (λ p. p.sum) points.now }
    {
        let mut totals = self;
        for point in points {
            totals.activations += u128::from(point.calls);
            totals.sizes += u128::from(point.size) * u128::from(point.calls);
            totals.costs += point.sum;
        }
        totals
    }
}

// The totals of routines.
fn totals_of(routines: &[Routine]) -> Sums
    requires { FitsTotals routines.now }
    ensures activations { result.activations ≡ activations routines.now }
    ensures sizes { result.sizes ≡ sizes routines.now }
    ensures costs { result.costs ≡ costs routines.now }
{
    let mut totals = Sums {
        activations: 0,
        sizes: 0,
        costs: 0,
    };
    for routine in routines {
        totals = totals.with_points(routine.points.as_slice());
    }
    totals
}

// Appends the line of a number after its label.
fn push_line(text: &mut Vec<u8>, label: &[u8], number: u128) -> Result<(), AllocError>
    ensures { OnOk result (text.new.items ≡ text.old.items ++ ended (labelled label.now number)) }
{
    text.extend_from_slice(label)?;
    push_decimal(text, number)?;
    text.extend_from_slice(b"\n")
}

/// The summary of a report: the demo's number, how the run ended, and the totals.
pub(crate) fn summary(alloc: Global, number: u32, report: &Report) -> Result<Vec<u8>, AllocError>
    requires { FitsTotals report.now.routines }
    ensures { IfOk result (λ text. text.items ≡ summary_text number report.now) }
{
    let totals = totals_of(report.routines.as_slice());
    let mut text = Vec::new(alloc);
    push_line(&mut text, b"demo ", u128::from(number))?;
    push_end_line(&mut text, report.finish)?;
    push_line(&mut text, b"steps ", u128::from(report.steps))?;
    push_line(&mut text, b"routines ", report.routines.len() as u128)?;
    push_line(&mut text, b"activations ", totals.activations)?;
    push_line(&mut text, b"sizes ", totals.sizes)?;
    push_line(&mut text, b"costs ", totals.costs)?;
    Ok(text)
}
