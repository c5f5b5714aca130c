//! Reports.
use cost_points::Point;
use guest_words::{Addr, Finish, Name};
use std::marker::Model;

/// A routine: its entry, its name where it has one, and its points.
#[derive(Drop)]
pub struct Routine {
    pub entry: Addr,
    pub name: Option<Name>,
    pub points: Vec<Point>,
}

impl Model for Routine {
    ghost use Rattle.profile_report.specs.Reported.{ReportedRoutine};

    ghost Value = { ReportedRoutine };

    ghost view = { λ r. record { entry = r.entry; name = r.name; points = r.points.items } };
}

/// The version of a report's text.
#[derive(Clone, Copy, Debug, PartialEq, Eq)]
pub enum ReportVersion {
    /// The points alone.
    One,
    /// The points, and the parts of their sizes by cause.
    Two,
}

/// A report: the version of its text, how the run ended, how many instructions it ran, how many activations had begun and
/// not ended, and the routines of those that had ended.
#[derive(Drop)]
pub struct Report {
    pub version: ReportVersion,
    pub finish: Finish,
    pub steps: u64,
    pub pending: u64,
    pub routines: Vec<Routine>,
}

impl Model for Report {
    ghost use Rattle.profile_report.specs.Reported.{Reported};

    ghost Value = { Reported };

    ghost view = { λ r. record {
      version = r.version;
      finish = r.finish;
      steps = r.steps;
      pending = r.pending;
      routines = r.routines.items;
    } };
}
