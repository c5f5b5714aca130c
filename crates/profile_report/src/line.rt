//! What a line of a report says.
use crate::ReportVersion;
use cost_points::Point;
use guest_words::{Addr, Finish, Name};

/// What a line says.
#[derive(Drop)]
pub enum Line {
    /// The version of the text.
    First(ReportVersion),
    /// How the run ended.
    End(Finish),
    /// How many instructions ran.
    Steps(u64),
    /// How many activations had begun and not ended.
    Open(u64),
    /// A routine begins: its entry, and its name where it has one.
    OfRoutine(Addr, Option<Name>),
    /// A point of the routine that began last.
    OfPoint(Point),
    /// The report is over: how many routines it has.
    Done(u64),
}

/// Why bytes are not read as a line.
#[derive(Clone, Copy)]
pub enum LineError {
    /// They have none of the forms.
    NoForm,
    /// Out of memory.
    Memory,
}
