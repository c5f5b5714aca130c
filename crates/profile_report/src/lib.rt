//! The report of a profiled run: how the run ended, how long it was, and the cost points of each routine, as a text of
//! lines. A text is of one of two versions, and that of version 2 tells besides the parts of the points' sizes by cause.
//! Contracts see a report as plain data, and the text as a definition over it: a form a line. The text of calling contexts has
//! the same lines for points.
#![tactic(auto)]

mod addresses;
mod context_writer;
mod laws;
mod line;
mod line_reader;
mod line_text;
mod parse_state;
mod point_reader;
mod reader;
mod report;
mod writer;

pub use context_writer::push_contexts;
pub use laws::{a_text_is_of_one_report, a_text_reads_in_one_way};
pub use line_text::{
    hex_address, push_end_line, push_number_line, push_point_line, push_routine_line,
};
pub use reader::{ReportError, read_report};
pub use report::{Report, ReportVersion, Routine};
pub use writer::{push_points, write_report};
