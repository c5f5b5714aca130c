//! The online profiler: it keeps the stamp table of `stamp_table`, the live threads and the pages of stamps. Each event changes
//! the table by one row, and no past is kept; the sizes, the parts by cause and the costs that it records are those of the
//! definitions of `trace_model`, whatever the threads' order.
#![tactic(auto)]

mod advance;
mod apply_error;
mod cover;
mod endings;
mod profiler;
mod reads;
mod rows;
mod writes;

pub use apply_error::ApplyError;
pub use profiler::{Profiler, Written};
pub use reads::Access;
pub use writes::Latest;
