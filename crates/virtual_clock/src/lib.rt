//! The times at which sleeping threads wake: at most one deadline a thread, each with the answer that its thread wakes with.
//!
//! The deadlines are seen as one list, in the order in which they were set. Its room is taken as it is made, so no later call
//! allocates.
#![tactic(auto)]

mod deadline;
mod deadlines;

pub use deadline::Deadline;
pub use deadlines::Deadlines;
