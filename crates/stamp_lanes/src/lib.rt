//! Slices of stamps, gone over sixteen lanes at a time. Every call is told by a plain definition over the numbers of the stamps,
//! for every length and width, and none allocates.
#![tactic(auto)]

mod block;
mod bulk;
mod classes;
mod extremes;
mod lanes;
mod renewal;

pub use bulk::Bulk;
pub use lanes::Lanes;
