//! Misses of a cache of lines that drops the least recently used one. Contracts see the lines of each set, the most recent
//! first, and relate them to the list of all accesses so far, from which alone a miss is defined.
#![tactic(auto)]

mod cache;
mod recency;
mod shape;

pub use cache::Cache;
pub use shape::{LEAST_LINE, LINE, SETS, Shape, WAYS};
