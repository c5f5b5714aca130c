//! The cost points of a profile: for each routine and each size of its input, how many ended activations had that size,
//! and the least, the greatest and the sum of their costs, as the cost plots of Coppa, Demetrescu and Finocchi
//! ("Input-Sensitive Profiling", PLDI 2012) take them. Contracts see a table as the points of the activations that were
//! added to it.
#![tactic(auto)]

mod blocks;
mod by_key;
mod indexes;
mod point;
mod routine;
mod routines;
mod sorted;
mod table;
mod tally;

pub use blocks::{Keyed, Place};
pub use by_key::ByKey;
pub use point::{Point, Split};
pub use sorted::{SortedPoints, insert_point};
pub use table::Table;
