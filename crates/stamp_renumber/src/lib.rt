//! The tick of a bounded counter. At the greatest stamp all stamps are renumbered: each gets a number of its class, which is
//! how many activations that are open had begun by then, and the order that a profiler looks at stays.
#![tactic(auto)]

mod frames;
mod laws;
mod pages;
mod renumbering;
mod rows;
mod starts;
mod thread_stamps;
mod threads;
mod ticks;

pub use laws::{renumbering_keeps_order, ticks_stay_above};
pub use thread_stamps::{EndedCall, Returned};
pub use threads::Threads;
pub use ticks::{Ticked, tick};
