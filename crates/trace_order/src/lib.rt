//! The order of events: whether an event may come next after those so far, told from the live threads, the thread of the last
//! step, the greatest thread number and the weight, and not from the events.
#![tactic(auto)]

mod order;
mod progress;

pub use order::Order;
pub use progress::{Progress, thread_of};
