//! The calling contexts of a run: the lists of routines that call one another, from the first one of a thread down.
#![tactic(auto)]

mod branches;
mod errors;
mod laws;
mod numbers;
mod order;
mod points;
mod sums;
mod tree;

pub use errors::TreeError;
pub use laws::{contexts_add_up, the_order_is_one};
pub use numbers::ContextNumbers;
pub use tree::Tree;
