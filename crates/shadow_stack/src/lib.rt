//! The frames of a thread, one for each open activation: when it began, and its partial sums, as in the algorithm of Coppa,
//! Demetrescu and Finocchi ("Input-Sensitive Profiling", PLDI 2012); and its call. Contracts see a list of frames, the outermost
//! first, the list of their calls, the innermost first, and beside them the room for further ones.
#![tactic(auto)]

mod frames;
mod steps;
mod sums;

pub use frames::Frames;
pub use steps::Steps;
pub use sums::Sums;
