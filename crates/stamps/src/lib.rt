//! Stamps: the bounded numbers by which a profiler tells what came before what. They are kept in 8, 16 or 32 bits, and the
//! width bounds how many activations can be open at once. Contracts see a stamp as its number.
#![tactic(auto)]

mod stamp;
mod width;

pub use stamp::Stamp;
pub use width::{StampBits, depth_limit};
