//! A stack in a vector that keeps what was popped, so that a push mostly writes over it and does not look for memory.
#![tactic(auto)]

mod room_stack;

pub use room_stack::RoomStack;
