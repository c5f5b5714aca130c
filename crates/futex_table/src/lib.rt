//! The threads that wait at words of the guest's memory, as futex(2) has them: first in, first out.
//!
//! The table is seen as one list of address, thread and bits, in order of waiting. Its room is taken as it is made, so no
//! later call allocates.
#![tactic(auto)]

mod partition;
mod table;
mod waiter;

pub use table::FutexTable;
