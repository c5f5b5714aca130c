//! Calls and returns: which jumps are which, by the link registers x1 and x5 of the return-address stack of the RISC-V
//! unprivileged ISA manual, and the open calls of a thread and of all threads. Contracts see the open calls as a list, and
//! those of one thread beside how many can be pushed without allocating. A call may be kept with what its thread had
//! counted when it began.
#![tactic(auto)]

mod call_stacks;
mod counted_calls;
mod jumps;
mod missed;
mod open_calls;
mod returns;

pub use call_stacks::CallStacks;
pub use counted_calls::{BegunCall, ThreadCounts};
pub use jumps::{JumpKind, kind};
pub use missed::Missed;
pub use open_calls::{OpenCall, OpenCalls};
pub use returns::{Returns, top_returns_to};
