//! The kernel of a guest: what it keeps between two system calls, and what calls do to that.
//!
//! The state is seen as one record (specs/Kernel.antt). The calls themselves stand in guest_calls.
#![tactic(auto)]

mod answer;
mod channel;
mod copies;
mod descriptor;
mod descriptors;
mod errors;
mod inputs;
mod kernel;
mod laws;
mod outgoing;
mod parts;
mod state;
mod thread;
mod threads;
mod waits;
mod waking;

pub use answer::Answer;
pub use channel::Channel;
pub use copies::{copy_to, fill, fill_word, note_read};
pub use descriptor::Descriptor;
pub use errors::{
    EACCES, EAGAIN, EBADF, EFAULT, EINVAL, EMFILE, ENAMETOOLONG, ENOENT, ENOMEM, ENOSYS, ENOTTY,
    ESPIPE, ETIMEDOUT,
};
pub use inputs::Inputs;
pub use kernel::Kernel;
pub use laws::wakes_exactly;
pub use outgoing::{Outgoing, WRITE_LIMIT};
pub use parts::IoVec;
pub use state::State;
