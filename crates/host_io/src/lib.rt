//! The outside of the program: files that are loaded and stored whole, and sinks that take bytes in pieces.
//!
//! Both are traits with a written meaning: the files and the bytes, where an object tells them, and counts of faults
//! that never fall. One pair of objects keeps all in memory and can be made to fail; the other uses the system. A third sink
//! drops what it gets.
#![tactic(auto)]

mod drop_sink;
mod files;
mod memory_files;
mod memory_sink;
mod real_files;
mod sink;
mod stream_sink;

pub use drop_sink::DropSink;
pub use files::{Files, LoadError, StoreError};
pub use memory_files::MemoryFiles;
pub use memory_sink::MemorySink;
pub use real_files::{RealFiles, load_opened};
pub use sink::{PutError, Sink};
pub use stream_sink::StreamSink;
