//! The text of a recorded trace: a line that says what it is, then one record for each event, one for each name of a
//! routine, and one that says how the run ended. It is written event by event, and read in any pieces.
//!
//! A record is the bytes that say which form it has, then its numbers in 32 bits, lowest byte first, then a name's bytes.
#![tactic(auto)]

mod errors;
mod laws;
mod reader;
mod record_reader;
mod records;
mod writer;

pub use errors::TraceError;
pub use laws::{a_text_is_of_one_trace, beginnings_are_read, bytes_read_in_one_way};
pub use reader::{TraceEnd, TraceReader};
pub use writer::TraceWriter;
