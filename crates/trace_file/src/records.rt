//! Records, and the forms that they have.

use guest_words::limits::NAME_BYTES;
use guest_words::{Addr, Finish, Name};
use trace_model::Event;

/// The line that a trace begins with.
pub const MAGIC: [u8; 14] = *b"aprof trace 1\n";

/// How many bytes the longest record has, that of a name.
pub const RECORD_BYTES: usize = 9 + NAME_BYTES;

/// What a record says.
#[derive(Drop)]
pub enum Record {
    /// The next event.
    OfEvent(Event),
    /// The name of the routine with this entry.
    OfName(Addr, Name),
    /// How the run ended.
    OfFinish(Finish),
}

/// The forms of records, each named for what it says.
#[derive(Clone, Copy)]
pub enum Form {
    Step,
    Read,
    Write,
    Fill,
    Call,
    Ret,
    Start,
    End,
    Named,
    Exit,
    Fault,
    Budget,
    Deadlock,
    Deep,
    Schedule,
}

/// The least and the greatest that a number of a record can be. The least is 0 or 1.
#[derive(Clone, Copy)]
pub struct Range {
    pub least: u32,
    pub most: u32,
}
