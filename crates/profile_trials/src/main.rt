//! Trials of the profiler: traces at each width of stamps, whose records must be those of the slow program. Most are random,
//! one reads a word a million times, and one is long enough for 16 bits to be renumbered. A line for each says how it went,
//! and so does the status.
#![tactic(auto)]

mod mood;
mod outcome;
mod random;
mod rounds;
mod traces;
mod trial;

use crate::rounds::try_rounds;
use crate::traces::try_traces;
use guest_words::{Tid, Word};
use std::io;
use std::process::ExitCode;
use trace_model::Event;

// How many random traces there are at a width.
const TRACES: u64 = 1000;

// How often a word is read that stays as it is.
const READS: u32 = 1_000_000;

// How often a word is read that is filled before each read.
const FILLS: u32 = 70_000;

fn main(rt: HostRuntime) -> io::Result<ExitCode> {
    let alloc = rt.alloc();
    let (tid, first, count) = (Tid::FIRST, Word::of(0x10400), 1);
    let step = Event::Step { tid };
    let read = Event::Read { tid, first, count };
    let fill = Event::Fill { first, count };
    let mut status = ExitCode::SUCCESS;
    for (what, outcome) in [
        ("u8, random", try_traces::<u8>(alloc, TRACES)?),
        ("u16, random", try_traces::<u16>(alloc, TRACES)?),
        ("u32, random", try_traces::<u32>(alloc, TRACES)?),
        (
            "u8, reads",
            try_rounds::<u8>(alloc, tid, &[step, read], READS)?,
        ),
        (
            "u16, fills and reads",
            try_rounds::<u16>(alloc, tid, &[fill, step, read], FILLS)?,
        ),
    ] {
        println!(rt; "{what}: {outcome}")?;
        if outcome.difference.is_some() {
            status = ExitCode::FAILURE;
        }
    }
    Ok(status)
}
