//! The program: it hands the words, the files and the standard streams of the system to the top call.
#![tactic(auto)]

use aprof_top::aprof;
use host_io::{RealFiles, StreamSink};
use std::io::ErrorKind;
use std::process::ExitCode;
use std::rt::Env;
use std::{env, io};

// Why there are no words.
#[derive(Clone, Copy)]
enum NoWords {
    Memory,
    // They are not UTF-8.
    NotText,
}

// The words of the command line, the program's own name first.
fn command_words<R: Env + AllocGlobal>(rt: &R) -> Result<Vec<String>, NoWords> {
    match env::args(rt) {
        Ok(args) => args.collect(rt.alloc()).map_err(|_| NoWords::Memory),
        Err(e) => Err(if e.kind() == ErrorKind::OutOfMemory {
            NoWords::Memory
        } else {
            NoWords::NotText
        }),
    }
}

fn main(rt: HostRuntime) -> ExitCode {
    let alloc = rt.alloc();
    let words = match command_words(&rt) {
        Ok(words) => words,
        Err(NoWords::Memory) => return ExitCode::from(10),
        // An empty list of words is refused as a bad command line.
        Err(NoWords::NotText) => Vec::new(alloc),
    };
    let mut files = RealFiles::new(&rt);
    let mut out = StreamSink::new(io::writer(&rt));
    let mut err = StreamSink::new(rt.stderr());
    ExitCode::from(aprof(alloc, words.as_slice(), &mut files, &mut out, &mut err))
}
