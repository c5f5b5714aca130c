//! Worked rows: each line of the input names a call and its arguments, and the output has the line again with what the call
//! gives. The wanted answers come from outside: words of assemblers, values of the standard, the errors of Linux.
//!
//!     word W                              what the word is, and its word again
//!     instruction W X5 X6                 what the instruction does
//!     guest                               a new guest
//!     call THREAD NUMBER A0 .. A5         what the kernel answers the guest
//!     wake due                            which thread the clock wakes, and with which answer
//!     report LINE/LINE/..                 whether the lines are a report
//!     schedule LINE/LINE/..               whether they are a schedule
//!     file BYTE BYTE ..                   the file that is read
//!     demo ROUTINES                       the file is the demo's
//!     image LENGTH AT=BYTE ..             the first LENGTH bytes of the file, with other bytes at these places, as an image
//!     name AT                             the name there, in the last image
//!     machine BYTES                       whether a guest of it can begin whose argument has BYTES bytes, its last one 0
//!     memory                              a new memory
//!     map PAGE COUNT                      whether the pages can be mapped
//!     load AT                             whether a word can be loaded
//!
//! Other lines are given again as they are. Numbers are hexadecimal, but for threads, the numbers of calls and places in files.
#![tactic(auto)]

mod calls;
mod images;
mod instructions;
mod memory;
mod reports;
mod schedules;
mod words;

use crate::calls::Guest;
use crate::images::Images;
use anyhow::Result;
use guest_memory::GuestMemory;
use std::alloc::Global;

// What the rows work on.
#[derive(Drop)]
struct Rows {
    pages: GuestMemory,
    memory: GuestMemory,
    guest: Guest,
    images: Images,
}

impl Rows {
    fn new(alloc: Global) -> Result<Rows> {
        Ok(Rows {
            pages: instructions::five_pages(alloc)?,
            memory: GuestMemory::new(alloc)?,
            guest: Guest::new(alloc)?,
            images: Images::new(alloc),
        })
    }

    // What the row of this kind gives, if there are such rows.
    fn answer(&mut self, alloc: Global, kind: &str, row: &str) -> Result<Option<String>> {
        let answer = if kind == "word" {
            words::answer(alloc, row)?
        } else if kind == "instruction" {
            instructions::answer(alloc, &mut self.pages, row)?
        } else if kind == "call" {
            calls::answer(alloc, &mut self.guest, row)?
        } else if kind == "wake" {
            calls::wake(alloc, &mut self.guest)?
        } else if kind == "report" {
            reports::answer(alloc, row)?
        } else if kind == "schedule" {
            schedules::answer(alloc, row)?
        } else if kind == "file" {
            self.images.take_bytes(alloc, row)?
        } else if kind == "demo" {
            self.images.take_demo(alloc, row)?
        } else if kind == "image" {
            self.images.read(alloc, row)?
        } else if kind == "name" {
            self.images.name(alloc, row)?
        } else if kind == "machine" {
            self.images.begin(alloc, row)?
        } else if kind == "map" {
            memory::map(alloc, &mut self.memory, row)?
        } else if kind == "load" {
            memory::load(alloc, &self.memory, row)?
        } else {
            return Ok(None);
        };
        Ok(Some(answer))
    }

    // What a line gives, if it names a call.
    fn line(&mut self, alloc: Global, line: &str) -> Result<Option<String>> {
        if line == "guest" {
            self.guest = Guest::new(alloc)?;
        }
        if line == "memory" {
            self.memory = GuestMemory::new(alloc)?;
        }
        match line.split_once(' ') {
            Some((kind, row)) => self.answer(alloc, kind, row),
            None => Ok(None),
        }
    }
}

fn main(rt: HostRuntime) -> Result<()> {
    let alloc = rt.alloc();
    let mut rows = Rows::new(alloc)?;
    for line in rt.lines(alloc) {
        let line = line?;
        match rows.line(alloc, line.as_str())? {
            Some(answer) => println!(rt; "{line}: {answer}")?,
            None => println!(rt; "{line}")?,
        }
    }
    Ok(())
}
