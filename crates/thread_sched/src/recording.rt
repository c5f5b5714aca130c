//! Recordings of turns.
ghost use Rattle.std.specs.Prelude.{◌≡◌, ◌≤◌, List, [], ◌∷◌, ◌++◌, IfOk, OnErr, OnOk};
ghost use Rattle.std.specs.List.{AllByRecursion};
ghost use Rattle.thread_sched.specs.ScheduleText.{IsEntry, schedule_text};
ghost use Rattle.thread_sched.specs.declared.entry.Entry.{Entry};

use crate::Entry;
use crate::entry::push_entry;
use guest_words::Tid;
use guest_words::limits::RUN_STEPS;
use std::alloc::{AllocError, Global};
use std::marker::Model;

/// The turns that were made, in order: the thread of each, and how many instructions it began.
#[derive(Drop)]
pub struct Recording {
    turns: Vec<Entry>,
}

impl Model for Recording {
    ghost use Rattle.std.specs.Prelude.{List};
    ghost use Rattle.std.specs.List.{AllByRecursion};
    ghost use Rattle.thread_sched.specs.ScheduleText.{IsEntry};
    ghost use Rattle.thread_sched.specs.declared.entry.Entry.{Entry};

    ghost Value = { List Entry };

    ghost view = { λ r. r.turns.items };

    ghost invariant = { λ r. AllByRecursion IsEntry r.turns.items };
}

impl Recording {
    /// No turn.
    pub fn new(alloc: Global) -> Result<Recording, AllocError>
        ensures { IfOk result (λ r. r ≡ []) }
    {
        Ok(Recording {
            turns: Vec::new(alloc),
        })
    }

    /// One more turn.
    pub fn add(&mut self, tid: Tid, began: u64) -> Result<(), AllocError>
        requires some { 1 ≤ began }
        requires most { began ≤ RUN_STEPS }
        ensures ok { OnOk result (self.new
            ≡ self.old ++ (record { tid = tid; most = began }) ∷ []) }
        ensures err { OnErr result (self.new ≡ self.old) }
    {
        self.turns.push(Entry { tid, most: began })?;
        Ok(())
    }

    /// The text of a schedule with these turns, each line with the byte that ends it.
    pub fn text(&self, alloc: Global) -> Result<Vec<u8>, AllocError>
        ensures text { IfOk result (λ text. text.items ≡ schedule_text self.now) }
        ensures entries { AllByRecursion IsEntry self.now }
    {
        let mut text = Vec::new(alloc);
        for turn in &self.turns {
            push_entry(&mut text, *turn)?;
            text.extend_from_slice(b"\n")?;
        }
        Ok(text)
    }
}
