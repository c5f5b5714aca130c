//! What is written of a trace.
ghost use Rattle.std.specs.Prelude.{◌≡◌, [], ◌∷◌, List, None, IfOk, IsOk, OnOk, length};
ghost use Rattle.trace_model.specs.declared.event_kinds.Event.{Event};
ghost use Rattle.trace_file.specs.TraceText.{IsTextOf};
ghost use Rattle.stored_traces.specs.Entries.{entries_begun};
ghost use Rattle.stored_traces.specs.Kept.{IsWrittenOf};
ghost use Rattle.stored_traces.specs.Private.Writing.{MayWrite};

use crate::entries::entry_begun;
use guest_words::Addr;
use std::alloc::{AllocError, Global};
use std::collections::BTreeSet;
use std::marker::Model;
use trace_file::TraceWriter;
use trace_model::Event;

/// The text of the events of a trace, and the entries of the activations that began.
#[derive(Drop)]
pub struct EventText {
    /// The text, to which names and the end of the run come.
    pub writer: TraceWriter,
    /// The entries, each once.
    pub entries: BTreeSet<Addr>,
}

/// The text as far as it is written, and what is still to come: an event that was taken is not refused for lack of room for
/// its record or its entry.
#[derive(Drop)]
pub(crate) struct Written {
    text: EventText,
    next: Option<Event>,
    entry: Option<Addr>,
}

impl Model for Written {
    ghost use Rattle.stored_traces.specs.Kept.{Written};

    ghost Value = { Written };

    ghost view = { λ w. record { text = w.text.writer; next = w.next; entries = w.text.entries.keys; entry = w.entry } };
}

impl Written {
    /// No event so far.
    pub(crate) fn new(alloc: Global) -> Result<Written, AllocError>
        ensures { IfOk result (λ w. IsWrittenOf w []) }
    {
        Ok(Written {
            text: EventText {
                writer: TraceWriter::new(alloc)?,
                entries: BTreeSet::new(alloc),
            },
            next: None,
            entry: None,
        })
    }

    // Writes the record of the newest event, where that is still to come.
    fn write_next(&mut self) -> Result<(), AllocError>
        requires { MayWrite self.old }
        ensures stands { (past : List Event) → IsWrittenOf self.old past
            → IsWrittenOf self.new past }
        ensures entry { self.new.entry ≡ self.old.entry }
        ensures written { OnOk result (self.new.next ≡ None) }
        ensures no_allocation { self.old.next ≡ None → IsOk result }
    {
        if let Some(e) = self.next {
            self.text.writer.push(e)?;
            self.next = None;
        }
        Ok(())
    }

    // Puts the entry that is still to come among the others.
    fn add_entry(&mut self) -> Result<(), AllocError>
        ensures stands { (past : List Event) → IsWrittenOf self.old past
            → IsWrittenOf self.new past }
        ensures next { self.new.next ≡ self.old.next }
        ensures added { OnOk result (self.new.entry ≡ None) }
        ensures no_allocation { self.old.entry ≡ None → IsOk result }
    {
        if let Some(entry) = self.entry {
            self.text.entries.insert(entry)?;
            self.entry = None;
        }
        Ok(())
    }

    /// Writes what is still to come.
    pub(crate) fn settle(&mut self) -> Result<(), AllocError>
        requires { MayWrite self.old }
        ensures stands { (past : List Event) → IsWrittenOf self.old past
            → IsWrittenOf self.new past }
        ensures written { OnOk result (self.new.next ≡ None) }
        ensures added { OnOk result (self.new.entry ≡ None) }
        ensures no_allocation { self.old.next ≡ None → self.old.entry ≡ None → IsOk result }
    {
        self.write_next()?;
        self.add_entry()
    }

    /// How long the text is so far.
    pub(crate) fn length(&self) -> u64
        ensures { result ≡ length self.now.text.text }
    {
        self.text.writer.length()
    }

    /// One more event, whose record is still to come.
    pub(crate) fn add(&mut self, e: Event)
        requires written { self.old.next ≡ None }
        requires added { self.old.entry ≡ None }
        ensures { (past : List Event) → IsWrittenOf self.old past
            → IsWrittenOf self.new (e ∷ past) }
    {
        self.next = Some(e);
        self.entry = entry_begun(&e);
    }

    /// The text and the entries, where nothing is still to come.
    pub(crate) fn into_text(self) -> EventText
        requires written { self.next ≡ None }
        requires added { self.entry ≡ None }
        ensures same { result.writer ≡ self.text }
        ensures text { (past : List Event) → IsWrittenOf self past → IsTextOf result.writer past }
        ensures entries { (past : List Event) → IsWrittenOf self past
            → result.entries.keys ≡ entries_begun past }
    {
        self.text
    }
}
