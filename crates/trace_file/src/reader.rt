//! Reading a trace, in any pieces.
ghost use Rattle.std.specs.Prelude.{◌≡◌, ◌≢◌, ◌≤◌, ◌<◌, ◌^◌, ◌+◌, ◌++◌, ◌∷◌, [], ℕ, List, None, Some, length, Err, get_or, IfErr, IsOk, is_some, true, take, vec_len, IfOk, IfSome, IsTrue, OnErr, OnOk, ◌↔◌};
ghost use Rattle.std.specs.Result.{result_err};
ghost use Rattle.trace_file.specs.declared.errors.TraceError.{TraceError};
ghost use Rattle.guest_words.specs.declared.endings.Finish.{Finish};
ghost use Rattle.trace_model.specs.declared.event_kinds.Event.{Event};
ghost use Rattle.trace_file.specs.declared.records.Record.TheVariants.{OfEvent, OfName, OfFinish};
ghost use Rattle.trace_file.specs.Records.{Fits, record_bytes};
ghost use Rattle.std.specs.Vec.{vec_capacity};
ghost use Rattle.trace_file.specs.Reading.{HasFed, HasRead, IsAtRecord, IsReading, IsTraceRefused, MayFeed, RunsOutOfMemory};
ghost use Rattle.trace_file.specs.Private.Steps.{IsAdded, IsBetween, IsFed, IsInOrder, IsNotAdded, IsOpen, IsTaken, MayReadByte, said};
ghost use Rattle.trace_file.specs.TraceText.{IsRising, IsTrace, magic};

use crate::errors::TraceError;
use crate::record_reader::{Stop, read_record, record_size};
use crate::records::{MAGIC, RECORD_BYTES, Record};
use guest_words::{Addr, Finish, Name};
use std::alloc::{AllocError, Global};
use std::marker::Model;
use trace_model::{Event, Events};
use trace_order::Order;

/// What stands behind the events of a trace: the names, and how the run ended.
#[derive(Drop)]
pub struct TraceEnd {
    pub names: Vec<(Addr, Name)>,
    pub finish: Finish,
}

/// Reads a trace in any pieces. It keeps the bytes of the record that is begun, for which it has room from the start, the
/// names, and what tells the order of events, and not the events. Once it refuses, it goes on refusing.
#[derive(Drop)]
pub struct TraceReader {
    alloc: Global,
    line: usize,
    held: Vec<u8>,
    at: u64,
    order: Order,
    names: Vec<(Addr, Name)>,
    finish: Option<Finish>,
    refusal: Option<TraceError>,
}

impl Model for TraceReader {
    ghost use Rattle.std.specs.Prelude.{◌≤◌};
    ghost use Rattle.std.specs.Vec.{vec_capacity};
    ghost use Rattle.trace_file.specs.declared.records.TheConstants.{RECORD_BYTES};
    ghost use Rattle.trace_file.specs.Reading.{ReaderState};

    ghost Value = { ReaderState };

    ghost view = { λ r. record {
      line = r.line;
      held = r.held.items;
      at = r.at;
      order = r.order;
      names = r.names.items;
      finish = r.finish;
      refusal = r.refusal;
    } };

    ghost invariant = { λ r. RECORD_BYTES ≤ vec_capacity r.held };
}

// Whether an entry is above those of all names, which rise.
fn is_above(names: &[(Addr, Name)], entry: Addr) -> bool
    requires { IsRising names.now }
    ensures { (name : List ℕ) → IsTrue result ↔ IsRising (names.now ++ (entry, name) ∷ []) }
{
    names.is_empty() || names[names.len() - 1].0 < entry
}

// Appends a name.
fn push_name(names: &mut Vec<(Addr, Name)>, entry: Addr, name: Name) -> Result<(), AllocError>
    ensures ok { OnOk result (names.new.items ≡ names.old.items ++ (entry, name) ∷ []) }
    ensures err { OnErr result (names.new.items ≡ names.old.items) }
{
    names.push((entry, name))?;
    Ok(())
}

// Appends a byte, where there is room for it.
fn push_byte(held: &mut Vec<u8>, byte: u8)
    requires { vec_len held.old < vec_capacity held.old }
    ensures items { held.new.items ≡ held.old.items ++ byte ∷ [] }
    ensures room { vec_capacity held.old ≤ vec_capacity held.new }
{
    held.push(byte).unwrap();
}

impl TraceReader {
    // Takes an event, where the order of events allows it.
    fn add_event(&mut self, e: Event, events: &mut Events) -> Result<(), TraceError>
        requires begun { (past : List Event) × IsOpen self.old past }
        requires fits { Fits (OfEvent e) }
        ensures ok { (past : List Event) → IsOpen self.old past
            → OnOk result (IsAdded self.old self.new past (OfEvent e)) }
        ensures err { (past : List Event) → IsOpen self.old past
            → IfErr result (λ x. IsNotAdded self.old past (OfEvent e) x) }
        ensures memory { (past : List Event) → IsOpen self.old past
            → IfErr result (λ x. IsInOrder self.old past (OfEvent e) x) }
        ensures same { OnErr result (self.new ≡ self.old) }
        ensures appended { OnOk result (events.new.list ≡ events.old.list ++ e ∷ []) }
        ensures kept { OnErr result (events.new.list ≡ events.old.list) }
    {
        if !self.names.is_empty() || !self.order.may_follow(&e) {
            return Err(TraceError::Order { at: self.at });
        }
        events.reserve(1)?;
        self.order.add(e)?;
        events.push(e);
        Ok(())
    }

    // Takes the name of a routine, where its entry is above those before it.
    fn add_name(&mut self, entry: Addr, name: Name) -> Result<(), TraceError>
        requires begun { (past : List Event) × IsOpen self.old past }
        requires fits { Fits (OfName entry name) }
        ensures ok { (past : List Event) → IsOpen self.old past
            → OnOk result (IsAdded self.old self.new past (OfName entry name)) }
        ensures err { (past : List Event) → IsOpen self.old past
            → IfErr result (λ x. IsNotAdded self.old past (OfName entry name) x) }
        ensures memory { (past : List Event) → IsOpen self.old past
            → IfErr result (λ x. IsInOrder self.old past (OfName entry name) x) }
        ensures same { OnErr result (self.new ≡ self.old) }
    {
        if !is_above(&self.names, entry) {
            return Err(TraceError::Order { at: self.at });
        }
        push_name(&mut self.names, entry, name)?;
        Ok(())
    }

    // Why a name is not added for which memory is wanted: its entry does not rise, or else for that.
    fn refuse_name(&self, entry: Addr) -> TraceError
        requires { (past : List Event) × IsOpen self.now past }
        ensures err { (past : List Event) (name : List ℕ) → IsOpen self.now past
            → IsNotAdded self.now past (OfName entry name) result }
        ensures memory { (past : List Event) (name : List ℕ) → IsOpen self.now past
            → IsInOrder self.now past (OfName entry name) result }
    {
        if is_above(&self.names, entry) {
            TraceError::Memory
        } else {
            TraceError::Order { at: self.at }
        }
    }

    // Takes how the run ended.
    fn add_finish(&mut self, f: Finish)
        requires fits { Fits (OfFinish f) }
        ensures { (past : List Event) → IsOpen self.old past
            → IsAdded self.old self.new past (OfFinish f) }
    {
        self.finish = Some(f);
    }

    // Takes a record, where records may have it at this place.
    fn add_record(&mut self, next: Record, events: &mut Events) -> Result<(), TraceError>
        requires begun { (past : List Event) × IsOpen self.old past }
        requires fits { Fits next }
        ensures ok { (past : List Event) → IsOpen self.old past
            → OnOk result (IsAdded self.old self.new past next) }
        ensures err { (past : List Event) → IsOpen self.old past
            → IfErr result (λ x. IsNotAdded self.old past next x) }
        ensures memory { (past : List Event) → IsOpen self.old past
            → IfErr result (λ x. IsInOrder self.old past next x) }
        ensures same { OnErr result (self.new ≡ self.old) }
        ensures appended { OnOk result (events.new.list ≡ events.old.list ++ said next) }
        ensures kept { OnErr result (events.new.list ≡ events.old.list) }
    {
        match next {
            Record::OfEvent(e) => self.add_event(e, events),
            Record::OfName(entry, name) => self.add_name(entry, name),
            Record::OfFinish(f) => {
                self.add_finish(f);
                Ok(())
            }
        }
    }

    // Adds a record of `size` bytes, behind which the next one begins.
    fn take_record(
        &mut self,
        next: Record,
        size: usize,
        events: &mut Events,
    ) -> Result<(), TraceError>
        requires begun { (past : List Event) × IsOpen self.old past }
        requires fits { Fits next }
        requires place { self.old.at + size < 2 ^ 64 }
        ensures ok { (past : List Event) → IsOpen self.old past
            → OnOk result (IsTaken size self.old self.new past next) }
        ensures err { (past : List Event) → IsOpen self.old past
            → IfErr result (λ x. IsNotAdded self.old past next x) }
        ensures memory { (past : List Event) → IsOpen self.old past
            → IfErr result (λ x. IsInOrder self.old past next x) }
        ensures same { OnErr result (self.new ≡ self.old) }
        ensures appended { OnOk result (events.new.list ≡ events.old.list ++ said next) }
        ensures kept { OnErr result (events.new.list ≡ events.old.list) }
    {
        let place = self.at + size as u64;
        self.add_record(next, events)?;
        self.at = place;
        self.held.clear();
        Ok(())
    }

    // Reads a byte more of a record.
    fn read_byte(&mut self, byte: u8, events: &mut Events) -> Result<(), TraceError>
        requires reading { MayReadByte IsAtRecord self.old }
        requires unfinished { self.old.finish ≡ None }
        ensures fed { IsFed IsAtRecord IsAtRecord self.old self.new
            (byte ∷ []) events.old.list events.new.list result }
        ensures memory { IfErr result (λ e. e ≡ TraceError.Memory → RunsOutOfMemory IsAtRecord
            self.old self.new (byte ∷ []) events.old.list events.new.list) }
    {
        let known = self.held.len();
        push_byte(&mut self.held, byte);
        match read_record(self.alloc, &self.held, known) {
            Ok(next) => self.take_record(next, known + 1, events),
            Err(Stop::Begun) => Ok(()),
            Err(Stop::NoForm) => Err(TraceError::Record { at: self.at }),
            Err(Stop::Memory { entry }) => Err(self.refuse_name(entry)),
        }
    }

    // Reads a byte more of the first line.
    fn read_line_byte(&mut self, byte: u8) -> Result<(), TraceError>
        requires line { self.old.line < length magic }
        requires place { self.old.at + 1 < 2 ^ 64 }
        ensures ok { OnOk result ((get_or magic self.old.line 0 ≡ byte)
            × (self.new ≡ record self.old { line = self.old.line + 1; at = self.old.at + 1 })) }
        ensures err { IfErr result (λ e. (e ≡ TraceError.Magic)
            × (get_or magic self.old.line 0 ≢ byte)) }
    {
        if MAGIC[self.line] != byte {
            return Err(TraceError::Magic);
        }
        self.line += 1;
        self.at += 1;
        Ok(())
    }

    // Reads a byte more, where nothing fails so far.
    fn next_byte(&mut self, byte: u8, events: &mut Events) -> Result<(), TraceError>
        requires reading { MayReadByte IsReading self.old }
        ensures fed { IsFed IsReading IsReading self.old self.new
            (byte ∷ []) events.old.list events.new.list result }
        ensures line { self.old.line < length magic → IfErr result (λ e. e ≡ TraceError.Magic) }
        ensures behind { (f : Finish) → self.old.finish ≡ Some f → length magic ≤ self.old.line
            → result ≡ Err (TraceError.Record self.old.at) }
        ensures memory { IfErr result (λ e. e ≡ TraceError.Memory → RunsOutOfMemory IsReading
            self.old self.new (byte ∷ []) events.old.list events.new.list) }
    {
        if self.line < MAGIC.len() {
            return self.read_line_byte(byte);
        }
        match self.finish {
            Some(_) => Err(TraceError::Record { at: self.at }),
            None => self.read_byte(byte, events),
        }
    }

    // Reads a byte more, and keeps the refusal.
    fn take_byte(&mut self, byte: u8, events: &mut Events) -> Result<(), TraceError>
        requires reading { MayReadByte HasRead self.old }
        requires none { self.old.refusal ≡ None }
        ensures fed { HasFed self.old self.new (byte ∷ []) events.old.list events.new.list }
        ensures answer { self.new.refusal ≡ result_err result }
        ensures line { self.old.line < length magic → IfErr result (λ e. e ≡ TraceError.Magic) }
        ensures behind { (f : Finish) → self.old.finish ≡ Some f → length magic ≤ self.old.line
            → result ≡ Err (TraceError.Record self.old.at) }
        ensures memory { IfErr result (λ e. e ≡ TraceError.Memory → RunsOutOfMemory HasRead
            self.old self.new (byte ∷ []) events.old.list events.new.list) }
    {
        let read = self.next_byte(byte, events);
        self.refusal = read.err();
        read
    }

    // The record that stands first in a piece, if it is whole and none is begun, and how many bytes it has.
    fn next_whole(&self, piece: &[u8]) -> Option<(Record, usize)>
        ensures between { IfSome result (λ next. IsBetween self.now) }
        ensures fits { IfSome result (λ next. Fits next.0) }
        ensures text { IfSome result (λ next. take next.1 piece.now ≡ record_bytes next.0) }
        ensures within { IfSome result (λ next. (1 ≤ next.1) × (next.1 ≤ length piece.now)) }
    {
        if self.line < MAGIC.len() || self.finish.is_some() || !self.held.is_empty() {
            return None;
        }
        match read_record(self.alloc, piece, 0) {
            Ok(next) => {
                let size = record_size(&next);
                Some((next, size))
            }
            Err(_) => None,
        }
    }

    // Adds a record of `size` bytes that is whole, where none is begun, and keeps the refusal.
    fn take_whole(
        &mut self,
        next: Record,
        size: usize,
        events: &mut Events,
    ) -> Result<(), TraceError>
        requires begun { (past : List Event) × IsOpen self.old past }
        requires between { IsBetween self.old }
        requires none { self.old.refusal ≡ None }
        requires fits { Fits next }
        requires size { size ≡ length (record_bytes next) }
        requires place { self.old.at + size < 2 ^ 64 }
        ensures fed { HasFed self.old self.new (record_bytes next) events.old.list events.new.list }
        ensures answer { self.new.refusal ≡ result_err result }
        ensures memory { IfErr result (λ e. e ≡ TraceError.Memory → RunsOutOfMemory HasRead
            self.old self.new (record_bytes next) events.old.list events.new.list) }
    {
        let read = self.take_record(next, size, events);
        self.refusal = read.err();
        read
    }

    // Reads the first bytes of a piece, and says how many: those of a whole record, or one. The refusal is kept.
    fn take_part(&mut self, piece: &[u8], events: &mut Events) -> Result<usize, TraceError>
        requires reading { MayFeed self.old piece.now }
        requires none { self.old.refusal ≡ None }
        requires some { 1 ≤ length piece.now }
        ensures within { IfOk result (λ count. (1 ≤ count) × (count ≤ length piece.now)) }
        ensures fed { IfOk result (λ count. HasFed self.old self.new (take count piece.now)
            events.old.list events.new.list) }
        ensures none { OnOk result (self.new.refusal ≡ None) }
        ensures refused { IfErr result (λ e. (self.new.refusal ≡ Some e)
            × HasFed self.old self.new piece.now events.old.list events.new.list) }
        ensures memory { IfErr result (λ e. e ≡ TraceError.Memory → RunsOutOfMemory HasRead
            self.old self.new piece.now events.old.list events.new.list) }
    {
        match self.next_whole(piece) {
            Some((next, size)) => {
                self.take_whole(next, size, events)?;
                Ok(size)
            }
            None => {
                self.take_byte(piece[0], events)?;
                Ok(1)
            }
        }
    }

    /// Nothing is read.
    pub fn new(alloc: Global) -> Result<TraceReader, AllocError>
        ensures { IfOk result (λ r. HasRead r [] []) }
    {
        Ok(TraceReader {
            alloc,
            line: 0,
            held: Vec::with_capacity(alloc, RECORD_BYTES)?,
            at: 0,
            order: Order::new(alloc)?,
            names: Vec::new(alloc),
            finish: None,
            refusal: None,
        })
    }

    /// Reads a piece more, and appends the events of the records that are whole by now. A refusal stays: every later call
    /// answers it again, and appends nothing.
    pub fn feed(&mut self, piece: &[u8], events: &mut Events) -> Result<(), TraceError>
        requires { MayFeed self.old piece.now }
        ensures fed { HasFed self.old self.new piece.now events.old.list events.new.list }
        ensures answer { self.new.refusal ≡ result_err result }
        ensures stays { (e : TraceError) → self.old.refusal ≡ Some e
            → (self.new ≡ self.old) × (events.new.list ≡ events.old.list) }
        ensures memory { self.old.refusal ≡ None → IfErr result (λ e. e ≡ TraceError.Memory
            → RunsOutOfMemory HasRead self.old self.new piece.now events.old.list events.new.list) }
    {
        if let Some(e) = self.refusal {
            return Err(e);
        }
        let mut read = 0;
        'parts: while read < piece.len() {
            read += self.take_part(&piece[read..], events)?;
        }
        Ok(())
    }

    /// The names and the end, where the bytes that were read are the text of a trace. It does not allocate.
    pub fn finish(self) -> Result<TraceEnd, TraceError>
        ensures ok { (bytes : List ℕ) (past : List Event) → HasRead self bytes past
            → IfOk result (λ t. IsTrace bytes past t.names.items t.finish) }
        ensures err { (bytes : List ℕ) (past : List Event) → HasRead self bytes past
            → IfErr result (λ e. IsTraceRefused bytes past e) }
        ensures memory { self.refusal ≡ None → IfErr result (λ e. e ≡ TraceError.Short) }
        ensures stays { (e : TraceError) → self.refusal ≡ Some e → result ≡ Err e }
        ensures short { self.refusal ≡ None → self.finish ≡ None → result ≡ Err TraceError.Short }
        ensures no_allocation { self.refusal ≡ None → is_some self.finish ≡ true → IsOk result }
    {
        let TraceReader {
            names,
            finish,
            refusal,
            ..
        } = self;
        if let Some(e) = refusal {
            return Err(e);
        }
        match finish {
            Some(finish) => Ok(TraceEnd { names, finish }),
            None => Err(TraceError::Short),
        }
    }
}
