//! Reading a record.
ghost use Rattle.std.specs.Prelude.{true, false, All, ◌≡◌, ◌≢◌, ◌≤◌, ◌<◌, ◌^◌, ◌++◌, ◌∷◌, [], ℕ, List, length, min, take, drop, slice_index, IfErr, IfNone, IfOk, IfSome};
ghost use Rattle.byteorder.specs.Endian.{little_number};
ghost use Rattle.trace_file.specs.declared.records.Form.{Form};
ghost use Rattle.trace_file.specs.declared.records.Record.{Record};
ghost use Rattle.guest_words.specs.Endings.{kind_number};
ghost use Rattle.guest_words.specs.Names.{is_name, is_visible};
ghost use Rattle.guest_words.specs.declared.limits.TheConstants.{NAME_BYTES};
ghost use Rattle.trace_file.specs.Pieces.{IsBegun, IsNone, IsRecord};
ghost use Rattle.trace_file.specs.Private.RecordParts.{AreNumbers, HasName, HasNameBody, IsBody, IsHead, IsNameOf, Stops, body};
ghost use Rattle.trace_file.specs.Private.Seen.{IsSeen};
ghost use Rattle.trace_file.specs.declared.records.Record.TheVariants.{OfEvent, OfFinish};
ghost use Rattle.trace_file.specs.Records.{AreInRanges, Fits, IsIn, form, head, number_bytes, ranges, record_bytes, thread};
ghost use Rattle.trace_file.specs.Private.Made.{IsLeastNumber, IsMade, IsSoundRange, is_event};
ghost use Rattle.std.specs.List.{flat_map, list_all};

use crate::records::{Form, Range, Record};
use guest_words::limits::{LAST_TID, NAME_BYTES};
use guest_words::{Addr, FaultKind, Finish, MEMORY_WORDS, Name, NameError, Tid, Word, are_visible};
use std::alloc::Global;
use trace_model::Event;

/// Why no record is read.
#[derive(Clone, Copy)]
pub enum Stop {
    /// The bytes are the beginning of a record, and no whole one.
    Begun,
    /// Whatever follows the bytes, they don't begin with a record.
    NoForm,
    /// Out of memory for the name of the routine with this entry. Its record is whole.
    Memory { entry: Addr },
}

const THREAD: Range = Range {
    least: 1,
    most: LAST_TID,
};

const WORD: Range = Range {
    least: 0,
    most: MEMORY_WORDS - 1,
};

const FREE: Range = Range {
    least: 0,
    most: u32::MAX,
};

const NAME_LENGTH: Range = Range {
    least: 1,
    most: NAME_BYTES as u32,
};

const STATUS: Range = Range {
    least: 0,
    most: 255,
};

const KIND: Range = Range { least: 1, most: 7 };

// The form that the first byte says alone.
fn short_head(first: u8) -> Option<Form>
    ensures found { IfSome result (λ f. first ∷ [] ≡ head f) }
    ensures none { IfNone result (first ≢ 10 → (rest : List ℕ) → IsNone IsHead (first ∷ rest)) }
{
    match first {
        1 => Some(Form::Step),
        2 => Some(Form::Read),
        3 => Some(Form::Write),
        4 => Some(Form::Fill),
        5 => Some(Form::Call),
        6 => Some(Form::Ret),
        7 => Some(Form::Start),
        8 => Some(Form::End),
        9 => Some(Form::Named),
        _ => None,
    }
}

// The form of an end that the second byte says.
fn end_head(second: u8) -> Option<Form>
    ensures found { IfSome result (λ f. 10 ∷ second ∷ [] ≡ head f) }
    ensures none { IfNone result ((rest : List ℕ) → IsNone IsHead (10 ∷ second ∷ rest)) }
{
    match second {
        0 => Some(Form::Exit),
        1 => Some(Form::Fault),
        2 => Some(Form::Budget),
        3 => Some(Form::Deadlock),
        4 => Some(Form::Deep),
        5 => Some(Form::Schedule),
        _ => None,
    }
}

// The form, and what stands behind its head.
fn read_head(bytes: &[u8]) -> Result<(Form, &[u8]), Stop>
    ensures found { IfOk result (λ x. bytes.now ≡ head x.0 ++ x.1.now) }
    ensures stops { IfErr result (λ stop. Stops IsHead bytes.now stop) }
    ensures memory { (entry : ℕ) → IfErr result (λ stop. stop ≢ Stop.Memory entry) }
{
    if bytes.is_empty() {
        return Err(Stop::Begun);
    }
    if bytes[0] != 10 {
        return match short_head(bytes[0]) {
            Some(form) => Ok((form, &bytes[1..])),
            None => Err(Stop::NoForm),
        };
    }
    if bytes.len() == 1 {
        return Err(Stop::Begun);
    }
    match end_head(bytes[1]) {
        Some(form) => Ok((form, &bytes[2..])),
        None => Err(Stop::NoForm),
    }
}

// A byte, or 0 behind the last one.
fn byte_or_zero(bytes: &[u8], i: usize) -> u32
    ensures value { result ≡ slice_index bytes.now i }
    ensures range { result < 256 }
{
    match bytes.get(i) {
        Some(byte) => u32::from(*byte),
        None => 0,
    }
}

// The number in the first four bytes, where those that are not there count as 0.
fn known_number(bytes: &[u8]) -> u32
    ensures value { result ≡ little_number 4 bytes.now }
    ensures range { result < 2 ^ 32 }
{
    let (first, second) = (byte_or_zero(bytes, 0), byte_or_zero(bytes, 1));
    let (third, fourth) = (byte_or_zero(bytes, 2), byte_or_zero(bytes, 3));
    first + 256 * (second + 256 * (third + 256 * fourth))
}

// The least number in the range, or above it, whose first bytes are these.
fn least_number(bytes: &[u8], range: Range) -> u64
    ensures { IsLeastNumber bytes.now range result }
{
    let known = u64::from(known_number(bytes));
    if u64::from(range.least) <= known {
        return known;
    }
    match bytes.len() {
        0 => known + 1,
        1 => known + 256,
        2 => known + 65536,
        3 => known + 16_777_216,
        _ => known + (1 << 32),
    }
}

// The number in the first four bytes, where it is in the range.
fn read_number(bytes: &[u8], range: Range) -> Result<u32, Stop>
    requires least { range.least ≤ 1 }
    requires some { range.least ≤ range.most }
    ensures found { IfOk result (λ n. IsIn range n
        × (bytes.now ≡ number_bytes n ++ drop 4 bytes.now)) }
    ensures long { IfOk result (λ n. 4 ≤ length bytes.now) }
    ensures stops { IfErr result (λ stop. Stops (AreNumbers (range ∷ [])) bytes.now stop) }
    ensures memory { (entry : ℕ) → IfErr result (λ stop. stop ≢ Stop.Memory entry) }
{
    if least_number(bytes, range) > u64::from(range.most) {
        return Err(Stop::NoForm);
    }
    if bytes.len() < 4 {
        return Err(Stop::Begun);
    }
    Ok(known_number(bytes))
}

// What stands behind the first four bytes.
fn behind_four(bytes: &[u8]) -> &[u8]
    requires { 4 ≤ length bytes.now }
    ensures { result.now ≡ drop 4 bytes.now }
{
    &bytes[4..]
}

// The numbers in the ranges, of which there are at most three, and what stands behind them.
fn read_numbers<'a>(bytes: &'a [u8], ranges: &[Range]) -> Result<([u32; 3], &'a [u8]), Stop>
    requires few { length ranges.now ≤ 3 }
    requires sound { All IsSoundRange ranges.now }
    ensures found { IfOk result (λ x. AreInRanges (take (length ranges.now) x.0) ranges.now
        × (bytes.now ≡ flat_map number_bytes (take (length ranges.now) x.0) ++ x.1.now)) }
    ensures stops { IfErr result (λ stop. Stops (AreNumbers ranges.now) bytes.now stop) }
    ensures memory { (entry : ℕ) → IfErr result (λ stop. stop ≢ Stop.Memory entry) }
{
    let mut numbers = [0; 3];
    let mut rest = bytes;
    for i in 0..ranges.len() {
        numbers[i] = read_number(rest, ranges[i])?;
        rest = behind_four(rest);
    }
    Ok((numbers, rest))
}

// The ranges of a form's numbers.
fn ranges(form: Form) -> &'static [Range]
    ensures value { result.now ≡ ranges form }
    ensures few { length result.now ≤ 3 }
    ensures sound { All IsSoundRange result.now }
{
    match form {
        Form::Step | Form::End => &[THREAD],
        Form::Read | Form::Write => &[THREAD, WORD, FREE],
        Form::Fill => &[WORD, FREE],
        Form::Call => &[THREAD, FREE, FREE],
        Form::Ret | Form::Start => &[THREAD, FREE],
        Form::Named => &[FREE, NAME_LENGTH],
        Form::Exit => &[STATUS],
        Form::Fault => &[KIND, THREAD, FREE],
        Form::Budget | Form::Deadlock | Form::Deep => &[],
        Form::Schedule => &[FREE, FREE],
    }
}

// The kind of a fault of this number.
fn kind(number: u32) -> FaultKind
    requires least { 1 ≤ number }
    requires most { number ≤ 7 }
    ensures { kind_number result ≡ number }
{
    FaultKind::numbered(u64::from(number)).unwrap_or(FaultKind::Break)
}

// The thread of this number.
fn thread(number: u32) -> Tid
    requires { IsIn thread number }
    ensures { result ≡ number }
{
    Tid::new(number).unwrap_or(Tid::FIRST)
}

// The word of this number.
fn word(number: u32) -> Word
    requires { number < 2 ^ 30 }
    ensures { result ≡ number }
{
    Word::of(4 * number)
}

// The event of a form with these numbers.
fn made_event(form: Form, a: u32, b: u32, c: u32) -> Option<Event>
    requires { AreInRanges (take (length (ranges form)) (a ∷ b ∷ c ∷ [])) (ranges form) }
    ensures found { IfSome result (λ e. IsMade form (take (length (ranges form)) (a ∷ b ∷ c ∷ []))
        (OfEvent e)) }
    ensures none { IfNone result (is_event form ≡ false) }
{
    match form {
        Form::Step => Some(Event::Step { tid: thread(a) }),
        Form::Read => Some(Event::Read {
            tid: thread(a),
            first: word(b),
            count: c,
        }),
        Form::Write => Some(Event::Write {
            tid: thread(a),
            first: word(b),
            count: c,
        }),
        Form::Fill => Some(Event::Fill {
            first: word(a),
            count: b,
        }),
        Form::Call => Some(Event::Call {
            tid: thread(a),
            entry: b,
            back: c,
        }),
        Form::Ret => Some(Event::Ret {
            tid: thread(a),
            target: b,
        }),
        Form::Start => Some(Event::Start {
            tid: thread(a),
            entry: b,
        }),
        Form::End => Some(Event::End { tid: thread(a) }),
        _ => None,
    }
}

// The end of a form with these numbers. A schedule has no line 0.
fn made_finish(form: Form, a: u32, b: u32, c: u32) -> Option<Finish>
    requires plain { form ≢ Form.Named }
    requires later { is_event form ≡ false }
    requires fits { AreInRanges (take (length (ranges form)) (a ∷ b ∷ c ∷ [])) (ranges form) }
    ensures found { IfSome result (λ f. IsMade form (take (length (ranges form)) (a ∷ b ∷ c ∷ []))
        (OfFinish f)) }
    ensures none { IfNone result ((form ≡ Form.Schedule) × (a ≡ 0) × (b ≡ 0)) }
{
    match form {
        Form::Exit => Some(Finish::Exit { status: a as u8 }),
        Form::Fault => Some(Finish::Fault {
            kind: kind(a),
            tid: thread(b),
            at: c,
        }),
        Form::Budget => Some(Finish::Budget),
        Form::Deadlock => Some(Finish::Deadlock),
        Form::Deep => Some(Finish::Deep),
        _ => {
            let line = u64::from(a) + (u64::from(b) << 32);
            if line == 0 {
                return None;
            }
            Some(Finish::Schedule { line })
        }
    }
}

// The record of a form with these numbers, which is not a name. A schedule has no line 0.
fn made(form: Form, a: u32, b: u32, c: u32) -> Option<Record>
    requires plain { form ≢ Form.Named }
    requires fits { AreInRanges (take (length (ranges form)) (a ∷ b ∷ c ∷ [])) (ranges form) }
    ensures found { IfSome result (λ r. IsMade form
        (take (length (ranges form)) (a ∷ b ∷ c ∷ [])) r) }
    ensures none { IfNone result ((form ≡ Form.Schedule) × (a ≡ 0) × (b ≡ 0)) }
{
    match made_event(form, a, b, c) {
        Some(e) => Some(Record::OfEvent(e)),
        None => match made_finish(form, a, b, c) {
            Some(f) => Some(Record::OfFinish(f)),
            None => None,
        },
    }
}

// The bytes behind the first `seen`.
fn behind(bytes: &[u8], seen: usize) -> &[u8]
    ensures { result.now ≡ drop (min seen (length bytes.now)) bytes.now }
{
    &bytes[seen.min(bytes.len())..]
}

// A name of `len` bytes, of the routine with an entry. The first `seen` bytes were seen to be bytes of a name.
fn read_name(
    alloc: Global,
    entry: Addr,
    bytes: &[u8],
    len: usize,
    seen: usize,
) -> Result<Name, Stop>
    requires seen { list_all is_visible (take seen bytes.now) ≡ true }
    requires least { 1 ≤ len }
    requires most { len ≤ NAME_BYTES }
    ensures found { IfOk result (λ name. (is_name name ≡ true) × (length name ≡ len)
        × (bytes.now ≡ name ++ drop len bytes.now)) }
    ensures stops { IfErr result (λ stop. Stops (IsNameOf len) bytes.now stop) }
    ensures memory { (of : ℕ) → IfErr result (λ stop. stop ≡ Stop.Memory of
        → (of ≡ entry) × (len ≤ length bytes.now) × (is_name (take len bytes.now) ≡ true)) }
{
    if bytes.len() < len {
        if are_visible(behind(bytes, seen)) {
            return Err(Stop::Begun);
        }
        return Err(Stop::NoForm);
    }
    match Name::new(alloc, &bytes[..len]) {
        Ok(name) => Ok(name),
        Err(NameError::Bad) => Err(Stop::NoForm),
        Err(NameError::Memory) => Err(Stop::Memory { entry }),
    }
}

// The record of a form whose numbers and bytes stand first. Of a name `seen` bytes were seen.
fn read_body(alloc: Global, wanted: Form, bytes: &[u8], seen: usize) -> Result<Record, Stop>
    requires { wanted ≡ Form.Named → IsSeen seen bytes.now }
    ensures found { IfOk result (λ r. Fits r × (form r ≡ wanted)
        × ((rest : List ℕ) × (bytes.now ≡ body r ++ rest))) }
    ensures stops { IfErr result (λ stop. Stops (IsBody wanted) bytes.now stop) }
    ensures memory { (entry : ℕ) → IfErr result (λ stop. stop ≡ Stop.Memory entry
        → HasNameBody wanted entry bytes.now) }
{
    let (numbers, rest) = read_numbers(bytes, ranges(wanted))?;
    let [a, b, c] = numbers;
    match wanted {
        Form::Named => Ok(Record::OfName(a, read_name(alloc, a, rest, b as usize, seen)?)),
        _ => match made(wanted, a, b, c) {
            Some(record) => Ok(record),
            None => Err(Stop::NoForm),
        },
    }
}

// How many bytes of a name's record stand before its name.
const NAME_AT: usize = 9;

/// The record that stands first. The first `known` bytes are known to be the beginning of one, so those of a name among them
/// aren't looked at again until it is whole.
pub fn read_record(alloc: Global, bytes: &[u8], known: usize) -> Result<Record, Stop>
    requires { IsBegun IsRecord (take known bytes.now) }
    ensures found { IfOk result (λ r. Fits r
        × ((rest : List ℕ) × (bytes.now ≡ record_bytes r ++ rest))) }
    ensures stops { IfErr result (λ stop. Stops IsRecord bytes.now stop) }
    ensures memory { (entry : ℕ) → IfErr result (λ stop. stop ≡ Stop.Memory entry
        → HasName entry bytes.now) }
{
    let (form, body) = read_head(bytes)?;
    read_body(alloc, form, body, known.saturating_sub(NAME_AT))
}

/// How many bytes a record has.
pub fn record_size(next: &Record) -> usize
    requires { Fits next.now }
    ensures { result ≡ length (record_bytes next.now) }
{
    match next {
        Record::OfEvent(e) => event_size(e),
        Record::OfName(_, name) => NAME_AT + name.bytes().len(),
        Record::OfFinish(f) => finish_size(f),
    }
}

// How many bytes the record of an event has.
fn event_size(e: &Event) -> usize
    ensures { result ≡ length (record_bytes (OfEvent e.now)) }
{
    match *e {
        Event::Step { .. } => 5,
        Event::Read { .. } => 13,
        Event::Write { .. } => 13,
        Event::Fill { .. } => 9,
        Event::Call { .. } => 13,
        Event::Ret { .. } => 9,
        Event::Start { .. } => 9,
        Event::End { .. } => 5,
    }
}

// How many bytes the record of an end has.
fn finish_size(f: &Finish) -> usize
    ensures { result ≡ length (record_bytes (OfFinish f.now)) }
{
    match *f {
        Finish::Budget | Finish::Deadlock | Finish::Deep => 2,
        Finish::Exit { .. } => 6,
        Finish::Schedule { .. } => 10,
        Finish::Fault { .. } => 14,
    }
}
