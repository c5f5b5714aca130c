//! Writing a trace.
ghost use Rattle.std.specs.Prelude.{◌≡◌, ◌↔◌, ◌≤◌, ◌++◌, ◌∷◌, [], ℕ, List, true, length, OnErr, OnOk, IfOk, IsTrue};
ghost use Rattle.std.specs.List.{flat_map, AllByRecursion};
ghost use Rattle.guest_words.specs.declared.endings.Finish.TheVariants as ends;
ghost use Rattle.trace_model.specs.declared.event_kinds.Event.{Event};
ghost use Rattle.trace_model.specs.Observing.{Observes, StandsAsBefore};
ghost use Rattle.trace_model.specs.WellFormed.{IsWellFormed};
ghost use Rattle.trace_order.specs.Order.{MayCome};
ghost use Rattle.trace_file.specs.declared.records.Record.TheVariants.{OfEvent, OfName, OfFinish};
ghost use Rattle.trace_file.specs.Records.{Fits, joined, number_bytes, record_bytes};
ghost use Rattle.guest_words.specs.Texts.{KeepsOn};
ghost use Rattle.trace_file.specs.TraceText.{IsRising, IsTextOf, IsTrace, name_records, trace_text};

use crate::records::MAGIC;
use guest_words::{Addr, FaultKind, Finish, Name};
use std::alloc::{AllocError, Global};
use std::marker::Model;
use trace_model::{Event, Observed, Observer};
use trace_order::Order;

/// The text of a trace as far as it is written: the line that it begins with, and the records of the events so far. It knows
/// their order, so it tells itself which event may come next.
#[derive(Drop)]
pub struct TraceWriter {
    text: Vec<u8>,
    order: Order,
}

impl Model for TraceWriter {
    ghost use Rattle.trace_file.specs.TraceText.{Writing};

    ghost Value = { Writing };

    ghost view = { λ w. record { text = w.text.items; order = w.order } };
}

// Appends a number.
#[tactic(auto, unfolding(crate::specs::Records::number_bytes))]
fn push_number(text: &mut Vec<u8>, number: u32) -> Result<(), AllocError>
    ensures ok { OnOk result (text.new.items ≡ text.old.items ++ number_bytes number) }
    ensures err { OnErr result (text.new.items ≡ text.old.items) }
{
    text.extend_from_slice(&number.to_le_bytes())
}

// Appends numbers.
#[tactic(auto, using(guest_words::proofs::Texts::keeps, guest_words::proofs::Texts::keeps_same, guest_words::proofs::Texts::keeps_further))]
fn push_numbers(text: &mut Vec<u8>, numbers: &[u32]) -> Result<(), AllocError>
    ensures ok { OnOk result (text.new.items
        ≡ text.old.items ++ flat_map number_bytes numbers.now) }
    ensures kept { KeepsOn text.old.items text.new.items }
{
    for number in numbers {
        push_number(text, *number)?;
    }
    Ok(())
}

// Appends a head, numbers and bytes.
#[tactic(auto, using(guest_words::proofs::Texts::keeps, guest_words::proofs::Texts::keeps_same, guest_words::proofs::Texts::keeps_further))]
fn push_parts(
    text: &mut Vec<u8>,
    head: &[u8],
    numbers: &[u32],
    bytes: &[u8],
) -> Result<(), AllocError>
    ensures ok { OnOk result (text.new.items
        ≡ text.old.items ++ joined head.now numbers.now bytes.now) }
    ensures kept { KeepsOn text.old.items text.new.items }
{
    text.extend_from_slice(head)?;
    push_numbers(text, numbers)?;
    text.extend_from_slice(bytes)
}

// Appends a head, numbers and bytes, or nothing where there is no memory.
#[tactic(auto, using(guest_words::proofs::Texts::cut_back))]
fn push_record(
    text: &mut Vec<u8>,
    head: &[u8],
    numbers: &[u32],
    bytes: &[u8],
) -> Result<(), AllocError>
    ensures ok { OnOk result (text.new.items
        ≡ text.old.items ++ joined head.now numbers.now bytes.now) }
    ensures err { OnErr result (text.new.items ≡ text.old.items) }
{
    let before = text.len();
    let pushed = push_parts(text, head, numbers, bytes);
    if pushed.is_err() {
        text.truncate(before);
    }
    pushed
}

// Appends the record of an event, or nothing where there is no memory.
fn push_event(text: &mut Vec<u8>, e: Event) -> Result<(), AllocError>
    ensures ok { OnOk result (text.new.items ≡ text.old.items ++ record_bytes (OfEvent e)) }
    ensures err { OnErr result (text.new.items ≡ text.old.items) }
    ensures fits { Fits (OfEvent e) }
{
    match e {
        Event::Step { tid } => push_record(text, &[1], &[tid.number()], &[]),
        Event::Read { tid, first, count } => {
            push_record(text, &[2], &[tid.number(), first.number(), count], &[])
        }
        Event::Write { tid, first, count } => {
            push_record(text, &[3], &[tid.number(), first.number(), count], &[])
        }
        Event::Fill { first, count } => push_record(text, &[4], &[first.number(), count], &[]),
        Event::Call { tid, entry, back } => {
            push_record(text, &[5], &[tid.number(), entry, back], &[])
        }
        Event::Ret { tid, target } => push_record(text, &[6], &[tid.number(), target], &[]),
        Event::Start { tid, entry } => push_record(text, &[7], &[tid.number(), entry], &[]),
        Event::End { tid } => push_record(text, &[8], &[tid.number()], &[]),
    }
}

// Appends the record of a name.
fn push_name(text: &mut Vec<u8>, entry: Addr, name: &Name) -> Result<(), AllocError>
    ensures ok { OnOk result (text.new.items
        ≡ text.old.items ++ record_bytes (OfName entry name.now)) }
    ensures fits { Fits (OfName entry name.now) }
{
    let bytes = name.bytes();
    push_record(text, &[9], &[entry, bytes.len() as u32], bytes)
}

// Appends the records of names.
fn push_names(text: &mut Vec<u8>, names: &[(Addr, Name)]) -> Result<(), AllocError>
    ensures ok { OnOk result (text.new.items
        ≡ text.old.items ++ flat_map record_bytes (name_records names.now)) }
    ensures fits { OnOk result (AllByRecursion Fits (name_records names.now)) }
{
    for (entry, name) in names {
        push_name(text, *entry, name)?;
    }
    Ok(())
}

// Appends the record of how the run ended.
fn push_finish(text: &mut Vec<u8>, f: Finish) -> Result<(), AllocError>
    requires { (line : ℕ) → f ≡ ends.Schedule line → 1 ≤ line }
    ensures ok { OnOk result (text.new.items ≡ text.old.items ++ record_bytes (OfFinish f)) }
    ensures fits { Fits (OfFinish f) }
{
    match f {
        Finish::Exit { status } => push_record(text, &[10, 0], &[u32::from(status)], &[]),
        Finish::Fault { kind, tid, at } => {
            push_record(text, &[10, 1], &[kind.number(), tid.number(), at], &[])
        }
        Finish::Budget => push_record(text, &[10, 2], &[], &[]),
        Finish::Deadlock => push_record(text, &[10, 3], &[], &[]),
        Finish::Deep => push_record(text, &[10, 4], &[], &[]),
        Finish::Schedule { line } => {
            let (low, high) = (line % (1 << 32), line >> 32);
            push_record(text, &[10, 5], &[low as u32, high as u32], &[])
        }
    }
}

impl TraceWriter {
    /// The text of no event.
    pub fn new(alloc: Global) -> Result<TraceWriter, AllocError>
        ensures { IfOk result (λ w. IsTextOf w []) }
    {
        Ok(TraceWriter {
            text: Vec::from_slice(alloc, &MAGIC)?,
            order: Order::new(alloc)?,
        })
    }

    /// Whether the event may come next: with it the past is still one that a run can have.
    pub fn may_follow(&self, e: &Event) -> bool
        ensures shown { IsTrue result ↔ MayCome self.now.order e.now }
        ensures stands { (past : List Event) → IsTextOf self.now past
            → IsTrue result ↔ IsWellFormed (e.now ∷ past) }
    {
        self.order.may_follow(e)
    }

    /// Writes the next event. A refusal changes nothing.
    pub fn push(&mut self, e: Event) -> Result<(), AllocError>
        requires { MayCome self.old.order e }
        ensures added { (past : List Event) → IsTextOf self.old past
            → OnOk result (IsTextOf self.new (e ∷ past)) }
        ensures refused { OnErr result (self.new ≡ self.old) }
    {
        let before = self.text.len();
        let event = &e;
        push_event(&mut self.text, *event)?;
        let added = self.order.add(*event);
        if added.is_err() {
            self.text.truncate(before);
        }
        added
    }

    /// How many bytes the text has so far: those of the line, and of the records of the events.
    pub fn length(&self) -> u64
        ensures { result ≡ length self.now.text }
    {
        self.text.len() as u64
    }

    /// The text of the trace, with these names and this end.
    pub fn finish(self, names: &[(Addr, Name)], f: &Finish) -> Result<Vec<u8>, AllocError>
        requires rising { IsRising names.now }
        requires counted { (line : ℕ) → f.now ≡ ends.Schedule line → 1 ≤ line }
        ensures text { (past : List Event) → IsTextOf self past
            → IfOk result (λ text. text.items ≡ trace_text past names.now f.now) }
        ensures trace { (past : List Event) → IsTextOf self past → IsWellFormed past
            → IfOk result (λ text. IsTrace text.items past names.now f.now) }
    {
        let mut text = self.text;
        push_names(&mut text, names)?;
        push_finish(&mut text, *f)?;
        Ok(text)
    }
}

/// The writer stands for the events that it has written, and takes all that come.
impl Observer for TraceWriter {
    ghost use Rattle.std.specs.Prelude.{true, refl};
    ghost use Rattle.trace_file.specs.TraceText.{IsTextOf};

    ghost stands = { IsTextOf };

    ghost fits = { λ w past. true };

    ghost fits_closed = { λ w e past fits. refl };

    ghost steps_fit = { λ w tid past fits. refl };

    fn observe(&mut self, e: Event) -> Result<Observed, AllocError>
        requires { MayCome self.old.order e }
        ensures observed { IfOk result (Observes IsTextOf (λ past. true) e self.old self.new) }
        ensures refused { OnErr result (StandsAsBefore IsTextOf self.old self.new) }
    {
        self.push(e)?;
        Ok(Observed::Taken)
    }
}
