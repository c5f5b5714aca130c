//! The lines of a report, one function a form.
#![tactic(auto, using(guest_words::proofs::Texts::keeps, guest_words::proofs::Texts::keeps_same, guest_words::proofs::Texts::keeps_further, guest_words::proofs::Texts::cut_back))]

ghost use Rattle.std.specs.Prelude.{◌≡◌, ◌++◌, ◌<◌, codes, take, IsOk, OnErr, OnOk};
ghost use Rattle.profile_report.specs.LineForms.{end_line, ended, fault_words, first_line, hex_address, hex_glyph, labelled, name_word, point_line, routine_line, split_words};
ghost use Rattle.guest_words.specs.Texts.{KeepsOn};

use crate::ReportVersion;
use cost_points::{Point, Split};
use guest_words::{Addr, FaultKind, Finish, Name, Tid, push_decimal};
use std::alloc::AllocError;

/// Cuts the text back to its first `length` bytes if what was pushed behind them failed.
pub(crate) fn or_cut_back(
    pushed: Result<(), AllocError>,
    text: &mut Vec<u8>,
    length: usize,
) -> Result<(), AllocError>
    ensures same { result ≡ pushed }
    ensures ok { OnOk result (text.new.items ≡ text.old.items) }
    ensures err { OnErr result (text.new.items ≡ take length text.old.items) }
{
    if pushed.is_err() {
        text.truncate(length);
    }
    pushed
}

// Ends the line that was pushed behind the first `length` bytes, or cuts the text back to these if a push failed.
fn or_cut_line(
    pushed: Result<(), AllocError>,
    text: &mut Vec<u8>,
    length: usize,
) -> Result<(), AllocError>
    ensures pushed { OnOk result (IsOk pushed) }
    ensures ok { OnOk result (text.new.items ≡ ended text.old.items) }
    ensures err { OnErr result (text.new.items ≡ take length text.old.items) }
{
    or_cut_back(pushed, text, length)?;
    or_cut_back(text.extend_from_slice(b"\n"), text, length)
}

// Appends a number after its label.
fn push_labelled(text: &mut Vec<u8>, label: &[u8], number: u64) -> Result<(), AllocError>
    ensures ok { OnOk result (text.new.items ≡ text.old.items ++ labelled label.now number) }
    ensures kept { KeepsOn text.old.items text.new.items }
{
    text.extend_from_slice(label)?;
    push_decimal(text, u128::from(number))
}

// Appends a number in 128 bits after a space.
fn push_wide(text: &mut Vec<u8>, number: u128) -> Result<(), AllocError>
    ensures ok { OnOk result (text.new.items ≡ text.old.items ++ labelled (codes " ") number) }
    ensures kept { KeepsOn text.old.items text.new.items }
{
    text.extend_from_slice(b" ")?;
    push_decimal(text, number)
}

/// Appends the line of a version. If it runs out of memory, the text stays as it was.
pub fn push_first_line(text: &mut Vec<u8>, version: ReportVersion) -> Result<(), AllocError>
    ensures ok { OnOk result (text.new.items ≡ text.old.items ++ ended (first_line version)) }
    ensures err { OnErr result (text.new.items ≡ text.old.items) }
{
    match version {
        ReportVersion::One => text.extend_from_slice(b"aprof 1\n"),
        ReportVersion::Two => text.extend_from_slice(b"aprof 2\n"),
    }
}

// The glyph of a digit in base 16.
fn hex_glyph(digit: u32) -> u8
    requires { digit < 16 }
    ensures { result ≡ hex_glyph digit }
{
    let digits = b"0123456789abcdef";
    digits[digit as usize]
}

/// The eight digits of an address in base 16.
#[tactic(auto, unfolding(crate::specs::LineForms::hex_address))]
pub fn hex_address(at: Addr) -> [u8; 8]
    ensures { result ≡ hex_address at }
{
    [
        hex_glyph(at / 0x1000_0000 % 16),
        hex_glyph(at / 0x100_0000 % 16),
        hex_glyph(at / 0x10_0000 % 16),
        hex_glyph(at / 0x1_0000 % 16),
        hex_glyph(at / 0x1000 % 16),
        hex_glyph(at / 0x100 % 16),
        hex_glyph(at / 0x10 % 16),
        hex_glyph(at % 16),
    ]
}

// Appends an address in eight digits of base 16.
fn push_address(text: &mut Vec<u8>, at: Addr) -> Result<(), AllocError>
    ensures ok { OnOk result (text.new.items ≡ text.old.items ++ hex_address at) }
    ensures kept { KeepsOn text.old.items text.new.items }
{
    text.extend_from_slice(&hex_address(at))
}

// Appends a fault's kind, thread and address.
fn push_fault(text: &mut Vec<u8>, kind: FaultKind, tid: Tid, at: Addr) -> Result<(), AllocError>
    ensures ok { OnOk result (text.new.items
        ≡ text.old.items ++ (codes "end fault " ++ fault_words kind tid at)) }
    ensures kept { KeepsOn text.old.items text.new.items }
{
    push_labelled(text, b"end fault ", u64::from(kind.number()))?;
    push_labelled(text, b" ", u64::from(tid.number()))?;
    text.extend_from_slice(b" ")?;
    push_address(text, at)
}

// Appends how the run ended.
fn push_end(text: &mut Vec<u8>, finish: Finish) -> Result<(), AllocError>
    ensures ok { OnOk result (text.new.items ≡ text.old.items ++ end_line finish) }
    ensures kept { KeepsOn text.old.items text.new.items }
{
    match finish {
        Finish::Exit { status } => push_labelled(text, b"end exit ", u64::from(status)),
        Finish::Fault { kind, tid, at } => push_fault(text, kind, tid, at),
        Finish::Budget => text.extend_from_slice(b"end budget"),
        Finish::Deadlock => text.extend_from_slice(b"end deadlock"),
        Finish::Deep => text.extend_from_slice(b"end deep"),
        Finish::Schedule { line } => push_labelled(text, b"end schedule ", line),
    }
}

/// Appends the line on how the run ended. If it runs out of memory, the text stays as it was.
pub fn push_end_line(text: &mut Vec<u8>, finish: Finish) -> Result<(), AllocError>
    ensures ok { OnOk result (text.new.items ≡ text.old.items ++ ended (end_line finish)) }
    ensures err { OnErr result (text.new.items ≡ text.old.items) }
{
    let length = text.len();
    or_cut_line(push_end(text, finish), text, length)
}

/// Appends the line of a number after its label. If it runs out of memory, the text stays as it was.
pub fn push_number_line(text: &mut Vec<u8>, label: &[u8], number: u64) -> Result<(), AllocError>
    ensures ok { OnOk result (text.new.items ≡ text.old.items ++ ended (labelled label.now number)) }
    ensures err { OnErr result (text.new.items ≡ text.old.items) }
{
    let length = text.len();
    or_cut_line(push_labelled(text, label, number), text, length)
}

// Appends a routine's name, or a dash where it has none.
fn push_name(text: &mut Vec<u8>, name: &Option<Name>) -> Result<(), AllocError>
    ensures ok { OnOk result (text.new.items ≡ text.old.items ++ name_word name.now) }
    ensures kept { KeepsOn text.old.items text.new.items }
{
    match name {
        Some(name) => text.extend_from_slice(name.bytes()),
        None => text.extend_from_slice(b"-"),
    }
}

// Appends the words on a routine.
fn push_routine(text: &mut Vec<u8>, entry: Addr, name: &Option<Name>) -> Result<(), AllocError>
    ensures ok { OnOk result (text.new.items ≡ text.old.items ++ routine_line entry name.now) }
    ensures kept { KeepsOn text.old.items text.new.items }
{
    text.extend_from_slice(b"routine ")?;
    push_address(text, entry)?;
    text.extend_from_slice(b" ")?;
    push_name(text, name)
}

/// Appends the line of a routine. If it runs out of memory, the text stays as it was.
pub fn push_routine_line(
    text: &mut Vec<u8>,
    entry: Addr,
    name: &Option<Name>,
) -> Result<(), AllocError>
    ensures ok { OnOk result (text.new.items
        ≡ text.old.items ++ ended (routine_line entry name.now)) }
    ensures err { OnErr result (text.new.items ≡ text.old.items) }
{
    let length = text.len();
    or_cut_line(push_routine(text, entry, name), text, length)
}

// Appends the parts of a point's sizes, where they are told.
fn push_split(text: &mut Vec<u8>, split: Option<Split>) -> Result<(), AllocError>
    ensures ok { OnOk result (text.new.items ≡ text.old.items ++ split_words split) }
    ensures kept { KeepsOn text.old.items text.new.items }
{
    match split {
        Some(split) => {
            push_wide(text, split.plain)?;
            push_wide(text, split.thread)?;
            push_wide(text, split.kernel)?;
            push_wide(text, split.bare)
        }
        None => Ok(()),
    }
}

// Appends the numbers of a point.
fn push_point(text: &mut Vec<u8>, point: Point) -> Result<(), AllocError>
    ensures ok { OnOk result (text.new.items ≡ text.old.items ++ point_line point) }
    ensures kept { KeepsOn text.old.items text.new.items }
{
    push_decimal(text, u128::from(point.size))?;
    push_labelled(text, b" ", point.calls)?;
    push_labelled(text, b" ", point.least)?;
    push_labelled(text, b" ", point.most)?;
    push_wide(text, point.sum)?;
    push_split(text, point.split)
}

/// Appends the line of a point. If it runs out of memory, the text stays as it was.
pub fn push_point_line(text: &mut Vec<u8>, point: Point) -> Result<(), AllocError>
    ensures ok { OnOk result (text.new.items ≡ text.old.items ++ ended (point_line point)) }
    ensures err { OnErr result (text.new.items ≡ text.old.items) }
{
    let length = text.len();
    or_cut_line(push_point(text, point), text, length)
}
