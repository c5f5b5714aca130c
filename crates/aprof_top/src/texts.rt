//! The texts that the program puts.
ghost use Rattle.std.specs.Prelude.{◌≡◌, IfOk, OnErr};
ghost use Rattle.aprof_top.specs.Ends.End.{Decided};
ghost use Rattle.aprof_top.specs.LastText.{IsMade};
ghost use Rattle.aprof_top.specs.Private.LastTexts.{bytes_of};
ghost use Rattle.aprof_top.specs.Texts.{bad_trace_text, cannot_read_text, fault_text, finish_text, image_text, renumberings_text, schedule_text};
ghost use Rattle.aprof_top.specs.Verdicts.{verdict_text};
ghost use Rattle.aprof_top.specs.declared.ending.Verdict.TheVariants.{Ran};

use crate::ending::Verdict;
use elf_image::ElfError;
use guest_words::{Addr, FaultKind, Finish, Tid};
use profile_report::hex_address;
use std::alloc::{AllocError, Global};
use trace_file::TraceError;

/// A last text: always the same, or made with a path or a number in it.
#[derive(Drop)]
pub(crate) enum Text {
    Fixed(&'static [u8]),
    Made(Vec<u8>),
}

impl Text {
    /// The bytes of the text.
    pub(crate) fn as_slice(&self) -> &[u8]
        ensures { result.now ≡ bytes_of self.now }
    {
        match self {
            Text::Fixed(bytes) => bytes,
            Text::Made(bytes) => bytes.as_slice(),
        }
    }
}

/// The text after the load of this path failed.
pub(crate) fn cannot_read_text(alloc: Global, path: &str) -> Result<Text, AllocError>
    ensures { IfOk result (λ text. bytes_of text ≡ cannot_read_text path.now) }
{
    Ok(Text::Made(format!(in alloc; "aprof: cannot read {path}\n")?.into_bytes()))
}

// The line that tells by its number why an executable is refused.
fn image_text(alloc: Global, error: ElfError) -> Result<Text, AllocError>
    ensures { IfOk result (λ text. bytes_of text ≡ image_text error) }
{
    let number = error.number();
    Ok(Text::Made(format!(in alloc; "aprof: image {number}\n")?.into_bytes()))
}

// The line that tells the line of a schedule that is refused.
fn schedule_text(alloc: Global, line: u64) -> Result<Text, AllocError>
    ensures { IfOk result (λ text. bytes_of text ≡ schedule_text line) }
{
    Ok(Text::Made(format!(in alloc; "aprof: schedule {line}\n")?.into_bytes()))
}

// The line that tells by its number why a trace is refused.
fn bad_trace_text(alloc: Global, error: TraceError) -> Result<Text, AllocError>
    ensures { IfOk result (λ text. bytes_of text ≡ bad_trace_text error) }
{
    let number = error.number().unwrap_or(0);
    Ok(Text::Made(format!(in alloc; "aprof: trace {number}\n")?.into_bytes()))
}

// The line of a fault: its kind, its thread and its address.
fn fault_text(alloc: Global, kind: FaultKind, tid: Tid, at: Addr) -> Result<Text, AllocError>
    ensures { IfOk result (λ text. bytes_of text ≡ fault_text kind tid at) }
{
    let kind = kind.number();
    let tid = tid.number();
    let mut text = format!(in alloc; "aprof: fault {kind} thread {tid}")?.into_bytes();
    text.extend_from_slice(b" at ")?;
    text.extend_from_slice(&hex_address(at))?;
    text.extend_from_slice(b"\n")?;
    Ok(Text::Made(text))
}

// The line on how a run ended, or nothing after an exit.
fn finish_text(alloc: Global, finish: Finish) -> Result<Text, AllocError>
    ensures text { IfOk result (λ text. bytes_of text ≡ finish_text finish) }
    ensures made { OnErr result (IsMade (Decided (Ran finish))) }
{
    match finish {
        Finish::Exit { .. } => Ok(Text::Fixed(b"")),
        Finish::Fault { kind, tid, at } => fault_text(alloc, kind, tid, at),
        Finish::Budget => Ok(Text::Fixed(b"aprof: budget\n")),
        Finish::Deadlock => Ok(Text::Fixed(b"aprof: deadlock\n")),
        Finish::Deep => Ok(Text::Fixed(b"aprof: too deep\n")),
        Finish::Schedule { line } => schedule_text(alloc, line),
    }
}

/// How often stamps were renumbered, which `--stats` asks for.
pub(crate) fn renumberings_text(alloc: Global, count: u64) -> Result<Vec<u8>, AllocError>
    ensures { IfOk result (λ text. text.items ≡ renumberings_text count) }
{
    Ok(format!(in alloc; "aprof: renumberings {count}\n")?.into_bytes())
}

/// The last text of a verdict.
pub(crate) fn verdict_text(alloc: Global, verdict: Verdict) -> Result<Text, AllocError>
    ensures text { IfOk result (λ text. bytes_of text ≡ verdict_text verdict) }
    ensures made { OnErr result (IsMade (Decided verdict)) }
{
    match verdict {
        Verdict::BadCommand => Ok(Text::Fixed(b"aprof: bad command line\n")),
        Verdict::BadImage(error) => image_text(alloc, error),
        Verdict::BadSchedule(line) => schedule_text(alloc, line),
        Verdict::BadTrace(error) => bad_trace_text(alloc, error),
        Verdict::TooLarge | Verdict::ResultTooLarge => Ok(Text::Fixed(b"aprof: too large\n")),
        Verdict::Ran(finish) => finish_text(alloc, finish),
        Verdict::Done => Ok(Text::Fixed(b"")),
    }
}
