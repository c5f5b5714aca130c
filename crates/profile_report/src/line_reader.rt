//! Reading a line: what a line says, where it has one of the forms.
ghost use Rattle.std.specs.Prelude.{◌≡◌, ℕ, ◌≤◌, ◌<◌, ◌^◌, List, ◌++◌, ◌∷◌, codes, Option, Some, true, IfSome, IsSomeAnd, MatchResult, IfErr, IfOk};
ghost use Rattle.std.specs.Fmt.{decimal};
ghost use Rattle.guest_words.specs.Names.{is_name};
ghost use Rattle.guest_words.specs.declared.endings.FaultKind.{FaultKind};
ghost use Rattle.guest_words.specs.declared.endings.Finish.{Finish};
ghost use Rattle.profile_report.specs.LineForms.{end_line, fault_words, first_line, hex_address, name_word};
ghost use Rattle.profile_report.specs.declared.line.Line.{Line};
ghost use Rattle.profile_report.specs.declared.report.ReportVersion.{ReportVersion};
ghost use Rattle.profile_report.specs.Grammar.{FitsLine, line_text};
ghost use Rattle.profile_report.specs.Private.Lines.{IsPlain};
ghost use Rattle.profile_report.specs.Reading.{HasName};
ghost use Rattle.profile_report.specs.Fits.{FitsEnd, FitsName};

use crate::ReportVersion;
use crate::addresses::address;
use crate::line::{Line, LineError};
use crate::point_reader::point_of;
use guest_words::{FaultKind, Finish, Name, NameError, Tid, cut, decimal_number, first_number};
use std::alloc::Global;

// What stands behind a label.
fn behind<'a>(label: &[u8], line: &'a [u8]) -> Option<&'a [u8]>
    ensures found { IfSome result (λ rest. line.now ≡ label.now ++ rest.now) }
    ensures only { (rest : List ℕ) → line.now ≡ label.now ++ rest
        → IsSomeAnd result (λ r. r.now ≡ rest) }
{
    line.strip_prefix(label)
}

// The version whose first line this is.
fn version_of(line: &[u8]) -> Option<ReportVersion>
    ensures found { IfSome result (λ v. line.now ≡ first_line v) }
    ensures only { (v : ReportVersion) → line.now ≡ first_line v → result ≡ Some v }
{
    if line == b"aprof 1".as_slice() {
        return Some(ReportVersion::One);
    }
    if line == b"aprof 2".as_slice() {
        return Some(ReportVersion::Two);
    }
    None
}

// The words of a fault.
fn fault_of(words: &[u8]) -> Option<Finish>
    ensures found { IfSome result (λ f. FitsEnd f × (codes "end fault " ++ words.now
        ≡ end_line f)) }
    ensures only { (kind : FaultKind) (tid at : ℕ) → FitsEnd (Finish.Fault kind tid at)
        → words.now ≡ fault_words kind tid at → result ≡ Some (Finish.Fault kind tid at) }
{
    let (kind, rest) = first_number(words)?;
    let (tid, rest) = first_number(rest)?;
    Some(Finish::Fault {
        kind: FaultKind::numbered(kind)?,
        tid: Tid::numbered(tid)?,
        at: address(rest)?,
    })
}

// The status in 8 bits that is written so.
fn status_of(word: &[u8]) -> Option<Finish>
    ensures found { IfSome result (λ f. FitsEnd f × (codes "end exit " ++ word.now ≡ end_line f)) }
    ensures only { (status : ℕ) → status < 2 ^ 8 → word.now ≡ decimal status
        → result ≡ Some (Finish.Exit status) }
{
    let status = u8::try_from(decimal_number(word)?).ok()?;
    Some(Finish::Exit { status })
}

// The line of a schedule that is written so, counted from 1.
fn schedule_of(word: &[u8]) -> Option<Finish>
    ensures found { IfSome result (λ f. FitsEnd f × (codes "end schedule " ++ word.now
        ≡ end_line f)) }
    ensures only { (line : ℕ) → 1 ≤ line → line < 2 ^ 64 → word.now ≡ decimal line
        → result ≡ Some (Finish.Schedule line) }
{
    match decimal_number(word) {
        Some(line) if 1 <= line => Some(Finish::Schedule { line }),
        _ => None,
    }
}

// An end that has no words of its own.
fn plain_end_of(line: &[u8]) -> Option<Finish>
    ensures found { IfSome result (λ f. FitsEnd f × (line.now ≡ end_line f)) }
    ensures budget { line.now ≡ codes "end budget" → result ≡ Some Finish.Budget }
    ensures deadlock { line.now ≡ codes "end deadlock" → result ≡ Some Finish.Deadlock }
    ensures deep { line.now ≡ codes "end deep" → result ≡ Some Finish.Deep }
{
    if line == b"end budget".as_slice() {
        return Some(Finish::Budget);
    }
    if line == b"end deadlock".as_slice() {
        return Some(Finish::Deadlock);
    }
    if line == b"end deep".as_slice() {
        return Some(Finish::Deep);
    }
    None
}

// How the run ended.
fn end_of(line: &[u8]) -> Option<Finish>
    ensures found { IfSome result (λ f. FitsEnd f × (line.now ≡ end_line f)) }
    ensures only { (f : Finish) → FitsEnd f → line.now ≡ end_line f → result ≡ Some f }
{
    if let Some(word) = behind(b"end exit ", line) {
        return status_of(word);
    }
    if let Some(words) = behind(b"end fault ", line) {
        return fault_of(words);
    }
    if let Some(word) = behind(b"end schedule ", line) {
        return schedule_of(word);
    }
    plain_end_of(line)
}

// A name, or the dash that stands for none.
fn name_of(alloc: Global, word: &[u8]) -> Result<Option<Name>, LineError>
    ensures found { IfOk result (λ name. FitsName name × (word.now ≡ name_word name)) }
    ensures only { (name : Option (List ℕ)) → FitsName name → word.now ≡ name_word name
        → MatchResult result (λ x. x ≡ name) (λ e. e ≡ LineError.Memory) }
    ensures memory { IfErr result (λ e. e ≡ LineError.Memory → is_name word.now ≡ true) }
{
    if word == b"-".as_slice() {
        return Ok(None);
    }
    match Name::new(alloc, word) {
        Ok(name) => Ok(Some(name)),
        Err(NameError::Bad) => Err(LineError::NoForm),
        Err(NameError::Memory) => Err(LineError::Memory),
    }
}

// A routine's entry and its name.
fn routine_of(alloc: Global, words: &[u8]) -> Result<Line, LineError>
    ensures found { IfOk result (λ l. FitsLine l × (codes "routine " ++ words.now
        ≡ line_text l)) }
    ensures only { (entry : ℕ) (name : Option (List ℕ)) → FitsLine (Line.OfRoutine entry name)
        → words.now ≡ hex_address entry ++ 32 ∷ name_word name
        → MatchResult result (λ l. l ≡ Line.OfRoutine entry name) (λ e. e ≡ LineError.Memory) }
    ensures memory { IfErr result (λ e. e ≡ LineError.Memory → (l : Line) × FitsLine l
        × (codes "routine " ++ words.now ≡ line_text l) × HasName l) }
{
    let Some((entry, name)) = cut(words, b' ') else {
        return Err(LineError::NoForm);
    };
    match address(entry) {
        Some(entry) => Ok(Line::OfRoutine(entry, name_of(alloc, name)?)),
        None => Err(LineError::NoForm),
    }
}

// The number of instructions that is written so.
fn steps_of(word: &[u8]) -> Option<Line>
    ensures found { IfSome result (λ l. FitsLine l × (codes "steps " ++ word.now
        ≡ line_text l)) }
    ensures only { (n : ℕ) → n < 2 ^ 64 → word.now ≡ decimal n → result ≡ Some (Line.Steps n) }
{
    Some(Line::Steps(decimal_number(word)?))
}

// The number of open activations that is written so.
fn pending_of(word: &[u8]) -> Option<Line>
    ensures found { IfSome result (λ l. FitsLine l × (codes "open " ++ word.now
        ≡ line_text l)) }
    ensures only { (n : ℕ) → n < 2 ^ 64 → word.now ≡ decimal n → result ≡ Some (Line.Open n) }
{
    Some(Line::Open(decimal_number(word)?))
}

// The number of routines that is written so.
fn count_of(word: &[u8]) -> Option<Line>
    ensures found { IfSome result (λ l. FitsLine l × (codes "done " ++ word.now
        ≡ line_text l)) }
    ensures only { (n : ℕ) → n < 2 ^ 64 → word.now ≡ decimal n → result ≡ Some (Line.Done n) }
{
    Some(Line::Done(decimal_number(word)?))
}

// A line that has no name.
fn plain_line(line: &[u8]) -> Option<Line>
    ensures found { IfSome result (λ l. FitsLine l × (line.now ≡ line_text l)) }
    ensures only { (l : Line) → IsPlain l → FitsLine l → line.now ≡ line_text l
        → result ≡ Some l }
{
    if let Some(version) = version_of(line) {
        return Some(Line::First(version));
    }
    if let Some(word) = behind(b"steps ", line) {
        return steps_of(word);
    }
    if let Some(word) = behind(b"open ", line) {
        return pending_of(word);
    }
    if let Some(word) = behind(b"done ", line) {
        return count_of(word);
    }
    if let Some(finish) = end_of(line) {
        return Some(Line::End(finish));
    }
    Some(Line::OfPoint(point_of(line)?))
}

/// What a line says.
pub fn read_line(alloc: Global, line: &[u8]) -> Result<Line, LineError>
    ensures found { IfOk result (λ l. FitsLine l × (line.now ≡ line_text l)) }
    ensures only { (l : Line) → FitsLine l → line.now ≡ line_text l
        → MatchResult result (λ x. x ≡ l) (λ e. e ≡ LineError.Memory) }
    ensures memory { IfErr result (λ e. e ≡ LineError.Memory → (l : Line) × FitsLine l
        × (line.now ≡ line_text l) × HasName l) }
{
    if let Some(words) = behind(b"routine ", line) {
        return routine_of(alloc, words);
    }
    match plain_line(line) {
        Some(line) => Ok(line),
        None => Err(LineError::NoForm),
    }
}
