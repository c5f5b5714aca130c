//! Entries of a schedule.
ghost use Rattle.std.specs.Prelude.{◌≡◌, ℕ, ◌≤◌, ◌++◌, IfSome, OnOk, Some};
ghost use Rattle.std.specs.Fmt.{decimal};
ghost use Rattle.thread_sched.specs.ScheduleText.{IsEntry, entry_text};
ghost use Rattle.thread_sched.specs.declared.entry.Entry.{Entry};

use guest_words::limits::RUN_STEPS;
use guest_words::{Tid, decimal_number, first_number, push_decimal};
use std::alloc::AllocError;

/// One turn: its thread, and how many instructions it has at most, 1 to `RUN_STEPS`.
#[derive(Clone, Copy, Debug, PartialEq, Eq)]
pub struct Entry {
    pub tid: Tid,
    pub most: u64,
}

// The number of instructions that is written so.
fn steps_of(word: &[u8]) -> Option<u64>
    ensures range { IfSome result (λ n. (1 ≤ n) × (n ≤ RUN_STEPS)) }
    ensures found { IfSome result (λ n. word.now ≡ decimal n) }
    ensures only { (n : ℕ) → 1 ≤ n → n ≤ RUN_STEPS → word.now ≡ decimal n → result ≡ Some n }
{
    match decimal_number(word) {
        Some(number) if 1 <= number && number <= RUN_STEPS => Some(number),
        _ => None,
    }
}

/// The entry of a line, without the byte that ends it.
pub fn entry_of(line: &[u8]) -> Option<Entry>
    ensures found { IfSome result (λ e. IsEntry e × (line.now ≡ entry_text e)) }
    ensures only { (e : Entry) → IsEntry e → line.now ≡ entry_text e → result ≡ Some e }
{
    let (tid, rest) = first_number(line)?;
    Some(Entry {
        tid: Tid::numbered(tid)?,
        most: steps_of(rest)?,
    })
}

/// Appends the line of an entry, without the byte that ends it.
pub fn push_entry(text: &mut Vec<u8>, entry: Entry) -> Result<(), AllocError>
    ensures { OnOk result (text.new.items ≡ text.old.items ++ entry_text entry) }
{
    push_decimal(text, u128::from(entry.tid.number()))?;
    text.extend_from_slice(b" ")?;
    push_decimal(text, u128::from(entry.most))
}
