//! Laws on the text of schedules.
ghost use Rattle.std.specs.Prelude.{◌≡◌, ℕ, List};
ghost use Rattle.std.specs.List.{AllByRecursion};
ghost use Rattle.thread_sched.specs.ScheduleText.{HasEntry, IsBadLine, IsEntry, IsText, schedule_text};
ghost use Rattle.thread_sched.specs.declared.entry.Entry.{Entry};

/// Different lists of turns have different texts.
pub fn a_recording_is_read_as_its_turns()
    ensures same { (turns other : List Entry) → AllByRecursion IsEntry turns
        → AllByRecursion IsEntry other → IsText (schedule_text turns) other → other ≡ turns }
    ensures read { (turns : List Entry) → IsText (schedule_text turns) turns }
{}

/// A text has one reading: the entries whose text it is, or else the number of its first line that is not an entry's. Where
/// that is line 1, no reading runs out of memory.
pub fn a_text_reads_in_one_way()
    ensures entries { (text : List ℕ) (entries other : List Entry) → AllByRecursion IsEntry entries
        → AllByRecursion IsEntry other → IsText text entries → IsText text other → other ≡ entries }
    ensures line { (text : List ℕ) (m n : ℕ) → IsBadLine text m → IsBadLine text n → n ≡ m }
    ensures apart { (text : List ℕ) (entries : List Entry) (n : ℕ) → AllByRecursion IsEntry entries
        → IsText text entries → IsBadLine text n → ⊥ }
    ensures memory { (text : List ℕ) → IsBadLine text 1 → HasEntry text → ⊥ }
{}
