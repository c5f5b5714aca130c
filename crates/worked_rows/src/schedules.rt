//! Schedules in one line: a slash stands for the end of each of its lines.
use anyhow::Result;
use std::alloc::Global;
use thread_sched::Schedule;

/// Whether the text is a schedule, or why it is none.
pub fn answer(alloc: Global, row: &str) -> Result<String> {
    let text = crate::reports::lines_of(alloc, row)?;
    match Schedule::read(alloc, &text) {
        Ok(_) => Ok(String::from_str(alloc, "a schedule")?),
        Err(refusal) => Ok(format!(in alloc; "{refusal:?}")?),
    }
}
