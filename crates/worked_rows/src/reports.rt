//! Reports in one line: a slash stands for the end of each of its lines.
use anyhow::Result;
use profile_report::{read_report, write_report};
use std::alloc::Global;

/// The lines of a row.
pub fn lines_of(alloc: Global, row: &str) -> Result<Vec<u8>> {
    let mut text = Vec::new(alloc);
    for byte in row.as_bytes() {
        text.push(if *byte == b'/' { b'\n' } else { *byte })?;
    }
    Ok(text)
}

/// How many routines the report has, and whether it is written as it was read; or the refusal of the text.
pub fn answer(alloc: Global, row: &str) -> Result<String> {
    let text = lines_of(alloc, row)?;
    match read_report(alloc, &text) {
        Err(refusal) => Ok(format!(in alloc; "{refusal:?}")?),
        Ok(report) => {
            let again = write_report(alloc, &report)?;
            let (count, same) = (report.routines.len(), again.as_slice() == text.as_slice());
            Ok(format!(in alloc; "{count} routines, the same text {same}")?)
        }
    }
}
