//! Handing out what a command leaves: bytes to a sink, and files.
ghost use Rattle.std.specs.Prelude.{◌≡◌, ◌<◌, length, map, OnErr, Some};
ghost use Rattle.host_io.specs.Sink.{PutEnds};
ghost use Rattle.aprof_top.specs.Private.Jobs.{EndsAs, IsStored, StatsEnd, StoresEnd, store_of};
ghost use Rattle.aprof_top.specs.Outcome.{one_file, run_outcome, stats_of};

use crate::ending::{Ending, Verdict};
use crate::texts::renumberings_text;
use guest_words::Finish;
use host_io::{Files, PutError, Sink, StoreError};
use std::alloc::Global;

/// A file to store.
#[derive(Drop)]
pub(crate) struct Store<'a> {
    pub(crate) path: &'a str,
    pub(crate) bytes: Vec<u8>,
}

/// Puts bytes, where there are any.
pub(crate) fn put_all<S: Sink>(bytes: &[u8], sink: &mut S) -> Result<(), PutError>
    ensures ends { PutEnds bytes.now (S.state sink.old) (S.state sink.new) result }
    ensures some { OnErr result (0 < length bytes.now) }
{
    if bytes.is_empty() {
        return Ok(());
    }
    sink.put(bytes)
}

/// Puts how often stamps were renumbered, where that is asked for.
pub(crate) fn put_stats<E: Sink>(
    alloc: Global,
    asked: bool,
    count: u64,
    err: &mut E,
) -> Result<(), Ending>
    ensures { StatsEnd (stats_of asked count) (E.state err.old) (E.state err.new) result }
{
    if !asked {
        return Ok(());
    }
    let text = renumberings_text(alloc, count)?;
    match put_all(text.as_slice(), err) {
        Ok(()) => Ok(()),
        Err(PutError::Failed) => Err(Ending::CannotPut),
        Err(PutError::Memory) => Err(Ending::OutOfMemory),
    }
}

/// Stores files, in order.
pub(crate) fn store_all<F: Files>(stores: &[Store<'_>], files: &mut F) -> Result<(), StoreError>
    ensures { StoresEnd (map store_of stores.now) (F.state files.old) (F.state files.new) result }
{
    for store in stores {
        if let Err(error) = files.store(store.path, store.bytes.as_slice()) {
            return Err(error);
        }
    }
    Ok(())
}

/// Stores the one file that is made of a run, which ended so.
pub(crate) fn store_result<F: Files>(
    path: &str,
    bytes: &[u8],
    finish: Finish,
    files: &mut F,
) -> Result<Verdict, Ending>
    ensures { IsStored EndsAs (λ run. run_outcome run (Some (one_file path.now bytes.now))) finish
        (F.state files.old) (F.state files.new) result }
{
    files.store(path, bytes)?;
    Ok(Verdict::Ran(finish))
}
