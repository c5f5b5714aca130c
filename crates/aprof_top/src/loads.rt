//! Loading the files of a command.
ghost use Rattle.std.specs.Prelude.{map};
ghost use Rattle.aprof_top.specs.Private.Loading.{FileLoads, LoadsSo, load_in};

use crate::ending::{CommandEnding, Ending, Verdict};
use crate::loaded::Loaded;
use crate::source::Load;
use guest_words::limits::INPUT_BYTES;
use host_io::{Files, LoadError};
use std::alloc::Global;

// Loads one file.
fn load_file<'a, F: Files>(
    alloc: Global,
    load: Load<'a>,
    files: &mut F,
) -> Result<Vec<u8>, CommandEnding<'a>>
    ensures { FileLoads (load_in load.entry) (F.state files.old) (F.state files.new) result }
{
    match files.load(alloc, load.path, load.source.limit()) {
        Ok(bytes) => Ok(bytes),
        Err(LoadError::Failed) => Err(CommandEnding::CannotRead(load)),
        Err(LoadError::TooLarge) => Err(CommandEnding::Ended(Ending::Decided(Verdict::TooLarge))),
        Err(LoadError::Memory) => Err(CommandEnding::Ended(Ending::OutOfMemory)),
    }
}

/// Loads the files of a command, in order.
pub(crate) fn load_files<'a, F: Files>(
    alloc: Global,
    loads: &[Load<'a>],
    files: &mut F,
) -> Result<Loaded, CommandEnding<'a>>
    ensures { LoadsSo (map load_in loads.now) (F.state files.old) (F.state files.new) result }
{
    let mut loaded = Loaded::new(alloc)?;
    let mut shared_bytes = 0;
    for load in loads {
        let bytes = match load_file(alloc, *load, files) {
            Ok(bytes) => bytes,
            Err(ending) => return Err(ending),
        };
        shared_bytes += load.source.shared_bytes(bytes.len());
        if shared_bytes > INPUT_BYTES {
            return Err(CommandEnding::Ended(Ending::Decided(Verdict::TooLarge)));
        }
        loaded.put(*load, bytes)?;
    }
    Ok(loaded)
}
