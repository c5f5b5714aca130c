//! The files of the system.
ghost use Rattle.std.specs.Prelude.{◌≡◌, ◌≢◌, ◌+◌, ◌-◌, ◌^◌, ◌<◌, ◌≤◌, length, min, vec_len, IsOk, IfOk, IfErr, IfSome};
ghost use Rattle.std.specs.IoError.{error_kind};
ghost use Rattle.std.specs.Io.KnownBytes.{Appends};
ghost use Rattle.std.specs.Io.Take.{take_inner, take_limit};
ghost use Rattle.host_io.specs.Files.{LoadEnds, StoreEnds, NoCountFalls};
ghost use Rattle.host_io.specs.After.{after_load, after_store};
ghost use Rattle.host_io.specs.Refused.{IsRefusedFor};

use crate::{Files, LoadError, StoreError};
use std::alloc::Global;
use std::io::{ErrorKind, Read, Take, Write};
use std::{fs, io, rt};

/// The files of the system. They tell neither contents nor failed paths.
#[derive(Drop)]
pub struct RealFiles<'a, R> {
    system: &'a R,
    faults: u64,
    oversized: u64,
}

impl<'a, R> RealFiles<'a, R> {
    ghost use Rattle.host_io.specs.Real.{real_state};

    /// No call has failed.
    pub fn new(rt: &'a R) -> RealFiles<'a, R>
        ensures { real_state result
            ≡ record { contents = None; failed_paths = None; faults = 0; oversized = 0 } }
    {
        RealFiles {
            system: rt,
            faults: 0,
            oversized: 0,
        }
    }
}

// Why a load fails. Out of memory, in the program or in the system, is no failure.
fn load_error(error: io::Error) -> LoadError
    ensures memory { error_kind error ≡ ErrorKind.OutOfMemory → result ≡ LoadError.Memory }
    ensures failed { error_kind error ≢ ErrorKind.OutOfMemory → result ≡ LoadError.Failed }
{
    if error.kind() == ErrorKind::OutOfMemory {
        LoadError::Memory
    } else {
        LoadError::Failed
    }
}

// Why a store fails whose file was not opened. Out of memory left the file as it was, and is no failure.
fn opening_error(error: io::Error) -> StoreError
    ensures memory { error_kind error ≡ ErrorKind.OutOfMemory → result ≡ StoreError.Memory }
    ensures failed { error_kind error ≢ ErrorKind.OutOfMemory → result ≡ StoreError.Failed }
{
    if error.kind() == ErrorKind::OutOfMemory {
        StoreError::Memory
    } else {
        StoreError::Failed
    }
}

// The reader up to one byte behind the limit, by which a longer file shows.
fn limited<R: Read>(reader: R, most: usize) -> Take<R>
    ensures limit { take_limit result ≡ min (most + 1) (2 ^ 64 - 1) }
    ensures inner { take_inner result ≡ reader }
{
    reader.take((most as u64).saturating_add(1))
}

// What a load gives, by how the reading ended and what was read.
fn loaded(read: io::Result<usize>, bytes: Vec<u8>, most: usize) -> Result<Vec<u8>, LoadError>
    ensures given { IfOk read (λ _. vec_len bytes ≤ most → result ≡ Ok bytes) }
    ensures only { IfOk result (λ kept. IsOk read × (vec_len bytes ≤ most) × (kept ≡ bytes)) }
    ensures longer { IfOk read (λ _. most < vec_len bytes → result ≡ Err LoadError.TooLarge) }
    ensures long { result ≡ Err LoadError.TooLarge → IsOk read × (most < vec_len bytes) }
    ensures failed { IfErr read (λ e. IsRefusedFor e LoadError.Memory LoadError.Failed result) }
{
    match read {
        Err(error) => Err(load_error(error)),
        Ok(_) if bytes.len() > most => Err(LoadError::TooLarge),
        Ok(_) => Ok(bytes),
    }
}

// All bytes that the reader gives to its end, where they are at most `most`. It stops by itself one byte behind them. An
// interrupted read is tried again, as std does.
fn read_whole<R: Read>(
    alloc: Global,
    mut reader: Take<R>,
    most: usize,
) -> Result<Vec<u8>, LoadError>
where
    R: Drop,
    requires stops { take_limit reader ≡ min (most + 1) (2 ^ 64 - 1) }
    ensures limit { IfOk result (λ bytes. vec_len bytes ≤ most) }
    ensures whole { IfOk result (λ bytes. IfSome (R.remaining (take_inner reader))
        (λ known. bytes.items ≡ known)) }
    ensures longer { result ≡ Err LoadError.TooLarge
        → IfSome (R.remaining (take_inner reader)) (λ known. most < length known) }
{
    let mut bytes = Vec::new(alloc);
    let read = reader.read_to_end(&mut bytes);
    loaded(read, bytes, most)
}

/// All bytes of what was opened, where they are at most `most`: the part of a load that is behind the opening of a file.
pub fn load_opened<R: Read>(
    alloc: Global,
    opened: io::Result<R>,
    most: usize,
) -> Result<Vec<u8>, LoadError>
where
    R: Drop,
    ensures limit { IfOk result (λ bytes. vec_len bytes ≤ most) }
    ensures unopened { IfErr opened (λ e. IsRefusedFor e LoadError.Memory LoadError.Failed result) }
    ensures whole { IfOk opened (λ file. IfOk result
        (λ bytes. IfSome (R.remaining file) (λ known. bytes.items ≡ known))) }
    ensures longer { IfOk opened (λ file. result ≡ Err LoadError.TooLarge
        → IfSome (R.remaining file) (λ known. most < length known)) }
{
    match opened {
        Ok(file) => read_whole(alloc, limited(file, most), most),
        Err(error) => Err(load_error(error)),
    }
}

// Writes all bytes to what was opened, and gives it back. Behind its opening a part may be written, so that each error is a
// failure.
fn store_opened<W: Write>(opened: io::Result<W>, bytes: &[u8]) -> Result<W, StoreError>
where
    W: Drop,
    ensures unopened { IfErr opened (λ e. IsRefusedFor e StoreError.Memory StoreError.Failed result) }
    ensures written { IfOk opened (λ file. IfOk result
        (λ left. Appends (W.contents file) (W.contents left) bytes.now)) }
    ensures failed { IfOk opened (λ file. IfErr result (λ e. e ≡ StoreError.Failed)) }
{
    let mut file = match opened {
        Ok(file) => file,
        Err(error) => return Err(opening_error(error)),
    };
    match file.write_all(bytes) {
        Ok(()) => Ok(file),
        Err(_) => Err(StoreError::Failed),
    }
}

impl<R: rt::Files> Files for RealFiles<'_, R> {
    ghost use Rattle.host_io.specs.Real.{real_state};

    ghost state = { real_state };

    fn load(&mut self, alloc: Global, path: &str, most: usize) -> Result<Vec<u8>, LoadError>
        ensures unchanged { (real_state self.new).contents ≡ (real_state self.old).contents }
        ensures counts { NoCountFalls (real_state self.old) (real_state self.new) }
        ensures ends { LoadEnds path.now most (real_state self.old) (real_state self.new) result }
        ensures state { real_state self.new ≡ after_load path.now result (real_state self.old) }
    {
        let result = load_opened(alloc, fs::open(self.system, path), most);
        match &result {
            Err(LoadError::Failed) => self.faults = self.faults.saturating_add(1),
            Err(LoadError::TooLarge) => self.oversized = self.oversized.saturating_add(1),
            _ => {}
        }
        result
    }

    fn store(&mut self, path: &str, bytes: &[u8]) -> Result<(), StoreError>
        ensures counts { NoCountFalls (real_state self.old) (real_state self.new) }
        ensures ends { StoreEnds path.now bytes.now (real_state self.old)
            (real_state self.new) result }
        ensures state { real_state self.new ≡ after_store path.now bytes.now result
            (real_state self.old) }
    {
        match store_opened(fs::create(self.system, path), bytes) {
            Ok(_) => Ok(()),
            Err(StoreError::Failed) => {
                self.faults = self.faults.saturating_add(1);
                Err(StoreError::Failed)
            }
            Err(StoreError::Memory) => Err(StoreError::Memory),
        }
    }
}
