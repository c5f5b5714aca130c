//! Files in memory, which can be made to fail at chosen calls.
ghost use Rattle.std.specs.Prelude.{◌≡◌, ◌-◌, ◌++◌, ◌∷◌, [], ◌⊎◌, Some, None, IfOk, OnOk, OnErr, IsErrOf};
ghost use Rattle.host_io.specs.Files.{LoadEnds, StoreEnds, NoCountFalls, with_file};
ghost use Rattle.host_io.specs.Faults.{counted};
ghost use Rattle.host_io.specs.After.{with_failure, after_load, after_store};
ghost use Rattle.std.specs.Option.{option_map};

use crate::{Files, LoadError, StoreError};
use std::alloc::{AllocError, Global};
use std::collections::BTreeMap;

/// Files by their paths. Loads and stores are numbered together, from 0; all from number 2^64 - 1 on have that number.
#[derive(Drop)]
pub struct MemoryFiles {
    alloc: Global,
    files: BTreeMap<String, Vec<u8>>,
    failing_calls: Vec<u64>,
    failed_paths: Vec<String>,
    calls: u64,
    faults: u64,
    oversized: u64,
}

impl MemoryFiles {
    ghost use Rattle.host_io.specs.Memory.{files_state, files_contents, next_call, failing_calls};

    /// An object with no file, that fails at no call.
    pub fn new(alloc: Global) -> Result<MemoryFiles, AllocError>
        ensures state { IfOk result (λ m. files_state m
            ≡ record { contents = Some (λ _. None); failed_paths = Some []; faults = 0; oversized = 0 }) }
        ensures next { IfOk result (λ m. next_call m ≡ 0) }
        ensures failing { IfOk result (λ m. failing_calls m ≡ []) }
    {
        Ok(MemoryFiles {
            alloc,
            files: BTreeMap::new(alloc),
            failing_calls: Vec::new(alloc),
            failed_paths: Vec::new(alloc),
            calls: 0,
            faults: 0,
            oversized: 0,
        })
    }

    /// Sets a file's content.
    pub fn add(&mut self, path: &str, bytes: &[u8]) -> Result<(), AllocError>
        ensures ok { OnOk result (files_state self.new
            ≡ record (files_state self.old) { contents = with_file path.now (Some bytes.now) (files_state self.old).contents }) }
        ensures err { OnErr result (files_state self.new ≡ files_state self.old) }
        ensures next { next_call self.new ≡ next_call self.old }
        ensures failing { failing_calls self.new ≡ failing_calls self.old }
    {
        let name = String::from_str(self.alloc, path)?;
        let content = bytes.to_vec(self.alloc)?;
        self.files.insert(name, content)?;
        Ok(())
    }

    /// Makes the load or store with this number, counted from 0, fail.
    pub fn fail_at(&mut self, call: u64) -> Result<(), AllocError>
        ensures state { files_state self.new ≡ files_state self.old }
        ensures next { next_call self.new ≡ next_call self.old }
        ensures ok { OnOk result (failing_calls self.new ≡ failing_calls self.old ++ call ∷ []) }
        ensures err { OnErr result (failing_calls self.new ≡ failing_calls self.old) }
    {
        self.failing_calls.push(call)?;
        Ok(())
    }

    /// The content of a file.
    pub fn bytes(&self, path: &str) -> Option<&[u8]>
        ensures { option_map (λ bytes. bytes.now) result ≡ files_contents self.now path.now }
    {
        match self.files.get(path) {
            None => None,
            Some(bytes) => Some(bytes.as_slice()),
        }
    }

    // Notes that the call failed at this path.
    fn note_failure(&mut self, path: &str) -> Result<(), AllocError>
        ensures ok { OnOk result (files_state self.new
            ≡ with_failure path.now (files_state self.old)) }
        ensures err { OnErr result (files_state self.new ≡ files_state self.old) }
        ensures counts { NoCountFalls (files_state self.old) (files_state self.new) }
        ensures next { next_call self.new ≡ next_call self.old }
        ensures failing { failing_calls self.new ≡ failing_calls self.old }
    {
        let name = String::from_str(self.alloc, path)?;
        self.failed_paths.push(name)?;
        self.faults = self.faults.saturating_add(1);
        Ok(())
    }
}

impl Files for MemoryFiles {
    ghost use Rattle.host_io.specs.Memory.{files_state, next_call, failing_calls, IsToFail, LoadIsToFail};

    ghost state = { files_state };

    fn load(&mut self, alloc: Global, path: &str, most: usize) -> Result<Vec<u8>, LoadError>
        ensures unchanged { (files_state self.new).contents ≡ (files_state self.old).contents }
        ensures counts { NoCountFalls (files_state self.old) (files_state self.new) }
        ensures ends { LoadEnds path.now most (files_state self.old) (files_state self.new) result }

        ensures state { files_state self.new ≡ after_load path.now result (files_state self.old) }

        // It fails exactly where the call is made to fail, or there is no such file.
        ensures fails { IsErrOf result LoadError.Failed → LoadIsToFail self.old path.now }
        ensures is_to_fail { LoadIsToFail self.old path.now
            → IsErrOf result LoadError.Failed ⊎ IsErrOf result LoadError.Memory }
        ensures next { next_call self.new ≡ counted (next_call self.old) }
        ensures failing { failing_calls self.new ≡ failing_calls self.old }
    {
        let fails = self.failing_calls.contains(&self.calls);
        self.calls = self.calls.saturating_add(1);
        if fails {
            self.note_failure(path)?;
            return Err(LoadError::Failed);
        }
        match self.files.get(path) {
            None => {
                self.note_failure(path)?;
                Err(LoadError::Failed)
            }
            Some(bytes) => {
                if bytes.len() > most {
                    self.oversized = self.oversized.saturating_add(1);
                    return Err(LoadError::TooLarge);
                }
                Ok(bytes.to_vec(alloc)?)
            }
        }
    }

    fn store(&mut self, path: &str, bytes: &[u8]) -> Result<(), StoreError>
        ensures counts { NoCountFalls (files_state self.old) (files_state self.new) }
        ensures ends { StoreEnds path.now bytes.now (files_state self.old)
            (files_state self.new) result }

        ensures state { files_state self.new ≡ after_store path.now bytes.now result
            (files_state self.old) }

        // It fails exactly where the call is made to fail.
        ensures fails { IsErrOf result StoreError.Failed → IsToFail self.old }
        ensures is_to_fail { IsToFail self.old
            → IsErrOf result StoreError.Failed ⊎ IsErrOf result StoreError.Memory }
        ensures next { next_call self.new ≡ counted (next_call self.old) }
        ensures failing { failing_calls self.new ≡ failing_calls self.old }
    {
        let fails = self.failing_calls.contains(&self.calls);
        self.calls = self.calls.saturating_add(1);
        if fails {
            self.note_failure(path)?;
            return Err(StoreError::Failed);
        }
        self.add(path, bytes)?;
        Ok(())
    }
}
