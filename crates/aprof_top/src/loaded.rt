//! The files of a command, each put to its use.
ghost use Rattle.std.specs.Prelude.{◌≡◌, IfOk, OnOk};
ghost use Rattle.aprof_top.specs.Private.Loading.{load_in, loaded_in, no_files, with_file};

use crate::source::{Load, Source};
use guest_kernel::Inputs;
use std::alloc::{AllocError, Global};

/// The bytes of the files of a command. What it does not load is empty.
#[derive(Drop)]
pub(crate) struct Loaded {
    pub(crate) image: Vec<u8>,
    pub(crate) inputs: Inputs,
    pub(crate) stdin: Vec<u8>,
    pub(crate) schedule: Vec<u8>,
    pub(crate) trace: Vec<u8>,
}

impl Loaded {
    /// No files yet.
    pub(crate) fn new(alloc: Global) -> Result<Loaded, AllocError>
        ensures { IfOk result (λ loaded. loaded_in loaded ≡ no_files) }
    {
        Ok(Loaded {
            image: Vec::new(alloc),
            inputs: Inputs::new(alloc)?,
            stdin: Vec::new(alloc),
            schedule: Vec::new(alloc),
            trace: Vec::new(alloc),
        })
    }

    /// One more file, put to the use that it was loaded for.
    pub(crate) fn put(&mut self, load: Load<'_>, bytes: Vec<u8>) -> Result<(), AllocError>
        ensures { OnOk result (loaded_in self.new
            ≡ with_file (load_in load.entry) bytes.items (loaded_in self.old)) }
    {
        match load.source {
            Source::Image => self.image = bytes,
            Source::Input => self.inputs.add(load.path, bytes)?,
            Source::Stdin => self.stdin = bytes,
            Source::Schedule => self.schedule = bytes,
            Source::Trace => self.trace = bytes,
        }
        Ok(())
    }
}
