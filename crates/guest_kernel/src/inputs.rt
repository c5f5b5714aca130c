//! The files that the guest can open.
ghost use Rattle.std.specs.Prelude.{◌≡◌, [], slice_index_or, OnOk, OnErr, IfOk};
ghost use Rattle.std.specs.List.{list_any, position};
ghost use Rattle.guest_kernel.specs.Inputs.{is_named, with_input};

use std::alloc::{AllocError, Global};
use std::marker::Model;

/// A file that the guest can open.
#[derive(Drop)]
pub(crate) struct Input {
    name: Vec<u8>,
    bytes: Vec<u8>,
}

impl Model for Input {
    ghost use Rattle.guest_kernel.specs.Inputs.{Input};

    ghost Value = { Input };

    ghost view = { λ i. record { name = i.name.items; bytes = i.bytes.items } };
}

/// The files that the guest can open, each by its name, in the order in which they were added.
#[derive(Drop)]
pub struct Inputs {
    alloc: Global,
    items: Vec<Input>,
}

impl Model for Inputs {
    ghost use Rattle.std.specs.Prelude.{List};
    ghost use Rattle.guest_kernel.specs.Inputs.{Input};

    ghost Value = { List Input };

    ghost view = { λ i. i.items.items };
}

impl Inputs {
    /// No file.
    pub fn new(alloc: Global) -> Result<Inputs, AllocError>
        ensures { IfOk result (λ inputs. inputs ≡ []) }
    {
        Ok(Inputs {
            alloc,
            items: Vec::new(alloc),
        })
    }

    // Whether there is a file of this name.
    #[tactic(auto, using(crate::proofs::Found::found_where_any))]
    fn has(&self, name: &[u8]) -> bool
        ensures { result ≡ list_any (is_named name.now) self.now }
    {
        self.index_of(name).is_some()
    }

    /// One more file, behind the others. A name that is there keeps its bytes.
    pub fn add(&mut self, name: &str, bytes: Vec<u8>) -> Result<(), AllocError>
        ensures ok { OnOk result (self.new ≡ with_input self.old name.now bytes.items) }
        ensures err { OnErr result (self.new ≡ self.old) }
    {
        if !self.has(name.as_bytes()) {
            let name = Vec::from_slice(self.alloc, name.as_bytes())?;
            self.items.push(Input { name, bytes })?;
        }
        Ok(())
    }

    /// The index of the file of this name.
    pub(crate) fn index_of(&self, name: &[u8]) -> Option<usize>
        ensures { result ≡ position (is_named name.now) self.now }
    {
        self.items.iter().position(|i| i.name.as_slice() == name)
    }

    /// The bytes of the file at an index; none where there is no file.
    pub(crate) fn bytes_at(&self, index: usize) -> &[u8]
        ensures { result.now ≡ (slice_index_or self.now index
            (record { name = []; bytes = [] })).bytes }
    {
        match self.items.get(index) {
            Some(input) => &input.bytes,
            None => &[],
        }
    }
}
