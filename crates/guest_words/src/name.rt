//! Names of routines.
ghost use Rattle.std.specs.Prelude.{◌≡◌, ◌↔◌, true, false, IfOk, IfErr};
ghost use Rattle.guest_words.specs.Names.{is_dash, is_name, is_visible};
ghost use Rattle.std.specs.List.{list_all};

use crate::limits::NAME_BYTES;
use std::alloc::{AllocError, Global};
use std::marker::Model;
use thiserror::Error;

/// A name in a symbol table: 1 to `NAME_BYTES` visible ASCII bytes, and not the single byte `-`, which stands for no name.
#[derive(Drop)]
pub struct Name {
    bytes: Vec<u8>,
}

impl Model for Name {
    ghost use Rattle.std.specs.Prelude.{◌≡◌, ℕ, List, true};
    ghost use Rattle.guest_words.specs.Names.{is_name};

    ghost Value = { List ℕ };

    ghost view = { λ n. n.bytes.items };

    ghost invariant = { λ n. is_name n.bytes.items ≡ true };
}

/// Why bytes are not made a name.
#[derive(Clone, Copy, Debug, PartialEq, Eq, Error)]
pub enum NameError {
    /// The bytes are no name.
    #[error("not a name")]
    Bad,
    /// Out of memory.
    #[error("out of memory")]
    Memory,
}

impl From<AllocError> for NameError {
    ghost use Rattle.std.specs.Prelude.{◌≡◌};
    ghost use Rattle.guest_words.specs.declared.name.NameError.TheVariants.{Memory};

    ghost from_gives = { λ _ e. e ≡ Memory };

    fn from(_error: AllocError) -> NameError {
        NameError::Memory
    }
}

// Whether the bytes are the one byte that stands for no name.
fn is_dash(bytes: &[u8]) -> bool
    ensures { result ≡ is_dash bytes.now }
{
    bytes.len() == 1 && bytes[0] == b'-'
}

/// Whether each byte is visible, as those of a name are.
pub fn are_visible(bytes: &[u8]) -> bool
    ensures { result ≡ list_all is_visible bytes.now }
{
    bytes.iter().all(|b| 0x21 <= *b && *b <= 0x7e)
}

// Whether the bytes are a name.
#[tactic(auto, using(std::proofs::lemmas::Bool::Decides::nat_tests))]
fn is_name(bytes: &[u8]) -> bool
    ensures { result ≡ is_name bytes.now }
{
    !is_dash(bytes) && !bytes.is_empty() && bytes.len() <= NAME_BYTES && are_visible(bytes)
}

impl Name {
    /// The name of these bytes.
    pub fn new(alloc: Global, bytes: &[u8]) -> Result<Name, NameError>
        ensures ok { IfOk result (λ name. name ≡ bytes.now) }
        ensures is_name { IfOk result (λ _. is_name bytes.now ≡ true) }
        ensures bad { IfErr result (λ e. (e ≡ NameError.Bad) ↔ (is_name bytes.now ≡ false)) }
    {
        if !is_name(bytes) {
            return Err(NameError::Bad);
        }
        Ok(Name {
            bytes: Vec::from_slice(alloc, bytes)?,
        })
    }

    /// The same name again.
    pub fn copy(&self, alloc: Global) -> Result<Name, AllocError>
        ensures { IfOk result (λ name. name ≡ self.now) }
    {
        Ok(Name {
            bytes: Vec::from_slice(alloc, &self.bytes)?,
        })
    }

    /// The bytes of the name.
    pub fn bytes(&self) -> &[u8]
        ensures same { result.now ≡ self.now }
        ensures is_name { is_name self.now ≡ true }
    {
        &self.bytes
    }
}
