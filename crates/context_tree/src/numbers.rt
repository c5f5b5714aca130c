//! Contexts by number.
ghost use Rattle.std.specs.Prelude.{◌≡◌, ◌<◌, ◌≤◌, ◌-◌, ◌++◌, ◌∷◌, [], ℕ, List, length, slice_index_or, true, Err, IfOk, OnErr, OnOk};
ghost use Rattle.context_tree.specs.declared.errors.TreeError.{TreeError};
ghost use Rattle.context_tree.specs.Numbers.{IsBeyond, IsNumberOf, NumbersStandFor, child_of, numbered, with_child, with_place};

use crate::TreeError;
use guest_words::Addr;
use guest_words::limits::CONTEXTS;
use indexmap::IndexSet;
use std::alloc::Global;
use std::marker::Model;

/// The contexts of a run, by number, in order of their first begin. The one with no entry has the number 0. Contracts see for
/// each other one the number of the context right above it and its last entry. Looking one up, and adding one, takes
/// constant time on average.
#[derive(Drop)]
pub struct ContextNumbers {
    places: IndexSet<(u32, Addr)>,
}

impl Model for ContextNumbers {
    ghost use Rattle.std.specs.Prelude.{ℕ, ◌≤◌, List, length};
    ghost use Rattle.guest_words.specs.declared.limits.TheConstants.{CONTEXTS};

    ghost Value = { List (ℕ × ℕ) };

    ghost view = { λ n. n.places.keys };

    ghost invariant = { λ n. length n.places.keys ≤ CONTEXTS };
}

impl ContextNumbers {
    /// No context but the one with no entry.
    pub fn new(alloc: Global) -> ContextNumbers
        ensures { NumbersStandFor result [] }
    {
        ContextNumbers {
            places: IndexSet::new(alloc),
        }
    }

    /// How many contexts there are, without the one with no entry.
    pub fn len(&self) -> usize
        ensures value { result ≡ length self.now }
        ensures bound { result ≤ CONTEXTS }
    {
        self.places.len()
    }

    /// The number of the context right above that of this number, and the last entry of the latter.
    pub fn place(&self, n: u32) -> (u32, Addr)
        requires some { 1 ≤ n }
        requires within { n ≤ length self.now }
        ensures here { result ≡ slice_index_or self.now (n - 1) (0, 0) }
        ensures above { (contexts : List (List ℕ)) → NumbersStandFor self.now contexts → result.0 < n }
        ensures context { (contexts : List (List ℕ)) → NumbersStandFor self.now contexts
            → numbered contexts n ≡ child_of contexts result.0 result.1 }
    {
        *self.places.get_index(n as usize - 1).unwrap()
    }

    /// Whether the context that has this entry right under the context `above` is not there, and can have no number.
    pub fn is_beyond(&self, above: u32, entry: Addr) -> bool
        requires { above ≤ length self.now }
        ensures yes { (contexts : List (List ℕ)) → NumbersStandFor self.now contexts
            → result ≡ true → IsBeyond contexts (child_of contexts above entry) }
        ensures no { (contexts : List (List ℕ)) → NumbersStandFor self.now contexts
            → IsBeyond contexts (child_of contexts above entry) → result ≡ true }
    {
        self.places.len() >= CONTEXTS && !self.places.contains(&(above, entry))
    }

    /// The number of the context that has this entry right under the context `above`. Where it is not there it comes last. A
    /// refusal changes nothing.
    pub fn number_of(&mut self, above: u32, entry: Addr) -> Result<u32, TreeError>
        requires { above ≤ length self.old }
        ensures places { OnOk result (self.new ≡ with_place self.old (above, entry)) }
        ensures stands { (contexts : List (List ℕ)) → NumbersStandFor self.old contexts
            → OnOk result (NumbersStandFor self.new (with_child contexts above entry)) }
        ensures number { (contexts : List (List ℕ)) → NumbersStandFor self.old contexts
            → IfOk result (λ n. IsNumberOf (with_child contexts above entry) n (child_of contexts above entry)) }
        ensures too_many { (contexts : List (List ℕ)) → NumbersStandFor self.old contexts
            → result ≡ Err TreeError.TooMany → IsBeyond contexts (child_of contexts above entry) }
        ensures always_too_many { (contexts : List (List ℕ)) → NumbersStandFor self.old contexts
            → IsBeyond contexts (child_of contexts above entry) → result ≡ Err TreeError.TooMany }
        ensures refused { OnErr result (self.new ≡ self.old) }
    {
        let place = (above, entry);
        if self.places.len() >= CONTEXTS && !self.places.contains(&place) {
            return Err(TreeError::TooMany);
        }
        match self.places.insert_full(place) {
            Ok((index, _)) => Ok(index as u32 + 1),
            Err(_) => Err(TreeError::Memory),
        }
    }
}
