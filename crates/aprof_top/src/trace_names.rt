//! The names that a stored trace gives its routines.
ghost use Rattle.std.specs.Prelude.{◌≡◌, ◌<◌, ℕ, List, AllPairs};
ghost use Rattle.aprof_top.specs.Private.Names.{IsNamePlace};

use crate::report::RoutineNames;
use guest_words::{Addr, Name};
use std::alloc::{AllocError, Global};
use std::marker::Model;

/// Names of routines, by rising entry.
#[derive(Drop)]
pub(crate) struct TraceNames {
    names: Vec<(Addr, Name)>,
}

impl Model for TraceNames {
    ghost use Rattle.std.specs.Prelude.{◌<◌, ℕ, List, AllPairs};

    ghost Value = { List (ℕ × List ℕ) };

    ghost view = { λ t. t.names.items };

    ghost invariant = { λ t. AllPairs (λ (x y : ℕ × List ℕ). x.0 < y.0) t.names.items };
}

// Where the entry is, among rising ones.
fn search(names: &[(Addr, Name)], entry: Addr) -> Option<usize>
    requires { AllPairs (λ (x y : ℕ × List ℕ). x.0 < y.0) names.now }
    ensures { IsNamePlace names.now entry result }
{
    names.binary_search_by_key(&entry, |named| named.0).ok()
}

impl TraceNames {
    /// These names, whose entries rise.
    pub(crate) fn new(names: Vec<(Addr, Name)>) -> TraceNames
        requires { AllPairs (λ (x y : ℕ × List ℕ). x.0 < y.0) names.items }
        ensures { result ≡ names.items }
    {
        TraceNames { names }
    }
}

impl RoutineNames for TraceNames {
    ghost names = { λ names. names };

    fn name_at(&self, alloc: Global, entry: Addr) -> Result<Option<Name>, AllocError> {
        let Some(place) = search(&self.names, entry) else {
            return Ok(None);
        };
        let (_, name) = &self.names[place];
        Ok(Some(name.copy(alloc)?))
    }
}
