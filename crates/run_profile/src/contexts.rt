//! The calling contexts of the activations, with the points of those that ended.
ghost use Rattle.std.specs.Prelude.{◌≡◌, ◌≤◌, [], ◌∷◌, ℕ, List, IfOk, IsOk, MatchOption, OnErr, OnOk};
ghost use Rattle.trace_model.specs.declared.event_kinds.Event.{Event};
ghost use Rattle.trace_model.specs.Observing.{with_steps};
ghost use Rattle.trace_model.specs.Profile.{ended};
ghost use Rattle.run_profile.specs.Contexts.{AreContextTotalsOf, HoldsContexts, IsPastNumbers};
ghost use Rattle.run_profile.specs.Profile.{AreCountsOf};

use crate::{ContextTotals, Counts, Keeper, Totals};
use context_tree::{Tree, TreeError};
use guest_words::Tid;
use std::alloc::{AllocError, Global};
use std::marker::Model;
use trace_model::{Done, Event};

/// The calling contexts, with the points of the activations that ended in each. They are dropped once there are more than can
/// be numbered.
#[derive(Drop)]
pub struct Contexts {
    tree: Option<Tree>,
}

impl Model for Contexts {
    ghost use Rattle.std.specs.Prelude.{Option};
    ghost use Rattle.context_tree.specs.Trees.{KeptTree};

    ghost Value = { Option KeptTree };

    ghost view = { λ c. c.tree };
}

impl Contexts {
    /// No event so far.
    pub fn new(alloc: Global) -> Result<Contexts, AllocError>
        ensures { IfOk result (λ contexts. HoldsContexts contexts [] []) }
    {
        Ok(Contexts {
            tree: Some(Tree::new(alloc)?),
        })
    }

    /// The totals of a run with these counts, and its contexts; `None` if they are more than can be numbered, which does not
    /// allocate.
    pub fn into_totals(
        self,
        alloc: Global,
        counts: Counts,
    ) -> Result<Option<ContextTotals>, AllocError>
        ensures totals { IfOk result (λ found. (most : ℕ) (past : List Event) → HoldsContexts self past []
            → AreCountsOf most counts past
            → MatchOption found (IsPastNumbers past) (λ totals. AreContextTotalsOf most totals past)) }
        ensures no_allocation { (past : List Event) → HoldsContexts self past [] → IsPastNumbers past
            → IsOk result }
    {
        let Some(tree) = self.tree else {
            return Ok(None);
        };
        let points = tree.totals(alloc)?;
        let totals = Totals { points, counts };
        Ok(Some(ContextTotals { totals, tree }))
    }
}

impl Keeper for Contexts {
    ghost use Rattle.run_profile.specs.Contexts.{HoldsContexts, IsPastNumbers};

    ghost holds = { HoldsContexts };

    ghost is_too_much = { IsPastNumbers };

    // The tree takes all of an event or nothing.
    #[inline(always)]
    fn pass(&mut self, e: &Event, ends: &[Done]) -> bool {
        self.take(*e, ends).is_ok()
    }

    // A tree that has no number for a context is dropped, which does not allocate.
    #[inline(never)]
    fn take(&mut self, e: Event, ends: &[Done]) -> Result<(), AllocError> {
        let Some(tree) = &mut self.tree else {
            return Ok(());
        };
        match tree.apply(e, ends) {
            Ok(()) => Ok(()),
            Err(TreeError::TooMany) => {
                self.tree = None;
                Ok(())
            }
            Err(TreeError::Memory) => Err(AllocError),
        }
    }

    #[tactic(auto, using(crate::proofs::ManyContexts::still_many))]
    #[inline(always)]
    fn take_steps(&mut self, tid: Tid, count: u64) {
        if let Some(tree) = &mut self.tree {
            tree.take_steps(tid, count);
        }
    }
}
