//! The calling contexts of a run that goes on.
ghost use Rattle.std.specs.Prelude.{◌≡◌, ◌↔◌, ◌<◌, ◌≤◌, ◌∷◌, [], ℕ, List, length, slice_index_or, true, Err, IfOk, IfSome, IsOk, IsTrue, None, OnErr, OnOk};
ghost use Rattle.trace_model.specs.declared.event_kinds.Event.{Event};
ghost use Rattle.trace_model.specs.Observing.{with_steps};
ghost use Rattle.trace_model.specs.Profile.{done, ended};
ghost use Rattle.trace_model.specs.WellFormed.{IsWellFormed};
ghost use Rattle.trace_order.specs.Progress.{is_of_one};
ghost use Rattle.cost_points.specs.Contents.{contents_of};
ghost use Rattle.context_tree.specs.declared.errors.TreeError.{TreeError};
ghost use Rattle.guest_words.specs.declared.limits.TheConstants.{CONTEXTS};
ghost use Rattle.context_tree.specs.Contexts.{context_begun, contexts};
ghost use Rattle.context_tree.specs.Numbers.{numbered};
ghost use Rattle.context_tree.specs.Order.{IsFollowedBy, IsInOrder};
ghost use Rattle.context_tree.specs.Trees.{AreEnded, HasTooMany, IsShown, MayCome, MayStepOn, TreeStandsFor, lives};

use crate::TreeError;
use crate::branches::Branches;
use cost_points::{Point, Table};
use guest_words::{Addr, Tid};
use std::alloc::{AllocError, Global};
use std::marker::Model;
use trace_model::{Done, Event};
use trace_order::{Progress, thread_of};

/// The calling contexts of the events so far, and the points of each. An event takes a time that grows only with how many
/// activations it ends, and with how many sizes the points of their contexts have.
#[derive(Drop)]
pub struct Tree {
    branches: Branches,
    progress: Progress,
}

impl Model for Tree {
    ghost use Rattle.context_tree.specs.Trees.{IsOfSome, KeptTree};

    ghost Value = { KeptTree };

    ghost view = { λ t. record { branches = t.branches; progress = t.progress } };

    ghost invariant = { λ t. ∥ IsOfSome (record { branches = t.branches; progress = t.progress }) ∥₁ };
}

impl Tree {
    /// No event so far.
    pub fn new(alloc: Global) -> Result<Tree, AllocError>
        ensures { IfOk result (λ tree. TreeStandsFor tree []) }
    {
        Ok(Tree {
            branches: Branches::new(alloc)?,
            progress: Progress::new(),
        })
    }

    // Whether the event is of a thread that lives.
    fn lives_of(&self, e: &Event) -> bool
        ensures { result ≡ is_of_one (lives self.now) e.now }
    {
        match thread_of(e) {
            Some(tid) => self.branches.lives(tid),
            None => false,
        }
    }

    /// Whether the event may come next: with it the past is still one that a run can have.
    pub fn may_follow(&self, e: &Event) -> bool
        ensures shown { IsTrue result ↔ MayCome self.now e.now }
        ensures stands { (past : List Event) → TreeStandsFor self.now past
            → IsTrue result ↔ IsWellFormed (e.now ∷ past) }
    {
        self.progress.allows(e, self.lives_of(e))
    }

    /// Takes one more event, and the activations that it ends, the innermost first. A refusal changes nothing. An event that
    /// begins no context and ends no activation is not refused.
    pub fn apply(&mut self, e: Event, ends: &[Done]) -> Result<(), TreeError>
        requires next { MayCome self.old e }
        requires ends { AreEnded self.old e ends.now }
        ensures stands { (past : List Event) → TreeStandsFor self.old past → ends.now ≡ ended e past
            → OnOk result (TreeStandsFor self.new (e ∷ past)) }
        ensures too_many { (past : List Event) → TreeStandsFor self.old past
            → result ≡ Err TreeError.TooMany → HasTooMany e past }
        ensures always_too_many { (past : List Event) → TreeStandsFor self.old past → HasTooMany e past
            → result ≡ Err TreeError.TooMany }
        ensures refused { OnErr result (self.new ≡ self.old) }
        ensures no_allocation { (past : List Event) → context_begun e past ≡ None → ends.now ≡ []
            → IsOk result }
    {
        let event = &e;
        self.branches.apply(*event, ends)?;
        self.progress.pass(event);
        Ok(())
    }

    /// Takes steps of a thread in a row. They begin no context and end no activation, so none is refused.
    #[inline(always)]
    pub fn take_steps(&mut self, tid: Tid, count: u64)
        requires some { 1 ≤ count }
        requires next { MayStepOn self.old tid count }
        ensures { (past : List Event) → TreeStandsFor self.old past
            → TreeStandsFor self.new (with_steps tid count past) }
    {
        self.progress.pass_steps(tid, count);
    }

    /// How many contexts there are.
    pub fn contexts(&self) -> usize
        ensures value { result ≡ length self.now.branches.places }
        ensures few { result ≤ CONTEXTS }
        ensures stands { (past : List Event) → TreeStandsFor self.now past
            → result ≡ length (contexts past) }
        ensures ordered { (past : List Event) → TreeStandsFor self.now past
            → (ordered : List (List ℕ)) × IsInOrder (contexts past) ordered }
    {
        self.branches.contexts()
    }

    /// The number of the context that comes next in the order of the text after that of the number `n`, and of the first one
    /// where `n` is 0. To go through all of them takes a time that grows with how many they are: one goes up past each context
    /// once.
    pub fn next_in_order(&self, n: u32) -> Option<u32>
        requires { n ≤ length self.now.branches.places }
        ensures follows { (past : List Event) → TreeStandsFor self.now past
            → IsFollowedBy (contexts past) (numbered (contexts past) n) result }
        ensures within { IfSome result
            (λ m. (1 ≤ m) × (m ≤ length self.now.branches.places)) }
    {
        self.branches.next_in_order(n)
    }

    /// The depth, the last entry and the points of the context at place `i` in the order of the text. It takes `i` steps: to go
    /// through all of them, take `next_in_order` and `at`.
    pub fn context(&self, i: usize) -> Result<(u32, Addr, Vec<Point>), AllocError>
        requires { i < length self.now.branches.places }
        ensures { (past : List Event) (ordered : List (List ℕ)) → TreeStandsFor self.now past
            → IsInOrder (contexts past) ordered
            → IfOk result (λ c. IsShown past (slice_index_or ordered i []) c.0 c.1 c.2.items) }
    {
        self.branches.context(i)
    }

    /// The depth of the context of this number (0 where it has one entry), its last entry and its points.
    pub fn at(&self, n: u32) -> Result<(u32, Addr, Vec<Point>), AllocError>
        requires some { 1 ≤ n }
        requires within { n ≤ length self.now.branches.places }
        ensures { (past : List Event) → TreeStandsFor self.now past
            → IfOk result (λ c. IsShown past (numbered (contexts past) n) c.0 c.1 c.2.items) }
    {
        self.branches.at(n)
    }

    /// The points of all contexts together, by routine: those of all activations that ended.
    pub fn totals(&self, alloc: Global) -> Result<Table, AllocError>
        ensures { (past : List Event) → TreeStandsFor self.now past
            → IfOk result (λ table. table ≡ contents_of (done past)) }
    {
        self.branches.totals(alloc)
    }
}
