//! The tree of a run's calling contexts.
ghost use Rattle.std.specs.Prelude.{◌≡◌, ◌≤◌, ◌<◌, ◌++◌, ◌∷◌, [], true, ℕ, List, All, length, is_some, slice_index_or, Err, IfOk, IsOk, None, OnErr, OnOk};
ghost use Rattle.std.specs.List.{list_any};
ghost use Rattle.guest_words.specs.ByThread.{numbers, value_of};
ghost use Rattle.trace_model.specs.declared.event_kinds.Event.{Event};
ghost use Rattle.trace_model.specs.declared.event_kinds.Event.TheVariants.{Call, End, Ret, Start};
ghost use Rattle.trace_model.specs.Profile.{done, ended};
ghost use Rattle.cost_points.specs.Contents.{contents_of};
ghost use Rattle.context_tree.specs.declared.errors.TreeError.{TreeError};
ghost use Rattle.guest_words.specs.declared.limits.TheConstants.{CONTEXTS};
ghost use Rattle.context_tree.specs.Contexts.{context_begun, contexts, same};
ghost use Rattle.context_tree.specs.Links.{IsLinked};
ghost use Rattle.context_tree.specs.Numbers.{IsBeyond, IsNumberOf, child_of, numbered, with_child};
ghost use Rattle.context_tree.specs.Numbers as by_number;
ghost use Rattle.context_tree.specs.Order.{IsFollowedBy, IsInOrder};
ghost use Rattle.context_tree.specs.Branches.{BranchesStandFor, current_of};
ghost use Rattle.context_tree.specs.Private.Pasts.{IsOfLight, IsOfSome};
ghost use Rattle.context_tree.specs.Trees.{HasTooMany, IsShown};
ghost use Rattle.context_tree.specs.Private.Taking.{IsWhole, Takes};
ghost use Rattle.context_tree.specs.Private.Adding.{with_list};
ghost use Rattle.context_tree.specs.Private.Ways.{ArePoints, IsWay, lists};

use crate::order::{Links, add_link, after_under};
use crate::points::{ContextPoints, add_up, reserve_up};
use crate::sums::add_points;
use crate::{ContextNumbers, TreeError};
use cost_points::{Point, Table};
use guest_words::{Addr, ByThread, Tid};
use std::alloc::{AllocError, Global};
use std::marker::Model;
use trace_model::{Done, Event};

/// The contexts of the events so far with the points of each, and the context that each thread is in.
#[derive(Drop)]
pub(crate) struct Branches {
    alloc: Global,
    numbers: ContextNumbers,
    points: Vec<ContextPoints>,
    // Of the context with no entry, and of each by number.
    links: Vec<Links>,
    // For each thread that lives the number of the context that it is in.
    threads: ByThread<u32>,
}

impl Model for Branches {
    ghost use Rattle.context_tree.specs.Branches.{KeptBranches};
    ghost use Rattle.context_tree.specs.Private.Ways.{lists};

    ghost Value = { KeptBranches };

    ghost view = { λ t. record { places = t.numbers; points = lists t.points.items; links = t.links.items; threads = t.threads.list } };
}

// The number of the context that begins with this entry right under the context `above`. Where it is not there it comes last,
// with no point. A refusal changes nothing.
fn begin(
    alloc: Global,
    numbers: &mut ContextNumbers,
    points: &mut Vec<ContextPoints>,
    links: &mut Vec<Links>,
    above: u32,
    entry: Addr,
) -> Result<u32, TreeError>
    requires within { above ≤ length numbers.old }
    requires long { length points.old.items ≡ length numbers.old }
    requires linked { IsLinked numbers.old links.old.items }
    ensures stands { (contexts : List (List ℕ)) → by_number.NumbersStandFor numbers.old contexts
        → OnOk result (by_number.NumbersStandFor numbers.new (with_child contexts above entry)) }
    ensures number { (contexts : List (List ℕ)) → by_number.NumbersStandFor numbers.old contexts
        → IfOk result (λ n. IsNumberOf (with_child contexts above entry) n (child_of contexts above entry)) }
    ensures points { (contexts : List (List ℕ)) → by_number.NumbersStandFor numbers.old contexts
        → OnOk result (lists points.new.items ≡ with_list (list_any (same (child_of contexts above entry)) contexts) (lists points.old.items)) }
    ensures too_many { (contexts : List (List ℕ)) → by_number.NumbersStandFor numbers.old contexts
        → result ≡ Err TreeError.TooMany → IsBeyond contexts (child_of contexts above entry) }
    ensures always_too_many { (contexts : List (List ℕ)) → by_number.NumbersStandFor numbers.old contexts
        → IsBeyond contexts (child_of contexts above entry) → result ≡ Err TreeError.TooMany }
    ensures refused_numbers { OnErr result (numbers.new ≡ numbers.old) }
    ensures linked { OnOk result (IsLinked numbers.new links.new.items) }
    ensures few { OnOk result (length numbers.new ≤ CONTEXTS) }
    ensures refused_points { OnErr result (lists points.new.items ≡ lists points.old.items) }
    ensures refused_links { OnErr result (links.new.items ≡ links.old.items) }
{
    if numbers.is_beyond(above, entry) {
        return Err(TreeError::TooMany);
    }
    points.reserve(1)?;
    links.reserve(1)?;
    let number = numbers.number_of(above, entry)?;
    if points.len() < numbers.len() {
        points.push(ContextPoints::new(alloc)).unwrap();
        add_link(links, above);
    }
    Ok(number)
}

impl Branches {
    /// No event so far.
    pub(crate) fn new(alloc: Global) -> Result<Branches, AllocError>
        ensures { IfOk result (λ branches. BranchesStandFor branches []) }
    {
        let mut links = Vec::new(alloc);
        links.push(Links::new(0))?;
        Ok(Branches {
            alloc,
            numbers: ContextNumbers::new(alloc),
            points: Vec::new(alloc),
            links,
            threads: ByThread::new(alloc),
        })
    }

    /// Takes one more event, and the activations that it ends, the innermost first. A refusal changes nothing. An event that
    /// begins no context and ends no activation is not refused.
    pub(crate) fn apply(&mut self, e: Event, ends: &[Done]) -> Result<(), TreeError>
        requires whole { IsWhole self.old }
        requires takes { Takes self.old e ends.now }
        ensures stands { (past : List Event) → BranchesStandFor self.old past → ends.now ≡ ended e past
            → OnOk result (BranchesStandFor self.new (e ∷ past)) }
        ensures too_many { (past : List Event) → BranchesStandFor self.old past
            → result ≡ Err TreeError.TooMany → HasTooMany e past }
        ensures always_too_many { (past : List Event) → BranchesStandFor self.old past → HasTooMany e past
            → result ≡ Err TreeError.TooMany }
        ensures refused { OnErr result (self.new ≡ self.old) }
        ensures no_allocation { (past : List Event) → context_begun e past ≡ None → ends.now ≡ []
            → IsOk result }
    {
        match e {
            Event::Start { tid, entry } => self.start(tid, entry),
            Event::Call { tid, entry, .. } => self.call(tid, entry),
            Event::Ret { tid, .. } => Ok(self.return_from(tid, ends)?),
            Event::End { tid } => Ok(self.end(tid, ends)?),
            _ => Ok(()),
        }
    }

    /// How many contexts there are.
    pub(crate) fn contexts(&self) -> usize
        ensures value { result ≡ length self.now.places }
        ensures few { result ≤ CONTEXTS }
        ensures stands { (past : List Event) → BranchesStandFor self.now past
            → result ≡ length (contexts past) }
        ensures ordered { (past : List Event) → BranchesStandFor self.now past
            → (ordered : List (List ℕ)) × IsInOrder (contexts past) ordered }
    {
        self.numbers.len()
    }

    /// The number of the context that comes next in the order of the text after that of the number `n`, and of the first one
    /// where `n` is 0. To go through all of them takes a time that grows with how many they are.
    pub(crate) fn next_in_order(&self, n: u32) -> Option<u32>
        requires linked { IsLinked self.now.places self.now.links }
        requires within { n ≤ length self.now.places }
        ensures { (past : List Event) → BranchesStandFor self.now past
            → IsFollowedBy (contexts past) (numbered (contexts past) n) result }
    {
        match self.links[n as usize].first_child {
            Some(child) => Some(child),
            None => after_under(&self.links, &self.numbers, n),
        }
    }

    /// The depth, the last entry and the points of the context at place `i` in the order of the text. It takes `i` steps: to go
    /// through all of them, take `next_in_order` and `at`.
    pub(crate) fn context(&self, i: usize) -> Result<(u32, Addr, Vec<Point>), AllocError>
        requires stands { ∥ IsOfSome self.now ∥₁ }
        requires within { i < length self.now.places }
        ensures { (past : List Event) (ordered : List (List ℕ)) → BranchesStandFor self.now past
            → IsInOrder (contexts past) ordered
            → IfOk result (λ c. IsShown past (slice_index_or ordered i []) c.0 c.1 c.2.items) }
    {
        self.at(self.number_at(i))
    }

    // The number of a context, the contexts in the order of the text.
    fn number_at(&self, i: usize) -> u32
        requires stands { ∥ IsOfSome self.now ∥₁ }
        requires within { i < length self.now.places }
        ensures some { 1 ≤ result }
        ensures within { result ≤ length self.now.places }
        ensures listed { (past : List Event) (ordered : List (List ℕ)) → BranchesStandFor self.now past
            → IsInOrder (contexts past) ordered
            → numbered (contexts past) result ≡ slice_index_or ordered i [] }
    {
        let mut n = self.next_in_order(0).unwrap();
        for _ in 0..i {
            // There is a next one: `i` is below their number.
            n = self.next_in_order(n).unwrap_or(n);
        }
        n
    }

    /// The depth of the context of this number (0 where it has one entry), its last entry and its points.
    pub(crate) fn at(&self, n: u32) -> Result<(u32, Addr, Vec<Point>), AllocError>
        requires linked { IsLinked self.now.places self.now.links }
        requires long { length self.now.points ≡ length self.now.places }
        requires some { 1 ≤ n }
        requires within { n ≤ length self.now.places }
        ensures { (past : List Event) → BranchesStandFor self.now past
            → IfOk result (λ c. IsShown past (numbered (contexts past) n) c.0 c.1 c.2.items) }
    {
        let (_, entry) = self.numbers.place(n);
        let depth = self.links[n as usize].depth - 1;
        let points = self.points[n as usize - 1].list(self.alloc)?;
        Ok((depth, entry, points))
    }

    // Adds the points of all contexts to a table that has none.
    fn add_totals(&self, table: &mut Table) -> Result<(), AllocError>
        requires light { ∥ IsOfLight self.now ∥₁ }
        requires empty { table.old ≡ contents_of [] }
        ensures { (past : List Event) → BranchesStandFor self.now past
            → OnOk result (table.new ≡ contents_of (done past)) }
    {
        for i in 0..self.numbers.len() {
            let (_, entry) = self.numbers.place(i as u32 + 1);
            let points = self.points[i].list(self.alloc)?;
            add_points(table, entry, &points)?;
        }
        table.index_routines()?;
        Ok(())
    }

    /// The points of all contexts together, by routine: those of all activations that ended.
    pub(crate) fn totals(&self, alloc: Global) -> Result<Table, AllocError>
        requires { ∥ IsOfLight self.now ∥₁ }
        ensures { (past : List Event) → BranchesStandFor self.now past
            → IfOk result (λ table. table ≡ contents_of (done past)) }
    {
        let mut table = Table::new(alloc)?;
        self.add_totals(&mut table)?;
        Ok(table)
    }

    /// Whether the thread is in a context.
    pub(crate) fn lives(&self, tid: Tid) -> bool
        ensures { result ≡ is_some (value_of self.now.threads tid) }
    {
        self.threads.get(tid).is_some()
    }

    // The number of the context that the thread is in.
    fn current(&self, tid: Tid) -> u32
        ensures { result ≡ current_of self.now tid }
    {
        match self.threads.get(tid) {
            Some(number) => *number,
            None => 0,
        }
    }

    // The first activation of a thread.
    fn start(&mut self, tid: Tid, entry: Addr) -> Result<(), TreeError>
        requires above { All (λ n. n < tid) (numbers self.old.threads) }
        requires long { length self.old.points ≡ length self.old.places }
        requires linked { IsLinked self.old.places self.old.links }
        ensures stands { (past : List Event) → BranchesStandFor self.old past
            → OnOk result (BranchesStandFor self.new (Start tid entry ∷ past)) }
        ensures too_many { (past : List Event) → BranchesStandFor self.old past
            → result ≡ Err TreeError.TooMany → HasTooMany (Start tid entry) past }
        ensures always_too_many { (past : List Event) → BranchesStandFor self.old past
            → HasTooMany (Start tid entry) past → result ≡ Err TreeError.TooMany }
        ensures refused { OnErr result (self.new ≡ self.old) }
    {
        if self.numbers.is_beyond(0, entry) {
            return Err(TreeError::TooMany);
        }
        self.threads.reserve(1)?;
        let number = begin(
            self.alloc,
            &mut self.numbers,
            &mut self.points,
            &mut self.links,
            0,
            entry,
        )?;
        self.threads.insert(tid, number).unwrap();
        Ok(())
    }

    // A call of a thread that lives.
    fn call(&mut self, tid: Tid, entry: Addr) -> Result<(), TreeError>
        requires lives { is_some (value_of self.old.threads tid) ≡ true }
        requires within { current_of self.old tid ≤ length self.old.places }
        requires long { length self.old.points ≡ length self.old.places }
        requires linked { IsLinked self.old.places self.old.links }
        ensures stands { (past : List Event) (back : ℕ) → BranchesStandFor self.old past
            → OnOk result (BranchesStandFor self.new (Call tid entry back ∷ past)) }
        ensures too_many { (past : List Event) (back : ℕ) → BranchesStandFor self.old past
            → result ≡ Err TreeError.TooMany → HasTooMany (Call tid entry back) past }
        ensures always_too_many { (past : List Event) (back : ℕ) → BranchesStandFor self.old past
            → HasTooMany (Call tid entry back) past → result ≡ Err TreeError.TooMany }
        ensures refused { OnErr result (self.new ≡ self.old) }
    {
        let above = self.current(tid);
        let number = begin(
            self.alloc,
            &mut self.numbers,
            &mut self.points,
            &mut self.links,
            above,
            entry,
        )?;
        let current = self.threads.get_mut(tid).unwrap();
        *current = number;
        Ok(())
    }

    // A return of a thread that lives.
    fn return_from(&mut self, tid: Tid, ends: &[Done]) -> Result<(), AllocError>
        requires lives { is_some (value_of self.old.threads tid) ≡ true }
        requires way { IsWay self.old.places (current_of self.old tid) (length ends.now) }
        requires long { length self.old.points ≡ length self.old.places }
        requires each { All ArePoints self.old.points }
        ensures stands { (past : List Event) (target : ℕ) → BranchesStandFor self.old past
            → ends.now ≡ ended (Ret tid target) past
            → OnOk result (BranchesStandFor self.new (Ret tid target ∷ past)) }
        ensures refused { OnErr result (self.new ≡ self.old) }
        ensures no_allocation { ends.now ≡ [] → IsOk result }
    {
        let from = self.current(tid);
        reserve_up(&mut self.points, &self.numbers, from, ends.len())?;
        let number = add_up(&mut self.points, &self.numbers, from, ends);
        let current = self.threads.get_mut(tid).unwrap();
        *current = number;
        Ok(())
    }

    // The end of a thread.
    fn end(&mut self, tid: Tid, ends: &[Done]) -> Result<(), AllocError>
        requires way { IsWay self.old.places (current_of self.old tid) (length ends.now) }
        requires long { length self.old.points ≡ length self.old.places }
        requires each { All ArePoints self.old.points }
        ensures stands { (past : List Event) → BranchesStandFor self.old past
            → ends.now ≡ ended (End tid) past
            → OnOk result (BranchesStandFor self.new (End tid ∷ past)) }
        ensures refused { OnErr result (self.new ≡ self.old) }
        ensures no_allocation { ends.now ≡ [] → IsOk result }
    {
        let from = self.current(tid);
        reserve_up(&mut self.points, &self.numbers, from, ends.len())?;
        add_up(&mut self.points, &self.numbers, from, ends);
        self.threads.remove(tid);
        Ok(())
    }
}
