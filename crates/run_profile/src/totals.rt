//! The totals of a run.
use context_tree::Tree;
use cost_points::Table;

/// What is counted of a run beside what its keeper keeps, as `AreCountsOf` says.
#[derive(Clone, Copy)]
pub struct Counts {
    /// The steps of all threads.
    pub steps: u64,
    /// The activations that are still open.
    pub pending: u64,
    /// How often the stamps were renumbered.
    pub renumbered: u64,
}

/// The totals of a run, as `AreTotalsOf` says.
#[derive(Drop)]
pub struct Totals {
    /// The points of the activations that ended.
    pub points: Table,
    pub counts: Counts,
}

/// The totals of a run, and its contexts with their points, as `AreContextTotalsOf` says.
#[derive(Drop)]
pub struct ContextTotals {
    pub totals: Totals,
    pub tree: Tree,
}
