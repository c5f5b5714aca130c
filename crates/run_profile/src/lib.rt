//! The profile of a run, made while the run goes: the stamp table, the steps, and what a keeper makes of the activations that
//! end, which are their points, or the calling contexts with theirs. It observes events and keeps none of them but the newest,
//! so its memory grows with the words that are in use, the open activations and what the keeper keeps, and not with the
//! length of the run.
#![tactic(auto)]

mod contexts;
mod keeper;
mod points;
mod profile;
mod totals;

pub use contexts::Contexts;
pub use keeper::Keeper;
pub use points::Points;
pub use profile::Profile;
pub use totals::{ContextTotals, Counts, Totals};
