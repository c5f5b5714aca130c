//! The cache misses of a run by routine, made while the run goes: each read and write accesses the lines that its words lie
//! in, and an access is of the routine whose activation is the innermost open one. Contracts see the counts as a definition
//! over the past, in which a miss is told by the list of all line accesses alone.
#![tactic(auto)]

mod lines;
mod profile;
mod report;
mod routines;

pub use profile::{CacheProfile, Shaped};
pub use report::{CacheReport, ReportedMisses, write_cache_report};
pub use routines::RoutineMisses;
