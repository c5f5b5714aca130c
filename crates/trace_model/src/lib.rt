//! The trace of a run, and what its profile is by definition: which activations ended, and the size and the cost of
//! each, by a slow program that looks back. The size is the read memory size of Coppa, Demetrescu and Finocchi
//! ("Input-Sensitive Profiling", PLDI 2012) with the induced first reads of Coppa, Demetrescu, Finocchi and Marotta
//! (CGO 2014), over aligned words. Contracts see a trace as a past, the list of its events with the newest first.
#![tactic(auto)]

mod activations;
mod event_kinds;
mod event_list;
mod laws;
mod observer;
mod sizes;
mod slow_profile;

pub use event_kinds::Event;
pub use event_list::Events;
pub use laws::{
    an_exit_is_one_activation, cost_counts_steps, cut_is_the_longest_prefix, done_is_by_endings,
    each_begun_is_done_or_pending, known_is_by_the_latest_touch, open_activations_are_positions,
    parts_are_in_time, pending_is_of_all_threads, short_parts_are_light, size_counts_unknown_reads,
    sizes_are_parts, worked_traces_are_as_written,
};
pub use observer::{Answer, Observed, Observer, feed};
pub use slow_profile::{Done, slow_done};
