//! The stamp table: per word the stamp of the latest write and whether the kernel made it, per thread the stamps of its accesses
//! and the frames of its open activations. Each event changes the table by one row. Its laws say that the sizes, the parts by
//! cause and the costs that it records are those of the definitions of `trace_model`, whatever the threads' order. This crate
//! has no code that runs: a profiler keeps the table in parts.
#![tactic(auto)]

mod laws;

pub use laws::{
    a_table_tells_what_may_follow, a_tick_keeps_the_table, each_event_keeps_the_table,
    the_counter_is_that_of_the_trace, the_table_takes_events, worked_tables_are_as_written,
};
