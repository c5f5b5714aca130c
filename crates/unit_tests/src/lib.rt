//! Tests of the public calls of the crates below the top call, each once: numbers and deadlines, the assembler, traces and their
//! texts, what a profile is made of, and files and sinks. They stand in one crate since the gate proves a crate that has tests
//! twice.
#![tactic(auto)]

#[cfg(test)]
mod assembler;
#[cfg(test)]
mod calls;
#[cfg(test)]
mod contexts;
#[cfg(test)]
mod deadlines;
#[cfg(test)]
mod lanes;
#[cfg(test)]
mod lines;
#[cfg(test)]
mod misses;
#[cfg(test)]
mod orders;
#[cfg(test)]
mod outside;
#[cfg(test)]
mod points;
#[cfg(test)]
mod replays;
#[cfg(test)]
mod slow_program;
#[cfg(test)]
mod texts;
#[cfg(test)]
mod widths;
#[cfg(test)]
mod words;
