//! Tests of the command line, and of the top call over files and sinks in memory. No other crate uses it.
#![tactic(auto)]

#[cfg(test)]
mod calls;
#[cfg(test)]
mod failures;
#[cfg(test)]
mod words;
#[cfg(test)]
mod worked;
#[cfg(test)]
mod worked_code;
