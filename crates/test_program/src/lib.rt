//! The tests of the programs, in a crate of their own, since a crate with tests is proved twice:
//! whole runs of `caladan_sim` in memory, the ends of its engines, what is said of refused files,
//! and the spans of worked histories.
//!
//! The words of both programs, worked inputs, long ones and runs in threads are examples/, which
//! `tools/examples` runs; refused memory is `tools/refusals`.
#![tactic(auto)]

#[cfg(test)]
mod engine;
#[cfg(test)]
mod refusals;
#[cfg(test)]
mod viewer;
