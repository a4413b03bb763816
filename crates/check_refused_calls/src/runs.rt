//! Whole runs.

use crate::attempt::{Tried, answer, begin};
use crate::table_and_trace::TableAndTrace;
use crate::texts::{write_legal, write_outcome};
use cal_run::lockstep;
use cal_threads::{FreeGate, simulate};
use std::sync::Wait;
use std::thread::Threads;

/// A run on one thread.
pub fn on_one_thread(rt: &HostRuntime, given: &TableAndTrace) -> Tried<()> {
    let arrivals = given.arrivals(rt.alloc())?;
    begin(rt)?;
    let outcome = answer(rt, lockstep(rt.alloc(), &given.config, &arrivals))?;
    write_outcome(rt, &outcome)
}

/// A run in threads, each of which may come to another outcome, so what is written is the same of
/// them all: that its history is legal, and how many passes it has.
pub fn in_threads<H: Threads + Wait + Sync>(
    host: &H,
    rt: &HostRuntime,
    given: &TableAndTrace,
) -> Tried<()> {
    let arrivals = given.arrivals(rt.alloc())?;
    begin(rt)?;
    let made = simulate(host, rt.alloc(), &given.config, &arrivals, &FreeGate);
    let outcome = answer(rt, made)?;
    write_legal(rt, &given.config, outcome.history.as_slice())
}
