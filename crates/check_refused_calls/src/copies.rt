//! Copies.

use crate::attempt::{Tried, answer, begin, twice};
use crate::table_and_trace::TableAndTrace;
use crate::texts::{write_event, write_passes};
use cal_policy::PassEntry;
use cal_world::Event;
use std::io::Write;
use std::slice;

/// The table.
pub fn table(rt: &HostRuntime, given: &TableAndTrace) -> Tried<()> {
    begin(rt)?;
    let config = answer(rt, given.config.copy(rt.alloc()))?;
    writeln!(&mut rt.stdout(), "{config:?}")?;
    Ok(())
}

/// Each pass of a run.
pub fn entries(rt: &HostRuntime, given: &TableAndTrace) -> Tried<()> {
    let outcome = given.run(rt.alloc())?;
    for entry in outcome.history.as_slice() {
        twice(|| copy_entry(rt, entry))?;
    }
    Ok(())
}

fn copy_entry(rt: &HostRuntime, entry: &PassEntry) -> Tried<()> {
    begin(rt)?;
    let copy = answer(rt, entry.copy(rt.alloc()))?;
    write_passes(rt, slice::from_ref(&copy))
}

/// Each event of a run.
pub fn events(rt: &HostRuntime, given: &TableAndTrace) -> Tried<()> {
    let outcome = given.run(rt.alloc())?;
    for event in outcome.events.as_slice() {
        twice(|| copy_event(rt, event))?;
    }
    Ok(())
}

fn copy_event(rt: &HostRuntime, event: &Event) -> Tried<()> {
    begin(rt)?;
    let copy = answer(rt, event.copy(rt.alloc()))?;
    write_event(rt, &copy)
}
