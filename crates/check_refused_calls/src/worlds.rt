//! Worlds, on the events of a run.

use crate::attempt::{Tried, answer, begin, twice};
use crate::table_and_trace::TableAndTrace;
use crate::texts::write_passes;
use cal_world::{Event, World, run_events};
use std::io::Write;

/// A world of no events.
pub fn start(rt: &HostRuntime, given: &TableAndTrace) -> Tried<()> {
    begin(rt)?;
    let world = answer(rt, World::start(rt.alloc(), &given.config))?;
    write_world(rt, given, &world)
}

/// A world that takes the events of a run one by one.
pub fn steps(rt: &HostRuntime, given: &TableAndTrace) -> Tried<()> {
    let outcome = given.run(rt.alloc())?;
    let mut world = World::start(rt.alloc(), &given.config)?;
    for event in outcome.events.as_slice() {
        twice(|| step(rt, &mut world, event))?;
        write_world(rt, given, &world)?;
    }
    Ok(())
}

fn step(rt: &HostRuntime, world: &mut World, event: &Event) -> Tried<()> {
    begin(rt)?;
    answer(rt, world.step(event))
}

/// A world that takes them all in one call.
pub fn whole(rt: &HostRuntime, given: &TableAndTrace) -> Tried<()> {
    let outcome = given.run(rt.alloc())?;
    begin(rt)?;
    let made = run_events(rt.alloc(), &given.config, outcome.events.as_slice());
    let world = answer(rt, made)?;
    write_world(rt, given, &world)
}

/// Its passes, and the core of each thread.
fn write_world(rt: &HostRuntime, given: &TableAndTrace, world: &World) -> Tried<()> {
    write_passes(rt, world.history())?;
    for k in 0..given.config.threads() {
        writeln!(&mut rt.stdout(), "{:?}", world.running(k as u8))?;
    }
    Ok(())
}
