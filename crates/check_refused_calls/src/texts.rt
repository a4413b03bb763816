//! What is written of answers.

use crate::attempt::{Stop, Tried};
use cal_machine::{Config, Listed};
use cal_policy::{PassEntry, Verdict, audit};
use cal_run::Outcome;
use cal_trace::write_history;
use cal_world::Event;
use std::fmt::Debug;
use std::io::Write;
use std::{io, slice};

/// A line of each.
pub fn write_each<T: Debug>(rt: &HostRuntime, items: &[T]) -> io::Result<()> {
    for item in items {
        writeln!(&mut rt.stdout(), "{item:?}")?;
    }
    Ok(())
}

/// A line of each member of each list.
pub fn write_lists<T: Debug>(rt: &HostRuntime, lists: &[Listed<T>]) -> io::Result<()> {
    for list in lists {
        write_each(rt, list.as_slice())?;
    }
    Ok(())
}

/// A history, as a file.
pub fn write_passes(rt: &HostRuntime, history: &[PassEntry]) -> Tried<()> {
    write_history(history, &mut rt.stdout()).or(Err(Stop::Wrong))
}

/// That a history is legal, and how many passes it has.
pub fn write_legal(rt: &HostRuntime, config: &Config, history: &[PassEntry]) -> Tried<()> {
    let Verdict::Legal = audit(rt.alloc(), config, history)? else {
        return Err(Stop::Wrong);
    };
    writeln!(&mut rt.stdout(), "legal, {} passes", history.len())?;
    Ok(())
}

/// What is written of each event.
pub fn write_events(rt: &HostRuntime, events: &[Event]) -> Tried<()> {
    for event in events {
        write_event(rt, event)?;
    }
    Ok(())
}

/// A line of an event; of a Decide its pass, as a file.
pub fn write_event(rt: &HostRuntime, event: &Event) -> Tried<()> {
    let mut out = rt.stdout();
    match event {
        Event::Take(k) => writeln!(&mut out, "take {k}")?,
        Event::Yield(k) => writeln!(&mut out, "yield {k}")?,
        Event::Publish(k, rec) => writeln!(&mut out, "publish {k} {rec:?}")?,
        Event::Read(k, number) => writeln!(&mut out, "read {k} {number}")?,
        Event::Skip(k, seen) => writeln!(&mut out, "skip {k} {seen:?}")?,
        Event::Decide(entry) => write_passes(rt, slice::from_ref(entry))?,
        Event::Watch(k, number) => writeln!(&mut out, "watch {k} {number}")?,
    }
    Ok(())
}

/// All that a run came to.
pub fn write_outcome(rt: &HostRuntime, outcome: &Outcome) -> Tried<()> {
    write_passes(rt, outcome.history.as_slice())?;
    write_lists(rt, outcome.journals.as_slice())?;
    write_lists(rt, outcome.left.as_slice())?;
    write_events(rt, outcome.events.as_slice())?;
    write_lists(rt, outcome.watched.as_slice())?;
    Ok(())
}
