//! Readings of texts.

use crate::attempt::{Tried, answer, begin};
use crate::table_and_trace::TableAndTrace;
use crate::texts::{write_each, write_passes};
use cal_input::RunFault;
use cal_machine::Config;
use cal_trace::{SignalPass, SignalRows, read_arrivals, read_history, read_signals};
use std::alloc::Global;
use std::io;
use std::io::Write;

/// The table.
pub fn table(rt: &HostRuntime, given: &TableAndTrace) -> Tried<()> {
    begin(rt)?;
    let config = answer(rt, Config::read(rt.alloc(), given.table))?;
    writeln!(&mut rt.stdout(), "{config:?}")?;
    Ok(())
}

/// The trace as arrivals.
pub fn arrivals(rt: &HostRuntime, given: &TableAndTrace) -> Tried<()> {
    begin(rt)?;
    let arrivals = answer(rt, read_arrivals(rt.alloc(), &given.config, given.trace))?;
    write_each(rt, arrivals.passes.as_slice())?;
    write_each(rt, arrivals.turns.as_slice())?;
    write_each(rt, arrivals.requests.as_slice())?;
    Ok(())
}

/// The trace as a history.
pub fn history(rt: &HostRuntime, given: &TableAndTrace) -> Tried<()> {
    begin(rt)?;
    let history = answer(rt, read_history(rt.alloc(), &given.config, given.trace))?;
    write_passes(rt, history.as_slice())
}

/// The trace as signals, all at once.
pub fn signals(rt: &HostRuntime, given: &TableAndTrace) -> Tried<()> {
    begin(rt)?;
    let signals = answer(rt, read_signals(rt.alloc(), &given.config, given.trace))?;
    write_signals(rt, signals.passes.as_slice())?;
    Ok(())
}

/// The passes of the signals, one after the other as they are read, from the first one on where one
/// was refused.
pub fn signal_rows(rt: &HostRuntime, given: &TableAndTrace) -> Tried<()> {
    begin(rt)?;
    let passes = answer(rt, passes_in_turn(rt.alloc(), given))?;
    write_signals(rt, passes.as_slice())?;
    Ok(())
}

fn passes_in_turn(alloc: Global, given: &TableAndTrace) -> Result<Vec<SignalPass>, RunFault> {
    let mut rows = SignalRows::open(alloc, &given.config, given.trace)?;
    let mut passes = Vec::new(alloc);
    while let Some(pass) = rows.next()? {
        passes.push(pass)?;
    }
    Ok(passes)
}

fn write_signals(rt: &HostRuntime, passes: &[SignalPass]) -> io::Result<()> {
    for pass in passes {
        writeln!(&mut rt.stdout(), "pass {} {}", pass.now, pass.bandwidth)?;
        write_each(rt, pass.looks.as_slice())?;
    }
    Ok(())
}
