//! Audits.

use crate::attempt::{Tried, answer, begin};
use crate::table_and_trace::TableAndTrace;
use cal_machine::Config;
use cal_policy::{Auditor, PassEntry, Verdict, audit};
use std::alloc::{AllocError, Global};
use std::io::Write;

/// The audit of a whole history.
pub fn audit_whole(rt: &HostRuntime, given: &TableAndTrace) -> Tried<()> {
    let history = given.history(rt.alloc())?;
    begin(rt)?;
    let verdict = answer(rt, audit(rt.alloc(), &given.config, history.as_slice()))?;
    writeln!(&mut rt.stdout(), "{verdict:?}")?;
    Ok(())
}

/// The audit of a history that is handed over one pass after the other.
pub fn audit_in_turn(rt: &HostRuntime, given: &TableAndTrace) -> Tried<()> {
    let history = given.history(rt.alloc())?;
    begin(rt)?;
    let verdict = answer(
        rt,
        audit_each(rt.alloc(), &given.config, history.as_slice()),
    )?;
    writeln!(&mut rt.stdout(), "{verdict:?}")?;
    Ok(())
}

fn audit_each(
    alloc: Global,
    config: &Config,
    history: &[PassEntry],
) -> Result<Verdict, AllocError> {
    let mut auditor = Auditor::open(alloc, config)?;
    for entry in history {
        auditor.next(config, entry);
    }
    Ok(auditor.verdict())
}
