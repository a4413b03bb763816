//! Texts of a run, in memory. The two calls take none of their own: it is the writer that grows, and
//! a growth that is refused is its fault.

ghost use Rattle.cal_policy.specs.Judgement.Orderly.{IsOrderly};

use crate::attempt::{Stop, Tried, answer, begin};
use crate::table_and_trace::TableAndTrace;
use cal_machine::Config;
use cal_policy::{PassEntry, orderly};
use cal_trace::{write_history, write_report};
use std::io::Write;

/// The history of a run, as a file.
pub fn history(rt: &HostRuntime, given: &TableAndTrace) -> Tried<()> {
    let outcome = given.run(rt.alloc())?;
    begin(rt)?;
    let mut text = Vec::new(rt.alloc());
    answer(rt, write_history(outcome.history.as_slice(), &mut text))?;
    rt.stdout().write_all(text.as_slice())?;
    Ok(())
}

/// The report of a run.
pub fn report(rt: &HostRuntime, given: &TableAndTrace) -> Tried<()> {
    let outcome = given.run(rt.alloc())?;
    let history = outcome.history.as_slice();
    if !orderly(&given.config, history) {
        return Err(Stop::Wrong);
    }
    report_of(rt, &given.config, history)
}

fn report_of(rt: &HostRuntime, config: &Config, history: &[PassEntry]) -> Tried<()>
    requires { IsOrderly config.now history.now }
{
    begin(rt)?;
    let mut text = Vec::new(rt.alloc());
    answer(rt, write_report(config, history, &mut text))?;
    rt.stdout().write_all(text.as_slice())?;
    Ok(())
}
