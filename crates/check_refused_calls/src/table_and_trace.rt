//! The input.

ghost use Rattle.std.specs.Prelude.{IfOk};
ghost use Rattle.cal_trace.specs.Arrivals.FitsTable.{FitsTable};

use crate::attempt::{Stop, Tried};
use cal_machine::Config;
use cal_policy::PassEntry;
use cal_run::{Outcome, lockstep};
use cal_trace::{Arrivals, read_arrivals, read_history};
use std::alloc::Global;

/// An input of a task table and a trace.
#[derive(Drop)]
pub struct TableAndTrace<'a> {
    /// All of it.
    pub text: &'a [u8],
    /// The text of the table.
    pub table: &'a [u8],
    /// The table.
    pub config: Config,
    /// The part after the separator.
    pub trace: &'a [u8],
}

impl<'a> TableAndTrace<'a> {
    /// The input that a text spells.
    pub fn of(alloc: Global, text: &'a [u8]) -> Tried<TableAndTrace<'a>> {
        let (table, trace) = split(text).ok_or(Stop::Wrong)?;
        let config = Config::read(alloc, table).or(Err(Stop::Wrong))?;
        Ok(TableAndTrace {
            text,
            table,
            config,
            trace,
        })
    }

    /// The trace as arrivals.
    pub fn arrivals(&self, alloc: Global) -> Tried<Arrivals>
        ensures fits { IfOk result (FitsTable self.now.config) }
    {
        read_arrivals(alloc, &self.config, self.trace).or(Err(Stop::Wrong))
    }

    /// The trace as a history.
    pub fn history(&self, alloc: Global) -> Tried<Vec<PassEntry>> {
        read_history(alloc, &self.config, self.trace).or(Err(Stop::Wrong))
    }

    /// A whole run on the trace as arrivals.
    pub fn run(&self, alloc: Global) -> Tried<Outcome> {
        let arrivals = self.arrivals(alloc)?;
        lockstep(alloc, &self.config, &arrivals).or(Err(Stop::Wrong))
    }
}

/// The parts before and after the separator.
fn split(text: &[u8]) -> Option<(&[u8], &[u8])> {
    for at in 0..text.len() {
        if text[at..].starts_with(b"\n---\n") {
            return Some((&text[..at], &text[at..][5..]));
        }
    }
    None
}
