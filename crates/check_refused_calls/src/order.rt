//! The order of a run's steps.

ghost use Rattle.cal_linear.specs.Runs.{AreOfOneRun, AreWatched};

use crate::attempt::{Stop, Tried, answer, begin};
use crate::table_and_trace::TableAndTrace;
use crate::texts::write_events;
use cal_linear::{fitting_looks_are_publications, linearise};
use cal_machine::Config;
use cal_run::{Outcome, lockstep};

/// The steps of a run on one thread.
pub fn of_run(rt: &HostRuntime, given: &TableAndTrace) -> Tried<()> {
    let arrivals = given.arrivals(rt.alloc())?;
    given.config.limits();
    fitting_looks_are_publications();
    match lockstep(rt.alloc(), &given.config, &arrivals) {
        Ok(outcome) => of_outcome(rt, &given.config, &outcome),
        Err(_) => Err(Stop::Wrong),
    }
}

fn of_outcome(rt: &HostRuntime, config: &Config, outcome: &Outcome) -> Tried<()>
    requires run { AreOfOneRun config.now outcome.now.history outcome.now.journals }
    requires watched { AreWatched config.now outcome.now.journals outcome.now.watched }
{
    let history = outcome.history.as_slice();
    let journals = outcome.journals.as_slice();
    let watched = outcome.watched.as_slice();
    begin(rt)?;
    let made = linearise(rt.alloc(), config, history, journals, watched);
    let events = answer(rt, made)?;
    write_events(rt, events.as_slice())
}
