//! A run ends in its outcome.

pub mod pages_and_rings;
mod thread_ends;

ghost use Rattle.std.specs.Prelude.{◌≡◌, IfErr, IfOk, length};
ghost use Rattle.cal_linear.specs.Runs.{AreOfOneRunBy, AreWatched};
ghost use Rattle.cal_run.specs.Collecting.{IsCollectedOf};
ghost use Rattle.cal_run.specs.Outcome.{IsRunBy, IsRunEndBy, outcome_of};
ghost use Rattle.cal_run.specs.Parts.{MayBeEnded, AreParts, filled, rounds_of};
ghost use Rattle.cal_run.specs.Workers.{journals_of};
ghost use Rattle.cal_run.specs.declared.fault.SimFault.TheVariants.{Memory};
ghost use Rattle.cal_run.specs.declared.outcome.Outcome.{Outcome};
ghost use Rattle.cal_trace.specs.Arrivals.FitsTable.{FitsTable};

use crate::closing::pages_and_rings::close_threads;
use crate::collector::collected::Collected;
use crate::fault::SimFault;
use crate::outcome::given_once::given_stand_once;
use crate::outcome::headline::headline_of_runs_by;
use crate::outcome::{Outcome, RunEnd};
use crate::parts::Parts;
use cal_kthread::RequestList;
use cal_linear::{fitting_looks_are_publications, linear_is_legal_by, linearise_by};
use cal_machine::{Config, Listed};
use cal_policy::Policy;
use cal_sched::BareEnd;
use cal_signal::Round;
use cal_trace::Arrivals;
use std::alloc::{AllocError, Global};

/// What was left of a run and what its watch found: what its parts themselves keep of it.
#[derive(Drop)]
pub struct RunRest {
    /// The requests that were left with each kernel thread, in thread order.
    pub left: Listed<RequestList>,
    /// What the watch found on each thread's page, round by round.
    pub watched: Listed<Round>,
}

/// The outcome of a run, whose passes, turns and rounds were all made, and of which this was
/// collected. Ends the threads, gathers what was left with them, closes their pages and rings, and
/// puts the steps of all into one list. Fails only when out of memory.
pub fn close_parts(
    alloc: Global,
    config: &Config,
    arrivals: &Arrivals,
    parts: Parts,
    collected: Collected,
) -> Result<Outcome, SimFault>
    requires fits { FitsTable config.now arrivals.now }
    requires parts { AreParts config.now arrivals.now (length arrivals.now.passes)
        (length arrivals.now.turns) (rounds_of arrivals.now) parts }
    requires collected { IsCollectedOf parts collected }
    ensures run { IfOk result (IsRunBy parts.scheduler.policy config.now arrivals.now) }
    ensures memory { IfErr result (λ fault. fault ≡ Memory) }
{
    config.limits();
    headline_of_runs_by();
    fitting_looks_are_publications();
    let policy = parts.scheduler.policy();
    let end = end_parts(alloc, config, arrivals, parts, collected)?;
    Ok(with_events(alloc, config, policy, end)?)
}

/// What a run ends with, whose passes, turns and rounds were all made, and of which this was
/// collected: its outcome without the list of its steps, which is not made. Fails only when out of
/// memory.
pub fn end_parts(
    alloc: Global,
    config: &Config,
    arrivals: &Arrivals,
    parts: Parts,
    collected: Collected,
) -> Result<RunEnd, SimFault>
    requires fits { FitsTable config.now arrivals.now }
    requires parts { AreParts config.now arrivals.now (length arrivals.now.passes)
        (length arrivals.now.turns) (rounds_of arrivals.now) parts }
    requires collected { IsCollectedOf parts collected }
    ensures run { IfOk result (IsRunEndBy parts.scheduler.policy config.now arrivals.now) }
    ensures memory { IfErr result (λ fault. fault ≡ Memory) }
{
    let Collected { history, journals } = collected;
    let RunRest { left, watched } = end_run(alloc, config, arrivals, parts)?;
    Ok(RunEnd {
        history: Listed::new(history),
        journals: Listed::new(journals),
        left,
        watched,
    })
}

/// What is left of a run, whose passes and turns were all made, and whose watch made no more rounds
/// than the outcome of a run has. Ends the threads, gathers what was left with them, and closes their
/// pages and rings. With the history of its scheduler and the journals of its threads, whatever
/// became of them, it is the end of a run, in which a round whose looks read no record stands in the
/// place of each that the watch did not make. Fails only when out of memory.
pub fn end_run(
    alloc: Global,
    config: &Config,
    arrivals: &Arrivals,
    parts: Parts,
) -> Result<RunRest, AllocError>
    requires fits { FitsTable config.now arrivals.now }
    requires made { MayBeEnded config.now arrivals.now parts }
    ensures run { IfOk result (λ rest.
        IsRunEndBy parts.scheduler.policy config.now arrivals.now (record {
          history = parts.scheduler.history;
          journals = journals_of parts.workers.items;
          left = rest.left;
          watched = filled config.now arrivals.now rest.watched;
        })) }
    ensures watched { IfOk result (λ rest. rest.watched ≡ parts.watch.rounds) }
{
    fitting_looks_are_publications();
    given_stand_once();
    linear_is_legal_by();
    let Parts {
        scheduler,
        workers,
        watch,
    } = parts;
    let BareEnd {
        observers,
        senders,
        ..
    } = scheduler.end();
    let (watchers, watched) = watch.end();
    let left = close_threads(alloc, config, workers, observers, watchers, senders)?;
    Ok(RunRest {
        left: Listed::new(left),
        watched: Listed::new(watched),
    })
}

/// The outcome of a run by this policy that ended with these. Fails only when out of memory.
fn with_events(
    alloc: Global,
    config: &Config,
    policy: Policy,
    end: RunEnd,
) -> Result<Outcome, AllocError>
    requires run { AreOfOneRunBy policy config.now end.history end.journals }
    requires watched { AreWatched config.now end.journals end.watched }
    ensures { IfOk result (λ outcome. outcome ≡ outcome_of end) }
{
    let events = linearise_by(
        alloc,
        config,
        policy,
        end.history.as_slice(),
        end.journals.as_slice(),
        end.watched.as_slice(),
    )?;
    Ok(Outcome {
        history: end.history,
        journals: end.journals,
        left: end.left,
        events: Listed::new(events),
        watched: end.watched,
    })
}
