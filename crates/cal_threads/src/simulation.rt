//! A run in threads, from a table and arrivals to its outcome.

ghost use Rattle.std.specs.Prelude.{IfOk, IfErr};
ghost use Rattle.cal_machine.specs.TableTasks.{threads_of_table};
ghost use Rattle.cal_run.specs.Outcome.Headline.{Headline, HeadlineBy};
ghost use Rattle.cal_run.specs.Outcome.{EachStandsOnce, IsRun, IsRunBy, IsRunEnd, IsRunEndBy};
ghost use Rattle.cal_run.specs.Outcome.{outcome_of};
ghost use Rattle.cal_threads.specs.Gates.{LetsAllTurns, LetsPasses, MayFailRun};
ghost use Rattle.cal_trace.specs.Arrivals.FitsTable.{FitsTable};

use crate::gate::Gate;
use crate::running::run_threads;
use cal_machine::Config;
use cal_policy::Policy;
use cal_run::{
    Outcome, RunEnd, SimFault, close_parts, end_parts, headline_of_runs_by, open_parts_by,
};
use cal_trace::Arrivals;
use std::alloc::Global;
use std::sync::Wait;
use std::thread::Threads;

/// A run by this policy on these arrivals, in threads: one for the scheduler, one for each kernel
/// thread and one for the watch, all at the same time. Before each pass and each turn the gate is
/// asked; where it answers false, that worker ends. Asks that the arrivals fit the table.
///
/// Its outcome is the outcome of a run, whatever the order of the threads' steps, and the headline
/// holds of it. To the question before each of its passes and turns the gate may have answered
/// true, by its own `answers_pass` and `answers_turn`.
///
/// `Memory` where memory was refused, `Spawn` where a thread could not be started, and `Gate` where
/// the gate ended a worker, which comes only where it may answer false; of several faults the one
/// with the least number. Every thread that was started has ended before the answer.
pub fn simulate_by<R: Threads + Wait + Sync, G: Gate + Sync>(
    rt: &R,
    alloc: Global,
    config: &Config,
    policy: Policy,
    arrivals: &Arrivals,
    gate: &G,
) -> Result<Outcome, SimFault>
    requires fits { FitsTable config.now arrivals.now }
    ensures run { IfOk result (IsRunBy policy config.now arrivals.now) }
    ensures once { IfOk result (λ outcome. EachStandsOnce arrivals.now outcome) }
    ensures headline { IfOk result (HeadlineBy policy config.now) }
    ensures passes_asked { IfOk result (λ _. LetsPasses (G.answers_pass gate.now) arrivals.now) }
    ensures turns_asked { IfOk result (λ _.
        LetsAllTurns (G.answers_turn gate.now) (threads_of_table config.now) arrivals.now) }
    ensures gate { IfErr result (MayFailRun (G.answers_pass gate.now)
        (G.answers_turn gate.now) (threads_of_table config.now) arrivals.now) }
{
    config.limits();
    headline_of_runs_by();
    let parts = open_parts_by(alloc, config, policy, arrivals)?;
    match run_threads(rt, alloc, arrivals, gate, parts) {
        Ok((parts, collected)) => close_parts(alloc, config, arrivals, parts, collected),
        Err(fault) => Err(fault),
    }
}

/// `simulate_by` of `Policy::Caladan`.
pub fn simulate<R: Threads + Wait + Sync, G: Gate + Sync>(
    rt: &R,
    alloc: Global,
    config: &Config,
    arrivals: &Arrivals,
    gate: &G,
) -> Result<Outcome, SimFault>
    requires fits { FitsTable config.now arrivals.now }
    ensures run { IfOk result (IsRun config.now arrivals.now) }
    ensures once { IfOk result (λ outcome. EachStandsOnce arrivals.now outcome) }
    ensures headline { IfOk result (Headline config.now) }
    ensures passes_asked { IfOk result (λ _. LetsPasses (G.answers_pass gate.now) arrivals.now) }
    ensures turns_asked { IfOk result (λ _.
        LetsAllTurns (G.answers_turn gate.now) (threads_of_table config.now) arrivals.now) }
    ensures gate { IfErr result (MayFailRun (G.answers_pass gate.now)
        (G.answers_turn gate.now) (threads_of_table config.now) arrivals.now) }
{
    simulate_by(rt, alloc, config, Policy::Caladan, arrivals, gate)
}

/// What the same run ends with: its outcome without the list of its steps, which is not made. The
/// faults are those of `simulate_by`.
pub fn simulation_end_by<R: Threads + Wait + Sync, G: Gate + Sync>(
    rt: &R,
    alloc: Global,
    config: &Config,
    policy: Policy,
    arrivals: &Arrivals,
    gate: &G,
) -> Result<RunEnd, SimFault>
    requires fits { FitsTable config.now arrivals.now }
    ensures run { IfOk result (IsRunEndBy policy config.now arrivals.now) }
    ensures headline { IfOk result (λ end. HeadlineBy policy config.now (outcome_of end)) }
    ensures passes_asked { IfOk result (λ _. LetsPasses (G.answers_pass gate.now) arrivals.now) }
    ensures turns_asked { IfOk result (λ _.
        LetsAllTurns (G.answers_turn gate.now) (threads_of_table config.now) arrivals.now) }
    ensures gate { IfErr result (MayFailRun (G.answers_pass gate.now)
        (G.answers_turn gate.now) (threads_of_table config.now) arrivals.now) }
{
    config.limits();
    headline_of_runs_by();
    let parts = open_parts_by(alloc, config, policy, arrivals)?;
    match run_threads(rt, alloc, arrivals, gate, parts) {
        Ok((parts, collected)) => end_parts(alloc, config, arrivals, parts, collected),
        Err(fault) => Err(fault),
    }
}

/// `simulation_end_by` of `Policy::Caladan`.
pub fn simulation_end<R: Threads + Wait + Sync, G: Gate + Sync>(
    rt: &R,
    alloc: Global,
    config: &Config,
    arrivals: &Arrivals,
    gate: &G,
) -> Result<RunEnd, SimFault>
    requires fits { FitsTable config.now arrivals.now }
    ensures run { IfOk result (IsRunEnd config.now arrivals.now) }
    ensures headline { IfOk result (λ end. Headline config.now (outcome_of end)) }
    ensures passes_asked { IfOk result (λ _. LetsPasses (G.answers_pass gate.now) arrivals.now) }
    ensures turns_asked { IfOk result (λ _.
        LetsAllTurns (G.answers_turn gate.now) (threads_of_table config.now) arrivals.now) }
    ensures gate { IfErr result (MayFailRun (G.answers_pass gate.now)
        (G.answers_turn gate.now) (threads_of_table config.now) arrivals.now) }
{
    simulation_end_by(rt, alloc, config, Policy::Caladan, arrivals, gate)
}
