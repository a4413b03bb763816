//! What each worker of a run does, from its first step to its last. No function here knows of
//! threads.

ghost use Rattle.std.specs.Prelude.{◌≡◌, IfOk, IfErr, length, min};
ghost use Rattle.cal_run.specs.Parts.{HasPassed, scheduler_seat_of, watch_seat_of};
ghost use Rattle.cal_run.specs.Workers.{FitSomeTable, HasMade, seat_of};
ghost use Rattle.cal_threads.specs.Gates.{EndedBy, LetsPasses, LetsTurns};
ghost use Rattle.cal_threads.specs.Gates.{MayRefusePass, MayRefuseTurn};

use crate::gate::Gate;
use cal_run::{CollectingScheduler, CollectingWorker, SimFault, watch_of_round};
use cal_sched::Watch;
use cal_trace::Arrivals;

/// Each pass that is given, in order, where the gate lets the scheduler make it. Its entry is
/// collected beside the scheduler.
pub(crate) fn make_passes<G: Gate>(
    gate: &G,
    arrivals: &Arrivals,
    mut scheduler: CollectingScheduler,
) -> Result<CollectingScheduler, SimFault>
    requires fits { FitSomeTable arrivals.now }
    requires none { HasPassed arrivals.now 0 scheduler }
    ensures passed { IfOk result (HasPassed arrivals.now (length arrivals.now.passes)) }
    ensures seat { IfOk result (λ s. scheduler_seat_of s ≡ scheduler_seat_of scheduler) }
    ensures asked { IfOk result (λ _. LetsPasses (G.answers_pass gate.now) arrivals.now) }
    ensures ended { IfErr result (EndedBy
        (MayRefusePass (G.answers_pass gate.now) arrivals.now)) }
{
    for p in 0..arrivals.passes.as_slice().len() {
        if !gate.before_pass(p as u64) {
            return Err(SimFault::Gate);
        }
        scheduler.pass_given(arrivals, p)?;
    }
    Ok(scheduler)
}

/// Each turn that is given to kernel thread `k`, in order, where the gate lets it make it. Its
/// entries are collected beside the thread.
pub(crate) fn make_turns<G: Gate>(
    gate: &G,
    k: usize,
    arrivals: &Arrivals,
    mut worker: CollectingWorker,
) -> Result<CollectingWorker, SimFault>
    requires fits { FitSomeTable arrivals.now }
    requires none { HasMade arrivals.now k 0 worker }
    ensures made { IfOk result (HasMade arrivals.now k (length arrivals.now.turns)) }
    ensures seat { IfOk result (λ w. seat_of w.thread ≡ seat_of worker.thread) }
    ensures asked { IfOk result (λ _. LetsTurns (G.answers_turn gate.now k) arrivals.now) }
    ensures ended { IfErr result (EndedBy
        (MayRefuseTurn (G.answers_turn gate.now k) arrivals.now)) }
{
    for j in 0..arrivals.turns.as_slice().len() {
        if !gate.before_turn(k, j as u64) {
            return Err(SimFault::Gate);
        }
        worker = worker.turn(arrivals, j)?;
    }
    Ok(worker)
}

/// Each round of the watch of a run of that many passes, up to the last one that it was made for.
/// It asks no gate.
pub(crate) fn make_rounds(passes: usize, mut watch: Watch) -> Watch
    requires none { length watch.rounds ≡ 0 }
    ensures rounds { length result.rounds ≡ min passes watch.most }
    ensures seat { watch_seat_of result ≡ watch_seat_of watch }
{
    for _ in 0..passes {
        watch_of_round(&mut watch);
    }
    watch
}
