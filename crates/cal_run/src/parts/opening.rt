//! The parts of a run are opened.

ghost use Rattle.std.specs.Prelude.{◌≡◌, ◌≤◌, length, map, IfOk, IfErr};
ghost use Rattle.cal_machine.specs.declared.numbering.TheConstants.{MOST_THREADS};
ghost use Rattle.cal_policy.specs.declared.policy.Policy.TheVariants.{Caladan};
ghost use Rattle.cal_trace.specs.Arrivals.FitsTable.{FitsTable};
ghost use Rattle.cal_run.specs.declared.fault.SimFault.TheVariants.{Memory};
ghost use Rattle.cal_run.specs.declared.workers.worker.Worker.{Worker};
ghost use Rattle.cal_run.specs.Parts.{AreParts, rounds_of};
ghost use Rattle.cal_run.specs.Workers.{FitSomeTable, HaveMade, HaveMadeNoTurn};

use crate::fault::SimFault;
use crate::parts::Parts;
use crate::workers::worker::Worker;
use cal_kthread::{BareTeam, BareThread, open_bare_threads};
use cal_machine::Config;
use cal_policy::Policy;
use cal_sched::{BareScheduler, Watch};
use cal_trace::Arrivals;
use std::alloc::{AllocError, Global};

/// The most rounds that the watch of a run makes.
pub const MOST_ROUNDS: usize = 1024;

/// The parts of a run on these arrivals: a scheduler by this policy, a worker for each kernel thread
/// of the table, and a watch for as many rounds as passes, `MOST_ROUNDS` at most. None of them did anything yet.
/// Fails only when out of memory.
pub fn open_parts_by(
    alloc: Global,
    config: &Config,
    policy: Policy,
    arrivals: &Arrivals,
) -> Result<Parts, SimFault>
    requires fits { FitsTable config.now arrivals.now }
    ensures parts { IfOk result (λ parts. AreParts config.now arrivals.now 0 0 0 parts) }
    ensures fresh { IfOk result (λ parts.
        HaveMadeNoTurn (map (λ (w : Worker). w.thread) parts.workers.items)) }
    ensures policy { IfOk result (λ parts. parts.scheduler.policy ≡ policy) }
    ensures most { IfOk result (λ parts. parts.watch.most ≡ rounds_of arrivals.now) }
    ensures memory { IfErr result (λ fault. fault ≡ Memory) }
{
    let rounds = arrivals.passes.as_slice().len().min(MOST_ROUNDS);
    open_parts_for(alloc, config, policy, arrivals, rounds as u64)
}

/// `open_parts_by` of `Policy::Caladan`.
pub fn open_parts(alloc: Global, config: &Config, arrivals: &Arrivals) -> Result<Parts, SimFault>
    requires fits { FitsTable config.now arrivals.now }
    ensures parts { IfOk result (λ parts. AreParts config.now arrivals.now 0 0 0 parts) }
    ensures policy { IfOk result (λ parts. parts.scheduler.policy ≡ Caladan) }
    ensures most { IfOk result (λ parts. parts.watch.most ≡ rounds_of arrivals.now) }
    ensures memory { IfErr result (λ fault. fault ≡ Memory) }
{
    open_parts_by(alloc, config, Policy::Caladan, arrivals)
}

/// As `open_parts_by`, with a watch for no round, which takes no memory for any: for a run of which
/// nobody reads what the watch finds. `end_run` ends such parts; `end_parts` and `close_parts` ask
/// for all rounds. Fails only when out of memory.
pub fn open_unwatched_by(
    alloc: Global,
    config: &Config,
    policy: Policy,
    arrivals: &Arrivals,
) -> Result<Parts, SimFault>
    requires fits { FitsTable config.now arrivals.now }
    ensures parts { IfOk result (λ parts. AreParts config.now arrivals.now 0 0 0 parts) }
    ensures fresh { IfOk result (λ parts.
        HaveMadeNoTurn (map (λ (w : Worker). w.thread) parts.workers.items)) }
    ensures policy { IfOk result (λ parts. parts.scheduler.policy ≡ policy) }
    ensures most { IfOk result (λ parts. parts.watch.most ≡ 0) }
    ensures memory { IfErr result (λ fault. fault ≡ Memory) }
{
    open_parts_for(alloc, config, policy, arrivals, 0)
}

/// `open_unwatched_by` of `Policy::Caladan`.
pub fn open_unwatched(
    alloc: Global,
    config: &Config,
    arrivals: &Arrivals,
) -> Result<Parts, SimFault>
    requires fits { FitsTable config.now arrivals.now }
    ensures parts { IfOk result (λ parts. AreParts config.now arrivals.now 0 0 0 parts) }
    ensures policy { IfOk result (λ parts. parts.scheduler.policy ≡ Caladan) }
    ensures most { IfOk result (λ parts. parts.watch.most ≡ 0) }
    ensures memory { IfErr result (λ fault. fault ≡ Memory) }
{
    open_unwatched_by(alloc, config, Policy::Caladan, arrivals)
}

/// The parts of a run by this policy, with a watch for so many rounds.
fn open_parts_for(
    alloc: Global,
    config: &Config,
    policy: Policy,
    arrivals: &Arrivals,
    rounds: u64,
) -> Result<Parts, SimFault>
    requires fits { FitsTable config.now arrivals.now }
    ensures parts { IfOk result (λ parts. AreParts config.now arrivals.now 0 0 0 parts) }
    ensures fresh { IfOk result (λ parts.
        HaveMadeNoTurn (map (λ (w : Worker). w.thread) parts.workers.items)) }
    ensures policy { IfOk result (λ parts. parts.scheduler.policy ≡ policy) }
    ensures most { IfOk result (λ parts. parts.watch.most ≡ rounds) }
    ensures memory { IfErr result (λ fault. fault ≡ Memory) }
{
    config.limits();
    let BareTeam {
        threads,
        observers,
        senders,
        watchers,
    } = open_bare_threads(alloc, config)?;
    let workers = open_workers(alloc, threads, arrivals)?;
    let config = config.copy(alloc)?;
    let Ok(scheduler) = BareScheduler::new_by(alloc, config, policy, observers, senders) else {
        return Err(SimFault::Memory);
    };
    let Ok(watch) = Watch::new(alloc, watchers, rounds) else {
        return Err(SimFault::Memory);
    };
    Ok(Parts {
        scheduler,
        workers,
        watch,
    })
}

/// A worker for each of these kernel threads, in the same order. Fails only when out of memory.
fn open_workers(
    alloc: Global,
    threads: Vec<BareThread>,
    arrivals: &Arrivals,
) -> Result<Vec<Worker>, AllocError>
    requires fits { FitSomeTable arrivals.now }
    requires few { length threads.items ≤ MOST_THREADS }
    requires fresh { HaveMadeNoTurn threads.items }
    ensures threads { IfOk result (λ workers.
        map (λ (w : Worker). w.thread) workers.items ≡ threads.items) }
    ensures made { IfOk result (λ workers. HaveMade arrivals.now 0 workers.items) }
{
    let mut workers = Vec::new(alloc);
    for thread in threads {
        let number = workers.len() as u8;
        workers.push(Worker::new(thread, number, arrivals))?;
    }
    Ok(workers)
}
