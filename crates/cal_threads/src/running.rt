//! A run of all parts in threads of their own, and back.

ghost use Rattle.std.specs.Prelude.{◌≡◌, IfOk, IfErr, MatchResult, length, vec_len};
ghost use Rattle.cal_run.specs.Collecting.{IsCollectedOf};
ghost use Rattle.cal_run.specs.Parts.{HasPassed};
ghost use Rattle.cal_run.specs.Workers.{FitSomeTable, HaveMade, seats_of};
ghost use Rattle.cal_run.specs.declared.fault.SimFault.TheVariants.{Memory, Spawn};
ghost use Rattle.cal_threads.specs.Gates.{EndedBy, LetsAllTurns, LetsPasses};
ghost use Rattle.cal_threads.specs.Gates.{MayFailRun, MayFailTurns, MayRefusePass};
ghost use Rattle.cal_threads.specs.Promises.{AsksEachPass, EndsWell, HasMadeRounds};
ghost use Rattle.cal_threads.specs.Promises.{HaveNotRun, HaveRun};

use crate::faults::both_or_least_fault;
use crate::gate::Gate;
use crate::kernel_threads::run_workers;
use crate::working::{make_passes, make_rounds};
use cal_run::{
    Collected, CollectingScheduler, CollectingWorker, Parts, SimFault, Worker, split_workers,
};
use cal_sched::{BareScheduler, Watch};
use cal_trace::Arrivals;
use std::alloc::Global;
use std::snapshot::Snapshot;
use std::sync::Wait;
use std::thread;
use std::thread::{Promise, PromisedHandle, Scope, Threads};

/// That the scheduler comes back in its seat and has made its passes, each of which the gate let
/// through; or that memory was refused to it, or the gate may have ended it.
#[derive(Drop)]
struct Passed<'a, G: Gate> {
    was: Snapshot<CollectingScheduler>,
    arrivals: &'a Arrivals,
    gate: &'a G,
}

impl<'a, G: Gate> Promise<Result<CollectingScheduler, SimFault>> for Passed<'a, G> {
    ghost kept_by = { λ p r. MatchResult r
        (AsksEachPass (G.answers_pass p.gate.now) p.arrivals.now p.was.value)
        (EndedBy (MayRefusePass (G.answers_pass p.gate.now) p.arrivals.now)) };
}

/// The thread of the scheduler.
type PassingThread<'a, G> = PromisedHandle<Result<CollectingScheduler, SimFault>, Passed<'a, G>>;

/// That the watch comes back in its seat and has made its rounds.
#[derive(Drop)]
struct Watched {
    was: Snapshot<Watch>,
    passes: usize,
}

impl Promise<Watch> for Watched {
    ghost kept_by = { λ p w. HasMadeRounds p.passes p.was.value w };
}

/// Runs the scheduler, each kernel thread and the watch at the same time, each in a thread of its
/// own, and gives them back once each has come to its end, with the entries of all passes and the
/// journal of each kernel thread. They share their pages, rings and
/// queues, the arrivals, which are only read, and the gate. Only the joins wait.
///
/// `Memory` where memory was refused to a worker or for the threads, `Spawn` where a thread could
/// not be started, and `Gate` where the gate ended a worker, which comes only where it may answer
/// no; of several faults the one with the least number. Those that were started have come to their
/// end before the answer.
pub fn run_threads<R: Threads + Wait + Sync, G: Gate + Sync>(
    rt: &R,
    alloc: Global,
    arrivals: &Arrivals,
    gate: &G,
    parts: Parts,
) -> Result<(Parts, Collected), SimFault>
    requires fits { FitSomeTable arrivals.now }
    requires parts { HaveNotRun arrivals.now parts }
    ensures ran { IfOk result (λ run. HaveRun parts.scheduler.table arrivals.now run.0) }
    ensures policy { IfOk result (λ run. run.0.scheduler.policy ≡ parts.scheduler.policy) }
    ensures collected { IfOk result (λ run. IsCollectedOf run.0 run.1) }
    ensures passes_asked { IfOk result (λ _. LetsPasses (G.answers_pass gate.now) arrivals.now) }
    ensures turns_asked { IfOk result (λ _.
        LetsAllTurns (G.answers_turn gate.now) (vec_len parts.workers) arrivals.now) }
    ensures ended { IfErr result (MayFailRun (G.answers_pass gate.now)
        (G.answers_turn gate.now) (vec_len parts.workers) arrivals.now) }
{
    thread::scope(
        thread::scope_env(),
        rt,
        move |scope|
            requires fits { FitSomeTable arrivals.now }
            requires parts { HaveNotRun arrivals.now parts }
        { run_within(rt, scope, alloc, arrivals, gate, parts) },
    )
}

/// The same within this scope.
fn run_within<'s, R: Threads, E, G: Gate + Sync>(
    rt: &R,
    scope: &Scope<'s, E>,
    alloc: Global,
    arrivals: &'s Arrivals,
    gate: &'s G,
    parts: Parts,
) -> Result<(Parts, Collected), SimFault>
    requires fits { FitSomeTable arrivals.now }
    requires parts { HaveNotRun arrivals.now parts }
    ensures ran { IfOk result
        (EndsWell (G.answers_pass gate.now) (G.answers_turn gate.now) arrivals.now parts) }
    ensures ended { IfErr result (MayFailRun (G.answers_pass gate.now)
        (G.answers_turn gate.now) (vec_len parts.workers) arrivals.now) }
{
    let Parts {
        scheduler,
        workers,
        watch,
    } = parts;
    let passing = start_scheduler(scope, alloc, arrivals, gate, scheduler)?;
    let others = run_others(rt, scope, alloc, arrivals, gate, workers, watch);
    let scheduler = passing.join(rt);
    match both_or_least_fault(scheduler, others) {
        Ok((scheduler, (workers, watch))) => {
            let made = apart(alloc, scheduler, workers, watch)?;
            Ok(made)
        }
        Err(fault) => Err(fault),
    }
}

/// The parts of a run, and what was collected beside them.
fn apart(
    alloc: Global,
    scheduler: CollectingScheduler,
    workers: Vec<CollectingWorker>,
    watch: Watch,
) -> Result<(Parts, Collected), SimFault>
    ensures scheduler { IfOk result (λ run. run.0.scheduler ≡ scheduler) }
    ensures workers { IfOk result (λ run. run.0.workers.items ≡ workers.items) }
    ensures watch { IfOk result (λ run. run.0.watch ≡ watch) }
    ensures collected { IfOk result (λ run. IsCollectedOf run.0 run.1) }
    ensures memory { IfErr result (λ fault. fault ≡ Memory) }
{
    let (scheduler, history) = scheduler.into_parts();
    let (workers, journals) = split_workers(alloc, workers)?;
    let parts = Parts {
        scheduler,
        workers,
        watch,
    };
    Ok((parts, Collected { history, journals }))
}

/// Runs the watch and all kernel threads at the same time, and gives them back once each has come
/// to its end.
fn run_others<'s, R: Threads, E, G: Gate + Sync>(
    rt: &R,
    scope: &Scope<'s, E>,
    alloc: Global,
    arrivals: &'s Arrivals,
    gate: &'s G,
    workers: Vec<Worker>,
    watch: Watch,
) -> Result<(Vec<CollectingWorker>, Watch), SimFault>
    requires fits { FitSomeTable arrivals.now }
    requires none { HaveMade arrivals.now 0 workers.items }
    requires unwatched { length watch.rounds ≡ 0 }
    ensures turns { IfOk result (λ r.
        HaveMade arrivals.now (length arrivals.now.turns) r.0.items) }
    ensures seats { IfOk result (λ r. seats_of r.0.items ≡ seats_of workers.items) }
    ensures rounds { IfOk result (λ r. HasMadeRounds (length arrivals.now.passes) watch r.1) }
    ensures asked { IfOk result (λ _.
        LetsAllTurns (G.answers_turn gate.now) (vec_len workers) arrivals.now) }
    ensures ended { IfErr result
        (MayFailTurns (G.answers_turn gate.now) (vec_len workers) arrivals.now) }
{
    let watching = start_watch(scope, arrivals.passes.as_slice().len(), watch)?;
    let workers = run_workers(rt, scope, alloc, gate, arrivals, workers);
    let watch = watching.join(rt);
    match workers {
        Ok(workers) => Ok((workers, watch)),
        Err(fault) => Err(fault),
    }
}

/// Starts the scheduler's thread. The error is `Spawn` alone.
fn start_scheduler<'s, E, G: Gate + Sync>(
    scope: &Scope<'s, E>,
    alloc: Global,
    arrivals: &'s Arrivals,
    gate: &'s G,
    scheduler: BareScheduler,
) -> Result<PassingThread<'s, G>, SimFault>
    requires fits { FitSomeTable arrivals.now }
    requires none { HasPassed arrivals.now 0 scheduler }
    ensures was { IfOk result (λ t. t.promise.was.value ≡ scheduler) }
    ensures arrivals { IfOk result (λ t. t.promise.arrivals.now ≡ arrivals.now) }
    ensures gate { IfOk result (λ t. t.promise.gate.now ≡ gate.now) }
    ensures spawn { IfErr result (λ fault. fault ≡ Spawn) }
{
    let scheduler = CollectingScheduler::new(alloc, scheduler);
    let promise = Passed {
        was: Snapshot::of(&scheduler),
        arrivals,
        gate,
    };
    match scope.spawn_with(promise, move || make_passes(gate, arrivals, scheduler)) {
        Ok(thread) => Ok(thread),
        Err(_) => Err(SimFault::Spawn),
    }
}

/// Starts the watch's thread, for a run of that many passes. The error is `Spawn` alone.
fn start_watch<'s, E>(
    scope: &Scope<'s, E>,
    passes: usize,
    watch: Watch,
) -> Result<PromisedHandle<Watch, Watched>, SimFault>
    requires none { length watch.rounds ≡ 0 }
    ensures was { IfOk result (λ t. t.promise.was.value ≡ watch) }
    ensures passes { IfOk result (λ t. t.promise.passes ≡ passes) }
    ensures spawn { IfErr result (λ fault. fault ≡ Spawn) }
{
    let promise = Watched {
        was: Snapshot::of(&watch),
        passes,
    };
    match scope.spawn_with(promise, move || make_rounds(passes, watch)) {
        Ok(thread) => Ok(thread),
        Err(_) => Err(SimFault::Spawn),
    }
}
