//! The threads of the kernel threads: what each promises, and how all are started and joined.

ghost use Rattle.std.specs.Prelude.{◌≡◌, ◌≤◌, [], length, map, IfOk, IfErr, OnOk, Ok};
ghost use Rattle.std.specs.Prelude.{vec_capacity, vec_len};
ghost use Rattle.std.specs.List.{AllZip, Contains};
ghost use Rattle.cal_run.specs.Workers.{FitSomeTable, HaveMade, seats_of};
ghost use Rattle.cal_run.specs.declared.fault.SimFault.TheVariants.{Gate as GateFault, Spawn};
ghost use Rattle.cal_threads.specs.Faults.{IsLeastOfAll};
ghost use Rattle.cal_threads.specs.Gates.{LetsAllTurns, MayFailTurns};
ghost use Rattle.cal_threads.specs.Promises.{IsPromiseKept, IsOf, MayEnd, MayGive};

use crate::answers::Answers;
use crate::faults::{both_or_least_fault, least};
use crate::gate::Gate;
use crate::working::make_turns;
use cal_run::{CollectingWorker, SimFault, Worker};
use cal_trace::Arrivals;
use std::alloc::Global;
use std::snapshot::Snapshot;
use std::thread::{Promise, PromisedHandle, Scope, Threads};

/// That kernel thread `k` comes back in its seat and has made its turns, each of which the gate let
/// through; or that memory was refused to it, or the gate may have ended it.
#[derive(Drop)]
pub(crate) struct Turned<'a, G: Gate> {
    was: Snapshot<CollectingWorker>,
    k: usize,
    arrivals: &'a Arrivals,
    gate: &'a G,
}

impl<'a, G: Gate> Promise<Result<CollectingWorker, SimFault>> for Turned<'a, G> {
    ghost kept_by = { MayGive G.answers_turn };
}

/// The thread of a kernel thread.
pub(crate) type TurningThread<'a, G> = PromisedHandle<
    Result<CollectingWorker, SimFault>,
    Turned<'a, G>,
>;

/// Runs all kernel threads at the same time, each in a thread of its own, and gives them back in
/// order, with their journals. Where it does not, all that were started have still come to their
/// end.
pub(crate) fn run_workers<'s, R: Threads, E, G: Gate + Sync>(
    rt: &R,
    scope: &Scope<'s, E>,
    alloc: Global,
    gate: &'s G,
    arrivals: &'s Arrivals,
    workers: Vec<Worker>,
) -> Result<Vec<CollectingWorker>, SimFault>
    requires fits { FitSomeTable arrivals.now }
    requires none { HaveMade arrivals.now 0 workers.items }
    ensures made { IfOk result (λ v. HaveMade arrivals.now (length arrivals.now.turns) v.items) }
    ensures seats { IfOk result (λ v. seats_of v.items ≡ seats_of workers.items) }
    ensures asked { IfOk result (λ _.
        LetsAllTurns (G.answers_turn gate.now) (vec_len workers) arrivals.now) }
    ensures ended { IfErr result
        (MayFailTurns (G.answers_turn gate.now) (vec_len workers) arrivals.now) }
{
    // All room is made before the first thread starts, so that none is given up.
    let threads = Vec::with_capacity(alloc, workers.len())?;
    let back = Vec::with_capacity(alloc, workers.len())?;
    let (threads, started) = start_workers(scope, alloc, gate, arrivals, workers, threads);
    let (joined, _) = join_workers(rt, threads, back);
    match both_or_least_fault(started, joined) {
        Ok((_, workers)) => Ok(workers),
        Err(fault) => Err(fault),
    }
}

/// Starts a thread for each kernel thread, in order, up to the first that cannot be started.
/// `threads` is empty and has room.
fn start_workers<'s, E, G: Gate + Sync>(
    scope: &Scope<'s, E>,
    alloc: Global,
    gate: &'s G,
    arrivals: &'s Arrivals,
    workers: Vec<Worker>,
    mut threads: Vec<TurningThread<'s, G>>,
) -> (Vec<TurningThread<'s, G>>, Result<(), SimFault>)
    requires fits { FitSomeTable arrivals.now }
    requires none { HaveMade arrivals.now 0 workers.items }
    requires empty { threads.items ≡ [] }
    requires room { vec_len workers ≤ vec_capacity threads }
    ensures started { OnOk result.1 (AllZip
        (λ w t. IsOf (vec_len workers) arrivals.now gate.now w t.promise)
        workers.items result.0.items) }
    ensures refused { IfErr result.1 (λ e. e ≡ Spawn) }
    ensures len { vec_len result.0 ≤ vec_len workers }
{
    for worker in workers {
        let worker = CollectingWorker::new(alloc, worker);
        let k = threads.len();
        let promise = Turned {
            was: Snapshot::of(&worker),
            k,
            arrivals,
            gate,
        };
        match scope.spawn_with(promise, move || make_turns(gate, k, arrivals, worker)) {
            Ok(thread) => threads.push(thread).unwrap(),
            Err(_) => return (threads, Err(SimFault::Spawn)),
        }
    }
    (threads, Ok(()))
}

/// Joins each thread, and puts what comes back into `workers`, in order; or gives the least fault
/// of those that do not come back. `workers` is empty and has room. Beside it stands what each
/// thread answered.
#[tactic(auto, using(crate::proofs::Pairs::pairs_push))]
fn join_workers<'a, G: Gate>(
    rt: &impl Threads,
    threads: Vec<TurningThread<'a, G>>,
    mut workers: Vec<CollectingWorker>,
) -> (Result<Vec<CollectingWorker>, SimFault>, Answers)
    requires empty { workers.items ≡ [] }
    requires room { vec_len threads ≤ vec_capacity workers }
    ensures made { IfOk result.0 (λ v. AllZip (λ t w. IsPromiseKept G.answers_turn t.promise w)
        threads.entry.items v.items) }
    ensures answered { AllZip (λ t r. MayGive G.answers_turn t.promise r)
        threads.entry.items result.1.noted }
    ensures all { IfOk result.0 (λ v. result.1.noted ≡ map Ok v.items) }
    ensures least { IfErr result.0 (IsLeastOfAll result.1.noted) }
    ensures ended { IfErr result.0 (λ e. e ≡ GateFault → (t : _)
        × Contains threads.entry.items t × MayEnd G.answers_turn t.promise) }
{
    let mut answers = Answers::none();
    let mut fault = None;
    for thread in threads {
        match answers.join(rt, thread) {
            Ok(worker) => workers.push(worker).unwrap(),
            Err(other) => fault = Some(least(other, fault.unwrap_or(other))),
        }
    }
    match fault {
        None => (Ok(workers), answers),
        Some(fault) => (Err(fault), answers),
    }
}
