//! A run that has ended: what came of the requests of its tasks, from what the turns of its threads
//! came to.

ghost use Rattle.std.specs.Prelude.{◌≡◌, ◌+◌, ◌<◌, ◌++◌, ℕ, List, IfOk, length};
ghost use Rattle.std.specs.List.{AllZip};
ghost use Rattle.cal_kthread.specs.declared.journal.entry.Entry.{Entry as EntryOf};
ghost use Rattle.cal_measure.specs.Clocks.{AreClocksOf, run_end};
ghost use Rattle.cal_measure.specs.Requests.{AreRequestsOf, services_at, services_of_task};
ghost use Rattle.cal_measure.specs.ThreadWork.{AreTotalsOfEach, IsThreadWorkOf, IsWithin};
ghost use Rattle.cal_measure.specs.ThreadWork.{IsWorkOf};
ghost use Rattle.cal_machine.specs.declared.numbering.TheConstants.{MOST_THREADS};
ghost use Rattle.cal_measure.specs.Work.{AreWorkOf, stolen_at, suspensions_at, worked_at};
ghost use Rattle.cal_trace.specs.Arrivals.FitsTable.{FitsTable};

use crate::clocks::{ArrivalClocks, run_end};
use crate::requests::{TaskRequests, TaskShare, given_to, requests_of_share, task_left};
use crate::services::Service;
use crate::thread_work::ThreadWork;
use crate::thread_work::each::end_works;
use crate::thread_work::totals::ThreadTotals;
use crate::work::TaskWork;
use cal_came::Counted;
use cal_kthread::RequestList;
use cal_machine::{Config, Listed};
use cal_trace::Arrivals;
use std::alloc::{AllocError, Global};

/// What is told of a run that has ended, for its requests to be measured.
#[derive(Drop)]
pub struct EndedRun {
    /// When its requests came.
    pub clocks: ArrivalClocks,
    /// What the turns of each kernel thread came to, in thread order.
    pub threads: Vec<ThreadTotals>,
    /// The requests that were left with each kernel thread, in thread order.
    pub left: Listed<RequestList>,
}

/// The requests that a thread served, in order.
fn services_of_thread(threads: &[ThreadTotals], thread: usize) -> &[Service]
    ensures { (last : ℕ) (journals : List (List EntryOf)) →
        AreTotalsOfEach last journals threads.now →
        result.now ≡ services_at last journals thread }
{
    match threads.get(thread) {
        Some(totals) => totals.services.as_slice(),
        None => &[],
    }
}

/// The requests that the threads of a task served, thread by thread. Fails only when out of memory.
fn services_of_threads(
    alloc: Global,
    config: &Config,
    threads: &[ThreadTotals],
    task: usize,
) -> Result<Vec<Service>, AllocError>
    requires { task < length config.now.tasks }
    ensures { IfOk result (λ services. (last : ℕ) (journals : List (List EntryOf)) →
        AreTotalsOfEach last journals threads.now →
        services.items ≡ services_of_task config.now last journals task) }
{
    config.limits();
    let (first, count) = config.threads_of(task);
    let mut services = Vec::new(alloc);
    for j in 0..count {
        services.extend_from_slice(services_of_thread(threads, first + j))?;
    }
    Ok(services)
}

/// What some threads did in their turns, with what one more did.
fn with_work_of(work: TaskWork, threads: &[ThreadTotals], thread: usize) -> TaskWork
    ensures work { (last : ℕ) (journals : List (List EntryOf)) (n : ℕ)
        (times stolen stamps : List ℕ) → AreTotalsOfEach last journals threads.now →
        n < MOST_THREADS → IsWithin n work → IsWorkOf times stolen stamps work →
        IsWorkOf (times ++ worked_at last journals thread) (stolen ++ stolen_at journals thread)
        (stamps ++ suspensions_at journals thread) result }
    ensures within { (last : ℕ) (journals : List (List EntryOf)) (n : ℕ) →
        AreTotalsOfEach last journals threads.now → n < MOST_THREADS → IsWithin n work →
        IsWithin (n + 1) result }
{
    match threads.get(thread) {
        Some(totals) => TaskWork {
            worked: work.worked.saturating_add(totals.work.worked),
            thefts: work.thefts.saturating_add(totals.work.thefts),
            suspensions: work.suspensions.saturating_add(totals.work.suspensions),
        },
        None => work,
    }
}

/// What the threads of a task did in their turns.
fn work_of_threads(config: &Config, threads: &[ThreadTotals], task: usize) -> TaskWork
    requires { task < length config.now.tasks }
    ensures { (last : ℕ) (journals : List (List EntryOf)) →
        AreTotalsOfEach last journals threads.now →
        AreWorkOf config.now last journals task result }
{
    config.limits();
    let (first, count) = config.threads_of(task);
    let mut work = TaskWork {
        worked: 0,
        thefts: 0,
        suspensions: 0,
    };
    for j in 0..count {
        work = with_work_of(work, threads, first + j);
    }
    work
}

impl EndedRun {
    /// That of a run on these arrivals, counted so, whose threads' turns came to this, and with whose
    /// threads these requests were left, each in thread order. Fails only when out of memory.
    pub fn of(
        alloc: Global,
        arrivals: &Arrivals,
        counted: &Counted,
        works: Vec<ThreadWork>,
        left: Listed<RequestList>,
    ) -> Result<EndedRun, AllocError>
        ensures clocks { IfOk result (λ run. AreClocksOf counted.now.came run.clocks) }
        ensures threads { IfOk result (λ run. (journals : List (List EntryOf)) →
            AllZip IsThreadWorkOf journals works.items →
            AreTotalsOfEach (run_end arrivals.now) journals run.threads.items) }
        ensures left { IfOk result (λ run. run.left ≡ left) }
    {
        let clocks = ArrivalClocks::of(alloc, counted.came.as_slice())?;
        let threads = end_works(alloc, works, run_end(arrivals))?;
        Ok(EndedRun {
            clocks,
            threads,
            left,
        })
    }

    /// What came of the requests of a task, counted so. Fails only when out of memory.
    pub fn requests_of(
        &self,
        alloc: Global,
        config: &Config,
        arrivals: &Arrivals,
        counted: &Counted,
        task: usize,
    ) -> Result<TaskRequests, AllocError>
        requires fits { FitsTable config.now arrivals.now }
        requires clocks { AreClocksOf counted.now.came self.now.clocks }
        requires task { task < length config.now.tasks }
        ensures { IfOk result (λ numbers. (journals : List (List EntryOf)) →
            AreTotalsOfEach (run_end arrivals.now) journals self.now.threads.items →
            AreRequestsOf config.now arrivals.now counted.now journals self.now.left task numbers) }
    {
        let requests = arrivals.requests.as_slice();
        let threads = self.threads.as_slice();
        let left = self.left.as_slice();
        let share = TaskShare {
            given: given_to(config, requests, task),
            served: services_of_threads(alloc, config, threads, task)?,
            left: task_left(alloc, config, left, task)?,
            work: work_of_threads(config, threads, task),
        };
        requests_of_share(alloc, arrivals, counted, &self.clocks, &share)
    }
}
