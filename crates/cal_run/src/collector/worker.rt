//! A kernel thread of a run whose journal is collected beside it.

ghost use Rattle.std.specs.Prelude.{◌≡◌, ◌+◌, ◌<◌, [], IfOk, length};
ghost use Rattle.cal_run.specs.Workers.{FitSomeTable, HasMade, journals_of, seat_of};

use crate::collector::open_journal::OpenJournal;
use crate::workers::worker::Worker;
use cal_kthread::Journal;
use cal_trace::Arrivals;
use std::alloc::{AllocError, Global};
use std::marker::Model;

/// A kernel thread that makes the turns that it is given, and its journal. It may be moved to a
/// thread of its own; no call of it waits. A contract sees the kernel thread, whose journal it is.
#[derive(Drop)]
pub struct CollectingWorker {
    worker: Worker,
    journal: OpenJournal,
}

impl Model for CollectingWorker {
    ghost use Rattle.std.specs.Prelude.{◌≡◌};
    ghost use Rattle.cal_run.specs.declared.workers.worker.Worker.{Worker as WorkerOf};

    ghost Value = { WorkerOf };

    ghost view = { λ c. c.worker };

    ghost invariant = { λ c. c.journal ≡ c.worker.thread.journal };
}

impl CollectingWorker {
    /// A kernel thread that made no turn yet. Takes no memory.
    pub fn new(alloc: Global, worker: Worker) -> CollectingWorker
        requires { worker.thread.journal ≡ [] }
        ensures { result ≡ worker }
    {
        CollectingWorker {
            worker,
            journal: OpenJournal::new(alloc),
        }
    }

    /// The same after its turn `j`, as of a `Worker`. Where memory is refused, it is let go of.
    pub fn turn(self, arrivals: &Arrivals, j: usize) -> Result<CollectingWorker, AllocError>
        requires fits { FitSomeTable arrivals.now }
        requires given { j < length arrivals.now.turns }
        requires made { HasMade arrivals.now self.number j self }
        ensures made { IfOk result (HasMade arrivals.now self.number (j + 1)) }
        ensures seat { IfOk result (λ after. seat_of after.thread ≡ seat_of self.thread) }
    {
        let CollectingWorker {
            mut worker,
            mut journal,
        } = self;
        let entries = worker.turn(arrivals, j)?;
        journal.add_turn(&entries)?;
        Ok(CollectingWorker { worker, journal })
    }

    /// The kernel thread, and its journal. Takes no memory.
    pub fn into_parts(self) -> (Worker, Journal)
        ensures worker { result.0 ≡ self }
        ensures journal { result.1 ≡ self.thread.journal }
    {
        let CollectingWorker { worker, journal } = self;
        (worker, journal.close())
    }
}

/// The kernel threads, and the journal of each, in the same order. Fails only when out of memory.
pub fn split_workers(
    alloc: Global,
    workers: Vec<CollectingWorker>,
) -> Result<(Vec<Worker>, Vec<Journal>), AllocError>
    ensures workers { IfOk result (λ split. split.0.items ≡ workers.items) }
    ensures journals { IfOk result (λ split. split.1.items ≡ journals_of workers.items) }
{
    let mut bare = Vec::new(alloc);
    let mut journals = Vec::new(alloc);
    for worker in workers {
        let parts = worker.into_parts();
        bare.push(parts.0)?;
        journals.push(parts.1)?;
    }
    Ok((bare, journals))
}
