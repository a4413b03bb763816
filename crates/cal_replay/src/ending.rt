//! The parts of a replay are opened and ended.

ghost use Rattle.std.specs.Prelude.{◌≡◌, [], List, IfOk, length, map};
ghost use Rattle.cal_policy.specs.declared.history.entry.PassEntry.{PassEntry as EntryOf};
ghost use Rattle.cal_run.specs.Outcome.{figures_of};
ghost use Rattle.cal_run.specs.Workers.{journals_of};
ghost use Rattle.cal_trace.specs.Arrivals.FitsTable.{FitsTable};
ghost use Rattle.cal_replay.specs.Parts.{AreReplayParts};
ghost use Rattle.cal_replay.specs.Replays.{IsReplay};

use crate::replayer::Replayer;
use cal_kthread::RequestList;
use cal_machine::{Config, Listed};
use cal_policy::Policy;
use cal_run::{Parts, Worker, close_threads, given_stand_once, open_unwatched_by};
use cal_sched::{BareEnd, Watch};
use cal_trace::Arrivals;
use std::alloc::{AllocError, Global};

/// The parts of a replay: what makes its passes, its kernel threads, and the other ends of the
/// threads' pages, which nobody looks at.
#[derive(Drop)]
pub(crate) struct ReplayParts {
    /// What makes the passes.
    pub(crate) replayer: Replayer,
    /// The kernel threads, in thread order.
    pub(crate) workers: Vec<Worker>,
    /// The watch, which makes no round.
    pub(crate) watch: Watch,
}

/// The parts of a replay on these arrivals, in which nothing was made yet. Fails only when out of
/// memory.
pub(crate) fn open_replay(
    alloc: Global,
    config: &Config,
    arrivals: &Arrivals,
) -> Result<ReplayParts, AllocError>
    requires fits { FitsTable config.now arrivals.now }
    ensures parts { IfOk result (AreReplayParts config.now arrivals.now [] 0) }
{
    let Ok(parts) = open_unwatched_by(alloc, config, Policy::Caladan, arrivals) else {
        return Err(AllocError);
    };
    let Parts {
        scheduler,
        workers,
        watch,
    } = parts;
    let BareEnd {
        observers,
        senders,
        ..
    } = scheduler.end();
    let replayer = Replayer::new(alloc, config, observers, senders)?;
    Ok(ReplayParts {
        replayer,
        workers,
        watch,
    })
}

/// Ends the threads, and closes their pages and rings. Gives what each had left, in thread order.
/// Fails only when out of memory.
pub(crate) fn end_replay(
    alloc: Global,
    config: &Config,
    arrivals: &Arrivals,
    parts: ReplayParts,
) -> Result<Listed<RequestList>, AllocError>
    requires fits { FitsTable config.now arrivals.now }
    requires some { (history : List EntryOf) × AreReplayParts config.now arrivals.now history
        (length arrivals.now.turns) parts }
    ensures { (history : List EntryOf) → AreReplayParts config.now arrivals.now history
        (length arrivals.now.turns) parts → map figures_of history ≡ arrivals.now.passes →
        IfOk result (IsReplay config.now arrivals.now history (journals_of parts.workers.items)) }
{
    let _ = arrivals;
    config.limits();
    given_stand_once();
    let ReplayParts {
        replayer,
        workers,
        watch,
    } = parts;
    let Replayer {
        observers,
        senders,
        ..
    } = replayer;
    let (watchers, _rounds) = watch.end();
    let left = close_threads(alloc, config, workers, observers, watchers, senders)?;
    Ok(Listed::new(left))
}
