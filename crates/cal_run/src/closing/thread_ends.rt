//! The threads of a run end, once their turns are over.

ghost use Rattle.std.specs.Prelude.{◌≡◌, IfOk, length, map};
ghost use Rattle.cal_kthread.specs.End.Account.{IsAccounted, KeepsItsWork};
ghost use Rattle.cal_kthread.specs.End.HandingOut.{HandedOutNothing, run_of};
ghost use Rattle.cal_kthread.specs.Places.{Each};
ghost use Rattle.cal_kthread.specs.Team.{IsTeam, place_of_rest};
ghost use Rattle.cal_machine.specs.Tasks.{threads_in};
ghost use Rattle.cal_run.specs.Closing.{AreEndsOf, IsEndOf};

use crate::workers::worker::Worker;
use cal_kthread::{BareThreadEnd, RequestList, hand_out_all, settle};
use cal_machine::Config;
use std::alloc::{AllocError, Global};

/// The end of each thread, in thread order.
pub(crate) fn end_each(
    alloc: Global,
    workers: Vec<Worker>,
) -> Result<Vec<BareThreadEnd>, AllocError>
    ensures { IfOk result (λ ends. AreEndsOf workers.items ends.items) }
{
    let mut ends = Vec::new(alloc);
    for worker in workers {
        let end = end_one(worker);
        ends.push(end)?;
    }
    Ok(ends)
}

/// The end of one thread.
fn end_one(worker: Worker) -> BareThreadEnd
    ensures { IsEndOf worker result }
{
    let Worker { thread, .. } = worker;
    thread.end()
}

/// The ends of a team are settled, and what each thread had left is handed out, in thread order.
pub(crate) fn settle_and_hand_out(
    alloc: Global,
    config: &Config,
    ends: &mut [BareThreadEnd],
) -> Result<Vec<RequestList>, AllocError>
    requires count { length ends.old ≡ threads_in config.now.tasks }
    requires team { IsTeam (map (λ e. place_of_rest e.rest) ends.old) }
    requires work { Each KeepsItsWork ends.old }
    requires untouched { Each HandedOutNothing ends.old }
    ensures same { IfOk result (λ _. map run_of ends.new ≡ map run_of ends.old) }
    ensures count { IfOk result (λ lefts. length lefts.items ≡ length ends.old) }
    ensures account { IfOk result (λ lefts.
        IsAccounted (map (λ e. e.journal) ends.old) lefts.items) }
{
    settle(config, ends);
    hand_out_all(alloc, ends)
}
