//! The ends of a team hand out what their threads had left.
ghost use Rattle.std.specs.Prelude.{◌≡◌, map, IfOk};
ghost use Rattle.cal_kthread.specs.End.Account.{IsAccounted, IsDrained, IsSettled};
ghost use Rattle.cal_kthread.specs.End.HandingOut.{HandedOutNothing, HandsOutSome, left_of, run_of};
ghost use Rattle.cal_kthread.specs.Places.{Each};
ghost use Rattle.cal_kthread.specs.Queue.Rule.{queue_shares};

use crate::end::kernel_end::ThreadEnd;
use crate::end::request_list::RequestList;
use crate::journal::kept::Kept;
use std::alloc::{AllocError, Global};

/// The requests that each thread of a team had left, in thread order: all that its `left` hands out
/// up to None. Asks for ends that `settle` has settled, of which nothing was handed out before.
/// With the journals they are the team's account.
///
/// Fails only when out of memory; what was handed out by then is gone. Either way an end keeps its
/// number, its journal and its ends of its page and its ring.
pub fn hand_out_all<J: Kept>(
    alloc: Global,
    ends: &mut [ThreadEnd<J>],
) -> Result<Vec<RequestList>, AllocError>
    requires settled { IsSettled ends.old }
    requires untouched { Each HandedOutNothing ends.old }
    ensures same { map run_of ends.new ≡ map run_of ends.old }
    ensures lists { IfOk result (λ lefts. lefts.items ≡ map left_of ends.new) }
    ensures account { IfOk result (λ lefts.
        IsAccounted (map (λ e. e.journal) ends.new) lefts.items) }
{
    let mut lefts = Vec::new(alloc);
    for k in 0..ends.len() {
        let left = hand_out(alloc, &mut ends[k])?;
        lefts.push(left)?;
    }
    Ok(lefts)
}

/// The requests that one thread had left.
fn hand_out<J: Kept>(alloc: Global, end: &mut ThreadEnd<J>) -> Result<RequestList, AllocError>
    requires shares { end.old.rest.queue.shares ≡ queue_shares }
    requires untouched { HandedOutNothing end.old }
    ensures same { run_of end.new ≡ run_of end.old }
    ensures moved { HandsOutSome end.old.rest end.new.rest }
    ensures list { IfOk result (λ list. list ≡ left_of end.new) }
    ensures drained { IfOk result (λ _. IsDrained end.new) }
{
    let mut requests = Vec::new(alloc);
    while let Some(request) = end.left() {
        requests.push(request)?;
    }
    Ok(RequestList::new(requests))
}
