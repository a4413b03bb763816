//! The threads of a team are ended.
ghost use Rattle.std.specs.Prelude.{◌≡◌, map, length, IfOk};
ghost use Rattle.cal_kthread.specs.End.Account.{KeepsItsWork};
ghost use Rattle.cal_kthread.specs.End.HandingOut.{HandedOutNothing};
ghost use Rattle.cal_kthread.specs.Places.{Each};
ghost use Rattle.cal_kthread.specs.Team.{IsTeam, place_of, place_of_rest};

use crate::end::kernel_end::KernelEnd;
use crate::kernel_thread::KernelThread;
use std::alloc::{AllocError, Global};

/// Ends each thread of a team after its last turn, in thread order: the ends are a team still, as
/// `settle` and then `hand_out_all` ask. Fails only when out of memory; the threads are gone then.
pub fn end_all(alloc: Global, threads: Vec<KernelThread>) -> Result<Vec<KernelEnd>, AllocError>
    requires { IsTeam (map (λ t. place_of t.thread) threads.items) }
    ensures team { IfOk result (λ ends. IsTeam (map (λ e. place_of_rest e.rest) ends.items)) }
    ensures count { IfOk result (λ ends. length ends.items ≡ length threads.items) }
    ensures journals { IfOk result (λ ends.
        map (λ e. e.journal) ends.items ≡ map (λ t. t.journal) threads.items) }
    ensures work { IfOk result (λ ends. Each KeepsItsWork ends.items) }
    ensures untouched { IfOk result (λ ends. Each HandedOutNothing ends.items) }
{
    let mut ends = Vec::new(alloc);
    for thread in threads {
        ends.push(thread.end())?;
    }
    Ok(ends)
}
