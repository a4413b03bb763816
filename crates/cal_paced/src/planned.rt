//! Arrivals for a run by a plan.

ghost use Rattle.std.specs.Prelude.{◌≡◌, IfErr, IfOk};
ghost use Rattle.cal_machine.specs.Table.{Table};
ghost use Rattle.cal_trace.specs.Arrivals.FitsTable.{FitsTable};
ghost use Rattle.cal_paced.specs.Planned.{AreGivenFor, ArePlannedOf, IsPlanFault, have_misses};

use crate::fault::PaceFault;
use crate::pacing::paced_arrivals;
use crate::plan::{Figure, Plan};
use cal_trace::{Arrival, Arrivals};
use std::alloc::Global;

/// These arrivals for a run by this plan: paced (`paced_arrivals`), as `paced_collected_by` and
/// `paced_end_by` take them.
///
/// `NoPlan` where no run can go by the plan, else `NoMisses` where its figures are those that the
/// threads show and no request has misses, else the faults of `paced_arrivals`.
pub fn planned_arrivals(
    alloc: Global,
    arrivals: Arrivals,
    plan: &Plan,
) -> Result<Arrivals, PaceFault>
    ensures planned { IfOk result (ArePlannedOf plan.now arrivals) }
    ensures given { IfOk result (AreGivenFor plan.now) }
    ensures fits { IfOk result (λ given.
        (table : Table) → FitsTable table arrivals → FitsTable table given) }
    ensures fault { IfErr result (IsPlanFault plan.now arrivals) }
{
    if !plan.is_plan() {
        return Err(PaceFault::NoPlan);
    }
    if plan.figure == Figure::Shown && !have_misses(arrivals.requests.as_slice()) {
        return Err(PaceFault::NoMisses);
    }
    paced_arrivals(alloc, arrivals, plan.pace)
}

/// Whether some request has misses.
pub fn have_misses(requests: &[Arrival]) -> bool
    ensures { result ≡ have_misses requests.now }
{
    for arrival in requests {
        if arrival.request.misses != 0 {
            return true;
        }
    }
    false
}
