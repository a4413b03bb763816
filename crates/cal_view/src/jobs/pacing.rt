//! What the program says of a run by a plan.

ghost use Rattle.std.specs.Prelude.{◌≡◌};

use crate::jobs::input::JobInput;
use cal_input::{RunFault, read_parts, status};
use cal_paced::{PaceFault, have_misses};
use cal_tables::PlannedFault;
use cal_trace::{FaultKind, read_arrivals};
use std::alloc::Global;
use std::io::Write;

/// Ends a job that wrote of a run by a plan, and answers the exit status. Where the plan or the
/// arrivals are refused for it, one line says why.
pub fn end_paced<E: Write>(
    wrote: Result<(), PlannedFault>,
    errors: &mut E,
) -> Result<u8, RunFault> {
    match wrote {
        Ok(()) => Ok(0),
        Err(PlannedFault::Run(fault)) => Err(fault),
        Err(PlannedFault::Pace(fault)) => Ok(refuse_plan(fault, errors)),
    }
}

/// Says why there is no run by a plan, and answers the exit status, 2.
pub fn refuse_plan<E: Write>(fault: PaceFault, errors: &mut E) -> u8
    ensures { result ≡ 2 }
{
    let _ = writeln!(errors, "caladan_view: no run by this plan: {fault}");
    2
}

/// Says that memory bears all misses of an input, where its plan bounds them and none of its requests
/// has any, and answers the exit status, 2. The fault is `Memory`; of an input that is refused nothing
/// is said.
pub fn refuse_memory<E: Write>(
    input: &JobInput<'_>,
    errors: &mut E,
) -> Result<Option<u8>, RunFault> {
    let is_bounded = match input.plan {
        Some(plan) => plan.memory.is_some(),
        None => false,
    };
    if is_bounded && has_no_misses(input.alloc, input.bytes())? {
        Ok(Some(refuse_no_misses(errors)))
    } else {
        Ok(None)
    }
}

/// Says that memory has no misses to bear, and answers the exit status, 2.
pub fn refuse_no_misses<E: Write>(errors: &mut E) -> u8
    ensures { result ≡ 2 }
{
    let _ = writeln!(
        errors,
        "caladan_view: no run by this plan: no request has misses that memory could bear"
    );
    2
}

/// Whether an input has arrivals of which no request has misses. The fault is `Memory`.
fn has_no_misses(alloc: Global, input: &[u8]) -> Result<bool, RunFault> {
    let (table, trace) = match read_parts(alloc, input) {
        Ok(parts) => parts,
        Err(fault) if status(&fault) != 2 => return Err(RunFault::Memory),
        Err(_) => return Ok(false),
    };
    match read_arrivals(alloc, &table, trace) {
        Ok(arrivals) => Ok(!have_misses(arrivals.requests.as_slice())),
        Err(fault) if fault.kind == FaultKind::Memory => Err(RunFault::Memory),
        Err(_) => Ok(false),
    }
}
