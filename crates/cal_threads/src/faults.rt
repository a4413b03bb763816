//! Of several faults the one that is answered.

ghost use Rattle.std.specs.Prelude.{◌≡◌, Ok, IfOk, IfErr};
ghost use Rattle.cal_threads.specs.Faults.{IsFaultOf, IsLeast};

use cal_run::SimFault;

/// The one of the two that has the least number.
pub(crate) fn least(fault: SimFault, other: SimFault) -> SimFault
    ensures { IsLeast fault other result }
{
    match (fault, other) {
        (SimFault::Memory, _) | (_, SimFault::Memory) => SimFault::Memory,
        (SimFault::Spawn, _) | (_, SimFault::Spawn) => SimFault::Spawn,
        (SimFault::Gate, SimFault::Gate) => SimFault::Gate,
    }
}

/// The two values; if either failed, the fault with the least number.
pub(crate) fn both_or_least_fault<A: Drop, B: Drop>(
    a: Result<A, SimFault>,
    b: Result<B, SimFault>,
) -> Result<(A, B), SimFault>
    ensures values { IfOk result (λ r. (a ≡ Ok r.0) × (b ≡ Ok r.1)) }
    ensures fault { IfErr result (IsFaultOf a b) }
{
    match (a, b) {
        (Ok(a), Ok(b)) => Ok((a, b)),
        (Ok(_), Err(fault)) | (Err(fault), Ok(_)) => Err(fault),
        (Err(fault), Err(other)) => Err(least(fault, other)),
    }
}
