//! Why there is nothing to tell of an input.

ghost use Rattle.std.specs.Prelude.{◌≡◌};

use crate::planned::PlannedFault;
use cal_came::CountFault;
use cal_input::RunFault;
use cal_paced::PaceFault;
use std::alloc::AllocError;

/// Why there is nothing to tell of an input.
#[derive(Clone, Copy, Debug, PartialEq, Eq)]
pub enum AskedFault {
    /// The input is refused, or memory, or the writer.
    Run(RunFault),
    /// The arrivals of the input, or the plan, are refused.
    Pace(PaceFault),
    /// Its requests cannot be counted as it is asked for.
    Count(CountFault),
}

impl From<RunFault> for AskedFault {
    ghost use Rattle.cal_tables.specs.declared.asked_fault.AskedFault.TheVariants.{Run};

    ghost from_gives = { λ fault e. e ≡ Run fault };

    fn from(fault: RunFault) -> AskedFault {
        AskedFault::Run(fault)
    }
}

impl From<AllocError> for AskedFault {
    ghost use Rattle.cal_input.specs.declared.fault.RunFault.TheVariants.{Memory};
    ghost use Rattle.cal_tables.specs.declared.asked_fault.AskedFault.TheVariants.{Run};

    ghost from_gives = { λ _ e. e ≡ Run Memory };

    fn from(_e: AllocError) -> AskedFault {
        AskedFault::Run(RunFault::Memory)
    }
}

impl From<PlannedFault> for AskedFault {
    ghost use Rattle.cal_tables.specs.Measuring.{fault_of_planned};

    ghost from_gives = { λ fault e. e ≡ fault_of_planned fault };

    fn from(fault: PlannedFault) -> AskedFault {
        match fault {
            PlannedFault::Run(fault) => AskedFault::Run(fault),
            PlannedFault::Pace(fault) => AskedFault::Pace(fault),
        }
    }
}

/// Out of memory is `Run`, and never `Count`.
impl From<CountFault> for AskedFault {
    ghost use Rattle.cal_tables.specs.Measuring.{fault_of_count};

    ghost from_gives = { λ fault e. e ≡ fault_of_count fault };

    fn from(fault: CountFault) -> AskedFault {
        match fault {
            CountFault::Memory => AskedFault::Run(RunFault::Memory),
            fault => AskedFault::Count(fault),
        }
    }
}
