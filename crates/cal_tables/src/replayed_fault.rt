//! Why there is nothing to tell of a run whose passes are a history's.

use crate::asked_fault::AskedFault;
use crate::planned::PlannedFault;
use cal_came::CountFault;
use cal_input::RunFault;
use cal_replay::{ReplayFault, Stopped};
use cal_trace::{FaultKind, TraceFault};
use std::alloc::AllocError;

/// Why there is nothing to tell of a run whose passes are a history's.
#[derive(Clone, Copy, Debug, PartialEq, Eq)]
pub enum ReplayedFault {
    /// Of the run there would be nothing to tell either.
    Asked(AskedFault),
    /// The history is not one for the table of the input.
    History(TraceFault),
    /// The history is not replayed.
    Replay(ReplayFault),
}

impl From<RunFault> for ReplayedFault {
    fn from(fault: RunFault) -> ReplayedFault {
        ReplayedFault::Asked(AskedFault::Run(fault))
    }
}

impl From<AllocError> for ReplayedFault {
    fn from(_e: AllocError) -> ReplayedFault {
        ReplayedFault::Asked(AskedFault::Run(RunFault::Memory))
    }
}

impl From<PlannedFault> for ReplayedFault {
    fn from(fault: PlannedFault) -> ReplayedFault {
        ReplayedFault::Asked(AskedFault::from(fault))
    }
}

impl From<CountFault> for ReplayedFault {
    fn from(fault: CountFault) -> ReplayedFault {
        ReplayedFault::Asked(AskedFault::from(fault))
    }
}

/// Out of memory is `Asked`, and never `History`.
impl From<TraceFault> for ReplayedFault {
    fn from(fault: TraceFault) -> ReplayedFault {
        match fault.kind {
            FaultKind::Memory => ReplayedFault::Asked(AskedFault::Run(RunFault::Memory)),
            _ => ReplayedFault::History(fault),
        }
    }
}

impl From<Stopped<AllocError>> for ReplayedFault {
    fn from(stopped: Stopped<AllocError>) -> ReplayedFault {
        match stopped {
            Stopped::Refused(fault) => ReplayedFault::Replay(fault),
            Stopped::Collector(AllocError) => {
                ReplayedFault::Asked(AskedFault::Run(RunFault::Memory))
            }
        }
    }
}
