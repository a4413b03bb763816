//! Why a history is not replayed.

ghost use Rattle.std.specs.Prelude.{◌≡◌};
ghost use Rattle.cal_replay.specs.declared.fault.Stopped.TheVariants.{Collector};

use crate::unlike::Unlike;
use cal_guard::Refused;
use std::alloc::AllocError;
use thiserror::Error;

/// Why a pass of a history is not replayed: the first reason, in the order of its clock, its figure,
/// its looks with their answers on room, and its actions.
#[derive(Clone, Copy, Debug, PartialEq, Eq, Error)]
pub enum PassFault {
    /// Its clock is not the one that the run has.
    #[error("now is {told}, and the run has {given}")]
    Now {
        /// That of the history.
        told: u64,
        /// That of the run.
        given: u64,
    },
    /// Its bandwidth figure is not the one that the run has.
    #[error("bandwidth is {told}, and the run has {given}")]
    Bandwidth {
        /// That of the history.
        told: u64,
        /// That of the run.
        given: u64,
    },
    /// What it found of this thread is not so.
    #[error("thread {thread}: {unlike}")]
    Unlike {
        /// The thread.
        thread: usize,
        /// What is not so.
        unlike: Unlike,
    },
    /// Its looks do not fit those before, or are not judged as they are told.
    #[error("its looks do not fit those before")]
    Unfit,
    /// An action is not permitted.
    #[error("{refused}")]
    Refused {
        /// Which, and why.
        refused: Refused,
    },
}

/// Why a history is not replayed.
#[derive(Clone, Copy, Debug, PartialEq, Eq, Error)]
pub enum ReplayFault {
    /// It has more passes than the run, or fewer.
    #[error("{told} passes, and the run has {given}")]
    Passes {
        /// How many it has.
        told: usize,
        /// And the run.
        given: usize,
    },
    /// This pass is the first that is not so.
    #[error("pass {pass}: {fault}")]
    Pass {
        /// The pass, from 0.
        pass: usize,
        /// Why.
        fault: PassFault,
    },
}

/// Why a replay came to no end.
#[derive(Drop)]
pub enum Stopped<F> {
    /// The history is not replayed.
    Refused(ReplayFault),
    /// The collector took no more, or memory was refused.
    Collector(F),
}

impl From<AllocError> for Stopped<AllocError> {
    ghost from_gives = { λ e stopped. stopped ≡ Collector e };

    fn from(e: AllocError) -> Stopped<AllocError> {
        Stopped::Collector(e)
    }
}
