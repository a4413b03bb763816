//! The scheduler that is timed, with or without a history.

use cal_policy::{Actions, PassEntry};
use cal_sched::{BareScheduler, PassFault};
use std::alloc::{AllocError, Global};

/// The scheduler that is timed.
#[derive(Drop)]
pub enum Timed {
    /// The entry of each pass is kept.
    Kept(BareScheduler, Vec<PassEntry>),
    /// It makes no entry, and puts its actions into the list.
    Bare(BareScheduler, Actions),
}

impl Timed {
    /// This scheduler, with its history or without. Fails only when out of memory.
    pub fn of(alloc: Global, scheduler: BareScheduler, keeps: bool) -> Result<Timed, AllocError> {
        if keeps {
            return Ok(Timed::Kept(scheduler, Vec::new(alloc)));
        }
        let actions = Actions::reserved(alloc)?;
        Ok(Timed::Bare(scheduler, actions))
    }

    /// One pass, at this clock and a bandwidth figure of 0.
    pub fn pass(&mut self, now: u64) -> Result<(), PassFault> {
        match self {
            Timed::Kept(scheduler, history) => {
                history.reserve(1)?;
                history.push_reserved(scheduler.pass(now, 0)?);
                Ok(())
            }
            Timed::Bare(scheduler, actions) => scheduler.step(now, 0, actions),
        }
    }

    /// How many actions the last pass made.
    pub fn last_actions(&self) -> u64 {
        match self {
            Timed::Kept(_, history) => match history.last() {
                Some(entry) => entry.actions.as_slice().len() as u64,
                None => 0,
            },
            Timed::Bare(_, actions) => actions.as_slice().len() as u64,
        }
    }
}
