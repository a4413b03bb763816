//! What the turns of a kernel thread that have ended came to.

ghost use Rattle.std.specs.Prelude.{◌≡◌, ◌+◌, ◌<◌, ◌^◌, ◌++◌, ◌∷◌, [], List, OnOk, length};
ghost use Rattle.cal_measure.specs.Ends.{timed_by};
ghost use Rattle.cal_measure.specs.ThreadWork.{IsWorkOfEnded};
ghost use Rattle.cal_measure.specs.declared.ends.TimedTurn.{TimedTurn as TimedOf};

use crate::ends::{TimedTurn, with_end};
use crate::services::{Service, begun_after, put_one, service_by, worked_after};
use crate::thread_work::totals::{ThreadTotals, added};
use crate::turns::Turn;
use crate::work::{TaskWork, time_worked};
use std::alloc::{AllocError, Global};

/// What the turns of a kernel thread that have ended came to. Times are in clock ticks.
#[derive(Drop)]
pub struct EndedTurns {
    /// When the request at work was begun, if there is one.
    pub begun: Option<u64>,
    /// For how long it was worked at.
    pub so_far: u64,
    /// The requests that were served, in order.
    pub services: Vec<Service>,
    /// How long the turns that worked lasted, together.
    pub worked: u128,
}

impl EndedTurns {
    /// Of no turns. Takes no memory.
    pub(crate) fn none(alloc: Global) -> EndedTurns
        ensures { IsWorkOfEnded [] result }
    {
        EndedTurns {
            begun: None,
            so_far: 0,
            services: Vec::new(alloc),
            worked: 0,
        }
    }

    /// Takes one turn more, if there is one, told its thread's next one and the run's last clock.
    /// Fails only when out of memory.
    pub(crate) fn take(
        &mut self,
        last: u64,
        turn: Option<Turn>,
        next: Option<Turn>,
    ) -> Result<(), AllocError>
        ensures { (turns : List TimedOf) → length turns + 1 < 2 ^ 64 → IsWorkOfEnded turns self.old →
            OnOk result (IsWorkOfEnded (turns ++ timed_by last turn next) self.new) }
    {
        match turn {
            None => Ok(()),
            Some(turn) => self.take_ended(with_end(last, turn, next)),
        }
    }

    /// What they came to, where so many requests were stolen and suspended meanwhile. Takes no
    /// memory.
    pub(crate) fn totals(self, thefts: usize, suspensions: usize) -> ThreadTotals
        ensures services { result.services.items ≡ self.services.items }
        ensures worked { result.work.worked ≡ self.worked }
        ensures thefts { result.work.thefts ≡ thefts }
        ensures suspensions { result.work.suspensions ≡ suspensions }
    {
        let EndedTurns {
            services,
            worked,
            ..
        } = self;
        ThreadTotals {
            services,
            work: TaskWork {
                worked,
                thefts,
                suspensions,
            },
        }
    }

    /// Takes one turn more, which has ended.
    fn take_ended(&mut self, turn: TimedTurn) -> Result<(), AllocError>
        ensures { (turns : List TimedOf) → length turns + 1 < 2 ^ 64 → IsWorkOfEnded turns self.old →
            OnOk result (IsWorkOfEnded (turns ++ turn ∷ []) self.new) }
    {
        put_one(
            &mut self.services,
            service_by(self.begun, self.so_far, turn),
        )?;
        self.begun = begun_after(self.begun, turn);
        self.so_far = worked_after(self.so_far, turn);
        self.worked = added(self.worked, time_worked(turn));
        Ok(())
    }
}
