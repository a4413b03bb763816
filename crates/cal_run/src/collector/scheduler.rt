//! A scheduler whose entries are collected beside it.

ghost use Rattle.std.specs.Prelude.{◌≡◌, ◌+◌, ◌<◌, [], IfOk, length};
ghost use Rattle.cal_run.specs.Parts.{HasPassed, scheduler_seat_of};
ghost use Rattle.cal_run.specs.Workers.{FitSomeTable};

use crate::rounds::passes::pass_given;
use cal_policy::PassEntry;
use cal_sched::BareScheduler;
use cal_trace::Arrivals;
use std::alloc::{AllocError, Global};
use std::marker::Model;

/// A scheduler that makes the passes that it is given, and the entries of these. It may be moved to
/// a thread of its own; no call of it waits. A contract sees the scheduler, whose history they are.
#[derive(Drop)]
pub struct CollectingScheduler {
    scheduler: BareScheduler,
    history: Vec<PassEntry>,
}

impl Model for CollectingScheduler {
    ghost use Rattle.std.specs.Prelude.{◌≡◌};
    ghost use Rattle.cal_sched.specs.Scheduler.{SchedulerView};

    ghost Value = { SchedulerView };

    ghost view = { λ c. c.scheduler };

    ghost invariant = { λ c. c.history.items ≡ c.scheduler.history };
}

impl CollectingScheduler {
    /// A scheduler that made no pass yet. Takes no memory.
    pub fn new(alloc: Global, scheduler: BareScheduler) -> CollectingScheduler
        requires { scheduler.history ≡ [] }
        ensures { result ≡ scheduler }
    {
        CollectingScheduler {
            scheduler,
            history: Vec::new(alloc),
        }
    }

    /// Pass `p` of those given, as `pass_given` makes it.
    pub fn pass_given(&mut self, arrivals: &Arrivals, p: usize) -> Result<(), AllocError>
        requires fits { FitSomeTable arrivals.now }
        requires given { p < length arrivals.now.passes }
        requires passed { HasPassed arrivals.now p self.old }
        ensures passed { IfOk result (λ _. HasPassed arrivals.now (p + 1) self.new) }
        ensures seat { scheduler_seat_of self.new ≡ scheduler_seat_of self.old }
    {
        self.history.reserve(1)?;
        let entry = pass_given(&mut self.scheduler, arrivals, p)?;
        self.history.push_reserved(entry);
        Ok(())
    }

    /// The scheduler, and the entries of its passes. Takes no memory.
    pub fn into_parts(self) -> (BareScheduler, Vec<PassEntry>)
        ensures scheduler { result.0 ≡ self }
        ensures history { result.1.items ≡ self.history }
    {
        let CollectingScheduler { scheduler, history } = self;
        (scheduler, history)
    }
}
