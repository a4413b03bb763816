//! What the kernel threads of a run did, counted while it is made.

ghost use Rattle.std.specs.Prelude.{◌≡◌, List, IfOk, length, replicate, ⊤};
ghost use Rattle.std.specs.List.{AllZip};
ghost use Rattle.cal_trace.specs.Report.Summary.{IsTallyOf};
ghost use Rattle.cal_trace.specs.declared.report.tally.TheConstants.Tally.{NONE};

use crate::collector::Collector;
use crate::rounds::passes::step_given;
use cal_kthread::TurnEntries;
use cal_policy::Actions;
use cal_sched::BareScheduler;
use cal_trace::{Arrivals, Tally};
use std::alloc::{AllocError, Global};

/// What each kernel thread did so far, counted, in thread order. Passes are made without an entry,
/// so its memory does not grow with a run.
#[derive(Drop)]
pub(crate) struct Tallies {
    pub(crate) tallies: Vec<Tally>,
    /// Room for the actions of a pass.
    pub(crate) actions: Actions,
}

impl Tallies {
    /// Nothing so far, of so many threads.
    pub(crate) fn new(alloc: Global, threads: usize) -> Result<Tallies, AllocError>
        ensures { IfOk result (λ all. all.tallies.items ≡ replicate threads NONE) }
    {
        let actions = Actions::reserved(alloc)?;
        let mut tallies = Vec::new(alloc);
        for _ in 0..threads {
            tallies.push(Tally::NONE)?;
        }
        Ok(Tallies { tallies, actions })
    }
}

impl Collector for Tallies {
    type Fault = AllocError;

    ghost holds = { λ all history journals. AllZip IsTallyOf journals all.tallies.items };

    ghost suits = { λ all table. ⊤ };

    fn make_pass(
        &mut self,
        scheduler: &mut BareScheduler,
        arrivals: &Arrivals,
        p: usize,
    ) -> Result<(), AllocError> {
        step_given(scheduler, arrivals, p, &mut self.actions);
        Ok(())
    }

    fn add_turn(&mut self, k: usize, entries: &TurnEntries) -> Result<(), AllocError> {
        if k >= self.tallies.len() {
            return Ok(());
        }
        self.tallies[k].add_turn(entries);
        Ok(())
    }
}
