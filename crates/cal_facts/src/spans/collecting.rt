//! The spans and the bans of a run, gathered while it is made.

ghost use Rattle.std.specs.Prelude.{◌≡◌, [], IfOk};
ghost use Rattle.cal_facts.specs.Stretches.{Gathers};

use crate::spans::gathering::Gathering;
use cal_kthread::TurnEntries;
use cal_policy::Actions;
use cal_run::{Collector, step_given};
use cal_sched::BareScheduler;
use cal_trace::Arrivals;
use std::alloc::{AllocError, Global};

/// What is gathered of a run while it is made. A pass has no entry, and nothing of it is kept but
/// the spans and bans that it ends.
#[derive(Drop)]
pub(crate) struct OpenSpans {
    pub(crate) gathering: Gathering,
    /// Room for the actions of a pass.
    pub(crate) actions: Actions,
}

impl OpenSpans {
    /// Of a run in which nothing was made yet. Fails only when out of memory.
    pub(crate) fn open(alloc: Global) -> Result<OpenSpans, AllocError>
        ensures { IfOk result (λ taken. Gathers taken.gathering []) }
    {
        let actions = Actions::reserved(alloc)?;
        Ok(OpenSpans {
            gathering: Gathering::new(alloc),
            actions,
        })
    }
}

impl Collector for OpenSpans {
    ghost use Rattle.std.specs.Prelude.{⊤};
    ghost use Rattle.cal_facts.specs.Stretches.{Gathers};
    ghost use Rattle.cal_measure.specs.Spans.{moves_of};

    type Fault = AllocError;

    ghost holds = { λ taken history journals. Gathers taken.gathering (moves_of history) };

    ghost suits = { λ taken table. ⊤ };

    fn make_pass(
        &mut self,
        scheduler: &mut BareScheduler,
        arrivals: &Arrivals,
        p: usize,
    ) -> Result<(), AllocError> {
        step_given(scheduler, arrivals, p, &mut self.actions);
        self.gathering.note_pass(p, self.actions.as_slice())?;
        Ok(())
    }

    fn add_turn(&mut self, _k: usize, _entries: &TurnEntries) -> Result<(), AllocError> {
        Ok(())
    }
}
