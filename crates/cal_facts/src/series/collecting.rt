//! The series of a run, taken while it is made.

ghost use Rattle.std.specs.Prelude.{◌≡◌, [], IfErr, IfOk};
ghost use Rattle.cal_tables.specs.Planned.{IsFaultBy};
ghost use Rattle.cal_trace.specs.Arrivals.FitsTable.{FitsTable};
ghost use Rattle.cal_facts.specs.Series.{IsSeriesOfRun};

use crate::series::point::{MadePass, Point, put_points};
use cal_kthread::TurnEntries;
use cal_machine::Config;
use cal_paced::Plan;
use cal_policy::{Actions, Policy};
use cal_run::{Collector, step_given};
use cal_sched::BareScheduler;
use cal_tables::{PlannedFault, collected_by, planned_for};
use cal_trace::Arrivals;
use std::alloc::{AllocError, Global};

/// What is taken of a run while it is made. A pass has no entry, and its state is the scheduler's.
#[derive(Drop)]
pub(crate) struct OpenSeries {
    /// The table of the run.
    pub(crate) config: Config,
    /// What its passes so far found and left.
    pub(crate) points: Vec<Point>,
    /// Room for the actions of a pass.
    pub(crate) actions: Actions,
}

impl OpenSeries {
    /// Of a run on this table in which nothing was made yet. Fails only when out of memory.
    fn open(alloc: Global, config: &Config) -> Result<OpenSeries, AllocError>
        ensures table { IfOk result (λ taken. taken.config ≡ config.now) }
        ensures nothing { IfOk result (λ taken. taken.points.items ≡ []) }
    {
        let actions = Actions::reserved(alloc)?;
        let config = config.copy(alloc)?;
        Ok(OpenSeries {
            config,
            points: Vec::new(alloc),
            actions,
        })
    }
}

impl Collector for OpenSeries {
    ghost use Rattle.std.specs.Prelude.{◌≡◌};
    ghost use Rattle.cal_facts.specs.Series.{series_of};

    type Fault = AllocError;

    ghost holds = { λ taken history journals.
        taken.points.items ≡ series_of taken.config history };

    ghost suits = { λ taken table. taken.config ≡ table };

    fn make_pass(
        &mut self,
        scheduler: &mut BareScheduler,
        arrivals: &Arrivals,
        p: usize,
    ) -> Result<(), AllocError> {
        step_given(scheduler, arrivals, p, &mut self.actions);
        let given = arrivals.passes.as_slice()[p];
        let made = MadePass { pass: p, given };
        put_points(&self.config, scheduler.board(), made, &mut self.points)?;
        Ok(())
    }

    fn add_turn(&mut self, _k: usize, _entries: &TurnEntries) -> Result<(), AllocError> {
        Ok(())
    }
}

/// Makes a whole run by this policy, and by this plan or in lockstep, on one thread on these arrivals,
/// and takes its series while it is made. The fault is `Memory`, or that of the plan on them.
pub(crate) fn series_of_run(
    alloc: Global,
    config: &Config,
    policy: Policy,
    plan: Option<Plan>,
    arrivals: Arrivals,
) -> Result<Vec<Point>, PlannedFault>
    requires fits { FitsTable config.now arrivals }
    ensures points { IfOk result (λ points.
        IsSeriesOfRun plan policy config.now arrivals points.items) }
    ensures fault { IfErr result (IsFaultBy plan arrivals) }
{
    let mut given = planned_for(alloc, plan, arrivals)?;
    let mut open = OpenSeries::open(alloc, config)?;
    collected_by(alloc, config, policy, plan, &mut given, &mut open)?;
    let OpenSeries { points, .. } = open;
    Ok(points)
}
