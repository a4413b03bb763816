//! What the threads of a run do, taken while it is made.

ghost use Rattle.std.specs.Prelude.{◌≡◌, [], IfErr, IfOk, replicate};
ghost use Rattle.cal_machine.specs.TableTasks.{threads_of_table};
ghost use Rattle.cal_tables.specs.Planned.{IsFaultBy};
ghost use Rattle.cal_trace.specs.Arrivals.FitsTable.{FitsTable};
ghost use Rattle.cal_trace.specs.History.Ranges.{IsInRange};
ghost use Rattle.cal_trace.specs.History.Reading.{extent_of};
ghost use Rattle.cal_facts.specs.Replayed.{AreTurnsOfReplay};
ghost use Rattle.cal_facts.specs.WorkTurns.{AreTurnsOfRun};

use crate::turns::work::WorkTurn;
use crate::turns::working::works_below;
use cal_kthread::TurnEntries;
use cal_machine::Config;
use cal_measure::run_end;
use cal_paced::Plan;
use cal_policy::{Actions, PassEntry, Policy};
use cal_run::{Collected, Collector, OpenCollection, step_given};
use cal_sched::BareScheduler;
use cal_tables::{PlannedFault, ReplayedFault, collected_by, planned_for, replayed_by};
use cal_trace::Arrivals;
use std::alloc::{AllocError, Global};

/// What is taken of a run while it is made: the journals of its threads, and nothing of a pass.
#[derive(Drop)]
pub(crate) struct OpenTurns {
    /// The journals so far, with no pass.
    pub(crate) kept: OpenCollection,
    /// Room for the actions of a pass.
    pub(crate) actions: Actions,
}

impl OpenTurns {
    /// Of a run on this table in which nothing was made yet. Fails only when out of memory.
    fn open(alloc: Global, config: &Config) -> Result<OpenTurns, AllocError>
        ensures { IfOk result (λ taken.
            taken.kept.journals.items ≡ replicate (threads_of_table config.now) []) }
    {
        let kept = OpenCollection::new(alloc, config.threads())?;
        let actions = Actions::reserved(alloc)?;
        Ok(OpenTurns { kept, actions })
    }
}

impl Collector for OpenTurns {
    ghost use Rattle.std.specs.Prelude.{◌≡◌, ⊤};

    type Fault = AllocError;

    ghost holds = { λ taken history journals. taken.kept.journals.items ≡ journals };

    ghost suits = { λ taken table. ⊤ };

    fn make_pass(
        &mut self,
        scheduler: &mut BareScheduler,
        arrivals: &Arrivals,
        p: usize,
    ) -> Result<(), AllocError> {
        step_given(scheduler, arrivals, p, &mut self.actions);
        Ok(())
    }

    fn add_turn(&mut self, k: usize, entries: &TurnEntries) -> Result<(), AllocError> {
        self.kept.add_turn(k, entries)
    }
}

/// Makes a whole run by this policy, and by this plan or in lockstep, on one thread on these arrivals,
/// and tells the turns at work of its threads. The fault is `Memory`, or that of the plan on them.
pub(crate) fn turns_of_run(
    alloc: Global,
    config: &Config,
    policy: Policy,
    plan: Option<Plan>,
    arrivals: Arrivals,
) -> Result<Vec<WorkTurn>, PlannedFault>
    requires fits { FitsTable config.now arrivals }
    ensures turns { IfOk result (λ works.
        AreTurnsOfRun plan policy config.now arrivals works.items) }
    ensures fault { IfErr result (IsFaultBy plan arrivals) }
{
    let mut given = planned_for(alloc, plan, arrivals)?;
    let mut open = OpenTurns::open(alloc, config)?;
    let left = collected_by(alloc, config, policy, plan, &mut given, &mut open)?;
    let OpenTurns { kept, .. } = open;
    let Collected { journals, .. } = kept.close(alloc)?;
    let (threads, last) = (config.threads(), run_end(&given));
    let works = works_below(alloc, threads, last, journals.as_slice(), left.as_slice())?;
    Ok(works)
}

/// Makes a whole run whose passes are those of this history, by this plan or in lockstep, on one thread
/// on these arrivals, and tells the turns at work of its threads.
pub(crate) fn turns_of_replay(
    alloc: Global,
    config: &Config,
    plan: Option<Plan>,
    arrivals: Arrivals,
    history: &[PassEntry],
) -> Result<Vec<WorkTurn>, ReplayedFault>
    requires fits { FitsTable config.now arrivals }
    requires range { IsInRange (extent_of config.now) history.now }
    ensures { IfOk result (λ works.
        AreTurnsOfReplay plan config.now arrivals history.now works.items) }
{
    let mut given = planned_for(alloc, plan, arrivals)?;
    let mut open = OpenTurns::open(alloc, config)?;
    let left = replayed_by(alloc, config, plan, &mut given, history, &mut open)?;
    let OpenTurns { kept, .. } = open;
    let Collected { journals, .. } = kept.close(alloc)?;
    let (threads, last) = (config.threads(), run_end(&given));
    let works = works_below(alloc, threads, last, journals.as_slice(), left.as_slice())?;
    Ok(works)
}
