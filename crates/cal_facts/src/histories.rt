//! The history of a run.

ghost use Rattle.std.specs.Prelude.{◌≡◌, IfErr, IfOk};
ghost use Rattle.cal_facts.specs.Histories.{IsAskedHistory, IsHistoryOfRun};
ghost use Rattle.cal_input.specs.Parts.{run_input_of};
ghost use Rattle.cal_tables.specs.Asked.{asked_run};
ghost use Rattle.cal_tables.specs.Planned.{DecidedBy, IsFaultBy};
ghost use Rattle.cal_trace.specs.Arrivals.FitsTable.{FitsTable};

use cal_input::run_input;
use cal_kthread::TurnEntries;
use cal_machine::Config;
use cal_paced::Plan;
use cal_policy::{PassEntry, Policy};
use cal_run::{Collector, pass_given};
use cal_sched::BareScheduler;
use cal_tables::{PlannedFault, collected_by, planned_for};
use cal_trace::Arrivals;
use std::alloc::{AllocError, Global};

/// The passes of a run while it is made, and nothing of its turns.
#[derive(Drop)]
pub(crate) struct OpenHistory {
    /// The passes so far.
    pub(crate) passes: Vec<PassEntry>,
}

impl Collector for OpenHistory {
    ghost use Rattle.std.specs.Prelude.{◌≡◌, ⊤};

    type Fault = AllocError;

    ghost holds = { λ taken history journals. taken.passes.items ≡ history };

    ghost suits = { λ taken table. ⊤ };

    fn make_pass(
        &mut self,
        scheduler: &mut BareScheduler,
        arrivals: &Arrivals,
        p: usize,
    ) -> Result<(), AllocError> {
        let entry = pass_given(scheduler, arrivals, p)?;
        self.passes.push(entry)?;
        Ok(())
    }

    fn add_turn(&mut self, _k: usize, _entries: &TurnEntries) -> Result<(), AllocError> {
        Ok(())
    }
}

/// The task table of an input, and the history of the run that it asks for.
#[derive(Drop)]
pub struct RunHistory {
    /// The task table.
    pub config: Config,
    /// The passes, the first one first.
    pub passes: Vec<PassEntry>,
}

/// Makes a whole run by this policy, and by this plan or in lockstep, on one thread on these arrivals,
/// and keeps its passes. The fault is `Memory`, or that of the plan on them.
fn passes_of_run(
    alloc: Global,
    config: &Config,
    policy: Policy,
    plan: Option<Plan>,
    arrivals: Arrivals,
) -> Result<Vec<PassEntry>, PlannedFault>
    requires fits { FitsTable config.now arrivals }
    ensures passes { IfOk result (λ passes.
        IsHistoryOfRun plan policy config.now arrivals passes.items) }
    ensures fault { IfErr result (IsFaultBy plan arrivals) }
{
    let mut given = planned_for(alloc, plan, arrivals)?;
    let mut open = OpenHistory {
        passes: Vec::new(alloc),
    };
    collected_by(alloc, config, policy, plan, &mut given, &mut open)?;
    let OpenHistory { passes } = open;
    Ok(passes)
}

/// Makes the run that an input asks for, by this policy, and by this plan or in lockstep, on one
/// thread, and keeps its passes.
///
/// The faults are those of the word `lockstep`, in its order, and then those of the plan.
pub fn run_history(
    alloc: Global,
    policy: Policy,
    plan: Option<Plan>,
    input: &[u8],
) -> Result<RunHistory, PlannedFault>
    ensures history { IfOk result (IsAskedHistory plan policy (run_input_of input.now)) }
    ensures fault { IfErr result (λ fault.
        DecidedBy plan fault (asked_run (run_input_of input.now))) }
{
    let (config, arrivals) = run_input(alloc, input)?;
    let passes = passes_of_run(alloc, &config, policy, plan, arrivals)?;
    Ok(RunHistory { config, passes })
}
