//! A run by a plan, measured.

ghost use Rattle.std.specs.Prelude.{◌≡◌, [], IfErr, IfOk, replicate};
ghost use Rattle.cal_paced.specs.Planned.{AreGivenFor, ArePlannedOf};
ghost use Rattle.cal_trace.specs.Arrivals.FitsTable.{FitsTable};
ghost use Rattle.cal_trace.specs.declared.arrivals.Arrivals.{Arrivals as RunArrivals};
ghost use Rattle.cal_machine.specs.Table.{Table};
ghost use Rattle.cal_machine.specs.TableTasks.{threads_of_table};
ghost use Rattle.cal_tables.specs.Planned.{AreGivenBy, ArePlannedBy, IsCollectedBy};
ghost use Rattle.cal_tables.specs.Planned.{IsFaultBy, IsFaultOfPlan};
ghost use Rattle.cal_tables.specs.Planned.{IsCountedBy, IsCountedPaced};

use crate::collecting::OpenNumbers;
use crate::measuring::{RunNumbers, counted_run, numbers_of_run};
use cal_came::Counted;
use cal_input::RunFault;
use cal_kthread::RequestList;
use cal_machine::{Config, Listed};
use cal_paced::{PaceFault, Plan, paced_collected_by, planned_arrivals};
use cal_policy::Policy;
use cal_run::{Collector, lockstep_collected_by};
use cal_trace::Arrivals;
use std::alloc::{AllocError, Global};

/// Why there is no run by a plan.
#[derive(Clone, Copy, Debug, PartialEq, Eq)]
pub enum PlannedFault {
    /// The input is refused, or memory, or the writer.
    Run(RunFault),
    /// The arrivals of the input, or the plan, are refused.
    Pace(PaceFault),
}

impl From<RunFault> for PlannedFault {
    ghost use Rattle.cal_tables.specs.declared.planned.PlannedFault.TheVariants.{Run};

    ghost from_gives = { λ fault e. e ≡ Run fault };

    fn from(fault: RunFault) -> PlannedFault {
        PlannedFault::Run(fault)
    }
}

impl From<AllocError> for PlannedFault {
    ghost use Rattle.cal_input.specs.declared.fault.RunFault.TheVariants.{Memory};
    ghost use Rattle.cal_tables.specs.declared.planned.PlannedFault.TheVariants.{Run};

    ghost from_gives = { λ _ e. e ≡ Run Memory };

    fn from(_e: AllocError) -> PlannedFault {
        PlannedFault::Run(RunFault::Memory)
    }
}

/// Out of memory is `Run`, and never `Pace`.
impl From<PaceFault> for PlannedFault {
    ghost use Rattle.cal_tables.specs.Planned.{fault_of_plan};

    ghost from_gives = { λ fault e. e ≡ fault_of_plan fault };

    fn from(fault: PaceFault) -> PlannedFault {
        match fault {
            PaceFault::Memory => PlannedFault::Run(RunFault::Memory),
            fault => PlannedFault::Pace(fault),
        }
    }
}

/// What the passes and turns of a run on these arrivals are given: by a plan, the arrivals paced for it;
/// in lockstep, the same. The fault is `Memory`, or `Pace` for a reason of `planned_arrivals`.
pub fn planned_for(
    alloc: Global,
    plan: Option<Plan>,
    arrivals: Arrivals,
) -> Result<Arrivals, PlannedFault>
    ensures planned { IfOk result (ArePlannedBy plan arrivals) }
    ensures given { IfOk result (AreGivenBy plan) }
    ensures fits { IfOk result (λ given.
        (table : Table) → FitsTable table arrivals → FitsTable table given) }
    ensures fault { IfErr result (IsFaultBy plan arrivals) }
{
    match plan {
        Some(plan) => Ok(planned_arrivals(alloc, arrivals, &plan)?),
        None => Ok(arrivals),
    }
}

/// What is left with the kernel threads of a run by this policy on what `planned_for` gives, by the
/// plan or in lockstep, where a collector of the caller's makes its passes and takes what its turns
/// hand out, as in `lockstep_collected_by`. The arrivals are given back with the figures that the
/// passes got. Fails only when out of memory, or where the collector does; what the collector holds
/// then is of no run.
pub fn collected_by<C: Collector>(
    alloc: Global,
    config: &Config,
    policy: Policy,
    plan: Option<Plan>,
    given: &mut Arrivals,
    collector: &mut C,
) -> Result<Listed<RequestList>, C::Fault>
    requires fits { FitsTable config.now given.old }
    requires given { AreGivenBy plan given.old }
    requires suits { C.suits collector.old config.now }
    requires opened { C.holds collector.old [] (replicate (threads_of_table config.now) []) }
    ensures suits { IfOk result (λ _. C.suits collector.new config.now) }
    ensures fits { IfOk result (λ _. FitsTable config.now given.new) }
    ensures run { (arrivals : RunArrivals) → ArePlannedBy plan arrivals given.old →
        IfOk result (IsCollectedBy plan policy (C.holds collector.new) config.now arrivals
        given.new) }
{
    match plan {
        Some(plan) => paced_collected_by(alloc, config, policy, &plan, given, collector),
        None => lockstep_collected_by(alloc, config, policy, given, collector),
    }
}

/// Makes a whole run by this policy and plan on one thread on arrivals for the plan, and measures it,
/// counted so, while it is made. Its fault is `Memory`.
fn numbers_of_paced(
    alloc: Global,
    config: &Config,
    policy: Policy,
    plan: &Plan,
    given: &mut Arrivals,
    counted: &Counted,
) -> Result<RunNumbers, RunFault>
    requires fits { FitsTable config.now given.old }
    requires given { AreGivenFor plan.now given.old }
    ensures numbers { (arrivals : RunArrivals) → ArePlannedOf plan.now arrivals given.old →
        IfOk result (IsCountedPaced plan.now policy config.now arrivals counted.now) }
    ensures kind { IfErr result (λ fault. fault ≡ RunFault.Memory) }
{
    let mut numbers = OpenNumbers::open(alloc, config)?;
    let left = paced_collected_by(alloc, config, policy, plan, given, &mut numbers)?;
    let ended = numbers.end(alloc, given, counted, left)?;
    Ok(numbers_of_run(alloc, given, counted, &ended)?)
}

/// Makes a whole run by this policy and plan on one thread on these arrivals, and measures it, counted
/// so, while it is made. The fault is `Memory`, or `Pace` for a reason of `planned_arrivals`, before
/// anything runs.
fn counted_paced(
    alloc: Global,
    config: &Config,
    policy: Policy,
    plan: &Plan,
    arrivals: Arrivals,
    counted: &Counted,
) -> Result<RunNumbers, PlannedFault>
    requires fits { FitsTable config.now arrivals }
    ensures numbers { IfOk result (IsCountedPaced plan.now policy config.now arrivals counted.now) }
    ensures fault { IfErr result (IsFaultOfPlan plan.now arrivals) }
{
    let mut given = planned_arrivals(alloc, arrivals, plan)?;
    let numbers = numbers_of_paced(alloc, config, policy, plan, &mut given, counted)?;
    Ok(numbers)
}

/// Makes a whole run by this policy, and by this plan or in lockstep, on one thread on these arrivals,
/// and measures it, counted so, while it is made. The fault is `Memory`, or `Pace` for a reason of
/// `planned_arrivals`, before anything runs.
pub fn counted_by(
    alloc: Global,
    config: &Config,
    policy: Policy,
    plan: Option<Plan>,
    arrivals: Arrivals,
    counted: &Counted,
) -> Result<RunNumbers, PlannedFault>
    requires fits { FitsTable config.now arrivals }
    ensures numbers { IfOk result (IsCountedBy plan policy config.now arrivals counted.now) }
    ensures fault { IfErr result (IsFaultBy plan arrivals) }
{
    match plan {
        Some(plan) => counted_paced(alloc, config, policy, &plan, arrivals, counted),
        None => Ok(counted_run(alloc, config, policy, &arrivals, counted)?),
    }
}
