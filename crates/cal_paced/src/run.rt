//! Paced runs.

ghost use Rattle.std.specs.Prelude.{◌≡◌, ◌*◌, [], IfErr, IfOk, OnOk, length, replicate};
ghost use Rattle.cal_machine.specs.TableTasks.{threads_of_table};
ghost use Rattle.cal_run.specs.declared.fault.SimFault.TheVariants.{Memory};
ghost use Rattle.cal_trace.specs.Arrivals.FitsTable.{FitsTable};
ghost use Rattle.cal_trace.specs.declared.arrivals.Arrivals.{Arrivals as ArrivalsOf};
ghost use Rattle.cal_paced.specs.Order.{then_rounds};
ghost use Rattle.cal_paced.specs.Paced.{IsPacedCollectedOf, IsPacedEndOf, IsPlan, IsPacedFor};

use crate::plan::Plan;
use crate::rounds::{Keeping, make_rounds};
use cal_kthread::RequestList;
use cal_machine::{Config, Listed};
use cal_policy::Policy;
use cal_run::{
    Collected, Collector, OpenCollection, RunEnd, RunRest, SimFault, end_run, headline_of_runs_by,
    open_parts_by, open_unwatched_by,
};
use cal_trace::Arrivals;
use std::alloc::{AllocError, Global};

/// What is left with the kernel threads of a paced run by this policy and plan, in thread order,
/// where a collector of the caller's makes its passes and takes what its turns hand out, as in
/// `lockstep_collected_by`. The watch makes no round.
///
/// Takes paced arrivals (`planned_arrivals`), and gives them back with the figures that the passes
/// got. Fails only when out of memory, or where the collector does; what the collector holds then is
/// of no run.
pub fn paced_collected_by<C: Collector>(
    alloc: Global,
    config: &Config,
    policy: Policy,
    plan: &Plan,
    given: &mut Arrivals,
    collector: &mut C,
) -> Result<Listed<RequestList>, C::Fault>
    requires plan { IsPlan plan.now }
    requires fits { FitsTable config.now given.old }
    requires many { length given.old.passes ≡ plan.now.pace * length given.old.turns }
    requires suits { C.suits collector.old config.now }
    requires opened { C.holds collector.old [] (replicate (threads_of_table config.now) []) }
    ensures suits { IfOk result (λ _. C.suits collector.new config.now) }
    ensures fits { IfOk result (λ _. FitsTable config.now given.new) }
    ensures run { (arrivals : ArrivalsOf) → IsPacedFor plan.now arrivals given.old →
        IfOk result (IsPacedCollectedOf policy (C.holds collector.new) config.now plan.now arrivals
        given.new) }
    // it was handed the passes before each turn after the turns before
    ensures ordered { C.met collector.old [] → OnOk result (C.met collector.new
        (then_rounds plan.now.pace (threads_of_table config.now) (length given.old.turns) [])) }
{
    headline_of_runs_by();
    config.limits();
    let Ok(mut parts) = open_unwatched_by(alloc, config, policy, given) else {
        return Err(C::Fault::from(AllocError));
    };
    let mut keeping = Keeping::new(alloc, parts.workers.len())?;
    make_rounds(alloc, &mut parts, given, plan, &mut keeping, collector)?;
    let RunRest { left, .. } = end_run(alloc, config, given, parts)?;
    Ok(left)
}

/// What a paced run by this policy and plan ends with: its history, its journals, what was left and
/// what its watch found. Takes paced arrivals, and gives them back, as `paced_collected_by`. Fails
/// only when out of memory; nothing is left of the run then.
pub fn paced_end_by(
    alloc: Global,
    config: &Config,
    policy: Policy,
    plan: &Plan,
    given: &mut Arrivals,
) -> Result<RunEnd, SimFault>
    requires plan { IsPlan plan.now }
    requires fits { FitsTable config.now given.old }
    requires many { length given.old.passes ≡ plan.now.pace * length given.old.turns }
    ensures run { (arrivals : ArrivalsOf) → IsPacedFor plan.now arrivals given.old →
        IfOk result (IsPacedEndOf policy config.now plan.now arrivals given.new) }
    ensures memory { IfErr result (λ fault. fault ≡ Memory) }
{
    headline_of_runs_by();
    config.limits();
    let mut parts = open_parts_by(alloc, config, policy, given)?;
    let mut collection = OpenCollection::new(alloc, parts.workers.len())?;
    let mut keeping = Keeping::new(alloc, parts.workers.len())?;
    make_rounds(
        alloc,
        &mut parts,
        given,
        plan,
        &mut keeping,
        &mut collection,
    )?;
    let Collected { history, journals } = collection.close(alloc)?;
    let RunRest { left, watched } = end_run(alloc, config, given, parts)?;
    Ok(RunEnd {
        history: Listed::new(history),
        journals: Listed::new(journals),
        left,
        watched,
    })
}
