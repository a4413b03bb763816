//! A whole run on one thread.

ghost use Rattle.std.specs.Prelude.{◌≡◌, [], IfOk, IfErr, OnOk, length, max, replicate};
ghost use Rattle.cal_machine.specs.TableTasks.{threads_of_table};
ghost use Rattle.cal_run.specs.Collecting.{HasStopped, IsCollectedOf};
ghost use Rattle.cal_run.specs.Outcome.Headline.{Headline, HeadlineBy};
ghost use Rattle.cal_run.specs.Outcome.{EachStandsOnce, IsRun, IsRunBy, IsRunEnd, IsRunEndBy};
ghost use Rattle.cal_run.specs.Outcome.{IsCollectedEndBy, outcome_of};
ghost use Rattle.cal_run.specs.Outcome.{IsTalliedEnd, IsTalliedEndBy};
ghost use Rattle.cal_run.specs.Order.{then_rounds};
ghost use Rattle.cal_run.specs.Parts.{AreFirstPasses, AreParts, rounds_of};
ghost use Rattle.cal_run.specs.declared.fault.SimFault.TheVariants.{Memory};
ghost use Rattle.cal_trace.specs.Arrivals.FitsTable.{FitsTable};

use crate::closing::{RunRest, close_parts, end_parts, end_run};
use crate::collector::Collector;
use crate::collector::collected::{Collected, OpenCollection};
use crate::collector::tallies::Tallies;
use crate::fault::SimFault;
use crate::outcome::headline::headline_of_runs_by;
use crate::outcome::{Outcome, RunEnd, TalliedEnd};
use crate::parts::Parts;
use crate::parts::opening::{open_parts_by, open_unwatched_by};
use crate::rounds::make_rounds;
use cal_kthread::RequestList;
use cal_machine::{Config, Listed};
use cal_policy::Policy;
use cal_trace::Arrivals;
use std::alloc::{AllocError, Global};

/// A whole run on one thread: a scheduler by this policy, the kernel threads of the table and a
/// watch make the passes and the turns that are given. In round `r` comes first pass `r`, then turn `r` of each
/// thread in thread order, then round `r` of the watch, each if there is one; then the threads end.
///
/// Asks for arrivals that fit the table. Fails only when out of memory; nothing is left of the run
/// then. (That one thread makes all steps in this order is Doranjei's.)
///
/// Not promised: that a pass sees the turns of the round before, which is tested.
pub fn lockstep_by(
    alloc: Global,
    config: &Config,
    policy: Policy,
    arrivals: &Arrivals,
) -> Result<Outcome, SimFault>
    requires fits { FitsTable config.now arrivals.now }
    ensures run { IfOk result (IsRunBy policy config.now arrivals.now) }
    ensures once { IfOk result (λ outcome. EachStandsOnce arrivals.now outcome) }
    ensures headline { IfOk result (HeadlineBy policy config.now) }
    ensures memory { IfErr result (λ fault. fault ≡ Memory) }
{
    headline_of_runs_by();
    config.limits();
    let (parts, collected) = collected_run(alloc, config, policy, arrivals)?;
    close_parts(alloc, config, arrivals, parts, collected)
}

/// `lockstep_by` of `Policy::Caladan`.
pub fn lockstep(alloc: Global, config: &Config, arrivals: &Arrivals) -> Result<Outcome, SimFault>
    requires fits { FitsTable config.now arrivals.now }
    ensures run { IfOk result (IsRun config.now arrivals.now) }
    ensures once { IfOk result (λ outcome. EachStandsOnce arrivals.now outcome) }
    ensures headline { IfOk result (Headline config.now) }
    ensures memory { IfErr result (λ fault. fault ≡ Memory) }
{
    lockstep_by(alloc, config, Policy::Caladan, arrivals)
}

/// What the same run ends with: its outcome without the list of its steps, for which the history is
/// copied once more. Fails only when out of memory; nothing is left of the run then.
pub fn lockstep_end_by(
    alloc: Global,
    config: &Config,
    policy: Policy,
    arrivals: &Arrivals,
) -> Result<RunEnd, SimFault>
    requires fits { FitsTable config.now arrivals.now }
    ensures run { IfOk result (IsRunEndBy policy config.now arrivals.now) }
    ensures headline { IfOk result (λ end. HeadlineBy policy config.now (outcome_of end)) }
    ensures memory { IfErr result (λ fault. fault ≡ Memory) }
{
    headline_of_runs_by();
    config.limits();
    let (parts, collected) = collected_run(alloc, config, policy, arrivals)?;
    end_parts(alloc, config, arrivals, parts, collected)
}

/// `lockstep_end_by` of `Policy::Caladan`.
pub fn lockstep_end(alloc: Global, config: &Config, arrivals: &Arrivals) -> Result<RunEnd, SimFault>
    requires fits { FitsTable config.now arrivals.now }
    ensures run { IfOk result (IsRunEnd config.now arrivals.now) }
    ensures headline { IfOk result (λ end. Headline config.now (outcome_of end)) }
    ensures memory { IfErr result (λ fault. fault ≡ Memory) }
{
    lockstep_end_by(alloc, config, Policy::Caladan, arrivals)
}

/// What the same run ends with where what its kernel threads do is counted. No pass and no entry is
/// kept, and the watch makes no round, since nobody reads what it finds: the memory that this takes
/// grows with the threads and with the requests that wait with them at one time. Fails only when out
/// of memory; nothing is left of the run then.
pub fn lockstep_tallied_by(
    alloc: Global,
    config: &Config,
    policy: Policy,
    arrivals: &Arrivals,
) -> Result<TalliedEnd, SimFault>
    requires fits { FitsTable config.now arrivals.now }
    ensures run { IfOk result (IsTalliedEndBy policy config.now arrivals.now) }
    ensures memory { IfErr result (λ fault. fault ≡ Memory) }
{
    let mut parts = open_unwatched_by(alloc, config, policy, arrivals)?;
    let mut tallies = Tallies::new(alloc, parts.workers.len())?;
    make_rounds(&mut parts, arrivals, &mut tallies)?;
    let RunRest { left, .. } = end_run(alloc, config, arrivals, parts)?;
    Ok(TalliedEnd {
        tallies: Listed::new(tallies.tallies),
        left,
    })
}

/// `lockstep_tallied_by` of `Policy::Caladan`.
pub fn lockstep_tallied(
    alloc: Global,
    config: &Config,
    arrivals: &Arrivals,
) -> Result<TalliedEnd, SimFault>
    requires fits { FitsTable config.now arrivals.now }
    ensures run { IfOk result (IsTalliedEnd config.now arrivals.now) }
    ensures memory { IfErr result (λ fault. fault ≡ Memory) }
{
    lockstep_tallied_by(alloc, config, Policy::Caladan, arrivals)
}

/// What is left with the kernel threads of the same run, in thread order, where a collector of the
/// caller's makes its passes and takes what its turns hand out: to begin with it holds nothing, for
/// no pass and for threads that did nothing. No pass and no entry is kept here, and the watch makes
/// no round. Fails only when out of memory, or where the collector does; what the collector holds
/// then is of no run.
pub fn lockstep_collected_by<C: Collector>(
    alloc: Global,
    config: &Config,
    policy: Policy,
    arrivals: &Arrivals,
    collector: &mut C,
) -> Result<Listed<RequestList>, C::Fault>
    requires fits { FitsTable config.now arrivals.now }
    requires suits { C.suits collector.old config.now }
    requires opened { C.holds collector.old [] (replicate (threads_of_table config.now) []) }
    ensures suits { IfOk result (λ _. C.suits collector.new config.now) }
    ensures run { IfOk result
        (IsCollectedEndBy policy (C.holds collector.new) config.now arrivals.now) }
    ensures wrote { C.wrote collector.old collector.old [] →
        IfOk result (IsCollectedEndBy policy (λ history _.
        AreFirstPasses policy config.now arrivals.now history
        × C.wrote collector.old collector.new history) config.now arrivals.now) }
    ensures stopped { C.wrote collector.old collector.old [] →
        IfErr result (λ _. HasStopped policy config.now arrivals.now
        (C.wrote collector.old collector.new)) }
    ensures same { C.same collector.old collector.old → C.same collector.old collector.new }
    // it was handed the passes and turns round by round
    ensures ordered { C.met collector.old [] → OnOk result (C.met collector.new
        (then_rounds (length arrivals.now.passes) (length arrivals.now.turns)
        (threads_of_table config.now)
        (max (length arrivals.now.passes) (length arrivals.now.turns)) [])) }
{
    let Ok(mut parts) = open_unwatched_by(alloc, config, policy, arrivals) else {
        return Err(C::Fault::from(AllocError));
    };
    make_rounds(&mut parts, arrivals, collector)?;
    let RunRest { left, .. } = end_run(alloc, config, arrivals, parts)?;
    Ok(left)
}

/// The parts of a run by this policy, whose passes, turns and rounds were all made, and its history
/// and its journals.
fn collected_run(
    alloc: Global,
    config: &Config,
    policy: Policy,
    arrivals: &Arrivals,
) -> Result<(Parts, Collected), SimFault>
    requires fits { FitsTable config.now arrivals.now }
    ensures parts { IfOk result (λ run. AreParts config.now arrivals.now
        (length arrivals.now.passes) (length arrivals.now.turns) (rounds_of arrivals.now) run.0) }
    ensures policy { IfOk result (λ run. run.0.scheduler.policy ≡ policy) }
    ensures collected { IfOk result (λ run. IsCollectedOf run.0 run.1) }
    ensures memory { IfErr result (λ fault. fault ≡ Memory) }
{
    let mut parts = open_parts_by(alloc, config, policy, arrivals)?;
    let mut collection = OpenCollection::new(alloc, parts.workers.len())?;
    make_rounds(&mut parts, arrivals, &mut collection)?;
    let collected = collection.close(alloc)?;
    Ok((parts, collected))
}
