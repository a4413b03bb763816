//! The turns in which the kernel threads of a run worked at requests.

pub mod collecting;
pub mod work;
pub mod working;
pub mod writing;

ghost use Rattle.std.specs.Prelude.{◌≡◌, ◌≢◌, IfErr, IfOk};
ghost use Rattle.cal_facts.specs.Telling.{IsAskedTurns, TellsTurns};
ghost use Rattle.cal_facts.specs.WorkTurns.{text_of_turns};
ghost use Rattle.cal_input.specs.Parts.{run_input_of};
ghost use Rattle.cal_tables.specs.Asked.{asked_run};
ghost use Rattle.cal_tables.specs.Planned.{DecidedBy};

use crate::turns::collecting::turns_of_run;
use crate::turns::work::WorkTurn;
use crate::turns::writing::write_turn_rows;
use cal_input::{RunFault, run_input};
use cal_machine::Config;
use cal_paced::Plan;
use cal_policy::Policy;
use cal_tables::PlannedFault;
use std::alloc::Global;
use std::io::Write;

/// Writes the turns at work of the run that an input asks for, by this policy, and by this plan or in
/// lockstep, on one thread: a row for each turn in which a kernel thread worked at a request, thread
/// by thread. Nothing is written before all of the input was read and the run was made.
///
/// The faults are those of the word `lockstep`, in its order: a history has no turns. Then come those
/// of the plan.
pub fn write_turns<W: Write>(
    alloc: Global,
    policy: Policy,
    plan: Option<Plan>,
    input: &[u8],
    writer: &mut W,
) -> Result<(), PlannedFault>
    // The text of the turns of a run was written and nothing else, or the fault says what it must.
    ensures exact { TellsTurns plan policy result (run_input_of input.now)
        (W.contents writer.old) (W.contents writer.new) }
    ensures untouched { IfErr result (λ fault.
        fault ≢ PlannedFault.Run RunFault.Write → writer.new ≡ writer.old) }
{
    let (config, works) = turns_asked(alloc, policy, plan, input)?;
    match write_turn_rows(&config, works.as_slice(), writer) {
        Ok(()) => Ok(()),
        Err(_) => Err(PlannedFault::Run(RunFault::Write)),
    }
}

/// The table of an input, and the turns at work of the run that it asks for.
fn turns_asked(
    alloc: Global,
    policy: Policy,
    plan: Option<Plan>,
    input: &[u8],
) -> Result<(Config, Vec<WorkTurn>), PlannedFault>
    ensures turns { IfOk result (λ told. IsAskedTurns plan policy (run_input_of input.now)
        (text_of_turns told.0 told.1.items)) }
    ensures fault { IfErr result (λ fault.
        DecidedBy plan fault (asked_run (run_input_of input.now))) }
{
    let (config, arrivals) = run_input(alloc, input)?;
    let works = turns_of_run(alloc, &config, policy, plan, arrivals)?;
    Ok((config, works))
}
