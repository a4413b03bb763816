//! Who had which core from when to when, and which cores were banned.

pub mod collecting;
pub mod facts;
pub mod gathering;
pub mod stretch;
pub mod writing;

ghost use Rattle.std.specs.Prelude.{◌≡◌, ◌≢◌, IfErr, IfOk};
ghost use Rattle.std.specs.Option.{is_some};
ghost use Rattle.cal_facts.specs.Stretches.{spans_text, text_of_facts};
ghost use Rattle.cal_facts.specs.Telling.{IsAskedText, Tells};
ghost use Rattle.cal_tables.specs.Asked.{asked_by};
ghost use Rattle.cal_tables.specs.Planned.{DecidedBy};

use crate::spans::facts::SpanFacts;
use crate::spans::writing::write_facts;
use cal_input::RunFault;
use cal_machine::Config;
use cal_paced::Plan;
use cal_policy::Policy;
use cal_tables::{Asked, PlannedFault, read_asked};
use std::alloc::Global;
use std::io::Write;

/// Writes the spans and the bans of what an input asks for, a row for each stretch of passes in
/// which a core is held, left or banned: of the run by this policy, and by this plan or in lockstep,
/// on one thread on its arrivals or, without a plan, where what follows the table has not their
/// header, of the history that it records, whichever that is. Nothing is written before all of it
/// was read and the run was made.
///
/// The faults are those of the word `lockstep`, in its order, and then those of the plan; of a
/// history those of `audit`.
pub fn write_spans<W: Write>(
    alloc: Global,
    policy: Policy,
    plan: Option<Plan>,
    input: &[u8],
    writer: &mut W,
) -> Result<(), PlannedFault>
    // The text of what is asked for was written and nothing else, or the fault says what it must.
    ensures exact { Tells plan (IsAskedText plan policy spans_text) result
        (asked_by (is_some plan) input.now) (W.contents writer.old) (W.contents writer.new) }
    ensures untouched { IfErr result (λ fault.
        fault ≢ PlannedFault.Run RunFault.Write → writer.new ≡ writer.old) }
{
    let (config, facts) = spans_asked(alloc, policy, plan, input)?;
    match write_facts(&config, &facts, writer) {
        Ok(()) => Ok(()),
        Err(_) => Err(PlannedFault::Run(RunFault::Write)),
    }
}

/// The table of an input, and the spans and the bans of what it asks for.
fn spans_asked(
    alloc: Global,
    policy: Policy,
    plan: Option<Plan>,
    input: &[u8],
) -> Result<(Config, SpanFacts), PlannedFault>
    ensures facts { IfOk result (λ told. IsAskedText plan policy spans_text
        (asked_by (is_some plan) input.now) (text_of_facts told.0 told.1)) }
    ensures fault { IfErr result (λ fault.
        DecidedBy plan fault (asked_by (is_some plan) input.now)) }
{
    match read_asked(alloc, input, plan.is_some())? {
        Asked::Run { config, arrivals } => {
            let facts = SpanFacts::of_run(alloc, &config, policy, plan, arrivals)?;
            Ok((config, facts))
        }
        Asked::History { config, history } => {
            let facts = SpanFacts::of_history(alloc, &config, history.as_slice())?;
            Ok((config, facts))
        }
    }
}
