//! The history of a run, as a file.

ghost use Rattle.std.specs.Prelude.{◌≡◌, ◌≢◌, IfErr, IfOk, OnOk};
ghost use Rattle.std.specs.Io.KnownBytes.{Appends};
ghost use Rattle.cal_view.specs.Recording.{recorded_text};
ghost use Rattle.cal_view.specs.Running.{WroteReplay, WroteRun};

use cal_engine::{Front, write_after_front};
use cal_facts::{replayed_history, run_history};
use cal_input::RunFault;
use cal_paced::Plan;
use cal_policy::{PassEntry, Policy};
use cal_tables::{AskedFault, PlannedFault, ReplayedFault};
use cal_trace::write_history;
use std::alloc::Global;
use std::io::Write;

/// Writes a history, with this of the input in front of it. The fault is `Write`; how much was written
/// then is unspecified.
fn write_run<W: Write>(
    front: Front,
    input: &[u8],
    history: &[PassEntry],
    writer: &mut W,
) -> Result<(), RunFault>
    ensures { OnOk result (Appends (W.contents writer.old) (W.contents writer.new)
        (recorded_text front input.now history.now)) }
{
    write_after_front(front, input, b"".as_slice(), writer)?;
    match write_history(history, writer) {
        Ok(()) => Ok(()),
        Err(_) => Err(RunFault::Write),
    }
}

/// Writes the history of the run that an input asks for, by this policy, and by this plan or in
/// lockstep, with this in front of it. Nothing is written before the run was made.
///
/// The faults are those of the word `lockstep`, in its order, and then those of the plan.
pub fn record_run<W: Write>(
    alloc: Global,
    policy: Policy,
    plan: Option<Plan>,
    input: &[u8],
    front: Front,
    writer: &mut W,
) -> Result<(), PlannedFault>
    // The history of such a run was written, and nothing else.
    ensures exact { IfOk result (λ _. WroteRun plan policy front input.now
        (W.contents writer.old) (W.contents writer.new)) }
    ensures untouched { IfErr result (λ fault.
        fault ≢ PlannedFault.Run RunFault.Write → writer.new ≡ writer.old) }
{
    let made = run_history(alloc, policy, plan, input)?;
    match write_run(front, input, made.passes.as_slice(), writer) {
        Ok(()) => Ok(()),
        Err(_) => Err(PlannedFault::Run(RunFault::Write)),
    }
}

/// Writes the history of the run that an input asks for, by this plan or in lockstep, whose passes are
/// those of a history, whose rows are these, with this in front of it. Nothing is written before the
/// run was made.
///
/// The faults are those of `replayed_history`.
pub fn record_replay<W: Write>(
    alloc: Global,
    plan: Option<Plan>,
    input: &[u8],
    history: &[u8],
    front: Front,
    writer: &mut W,
) -> Result<(), ReplayedFault>
    // The history of a replay was written, and nothing else.
    ensures exact { IfOk result (λ _. WroteReplay plan history.now front input.now
        (W.contents writer.old) (W.contents writer.new)) }
    ensures untouched { IfErr result (λ fault.
        fault ≢ ReplayedFault.Asked (AskedFault.Run RunFault.Write) → writer.new ≡ writer.old) }
{
    let made = replayed_history(alloc, plan, input, history)?;
    match write_run(front, input, made.passes.as_slice(), writer) {
        Ok(()) => Ok(()),
        Err(_) => Err(ReplayedFault::Asked(AskedFault::Run(RunFault::Write))),
    }
}
