//! Whole runs in threads, on the arrivals of an input.

ghost use Rattle.std.specs.Prelude.{◌≡◌, ◌≢◌, ◌⊎◌, IfOk, IfErr, IfSome};
ghost use Rattle.cal_policy.specs.Policies.{IsLegalBy};
ghost use Rattle.cal_policy.specs.declared.policy.Policy.TheVariants.{Caladan};
ghost use Rattle.cal_run.specs.Outcome.{IsRunEndBy};
ghost use Rattle.cal_run.specs.declared.fault.SimFault.TheVariants.{Gate as GateFault};
ghost use Rattle.cal_trace.specs.Arrivals.FitsTable.{FitsTable};
ghost use Rattle.cal_input.specs.Parts.{run_input_of, within_limit};
ghost use Rattle.cal_engine.specs.Running.{FailedInThreads, IsTextOfRun, RunsInThreads, TellsRun};

use crate::jobs::accepted::AcceptedInput;
use crate::jobs::answer::write_after_front;
use crate::jobs::run_text::run_text;
use crate::jobs::running::{RunAnswer, run_front};
use cal_input::{RunFault, read_input, run_input};
use cal_policy::Policy;
use cal_run::{RunEnd, SimFault};
use cal_threads::{FreeGate, simulation_end_by};
use std::alloc::Global;
use std::io::{Read, Write};
use std::sync::Wait;
use std::thread::Threads;

/// Reads an input of a task table and arrivals to its end, makes a whole run of them by
/// `Policy::Caladan` in threads of their own, and writes what is asked for and nothing else: its
/// history as a file, its summary or its report. Nothing is written before the run was made and its
/// text is in memory. The joins of the threads wait.
///
/// The faults come in this order: `Read` or `Length`, whichever comes first, `Separator`, `Config`,
/// `Trace`, `Spawn` where a thread could not be started, `Write`. `Memory` may come at any place,
/// and only where memory was refused.
pub fn run_sim<H: Threads + Wait + Sync, R: Read + Drop, W: Write>(
    rt: &H,
    alloc: Global,
    reader: R,
    answer: RunAnswer,
    writer: &mut W,
) -> Result<(), RunFault>
    // The text of a run on the input was written and nothing else, or the fault is the input's
    // first.
    ensures exact { IfSome (R.remaining reader) (λ input.
        RunsInThreads Caladan answer result input (within_limit input (run_input_of input))
        (W.contents writer.old) (W.contents writer.new)) }
    // Nothing is written before the run was made.
    ensures untouched { IfErr result (λ fault. fault ≢ RunFault.Write → writer.new ≡ writer.old) }
    // No gate ends a worker.
    ensures ungated { IfErr result (λ fault. fault ≢ RunFault.Gate) }
{
    run_sim_by(rt, alloc, Policy::Caladan, reader, answer, writer)
}

/// `run_sim` by this policy.
pub fn run_sim_by<H: Threads + Wait + Sync, R: Read + Drop, W: Write>(
    rt: &H,
    alloc: Global,
    policy: Policy,
    mut reader: R,
    answer: RunAnswer,
    writer: &mut W,
) -> Result<(), RunFault>
    // The text of a run on the input was written and nothing else, or the fault is the input's
    // first.
    ensures exact { IfSome (R.remaining reader) (λ input.
        RunsInThreads policy answer result input (within_limit input (run_input_of input))
        (W.contents writer.old) (W.contents writer.new)) }
    // Nothing is written before the run was made.
    ensures untouched { IfErr result (λ fault. fault ≢ RunFault.Write → writer.new ≡ writer.old) }
    // No gate ends a worker.
    ensures ungated { IfErr result (λ fault. fault ≢ RunFault.Gate) }
{
    let input = read_input(alloc, &mut reader)?;
    let text = simulation_text(rt, alloc, policy, answer, input.as_slice())?;
    write_after_front(run_front(answer), input.as_slice(), text.as_slice(), writer)
}

/// What is written of a run in threads on the arrivals of an input, in memory.
fn simulation_text<H: Threads + Wait + Sync>(
    rt: &H,
    alloc: Global,
    policy: Policy,
    answer: RunAnswer,
    input: &[u8],
) -> Result<Vec<u8>, RunFault>
    ensures text { IfOk result (λ text. TellsRun policy answer (run_input_of input.now) text.items) }
    ensures fault { IfErr result (λ fault. FailedInThreads fault (run_input_of input.now)) }
{
    let (config, arrivals) = run_input(alloc, input)?;
    let accepted = AcceptedInput {
        input,
        config: &config,
        arrivals: &arrivals,
        policy,
    };
    simulation_on(rt, alloc, answer, &accepted)
}

/// What is written of a run in threads on the arrivals of an accepted input, in memory.
fn simulation_on<H: Threads + Wait + Sync>(
    rt: &H,
    alloc: Global,
    answer: RunAnswer,
    accepted: &AcceptedInput<'_>,
) -> Result<Vec<u8>, RunFault>
    requires fits { FitsTable accepted.now.config.now accepted.now.arrivals.now }
    ensures text { IfOk result (λ text. IsTextOfRun accepted.now.policy answer
        (record { table = accepted.now.config.now; arrivals = accepted.now.arrivals.now })
        text.items) }
    ensures kind { IfErr result (λ fault. (fault ≡ RunFault.Memory) ⊎ (fault ≡ RunFault.Spawn)) }
{
    let end = simulate_freely(rt, alloc, accepted)?;
    run_text(alloc, answer, accepted, &end)
}

/// A run in threads that no gate ends.
fn simulate_freely<H: Threads + Wait + Sync>(
    rt: &H,
    alloc: Global,
    accepted: &AcceptedInput<'_>,
) -> Result<RunEnd, SimFault>
    requires fits { FitsTable accepted.now.config.now accepted.now.arrivals.now }
    ensures run { IfOk result (IsRunEndBy accepted.now.policy accepted.now.config.now
        accepted.now.arrivals.now) }
    ensures legal { IfOk result (λ end.
        IsLegalBy accepted.now.policy accepted.now.config.now end.history) }
    ensures ungated { IfErr result (λ fault. fault ≢ GateFault) }
{
    let (config, arrivals, policy) = (accepted.config, accepted.arrivals, accepted.policy);
    simulation_end_by(rt, alloc, config, policy, arrivals, &FreeGate)
}
