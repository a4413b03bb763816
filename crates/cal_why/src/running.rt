//! The words of caladan_sim, among them the option `--explain`.

ghost use Rattle.std.specs.Prelude.{◌≡◌, ◌≢◌, Bool, IfErr, IfOk, IfSome, Option, Some, drop, map};
ghost use Rattle.std.specs.Prelude.{string_bytes, unwrap_or};
ghost use Rattle.cal_policy.specs.declared.policy.Policy.{Policy as PolicyOf};
ghost use Rattle.cal_policy.specs.declared.policy.Policy.TheVariants.{Caladan};
ghost use Rattle.cal_engine.specs.CommandWords.{AsksBy};
ghost use Rattle.cal_engine.specs.Program.{exit_status, EndsJobBy};
ghost use Rattle.cal_engine.specs.declared.command_words.command_line.Job.{Job as JobOf};

use crate::ending::{end_explained, explain_fault};
use crate::explaining::RefusedInput;
use crate::grammar::TraceKind;
use cal_engine::{Asked, Job, asked_by, do_job_by, end_with, refuse_words, words_after_first};
use cal_input::{RunFault, read_input};
use std::alloc::Global;
use std::io::{Read, Write};
use std::sync::Wait;
use std::thread::Threads;

/// Runs caladan_sim on its name and the words after it and on an input, and answers its exit status,
/// as `run_program` of cal_engine does. With `--explain` among the words the input is read to its end
/// before the job is begun, and below the line of an input that is refused stands why.
pub fn run_explained<H: Threads + Wait + Sync, R: Read + Drop, W: Write, E: Write>(
    rt: &H,
    alloc: Global,
    named: &[String],
    reader: R,
    output: &mut W,
    errors: &mut E,
) -> u8
    // What the words ask for, with `--explain` or without it, was done on the input by the policy that
    // they name, else by Caladan's, and the status is that of the answer.
    ensures job { IfSome (R.remaining reader) (λ input.
        (policy : Option PolicyOf) → (explained : Bool) → (job : JobOf) →
        AsksBy policy explained (map string_bytes (drop 1 named.now)) (Some job) →
        EndsJobBy (unwrap_or policy Caladan) job result input (W.contents output.old)
        (W.contents output.new)) }
    // Where the words or the input are refused nothing is written on the output.
    ensures refused { result ≡ 2 → output.new ≡ output.old }
{
    match answer_words(rt, alloc, named, reader, output, errors) {
        Ok(status) => status,
        Err(fault) => {
            let status = end_with("caladan_sim", &fault, errors);
            tell_unread(alloc, named, &fault, errors);
            status
        }
    }
}

/// Writes why an input was not read to its end that has this fault, where the words ask why an input is
/// refused.
fn tell_unread<E: Write>(alloc: Global, named: &[String], fault: &RunFault, errors: &mut E) {
    let unread = RefusedInput {
        input: &[],
        wanted: &[],
    };
    if *fault == RunFault::Length && named.iter().any(|word| word.as_str() == "--explain") {
        explain_fault(alloc, unread, fault, errors);
    }
}

/// Does what the words ask for. The faults are those of the words and of the job, but with
/// `--explain` of the job that of reading alone.
fn answer_words<H: Threads + Wait + Sync, R: Read + Drop, W: Write, E: Write>(
    rt: &H,
    alloc: Global,
    named: &[String],
    reader: R,
    output: &mut W,
    errors: &mut E,
) -> Result<u8, RunFault>
    ensures job { IfSome (R.remaining reader) (λ input.
        (policy : Option PolicyOf) → (explained : Bool) → (job : JobOf) →
        AsksBy policy explained (map string_bytes (drop 1 named.now)) (Some job) →
        EndsJobBy (unwrap_or policy Caladan) job (exit_status result) input
        (W.contents output.old) (W.contents output.new)) }
    ensures refused { IfOk result (λ status. status ≡ 2 → output.new ≡ output.old) }
    ensures untouched { IfErr result (λ fault. fault ≢ RunFault.Write →
        fault ≢ RunFault.Memory → output.new ≡ output.old) }
{
    let given = words_after_first(alloc, named)?;
    match asked_by(alloc, given.as_slice()) {
        Ok(asked) if asked.explained => explained_job(rt, alloc, asked, reader, output, errors),
        Ok(asked) => do_job_by(rt, alloc, asked.policy, asked.job, reader, output),
        Err(error) => refuse_words(&error, output, errors),
    }
}

/// Does a job on an input that is read to its end before, and says after its fault why it is
/// refused. The fault is that of reading.
fn explained_job<H: Threads + Wait + Sync, R: Read + Drop, W: Write, E: Write>(
    rt: &H,
    alloc: Global,
    asked: Asked,
    mut reader: R,
    output: &mut W,
    errors: &mut E,
) -> Result<u8, RunFault>
    ensures job { IfSome (R.remaining reader) (λ input.
        EndsJobBy asked.policy asked.job (exit_status result) input (W.contents output.old)
        (W.contents output.new)) }
    ensures refused { IfOk result (λ status. status ≡ 2 → output.new ≡ output.old) }
    ensures untouched { IfErr result (λ fault. fault ≢ RunFault.Write →
        fault ≢ RunFault.Memory → output.new ≡ output.old) }
{
    let input = read_input(alloc, &mut reader)?;
    let input = input.as_slice();
    match do_job_by(rt, alloc, asked.policy, asked.job, input, output) {
        Ok(status) => Ok(status),
        Err(fault) => {
            let refused = RefusedInput {
                input,
                wanted: &[trace_of(asked.job)],
            };
            Ok(end_explained(alloc, "caladan_sim", refused, &fault, errors))
        }
    }
}

/// The trace that a job reads.
fn trace_of(job: Job) -> TraceKind {
    match job {
        Job::Decide => TraceKind::Signals,
        Job::Lockstep(_) | Job::Sim(_) => TraceKind::Arrivals,
        Job::Audit => TraceKind::History,
    }
}
