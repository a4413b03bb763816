//! A whole run of the program: words and an input in; an answer, an error line and an exit status
//! out.

ghost use Rattle.std.specs.Prelude.{◌≡◌, ◌≢◌, ◌⊎◌, IfErr, IfOk, IfSome, drop, false, map};
ghost use Rattle.std.specs.Prelude.{Bool, Option, Some, string_bytes, unwrap_or};
ghost use Rattle.cal_policy.specs.declared.policy.Policy.{Policy as PolicyOf};
ghost use Rattle.cal_policy.specs.declared.policy.Policy.TheVariants.{Caladan};
ghost use Rattle.cal_engine.specs.CommandWords.{AsksBy};
ghost use Rattle.cal_engine.specs.Program.{is_told_job, verdict_status, BeginsJob, BeginsJobBy};
ghost use Rattle.cal_engine.specs.Program.{DoesJob, DoesJobBy, EndsJobBy};
ghost use Rattle.cal_engine.specs.declared.command_words.command_line.Job.{Job as JobOf};

use crate::command_words::command_line::{Job, asked_by};
use crate::jobs::auditing::run_audit_by;
use crate::jobs::deciding::decide_by;
use crate::jobs::running::run_lockstep_by;
use crate::jobs::simulating::run_sim_by;
use crate::shell::{end_with, refuse_words, words_after_first};
use cal_input::RunFault;
use cal_policy::{Policy, Verdict};
use std::alloc::Global;
use std::io::{Read, Write};
use std::sync::Wait;
use std::thread::Threads;

/// Runs the program on its name and the words after it and on an input, and answers its exit
/// status: 0 is done (help too), 1 is an illegal history, 2 is bad arguments or rejected input, 3
/// is memory, the writer, or a thread that could not be started. The words are read before the
/// input.
/// Only a run in threads, of the word `sim`, uses `rt`, and waits, at its joins.
///
/// The answer goes to `output`, and help too; what is wrong with the words (`clap`'s text) or the
/// one line of a fault goes to `errors`. The texts are Doranjei's or `clap`'s.
pub fn run_program<H: Threads + Wait + Sync, R: Read + Drop, W: Write, E: Write>(
    rt: &H,
    alloc: Global,
    named: &[String],
    reader: R,
    output: &mut W,
    errors: &mut E,
) -> u8
    // What the words ask for was done on the input by the policy that they name, else by Caladan's,
    // and the status is that of the answer.
    ensures job { IfSome (R.remaining reader) (λ input.
        (policy : Option PolicyOf) → (explained : Bool) → (job : JobOf) →
        AsksBy policy explained (map string_bytes (drop 1 named.now)) (Some job) →
        EndsJobBy (unwrap_or policy Caladan) job result input (W.contents output.old)
        (W.contents output.new)) }
    // Where the words or the input are refused nothing is written on the output.
    ensures refused { result ≡ 2 → output.new ≡ output.old }
{
    match answer_words(rt, alloc, named, reader, output, errors) {
        Ok(status) => status,
        Err(fault) => end_with("caladan_sim", &fault, errors),
    }
}

/// Does what the words after the first one ask for, and answers the exit status where there is no
/// fault.
fn answer_words<H: Threads + Wait + Sync, R: Read + Drop, W: Write, E: Write>(
    rt: &H,
    alloc: Global,
    named: &[String],
    reader: R,
    output: &mut W,
    errors: &mut E,
) -> Result<u8, RunFault>
    ensures job { IfSome (R.remaining reader) (λ input.
        (policy : Option PolicyOf) → (explained : Bool) → (job : JobOf) →
        AsksBy policy explained (map string_bytes (drop 1 named.now)) (Some job) →
        DoesJobBy (unwrap_or policy Caladan) job result input (W.contents output.old)
        (W.contents output.new)) }
    ensures refused { IfOk result (λ status. status ≡ 2 → output.new ≡ output.old) }
    ensures untouched { IfErr result (λ fault. fault ≢ RunFault.Write →
        fault ≢ RunFault.Memory → output.new ≡ output.old) }
{
    let given = words_after_first(alloc, named)?;
    match asked_by(alloc, given.as_slice()) {
        Ok(asked) => do_job_by(rt, alloc, asked.policy, asked.job, reader, output),
        Err(error) => refuse_words(&error, output, errors),
    }
}

/// Reads an input to its end, does a job on it by `Policy::Caladan`, and answers the exit status where
/// there is no fault: 1 after the audit of an illegal history, and else 0. The answer goes to
/// `output`, and the faults are those of the job: of `decide`, `run_lockstep`, `run_sim` or
/// `run_audit`.
/// Only a run in threads uses `rt`, and waits, at its joins.
pub fn do_job<H: Threads + Wait + Sync, R: Read + Drop, W: Write>(
    rt: &H,
    alloc: Global,
    job: Job,
    reader: R,
    output: &mut W,
) -> Result<u8, RunFault>
    // The job was done on this input, and the status is that of its answer; or the fault says what it
    // must of the input.
    ensures job { IfSome (R.remaining reader) (λ input.
        DoesJob job result input (W.contents output.old) (W.contents output.new)) }
    // 2 is the status of refused words and inputs alone.
    ensures status { IfOk result (λ status. status ≢ 2) }
    // After any fault but Write nothing is written on the output, but of a run that is told where
    // memory was refused in its midst.
    ensures untouched { IfErr result (λ fault. fault ≢ RunFault.Write →
        (fault ≡ RunFault.Memory → is_told_job job ≡ false) → output.new ≡ output.old) }
    // Where memory was refused in the midst of a run that is told, whole passes of its history were
    // written.
    ensures begun { IfErr result (λ fault. fault ≡ RunFault.Memory →
        (output.new ≡ output.old) ⊎ IfSome (R.remaining reader) (λ input.
        BeginsJob job input (W.contents output.old) (W.contents output.new))) }
{
    do_job_by(rt, alloc, Policy::Caladan, job, reader, output)
}

/// `do_job` by this policy.
#[tactic(auto, using(crate::proofs::BegunJobs::unbegun))]
pub fn do_job_by<H: Threads + Wait + Sync, R: Read + Drop, W: Write>(
    rt: &H,
    alloc: Global,
    policy: Policy,
    job: Job,
    reader: R,
    output: &mut W,
) -> Result<u8, RunFault>
    // The job was done on this input, and the status is that of its answer; or the fault says what it
    // must of the input.
    ensures job { IfSome (R.remaining reader) (λ input.
        DoesJobBy policy job result input (W.contents output.old) (W.contents output.new)) }
    // 2 is the status of refused words and inputs alone.
    ensures status { IfOk result (λ status. status ≢ 2) }
    // After any fault but Write nothing is written on the output, but of a run that is told where
    // memory was refused in its midst.
    ensures untouched { IfErr result (λ fault. fault ≢ RunFault.Write →
        (fault ≡ RunFault.Memory → is_told_job job ≡ false) → output.new ≡ output.old) }
    // Where memory was refused in the midst of a run that is told, whole passes of its history were
    // written.
    ensures begun { IfErr result (λ fault. fault ≡ RunFault.Memory →
        (output.new ≡ output.old) ⊎ IfSome (R.remaining reader) (λ input.
        BeginsJobBy policy job input (W.contents output.old) (W.contents output.new))) }
{
    match job {
        Job::Decide => {
            decide_by(alloc, policy, reader, output)?;
            Ok(0)
        }
        Job::Lockstep(answer) => {
            run_lockstep_by(alloc, policy, reader, answer, output)?;
            Ok(0)
        }
        Job::Sim(answer) => {
            run_sim_by(rt, alloc, policy, reader, answer, output)?;
            Ok(0)
        }
        Job::Audit => {
            let verdict = run_audit_by(alloc, policy, reader, output)?;
            Ok(verdict_status(verdict))
        }
    }
}

/// The exit status after an audit: 0 where the history is legal, else 1.
fn verdict_status(verdict: Verdict) -> u8
    ensures { result ≡ verdict_status verdict }
{
    match verdict {
        Verdict::Legal => 0,
        Verdict::Illegal { .. } => 1,
    }
}
