//! What is written of a run, in memory.

ghost use Rattle.std.specs.Prelude.{◌≡◌, List, length, IfOk, IfErr};
ghost use Rattle.std.specs.List.{AllZip};
ghost use Rattle.cal_kthread.specs.declared.journal.entry.Entry.{Entry};
ghost use Rattle.cal_policy.specs.Policies.{IsLegalBy};
ghost use Rattle.cal_run.specs.Outcome.{outcome_of};
ghost use Rattle.cal_trace.specs.Report.Summary.{IsTallyOf, summary_text};
ghost use Rattle.cal_engine.specs.Running.{run_text};

use crate::jobs::accepted::AcceptedInput;
use crate::jobs::running::RunAnswer;
use crate::laws::histories_are_orderly;
use cal_input::RunFault;
use cal_kthread::{Journal, RequestList};
use cal_run::{RunEnd, TalliedEnd};
use cal_trace::{Arrivals, write_history, write_report, write_summary, write_tallied_summary};
use std::alloc::Global;

/// What is written of what a run ends with, in memory, without the table. Its fault is `Memory`.
pub(crate) fn run_text(
    alloc: Global,
    answer: RunAnswer,
    accepted: &AcceptedInput<'_>,
    end: &RunEnd,
) -> Result<Vec<u8>, RunFault>
    requires legal { IsLegalBy accepted.now.policy accepted.now.config.now end.now.history }
    ensures text { IfOk result (λ text. text.items ≡ run_text answer
        (record { table = accepted.now.config.now; arrivals = accepted.now.arrivals.now })
        (outcome_of end.now)) }
    ensures kind { IfErr result (λ fault. fault ≡ RunFault.Memory) }
{
    accepted.config.limits();
    histories_are_orderly();
    let mut text = Vec::new(alloc);
    let written = match answer {
        RunAnswer::History | RunAnswer::WithTable => {
            write_history(end.history.as_slice(), &mut text)
        }
        RunAnswer::Summary => {
            return summary_of(
                alloc,
                accepted.arrivals,
                end.journals.as_slice(),
                end.left.as_slice(),
            );
        }
        RunAnswer::Report => write_report(accepted.config, end.history.as_slice(), &mut text),
    };
    match written {
        Ok(()) => Ok(text),
        // A list in memory refuses nothing but memory.
        Err(_) => Err(RunFault::Memory),
    }
}

/// The summary of a run whose threads were counted, in memory. Its fault is `Memory`.
pub(crate) fn tallied_summary(
    alloc: Global,
    arrivals: &Arrivals,
    end: &TalliedEnd,
) -> Result<Vec<u8>, RunFault>
    ensures text { (journals : List (List Entry)) → AllZip IsTallyOf journals end.now.tallies →
        IfOk result (λ text. text.items ≡ summary_text
        (length arrivals.now.passes) (length arrivals.now.turns) journals end.now.left) }
    ensures kind { IfErr result (λ fault. fault ≡ RunFault.Memory) }
{
    let (passes, turns) = (
        arrivals.passes.as_slice().len(),
        arrivals.turns.as_slice().len(),
    );
    let (tallies, left) = (end.tallies.as_slice(), end.left.as_slice());
    let mut text = Vec::new(alloc);
    match write_tallied_summary(passes, turns, tallies, left, &mut text) {
        Ok(()) => Ok(text),
        // A list in memory refuses nothing but memory.
        Err(_) => Err(RunFault::Memory),
    }
}

/// The summary of what kernel threads did and were left with, in memory. Its fault is `Memory`.
fn summary_of(
    alloc: Global,
    arrivals: &Arrivals,
    journals: &[Journal],
    left: &[RequestList],
) -> Result<Vec<u8>, RunFault>
    ensures text { IfOk result (λ text. text.items ≡ summary_text
        (length arrivals.now.passes) (length arrivals.now.turns) journals.now left.now) }
    ensures kind { IfErr result (λ fault. fault ≡ RunFault.Memory) }
{
    let (passes, turns) = (
        arrivals.passes.as_slice().len(),
        arrivals.turns.as_slice().len(),
    );
    let mut text = Vec::new(alloc);
    match write_summary(passes, turns, journals, left, &mut text) {
        Ok(()) => Ok(text),
        // A list in memory refuses nothing but memory.
        Err(_) => Err(RunFault::Memory),
    }
}
