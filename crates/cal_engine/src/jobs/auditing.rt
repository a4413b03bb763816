//! Auditing a history against the policy.

ghost use Rattle.std.specs.Prelude.{◌≡◌, ◌≢◌, ◌<◌, ◌+◌, ◌^◌, ◌++◌, ◌∷◌, [], ℕ, List, Ok, Err};
ghost use Rattle.std.specs.Prelude.{length, codes, IfOk, IfErr, IfSome, OnOk};
ghost use Rattle.cal_policy.specs.Auditor.{IsAuditorOf};
ghost use Rattle.cal_policy.specs.Policies.{IsLegalBy, IsVerdictBy};
ghost use Rattle.cal_policy.specs.declared.policy.Policy.{Policy as PolicyOf};
ghost use Rattle.cal_policy.specs.declared.policy.Policy.TheVariants.{Caladan};
ghost use Rattle.cal_trace.specs.History.Reading.{extent_of, HasGiven, IsOpen};
ghost use Rattle.cal_trace.specs.Report.{report_text};
ghost use Rattle.cal_input.specs.Answers.{Decided};
ghost use Rattle.cal_input.specs.Parts.{within_limit};
ghost use Rattle.cal_input.specs.Recorded.{recorded_in, recorded_run_of};
ghost use Rattle.cal_engine.specs.Outcome.{audit_text, illegal_line, Audits};
ghost use Rattle.cal_engine.specs.Auditing.{HasTaken, IsAnswerTo, Takes};

use crate::jobs::answer::write_answer;
use cal_input::{RunFault, read_input, read_parts};
use cal_machine::Config;
use cal_policy::{Auditor, PassEntry, Policy, Verdict};
use cal_trace::{HistoryRows, Report};
use std::alloc::{AllocError, Global};
use std::io::{Read, Write};

/// Reads an input of a task table and a history to its end, audits the history by
/// `Policy::Caladan`, and writes what the audit says and nothing else: of a legal history its report
/// and the line `legal`, of another the one line `illegal pass <p>`, where p is the first pass that
/// is not the policy's, from 0. An illegal history is an answer and no fault. Nothing is written
/// before the whole input was read and accepted and the answer is made.
///
/// The faults come in this order: `Read` or `Length`, whichever comes first, `Separator`, `Config`,
/// `Trace`, `Write`. `Memory` may come at any place, and only where memory was refused.
pub fn run_audit<R: Read + Drop, W: Write>(
    alloc: Global,
    reader: R,
    writer: &mut W,
) -> Result<Verdict, RunFault>
    // The verdict is the history's and was written with nothing else, or the fault is the input's
    // first.
    ensures exact { IfSome (R.remaining reader)
        (λ input. Audits Caladan result (within_limit input (recorded_run_of input))
        (W.contents writer.old) (W.contents writer.new)) }
    // Nothing is written before the input was accepted.
    ensures untouched { IfErr result (λ fault. fault ≢ RunFault.Write → writer.new ≡ writer.old) }
{
    run_audit_by(alloc, Policy::Caladan, reader, writer)
}

/// `run_audit` by this policy.
pub fn run_audit_by<R: Read + Drop, W: Write>(
    alloc: Global,
    policy: Policy,
    mut reader: R,
    writer: &mut W,
) -> Result<Verdict, RunFault>
    // The verdict is the history's and was written with nothing else, or the fault is the input's
    // first.
    ensures exact { IfSome (R.remaining reader)
        (λ input. Audits policy result (within_limit input (recorded_run_of input))
        (W.contents writer.old) (W.contents writer.new)) }
    // Nothing is written before the input was accepted.
    ensures untouched { IfErr result (λ fault. fault ≢ RunFault.Write → writer.new ≡ writer.old) }
{
    let input = read_input(alloc, &mut reader)?;
    let (verdict, answer) = audited(alloc, policy, input.as_slice())?;
    write_answer(answer.as_slice(), writer)?;
    Ok(verdict)
}

/// The verdict on the history of an input, and what the program writes of it. The text is gone over
/// once, and no pass is kept: each is judged, and its lines are written in memory, as soon as its
/// rows were read. Of a history that is not legal the lines are dropped.
fn audited(alloc: Global, policy: Policy, input: &[u8]) -> Result<(Verdict, Vec<u8>), RunFault>
    ensures answer { IfOk result (λ r.
        IsAnswerTo policy r.0 r.1.items (recorded_run_of input.now)) }
    ensures fault { IfErr result (λ fault. Decided fault (recorded_run_of input.now ≡ Err fault)) }
{
    let (config, trace) = read_parts(alloc, input)?;
    let audit = audit_in_turn(alloc, policy, &config, trace)?;
    let verdict = audit.auditor.verdict();
    let text = audit.end(alloc, &config, verdict)?;
    Ok((verdict, text))
}

/// The audit of a history, which is handed its passes one after the other as their rows are read.
fn audit_in_turn(
    alloc: Global,
    policy: Policy,
    config: &Config,
    trace: &[u8],
) -> Result<OpenAudit, RunFault>
    ensures audits { Takes policy result (recorded_in config.now trace.now) }
    ensures of { IfOk result (λ audit. IsAuditorOf config.now audit.auditor) }
{
    let mut rows = HistoryRows::open(alloc, config, trace)?;
    audit_rows(alloc, policy, config, &mut rows)
}

/// The audit of a history before its first pass, which is handed all its passes.
fn audit_rows(
    alloc: Global,
    policy: Policy,
    config: &Config,
    rows: &mut HistoryRows<'_>,
) -> Result<OpenAudit, RunFault>
    requires { IsOpen rows.old }
    ensures audits { (trace : List ℕ) → HasGiven (extent_of config.now) trace [] rows.old →
        Takes policy result (recorded_in config.now trace) }
    ensures of { IfOk result (λ audit. IsAuditorOf config.now audit.auditor) }
{
    let mut audit = OpenAudit::open(alloc, config, policy)?;
    while let Some(entry) = rows.next()? {
        audit.take(config, &entry)?;
    }
    Ok(audit)
}

/// The audit of the passes so far, with the lines of their report.
#[derive(Drop)]
struct OpenAudit {
    auditor: Auditor,
    report: Report,
    text: Vec<u8>,
}

impl OpenAudit {
    /// The audit by this policy before the first pass. Fails only when out of memory.
    fn open(alloc: Global, config: &Config, policy: Policy) -> Result<OpenAudit, AllocError>
        ensures takes { IfOk result (HasTaken policy config.now []) }
        ensures of { IfOk result (λ audit. IsAuditorOf config.now audit.auditor) }
    {
        let auditor = Auditor::open_by(alloc, config, policy)?;
        Ok(OpenAudit {
            auditor,
            report: Report::new(),
            text: Vec::new(alloc),
        })
    }

    /// Judges the next pass, and writes its lines. The fault is `Memory`.
    fn take(&mut self, config: &Config, entry: &PassEntry) -> Result<(), RunFault>
        requires of { IsAuditorOf config.now self.old.auditor }
        ensures takes { OnOk result ((policy : PolicyOf) (h : List PassEntry) →
            length h + 1 < 2 ^ 64 → HasTaken policy config.now h self.old →
            HasTaken policy config.now (h ++ entry.now ∷ []) self.new) }
        ensures of { OnOk result (IsAuditorOf config.now self.new.auditor) }
        ensures kind { IfErr result (λ fault. fault ≡ RunFault.Memory) }
    {
        self.auditor.next(config, entry);
        match self.report.write_pass(entry, &mut self.text) {
            Ok(()) => Ok(()),
            // A list in memory refuses nothing but memory.
            Err(_) => Err(RunFault::Memory),
        }
    }

    /// What the program writes of the whole history, by its verdict. The fault is `Memory`.
    fn end(self, alloc: Global, config: &Config, verdict: Verdict) -> Result<Vec<u8>, RunFault>
        requires { IsAuditorOf config.now self.auditor }
        ensures text { (policy : PolicyOf) (h : List PassEntry) →
            HasTaken policy config.now h self → IsVerdictBy policy config.now h verdict →
            IfOk result (λ text. text.items ≡
            audit_text (record { table = config.now; history = h }) verdict) }
        ensures kind { IfErr result (λ fault. fault ≡ RunFault.Memory) }
    {
        match verdict {
            Verdict::Legal => self.end_legal(config),
            Verdict::Illegal { pass } => illegal_line(alloc, pass),
        }
    }

    /// The report of a legal history, and the line `legal`. The fault is `Memory`.
    fn end_legal(self, config: &Config) -> Result<Vec<u8>, RunFault>
        requires { IsAuditorOf config.now self.auditor }
        ensures text { (policy : PolicyOf) (h : List PassEntry) →
            HasTaken policy config.now h self → IsLegalBy policy config.now h →
            IfOk result (λ text. text.items ≡ report_text config.now h ++ codes "legal\n") }
        ensures kind { IfErr result (λ fault. fault ≡ RunFault.Memory) }
    {
        let mut text = self.end_report(config)?;
        text.extend_from_slice(b"legal\n")?;
        Ok(text)
    }

    /// The report of a legal history. The fault is `Memory`.
    fn end_report(mut self, config: &Config) -> Result<Vec<u8>, RunFault>
        requires { IsAuditorOf config.now self.auditor }
        ensures text { (policy : PolicyOf) (h : List PassEntry) →
            HasTaken policy config.now h self → IsLegalBy policy config.now h →
            IfOk result (λ text. text.items ≡ report_text config.now h) }
        ensures kind { IfErr result (λ fault. fault ≡ RunFault.Memory) }
    {
        match self
            .report
            .write_end(config, self.auditor.board(), &mut self.text)
        {
            Ok(()) => Ok(self.text),
            Err(_) => Err(RunFault::Memory),
        }
    }
}

/// The one line of a history that is not legal. Its fault is `Memory`.
fn illegal_line(alloc: Global, pass: u64) -> Result<Vec<u8>, RunFault>
    ensures text { IfOk result (λ text. text.items ≡ illegal_line pass) }
    ensures kind { IfErr result (λ fault. fault ≡ RunFault.Memory) }
{
    let mut text = Vec::new(alloc);
    match writeln!(text, "illegal pass {pass}") {
        Ok(()) => Ok(text),
        // A list in memory refuses nothing but memory.
        Err(_) => Err(RunFault::Memory),
    }
}
