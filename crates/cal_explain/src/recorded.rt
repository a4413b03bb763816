//! A pass of a history explained, or the first that is not the policy's.

ghost use Rattle.std.specs.Prelude.{◌≡◌, ◌≢◌, ℕ, ◌<◌, ◌≤◌, IfErr, IfOk, length, take};
ghost use Rattle.cal_policy.specs.Policies.{IsVerdictBy};
ghost use Rattle.cal_explain.specs.Comes.{ComesOf};
ghost use Rattle.cal_explain.specs.Reached.{IsOrderlyState, IsReached};

use crate::difference::tell_illegal;
use crate::explaining::tell_pass;
use crate::fault::ExplainFault;
use crate::reached::{reached_after, reached_by};
use crate::scope::Scope;
use cal_machine::Config;
use cal_policy::explain::PassWalk;
use cal_policy::state::Board;
use cal_policy::{Auditor, PassEntry, Policy, Verdict};
use cal_trace::write_kept;
use std::alloc::{AllocError, Global};
use std::io::Write;

/// What came of a pass that was to be explained.
#[derive(Clone, Copy, Debug, PartialEq, Eq)]
pub enum Explained {
    /// It was explained.
    Done,
    /// The history has no such pass.
    NoPass,
    /// The passes before it are not orderly: nothing was written.
    NotOrderly,
    /// It may not be given its looks: nothing was written.
    NoInput,
}

/// Where the explanations of several passes ended.
#[derive(Clone, Copy, Debug, PartialEq, Eq)]
pub struct Ended {
    /// The pass, from 0.
    pub pass: usize,
    /// What came of it.
    pub came: Explained,
}

/// Explains passes of a history.
#[derive(Clone, Copy)]
pub struct Explainer<'a> {
    /// What it takes memory from.
    pub alloc: Global,
    /// The task table that the history goes by.
    pub config: &'a Config,
    /// Whose passes they are to be.
    pub policy: Policy,
    /// The passes of the history, all from its first on.
    pub history: &'a [PassEntry],
    /// What of a pass is told.
    pub scope: Scope,
}

impl Explainer<'_> {
    /// Writes the explanation of a pass, from 0: what the policy does on its looks after the passes
    /// before it, whatever the history says that the pass did.
    pub fn explain_pass<W: Write>(
        &self,
        pass: usize,
        writer: &mut W,
    ) -> Result<Explained, ExplainFault>
        // What came of it is by the history alone.
        ensures came { IfOk result (ComesOf self.now.config.now self.now.history.now pass) }
        // Nothing is written of a pass that is not explained.
        ensures untouched { IfOk result (λ came. came ≢ Explained.Done →
            writer.new ≡ writer.old) }
        // A fault comes only of a pass that can be explained.
        ensures fault { IfErr result (λ _.
            ComesOf self.now.config.now self.now.history.now pass Explained.Done) }
    {
        if pass >= self.history.len() {
            return Ok(Explained::NoPass);
        }
        let state = reached_by(self.config, &self.history[..pass]);
        self.explain_after(&state, pass, writer)
    }

    /// Writes the explanations of the passes from the first to the last of these, or of the first alone
    /// where the last comes before it, up to one that cannot be explained; answers what came of the pass
    /// at which it ended. It goes over the history once.
    pub fn explain_passes<W: Write>(
        &self,
        first: usize,
        last: usize,
        writer: &mut W,
    ) -> Result<Ended, ExplainFault>
        // What came of the pass at which it ended is by the history alone.
        ensures came { IfOk result (λ ended.
            ComesOf self.now.config.now self.now.history.now ended.pass ended.came) }
        // It ends at the last one, or at one that is not explained.
        ensures range { IfOk result (λ ended. first ≤ ended.pass) }
        ensures last { IfOk result (λ ended. ended.came ≡ Explained.Done → last ≤ ended.pass) }
        ensures most { IfOk result (λ ended. first < ended.pass → ended.pass ≤ last) }
        // Each pass before it is explained.
        ensures each { IfOk result (λ ended. (pass : ℕ) → first ≤ pass → pass < ended.pass →
            ComesOf self.now.config.now self.now.history.now pass Explained.Done) }
        // Nothing is written where the first is not explained.
        ensures untouched { IfOk result (λ ended. ended.pass ≡ first →
            ended.came ≢ Explained.Done → writer.new ≡ writer.old) }
        // A fault comes only of passes of which the first can be explained.
        ensures fault { IfErr result (λ _.
            ComesOf self.now.config.now self.now.history.now first Explained.Done) }
    {
        if first >= self.history.len() {
            return Ok(Ended {
                pass: first,
                came: Explained::NoPass,
            });
        }
        let mut state = reached_by(self.config, &self.history[..first]);
        let mut pass = first;
        while pass < last {
            match self.explain_after(&state, pass, writer)? {
                Explained::Done => {}
                came => return Ok(Ended { pass, came }),
            }
            state = reached_after(self.config, state, self.history, pass);
            pass += 1;
        }
        let came = self.explain_after(&state, pass, writer)?;
        Ok(Ended { pass, came })
    }

    /// Writes the explanation of a pass on the state that those before it leave, if they are orderly.
    fn explain_after<W: Write>(
        &self,
        state: &Option<Board>,
        pass: usize,
        writer: &mut W,
    ) -> Result<Explained, ExplainFault>
        requires { IsReached self.now.config.now (take pass self.now.history.now) state.now }
        ensures came { IfOk result (ComesOf self.now.config.now self.now.history.now pass) }
        ensures untouched { IfOk result (λ came. came ≢ Explained.Done →
            writer.new ≡ writer.old) }
        ensures fault { IfErr result (λ _.
            ComesOf self.now.config.now self.now.history.now pass Explained.Done) }
    {
        if pass >= self.history.len() {
            return Ok(Explained::NoPass);
        }
        match state {
            None => Ok(Explained::NotOrderly),
            Some(board) => self.explain_on(board, pass, writer),
        }
    }

    /// Writes the explanation of a pass on the state that those before it leave.
    #[tactic(auto, using(crate::proofs::FoundLooks::has_input, crate::proofs::FoundLooks::lacks_input))]
    fn explain_on<W: Write>(
        &self,
        board: &Board,
        pass: usize,
        writer: &mut W,
    ) -> Result<Explained, ExplainFault>
        requires within { pass < length self.now.history.now }
        requires before { IsOrderlyState self.now.config.now (take pass self.now.history.now)
            board.now }
        ensures came { IfOk result (ComesOf self.now.config.now self.now.history.now pass) }
        ensures untouched { IfOk result (λ came. came ≢ Explained.Done →
            writer.new ≡ writer.old) }
        ensures fault { IfErr result (λ _.
            ComesOf self.now.config.now self.now.history.now pass Explained.Done) }
    {
        let entry = &self.history[pass];
        if !board.fits(self.config, &entry.input) {
            return Ok(Explained::NoInput);
        }
        let (now, bandwidth) = (entry.input.now, entry.input.bandwidth);
        writeln!(writer, "pass {pass} now {now} bandwidth {bandwidth}")?;
        write_kept(entry.input.seen.as_slice(), writer)?;
        let walk = PassWalk::begin_after(
            self.alloc,
            self.config,
            self.policy,
            board,
            &entry.input,
        )?;
        tell_pass(walk, self.scope, writer)?;
        Ok(Explained::Done)
    }

    /// Writes whether the history is legal, and of one that is not why its first illegal pass is
    /// none of the policy's; answers the verdict.
    pub fn explain_verdict<W: Write>(&self, writer: &mut W) -> Result<Verdict, ExplainFault>
        ensures { IfOk result (IsVerdictBy self.now.policy self.now.config.now
            self.now.history.now) }
    {
        let verdict = audited(self.alloc, self.config, self.policy, self.history)?;
        match verdict {
            Verdict::Legal => writeln!(writer, "legal")?,
            Verdict::Illegal { pass } => {
                writeln!(writer, "illegal pass {pass}")?;
                self.tell_maker(writer)?;
                tell_illegal(self, pass as usize, writer)?;
            }
        }
        Ok(verdict)
    }

    /// Of an illegal history, writes that the other policy made it, where the whole of it is legal
    /// under that one.
    fn tell_maker<W: Write>(&self, writer: &mut W) -> Result<(), ExplainFault> {
        let other = other_than(self.policy);
        if audited(self.alloc, self.config, other, self.history)? == Verdict::Legal {
            let name = other.name();
            writeln!(
                writer,
                "the policy {name} made this history: the whole of it is legal under that one"
            )?;
        }
        Ok(())
    }
}

/// The other policy.
fn other_than(policy: Policy) -> Policy {
    match policy {
        Policy::Caladan => Policy::Assured,
        Policy::Assured => Policy::Caladan,
    }
}

/// The verdict on a history by this policy.
fn audited(
    alloc: Global,
    config: &Config,
    policy: Policy,
    history: &[PassEntry],
) -> Result<Verdict, AllocError>
    ensures { IfOk result (IsVerdictBy policy config.now history.now) }
{
    let mut auditor = Auditor::open_by(alloc, config, policy)?;
    for entry in history {
        auditor.next(config, entry);
    }
    Ok(auditor.verdict())
}
