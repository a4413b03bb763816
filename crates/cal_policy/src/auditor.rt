//! The audit of a history as it grows, one pass after the other.

ghost use Rattle.std.specs.Prelude.{◌≡◌, ◌<◌, ◌^◌, ◌++◌, ◌∷◌, ◌↔◌, [], List, length, IfOk, IsTrue};
ghost use Rattle.cal_machine.specs.Table.{Table};
ghost use Rattle.cal_policy.specs.Auditor.{IsAuditOf, IsAuditorOf};
ghost use Rattle.cal_policy.specs.State.{IsReady, IsStateAfter};
ghost use Rattle.cal_policy.specs.Book.{board_in};
ghost use Rattle.cal_policy.specs.Pass.{IsLegal};
ghost use Rattle.cal_policy.specs.Policies.{AfterOwn, IsPassBy, IsLegalBy, IsVerdictBy, IsAuditBy};
ghost use Rattle.cal_policy.specs.Verdict.{IsVerdict};
ghost use Rattle.cal_policy.specs.declared.history.entry.PassEntry.{PassEntry};
ghost use Rattle.cal_policy.specs.declared.policy.Policy.{Policy};

use crate::board::Board;
use crate::book::Book;
use crate::history::action_list::Actions;
use crate::history::entry::PassEntry;
use crate::policy::Policy;
use crate::verdict::{Verdict, same_actions};
use cal_machine::Config;
use std::alloc::{AllocError, Global};

/// The audit of a history that is handed to it one pass after the other, whether it was read whole
/// or still grows. It says at any time what `audit` says of the passes so far, and each pass costs
/// the work of that pass alone: it goes by a Book, where `audit` goes over all passes before. Only
/// opening it takes memory.
///
/// Every call is to be given the table that it was opened for.
#[derive(Drop)]
pub struct Auditor {
    book: Book,
    /// Room for the actions of a pass.
    actions: Actions,
    /// How many passes there were, as long as each was the policy's.
    passes: u64,
    verdict: Verdict,
}

/// Whether an entry is the next pass of a book, which takes it in where it is. `actions` is room to
/// work in.
fn is_next(config: &Config, book: &mut Book, entry: &PassEntry, actions: &mut Actions) -> bool
    requires of { IsReady config.now (board_in book.old) }
    ensures of { IsReady config.now (board_in book.new) }
    ensures policy { book.new.policy ≡ book.old.policy }
    ensures exact { AfterOwn config.now book.old (λ h.
        IsTrue result ↔ IsPassBy book.old.policy config.now h entry.now) }
    ensures agrees { IsTrue result → AfterOwn config.now book.old (λ h.
        IsStateAfter (board_in book.new) (h ++ entry.now ∷ [])) }
{
    if !book.fits(config, &entry.input) {
        return false;
    }
    actions.clear();
    book.step(config, &entry.input, actions);
    same_actions(entry.actions.as_slice(), actions.as_slice())
}

impl Auditor {
    /// The audit of the empty history, by `Policy::Caladan`. Fails only when out of memory.
    pub fn open(alloc: Global, config: &Config) -> Result<Auditor, AllocError>
        ensures audits { IfOk result (λ auditor. IsAuditOf config.now [] auditor) }
        ensures of { IfOk result (λ auditor. IsAuditorOf config.now auditor) }
    {
        Auditor::open_by(alloc, config, Policy::Caladan)
    }

    /// The audit of the empty history, by this policy. Fails only when out of memory.
    pub fn open_by(alloc: Global, config: &Config, policy: Policy) -> Result<Auditor, AllocError>
        ensures audits { IfOk result (λ auditor. IsAuditBy policy config.now [] auditor) }
        ensures of { IfOk result (λ auditor. IsAuditorOf config.now auditor) }
    {
        let book = Book::open_by(alloc, config, policy)?;
        let actions = Actions::reserved(alloc)?;
        Ok(Auditor {
            book,
            actions,
            passes: 0,
            verdict: Verdict::Legal,
        })
    }

    /// Takes the next pass of the history. Any entry may be given.
    pub fn next(&mut self, config: &Config, entry: &PassEntry)
        requires of { IsAuditorOf config.now self.old }
        ensures audits { (h : List PassEntry) → length h < 2 ^ 64 →
            IsAuditOf config.now h self.old →
            IsAuditOf config.now (h ++ entry.now ∷ []) self.new }
        // The same by the auditor's own policy.
        ensures own { (policy : Policy) (h : List PassEntry) → length h < 2 ^ 64 →
            IsAuditBy policy config.now h self.old →
            IsAuditBy policy config.now (h ++ entry.now ∷ []) self.new }
        ensures of { IsAuditorOf config.now self.new }
    {
        match self.verdict {
            Verdict::Illegal { .. } => {}
            Verdict::Legal => {
                if is_next(config, &mut self.book, entry, &mut self.actions) {
                    self.passes = self.passes.saturating_add(1);
                } else {
                    self.verdict = Verdict::Illegal { pass: self.passes };
                }
            }
        }
    }

    /// The state that the passes so far leave, where they are legal.
    pub fn board(&self) -> &Board
        ensures agrees { (table : Table) (h : List PassEntry) → IsLegal table h →
            IsAuditOf table h self.now → IsStateAfter result.now h }
        ensures own { (policy : Policy) (table : Table) (h : List PassEntry) →
            IsLegalBy policy table h → IsAuditBy policy table h self.now →
            IsStateAfter result.now h }
        ensures ready { (table : Table) → IsAuditorOf table self.now → IsReady table result.now }
    {
        self.book.board()
    }

    /// What the audit says of the passes so far.
    pub fn verdict(&self) -> Verdict
        ensures audits { (table : Table) (h : List PassEntry) → IsAuditOf table h self.now →
            IsVerdict table h result }
        ensures own { (policy : Policy) (table : Table) (h : List PassEntry) →
            IsAuditBy policy table h self.now → IsVerdictBy policy table h result }
    {
        self.verdict
    }
}
