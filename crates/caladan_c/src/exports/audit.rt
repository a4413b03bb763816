//! The calls of an audit: it is opened, takes recorded passes, says whether all are legal, and is
//! closed.

ghost use Rattle.std.specs.Prelude.{◌≡◌, ◌≢◌, ◌⊎◌, IfOk, IfErr, OnErr, Err, None, List, length};
ghost use Rattle.std.specs.Prelude.{true, false};
ghost use Rattle.std.specs.Option.{is_some, ForSome, IsSomeAnd};
ghost use Rattle.cal_machine.specs.Reading.{table_in};
ghost use Rattle.cal_policy.specs.Policies.{IsVerdictBy};
ghost use Rattle.cal_policy.specs.declared.policy.Policy.{Policy as PolicyOf};
ghost use Rattle.cal_policy.specs.declared.policy.Policy.TheVariants.{Caladan};
ghost use Rattle.cal_policy.specs.declared.history.entry.PassEntry.{PassEntry};
ghost use Rattle.cal_policy.specs.declared.verdict.Verdict.TheVariants.{Legal, Illegal};
ghost use Rattle.caladan_c.specs.Answer.{refusal_number, finding_number};
ghost use Rattle.caladan_c.specs.AuditView.{HasAudited, SaysAudit, TookRecorded};
ghost use Rattle.caladan_c.specs.Recorded.{AreNoJudgements, AreNoActions};
ghost use Rattle.caladan_c.specs.declared.answer.Refusal.TheVariants.{Closed, Memory, NoAction};
ghost use Rattle.caladan_c.specs.declared.answer.Refusal.TheVariants.{NoJudgement, NoPolicy, Open};
ghost use Rattle.caladan_c.specs.declared.answer.Refusal.TheVariants.{WrongCount};
ghost use Rattle.caladan_c.specs.declared.answer.Finding.TheVariants as findings;
ghost use Rattle.caladan_c.specs.Kinds.{audit_in};
ghost use Rattle.caladan_c.specs.PolicyNumbers.{policy_numbered};

use crate::answer::{Finding, Refusal};
use crate::audit::Audit;
use crate::found::Found;
use crate::handed_in::HandedIn;
use crate::handle::Handle;
use crate::handle::kept::Kept;
use crate::policy_numbers::policy_numbered;
use crate::recorded::entry_of;
use crate::told::Told;
use cal_policy::{Policy, Verdict};
use std::alloc::Global;

/// Opens an audit by `Policy::Caladan` of the table that a text spells, in a closed handle: 0, or
/// the table's fault, 1 to 9.
#[unsafe(no_mangle)]
pub extern "C" fn caladan_audit_open(alloc: Global, table: &[u8], handle: &mut Handle) -> u8
    ensures already { is_some handle.old.pointer.kept ≡ true → result ≡ refusal_number Open }
    ensures opened { is_some handle.old.pointer.kept ≡ false → result ≢ refusal_number Memory →
        SaysAudit Caladan (table_in table.now) result (audit_in handle.new) }
    ensures refused { result ≢ 0 → handle.new ≡ handle.old }
{
    opened!(Audit: handle, alloc; Audit::open(alloc, table, Policy::Caladan))
}

/// Opens an audit by the policy of a number of the table that a text spells, in a closed handle: 0,
/// or the table's fault, 1 to 9; 22 no policy has the number.
#[unsafe(no_mangle)]
pub extern "C" fn caladan_audit_open_policy(
    alloc: Global,
    table: &[u8],
    policy: u32,
    handle: &mut Handle,
) -> u8
    ensures already { is_some handle.old.pointer.kept ≡ true → result ≡ refusal_number Open }
    ensures no_policy { is_some handle.old.pointer.kept ≡ false → policy_numbered policy ≡ None →
        result ≡ refusal_number NoPolicy }
    ensures opened { is_some handle.old.pointer.kept ≡ false → result ≢ refusal_number Memory →
        ForSome (policy_numbered policy) (λ by.
        SaysAudit by (table_in table.now) result (audit_in handle.new)) }
    ensures refused { result ≢ 0 → handle.new ≡ handle.old }
{
    opened_by!(Audit: handle, alloc, policy; by => Audit::open(alloc, table, by))
}

impl Audit {
    /// Takes the pass that was recorded as the next one, or says why not.
    fn next_recorded(
        &mut self,
        alloc: Global,
        given: HandedIn<'_>,
        judged: &[u8],
        actions: &[Told],
    ) -> Result<(), Refusal>
        ensures taken { IfOk result (λ _. TookRecorded self.old given.entry.now
            given.entry.bandwidth given.entry.looks.now judged.now actions.now self.new) }
        ensures no_judgement { result ≡ Err NoJudgement →
            AreNoJudgements given.entry.looks.now judged.now }
        ensures no_action { result ≡ Err NoAction → AreNoActions actions.now }
        ensures wrong_count { length given.entry.looks.now ≢ length judged.now →
            result ≡ Err WrongCount }
        ensures answers { length given.entry.looks.now ≡ length judged.now →
            IfErr result (λ why. (why ≡ NoJudgement) ⊎ (why ≡ NoAction) ⊎ (why ≡ Memory)) }
        ensures why { IfErr result (λ why. (why ≡ WrongCount) ⊎ (why ≡ NoJudgement) ⊎
            (why ≡ NoAction) ⊎ (why ≡ Memory)) }
        ensures refused { OnErr result (self.new ≡ self.old) }
    {
        let entry = entry_of(alloc, given, judged, actions)?;
        self.next(&entry);
        Ok(())
    }
}

/// Hands the audit the next recorded pass: what was found of the threads, what was judged of each
/// look, and the actions. 0, whether or not the pass is legal; 10 the handle is closed; 13 there is
/// not one judgement for each look; 17 an action is none; 19 a number is no judgement of its look;
/// 9 no memory. After another number than 0 nothing has changed.
#[unsafe(no_mangle)]
pub extern "C" fn caladan_audit_pass(
    alloc: Global,
    handle: &mut Handle,
    now: u64,
    bandwidth: u64,
    looks: &[Found],
    judged: &[u8],
    actions: &[Told],
) -> u8
    ensures closed { is_some (audit_in handle.old) ≡ false → result ≡ refusal_number Closed }
    ensures taken { result ≡ 0 → ForSome (audit_in handle.old) (λ a.
        IsSomeAnd (audit_in handle.new) (TookRecorded a now bandwidth looks.now judged.now
        actions.now)) }
    ensures no_judgement { result ≡ refusal_number NoJudgement → AreNoJudgements looks.now
        judged.now }
    ensures no_action { result ≡ refusal_number NoAction → AreNoActions actions.now }
    ensures wrong_count { ForSome (audit_in handle.old) (λ _.
        length looks.now ≢ length judged.now → result ≡ refusal_number WrongCount) }
    ensures answers { ForSome (audit_in handle.old) (λ _. length looks.now ≡ length judged.now →
        (result ≡ 0) ⊎ (result ≡ refusal_number NoJudgement) ⊎ (result ≡ refusal_number NoAction) ⊎
        (result ≡ refusal_number Memory)) }
    ensures own { (result ≡ 0) ⊎ (result ≡ refusal_number Memory) ⊎
        (result ≡ refusal_number Closed) ⊎ (result ≡ refusal_number WrongCount) ⊎
        (result ≡ refusal_number NoAction) ⊎ (result ≡ refusal_number NoJudgement) }
    ensures refused { result ≢ 0 → handle.new.pointer.kept ≡ handle.old.pointer.kept }
{
    did!(Audit: handle, alloc;
        kept => kept.next_recorded(alloc, HandedIn { now, bandwidth, looks }, judged, actions);
        _taken => ())
}

/// What the audit says of the passes so far: 0 each is legal; 20 one is not, and `pass` is the
/// first that is not, counted from 0; 10 the handle is closed.
#[unsafe(no_mangle)]
pub extern "C" fn caladan_audit_verdict(alloc: Global, handle: &mut Handle, pass: &mut u64) -> u8
    ensures closed { is_some (audit_in handle.old) ≡ false → result ≡ refusal_number Closed }
    ensures legal { result ≡ 0 → ForSome (audit_in handle.old) (λ a.
        (policy : PolicyOf) (h : List PassEntry) → HasAudited policy a h →
        IsVerdictBy policy a.table h Legal) }
    ensures illegal { result ≡ finding_number findings.Illegal →
        ForSome (audit_in handle.old) (λ a.
        (policy : PolicyOf) (h : List PassEntry) → HasAudited policy a h →
        IsVerdictBy policy a.table h (Illegal pass.new)) }
    ensures answers { ForSome (audit_in handle.old) (λ _. (result ≡ 0) ⊎
        (result ≡ finding_number findings.Illegal)) }
    ensures other { result ≢ finding_number findings.Illegal → pass.new ≡ pass.old }
    ensures same { handle.new.pointer.kept ≡ handle.old.pointer.kept }
{
    asked!(Audit: handle, alloc; Refusal::Closed as u8; kept => kept.verdict();
        verdict => match verdict {
            Verdict::Legal => 0,
            Verdict::Illegal { pass: first } => {
                *pass = first;
                Finding::Illegal as u8
            }
        })
}

/// Lets go of what the handle keeps: 0; 10 it is closed already.
#[unsafe(no_mangle)]
pub extern "C" fn caladan_audit_close(alloc: Global, handle: &mut Handle) -> u8
    ensures already { is_some (audit_in handle.old) ≡ false → result ≡ refusal_number Closed }
    ensures closed { is_some (audit_in handle.old) ≡ true → result ≡ 0 }
    ensures after { is_some (audit_in handle.old) ≡ true → handle.new.pointer.kept ≡ None }
    ensures other { is_some (audit_in handle.old) ≡ false →
        handle.new.pointer.kept ≡ handle.old.pointer.kept }
{
    let_go!(Audit: handle, alloc)
}
