//! To which tasks free cores are owed, kept up with each action.

ghost use Rattle.std.specs.Prelude.{◌≡◌, ℕ, ◌++◌, ◌∷◌, [], List, Some, replicate};
ghost use Rattle.cal_machine.specs.declared.machine.TheConstants.{MOST_CORES};
ghost use Rattle.cal_machine.specs.declared.numbering.TheConstants.{MOST_THREADS};
ghost use Rattle.cal_policy.specs.declared.history.action.Action.{Action};
ghost use Rattle.cal_policy.specs.Assured.Owed as rules;
ghost use Rattle.cal_policy.specs.Board.Debts.{DebtsAgree};
ghost use Rattle.cal_policy.specs.Board.{NamesCores, core_changed, kept_holder};
ghost use Rattle.cal_policy.specs.History.{holder_of};

use crate::board::holders::Holder;
use crate::history::action::{Action, Cause};
use cal_machine::MOST_CORES;

/// The free cores that are owed to a task: each was revoked for it, and left.
#[derive(Drop)]
pub struct Debts {
    /// The task to which each core is owed.
    pub owed: [Option<u8>; MOST_CORES],
}

fn nothing_owed() -> [Option<u8>; MOST_CORES]
    ensures { result ≡ replicate MOST_CORES None }
{
    [None; MOST_CORES]
}

/// The task for which a cause takes a core.
fn task_of_cause(cause: Cause) -> Option<u8>
    ensures { result ≡ rules.task_of_cause cause }
{
    match cause {
        Cause::Preempt { task } => Some(task),
        Cause::Ban { .. } => None,
        Cause::Bandwidth => None,
    }
}

/// The task for which a core is being left.
fn left_for(holder: Holder) -> Option<u8>
    ensures { result ≡ rules.left_for holder }
{
    match holder {
        Holder::Free => None,
        Holder::Held(_) => None,
        Holder::Leaving(_, cause) => task_of_cause(cause),
    }
}

impl Debts {
    /// No core is owed before any action.
    pub fn new() -> Debts
        ensures { DebtsAgree result [] }
    {
        Debts {
            owed: nothing_owed(),
        }
    }

    /// Brings the debts up to one more action; `before` had the core that it changes.
    pub fn note(&mut self, action: Action, before: Holder)
        requires { NamesCores MOST_CORES MOST_THREADS action }
        ensures { (x : List Action) → DebtsAgree self.old x →
            ((c : ℕ) → core_changed action ≡ Some c → before ≡ kept_holder (holder_of x c)) →
            DebtsAgree self.new (x ++ action ∷ []) }
    {
        match action {
            Action::Free { core } => self.owed[core as usize] = left_for(before),
            Action::Revoke { core, .. } => self.owed[core as usize] = None,
            Action::Grant { core, .. } => self.owed[core as usize] = None,
            Action::Unban { .. } => {}
            Action::Ban { .. } => {}
            Action::Cap { .. } => {}
        }
    }
}
