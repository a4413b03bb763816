//! What an action sends to a kernel thread.

ghost use Rattle.std.specs.Prelude.{◌≡◌, ℕ, List};
ghost use Rattle.cal_policy.specs.declared.history.action.Action.{Action};
ghost use Rattle.cal_policy.specs.declared.history.action.Action.TheVariants.{Revoke};
ghost use Rattle.cal_policy.specs.declared.history.action.Cause.{Cause};
ghost use Rattle.cal_policy.specs.History.{addressed_to, last_thread, sends};

use crate::history::action::Action;
use cal_machine::Command;

/// What an action sends, and to which thread: a grant sends Run, and a revocation sends Park to the
/// thread of the core's last grant before it, if there is one. The other actions send nothing.
///
/// `granted` is the thread of that last grant. It matters to a revocation alone.
pub fn command_for(action: Action, granted: Option<u8>) -> Option<(u8, Command)>
    ensures { (x : List Action) →
        ((core : ℕ) (cause : Cause) → action ≡ Revoke core cause → granted ≡ last_thread x core) →
        (k : ℕ) → addressed_to k result ≡ sends k x action }
{
    match action {
        Action::Grant { core, thread, .. } => Some((thread, Command::Run(core))),
        Action::Revoke { .. } => match granted {
            Some(thread) => Some((thread, Command::Park)),
            None => None,
        },
        Action::Free { .. } | Action::Unban { .. } | Action::Ban { .. } | Action::Cap { .. } =>
            None,
    }
}
