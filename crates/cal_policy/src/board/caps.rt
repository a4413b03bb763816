//! The caps of best-effort tasks.

ghost use Rattle.std.specs.Prelude.{◌≡◌, ◌<◌, ◌++◌, ◌∷◌, [], List, replicate};
ghost use Rattle.cal_machine.specs.declared.machine.TheConstants.{MOST_CORES};
ghost use Rattle.cal_machine.specs.declared.numbering.TheConstants.{MOST_THREADS};
ghost use Rattle.cal_machine.specs.declared.task_table.TheConstants.{MOST_TASKS};
ghost use Rattle.cal_policy.specs.declared.history.action.Action.{Action};
ghost use Rattle.cal_policy.specs.Board.{CapsAgree, NamesCores};

use crate::history::action::Action;
use cal_machine::MOST_TASKS;

/// The last cap of each task, where it had one.
#[derive(Drop)]
pub struct Caps {
    pub caps: [Option<u8>; MOST_TASKS],
}

fn no_caps() -> [Option<u8>; MOST_TASKS]
    ensures { result ≡ replicate MOST_TASKS None }
{
    [None; MOST_TASKS]
}

impl Caps {
    /// No task was capped before any action.
    pub fn new() -> Caps
        ensures { CapsAgree result [] }
    {
        Caps { caps: no_caps() }
    }

    /// Brings the caps up to one more action.
    pub fn apply(&mut self, action: Action)
        requires names { NamesCores MOST_CORES MOST_THREADS action }
        ensures { (x : List Action) → CapsAgree self.old x → CapsAgree self.new (x ++ action ∷ []) }
    {
        match action {
            Action::Cap { task, cap } => self.caps[task as usize] = Some(cap),
            Action::Free { .. } => {}
            Action::Unban { .. } => {}
            Action::Ban { .. } => {}
            Action::Revoke { .. } => {}
            Action::Grant { .. } => {}
        }
    }
}
