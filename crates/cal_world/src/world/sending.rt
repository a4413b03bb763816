//! What the actions of a pass send to the kernel threads.

ghost use Rattle.std.specs.Prelude.{◌≡◌, ◌+◌, ◌∷◌, ◌++◌, [], Some, ℕ};
ghost use Rattle.std.specs.Prelude.{List, length, OnOk};
ghost use Rattle.cal_policy.specs.declared.history.action.Action.{Action};
ghost use Rattle.cal_policy.specs.Board.{core_changed};
ghost use Rattle.cal_policy.specs.History.{last_thread};
ghost use Rattle.cal_world.specs.World.Sending.{AreGranted, AreSent, HaveRoom};

use crate::world::outbox::Outbox;
use cal_policy::Action;
use cal_policy::laws::action_is_one_more;
use cal_policy::state::{command_for, core_changed_by};
use std::alloc::AllocError;

/// No core was granted.
pub(crate) fn none_granted() -> [Option<u8>; 256]
    ensures { AreGranted result [] }
{
    [None; 256]
}

/// The thread to which the core that an action names was last granted.
fn last_granted(granted: &[Option<u8>; 256], action: Action) -> Option<u8>
    ensures { (x : List Action) (core : ℕ) → AreGranted granted.now x →
        core_changed action ≡ Some core → result ≡ last_thread x core }
{
    match core_changed_by(action) {
        None => None,
        Some(core) => granted[core as usize],
    }
}

/// Notes whom an action grants a core.
fn note_grant(granted: &mut [Option<u8>; 256], action: Action)
    ensures { (x : List Action) →
        AreGranted granted.old x → AreGranted granted.new (x ++ action ∷ []) }
{
    match action {
        Action::Grant { core, thread, .. } => granted[core as usize] = Some(thread),
        Action::Free { .. } => {}
        Action::Revoke { .. } => {}
        Action::Unban { .. } => {}
        Action::Ban { .. } => {}
        Action::Cap { .. } => {}
    }
}

/// Makes room for so many more commands to each thread. Fails only when out of memory.
pub(crate) fn make_room(sent: &mut Vec<Outbox>, additional: usize) -> Result<(), AllocError>
    ensures length { length sent.new.items ≡ length sent.old.items }
    ensures same { (x : List Action) → AreSent sent.old.items x → AreSent sent.new.items x }
    ensures room { OnOk result (HaveRoom sent.new.items additional) }
{
    for k in 0..sent.len() {
        sent[k].reserve(additional)?;
    }
    Ok(())
}

/// Sends what one action sends. There is room for it.
fn send_one(sent: &mut Vec<Outbox>, granted: &[Option<u8>; 256], action: Action)
    requires { HaveRoom sent.old.items 1 }
    ensures length { length sent.new.items ≡ length sent.old.items }
    ensures sent { (x : List Action) → AreGranted granted.now x →
        AreSent sent.old.items x → AreSent sent.new.items (x ++ action ∷ []) }
    ensures room { (n : ℕ) → HaveRoom sent.old.items (n + 1) → HaveRoom sent.new.items n }
{
    action_is_one_more();
    let last = last_granted(granted, action);
    if let Some((thread, command)) = command_for(action, last) {
        if (thread as usize) < sent.len() {
            sent[thread as usize].send(command);
        }
    }
}

/// Sends what the actions of a pass send. There is room for as many commands as there are actions.
pub(crate) fn send_all(sent: &mut Vec<Outbox>, granted: &mut [Option<u8>; 256], actions: &[Action])
    requires { HaveRoom sent.old.items (length actions.now) }
    ensures length { length sent.new.items ≡ length sent.old.items }
    ensures granted { (x : List Action) →
        AreGranted granted.old x → AreGranted granted.new (x ++ actions.now) }
    ensures sent { (x : List Action) → AreGranted granted.old x →
        AreSent sent.old.items x → AreSent sent.new.items (x ++ actions.now) }
{
    for action in actions {
        send_one(sent, granted, *action);
        note_grant(granted, *action);
    }
}
