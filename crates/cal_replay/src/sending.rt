//! What the actions of a pass send.

ghost use Rattle.std.specs.Prelude.{◌≡◌, ◌++◌, ◌∷◌, [], List};
ghost use Rattle.cal_machine.specs.Table.{Table};
ghost use Rattle.cal_policy.specs.Board.{NamesTable};
ghost use Rattle.cal_policy.specs.Book.{IsSentBy};
ghost use Rattle.cal_policy.specs.History.{actions_of};
ghost use Rattle.cal_policy.specs.State.{Agrees, IsReady};
ghost use Rattle.cal_policy.specs.declared.history.action.Action.{Action as ActionOf};
ghost use Rattle.cal_policy.specs.declared.history.entry.PassEntry.{PassEntry as EntryOf};
ghost use Rattle.cal_sched.specs.Passing.{HaveSent};
ghost use Rattle.cal_replay.specs.Passes.{MaySendSo};

use cal_command::Sender;
use cal_guard::{commands_go_where_is_room, threads_are_sent_one_command};
use cal_machine::{Command, Config};
use cal_policy::state::{Board, command_for, core_changed_by};
use cal_policy::{Action, PassEntry};

/// Sends the commands of a pass, one action after the other, each on its thread's ring. The state is
/// the one that the actions before leave, and then the one that those of the pass do.
pub(crate) fn send_each(
    config: &Config,
    sent: &mut Board,
    entry: &PassEntry,
    senders: &mut Vec<Sender>,
)
    requires may { (before : List EntryOf)
        × MaySendSo config.now before entry.now sent.old senders.old.items }
    ensures sent { (before : List EntryOf) →
        MaySendSo config.now before entry.now sent.old senders.old.items →
        HaveSent senders.old.items senders.new.items (before ++ entry.now ∷ []) }
    ensures agrees { (x : List ActionOf) → Agrees sent.old x →
        Agrees sent.new (x ++ entry.now.actions) }
    ensures ready { IsReady config.now sent.new }
{
    config.limits();
    commands_go_where_is_room();
    threads_are_sent_one_command();
    let actions = entry.actions.as_slice();
    for action in actions {
        let command = command_of(config, sent, *action);
        sent.apply(config, *action);
        if let Some((thread, command)) = command {
            senders[thread as usize].send(command);
        }
    }
}

/// What an action sends after those that the state is of, and to which thread.
fn command_of(config: &Config, sent: &Board, action: Action) -> Option<(u8, Command)>
    requires ready { IsReady config.now sent.now }
    requires names { NamesTable config.now action }
    ensures { (x : List ActionOf) → Agrees sent.now x → IsSentBy config.now x action result }
{
    config.limits();
    let granted = sent.holding.thread_granted(core_changed_by(action));
    command_for(action, granted)
}
