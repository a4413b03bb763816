//! What a pass sends: one command for each grant and each revocation.

ghost use Rattle.std.specs.Prelude.{◌≡◌, [], ◌∷◌, ◌++◌};
ghost use Rattle.cal_sched.specs.Passing.{HaveSent};
ghost use Rattle.cal_sched.specs.Past.{history_of, entry_of};
ghost use Rattle.cal_sched.specs.Sending.{MaySend};

use crate::found_pass::FoundPass;
use cal_command::Sender;
use cal_guard::{
    commands_go_where_is_room, each_policy_is_permitted, threads_are_sent_one_command,
};
use cal_machine::{Config, Past};
use cal_policy::{Action, Book};

/// Sends the commands of this pass, one action after the other, each on its thread's ring. The past
/// are the passes before it, and the book, whose policy made them, is the one after it.
pub(crate) fn send_commands(
    config: &Config,
    book: &Book,
    past: &Past<FoundPass>,
    pass: &FoundPass,
    actions: &[Action],
    senders: &mut [Sender],
)
    requires may { MaySend config.now book.now (history_of book.now.policy config.now past.now
        ++ entry_of book.now.policy config.now
        (history_of book.now.policy config.now past.now) pass.now ∷ []) senders.old }
    requires made { actions.now ≡ (entry_of book.now.policy config.now
        (history_of book.now.policy config.now past.now) pass.now).actions }
    ensures { HaveSent senders.old senders.new (history_of book.now.policy config.now past.now
        ++ entry_of book.now.policy config.now
        (history_of book.now.policy config.now past.now) pass.now ∷ []) }
{
    let _ = past;
    let _ = pass;
    config.limits();
    each_policy_is_permitted();
    commands_go_where_is_room();
    threads_are_sent_one_command();
    for action in actions {
        if let Some((thread, command)) = book.command_of(*action) {
            senders[thread as usize].send(command);
        }
    }
}
