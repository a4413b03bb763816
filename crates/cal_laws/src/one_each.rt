//! How much one pass sends.
//!
//! At every point of a legal history. What cal_guard has by the same name is of permitted ones.

ghost use Rattle.cal_laws.specs.OneEach.{CommandsGoWhereIsRoom, ActionsComeInTurn};
ghost use Rattle.cal_laws.specs.OneEach.{TasksAreServedOnce};
ghost use Rattle.cal_laws.specs.OneEach.{ThreadsAreSentOneCommand, PassesAreShort};

use cal_machine::laws::threads_are_of_their_task;
use cal_policy::laws::{
    action_is_one_more, chosen_has_waited_longest, chosen_is_of_least_class, last_thread_is_placed,
    legal_is_short, legal_is_sound, victim_has_most_misses,
};

/// A command is sent only to a thread whose ring has room.
pub fn commands_go_where_is_room()
    ensures { CommandsGoWhereIsRoom }
{
    legal_is_sound();
    action_is_one_more();
    last_thread_is_placed();
    chosen_has_waited_longest();
    chosen_is_of_least_class();
    victim_has_most_misses();
    threads_are_of_their_task();
}

/// The actions of a pass come strictly in turn, part by part: frees, unbans, bans with their
/// revocations, each core by core upwards; at most one cap with its revocation; then what is done
/// for latency-critical tasks by number, then for best-effort tasks by number.
pub fn actions_come_in_turn()
    ensures { ActionsComeInTurn }
{
    chosen_has_waited_longest();
    threads_are_of_their_task();
}

/// A pass makes at most one grant or preemption for each task.
pub fn tasks_are_served_once()
    ensures { TasksAreServedOnce }
{
    actions_come_in_turn();
}

/// A pass sends each thread at most one command.
pub fn threads_are_sent_one_command()
    ensures { ThreadsAreSentOneCommand }
{
    legal_is_sound();
    action_is_one_more();
    last_thread_is_placed();
    chosen_is_of_least_class();
    chosen_has_waited_longest();
    threads_are_of_their_task();
}

/// A pass has at most `MOST_ACTIONS` actions.
pub fn passes_are_short()
    ensures { PassesAreShort }
{
    legal_is_short();
}
