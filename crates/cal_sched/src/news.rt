//! What a pass finds, taken in one walk: only what is news is judged.

ghost use Rattle.std.specs.Prelude.{◌≡◌, [], List, length};
ghost use Rattle.cal_policy.specs.declared.judgement.open_input.FoundLook.{FoundLook};
ghost use Rattle.cal_policy.specs.declared.history.entry.PassEntry.{PassEntry};
ghost use Rattle.cal_policy.specs.State.{IsStateAfter};
ghost use Rattle.cal_policy.specs.Judgement.OpenPass.{IsOpenAt};
ghost use Rattle.cal_policy.specs.Judgement.Settled.{SettledAreNoNews};
ghost use Rattle.cal_machine.specs.TableTasks.{threads_of_table};
ghost use Rattle.cal_sched.specs.Finding.{HaveFoundSo};
ghost use Rattle.cal_sched.specs.Passing.{HaveFound};

use cal_command::Sender;
use cal_machine::{Config, Past};
use cal_policy::state::Board;
use cal_policy::{FoundLook, OpenPass};
use cal_signal::Observer;

/// Looks once at each page and asks each ring for room, in thread order, and takes what was found
/// into a pass that has no look yet. What is no news is passed over.
pub(crate) fn find_news(
    config: &Config,
    board: &Board,
    observers: &mut [Observer],
    senders: &mut [Sender],
    found: &mut Past<FoundLook>,
    pass: &mut OpenPass,
)
    requires pages { length observers.old ≡ threads_of_table config.now }
    requires rings { length senders.old ≡ threads_of_table config.now }
    requires nothing { found.old ≡ [] }
    requires begun { (h : List PassEntry) → IsOpenAt config.now h [] pass.old }
    ensures all { pass.new.count ≡ threads_of_table config.now }
    ensures found { HaveFound observers.old observers.new senders.old senders.new found.new }
    ensures taken { (h : List PassEntry) → SettledAreNoNews config.now h →
        IsStateAfter board.now h → HaveFoundSo h observers.old →
        IsOpenAt config.now h found.new pass.new }
{
    config.limits();
    for k in 0..config.threads() {
        let look = observers[k].observe();
        let room = senders[k].room();
        let one = FoundLook { look, room };
        found.note(&one);
        if !pass.pass_over(board, one) {
            pass.take(config, board, one);
        }
    }
}
