//! What the state after a history says of cores, tasks and threads.

ghost use Rattle.std.specs.Prelude.{◌≡◌, ◌<◌, List, length};
ghost use Rattle.std.specs.Option.{is_some, IfSome};
ghost use Rattle.cal_machine.specs.declared.machine.TheConstants.{MOST_CORES};
ghost use Rattle.cal_machine.specs.TableTasks.{threads_of_table};
ghost use Rattle.cal_policy.specs.declared.history.entry.PassEntry.{PassEntry};
ghost use Rattle.cal_policy.specs.History.{actions_of, looks_of, holder_of};
ghost use Rattle.cal_policy.specs.History.Looks.{kept_by};
ghost use Rattle.cal_policy.specs.Board.{kept_holder};
ghost use Rattle.cal_policy.specs.State.{IsReady, IsStateAfter};
ghost use Rattle.cal_policy.specs.Board.Counts as counts;
ghost use Rattle.cal_policy.specs.Judgement.Gone.{shown_when_gone, can_be_gone};
ghost use Rattle.cal_policy.specs.Judgement.OneByOne.{sent_as_u64};

use crate::board::Board;
use crate::board::counts::{booked_by, cap_of, held_by};
use crate::board::holders::Holder;
use cal_machine::Config;
use cal_signal::{Record, Shown};

impl Board {
    /// Who has a core after the history. A number is the least of the Run's and 2^64.
    pub fn holder(&self, core: u8) -> Holder
        requires { core < MOST_CORES }
        ensures { (h : List PassEntry) → IsStateAfter self.now h →
            result ≡ kept_holder (holder_of (actions_of h) core) }
    {
        self.holding.holders[core as usize]
    }

    /// How many cores a task's threads hold after the history; one that is being left is not held.
    pub fn held(&self, config: &Config, task: usize) -> u8
        requires ready { IsReady config.now self.now }
        requires task { task < length config.now.tasks }
        ensures { (h : List PassEntry) → IsStateAfter self.now h →
            result ≡ counts.held_by config.now (actions_of h) task }
    {
        config.limits();
        held_by(config, self, task)
    }

    /// How many cores a task's threads hold or leave after the history.
    pub fn booked(&self, config: &Config, task: usize) -> u8
        requires ready { IsReady config.now self.now }
        requires task { task < length config.now.tasks }
        ensures { (h : List PassEntry) → IsStateAfter self.now h →
            result ≡ counts.booked_by config.now (actions_of h) task }
    {
        config.limits();
        booked_by(config, self, task)
    }

    /// The cap of a task after the history: its last one, else its limit.
    pub fn cap(&self, config: &Config, task: usize) -> u8
        requires { task < length config.now.tasks }
        ensures { (h : List PassEntry) → IsStateAfter self.now h →
            result ≡ counts.cap_of config.now (actions_of h) task }
    {
        config.limits();
        cap_of(config, self, task)
    }

    /// How many commands were sent to thread `k`, as far as 64 bits say it.
    pub fn sent(&self, config: &Config, k: usize) -> u64
        requires { k < threads_of_table config.now }
        ensures { (h : List PassEntry) → IsStateAfter self.now h → result ≡ sent_as_u64 h k }
    {
        config.limits();
        let sent = self.holding.sent[k];
        if sent < 1 << 64 {
            sent as u64
        } else {
            u64::MAX
        }
    }

    /// The kept record of thread `k`.
    pub fn kept(&self, config: &Config, k: usize) -> Record
        requires { k < threads_of_table config.now }
        ensures { (h : List PassEntry) → IsStateAfter self.now h → result ≡ kept_by (looks_of h) k }
    {
        config.limits();
        self.keeping.kept[k]
    }

    /// What the page of thread `k` must show once the thread is gone, so that its core is freed.
    /// None where no page can: the thread has shown more commands taken than were sent, or a number
    /// is at its end.
    pub fn gone(&self, config: &Config, k: usize) -> Option<Shown>
        requires { k < threads_of_table config.now }
        ensures some { (h : List PassEntry) → IsStateAfter self.now h →
            IfSome result (λ shown. shown ≡ shown_when_gone h k) }
        ensures none { (h : List PassEntry) → IsStateAfter self.now h →
            is_some result ≡ can_be_gone h k }
    {
        config.limits();
        let last = self.keeping.shown(k);
        let sent = self.holding.sent[k];
        if u128::from(last.rec.taken) <= sent && sent < 1 << 64 && last.number < u64::MAX {
            Some(Shown {
                number: last.number + 1,
                rec: Record {
                    taken: sent as u64,
                    misses: last.rec.misses,
                    stamp: last.rec.stamp,
                    ..Record::ZERO
                },
            })
        } else {
            None
        }
    }
}
