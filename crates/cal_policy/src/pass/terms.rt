//! What a pass goes by beside the task table and the state.

ghost use Rattle.std.specs.Prelude.{◌≡◌, ◌≤◌, List, length};
ghost use Rattle.cal_machine.specs.TableTasks.{threads_of_table};
ghost use Rattle.cal_machine.specs.declared.numbering.TheConstants.{MOST_THREADS};
ghost use Rattle.cal_policy.specs.declared.history.entry.PassEntry.{PassEntry};
ghost use Rattle.cal_policy.specs.declared.judgement.open_input.FoundLook.{FoundLook};
ghost use Rattle.cal_policy.specs.Board.{HasSizes};
ghost use Rattle.cal_policy.specs.Judgement.OpenInput.{judged_input, judged_looks};
ghost use Rattle.cal_policy.specs.Judgement.OpenPass.{IsOpenAt};
ghost use Rattle.cal_policy.specs.Setting.{Begun, rooms_from, setting, setting_at};

use crate::history::input::Input;
use crate::judgement::open_pass::OpenPass;
use crate::policy::Policy;
use cal_machine::{Config, ThreadSet};

/// What a pass goes by beside the task table and the state: its policy, its clock, its bandwidth
/// figure, and which rings have no room.
#[derive(Clone, Copy)]
pub struct Terms {
    /// Whose rules choose its actions.
    pub policy: Policy,
    /// The clock, in ticks.
    pub now: u64,
    /// The bandwidth figure; more than the table's limit takes a core from a best-effort task.
    pub bandwidth: u64,
    /// The threads whose command ring has no room.
    pub full: ThreadSet,
}

/// The threads whose ring has no room.
fn full_rings(rooms: &[bool]) -> ThreadSet
    requires { length rooms.now ≤ MOST_THREADS }
    ensures { rooms_from result 0 (length rooms.now) ≡ rooms.now }
{
    let mut full = ThreadSet::empty();
    for k in 0..rooms.len() {
        if !rooms[k] {
            full.insert(k);
        }
    }
    full
}

impl Terms {
    /// Those of an input, of a pass of `Policy::Caladan`.
    pub fn of(config: &Config, input: &Input) -> Terms
        requires { HasSizes config.now input.now }
        ensures { (h : List PassEntry) → setting config.now h input.entry.now
            ≡ setting_at config.now result (record { history = h; seen = input.entry.now.seen }) }
    {
        config.limits();
        Terms {
            policy: Policy::Caladan,
            now: input.now,
            bandwidth: input.bandwidth,
            full: full_rings(input.rooms.as_slice()),
        }
    }

    /// Those of such a pass at this clock and bandwidth figure on the looks that came in, one of each
    /// thread.
    pub fn of_noted(config: &Config, now: u64, bandwidth: u64, looks: &OpenPass) -> Terms
        requires all { looks.now.count ≡ threads_of_table config.now }
        ensures { (h : List PassEntry) (found : List FoundLook) →
            IsOpenAt config.now h found looks.now →
            setting config.now h (judged_input config.now h now bandwidth found)
            ≡ setting_at config.now result (record {
              history = h;
              seen = judged_looks config.now h found;
            }) }
    {
        config.limits();
        Terms {
            policy: Policy::Caladan,
            now,
            bandwidth,
            full: looks.full,
        }
    }

    /// The same, of a pass of this policy.
    pub fn by(self, policy: Policy) -> Terms
        ensures { result ≡ record self { policy = policy } }
    {
        Terms { policy, ..self }
    }
}
