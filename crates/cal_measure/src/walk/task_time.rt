//! The core time of a task over the passes so far.

ghost use Rattle.std.specs.Prelude.{◌≡◌, ◌<◌, ◌++◌, ◌∷◌, [], ℕ, List, length};
ghost use Rattle.cal_machine.specs.Table.{Table};
ghost use Rattle.cal_measure.specs.Walk.{IsTimeOf, until_next};
ghost use Rattle.cal_policy.specs.State.{IsReady, IsStateAfter};
ghost use Rattle.cal_policy.specs.declared.history.entry.PassEntry.{PassEntry};
ghost use Rattle.cal_policy.specs.declared.history.entry.TheConstants.{MOST_PASSES};

use crate::cores::{core_time, ticks_if};
use crate::states::is_congested_when_ready;
use cal_machine::Config;
use cal_policy::state::{Board, booked_by, held_by};

/// The core time of a task over the passes so far, and how the last of them left it.
#[derive(Clone, Copy, Debug, PartialEq, Eq)]
pub struct TaskTime {
    /// The most cores that its threads held after a pass.
    pub most: u8,
    /// The core time that its threads held, in clock ticks.
    pub held: u128,
    /// The core time that its threads left, in clock ticks.
    pub leaving: u128,
    /// How long it was congested, in clock ticks.
    pub congested: u128,
    /// How many cores its threads hold since the last pass.
    pub holds: u8,
    /// How many cores its threads leave since the last pass.
    pub leaves: u8,
    /// Whether the last pass found it congested.
    pub found: bool,
}

/// When a pass was made.
#[derive(Clone, Copy, Debug, PartialEq, Eq)]
pub struct PassTiming {
    /// Its clock.
    pub clock: u64,
    /// How many ticks what was so after the pass before it lasted.
    pub lasts: u64,
}

impl TaskTime {
    /// Of no pass.
    pub fn none() -> TaskTime
        ensures { (table : Table) (t : ℕ) → IsTimeOf table [] t result }
    {
        TaskTime {
            most: 0,
            held: 0,
            leaving: 0,
            congested: 0,
            holds: 0,
            leaves: 0,
            found: false,
        }
    }

    /// With one pass more, made then, which left the board as it is.
    pub fn with_pass(
        self,
        config: &Config,
        board: &Board,
        task: usize,
        timing: PassTiming,
    ) -> TaskTime
        requires ready { IsReady config.now board.now }
        requires task { task < length config.now.tasks }
        ensures { (h : List PassEntry) (entry : PassEntry) → length h < MOST_PASSES →
            IsStateAfter board.now (h ++ entry ∷ []) → timing.clock ≡ entry.input.now →
            timing.lasts ≡ until_next h entry → IsTimeOf config.now h task self →
            IsTimeOf config.now (h ++ entry ∷ []) task result }
    {
        config.limits();
        let held = core_time(self.holds, timing.lasts);
        let leaving = core_time(self.leaves, timing.lasts);
        let congested = ticks_if(self.found, timing.lasts) as u128;
        let holds = held_by(config, board, task);
        let leaves = booked_by(config, board, task).saturating_sub(holds);
        TaskTime {
            most: self.most.max(holds),
            held: self.held.saturating_add(held),
            leaving: self.leaving.saturating_add(leaving),
            congested: self.congested.saturating_add(congested),
            holds,
            leaves,
            found: is_congested_when_ready(config, board, timing.clock, task),
        }
    }
}
