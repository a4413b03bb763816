//! The core time of the machine over the passes so far.

ghost use Rattle.std.specs.Prelude.{◌≡◌, ◌<◌, ◌++◌, ◌∷◌, [], List, length, nat_lt};
ghost use Rattle.cal_machine.specs.Table.{Table};
ghost use Rattle.cal_measure.specs.Walk.{AreMachineCoresSoFar, IsMachineTimeOf, until_next};
ghost use Rattle.cal_policy.specs.State.{IsStateAfter};
ghost use Rattle.cal_policy.specs.declared.history.entry.PassEntry.{PassEntry};
ghost use Rattle.cal_policy.specs.declared.history.entry.TheConstants.{MOST_PASSES};

use crate::cores::{MachineCores, core_time, ticks_if};
use crate::states::count_states;
use cal_machine::Config;
use cal_policy::state::Board;

/// The core time of the machine over the passes so far, and how the last of them left its cores.
#[derive(Clone, Copy, Debug, PartialEq, Eq)]
pub struct MachineTime {
    /// The numbers of its cores.
    pub numbers: MachineCores,
    /// How many cores are held since the last pass.
    pub held: u8,
    /// How many are being left since then.
    pub leaving: u8,
    /// How many are banned since then, with nobody on the core.
    pub banned: u8,
    /// How many are free to be granted since then.
    pub free: u8,
    /// Whether the last pass found the bandwidth figure above the limit.
    pub is_over: bool,
}

/// Whether a bandwidth figure is above the limit.
fn is_above(config: &Config, figure: u64) -> bool
    ensures { result ≡ nat_lt config.now.bandwidth_limit figure }
{
    config.bandwidth_limit() < figure
}

impl MachineTime {
    /// Of no pass.
    pub fn none() -> MachineTime
        ensures { (table : Table) → IsMachineTimeOf table [] result }
    {
        let numbers = MachineCores {
            lasted: 0,
            held: 0,
            leaving: 0,
            banned: 0,
            free: 0,
            over_limit: 0,
        };
        MachineTime {
            numbers,
            held: 0,
            leaving: 0,
            banned: 0,
            free: 0,
            is_over: false,
        }
    }

    /// The numbers once the next pass comes: what was so after the last one lasted so many ticks.
    fn lasted(self, lasts: u64) -> MachineCores
        ensures { (table : Table) (h : List PassEntry) (entry : PassEntry) →
            length h < MOST_PASSES → lasts ≡ until_next h entry → IsMachineTimeOf table h self →
            AreMachineCoresSoFar table (h ++ entry ∷ []) result }
    {
        let held = core_time(self.held, lasts);
        let leaving = core_time(self.leaving, lasts);
        let banned = core_time(self.banned, lasts);
        let free = core_time(self.free, lasts);
        let over = ticks_if(self.is_over, lasts) as u128;
        MachineCores {
            lasted: self.numbers.lasted.saturating_add(lasts as u128),
            held: self.numbers.held.saturating_add(held),
            leaving: self.numbers.leaving.saturating_add(leaving),
            banned: self.numbers.banned.saturating_add(banned),
            free: self.numbers.free.saturating_add(free),
            over_limit: self.numbers.over_limit.saturating_add(over),
        }
    }

    /// With one pass more, given this bandwidth figure, which left the board as it is; what was so
    /// after the pass before it lasted so many ticks.
    pub fn with_pass(self, config: &Config, board: &Board, figure: u64, lasts: u64) -> MachineTime
        ensures { (h : List PassEntry) (entry : PassEntry) → length h < MOST_PASSES →
            IsStateAfter board.now (h ++ entry ∷ []) → figure ≡ entry.input.bandwidth →
            lasts ≡ until_next h entry → IsMachineTimeOf config.now h self →
            IsMachineTimeOf config.now (h ++ entry ∷ []) result }
    {
        let numbers = self.lasted(lasts);
        let counts = count_states(config, board);
        let is_over = is_above(config, figure);
        MachineTime {
            numbers,
            held: counts.held,
            leaving: counts.leaving,
            banned: counts.banned,
            free: counts.free,
            is_over,
        }
    }
}
