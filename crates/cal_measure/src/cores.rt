//! What came of the cores of a task, and of the machine's.

ghost use Rattle.std.specs.Prelude.{◌≡◌, ◌<◌, ◌*◌, ◌^◌, ℕ, []};
ghost use Rattle.std.specs.Prelude.{if◌then◌else◌};
ghost use Rattle.cal_machine.specs.Table.{Table};
ghost use Rattle.cal_measure.specs.Actions.{AreActionsOf};

/// What the passes of a history did to the cores of a task, counted.
#[derive(Clone, Copy, Debug, PartialEq, Eq)]
pub struct TaskActions {
    /// Grants to its threads of a core beside one that a thread of the task held (class 1).
    pub grants_beside: usize,
    /// Grants to its threads of a core that went to a thread of the task before (class 2).
    pub grants_again: usize,
    /// Grants to its threads of any other core (class 3).
    pub grants_other: usize,
    /// Cores that were revoked while its threads held them, for a ban.
    pub lost_to_bans: usize,
    /// Cores that were revoked while its threads held them, for the bandwidth limit.
    pub lost_to_bandwidth: usize,
    /// Cores that were revoked while its threads held them, for a congested task.
    pub lost_to_tasks: usize,
    /// Cores that were revoked while threads of others held them, for this task: since it was
    /// congested, or for a ban for one of its threads.
    pub taken_from_others: usize,
    /// How often its cap was cut: it was given one below the one that it had.
    pub cuts: usize,
    /// How often its cap was raised.
    pub raises: usize,
    /// Bans of a core for one of its threads.
    pub bans: usize,
}

/// What came of the cores of a task.
#[derive(Clone, Copy, Debug, PartialEq, Eq)]
pub struct TaskCores {
    /// What the passes did to its cores, counted.
    pub actions: TaskActions,
    /// The most cores that its threads held after a pass.
    pub most: u8,
    /// The core time that its threads held: over the passes, the cores held after one times how
    /// long that lasted. In clock ticks.
    pub held: u128,
    /// The core time that its threads left: the same of the cores that they were told to leave.
    pub leaving: u128,
    /// How long it was congested, in clock ticks: over the passes that found it so, how long what
    /// was so after each lasted.
    pub congested: u128,
}

/// What came of the machine's cores: core time, in clock ticks, in each state. Held, leaving,
/// banned and free together are how long the run lasted times the cores.
#[derive(Clone, Copy, Debug, PartialEq, Eq)]
pub struct MachineCores {
    /// How long the run lasted, in clock ticks.
    pub lasted: u128,
    /// The core time that was held.
    pub held: u128,
    /// The core time that was being left.
    pub leaving: u128,
    /// The core time that was banned, with nobody on the core.
    pub banned: u128,
    /// The core time that was free to be granted.
    pub free: u128,
    /// How long the bandwidth figure was above the limit, in clock ticks: over the passes that found
    /// it so, how long what was so after each lasted.
    pub over_limit: u128,
}

impl TaskActions {
    /// Of nothing that was done.
    pub fn none() -> TaskActions
        ensures { (table : Table) (t : ℕ) → AreActionsOf table t [] result }
    {
        TaskActions {
            grants_beside: 0,
            grants_again: 0,
            grants_other: 0,
            lost_to_bans: 0,
            lost_to_bandwidth: 0,
            lost_to_tasks: 0,
            taken_from_others: 0,
            cuts: 0,
            raises: 0,
            bans: 0,
        }
    }
}

/// The core time of so many cores over some ticks.
pub fn core_time(cores: u8, ticks: u64) -> u128
    ensures time { result ≡ cores * ticks }
    ensures few { result < 2 ^ 72 }
{
    cores as u128 * ticks as u128
}

/// These ticks where something is so, otherwise none.
pub fn ticks_if(is_so: bool, ticks: u64) -> u64
    ensures { result ≡ (if is_so then ticks else 0) }
{
    if is_so { ticks } else { 0 }
}
