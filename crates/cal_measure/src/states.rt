//! What is so after the passes so far: the states of the cores, and which tasks are congested.

ghost use Rattle.std.specs.Prelude.{◌≡◌, ◌+◌, ◌<◌, List, length};
ghost use Rattle.std.specs.Prelude.{if◌then◌else◌, nat_lt};
ghost use Rattle.cal_machine.specs.declared.numbering.TheConstants.{MOST_THREADS};
ghost use Rattle.cal_policy.specs.State.{Agrees, IsReady, KeepingAgrees};
ghost use Rattle.cal_policy.specs.History.Looks.{kept_by};
ghost use Rattle.cal_machine.specs.TableTasks.{delay_of};
ghost use Rattle.cal_policy.specs.Pass.Grants as grants;
ghost use Rattle.cal_policy.specs.declared.history.action.Action.{Action};
ghost use Rattle.cal_policy.specs.declared.history.look.Seen.{Seen};
ghost use Rattle.cal_measure.specs.States.{AreAtMost, AreStateCounts, delay_after, is_in_state};
ghost use Rattle.cal_measure.specs.declared.states.CoreState.TheVariants as states;

use cal_machine::Config;
use cal_policy::state::{Board, is_banned, record_delay};
use cal_policy::{Action, Holder};

/// What a core can be in. No call takes or gives one: the definitions name by it what `StateCounts`
/// counts.
#[derive(Clone, Copy, Debug, PartialEq, Eq)]
pub enum CoreState {
    /// A thread holds it.
    Held,
    /// Its thread was told to leave it.
    Leaving,
    /// It is banned, and nobody has it.
    Banned,
    /// Nobody has it, and it may be granted.
    Free,
}

/// How many cores are in each state.
#[derive(Clone, Copy, Debug, PartialEq, Eq)]
pub struct StateCounts {
    /// How many are held.
    pub held: u8,
    /// How many are being left.
    pub leaving: u8,
    /// How many are banned, with nobody on the core.
    pub banned: u8,
    /// How many are free to be granted.
    pub free: u8,
}

impl StateCounts {
    /// Of no core.
    fn none() -> StateCounts
        ensures none { (x : List Action) → AreStateCounts x 0 result }
        ensures few { AreAtMost 0 result }
    {
        StateCounts {
            held: 0,
            leaving: 0,
            banned: 0,
            free: 0,
        }
    }

    /// With one core more, which has this holder, banned or not.
    fn with_core(self, holder: Holder, banned: bool) -> StateCounts
        requires few { AreAtMost 254 self }
        ensures held { result.held ≡ self.held
            + (if is_in_state states.Held holder banned then 1 else 0) }
        ensures leaving { result.leaving ≡ self.leaving
            + (if is_in_state states.Leaving holder banned then 1 else 0) }
        ensures banned { result.banned ≡ self.banned
            + (if is_in_state states.Banned holder banned then 1 else 0) }
        ensures free { result.free ≡ self.free
            + (if is_in_state states.Free holder banned then 1 else 0) }
    {
        let mut counts = self;
        match holder {
            Holder::Held(_) => counts.held += 1,
            Holder::Leaving(..) => counts.leaving += 1,
            Holder::Free => {
                if banned {
                    counts.banned += 1;
                } else {
                    counts.free += 1;
                }
            }
        }
        counts
    }
}

/// How many cores are in each state, by one look at each.
pub fn count_states(config: &Config, board: &Board) -> StateCounts
    ensures { (x : List Action) → Agrees board.now x →
        AreStateCounts x config.now.cores result }
{
    config.limits();
    let mut counts = StateCounts::none();
    for core in 0..config.machine().cores() {
        let holder = board.holding.holders[core as usize];
        counts = counts.with_core(holder, is_banned(board, core));
    }
    counts
}

/// The delay of a thread by its kept record.
fn thread_delay(board: &Board, clock: u64, thread: usize) -> u64
    requires { thread < MOST_THREADS }
    ensures { (looks : List (List Seen)) → KeepingAgrees board.now.keeping looks →
        result ≡ grants.record_delay clock (kept_by looks thread) }
{
    record_delay(clock, &board.keeping.kept[thread])
}

/// The delay of a task by this clock, in ticks: the greatest of its threads', as the kept records
/// show them.
pub fn task_delay(config: &Config, board: &Board, clock: u64, task: usize) -> u64
    requires { task < length config.now.tasks }
    ensures { (looks : List (List Seen)) → KeepingAgrees board.now.keeping looks →
        result ≡ delay_after config.now looks clock task }
{
    config.limits();
    let (first, count) = config.threads_of(task);
    let mut greatest: u64 = 0;
    for j in 0..count {
        let delay = thread_delay(board, clock, first + j);
        greatest = greatest.max(delay);
    }
    greatest
}

/// Whether a task's delay by this clock, as the kept records show it, is strictly above its
/// threshold.
pub fn is_congested(config: &Config, board: &Board, clock: u64, task: usize) -> bool
    requires { task < length config.now.tasks }
    ensures { (looks : List (List Seen)) → KeepingAgrees board.now.keeping looks →
        result ≡ nat_lt (delay_of config.now task) (delay_after config.now looks clock task) }
{
    task_delay(config, board, clock, task) > config.task(task).delay
}

/// The same as `is_congested`, of a board that is ready for passes: where none of the task's threads
/// is in its set of those that wait, no record is read.
pub(crate) fn is_congested_when_ready(
    config: &Config,
    board: &Board,
    clock: u64,
    task: usize,
) -> bool
    requires ready { IsReady config.now board.now }
    requires task { task < length config.now.tasks }
    ensures { (looks : List (List Seen)) → KeepingAgrees board.now.keeping looks →
        result ≡ nat_lt (delay_of config.now task) (delay_after config.now looks clock task) }
{
    config.limits();
    let (first, count) = config.threads_of(task);
    match board.keeping.waiting.next(first, first + count) {
        None => false,
        Some(_) => is_congested(config, board, clock, task),
    }
}
