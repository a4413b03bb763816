//! Which open cores are kept from a task.

ghost use Rattle.std.specs.Prelude.{◌≡◌, ◌<◌, ◌≤◌, true, false, List, length, Some, None};
ghost use Rattle.std.specs.Prelude.{slice_index_or};
ghost use Rattle.std.specs.Option.{is_some};
ghost use Rattle.cal_machine.specs.declared.machine.TheConstants.{MOST_CORES};
ghost use Rattle.cal_policy.specs.declared.history.action.Action.{Action};
ghost use Rattle.cal_policy.specs.Assured.Owed as owed;
ghost use Rattle.cal_policy.specs.Assured.Short as short;
ghost use Rattle.cal_policy.specs.Assured.Taking as rules;
ghost use Rattle.cal_policy.specs.Pass.AtHand.{Within};
ghost use Rattle.cal_policy.specs.Setting.{so_far};
ghost use Rattle.cal_policy.specs.State.{IsOfTable, Agrees};

use crate::board::Board;
use crate::pass::Pass;
use crate::pass::assured::flight::count_if;
use cal_machine::Config;

/// Whether the table has a task of this number.
fn has_task(config: &Config, number: usize) -> bool
    ensures there { result ≡ true → number < length config.now.tasks }
    ensures past { result ≡ false → length config.now.tasks ≤ number }
{
    number < config.tasks()
}

/// Whether a core is owed to the task.
pub fn is_owed_to(board: &Board, task: usize, core: u8) -> bool
    requires { core < MOST_CORES }
    ensures { (x : List Action) → Agrees board.now x →
        result ≡ owed.is_task task (owed.owed_to x core) }
{
    match board.debts.owed[core as usize] {
        None => false,
        Some(owed) => owed as usize == task,
    }
}

/// Whether a core is owed to some task.
pub fn is_owed(board: &Board, core: u8) -> bool
    requires { core < MOST_CORES }
    ensures { result ≡ is_some (slice_index_or board.now.debts.owed core None) }
{
    match board.debts.owed[core as usize] {
        None => false,
        Some(_) => true,
    }
}

/// How many of the cores owed to a task are below this one.
fn owed_below(board: &Board, task: usize, core: u8) -> usize
    requires { core < MOST_CORES }
    ensures { (x : List Action) → Agrees board.now x → result ≡ owed.owed_below x task core }
{
    let mut count = 0;
    for lower in 0..core {
        count = count_if(count, is_owed_to(board, task, lower));
    }
    count
}

impl Pass<'_> {
    /// Whether a core that is owed to `other` is kept from a task that is not short: `other` is
    /// another and waits. A number past the last task waits for nothing.
    fn is_kept_for(&self, board: &Board, task: usize, other: usize) -> bool
        requires at_hand { IsOfTable self.now.config.now board.now }
        ensures { Within self.now board.now (λ s acts. result
            ≡ rules.is_kept_for s (so_far s acts) task (Some other)) }
    {
        if !has_task(self.config, other) {
            return false;
        }
        other != task && self.waits(board, other)
    }

    /// Whether core `core`, which is owed to `other`, is kept from a task that is short: `other` is
    /// another, is short too and waits, and fewer lower cores are owed to it than it needs.
    fn is_kept_for_short(&self, board: &Board, task: usize, core: u8, other: usize) -> bool
        requires at_hand { IsOfTable self.now.config.now board.now }
        requires core { core < self.now.config.now.cores }
        ensures { Within self.now board.now (λ s acts. result
            ≡ rules.is_kept_for_short s (so_far s acts) task core (Some other)) }
    {
        self.config.limits();
        if !has_task(self.config, other) {
            return false;
        }
        let is_for_other = other != task && self.waits_short(board, other);
        is_for_other && owed_below(board, other, core) < self.needs(board, other)
    }

    /// Whether an open core is kept from the task.
    pub fn is_kept(&self, board: &Board, task: usize, core: u8) -> bool
        requires at_hand { IsOfTable self.now.config.now board.now }
        requires task { task < length self.now.config.now.tasks }
        requires core { core < self.now.config.now.cores }
        ensures { Within self.now board.now (λ s acts. result
            ≡ rules.is_kept s (so_far s acts) task core) }
    {
        self.config.limits();
        let Some(other) = board.debts.owed[core as usize] else {
            return false;
        };
        if self.is_short(board, task) {
            self.is_kept_for_short(board, task, core, other as usize)
        } else {
            self.is_kept_for(board, task, other as usize)
        }
    }

    /// Whether nobody has the core and it is not banned.
    pub fn is_open(&self, board: &Board, core: u8) -> bool
        requires at_hand { IsOfTable self.now.config.now board.now }
        requires core { core < self.now.config.now.cores }
        ensures { (x : List Action) → Agrees board.now x → result ≡ short.is_open x core }
    {
        self.config.limits();
        board.open_cores.idle.has(core)
    }

    /// Whether the task may take a core: it is open, and not kept from the task.
    pub fn may_take(&self, board: &Board, task: usize, core: u8) -> bool
        requires at_hand { IsOfTable self.now.config.now board.now }
        requires task { task < length self.now.config.now.tasks }
        requires core { core < self.now.config.now.cores }
        ensures { Within self.now board.now (λ s acts. result
            ≡ rules.may_take s (so_far s acts) task core) }
    {
        self.is_open(board, core) && !self.is_kept(board, task, core)
    }
}
