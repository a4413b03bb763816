//! What one action more does to the cores of a task.

ghost use Rattle.std.specs.Prelude.{◌≡◌, ◌<◌, ◌+◌, ◌^◌, ◌++◌, ◌∷◌, [], ℕ, List, length};
ghost use Rattle.std.specs.Prelude.{if◌then◌else◌};
ghost use Rattle.cal_policy.specs.Board.{NamesTable};
ghost use Rattle.cal_policy.specs.State.{IsReady, Agrees};
ghost use Rattle.cal_policy.specs.Board.Counts.{is_held_for};
ghost use Rattle.cal_policy.specs.History.{ban_of, holder_of};
ghost use Rattle.cal_policy.specs.declared.history.action.Action.{Action};
ghost use Rattle.cal_measure.specs.Actions as acts;
ghost use Rattle.cal_measure.specs.Actions.{AreActionsOf};

use crate::cores::TaskActions;
use cal_machine::Config;
use cal_policy::state::{Board, cap_of, holds_for};
use cal_policy::{Action, Cause, CoreClass};

/// For what a core was lost.
#[derive(Clone, Copy, Debug, PartialEq, Eq)]
pub enum LossKind {
    /// It was banned.
    Ban,
    /// The bandwidth figure was over the limit.
    Bandwidth,
    /// A task was congested.
    Task,
}

/// Whether an action grants a thread of a task a core, for this class.
fn is_grant(config: &Config, task: usize, class: CoreClass, action: Action) -> bool
    requires { NamesTable config.now action }
    ensures { (x : List Action) → result ≡ acts.is_grant config.now task class x action }
{
    match action {
        Action::Grant {
            thread,
            class: made,
            ..
        } => config.task_of(thread as usize) == task && made == class.number(),
        Action::Free { .. } => false,
        Action::Unban { .. } => false,
        Action::Ban { .. } => false,
        Action::Revoke { .. } => false,
        Action::Cap { .. } => false,
    }
}

/// Whether a cause is of this kind.
fn is_of_kind(kind: LossKind, cause: Cause) -> bool
    ensures { result ≡ acts.is_of_kind kind cause }
{
    match kind {
        LossKind::Ban => match cause {
            Cause::Ban { .. } => true,
            Cause::Bandwidth => false,
            Cause::Preempt { .. } => false,
        },
        LossKind::Bandwidth => match cause {
            Cause::Ban { .. } => false,
            Cause::Bandwidth => true,
            Cause::Preempt { .. } => false,
        },
        LossKind::Task => match cause {
            Cause::Ban { .. } => false,
            Cause::Bandwidth => false,
            Cause::Preempt { .. } => true,
        },
    }
}

/// Whether an action bans a core for a thread of a task.
fn is_ban(config: &Config, task: usize, action: Action) -> bool
    requires { NamesTable config.now action }
    ensures { (x : List Action) → result ≡ acts.is_ban config.now task x action }
{
    match action {
        Action::Ban { thread, .. } => config.task_of(thread as usize) == task,
        Action::Free { .. } => false,
        Action::Unban { .. } => false,
        Action::Revoke { .. } => false,
        Action::Cap { .. } => false,
        Action::Grant { .. } => false,
    }
}

/// A count, with one more if there is one.
fn plus(count: usize, more: bool) -> usize
    ensures { count + 1 < 2 ^ 64 → result ≡ count + (if more then 1 else 0) }
{
    if more { count.saturating_add(1) } else { count }
}

/// The state of the cores as the actions so far leave it, for one task. Its methods say what one
/// action more does to the cores of that task.
#[derive(Clone, Copy)]
pub struct TaskState<'a> {
    /// The machine's table.
    pub config: &'a Config,
    /// The state that the actions so far leave.
    pub board: &'a Board,
    /// The number of the task.
    pub task: usize,
}

impl TaskState<'_> {
    /// Whether a thread of the task holds a core.
    fn is_held(&self, core: u8) -> bool
        requires ready { IsReady self.now.config.now self.now.board.now }
        requires core { core < self.now.config.now.cores }
        ensures { (x : List Action) → Agrees self.now.board.now x →
            result ≡ is_held_for self.now.config.now self.now.task (holder_of x core) }
    {
        self.config.limits();
        holds_for(
            self.config,
            self.task,
            self.board.holding.holders[core as usize],
        )
    }

    /// Whether an action revokes, for a cause of this kind, a core that a thread of the task holds.
    fn is_loss(&self, kind: LossKind, action: Action) -> bool
        requires ready { IsReady self.now.config.now self.now.board.now }
        requires names { NamesTable self.now.config.now action }
        ensures { (x : List Action) → Agrees self.now.board.now x →
            result ≡ acts.is_loss self.now.config.now self.now.task kind x action }
    {
        match action {
            Action::Revoke { core, cause } => self.is_held(core) && is_of_kind(kind, cause),
            Action::Free { .. } => false,
            Action::Unban { .. } => false,
            Action::Ban { .. } => false,
            Action::Cap { .. } => false,
            Action::Grant { .. } => false,
        }
    }

    /// Whether a core is banned for a thread of the task.
    fn is_banned(&self, core: u8) -> bool
        requires ready { IsReady self.now.config.now self.now.board.now }
        requires core { core < self.now.config.now.cores }
        ensures { (x : List Action) → Agrees self.now.board.now x →
            result ≡ acts.is_banned_for self.now.config.now self.now.task (ban_of x core) }
    {
        self.config.limits();
        match self.board.bans.bans[core as usize] {
            None => false,
            Some(ban) => self.config.task_of(ban.thread as usize) == self.task,
        }
    }

    /// Whether a core is revoked for the task, for this cause.
    fn is_revoked(&self, core: u8, cause: Cause) -> bool
        requires ready { IsReady self.now.config.now self.now.board.now }
        requires core { core < self.now.config.now.cores }
        ensures { (x : List Action) → Agrees self.now.board.now x →
            result ≡ acts.is_revoked_for self.now.config.now self.now.task (ban_of x core) cause }
    {
        match cause {
            Cause::Ban { .. } => self.is_banned(core),
            Cause::Bandwidth => false,
            Cause::Preempt { task } => task as usize == self.task,
        }
    }

    /// Whether an action revokes for the task a core that none of its threads holds.
    fn is_taking(&self, action: Action) -> bool
        requires ready { IsReady self.now.config.now self.now.board.now }
        requires names { NamesTable self.now.config.now action }
        ensures { (x : List Action) → Agrees self.now.board.now x →
            result ≡ acts.is_taking self.now.config.now self.now.task x action }
    {
        match action {
            Action::Revoke { core, cause } => !self.is_held(core) && self.is_revoked(core, cause),
            Action::Free { .. } => false,
            Action::Unban { .. } => false,
            Action::Ban { .. } => false,
            Action::Cap { .. } => false,
            Action::Grant { .. } => false,
        }
    }

    /// Whether an action gives the task a cap below the one that it had.
    fn is_cut(&self, action: Action) -> bool
        requires { self.now.task < length self.now.config.now.tasks }
        ensures { (x : List Action) → Agrees self.now.board.now x →
            result ≡ acts.is_cut self.now.config.now self.now.task x action }
    {
        self.config.limits();
        match action {
            Action::Cap { task, cap } => {
                task as usize == self.task && cap < cap_of(self.config, self.board, self.task)
            }
            Action::Free { .. } => false,
            Action::Unban { .. } => false,
            Action::Ban { .. } => false,
            Action::Revoke { .. } => false,
            Action::Grant { .. } => false,
        }
    }

    /// Whether an action gives the task a cap above the one that it had.
    fn is_raise(&self, action: Action) -> bool
        requires { self.now.task < length self.now.config.now.tasks }
        ensures { (x : List Action) → Agrees self.now.board.now x →
            result ≡ acts.is_raise self.now.config.now self.now.task x action }
    {
        self.config.limits();
        match action {
            Action::Cap { task, cap } => {
                task as usize == self.task && cap_of(self.config, self.board, self.task) < cap
            }
            Action::Free { .. } => false,
            Action::Unban { .. } => false,
            Action::Ban { .. } => false,
            Action::Revoke { .. } => false,
            Action::Grant { .. } => false,
        }
    }

    /// The numbers of the task, with one action more.
    pub fn with_one(&self, numbers: &TaskActions, action: Action) -> TaskActions
        requires ready { IsReady self.now.config.now self.now.board.now }
        requires names { NamesTable self.now.config.now action }
        requires task { self.now.task < length self.now.config.now.tasks }
        ensures { (x : List Action) → length x + 1 < 2 ^ 64 → Agrees self.now.board.now x →
            AreActionsOf self.now.config.now self.now.task x numbers.now →
            AreActionsOf self.now.config.now self.now.task (x ++ action ∷ []) result }
    {
        let by_ban = self.is_loss(LossKind::Ban, action);
        let by_bandwidth = self.is_loss(LossKind::Bandwidth, action);
        let by_task = self.is_loss(LossKind::Task, action);
        let taking = self.is_taking(action);
        TaskActions {
            grants_beside: plus(
                numbers.grants_beside,
                is_grant(self.config, self.task, CoreClass::Sibling, action),
            ),
            grants_again: plus(
                numbers.grants_again,
                is_grant(self.config, self.task, CoreClass::RecentlyUsed, action),
            ),
            grants_other: plus(
                numbers.grants_other,
                is_grant(self.config, self.task, CoreClass::OtherIdle, action),
            ),
            lost_to_bans: plus(numbers.lost_to_bans, by_ban),
            lost_to_bandwidth: plus(numbers.lost_to_bandwidth, by_bandwidth),
            lost_to_tasks: plus(numbers.lost_to_tasks, by_task),
            taken_from_others: plus(numbers.taken_from_others, taking),
            cuts: plus(numbers.cuts, self.is_cut(action)),
            raises: plus(numbers.raises, self.is_raise(action)),
            bans: plus(numbers.bans, is_ban(self.config, self.task, action)),
        }
    }
}
