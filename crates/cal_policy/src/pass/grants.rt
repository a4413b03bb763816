//! The last part of a pass: each congested task gets a core, or has one revoked for it.

ghost use Rattle.std.specs.Prelude.{◌≡◌, ◌+◌, ◌<◌, ◌≤◌, ◌++◌};
ghost use Rattle.std.specs.Prelude.{length, option_to_list, if◌then◌else◌};
ghost use Rattle.std.specs.Option.{IfSome};
ghost use Rattle.cal_policy.specs.declared.history.action_list.TheConstants.{MOST_ACTIONS};
ghost use Rattle.cal_machine.specs.Table.{IsTable};
ghost use Rattle.cal_machine.specs.TableTasks.{limit_of};
ghost use Rattle.cal_policy.specs.Setting.{Begun, so_far};
ghost use Rattle.cal_policy.specs.Pass.Grants as rules;
ghost use Rattle.cal_policy.specs.Pass.Grants.{grant_of, grant_at, grant_of_kind_at};
ghost use Rattle.cal_policy.specs.Pass.Grants.{tasks_of_kind};
ghost use Rattle.cal_policy.specs.Board.{NamesTable};
ghost use Rattle.cal_policy.specs.State.{IsReady, IsOfTable, Stands};
ghost use Rattle.cal_policy.specs.Pass.AtHand.{setting_in, Within};

use crate::board::Board;
use crate::board::counts::cap_of;
use crate::board::survey::survey_of;
use crate::history::action::{Action, Cause};
use crate::history::action_list::Actions;
use crate::history::core_class::CoreClass;
use crate::pass::Pass;
use crate::pass::choice::Candidate;
use cal_machine::{Config, Kind};

impl Pass<'_> {
    /// Whether the task may book one more core: it books fewer than its limit and, if it is
    /// best-effort, fewer than its cap.
    pub fn may_book(&self, board: &Board, task: usize) -> bool
        requires at_hand { IsOfTable self.now.config.now board.now }
        requires task { task < length self.now.config.now.tasks }
        ensures { Within self.now board.now (λ s acts. result ≡ rules.may_book s (so_far s acts) task) }
    {
        let booked = survey_of(self.config, board).booked[task];
        let below_cap = self.config.is_latency_critical(task)
            || booked < cap_of(self.config, board, task);
        booked < self.config.task(task).limit && below_cap
    }

    /// What was chosen for the task: an idle core is granted, another is revoked for it.
    pub fn chosen(
        &self,
        task: usize,
        thread: Candidate<u128>,
        core: Option<Candidate<CoreClass>>,
    ) -> Option<Action>
        requires table { IsTable self.now.config.now }
        requires task { task < length self.now.config.now.tasks }
        requires thread { thread.number < limit_of self.now.config.now task }
        requires core { IfSome core (λ best. best.number < self.now.config.now.cores) }
        ensures chosen { (h : Begun) →
            option_to_list result ≡ grant_of (setting_in self.now h) task (Some thread) core }
        ensures names { IfSome result (NamesTable self.now.config.now) }
    {
        let core = core?;
        if !core.rank.is_idle() {
            let cause = Cause::Preempt { task: task as u8 };
            return Some(Action::Revoke {
                core: core.number,
                cause,
            });
        }
        let (first, _) = self.config.threads_of(task);
        Some(Action::Grant {
            core: core.number,
            thread: first as u8 + thread.number,
            class: core.rank.number(),
        })
    }

    /// What the task gets, if it is congested and may book one more core. No core is looked for
    /// where none of its threads may be granted one.
    pub fn grant_due(&self, board: &Board, task: usize) -> Option<Action>
        requires at_hand { IsOfTable self.now.config.now board.now }
        requires task { task < length self.now.config.now.tasks }
        ensures due { Within self.now board.now (λ s acts. option_to_list result ≡ grant_at s acts task) }
        ensures names { IfSome result (NamesTable self.now.config.now) }
    {
        if !self.may_book(board, task) {
            return None;
        }
        if !self.is_congested(board, task) {
            return None;
        }
        let Some(thread) = self.choose_thread(board, task) else {
            return None;
        };
        let core = self.choose_core(board, task);
        self.chosen(task, thread, core)
    }
}

/// Whether the task is of this kind.
fn is_of_kind(config: &Config, kind: Kind, task: usize) -> bool
    requires { task < length config.now.tasks }
    ensures { result ≡ rules.is_of_kind kind config.now task }
{
    match kind {
        Kind::LatencyCritical => config.is_latency_critical(task),
        Kind::BestEffort => !config.is_latency_critical(task),
    }
}

impl Pass<'_> {
    /// Gives a task of this kind what it gets, and another nothing.
    fn grant_of_kind(&self, board: &mut Board, out: &mut Actions, kind: Kind, task: usize)
        requires of_table { IsOfTable self.now.config.now board.old }
        requires task { task < length self.now.config.now.tasks }
        requires room { length out.old
            + (if rules.is_of_kind kind self.now.config.now task then 1 else 0) ≤ MOST_ACTIONS }
        ensures acts { (h : Begun) → let s = setting_in self.now h in Stands board.old s out.old →
            (out.new ≡ out.old ++ grant_of_kind_at kind s out.old task)
            × Stands board.new s out.new }
        ensures ready { IsReady self.now.config.now board.new }
        ensures length { length out.new ≤ length out.old
            + (if rules.is_of_kind kind self.now.config.now task then 1 else 0) }
    {
        if is_of_kind(self.config, kind, task) {
            let action = self.grant_due(board, task);
            self.make(board, out, action);
        }
    }

    /// Gives each task of this kind, by number, what it gets. Only those with a thread that waits
    /// are visited, and only while some core is open to one.
    pub fn grants_of_kind(&self, board: &mut Board, out: &mut Actions, kind: Kind)
        requires of_table { IsOfTable self.now.config.now board.old }
        requires room { length out.old + tasks_of_kind kind self.now.config.now ≤ MOST_ACTIONS }
        ensures acts { (h : Begun) → let s = setting_in self.now h in Stands board.old s out.old →
            (out.new ≡ out.old ++ rules.grants_of_kind kind s out.old)
            × Stands board.new s out.new }
        ensures ready { IsReady self.now.config.now board.new }
        ensures length { length out.new
            ≤ length out.old + tasks_of_kind kind self.now.config.now }
    {
        let threads = self.config.threads();
        // The threads of the tasks below `reached` are those below `first`.
        let mut reached = 0;
        let mut first = 0;
        while let Some(waiting) = board.keeping.waiting.next(first, threads) {
            if !self.some_core_is_open(board) {
                return;
            }
            let task = self.config.task_of(waiting);
            self.grant_of_kind(board, out, kind, task);
            let (begin, count) = self.config.threads_of(task);
            reached = task + 1;
            first = begin + count;
        }
        let _ = reached;
    }
}
