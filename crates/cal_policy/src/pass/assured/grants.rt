//! The last part of a pass of `Policy::Assured`: each task that waits gets a core, or has one
//! revoked for it, in the order that is fixed where the part begins. A short task acts until it has
//! all that it lacks.

ghost use Rattle.std.specs.Prelude.{◌≡◌, ℕ, ◌+◌, ◌<◌, ◌≤◌, ◌++◌, true, false, length};
ghost use Rattle.std.specs.Prelude.{option_to_list, Some};
ghost use Rattle.std.specs.Option.{IfSome};
ghost use Rattle.cal_machine.specs.TableTasks.{threads_of_table};
ghost use Rattle.cal_machine.specs.ThreadSet.{has_thread};
ghost use Rattle.cal_policy.specs.declared.history.action_list.TheConstants.{MOST_ACTIONS};
ghost use Rattle.cal_policy.specs.Assured.Grants as rules;
ghost use Rattle.cal_policy.specs.Assured.Short.{waits};
ghost use Rattle.cal_policy.specs.Board.{NamesTable};
ghost use Rattle.cal_policy.specs.Pass.AtHand.{setting_in, Within};
ghost use Rattle.cal_policy.specs.Setting.{Begun, so_far};
ghost use Rattle.cal_policy.specs.State.{IsReady, IsOfTable, Stands};

use crate::board::Board;
use crate::history::action::Action;
use crate::history::action_list::Actions;
use crate::pass::Pass;
use crate::pass::assured::acted::has_acted;
use crate::pass::assured::turns::{NO_TURN, next_turn};

impl Pass<'_> {
    /// Whether a task may act, by the actions of the pass so far: it is short, or has not acted.
    fn may_act(&self, board: &Board, acts: &[Action], task: usize) -> bool
        requires at_hand { IsOfTable self.now.config.now board.now }
        requires task { task < length self.now.config.now.tasks }
        ensures { Within self.now board.now (λ s made. acts.now ≡ made →
            result ≡ rules.may_act s made task) }
    {
        self.is_short(board, task) || !has_acted(self.config, acts, task)
    }

    /// What a task that waits and may act gets, by the actions of the pass so far. What is asked of it
    /// is asked once, and no core is looked for where it does not wait.
    pub fn act_due(&self, board: &Board, acts: &[Action], task: usize) -> Option<Action>
        requires at_hand { IsOfTable self.now.config.now board.now }
        requires task { task < length self.now.config.now.tasks }
        ensures due { Within self.now board.now (λ s made. acts.now ≡ made →
            option_to_list result ≡ rules.act_of s made task) }
        ensures names { IfSome result (NamesTable self.now.config.now) }
    {
        if !self.may_book(board, task) {
            return None;
        }
        if !self.may_act(board, acts, task) {
            return None;
        }
        let unhelped = self.unhelped(board, task);
        if unhelped == 0 {
            return None;
        }
        let Some(thread) = self.choose_thread(board, task) else {
            return None;
        };
        let acted = has_acted(self.config, acts, task);
        let core = self.choose_for(board, task, unhelped, acted);
        self.chosen(task, thread, core)
    }

    /// The turn of a task: it acts until it finds nothing to do. The list is not full before that,
    /// since no pass has as many actions.
    fn take_turn(&self, board: &mut Board, out: &mut Actions, task: usize)
        requires of_table { IsOfTable self.now.config.now board.old }
        requires task { task < length self.now.config.now.tasks }
        ensures acts { (h : Begun) → let s = setting_in self.now h in
            length (out.old ++ rules.turn_in_place s out.old (Some task)) ≤ MOST_ACTIONS →
            Stands board.old s out.old →
            (out.new ≡ out.old ++ rules.turn_in_place s out.old (Some task)) × Stands board.new s out.new }
        ensures ready { IsReady self.now.config.now board.new }
    {
        for _ in 0..self.config.machine().cores() {
            if out.is_full() {
                return;
            }
            let Some(action) = self.act_due(board, out.as_slice(), task) else {
                return;
            };
            self.make(board, out, Some(action));
        }
    }

    /// Whether no thread shows a request that waits: then no task waits.
    pub fn none_waits(&self, board: &Board) -> bool
        requires at_hand { IsOfTable self.now.config.now board.now }
        ensures waits { result ≡ true → Within self.now board.now (λ s acts. (t : ℕ) →
            t < length self.now.config.now.tasks → waits s (so_far s acts) t ≡ false) }
        ensures kept { result ≡ true → (k : ℕ) → k < threads_of_table self.now.config.now →
            has_thread board.now.keeping.waiting k ≡ false }
    {
        match board.keeping.waiting.next(0, self.config.threads()) {
            Some(_) => false,
            None => true,
        }
    }

    /// Gives each task its turn, in the order that is fixed before the first.
    pub fn grant_in_turn(&self, board: &mut Board, out: &mut Actions)
        requires of_table { IsOfTable self.now.config.now board.old }
        ensures acts { (h : Begun) → let s = setting_in self.now h in
            length (out.old ++ rules.grants s out.old) ≤ MOST_ACTIONS → Stands board.old s out.old →
            (out.new ≡ out.old ++ rules.grants s out.old) × Stands board.new s out.new }
        ensures ready { IsReady self.now.config.now board.new }
    {
        if self.none_waits(board) {
            return;
        }
        if self.none_may_take(board) {
            return;
        }
        let mut turns = self.turns(board);
        for _ in 0..self.config.tasks() {
            let Some(task) = next_turn(&turns, self.config.tasks()) else {
                return;
            };
            if self.none_may_take(board) {
                return;
            }
            turns[task] = NO_TURN;
            self.take_turn(board, out, task);
        }
    }
}
