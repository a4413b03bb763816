//! How each part makes an action.

ghost use Rattle.std.specs.Prelude.{◌≡◌, ◌+◌, ◌<◌, ◌≤◌, ◌++◌, length, option_to_list};
ghost use Rattle.std.specs.Option.{IfSome};
ghost use Rattle.cal_policy.specs.declared.history.action_list.TheConstants.{MOST_ACTIONS};
ghost use Rattle.cal_policy.specs.Pass.Coupled.{both_of, BothName};
ghost use Rattle.cal_policy.specs.Setting.{Setting};
ghost use Rattle.cal_policy.specs.Board.{NamesTable};
ghost use Rattle.cal_policy.specs.State.{IsReady, IsOfTable, Stands};

use crate::board::Board;
use crate::history::action::Action;
use crate::history::action_list::Actions;
use crate::pass::Pass;
use crate::pass::coupled::Coupled;

impl Pass<'_> {
    /// Appends an action, if there is one, and brings the board up to it.
    pub fn make(&self, board: &mut Board, out: &mut Actions, action: Option<Action>)
        requires of_table { IsOfTable self.now.config.now board.old }
        requires names { IfSome action (NamesTable self.now.config.now) }
        requires room { length out.old < MOST_ACTIONS }
        ensures out { out.new ≡ out.old ++ option_to_list action }
        ensures stands { (s : Setting) → Stands board.old s out.old → Stands board.new s out.new }
        ensures ready { IsReady self.now.config.now board.new }
        ensures same { action ≡ None → board.new ≡ board.old }
        ensures length { length out.new ≤ length out.old + 1 }
    {
        match action {
            None => {}
            Some(action) => {
                out.push(action);
                board.apply(self.config, action);
            }
        }
    }

    /// Appends both actions, those that there are, and brings the board up to them.
    #[inline(always)]
    pub fn make_both(&self, board: &mut Board, out: &mut Actions, both: Coupled)
        requires of_table { IsOfTable self.now.config.now board.old }
        requires names { BothName self.now.config.now both }
        requires room { length out.old + 2 ≤ MOST_ACTIONS }
        ensures out { out.new ≡ out.old ++ both_of both }
        ensures stands { (s : Setting) → Stands board.old s out.old → Stands board.new s out.new }
        ensures ready { IsReady self.now.config.now board.new }
        ensures length { length out.new ≤ length out.old + 2 }
        ensures same { both.first ≡ None → both.second ≡ None → board.new ≡ board.old }
    {
        if both.first.is_none() && both.second.is_none() {
            return;
        }
        self.make(board, out, both.first);
        self.make(board, out, both.second);
    }
}
