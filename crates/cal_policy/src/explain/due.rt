//! What a turn makes, by the policy of its pass.

ghost use Rattle.std.specs.Prelude.{◌≡◌, ◌<◌, length, option_to_list};
ghost use Rattle.std.specs.Option.{IfSome};
ghost use Rattle.cal_machine.specs.declared.task.Kind.TheVariants as kinds;
ghost use Rattle.cal_policy.specs.Assured.Grants.{act_in_place};
ghost use Rattle.cal_policy.specs.Assured.Pass.{bounded_of};
ghost use Rattle.cal_policy.specs.Board.{NamesTable};
ghost use Rattle.cal_policy.specs.Explain.AssuredTurns.{IsOrder, placed_task};
ghost use Rattle.cal_policy.specs.Explain.PolicyTurns.{KeepsOrder, NamesTasks, made_in_by};
ghost use Rattle.cal_policy.specs.Explain.Turns.{IsTurn};
ghost use Rattle.cal_policy.specs.Pass.AtHand.{Within};
ghost use Rattle.cal_policy.specs.Pass.Coupled.{both_of, BothName};
ghost use Rattle.cal_policy.specs.Pass.Grants.{grant_of_kind_at};
ghost use Rattle.cal_policy.specs.State.{IsOfTable};
ghost use Rattle.cal_machine.specs.Table.{Table};

use crate::board::Board;
use crate::explain::order::Order;
use crate::explain::turn::Turn;
use crate::history::action::Action;
use crate::pass::Pass;
use crate::pass::coupled::{Coupled, neither};
use crate::policy::Policy;

/// One action at most, as two at most.
fn only(action: Option<Action>) -> Coupled
    ensures both { both_of result ≡ option_to_list action }
    ensures names { (table : Table) → IfSome action (NamesTable table) → BothName table result }
{
    Coupled {
        first: action,
        second: None,
    }
}

impl Pass<'_> {
    /// What the task gets, if it is latency-critical.
    fn critical_due(&self, board: &Board, task: usize) -> Option<Action>
        requires at_hand { IsOfTable self.now.config.now board.now }
        requires task { task < length self.now.config.now.tasks }
        ensures due { Within self.now board.now (λ s acts. option_to_list result
            ≡ grant_of_kind_at kinds.LatencyCritical s acts task) }
        ensures names { IfSome result (NamesTable self.now.config.now) }
    {
        if self.config.is_latency_critical(task) {
            self.grant_due(board, task)
        } else {
            None
        }
    }

    /// What the task gets, if it is best-effort.
    fn best_effort_due(&self, board: &Board, task: usize) -> Option<Action>
        requires at_hand { IsOfTable self.now.config.now board.now }
        requires task { task < length self.now.config.now.tasks }
        ensures due { Within self.now board.now (λ s acts. option_to_list result
            ≡ grant_of_kind_at kinds.BestEffort s acts task) }
        ensures names { IfSome result (NamesTable self.now.config.now) }
    {
        if self.config.is_latency_critical(task) {
            None
        } else {
            self.grant_due(board, task)
        }
    }

    /// What the task in a place of the order gets, by the actions of the pass so far.
    fn placed_due(
        &self,
        board: &Board,
        made: &[Action],
        order: &Order,
        place: usize,
    ) -> Option<Action>
        requires at_hand { IsOfTable self.now.config.now board.now }
        requires place { place < length self.now.config.now.tasks }
        requires tasks { NamesTasks self.now.config.now order.now }
        ensures due { Within self.now board.now (λ s acts. made.now ≡ acts →
            IsOrder s (bounded_of s) order.now →
            option_to_list result ≡ act_in_place s acts (placed_task s place)) }
        ensures names { IfSome result (NamesTable self.now.config.now) }
    {
        self.config.limits();
        match order[place] {
            Some(task) => self.act_due(board, made, task as usize),
            None => None,
        }
    }

    /// What a turn makes, by the policy of the pass and its actions so far.
    pub fn due_by(&self, board: &Board, made: &[Action], order: &Order, turn: Turn) -> Coupled
        requires at_hand { IsOfTable self.now.config.now board.now }
        requires turn { IsTurn self.now.config.now turn }
        requires tasks { NamesTasks self.now.config.now order.now }
        ensures due { Within self.now board.now (λ s acts. made.now ≡ acts →
            KeepsOrder self.now.terms.now.policy s turn order.now →
            both_of result ≡ made_in_by self.now.terms.now.policy s acts turn) }
        ensures names { BothName self.now.config.now result }
    {
        match turn {
            Turn::Free { core } => only(self.free_due(board, core)),
            Turn::Unban { core } => only(self.unban_due(board, core)),
            Turn::Ban { core } => self.ban_beside(board, core),
            Turn::Bandwidth => self.bandwidth_due(board),
            Turn::LatencyCritical { task } => match self.terms.policy {
                Policy::Caladan => only(self.critical_due(board, task as usize)),
                Policy::Assured => neither(),
            },
            Turn::BestEffort { task } => match self.terms.policy {
                Policy::Caladan => only(self.best_effort_due(board, task as usize)),
                Policy::Assured => neither(),
            },
            Turn::Placed { place, .. } => match self.terms.policy {
                Policy::Caladan => neither(),
                Policy::Assured => only(self.placed_due(board, made, order, place as usize)),
            },
            Turn::End => neither(),
        }
    }
}
