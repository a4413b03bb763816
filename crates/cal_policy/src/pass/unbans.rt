//! The second part of a pass: bans end.

ghost use Rattle.std.specs.Prelude.{◌≡◌, ◌*◌, ◌+◌, ◌<◌, ◌≤◌, ◌++◌, List, length, option_to_list};
ghost use Rattle.std.specs.Option.{IfSome};
ghost use Rattle.cal_machine.specs.declared.machine.TheConstants.{MOST_PAIRS};
ghost use Rattle.cal_policy.specs.declared.history.action_list.TheConstants.{MOST_ACTIONS};
ghost use Rattle.cal_policy.specs.declared.history.action.Action.{Action};
ghost use Rattle.cal_policy.specs.History.Lists.{in_pair};
ghost use Rattle.cal_policy.specs.Setting.{Begun, so_far};
ghost use Rattle.cal_policy.specs.Pass.Bans.{NoPairBanned, still_shows};
ghost use Rattle.cal_policy.specs.Pass.BansBy as rules;
ghost use Rattle.cal_policy.specs.Pass.BansBy.{unban_at_by, unbans_by};
ghost use Rattle.cal_policy.specs.Pass.Counted.{Counts};
ghost use Rattle.cal_policy.specs.Board.{NamesTable};
ghost use Rattle.cal_policy.specs.State.{IsReady, IsOfTable, Stands};
ghost use Rattle.cal_policy.specs.Pass.AtHand.{setting_in, Within};

use crate::board::Board;
use crate::board::core_sets::next_core;
use crate::history::action::Action;
use crate::history::action_list::Actions;
use crate::pass::Pass;
use crate::policy::Policy;
use cal_signal::Record;

/// Whether a record still shows its thread on the core, at the request begun at `started`.
pub fn shows_still(rec: &Record, core: u8, started: u64) -> bool
    ensures { result ≡ still_shows rec.now core started }
{
    rec.shows(core) && rec.started == started
}

impl Pass<'_> {
    /// Whether bans give way to short tasks: those of `Policy::Assured` do, while open cores are
    /// wanted. How many are lacking is counted where `counted` has no count yet.
    fn give_way(&self, board: &Board, counted: &mut Option<usize>) -> bool
        requires at_hand { IsOfTable self.now.config.now board.now }
        ensures way { Within self.now board.now (λ s acts. Counts s (so_far s acts) counted.old →
            result ≡ rules.give_way self.now.terms.now.policy s (so_far s acts)) }
        ensures counted { Within self.now board.now (λ s acts.
            Counts s (so_far s acts) counted.old → Counts s (so_far s acts) counted.new) }
    {
        match self.terms.policy {
            Policy::Caladan => false,
            Policy::Assured => self.are_wanted_counting(board, counted),
        }
    }

    /// The end of the core's ban, where it has one that ends. How many cores are lacking is counted
    /// where `counted` has no count yet, and only where it has to be known.
    fn unban_due_counting(
        &self,
        board: &Board,
        core: u8,
        counted: &mut Option<usize>,
    ) -> Option<Action>
        requires at_hand { IsOfTable self.now.config.now board.now }
        requires core { core < self.now.config.now.cores }
        ensures due { Within self.now board.now (λ s acts. Counts s (so_far s acts) counted.old →
            option_to_list result ≡ unban_at_by self.now.terms.now.policy s acts core) }
        ensures names { IfSome result (NamesTable self.now.config.now) }
        ensures counted { Within self.now board.now (λ s acts.
            Counts s (so_far s acts) counted.old → Counts s (so_far s acts) counted.new) }
    {
        let beside = self.config.machine().sibling(core);
        let ban = board.bans.bans[core as usize]?;
        let rec = &board.keeping.kept[ban.thread as usize];
        if !shows_still(rec, beside, ban.started) {
            return Some(Action::Unban { core });
        }
        if self.give_way(board, counted) {
            Some(Action::Unban { core })
        } else {
            None
        }
    }

    /// The end of the core's ban, where it has one that ends.
    pub fn unban_due(&self, board: &Board, core: u8) -> Option<Action>
        requires at_hand { IsOfTable self.now.config.now board.now }
        requires core { core < self.now.config.now.cores }
        ensures due { Within self.now board.now (λ s acts. option_to_list result
            ≡ unban_at_by self.now.terms.now.policy s acts core) }
        ensures names { IfSome result (NamesTable self.now.config.now) }
    {
        self.unban_due_counting(board, core, &mut None)
    }

    /// Ends each ban whose thread no longer shows the core beside and the request that it was for,
    /// and each while bans give way. The banned cores are visited upwards; at most one of a pair is
    /// banned. How many cores are lacking is counted once, since no end of a ban changes it.
    pub fn end_bans(&self, board: &mut Board, out: &mut Actions)
        requires of_table { IsOfTable self.now.config.now board.old }
        requires room { length out.old + MOST_PAIRS ≤ MOST_ACTIONS }
        ensures acts { (h : Begun) → let s = setting_in self.now h in
            NoPairBanned (so_far s out.old) → Stands board.old s out.old →
            (out.new ≡ out.old ++ unbans_by self.now.terms.now.policy s out.old)
            × Stands board.new s out.new }
        ensures ready { IsReady self.now.config.now board.new }
        ensures length { length out.new ≤ length out.old + MOST_PAIRS }
    {
        let mut counted = None;
        let mut next = 0;
        while let Some(core) = next_core(self.config, &board.sets.banned, 2 * next) {
            let action = self.unban_due_counting(board, core, &mut counted);
            self.make(board, out, action);
            next = core / 2 + 1;
        }
    }
}
