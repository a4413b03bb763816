//! The first part of a pass: each core whose thread has acknowledged its Run and left is free.

ghost use Rattle.std.specs.Prelude.{◌≡◌, ℕ, ◌+◌, ◌<◌, ◌≤◌, ◌++◌, List, length, option_to_list};
ghost use Rattle.std.specs.Option.{IfSome};
ghost use Rattle.cal_policy.specs.declared.history.action_list.TheConstants.{MOST_ACTIONS};
ghost use Rattle.cal_machine.specs.declared.machine.TheConstants.{MOST_CORES};
ghost use Rattle.cal_machine.specs.declared.numbering.TheConstants.{MOST_THREADS};
ghost use Rattle.cal_policy.specs.declared.history.action.Action.{Action};
ghost use Rattle.cal_policy.specs.Setting.{Begun, Setting, so_far, kept_now};
ghost use Rattle.cal_policy.specs.Pass.Frees.{has_left, shows_left, free_at, frees};
ghost use Rattle.cal_policy.specs.History.{holder_of};
ghost use Rattle.cal_policy.specs.Pass.AtHand.{setting_in, Within};
ghost use Rattle.cal_policy.specs.Board.{BoardSound, NamesTable, kept_number};
ghost use Rattle.cal_policy.specs.State.{IsReady, IsOfTable, Stands};

use crate::board::Board;
use crate::board::core_sets::next_core;
use crate::board::holders::Holder;
use crate::history::action::Action;
use crate::history::action_list::Actions;
use crate::pass::Pass;
use cal_signal::Record;

/// Whether a record shows that the core of this Run was left: it acknowledges the Run, and its
/// thread is on no core.
fn shows_run_left(rec: Record, number: u128) -> bool
    ensures { (n : ℕ) → number ≡ kept_number n → result ≡ has_left rec n }
{
    number <= u128::from(rec.taken) && rec.running == 0
}

/// Whether the kept record of the core's thread shows that it left.
pub fn is_left(board: &Board, core: u8) -> bool
    requires sound { BoardSound MOST_THREADS board.now }
    requires core { core < MOST_CORES }
    ensures { (s : Setting) (acts : List Action) → Stands board.now s acts →
        result ≡ shows_left (kept_now s) (holder_of (so_far s acts) core) }
{
    let kept = &board.keeping.kept;
    match board.holding.holders[core as usize] {
        Holder::Free => false,
        Holder::Held(placement) => {
            shows_run_left(kept[placement.thread as usize], placement.number)
        }
        Holder::Leaving(placement, _) => {
            shows_run_left(kept[placement.thread as usize], placement.number)
        }
    }
}

impl Pass<'_> {
    /// The Free of a core whose thread has left it.
    pub fn free_due(&self, board: &Board, core: u8) -> Option<Action>
        requires at_hand { IsOfTable self.now.config.now board.now }
        requires core { core < self.now.config.now.cores }
        ensures due { Within self.now board.now (λ s acts. option_to_list result ≡ free_at s acts core) }
        ensures names { IfSome result (NamesTable self.now.config.now) }
    {
        if is_left(board, core) {
            Some(Action::Free { core })
        } else {
            None
        }
    }

    /// Frees each core whose thread has left it, upwards. Only those that may have been left are
    /// gone over. (Inlined into a pass of each policy.)
    #[inline(always)]
    pub fn free_left(&self, board: &mut Board, out: &mut Actions)
        requires of_table { IsOfTable self.now.config.now board.old }
        requires room { length out.old + self.now.config.now.cores ≤ MOST_ACTIONS }
        ensures acts { (h : Begun) → let s = setting_in self.now h in Stands board.old s out.old →
            (out.new ≡ out.old ++ frees s out.old) × Stands board.new s out.new }
        ensures ready { IsReady self.now.config.now board.new }
        ensures length { length out.new ≤ length out.old + self.now.config.now.cores }
    {
        let mut first = 0;
        while let Some(core) = next_core(self.config, &board.unshown, first) {
            let action = self.free_due(board, core);
            self.make(board, out, action);
            board.note_shown(core);
            first = core + 1;
        }
    }
}
