//! How cores stand at a turn of a pass.

ghost use Rattle.std.specs.Prelude.{◌≡◌, ◌<◌, length};
ghost use Rattle.std.specs.Option.{IfSome};
ghost use Rattle.cal_machine.specs.TableTasks.{threads_of_table};
ghost use Rattle.cal_policy.specs.Board.{placement_of};
ghost use Rattle.cal_policy.specs.State.{IsOfTable};
ghost use Rattle.cal_policy.specs.Explain.Asked.{IsCoreState};
ghost use Rattle.cal_policy.specs.Explain.Walks.{IsWalk, Walks, setting_of};
ghost use Rattle.cal_policy.specs.Pass.AtHand.{Within};
ghost use Rattle.cal_policy.specs.Pass.Grants as grants;
ghost use Rattle.cal_policy.specs.Setting.{Begun};

use crate::board::Board;
use crate::board::bans::BannedFor;
use crate::board::holders::Holder;
use crate::explain::walk::PassWalk;
use crate::history::core_class::CoreClass;
use crate::pass::Pass;
use crate::pass::choice::Candidate;
use crate::pass::frees::is_left;

/// How a core stands at a turn.
#[derive(Clone, Copy, Debug, PartialEq, Eq)]
pub struct CoreState {
    /// Who has it. A number is the least of the Run's and 2^64.
    pub holder: Holder,
    /// For whom it is banned.
    pub ban: Option<BannedFor>,
    /// Whether it was granted in this pass.
    pub is_granted_now: bool,
    /// Whether the kept record of its thread shows that the core was left.
    pub is_left: bool,
}

impl Pass<'_> {
    /// How a core stands.
    fn core_state(&self, board: &Board, core: u8) -> CoreState
        requires at_hand { IsOfTable self.now.config.now board.now }
        requires core { core < self.now.config.now.cores }
        ensures state { Within self.now board.now (λ s acts. IsCoreState s acts core result) }
        ensures thread { IfSome (placement_of result.holder) (λ placement.
            placement.thread < threads_of_table self.now.config.now) }
        ensures banned_for { IfSome result.ban (λ ban.
            ban.thread < threads_of_table self.now.config.now) }
    {
        CoreState {
            holder: board.holding.holders[core as usize],
            ban: board.bans.bans[core as usize],
            is_granted_now: board.fresh.has(core),
            is_left: is_left(board, core),
        }
    }

    /// The class of a core for a task, if it is a candidate.
    fn class_of(&self, board: &Board, task: usize, core: u8) -> Option<CoreClass>
        requires at_hand { IsOfTable self.now.config.now board.now }
        requires task { task < length self.now.config.now.tasks }
        requires core { core < self.now.config.now.cores }
        ensures { Within self.now board.now (λ s acts. result ≡ grants.class_of s acts task core) }
    {
        let holder = board.holding.holders[core as usize];
        self.class_by_holder(board, task, core, holder)
    }
}

impl PassWalk<'_> {
    /// How a core stands.
    pub fn core(&self, core: u8) -> CoreState
        requires walk { IsWalk self.now }
        requires core { core < self.now.config.now.cores }
        ensures state { (h : Begun) → Walks self.now h →
            IsCoreState (setting_of self.now h) self.now.made.items core result }
        ensures thread { IfSome (placement_of result.holder) (λ placement.
            placement.thread < threads_of_table self.now.config.now) }
        ensures banned_for { IfSome result.ban (λ ban.
            ban.thread < threads_of_table self.now.config.now) }
    {
        self.pass().core_state(&self.board, core)
    }

    /// The class of a core for a task, if it is a candidate: where the task gets a core, it is the
    /// one of the least class, of those with that class the lowest.
    pub fn class(&self, task: usize, core: u8) -> Option<CoreClass>
        requires walk { IsWalk self.now }
        requires task { task < length self.now.config.now.tasks }
        requires core { core < self.now.config.now.cores }
        ensures { (h : Begun) → Walks self.now h →
            result ≡ grants.class_of (setting_of self.now h) self.now.made.items task core }
    {
        self.pass().class_of(&self.board, task, core)
    }

    /// The core that is chosen for a task, and its class.
    pub fn core_choice(&self, task: usize) -> Option<Candidate<CoreClass>>
        requires walk { IsWalk self.now }
        requires task { task < length self.now.config.now.tasks }
        ensures choice { (h : Begun) → Walks self.now h →
            result ≡ grants.choice_of (setting_of self.now h) self.now.made.items task }
        ensures below { IfSome result (λ best. best.number < self.now.config.now.cores) }
    {
        self.pass().choose_core(&self.board, task)
    }
}
