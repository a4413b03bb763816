//! Which core a task takes under the rules of `Policy::Assured`, and which are kept from it.

ghost use Rattle.std.specs.Prelude.{◌≡◌, ◌<◌, length};
ghost use Rattle.std.specs.Option.{IfSome};
ghost use Rattle.cal_policy.specs.Assured.Owed as owed;
ghost use Rattle.cal_policy.specs.Assured.Taking as rules;
ghost use Rattle.cal_policy.specs.Explain.Claims.{IsKeeping};
ghost use Rattle.cal_policy.specs.Explain.Walks.{IsWalk, Walks, setting_of, actions_so_far};
ghost use Rattle.cal_policy.specs.History.{holder_of};
ghost use Rattle.cal_policy.specs.Pass.AtHand.{Within};
ghost use Rattle.cal_policy.specs.Setting.{Begun, so_far};
ghost use Rattle.cal_policy.specs.State.{IsOfTable};

use crate::board::Board;
use crate::explain::walk::PassWalk;
use crate::history::action::Action;
use crate::history::core_class::CoreClass;
use crate::pass::Pass;
use crate::pass::assured::acted::has_acted;
use crate::pass::choice::Candidate;

/// Whether an open core is kept from a task, and why.
#[derive(Clone, Copy, Debug, PartialEq, Eq)]
pub enum Keeping {
    /// The task may take it.
    NotKept,
    /// The core is owed to another task, which waits; to a short task also only while fewer lower
    /// cores are owed to that one, which is short too, than it needs.
    OwedTo { task: u8 },
}

impl Pass<'_> {
    /// Whether an open core is kept from a task, and why.
    fn keeping_of(&self, board: &Board, task: usize, core: u8) -> Keeping
        requires at_hand { IsOfTable self.now.config.now board.now }
        requires task { task < length self.now.config.now.tasks }
        requires core { core < self.now.config.now.cores }
        ensures { Within self.now board.now (λ s acts.
            IsKeeping s (so_far s acts) task core result) }
    {
        self.config.limits();
        let Some(other) = board.debts.owed[core as usize] else {
            return Keeping::NotKept;
        };
        if self.is_kept(board, task, core) {
            Keeping::OwedTo { task: other }
        } else {
            Keeping::NotKept
        }
    }

    /// The class of a core for the task, if the task may take it.
    fn class_if_open(&self, board: &Board, task: usize, core: u8) -> Option<CoreClass>
        requires at_hand { IsOfTable self.now.config.now board.now }
        requires task { task < length self.now.config.now.tasks }
        requires core { core < self.now.config.now.cores }
        ensures { Within self.now board.now (λ s acts. result
            ≡ rules.open_class s (so_far s acts) task core) }
    {
        self.open_class(board, task, core)
    }

    /// The core that a task takes, an open one or one that another holds, by the actions of the pass so
    /// far.
    fn core_taken(
        &self,
        board: &Board,
        made: &[Action],
        task: usize,
    ) -> Option<Candidate<CoreClass>>
        requires at_hand { IsOfTable self.now.config.now board.now }
        requires task { task < length self.now.config.now.tasks }
        ensures choice { Within self.now board.now (λ s acts. made.now ≡ acts →
            result ≡ rules.choice_for s acts task) }
        ensures below { IfSome result (λ best. best.number < self.now.config.now.cores) }
    {
        let unhelped = self.unhelped(board, task);
        let acted = has_acted(self.config, made, task);
        self.choose_for(board, task, unhelped, acted)
    }
}

impl PassWalk<'_> {
    /// The task to which a free core is owed: the core was revoked for it, and left. The table of a
    /// history whose revocations name no task of it has none of this number.
    pub fn owed_to(&self, core: u8) -> Option<u8>
        requires walk { IsWalk self.now }
        requires core { core < self.now.config.now.cores }
        ensures { (h : Begun) → Walks self.now h →
            result ≡ owed.owed_to (actions_so_far self.now h) core }
    {
        self.config.limits();
        self.board.debts.owed[core as usize]
    }

    /// Whether an open core is kept from a task, and why.
    pub fn keeping(&self, task: usize, core: u8) -> Keeping
        requires walk { IsWalk self.now }
        requires task { task < length self.now.config.now.tasks }
        requires core { core < self.now.config.now.cores }
        ensures { (h : Begun) → Walks self.now h →
            IsKeeping (setting_of self.now h) (actions_so_far self.now h) task core result }
    {
        self.pass().keeping_of(&self.board, task, core)
    }

    /// The class of a core for a task, if the task may take it: the core is open and not kept.
    pub fn open_class(&self, task: usize, core: u8) -> Option<CoreClass>
        requires walk { IsWalk self.now }
        requires task { task < length self.now.config.now.tasks }
        requires core { core < self.now.config.now.cores }
        ensures { (h : Begun) → Walks self.now h → result
            ≡ rules.open_class (setting_of self.now h) (actions_so_far self.now h) task core }
    {
        self.pass().class_if_open(&self.board, task, core)
    }

    /// The class of a core for a task, if it may be revoked from the task that holds it.
    pub fn held_class(&self, task: usize, core: u8) -> Option<CoreClass>
        requires walk { IsWalk self.now }
        requires task { task < length self.now.config.now.tasks }
        requires core { core < self.now.config.now.cores }
        ensures { (h : Begun) → Walks self.now h → result
            ≡ rules.held_class (setting_of self.now h) self.now.made.items task core
            (holder_of (actions_so_far self.now h) core) }
    {
        self.pass().held_class(&self.board, task, core)
    }

    /// The core that a task takes where it waits, and its class: the least one that it may take,
    /// those that are owed to it first; else, where one may be revoked for it, the least one that
    /// another task holds.
    pub fn core_taken(&self, task: usize) -> Option<Candidate<CoreClass>>
        requires walk { IsWalk self.now }
        requires task { task < length self.now.config.now.tasks }
        ensures choice { (h : Begun) → Walks self.now h →
            result ≡ rules.choice_for (setting_of self.now h) self.now.made.items task }
        ensures below { IfSome result (λ best. best.number < self.now.config.now.cores) }
    {
        self.pass().core_taken(&self.board, self.made(), task)
    }
}
