//! What the rules of `Policy::Assured` say of threads, of tasks and of all of them at a turn.

ghost use Rattle.std.specs.Prelude.{◌≡◌, ◌<◌, ◌&&◌, length};
ghost use Rattle.cal_machine.specs.Machine.{sibling_of};
ghost use Rattle.cal_machine.specs.TableTasks.{threads_of_table};
ghost use Rattle.cal_policy.specs.Assured.Short as short;
ghost use Rattle.cal_policy.specs.Board.Counts as counts;
ghost use Rattle.cal_policy.specs.Explain.Claims.{IsClaim, IsLateness, IsShortage};
ghost use Rattle.cal_policy.specs.Explain.Walks.{IsWalk, Walks, setting_of, actions_so_far};
ghost use Rattle.cal_policy.specs.History.{holder_of};
ghost use Rattle.cal_policy.specs.Pass.AtHand.{Within};
ghost use Rattle.cal_policy.specs.Setting.{Begun, so_far};
ghost use Rattle.cal_policy.specs.State.{IsOfTable};

use crate::board::Board;
use crate::explain::walk::PassWalk;
use crate::history::action::Action;
use crate::pass::Pass;
use crate::pass::assured::acted::has_acted;

/// Whether a thread is late, and whether it is in flight.
#[derive(Clone, Copy, Debug, PartialEq, Eq)]
pub struct Lateness {
    /// Its delay is strictly above its task's threshold.
    pub is_late: bool,
    /// It holds a core by a Run that its kept record has not taken.
    pub is_in_flight: bool,
}

/// What a task may claim. What it holds and books is in its `TaskState`.
#[derive(Clone, Copy, Debug, PartialEq, Eq)]
pub struct Claim {
    /// Whether it is latency-critical and books less than it is guaranteed.
    pub is_short: bool,
    /// How many cores it lacks where it is short, else 0.
    pub lacks: usize,
    /// How many of those it could be granted in this pass: it has as many late threads for them, and
    /// as many threads that may be granted one.
    pub needs: usize,
    /// How many of its threads are late and not in flight.
    pub pressing: usize,
    /// How many are in flight and not late.
    pub helpers: usize,
    /// How many of those count: where it is short only those that were granted their cores in this
    /// pass.
    pub surplus: usize,
    /// How many cores are being left for it.
    pub coming: usize,
    /// Whether it waits: more of its threads press than there is surplus, it may book one more core,
    /// and it has a thread that may be granted one.
    pub waits: bool,
    /// Whether it has acted in this pass: it was granted a core, or one was revoked for it.
    pub has_acted: bool,
    /// Whether a core may be revoked for it: it is latency-critical, more of its threads press than
    /// cores are coming to it and surplus there is, and it has not acted in this pass, or fewer are
    /// coming than it lacks.
    pub may_revoke: bool,
}

/// How many cores are open and how many are lacking.
#[derive(Clone, Copy, Debug, PartialEq, Eq)]
pub struct Shortage {
    /// Whether some short task waits.
    pub some_waits: bool,
    /// How many cores are free and not banned.
    pub open_cores: usize,
    /// How many all short tasks lack that wait.
    pub lacking: usize,
    /// Whether some short task waits, and no more cores are open than are lacking.
    pub are_lacked: bool,
    /// Whether some short task waits, and fewer cores are open than are lacking: then every ban ends.
    pub are_wanted: bool,
}

impl Pass<'_> {
    /// Whether a thread is late, and whether it is in flight.
    fn lateness_of(&self, board: &Board, thread: usize) -> Lateness
        requires at_hand { IsOfTable self.now.config.now board.now }
        requires thread { thread < threads_of_table self.now.config.now }
        ensures { Within self.now board.now (λ s acts.
            IsLateness s (so_far s acts) thread result) }
    {
        self.config.limits();
        Lateness {
            is_late: self.is_late(board, thread),
            is_in_flight: self.is_in_flight(board, thread),
        }
    }

    /// What a task may claim, by the actions of the pass so far.
    fn claim_of(&self, board: &Board, made: &[Action], task: usize) -> Claim
        requires at_hand { IsOfTable self.now.config.now board.now }
        requires task { task < length self.now.config.now.tasks }
        ensures { Within self.now board.now (λ s acts. made.now ≡ acts →
            IsClaim s acts task result) }
    {
        let unhelped = self.unhelped(board, task);
        let acted = has_acted(self.config, made, task);
        Claim {
            is_short: self.is_short(board, task),
            lacks: self.lacks(board, task),
            needs: self.needs(board, task),
            pressing: self.pressing(board, task),
            helpers: self.helpers(board, task),
            surplus: self.surplus(board, task),
            coming: self.coming(board, task),
            waits: self.waits(board, task),
            has_acted: acted,
            may_revoke: self.may_revoke_for(board, task, unhelped, acted),
        }
    }

    /// How many cores are open and how many are lacking.
    fn shortage_of(&self, board: &Board) -> Shortage
        requires at_hand { IsOfTable self.now.config.now board.now }
        ensures { Within self.now board.now (λ s acts. IsShortage s (so_far s acts) result) }
    {
        Shortage {
            some_waits: self.some_waits_short(board),
            open_cores: self.open_cores(board),
            lacking: self.lacking(board),
            are_lacked: self.are_lacked(board),
            are_wanted: self.are_wanted(board),
        }
    }
}

impl PassWalk<'_> {
    /// Whether a thread is late, and whether it is in flight.
    pub fn lateness(&self, thread: usize) -> Lateness
        requires walk { IsWalk self.now }
        requires thread { thread < threads_of_table self.now.config.now }
        ensures { (h : Begun) → Walks self.now h →
            IsLateness (setting_of self.now h) (actions_so_far self.now h) thread result }
    {
        self.pass().lateness_of(&self.board, thread)
    }

    /// What a task may claim.
    pub fn claim(&self, task: usize) -> Claim
        requires walk { IsWalk self.now }
        requires task { task < length self.now.config.now.tasks }
        ensures { (h : Begun) → Walks self.now h →
            IsClaim (setting_of self.now h) self.now.made.items task result }
    {
        self.pass().claim_of(&self.board, self.made(), task)
    }

    /// How many cores are open and how many are lacking.
    pub fn shortage(&self) -> Shortage
        requires walk { IsWalk self.now }
        ensures { (h : Begun) → Walks self.now h →
            IsShortage (setting_of self.now h) (actions_so_far self.now h) result }
    {
        self.pass().shortage_of(&self.board)
    }

    /// Whether no ban of the core's sibling is due, whatever `ban_reason` says: the sibling is free,
    /// and open cores are lacked.
    pub fn is_free_and_lacked_beside(&self, core: u8) -> bool
        requires walk { IsWalk self.now }
        requires core { core < self.now.config.now.cores }
        ensures { (h : Begun) → Walks self.now h → result
            ≡ (counts.is_free (holder_of (actions_so_far self.now h) (sibling_of core))
            && short.are_lacked (setting_of self.now h) (actions_so_far self.now h)) }
    {
        self.pass().is_free_and_lacked_beside(&self.board, core)
    }
}
