//! Which core a task takes: an open one that is not kept from it, else one that another holds.

ghost use Rattle.std.specs.Prelude.{◌≡◌, ℕ, ◌-◌, ◌<◌, ◌&&◌, true, false, not, length};
ghost use Rattle.std.specs.Prelude.{None, slice_index_or, if◌then◌else◌};
ghost use Rattle.std.specs.Option.{IfSome};
ghost use Rattle.cal_machine.specs.CoreSet.{has};
ghost use Rattle.cal_machine.specs.TableTasks.{threads_of_table, owner_of};
ghost use Rattle.cal_policy.specs.Assured.Acted.{has_acted};
ghost use Rattle.cal_policy.specs.Assured.InFlight.{pressing};
ghost use Rattle.cal_policy.specs.Assured.Short.{surplus};
ghost use Rattle.cal_policy.specs.Assured.Taking as rules;
ghost use Rattle.cal_policy.specs.Board.{placement_of};
ghost use Rattle.cal_policy.specs.History.CoreClasses.{comes_before};
ghost use Rattle.cal_policy.specs.History.{holder_of};
ghost use Rattle.cal_policy.specs.Pass.AtHand.{Within};
ghost use Rattle.cal_policy.specs.Pass.Choice.{best_below};
ghost use Rattle.cal_policy.specs.Pass.Grants.{is_granted_in, preempt_class};
ghost use Rattle.cal_policy.specs.Setting.{so_far, has_room};
ghost use Rattle.cal_policy.specs.State.{IsOfTable};

use crate::board::Board;
use crate::board::core_sets::next_core;
use crate::board::counts::some_is_over;
use crate::board::holders::Holder;
use crate::history::core_class::CoreClass;
use crate::pass::Pass;
use crate::pass::assured::kept::{is_owed, is_owed_to};
use crate::pass::choice::{Candidate, first_class};

impl Pass<'_> {
    /// The class of a core that the task may take.
    pub fn open_class(&self, board: &Board, task: usize, core: u8) -> Option<CoreClass>
        requires at_hand { IsOfTable self.now.config.now board.now }
        requires task { task < length self.now.config.now.tasks }
        requires core { core < self.now.config.now.cores }
        ensures { Within self.now board.now (λ s acts. result
            ≡ rules.open_class s (so_far s acts) task core) }
    {
        if self.may_take(board, task, core) {
            Some(self.class_if_idle(board, task, core))
        } else {
            None
        }
    }

    /// The same; where `owed`, only of a core that is owed to the task.
    fn class_to_take(&self, board: &Board, task: usize, core: u8, owed: bool) -> Option<CoreClass>
        requires at_hand { IsOfTable self.now.config.now board.now }
        requires task { task < length self.now.config.now.tasks }
        requires core { core < self.now.config.now.cores }
        ensures { Within self.now board.now (λ s acts. result
            ≡ rules.class_to_take owed s (so_far s acts) task core) }
    {
        self.config.limits();
        if owed && !is_owed_to(board, task, core) {
            None
        } else {
            self.open_class(board, task, core)
        }
    }

    /// Of the cores that the task may take, where `owed` of those owed to it, the one of the least
    /// class, the lowest of those.
    fn choose_to_take(&self, board: &Board, task: usize, owed: bool) -> Option<Candidate<CoreClass>>
        requires at_hand { IsOfTable self.now.config.now board.now }
        requires task { task < length self.now.config.now.tasks }
        ensures choice { Within self.now board.now (λ s acts. result
            ≡ best_below comes_before (rules.class_to_take owed s (so_far s acts) task)
            self.now.config.now.cores) }
        ensures below { IfSome result (λ best. best.number < self.now.config.now.cores) }
    {
        let mut best: Option<Candidate<CoreClass>> = None;
        let mut first = 0;
        while let Some(core) = next_core(self.config, &board.open_cores.idle, first) {
            let class = self.class_to_take(board, task, core, owed);
            best = first_class(best, class, core);
            first = core + 1;
        }
        best
    }

    /// Whether no core is open.
    fn none_is_open(&self, board: &Board) -> bool
        requires at_hand { IsOfTable self.now.config.now board.now }
        ensures { result ≡ true → (core : ℕ) → core < self.now.config.now.cores →
            has board.now.open_cores.idle core ≡ false }
    {
        match next_core(self.config, &board.open_cores.idle, 0) {
            Some(_) => false,
            None => true,
        }
    }

    /// Whether no task may take a core: none is open, and none may lose one.
    pub fn none_may_take(&self, board: &Board) -> bool
        requires at_hand { IsOfTable self.now.config.now board.now }
        ensures { result ≡ true → Within self.now board.now (λ s acts. (task : ℕ) →
            rules.choice_for s acts task ≡ None) }
    {
        self.none_is_open(board) && !some_is_over(self.config, board)
    }

    /// Whether some open core is owed to a task.
    fn some_is_owed(&self, board: &Board) -> bool
        requires at_hand { IsOfTable self.now.config.now board.now }
        ensures { result ≡ false → (core : ℕ) → core < self.now.config.now.cores →
            has board.now.open_cores.idle core ≡ true →
            slice_index_or board.now.debts.owed core None ≡ None }
    {
        self.config.limits();
        let mut first = 0;
        while let Some(core) = next_core(self.config, &board.open_cores.idle, first) {
            if is_owed(board, core) {
                return true;
            }
            first = core + 1;
        }
        false
    }

    /// The open core that the task takes: those that are owed to it come first. Where none is owed
    /// to any task, it is chosen as under the other policy.
    pub fn choose_open(&self, board: &Board, task: usize) -> Option<Candidate<CoreClass>>
        requires at_hand { IsOfTable self.now.config.now board.now }
        requires task { task < length self.now.config.now.tasks }
        ensures choice { Within self.now board.now (λ s acts. result
            ≡ rules.open_choice s (so_far s acts) task) }
        ensures below { IfSome result (λ best. best.number < self.now.config.now.cores) }
    {
        if self.none_is_open(board) {
            return None;
        }
        if !self.some_is_owed(board) {
            return self.choose_idle(board, task);
        }
        match self.choose_to_take(board, task, true) {
            Some(owed) => Some(owed),
            None => self.choose_to_take(board, task, false),
        }
    }

    /// Whether a core that `thread` holds may be taken from it: its ring has room, and the core was
    /// not granted in this pass.
    fn may_be_taken(&self, board: &Board, core: u8, thread: u8) -> bool
        requires at_hand { IsOfTable self.now.config.now board.now }
        requires core { core < self.now.config.now.cores }
        requires thread { thread < threads_of_table self.now.config.now }
        ensures { Within self.now board.now (λ s acts. result
            ≡ (has_room s thread && not (is_granted_in acts core))) }
    {
        self.has_room(thread as usize) && !board.fresh.has(core)
    }

    /// Whether fewer cores are coming to the task than it lacks.
    fn fewer_come(&self, board: &Board, task: usize) -> bool
        requires at_hand { IsOfTable self.now.config.now board.now }
        requires task { task < length self.now.config.now.tasks }
        ensures { Within self.now board.now (λ s acts. result
            ≡ rules.fewer_come s (so_far s acts) task) }
    {
        self.coming(board, task) < self.lacks(board, task)
    }

    /// Whether the task may take a core that the other holds: from a latency-critical one only where
    /// fewer are coming than it lacks.
    fn may_take_from(&self, board: &Board, task: usize, other: usize) -> bool
        requires at_hand { IsOfTable self.now.config.now board.now }
        requires task { task < length self.now.config.now.tasks }
        requires other { other < length self.now.config.now.tasks }
        ensures { Within self.now board.now (λ s acts. result
            ≡ rules.may_take_from s (so_far s acts) task other) }
    {
        !self.config.is_latency_critical(other) || self.fewer_come(board, task)
    }

    /// The class of a core that `thread` holds, which may be taken from it.
    fn class_from(&self, board: &Board, task: usize, core: u8, thread: u8) -> Option<CoreClass>
        requires at_hand { IsOfTable self.now.config.now board.now }
        requires task { task < length self.now.config.now.tasks }
        requires core { core < self.now.config.now.cores }
        requires thread { thread < threads_of_table self.now.config.now }
        ensures { Within self.now board.now (λ s acts. result ≡ (if has_room s thread
            && not (is_granted_in acts core)
            && rules.may_take_from s (so_far s acts) task (owner_of s.table thread)
            then preempt_class s.table (so_far s acts) task (owner_of s.table thread) else None)) }
    {
        let other = self.config.task_of(thread as usize);
        if !self.may_be_taken(board, core, thread) {
            return None;
        }
        if self.may_take_from(board, task, other) {
            self.preempt_class(board, task, other)
        } else {
            None
        }
    }

    /// The class of a core by its holder, where a thread holds it that may lose it.
    fn class_if_held(
        &self,
        board: &Board,
        task: usize,
        core: u8,
        holder: Holder,
    ) -> Option<CoreClass>
        requires at_hand { IsOfTable self.now.config.now board.now }
        requires task { task < length self.now.config.now.tasks }
        requires core { core < self.now.config.now.cores }
        requires holder { IfSome (placement_of holder)
            (λ placement. placement.thread < threads_of_table self.now.config.now) }
        ensures { Within self.now board.now (λ s acts. result
            ≡ rules.held_class s acts task core holder) }
    {
        match holder {
            Holder::Held(placement) => self.class_from(board, task, core, placement.thread),
            Holder::Free => None,
            Holder::Leaving(..) => None,
        }
    }

    /// The class of a core that another task holds.
    pub fn held_class(&self, board: &Board, task: usize, core: u8) -> Option<CoreClass>
        requires at_hand { IsOfTable self.now.config.now board.now }
        requires task { task < length self.now.config.now.tasks }
        requires core { core < self.now.config.now.cores }
        ensures { Within self.now board.now (λ s acts. result
            ≡ rules.held_class s acts task core (holder_of (so_far s acts) core)) }
    {
        self.config.limits();
        self.class_if_held(board, task, core, board.holding.holders[core as usize])
    }

    /// Of the cores that others hold the one of the least class, the lowest of those.
    fn choose_held(&self, board: &Board, task: usize) -> Option<Candidate<CoreClass>>
        requires at_hand { IsOfTable self.now.config.now board.now }
        requires task { task < length self.now.config.now.tasks }
        ensures choice { Within self.now board.now (λ s acts. result
            ≡ rules.held_choice s acts task) }
        ensures below { IfSome result (λ best. best.number < self.now.config.now.cores) }
    {
        let mut best: Option<Candidate<CoreClass>> = None;
        let mut first = 0;
        while let Some(core) = next_core(self.config, &board.sets.taken, first) {
            let class = self.held_class(board, task, core);
            best = first_class(best, class, core);
            first = core + 1;
        }
        best
    }

    /// Whether more threads of the task press than cores are coming to it and helpers on their way;
    /// `unhelped` says how many press beyond those that have a helper.
    fn more_press(&self, board: &Board, task: usize, unhelped: usize) -> bool
        requires at_hand { IsOfTable self.now.config.now board.now }
        requires task { task < length self.now.config.now.tasks }
        ensures { Within self.now board.now (λ s acts.
            unhelped ≡ pressing s (so_far s acts) task - surplus s (so_far s acts) task →
            result ≡ rules.more_press s (so_far s acts) task) }
    {
        self.coming(board, task) < unhelped
    }

    /// Whether a core may be revoked for the task: it is latency-critical, more of its threads press
    /// than cores are coming to it and helpers on their way, and it has not acted in this pass, or
    /// fewer are coming than it lacks. `unhelped` says how many press beyond those that have a helper,
    /// `acted` whether it has acted.
    pub fn may_revoke_for(&self, board: &Board, task: usize, unhelped: usize, acted: bool) -> bool
        requires at_hand { IsOfTable self.now.config.now board.now }
        requires task { task < length self.now.config.now.tasks }
        ensures { Within self.now board.now (λ s acts.
            unhelped ≡ pressing s (so_far s acts) task - surplus s (so_far s acts) task →
            acted ≡ has_acted s.table acts task →
            result ≡ rules.may_preempt s acts task) }
    {
        let is_critical = self.config.is_latency_critical(task);
        let presses_on = is_critical && self.more_press(board, task, unhelped);
        presses_on && (!acted || self.fewer_come(board, task))
    }

    /// The core that the task takes: an open one; where there is none, and one may be revoked for
    /// it, one that another holds. `unhelped` says how many of its threads press beyond those that
    /// have a helper, `acted` whether it has acted in this pass.
    pub fn choose_for(
        &self,
        board: &Board,
        task: usize,
        unhelped: usize,
        acted: bool,
    ) -> Option<Candidate<CoreClass>>
        requires at_hand { IsOfTable self.now.config.now board.now }
        requires task { task < length self.now.config.now.tasks }
        ensures choice { Within self.now board.now (λ s acts.
            unhelped ≡ pressing s (so_far s acts) task - surplus s (so_far s acts) task →
            acted ≡ has_acted s.table acts task →
            result ≡ rules.choice_for s acts task) }
        ensures below { IfSome result (λ best. best.number < self.now.config.now.cores) }
    {
        if let Some(open) = self.choose_open(board, task) {
            return Some(open);
        }
        if !self.may_revoke_for(board, task, unhelped, acted) {
            return None;
        }
        if self.some_may_be_preempted(board, task) {
            self.choose_held(board, task)
        } else {
            None
        }
    }
}
