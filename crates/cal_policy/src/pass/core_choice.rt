//! Which core a task is to have.

ghost use Rattle.std.specs.Prelude.{◌≡◌, ◌<◌, ◌&&◌, not, nat_lt, ℕ, false};
ghost use Rattle.std.specs.Prelude.{List, length, Option, Some, None, if◌then◌else◌};
ghost use Rattle.std.specs.Option.{IfSome, is_some, option_map};
ghost use Rattle.cal_machine.specs.Machine.{sibling_of};
ghost use Rattle.cal_policy.specs.declared.history.action.Action.{Action};
ghost use Rattle.cal_machine.specs.TableTasks as tasks;
ghost use Rattle.cal_machine.specs.TableTasks.{threads_of_table};
ghost use Rattle.cal_policy.specs.History.CoreClasses.{comes_before};
ghost use Rattle.cal_policy.specs.Setting.{Begun, so_far, has_room};
ghost use Rattle.cal_policy.specs.History.{holder_of, last_thread, is_banned};
ghost use Rattle.cal_policy.specs.Pass.Grants as grants;
ghost use Rattle.cal_policy.specs.Pass.Grants.{class_by, is_granted_in, is_thread_for};
ghost use Rattle.cal_policy.specs.Pass.Grants.{none_leaves_for};
ghost use Rattle.cal_policy.specs.Board.{placement_of};
ghost use Rattle.cal_policy.specs.State.{IsOfTable, Agrees};
ghost use Rattle.cal_policy.specs.Board.Counts.{held_by, is_held_for};
ghost use Rattle.cal_policy.specs.Pass.Choice.{best_below, lowest_below};
ghost use Rattle.cal_policy.specs.Pass.Among.{class_among, is_beside_own, was_own_last};
ghost use Rattle.cal_policy.specs.Pass.AtHand.{setting_in, Within};

use crate::board::Board;
use crate::board::core_sets::next_core;
use crate::board::counts::{self, holds_for, some_is_over};
use crate::board::holders::{Holder, Placement};
use crate::board::survey::survey_of;
use crate::history::core_class::CoreClass;
use crate::pass::Pass;
use crate::pass::choice::{Candidate, first_class};
use cal_machine::{Config, CoreSet};

/// Whether a core that was last granted by `last`, if at all, was granted to a thread of the task.
fn was_for(config: &Config, task: usize, last: Option<Placement>) -> bool
    requires { IfSome last (λ placement. placement.thread < threads_of_table config.now) }
    ensures { result ≡ is_thread_for config.now task
        (option_map (λ placement. placement.thread) last) }
{
    match last {
        Some(placement) => config.task_of(placement.thread as usize) == task,
        None => false,
    }
}

/// The class of a core that is free and not banned: `Sibling` beside a core that the task holds,
/// `RecentlyUsed` where it was last granted to the task, else `OtherIdle`.
fn idle_class(config: &Config, task: usize, beside: Holder, last: Option<Placement>) -> CoreClass
    requires beside { IfSome (placement_of beside)
        (λ placement. placement.thread < threads_of_table config.now) }
    requires last { IfSome last (λ placement. placement.thread < threads_of_table config.now) }
    ensures { result ≡ grants.idle_class config.now task beside
        (option_map (λ placement. placement.thread) last) }
{
    if holds_for(config, task, beside) {
        return CoreClass::Sibling;
    }
    if was_for(config, task, last) {
        CoreClass::RecentlyUsed
    } else {
        CoreClass::OtherIdle
    }
}

impl Pass<'_> {
    /// The class that a core has while nobody has it and it is not banned.
    pub fn class_if_idle(&self, board: &Board, task: usize, core: u8) -> CoreClass
        requires at_hand { IsOfTable self.now.config.now board.now }
        requires core { core < self.now.config.now.cores }
        ensures { (x : List Action) → Agrees board.now x →
            result ≡ grants.idle_class self.now.config.now task (holder_of x (sibling_of core))
            (last_thread x core) }
    {
        let sibling = self.config.machine().sibling(core);
        let beside = board.holding.holders[sibling as usize];
        let last = board.holding.granted[core as usize];
        idle_class(self.config, task, beside, last)
    }

    /// The class of a core that nobody has, unless it is banned.
    fn free_class(&self, board: &Board, task: usize, core: u8) -> Option<CoreClass>
        requires at_hand { IsOfTable self.now.config.now board.now }
        requires core { core < self.now.config.now.cores }
        ensures { (x : List Action) → Agrees board.now x →
            result ≡ (if is_banned x core then None
            else Some (grants.idle_class self.now.config.now task (holder_of x (sibling_of core))
            (last_thread x core))) }
    {
        match board.bans.bans[core as usize] {
            Some(_) => None,
            None => Some(self.class_if_idle(board, task, core)),
        }
    }

    /// The class of a core that another task holds, as far as that task goes: `BestEffortBurstable`
    /// of a best-effort one, `LatencyCriticalBurstable` of a latency-critical one that is over,
    /// where the task has booked less than it is guaranteed.
    pub fn preempt_class(&self, board: &Board, task: usize, other: usize) -> Option<CoreClass>
        requires at_hand { IsOfTable self.now.config.now board.now }
        requires task { task < length self.now.config.now.tasks }
        requires other { other < length self.now.config.now.tasks }
        ensures { (x : List Action) → Agrees board.now x →
            result ≡ grants.preempt_class self.now.config.now x task other }
    {
        if !self.config.is_latency_critical(other) {
            return Some(CoreClass::BestEffortBurstable);
        }
        let survey = survey_of(self.config, board);
        let is_short = survey.booked[task] < self.config.task(task).guaranteed;
        let is_over = self.config.task(other).guaranteed < survey.held[other];
        if is_short && other != task && is_over {
            Some(CoreClass::LatencyCriticalBurstable)
        } else {
            None
        }
    }

    /// Whether a core may be preempted for the task at all: it is latency-critical, and no core is
    /// being left for it.
    fn may_preempt_any(&self, board: &Board, task: usize) -> bool
        requires at_hand { IsOfTable self.now.config.now board.now }
        requires task { task < length self.now.config.now.tasks }
        ensures { (h : Begun) (acts : List Action) →
            let s = setting_in self.now h in
            Agrees board.now (so_far s acts) →
            result ≡ (tasks.is_latency_critical self.now.config.now task
            && none_leaves_for s (so_far s acts) task) }
    {
        let is_critical = self.config.is_latency_critical(task);
        let awaits_none = survey_of(self.config, board).awaited[task] == 0;
        is_critical && awaits_none
    }

    /// Whether a core that `thread` holds may be preempted for the task: one may be at all, the
    /// thread's ring has room, and the core was not granted in this pass.
    fn may_preempt(&self, board: &Board, task: usize, core: u8, thread: u8) -> bool
        requires at_hand { IsOfTable self.now.config.now board.now }
        requires task { task < length self.now.config.now.tasks }
        requires core { core < self.now.config.now.cores }
        requires thread { thread < threads_of_table self.now.config.now }
        ensures { Within self.now board.now (λ s acts. result ≡ (tasks.is_latency_critical self.now.config.now task && has_room s thread
            && not (is_granted_in acts core) && none_leaves_for s (so_far s acts) task)) }
    {
        if !self.may_preempt_any(board, task) {
            return false;
        }
        self.has_room(thread as usize) && !board.fresh.has(core)
    }

    /// The class of a core by its holder.
    pub fn class_by_holder(
        &self,
        board: &Board,
        task: usize,
        core: u8,
        holder: Holder,
    ) -> Option<CoreClass>
        requires at_hand { IsOfTable self.now.config.now board.now }
        requires task { task < length self.now.config.now.tasks }
        requires core { core < self.now.config.now.cores }
        requires holder { IfSome (placement_of holder)
            (λ placement. placement.thread < threads_of_table self.now.config.now) }
        ensures { Within self.now board.now (λ s acts. result ≡ class_by s acts task core holder) }
    {
        match holder {
            Holder::Free => self.free_class(board, task, core),
            Holder::Held(placement) => {
                if self.may_preempt(board, task, core, placement.thread) {
                    self.preempt_class(board, task, self.config.task_of(placement.thread as usize))
                } else {
                    None
                }
            }
            Holder::Leaving(..) => None,
        }
    }

    /// The core of the least class for the task among those of a set, of those with that class the
    /// lowest.
    fn choose_among(
        &self,
        board: &Board,
        task: usize,
        cores: &CoreSet,
    ) -> Option<Candidate<CoreClass>>
        requires at_hand { IsOfTable self.now.config.now board.now }
        requires task { task < length self.now.config.now.tasks }
        ensures choice { Within self.now board.now (λ s acts. result ≡ best_below comes_before
            (class_among cores.now s acts task) self.now.config.now.cores) }
        ensures below { IfSome result (λ best. best.number < self.now.config.now.cores) }
    {
        let mut best: Option<Candidate<CoreClass>> = None;
        let mut first = 0;
        while let Some(core) = next_core(self.config, cores, first) {
            let holder = board.holding.holders[core as usize];
            let class = self.class_by_holder(board, task, core, holder);
            best = first_class(best, class, core);
            first = core + 1;
        }
        best
    }

    /// Whether a thread of the task holds the core beside this one.
    fn holds_beside(&self, board: &Board, task: usize, core: u8) -> bool
        requires at_hand { IsOfTable self.now.config.now board.now }
        requires core { core < self.now.config.now.cores }
        ensures { (x : List Action) → Agrees board.now x →
            result ≡ is_held_for self.now.config.now task (holder_of x (sibling_of core)) }
    {
        let sibling = self.config.machine().sibling(core);
        holds_for(self.config, task, board.holding.holders[sibling as usize])
    }

    /// The lowest idle core beside one that the task holds; none where it holds no core.
    fn idle_beside(&self, board: &Board, task: usize) -> Option<u8>
        requires at_hand { IsOfTable self.now.config.now board.now }
        requires task { task < length self.now.config.now.tasks }
        ensures lowest { (x : List Action) → Agrees board.now x → result ≡ lowest_below
            (is_beside_own board.now.open_cores.idle self.now.config.now x task)
            self.now.config.now.cores }
        ensures below { IfSome result (λ core. core < self.now.config.now.cores) }
    {
        if counts::held_by(self.config, board, task) == 0 {
            return None;
        }
        let mut from = 0;
        while let Some(core) = next_core(self.config, &board.open_cores.beside_held, from) {
            if self.holds_beside(board, task, core) {
                return Some(core);
            }
            from = core + 1;
        }
        None
    }

    /// The lowest idle core that was last granted to a thread of the task.
    fn idle_again(&self, board: &Board, task: usize) -> Option<u8>
        requires at_hand { IsOfTable self.now.config.now board.now }
        requires task { task < length self.now.config.now.tasks }
        ensures lowest { (x : List Action) → Agrees board.now x → result ≡ lowest_below
            (was_own_last board.now.open_cores.idle self.now.config.now x task)
            self.now.config.now.cores }
        ensures below { IfSome result (λ core. core < self.now.config.now.cores) }
    {
        self.config.limits();
        let had = board.recent.of(task);
        let mut first = 0;
        while let Some(core) = next_core(self.config, &had, first) {
            if board.open_cores.idle.has(core) {
                return Some(core);
            }
            first = core + 1;
        }
        None
    }

    /// The core of the least class for the task among the idle ones, of those with that class the
    /// lowest. Each class is looked for by itself, the least first: one beside a core that the task
    /// holds, then one that the task had last, then any.
    pub fn choose_idle(&self, board: &Board, task: usize) -> Option<Candidate<CoreClass>>
        requires at_hand { IsOfTable self.now.config.now board.now }
        requires task { task < length self.now.config.now.tasks }
        ensures choice { Within self.now board.now (λ s acts. result ≡ best_below comes_before
            (class_among board.now.open_cores.idle s acts task)
            self.now.config.now.cores) }
        ensures below { IfSome result (λ best. best.number < self.now.config.now.cores) }
    {
        if let Some(beside) = self.idle_beside(board, task) {
            return Some(Candidate {
                rank: CoreClass::Sibling,
                number: beside,
            });
        }
        if let Some(again) = self.idle_again(board, task) {
            return Some(Candidate {
                rank: CoreClass::RecentlyUsed,
                number: again,
            });
        }
        match next_core(self.config, &board.open_cores.idle, 0) {
            Some(other) => Some(Candidate {
                rank: CoreClass::OtherIdle,
                number: other,
            }),
            None => None,
        }
    }

    /// Whether the other task may be preempted for this one: it holds a core, and what it holds has
    /// a class for this one.
    fn may_be_preempted(&self, board: &Board, task: usize, other: usize) -> bool
        requires at_hand { IsOfTable self.now.config.now board.now }
        requires task { task < length self.now.config.now.tasks }
        requires other { other < length self.now.config.now.tasks }
        ensures { (x : List Action) → Agrees board.now x →
            result ≡ (nat_lt 0 (held_by self.now.config.now x other)
            && is_some (grants.preempt_class self.now.config.now x task other)) }
    {
        let class = self.preempt_class(board, task, other);
        survey_of(self.config, board).held[other] > 0 && class.is_some()
    }

    /// Whether some task may be preempted for this one.
    pub fn some_may_be_preempted(&self, board: &Board, task: usize) -> bool
        requires at_hand { IsOfTable self.now.config.now board.now }
        requires task { task < length self.now.config.now.tasks }
        ensures none { result ≡ false → (x : List Action) → Agrees board.now x →
            (other : ℕ) → other < length self.now.config.now.tasks →
            (nat_lt 0 (held_by self.now.config.now x other)
            && is_some (grants.preempt_class self.now.config.now x task other)) ≡ false }
    {
        for other in 0..self.config.tasks() {
            if self.may_be_preempted(board, task, other) {
                return true;
            }
        }
        false
    }

    /// Whether some task may be given a core: one is idle, or some task may lose one.
    pub fn some_core_is_open(&self, board: &Board) -> bool
        requires at_hand { IsOfTable self.now.config.now board.now }
        ensures { result ≡ false → Within self.now board.now (λ s acts. (task : ℕ) → task < length self.now.config.now.tasks →
            grants.choice_of s acts task ≡ None) }
    {
        match next_core(self.config, &board.open_cores.idle, 0) {
            Some(_) => true,
            None => some_is_over(self.config, board),
        }
    }

    /// The core of the least class for the task, of those with that class the lowest. A free core
    /// that is not banned is of a lesser class than any that is held, so those that are taken are
    /// visited only where there is none, and some task may be preempted.
    pub fn choose_core(&self, board: &Board, task: usize) -> Option<Candidate<CoreClass>>
        requires at_hand { IsOfTable self.now.config.now board.now }
        requires task { task < length self.now.config.now.tasks }
        ensures choice { Within self.now board.now (λ s acts. result ≡ grants.choice_of s acts task) }
        ensures below { IfSome result (λ best. best.number < self.now.config.now.cores) }
    {
        if let Some(idle) = self.choose_idle(board, task) {
            return Some(idle);
        }
        if !self.may_preempt_any(board, task) {
            return None;
        }
        if !self.some_may_be_preempted(board, task) {
            return None;
        }
        self.choose_among(board, task, &board.sets.taken)
    }
}
