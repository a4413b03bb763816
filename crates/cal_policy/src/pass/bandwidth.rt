//! The fourth part of a pass: a best-effort task loses a core while the bandwidth is over its
//! limit.

ghost use Rattle.std.specs.Prelude.{◌≡◌, ℕ, true, ◌+◌, ◌<◌, ◌≤◌, ◌++◌, length};
ghost use Rattle.std.specs.Prelude.{option_to_list, slice_index_or, replicate, if◌then◌else◌};
ghost use Rattle.std.specs.Option.{IfSome};
ghost use Rattle.cal_policy.specs.declared.history.action_list.TheConstants.{MOST_ACTIONS};
ghost use Rattle.cal_machine.specs.declared.task_table.TheConstants.{MOST_TASKS};
ghost use Rattle.cal_machine.specs.declared.numbering.TheConstants.{MOST_THREADS};
ghost use Rattle.cal_policy.specs.Pass.Choice.{lowest_below};
ghost use Rattle.cal_policy.specs.Setting.{Begun, so_far};
ghost use Rattle.cal_policy.specs.Pass.Bandwidth as rules;
ghost use Rattle.cal_policy.specs.Board.Counts.{is_held_for};
ghost use Rattle.cal_policy.specs.Board.{NamesTable, holder_in};
ghost use Rattle.cal_policy.specs.State.{IsReady, IsOfTable, Stands};
ghost use Rattle.cal_policy.specs.Pass.AtHand.{setting_in, Within};
ghost use Rattle.cal_policy.specs.Board.Losing.{HoldsCore};
ghost use Rattle.cal_policy.specs.Pass.Coupled.{both_of, BothName};

use crate::board::Board;
use crate::board::counts::{cap_of, held_by};
use crate::board::holders::Holder;
use crate::history::action::{Action, Cause};
use crate::history::action_list::Actions;
use crate::pass::Pass;
use crate::pass::choice::{Candidate, greater};
use crate::pass::coupled::{Coupled, neither};
use cal_machine::MOST_TASKS;

fn no_cores() -> [Option<u8>; MOST_TASKS]
    ensures { result ≡ replicate MOST_TASKS None }
{
    [None; MOST_TASKS]
}

/// Notes that the task, if there is one, can lose the core.
fn note(highest: &mut [Option<u8>; MOST_TASKS], task: Option<usize>, core: u8)
    requires { IfSome task (λ t. t < MOST_TASKS) }
    ensures { (t : ℕ) → t < MOST_TASKS →
        slice_index_or highest.new t None ≡ (if rules.is_number t task then Some core
        else slice_index_or highest.old t None) }
{
    if let Some(task) = task {
        highest[task] = Some(core);
    }
}

impl Pass<'_> {
    /// The task that can lose the core: the one whose thread holds it, where the thread's ring has
    /// room.
    fn task_that_can_lose(&self, board: &Board, core: u8) -> Option<usize>
        requires at_hand { IsOfTable self.now.config.now board.now }
        requires core { core < self.now.config.now.cores }
        ensures lose { Within self.now board.now (λ s acts. (t : ℕ) → rules.can_lose s (so_far s acts) t core ≡ rules.is_number t result) }
        ensures task { IfSome result (λ t. t < length self.now.config.now.tasks) }
        ensures held { IfSome result (λ t.
            is_held_for self.now.config.now t (holder_in board.now.holding core)
            ≡ true) }
    {
        match board.holding.holders[core as usize] {
            Holder::Held(placement) => {
                let thread = placement.thread as usize;
                if self.has_room(thread) {
                    Some(self.config.task_of(thread))
                } else {
                    None
                }
            }
            Holder::Free | Holder::Leaving(..) => None,
        }
    }

    /// For each task the highest core that it can lose.
    pub fn cores_to_lose(&self, board: &Board) -> [Option<u8>; MOST_TASKS]
        requires at_hand { IsOfTable self.now.config.now board.now }
        ensures lose { Within self.now board.now (λ s acts. (t : ℕ) → t < MOST_TASKS →
            slice_index_or result t None ≡ rules.core_to_lose s (so_far s acts) t) }
        ensures held { (t : ℕ) → t < MOST_TASKS →
            HoldsCore self.now.config.now board.now t (slice_index_or result t None) }
    {
        let mut highest = no_cores();
        for core in 0..self.config.machine().cores() {
            let task = self.task_that_can_lose(board, core);
            note(&mut highest, task, core);
        }
        highest
    }

    /// The misses of a thread since the pass before.
    pub fn new_misses(&self, board: &Board, thread: usize) -> u64
        requires at_hand { IsOfTable self.now.config.now board.now }
        requires thread { thread < MOST_THREADS }
        ensures { Within self.now board.now (λ s acts. result ≡ rules.new_misses s thread) }
    {
        let misses = board.keeping.kept[thread].misses;
        misses.saturating_sub(board.keeping.before[thread])
    }

    /// The misses of all threads of a task since the pass before.
    pub fn task_misses(&self, board: &Board, task: usize) -> u128
        requires at_hand { IsOfTable self.now.config.now board.now }
        requires task { task < length self.now.config.now.tasks }
        ensures { Within self.now board.now (λ s acts. result ≡ rules.task_misses s task) }
    {
        let (first, count) = self.config.threads_of(task);
        let mut misses = 0u128;
        for j in 0..count {
            misses += u128::from(self.new_misses(board, first + j));
        }
        misses
    }

    /// The misses of a best-effort task with a core that it can lose.
    fn victim_rank(
        &self,
        board: &Board,
        highest: &[Option<u8>; MOST_TASKS],
        task: usize,
    ) -> Option<u128>
        requires at_hand { IsOfTable self.now.config.now board.now }
        requires task { task < length self.now.config.now.tasks }
        ensures { Within self.now board.now (λ s acts. slice_index_or highest.now task None ≡ rules.core_to_lose s (so_far s acts) task →
            result ≡ rules.victim_rank s (so_far s acts) task) }
    {
        if self.config.is_latency_critical(task) {
            return None;
        }
        match highest[task] {
            None => None,
            Some(_) => Some(self.task_misses(board, task)),
        }
    }

    /// The task with the most misses, of those with as many the one with the least number.
    pub fn victim(
        &self,
        board: &Board,
        highest: &[Option<u8>; MOST_TASKS],
    ) -> Option<Candidate<u128>>
        requires at_hand { IsOfTable self.now.config.now board.now }
        ensures victim { Within self.now board.now (λ s acts. ((t : ℕ) → t < MOST_TASKS →
            slice_index_or highest.now t None ≡ rules.core_to_lose s (so_far s acts) t) →
            result ≡ rules.victim_of s (so_far s acts)) }
        ensures task { IfSome result (λ best.
            best.number < length self.now.config.now.tasks) }
    {
        let mut best: Option<Candidate<u128>> = None;
        for t in 0..self.config.tasks() {
            let rank = self.victim_rank(board, highest, t);
            best = greater(best, rank, t as u8);
        }
        best
    }

    /// The cap of a task one below what it holds, and the revocation of the core that it loses.
    fn cut(&self, board: &Board, task: u8, core: Option<u8>) -> Coupled
        requires at_hand { IsOfTable self.now.config.now board.now }
        requires task { task < MOST_TASKS }
        requires core { HoldsCore self.now.config.now board.now task core }
        ensures cut { Within self.now board.now (λ s acts. both_of result ≡ rules.cut_at s (so_far s acts) task core) }
        ensures names { BothName self.now.config.now result }
    {
        let Some(core) = core else { return neither() };
        let held = held_by(self.config, board, task as usize);
        Coupled {
            first: Some(Action::Cap {
                task,
                cap: held - 1,
            }),
            second: Some(Action::Revoke {
                core,
                cause: Cause::Bandwidth,
            }),
        }
    }

    /// What the victim loses.
    fn cut_victim(&self, board: &Board) -> Coupled
        requires at_hand { IsOfTable self.now.config.now board.now }
        ensures cut { Within self.now board.now (λ s acts. both_of result ≡ rules.cut_of s (so_far s acts) (rules.victim_of s (so_far s acts))) }
        ensures names { BothName self.now.config.now result }
    {
        let highest = self.cores_to_lose(board);
        match self.victim(board, &highest) {
            None => neither(),
            Some(victim) => self.cut(board, victim.number, highest[victim.number as usize]),
        }
    }

    /// A cap one higher, where the task is a best-effort one below its limit by its cap.
    fn rise(&self, board: &Board, task: usize) -> Option<Action>
        requires at_hand { IsOfTable self.now.config.now board.now }
        requires task { task < length self.now.config.now.tasks }
        ensures rise { Within self.now board.now (λ s acts. option_to_list result ≡ rules.rise_of s (so_far s acts)
            (if rules.is_capped s (so_far s acts) task then Some task else None)) }
        ensures names { IfSome result (NamesTable self.now.config.now) }
    {
        if self.config.is_latency_critical(task) {
            return None;
        }
        let cap = cap_of(self.config, board, task);
        if cap >= self.config.task(task).limit {
            None
        } else {
            Some(Action::Cap {
                task: task as u8,
                cap: cap + 1,
            })
        }
    }

    /// The rise of the least-numbered capped task.
    fn first_rise(&self, board: &Board) -> Option<Action>
        requires at_hand { IsOfTable self.now.config.now board.now }
        ensures rise { Within self.now board.now (λ s acts. option_to_list result ≡ rules.rise_of s (so_far s acts)
            (lowest_below (rules.is_capped s (so_far s acts))
            (length self.now.config.now.tasks))) }
        ensures names { IfSome result (NamesTable self.now.config.now) }
    {
        for t in 0..self.config.tasks() {
            if let Some(action) = self.rise(board, t) {
                return Some(action);
            }
        }
        None
    }

    /// What is due for the bandwidth. (Inlined, since mostly nothing is.)
    #[inline(always)]
    pub fn bandwidth_due(&self, board: &Board) -> Coupled
        requires at_hand { IsOfTable self.now.config.now board.now }
        ensures due { Within self.now board.now (λ s acts. both_of result ≡ rules.bandwidth_part s acts) }
        ensures names { BothName self.now.config.now result }
    {
        if self.terms.bandwidth > self.config.bandwidth_limit() {
            self.cut_victim(board)
        } else {
            Coupled {
                first: self.first_rise(board),
                second: None,
            }
        }
    }

    /// Takes a core from the victim where the bandwidth is over its limit, else lets one cap rise.
    /// (Inlined into a pass of each policy.)
    #[inline(always)]
    pub fn keep_bandwidth(&self, board: &mut Board, out: &mut Actions)
        requires of_table { IsOfTable self.now.config.now board.old }
        requires room { length out.old + 2 ≤ MOST_ACTIONS }
        ensures acts { (h : Begun) → let s = setting_in self.now h in Stands board.old s out.old →
            (out.new ≡ out.old ++ rules.bandwidth_part s out.old) × Stands board.new s out.new }
        ensures ready { IsReady self.now.config.now board.new }
        ensures length { length out.new ≤ length out.old + 2 }
    {
        let both = self.bandwidth_due(board);
        self.make_both(board, out, both);
    }
}
