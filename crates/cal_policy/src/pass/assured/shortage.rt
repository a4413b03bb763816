//! Tasks that book less than they are guaranteed, what they lack, and which tasks wait.

ghost use Rattle.std.specs.Prelude.{◌≡◌, ◌-◌, ◌<◌, ◌≤◌, nat_lt, List, length, Some};
ghost use Rattle.cal_machine.specs.declared.numbering.TheConstants.{MOST_THREADS};
ghost use Rattle.cal_policy.specs.declared.history.action.Action.{Action};
ghost use Rattle.cal_policy.specs.Assured.InFlight.{pressing};
ghost use Rattle.cal_policy.specs.Assured.Short as rules;
ghost use Rattle.cal_policy.specs.Pass.AtHand.{Within};
ghost use Rattle.cal_policy.specs.Pass.Counted.{Counts};
ghost use Rattle.cal_policy.specs.Setting.{so_far};
ghost use Rattle.cal_policy.specs.State.{IsOfTable, Agrees};

use crate::board::Board;
use crate::board::counts::booked_by;
use crate::pass::Pass;
use crate::pass::assured::flight::count_if;

impl Pass<'_> {
    /// Whether a task is short: a latency-critical one that books less than it is guaranteed.
    pub fn is_short(&self, board: &Board, task: usize) -> bool
        requires at_hand { IsOfTable self.now.config.now board.now }
        requires task { task < length self.now.config.now.tasks }
        ensures { (x : List Action) → Agrees board.now x →
            result ≡ rules.is_short self.now.config.now x task }
    {
        let guaranteed = self.config.task(task).guaranteed;
        self.config.is_latency_critical(task) && booked_by(self.config, board, task) < guaranteed
    }

    /// How many cores a short task lacks; one that is not short lacks none.
    pub fn lacks(&self, board: &Board, task: usize) -> usize
        requires at_hand { IsOfTable self.now.config.now board.now }
        requires task { task < length self.now.config.now.tasks }
        ensures lacks { (x : List Action) → Agrees board.now x →
            result ≡ rules.lacks self.now.config.now x task }
        ensures few { result ≤ 255 }
    {
        let guaranteed = self.config.task(task).guaranteed;
        let booked = booked_by(self.config, board, task);
        if self.config.is_latency_critical(task) && booked < guaranteed {
            (guaranteed - booked) as usize
        } else {
            0
        }
    }

    /// How many cores a task lacks, where it is short and waits; another lacks none.
    fn lacks_waiting(&self, board: &Board, task: usize) -> usize
        requires at_hand { IsOfTable self.now.config.now board.now }
        requires task { task < length self.now.config.now.tasks }
        ensures lacks { Within self.now board.now (λ s acts. result
            ≡ rules.lacks_waiting s (so_far s acts) task) }
        ensures few { result ≤ 255 }
    {
        let lacks = self.lacks(board, task);
        if lacks == 0 {
            return 0;
        }
        if self.waits(board, task) { lacks } else { 0 }
    }

    /// How many cores all short tasks lack that wait; where they lack `enough` or more, it may be
    /// fewer, but no fewer than `enough`. Only tasks with a thread that waits are asked.
    fn lacking_to(&self, board: &Board, enough: usize) -> usize
        requires at_hand { IsOfTable self.now.config.now board.now }
        ensures all { Within self.now board.now (λ s acts. result < enough →
            result ≡ rules.lacking s (so_far s acts)) }
        ensures fewer { Within self.now board.now (λ s acts. result
            ≤ rules.lacking s (so_far s acts)) }
        ensures few { result < 65536 }
    {
        let threads = self.config.threads();
        let mut lacking = 0;
        // The threads of the tasks below `reached` are those below `first`.
        let mut reached = 0;
        let mut first = 0;
        while let Some(waiting) = board.keeping.waiting.next(first, threads) {
            let task = self.config.task_of(waiting);
            lacking += self.lacks_waiting(board, task);
            if enough <= lacking {
                return lacking;
            }
            let (begin, count) = self.config.threads_of(task);
            reached = task + 1;
            first = begin + count;
        }
        let _ = reached;
        lacking
    }

    /// How many cores all short tasks lack that wait.
    pub fn lacking(&self, board: &Board) -> usize
        requires at_hand { IsOfTable self.now.config.now board.now }
        ensures { Within self.now board.now (λ s acts. result ≡ rules.lacking s (so_far s acts)) }
    {
        self.lacking_to(board, usize::MAX)
    }

    /// The same, counted where `counted` has no count yet: it has it from then on.
    fn lacking_counted(&self, board: &Board, counted: &mut Option<usize>) -> usize
        requires at_hand { IsOfTable self.now.config.now board.now }
        ensures lacking { Within self.now board.now (λ s acts.
            Counts s (so_far s acts) counted.old → result ≡ rules.lacking s (so_far s acts)) }
        ensures counted { counted.new ≡ Some result }
    {
        if let Some(lacking) = *counted {
            return lacking;
        }
        let lacking = self.lacking(board);
        *counted = Some(lacking);
        lacking
    }

    /// How many threads of a task may be granted a core.
    fn spare(&self, board: &Board, task: usize) -> usize
        requires at_hand { IsOfTable self.now.config.now board.now }
        requires task { task < length self.now.config.now.tasks }
        ensures { Within self.now board.now (λ s acts. result
            ≡ rules.spare s (so_far s acts) task) }
    {
        let (first, count) = self.config.threads_of(task);
        let mut spare = 0;
        for j in 0..count {
            let rank = self.thread_rank(board, first + j);
            spare = count_if(spare, rank.is_some());
        }
        spare
    }

    /// How many cores a short task could be granted in this pass: it lacks so many, has so many late
    /// threads for them, and so many threads that may be granted one.
    pub fn needs(&self, board: &Board, task: usize) -> usize
        requires at_hand { IsOfTable self.now.config.now board.now }
        requires task { task < length self.now.config.now.tasks }
        ensures { Within self.now board.now (λ s acts. result
            ≡ rules.needs s (so_far s acts) task) }
    {
        let lacks = self.lacks(board, task);
        let pressing = self.pressing(board, task);
        let spare = self.spare(board, task);
        lacks.min(pressing.min(spare))
    }

    /// How many cores are free and not banned.
    pub fn open_cores(&self, board: &Board) -> usize
        requires at_hand { IsOfTable self.now.config.now board.now }
        ensures { (x : List Action) → Agrees board.now x →
            result ≡ rules.open_cores self.now.config.now x }
    {
        let cores = self.config.machine().cores();
        board.open_cores.idle.count_below(cores)
    }

    /// How many late threads of a task have a helper on its way; of a short task only the helpers of
    /// this pass count.
    pub fn surplus(&self, board: &Board, task: usize) -> usize
        requires at_hand { IsOfTable self.now.config.now board.now }
        requires task { task < length self.now.config.now.tasks }
        ensures count { Within self.now board.now (λ s acts. result
            ≡ rules.surplus s (so_far s acts) task) }
        ensures few { result ≤ MOST_THREADS }
    {
        if self.is_short(board, task) {
            self.new_helpers(board, task)
        } else {
            self.helpers(board, task)
        }
    }

    /// How many threads of a task press beyond those that have a helper on its way. Helpers are
    /// counted only where some press.
    pub fn unhelped(&self, board: &Board, task: usize) -> usize
        requires at_hand { IsOfTable self.now.config.now board.now }
        requires task { task < length self.now.config.now.tasks }
        ensures count { Within self.now board.now (λ s acts. result
            ≡ pressing s (so_far s acts) task - rules.surplus s (so_far s acts) task) }
        ensures some { Within self.now board.now (λ s acts. nat_lt 0 result
            ≡ nat_lt (rules.surplus s (so_far s acts) task)
            (pressing s (so_far s acts) task)) }
    {
        let pressing = self.pressing(board, task);
        if pressing == 0 {
            return 0;
        }
        let surplus = self.surplus(board, task);
        pressing.saturating_sub(surplus)
    }

    /// Whether a task waits: more of its threads press than have a helper, it may book one more
    /// core, and it has a thread that may be granted one.
    pub fn waits(&self, board: &Board, task: usize) -> bool
        requires at_hand { IsOfTable self.now.config.now board.now }
        requires task { task < length self.now.config.now.tasks }
        ensures { Within self.now board.now (λ s acts. result
            ≡ rules.waits s (so_far s acts) task) }
    {
        self.unhelped(board, task) > 0 && self.may_book(board, task) && self.has_thread(board, task)
    }

    /// Whether a task is short and waits.
    pub fn waits_short(&self, board: &Board, task: usize) -> bool
        requires at_hand { IsOfTable self.now.config.now board.now }
        requires task { task < length self.now.config.now.tasks }
        ensures { Within self.now board.now (λ s acts. result
            ≡ rules.waits_short s (so_far s acts) task) }
    {
        self.is_short(board, task) && self.waits(board, task)
    }

    /// Whether some short task waits: then it lacks a core.
    pub fn some_waits_short(&self, board: &Board) -> bool
        requires at_hand { IsOfTable self.now.config.now board.now }
        ensures { Within self.now board.now (λ s acts. result
            ≡ rules.some_waits_short s (so_far s acts)) }
    {
        self.lacking(board) > 0
    }

    /// Whether open cores are lacked: some short task waits, and no more cores are open than are
    /// lacking. No more are counted than tell.
    pub fn are_lacked(&self, board: &Board) -> bool
        requires at_hand { IsOfTable self.now.config.now board.now }
        ensures { Within self.now board.now (λ s acts. result
            ≡ rules.are_lacked s (so_far s acts)) }
    {
        let enough = self.open_cores(board).max(1);
        enough <= self.lacking_to(board, enough)
    }

    /// Whether open cores are wanted: some short task waits, and fewer cores are open than are
    /// lacking. How many are lacking is counted where `counted` has no count yet.
    pub fn are_wanted_counting(&self, board: &Board, counted: &mut Option<usize>) -> bool
        requires at_hand { IsOfTable self.now.config.now board.now }
        ensures wanted { Within self.now board.now (λ s acts. Counts s (so_far s acts) counted.old →
            result ≡ rules.are_wanted s (so_far s acts)) }
        ensures counted { Within self.now board.now (λ s acts.
            Counts s (so_far s acts) counted.old → Counts s (so_far s acts) counted.new) }
    {
        let lacking = self.lacking_counted(board, counted);
        if lacking == 0 {
            return false;
        }
        self.open_cores(board) < lacking
    }

    /// Whether open cores are wanted.
    pub fn are_wanted(&self, board: &Board) -> bool
        requires at_hand { IsOfTable self.now.config.now board.now }
        ensures { Within self.now board.now (λ s acts. result
            ≡ rules.are_wanted s (so_far s acts)) }
    {
        self.are_wanted_counting(board, &mut None)
    }
}
