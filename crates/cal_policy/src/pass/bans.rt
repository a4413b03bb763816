//! The third part of a pass: a core is emptied while a request on its sibling runs too long, but
//! under `Policy::Assured` none that is free where open cores are lacked.

ghost use Rattle.std.specs.Prelude.{◌≡◌, ◌*◌, ◌+◌, ◌<◌, ◌≤◌, ◌++◌, ◌∷◌, ◌&&◌, [], ℕ, false};
ghost use Rattle.std.specs.Prelude.{length, option_to_list, if◌then◌else◌};
ghost use Rattle.std.specs.Option.{IfSome, IfNone};
ghost use Rattle.cal_machine.specs.Table.{IsTable};
ghost use Rattle.cal_machine.specs.CoreSet.{has};
ghost use Rattle.cal_policy.specs.declared.history.action_list.TheConstants.{MOST_ACTIONS};
ghost use Rattle.cal_machine.specs.declared.machine.TheConstants.{MOST_CORES};
ghost use Rattle.cal_machine.specs.TableTasks.{threads_of_table};
ghost use Rattle.cal_policy.specs.declared.history.action.Action.TheVariants.{Revoke};
ghost use Rattle.cal_policy.specs.declared.history.action.Cause.TheVariants as causes;
ghost use Rattle.cal_policy.specs.History.Lists.{in_pair};
ghost use Rattle.cal_policy.specs.History.{holder_of};
ghost use Rattle.cal_policy.specs.Board.Counts as counts;
ghost use Rattle.cal_policy.specs.Board.Counts.{is_held};
ghost use Rattle.cal_machine.specs.Machine.{sibling_of};
ghost use Rattle.cal_policy.specs.Setting.{Begun, so_far};
ghost use Rattle.cal_policy.specs.Assured.Short.{are_lacked};
ghost use Rattle.cal_policy.specs.Pass.Bans as rules;
ghost use Rattle.cal_policy.specs.Pass.BansBy as by;
ghost use Rattle.cal_policy.specs.Board.{NamesTable};
ghost use Rattle.cal_policy.specs.State.{IsReady, IsOfTable, Stands};
ghost use Rattle.cal_policy.specs.Pass.AtHand.{setting_in, Within};
ghost use Rattle.cal_policy.specs.Pass.Coupled.{both_of, BothName};
ghost use Rattle.cal_policy.specs.Pass.ToBan.{NoneOver, cores_to_ban};

use crate::board::Board;
use crate::board::core_sets::next_core;
use crate::board::cores::is_free;
use crate::board::counts::{is_over, some_is_over};
use crate::board::holders::Holder;
use crate::history::action::{Action, Cause};
use crate::history::action_list::Actions;
use crate::pass::Pass;
use crate::pass::coupled::{Coupled, neither};
use crate::policy::Policy;
use cal_machine::Config;
use cal_signal::Record;

/// Whether a record shows its thread on the core, at a request begun more than `limit` ticks ago.
fn runs_too_long(clock: u64, rec: &Record, core: u8, limit: u64) -> bool
    ensures { result ≡ rules.runs_too_long clock rec.now core limit }
{
    rec.shows(core) && rec.started != 0 && rec.started < clock && limit < clock - rec.started
}

impl Pass<'_> {
    /// The thread that holds the core for a latency-critical task, where its request runs too long.
    pub fn too_long_on(&self, board: &Board, core: u8) -> Option<u8>
        requires at_hand { IsOfTable self.now.config.now board.now }
        requires core { core < self.now.config.now.cores }
        ensures due { Within self.now board.now (λ s acts. result ≡ rules.too_long_on s core (holder_of (so_far s acts) core)) }
        ensures thread { IfSome result (λ thread.
            thread < threads_of_table self.now.config.now) }
    {
        match board.holding.holders[core as usize] {
            Holder::Held(placement) => {
                let task = self.config.task_of(placement.thread as usize);
                let rec = &board.keeping.kept[placement.thread as usize];
                let limit = self.config.task(task).request;
                if self.config.is_latency_critical(task)
                    && runs_too_long(self.terms.now, rec, core, limit)
                {
                    Some(placement.thread)
                } else {
                    None
                }
            }
            Holder::Free | Holder::Leaving(..) => None,
        }
    }

    /// Whether the core may be emptied: it is free, being left, or held by a thread whose ring has
    /// room and whose task is over.
    pub fn may_be_emptied(&self, board: &Board, core: u8) -> bool
        requires at_hand { IsOfTable self.now.config.now board.now }
        requires core { core < self.now.config.now.cores }
        ensures { Within self.now board.now (λ s acts. result ≡ rules.may_be_emptied s (so_far s acts) (holder_of (so_far s acts) core)) }
    {
        match board.holding.holders[core as usize] {
            Holder::Free | Holder::Leaving(..) => true,
            Holder::Held(placement) => {
                let thread = placement.thread as usize;
                let task = self.config.task_of(thread);
                self.has_room(thread) && is_over(self.config, board, task)
            }
        }
    }

    /// Whether neither the core nor its sibling is banned, and the sibling may be emptied.
    fn may_ban_beside(&self, board: &Board, core: u8) -> bool
        requires at_hand { IsOfTable self.now.config.now board.now }
        requires core { core < self.now.config.now.cores }
        ensures { Within self.now board.now (λ s acts. result ≡ rules.may_ban_beside s (so_far s acts) core) }
    {
        let beside = self.config.machine().sibling(core);
        board.bans.bans[core as usize].is_none()
            && board.bans.bans[beside as usize].is_none()
            && self.may_be_emptied(board, beside)
    }

    /// The thread for whose request on the core the sibling may be banned.
    pub fn ban_due(&self, board: &Board, core: u8) -> Option<u8>
        requires at_hand { IsOfTable self.now.config.now board.now }
        requires core { core < self.now.config.now.cores }
        ensures due { Within self.now board.now (λ s acts. result ≡ rules.ban_due s (so_far s acts) core) }
        ensures thread { IfSome result (λ thread.
            thread < threads_of_table self.now.config.now) }
    {
        let thread = self.too_long_on(board, core)?;
        if self.may_ban_beside(board, core) {
            Some(thread)
        } else {
            None
        }
    }

    /// Whether the sibling of a core is free, and open cores are lacked.
    pub fn is_free_and_lacked_beside(&self, board: &Board, core: u8) -> bool
        requires at_hand { IsOfTable self.now.config.now board.now }
        requires core { core < self.now.config.now.cores }
        ensures { Within self.now board.now (λ s acts. result
            ≡ (counts.is_free (holder_of (so_far s acts) (sibling_of core))
            && are_lacked s (so_far s acts))) }
    {
        self.config.limits();
        let beside = self.config.machine().sibling(core);
        is_free(board, beside) && self.are_lacked(board)
    }

    /// Whether the sibling of a core stays open though a ban is due: under `Policy::Assured`, where
    /// it is free and open cores are lacked.
    fn stays_open(&self, board: &Board, core: u8) -> bool
        requires at_hand { IsOfTable self.now.config.now board.now }
        requires core { core < self.now.config.now.cores }
        ensures { Within self.now board.now (λ s acts. result
            ≡ by.stays_open self.now.terms.now.policy s (so_far s acts) core) }
    {
        match self.terms.policy {
            Policy::Caladan => false,
            Policy::Assured => self.is_free_and_lacked_beside(board, core),
        }
    }

    /// The thread for whose request on the core the sibling is to be banned, where a ban is due.
    /// (Inlined, since mostly there is none.)
    #[inline(always)]
    fn ban_due_by(&self, board: &Board, core: u8) -> Option<u8>
        requires at_hand { IsOfTable self.now.config.now board.now }
        requires core { core < self.now.config.now.cores }
        ensures due { Within self.now board.now (λ s acts. result
            ≡ by.ban_due_by self.now.terms.now.policy s (so_far s acts) core) }
        ensures thread { IfSome result (λ thread.
            thread < threads_of_table self.now.config.now) }
    {
        let thread = self.ban_due(board, core)?;
        if self.stays_open(board, core) {
            None
        } else {
            Some(thread)
        }
    }

    /// The revocation of a core that is banned for core `by`, where it is held.
    pub fn ban_revocation(&self, board: &Board, core: u8, by: u8) -> Option<Action>
        requires at_hand { IsOfTable self.now.config.now board.now }
        requires core { core < self.now.config.now.cores }
        ensures due { Within self.now board.now (λ s acts. option_to_list result
            ≡ (if is_held (holder_of (so_far s acts) core)
            then Revoke core (causes.Ban by) ∷ [] else [])) }
        ensures names { IfSome result (NamesTable self.now.config.now) }
    {
        match board.holding.holders[core as usize] {
            Holder::Held(_) => Some(Action::Revoke {
                core,
                cause: Cause::Ban { by },
            }),
            Holder::Free | Holder::Leaving(..) => None,
        }
    }

    /// The ban that a core gives rise to, and where the banned core is held its revocation. (Inlined,
    /// since mostly there is none.)
    #[inline(always)]
    pub fn ban_beside(&self, board: &Board, core: u8) -> Coupled
        requires at_hand { IsOfTable self.now.config.now board.now }
        requires core { core < self.now.config.now.cores }
        ensures due { Within self.now board.now (λ s acts. both_of result
            ≡ by.bans_at_by self.now.terms.now.policy s acts core) }
        ensures names { BothName self.now.config.now result }
        ensures alone { result.first ≡ None → result.second ≡ None }
    {
        let beside = self.config.machine().sibling(core);
        let Some(thread) = self.ban_due_by(board, core) else {
            return neither();
        };
        let ban = Action::Ban {
            core: beside,
            thread,
            started: board.keeping.kept[thread as usize].started,
        };
        Coupled {
            first: Some(ban),
            second: self.ban_revocation(board, beside, core),
        }
    }

    /// What the cores of this pair give rise to: once the one bans the other, that one bans
    /// nothing.
    fn ban_in_pair(&self, board: &Board, pair: u8) -> Coupled
        requires at_hand { IsOfTable self.now.config.now board.now }
        requires pair { 2 * pair + 1 < self.now.config.now.cores }
        ensures due { Within self.now board.now (λ s acts. both_of result
            ≡ in_pair (by.bans_at_by self.now.terms.now.policy s) acts pair) }
        ensures names { BothName self.now.config.now result }
        ensures alone { result.first ≡ None → result.second ≡ None }
    {
        let lower = self.ban_beside(board, 2 * pair);
        match lower.first {
            Some(_) => lower,
            None => self.ban_beside(board, 2 * pair + 1),
        }
    }
}

/// Whether some task may be over after what a pair gave: one may have been before, or one is. Where
/// the pair gave nothing no task is asked again, since nothing has changed.
pub fn some_may_be_over(config: &Config, board: &Board, before: bool, given: Option<Action>) -> bool
    requires table { IsTable config.now }
    requires ready { IsReady config.now board.now }
    requires same { given ≡ None → before ≡ false → NoneOver config.now board.now }
    ensures { result ≡ false → NoneOver config.now board.now }
{
    match given {
        None => before,
        Some(_) => before || some_is_over(config, board),
    }
}

/// The next core from this one on that may give rise to a ban.
pub fn next_to_ban(config: &Config, board: &Board, over: bool, first: u8) -> Option<u8>
    requires table { IsTable config.now }
    ensures next { IfSome result (λ core. (first ≤ core) × (core < config.now.cores)) }
    ensures between { IfSome result (λ next. (core : ℕ) → first ≤ core → core < next →
        has (cores_to_ban board.now over) core ≡ false) }
    ensures none { IfNone result ((core : ℕ) → first ≤ core → core < config.now.cores →
        has (cores_to_ban board.now over) core ≡ false) }
{
    if over {
        next_core(config, &board.sets.taken, first)
    } else {
        next_core(config, &board.open_cores.alone, first)
    }
}

impl Pass<'_> {
    /// Bans the sibling of each core on which a request runs too long, and revokes it where it is
    /// held. The cores that may give rise to a ban are visited upwards, pair by pair, and a pair
    /// gives at most one ban: those that are taken, but while no task is over only those that are
    /// held beside one that is not, since a core that a thread holds is emptied only where its task
    /// is over.
    pub fn ban_siblings(&self, board: &mut Board, out: &mut Actions)
        requires of_table { IsOfTable self.now.config.now board.old }
        requires room { length out.old + MOST_CORES ≤ MOST_ACTIONS }
        ensures acts { (h : Begun) → let s = setting_in self.now h in Stands board.old s out.old →
            (out.new ≡ out.old ++ by.bans_by self.now.terms.now.policy s out.old)
            × Stands board.new s out.new }
        ensures ready { IsReady self.now.config.now board.new }
        ensures length { length out.new ≤ length out.old + MOST_CORES }
    {
        let mut over = some_is_over(self.config, board);
        let mut next = 0;
        while let Some(core) = next_to_ban(self.config, board, over, 2 * next) {
            let pair = core / 2;
            let both = self.ban_in_pair(board, pair);
            self.make_both(board, out, both);
            over = some_may_be_over(self.config, board, over, both.first);
            next = pair + 1;
        }
    }
}
