//! Why the sibling of a core is banned next, or is not; and whether a ban ends.

ghost use Rattle.std.specs.Prelude.{◌≡◌, ◌<◌, Some, None};
ghost use Rattle.std.specs.Option.{IfSome};
ghost use Rattle.cal_machine.specs.TableTasks.{threads_of_table};
ghost use Rattle.cal_policy.specs.Explain.Asked.{IsBanReason, due_by};
ghost use Rattle.cal_policy.specs.Explain.Walks.{IsWalk, Walks, setting_of, actions_so_far};
ghost use Rattle.cal_policy.specs.State.{IsOfTable};
ghost use Rattle.cal_policy.specs.Pass.AtHand.{Within};
ghost use Rattle.cal_policy.specs.History.{holder_of};
ghost use Rattle.cal_policy.specs.Pass.Bans.{too_long_on};
ghost use Rattle.cal_policy.specs.Setting.{Begun, so_far};

use crate::board::Board;
use crate::board::cores::is_banned;
use crate::board::holders::Holder;
use crate::explain::walk::PassWalk;
use crate::pass::Pass;

/// Why a ban of a core's sibling is due, or by what it is not: by the first of these that is so. What
/// the last three say is asked of a core only where a request on it runs too long.
#[derive(Clone, Copy, Debug, PartialEq, Eq)]
pub enum BanReason {
    /// It is due: the request of this thread, which holds the core, runs too long, and none of the
    /// last three is so.
    Due { thread: u8 },
    /// Nobody holds the core.
    NotHeld,
    /// A best-effort task holds it.
    BestEffort,
    /// A latency-critical one holds it, and the kept record of its thread shows no request on it that
    /// runs too long.
    NotTooLong,
    /// The core itself is banned.
    Banned,
    /// Its sibling is banned already.
    SiblingBanned,
    /// Its sibling is held by a thread whose ring has no room, or whose task is not over.
    SiblingStays,
}

impl Pass<'_> {
    /// Why no request on the core runs too long for a ban.
    fn no_long_request(&self, board: &Board, core: u8) -> BanReason
        requires at_hand { IsOfTable self.now.config.now board.now }
        requires core { core < self.now.config.now.cores }
        ensures reason { Within self.now board.now (λ s acts. too_long_on s core (holder_of (so_far s acts) core) ≡ None →
            IsBanReason s (so_far s acts) core result) }
        ensures none { due_by result ≡ None }
    {
        match board.holding.holders[core as usize] {
            Holder::Free | Holder::Leaving(..) => BanReason::NotHeld,
            Holder::Held(placement) => {
                let task = self.config.task_of(placement.thread as usize);
                if self.config.is_latency_critical(task) {
                    BanReason::NotTooLong
                } else {
                    BanReason::BestEffort
                }
            }
        }
    }

    /// Whether the sibling is banned for this thread's request on the core, which runs too long.
    fn ban_of_sibling(&self, board: &Board, core: u8, thread: u8) -> BanReason
        requires at_hand { IsOfTable self.now.config.now board.now }
        requires core { core < self.now.config.now.cores }
        ensures reason { Within self.now board.now (λ s acts. too_long_on s core (holder_of (so_far s acts) core) ≡ Some thread →
            IsBanReason s (so_far s acts) core result) }
        ensures thread { IfSome (due_by result) (λ k. k ≡ thread) }
    {
        self.config.limits();
        let sibling = self.config.machine().sibling(core);
        if is_banned(board, core) {
            BanReason::Banned
        } else if is_banned(board, sibling) {
            BanReason::SiblingBanned
        } else if self.may_be_emptied(board, sibling) {
            BanReason::Due { thread }
        } else {
            BanReason::SiblingStays
        }
    }

    /// Why a ban of the core's sibling is due, or by what it is not.
    fn reason_of_ban(&self, board: &Board, core: u8) -> BanReason
        requires at_hand { IsOfTable self.now.config.now board.now }
        requires core { core < self.now.config.now.cores }
        ensures reason { Within self.now board.now (λ s acts. IsBanReason s (so_far s acts) core result) }
        ensures thread { IfSome (due_by result) (λ k.
            k < threads_of_table self.now.config.now) }
    {
        match self.too_long_on(board, core) {
            None => self.no_long_request(board, core),
            Some(thread) => self.ban_of_sibling(board, core, thread),
        }
    }
}

impl PassWalk<'_> {
    /// Why a ban of the core's sibling is due, or by what it is not.
    pub fn ban_reason(&self, core: u8) -> BanReason
        requires walk { IsWalk self.now }
        requires core { core < self.now.config.now.cores }
        ensures reason { (h : Begun) → Walks self.now h →
            IsBanReason (setting_of self.now h) (actions_so_far self.now h) core result }
        ensures thread { IfSome (due_by result) (λ k.
            k < threads_of_table self.now.config.now) }
    {
        self.pass().reason_of_ban(&self.board, core)
    }
}
