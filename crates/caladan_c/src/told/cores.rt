//! For whom a core is banned, and who was granted it last, as C is told.

ghost use Rattle.std.specs.Prelude.{◌≡◌, List, nat_lt};
ghost use Rattle.std.specs.Option.{is_some, IfSome};
ghost use Rattle.cal_policy.specs.declared.history.entry.PassEntry.{PassEntry};
ghost use Rattle.cal_policy.specs.State.{IsReady, IsStateAfter};
ghost use Rattle.cal_policy.specs.History.{actions_of, ban_of, last_thread};
ghost use Rattle.caladan_c.specs.Cores.{told_ban_of, told_last_of};

use cal_machine::Config;
use cal_policy::laws::last_thread_is_placed;
use cal_policy::state::Board;

/// For whom a core is banned. All is 0 where it is not.
#[repr(C)]
#[derive(Clone, Copy)]
pub struct ToldBan {
    /// 1: it is banned.
    pub banned: u8,
    /// The thread on its sibling.
    pub thread: u8,
    /// When the request of that thread was begun.
    pub started: u64,
}

/// Who was granted a core last. All is 0 where nobody was.
#[repr(C)]
#[derive(Clone, Copy)]
pub struct ToldLast {
    /// 1: somebody was granted it.
    pub granted: u8,
    /// The thread.
    pub thread: u8,
    /// Its task.
    pub task: u8,
}

/// For whom a core is banned, where the table has it.
pub fn ban_on(config: &Config, board: &Board, core: u8) -> Option<ToldBan>
    ensures there { is_some result ≡ nat_lt core config.now.cores }
    ensures ban { IfSome result (λ told. (h : List PassEntry) → IsStateAfter board.now h →
        told ≡ told_ban_of (ban_of (actions_of h) core)) }
{
    config.limits();
    if core >= config.machine().cores() {
        return None;
    }
    match board.bans.bans[core as usize] {
        Some(ban) => Some(ToldBan {
            banned: 1,
            thread: ban.thread,
            started: ban.started,
        }),
        None => Some(ToldBan {
            banned: 0,
            thread: 0,
            started: 0,
        }),
    }
}

/// Who was granted a core last, where the table has it.
pub fn last_on(config: &Config, board: &Board, core: u8) -> Option<ToldLast>
    requires { IsReady config.now board.now }
    ensures there { is_some result ≡ nat_lt core config.now.cores }
    ensures last { IfSome result (λ told. (h : List PassEntry) → IsStateAfter board.now h →
        told ≡ told_last_of config.now (last_thread (actions_of h) core)) }
{
    config.limits();
    if core >= config.machine().cores() {
        return None;
    }
    last_thread_is_placed();
    match board.holding.granted[core as usize] {
        Some(grant) => Some(ToldLast {
            granted: 1,
            thread: grant.thread,
            task: config.task_of(grant.thread as usize) as u8,
        }),
        None => Some(ToldLast {
            granted: 0,
            thread: 0,
            task: 0,
        }),
    }
}
