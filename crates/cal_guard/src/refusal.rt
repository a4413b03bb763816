//! Why a pass is refused.

use thiserror::Error;

/// Why an action is not permitted at its place, or why a pass may not end where it does.
#[derive(Clone, Copy, Debug, PartialEq, Eq, Error)]
pub enum Why {
    /// The pass has `MOST_ACTIONS` actions already.
    #[error("a pass has at most 338 actions")]
    TooMany,
    /// The action names no core, thread or task of the table, or does not fit the state: a Free of
    /// a free core, an Unban of one that is not banned, a Ban of one that is, or whose sibling is,
    /// a Revoke of one that is not held, a Cap above the limit, a Grant of one that is not free or
    /// to a thread that has one.
    #[error("it does not fit the state of cores, threads and tasks")]
    DoesNotFit,
    /// Free: the kept record of the core's thread does not show that it left.
    #[error("its thread was not shown to have left it")]
    NotLeft,
    /// Grant: the core is banned.
    #[error("the core is banned")]
    Banned,
    /// Grant: the task books as many cores as its limit.
    #[error("the task books as many cores as its limit")]
    AtLimit,
    /// Grant: the best-effort task books as many cores as its cap, or more.
    #[error("the task books as many cores as its cap")]
    AtCap,
    /// Revoke: the task holds no more cores than it is guaranteed.
    #[error("the task holds no more cores than it is guaranteed")]
    AtGuarantee,
    /// Grant, Revoke: the thread's ring has no room.
    #[error("the thread's ring has no room")]
    NoRoom,
    /// Grant, Revoke: the thread was sent a command in this pass.
    #[error("the thread was sent a command in this pass")]
    SecondCommand,
    /// This core, the lowest such one, is banned and held, and is not the one that is revoked.
    #[error("core {core} is banned and held")]
    BannedHeld { core: u8 },
    /// This best-effort task, the first such one, holds more cores than its cap, and does not lose
    /// one.
    #[error("task {task} holds more cores than its cap")]
    OverCap { task: u8 },
}

/// The first action that is not permitted, and why.
#[derive(Clone, Copy, Debug, PartialEq, Eq, Error)]
#[error("action {place}: {why}")]
pub struct Refused {
    /// The action's number among those that were given, from 0 on. Their count, where each is
    /// permitted and the pass may not end after them.
    pub place: usize,
    /// Why it is not permitted.
    pub why: Why,
}
