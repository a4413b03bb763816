//! What a pass does.

/// Why a core is revoked.
#[derive(Clone, Copy, Debug, PartialEq, Eq)]
pub enum Cause {
    /// The core was banned for its sibling, core `by`, whose request has run too long.
    Ban { by: u8 },
    /// The bandwidth figure is over the limit, and the holder's task is the victim.
    Bandwidth,
    /// Task `task` is congested and is to have the core once it was left.
    Preempt { task: u8 },
}

/// One action of a pass. (After Caladan; the exact actions are Doranjei's.)
#[derive(Clone, Copy, Debug, PartialEq, Eq)]
pub enum Action {
    /// The core's thread has acknowledged its Run and left: the core is free.
    Free { core: u8 },
    /// The core may be granted again.
    Unban { core: u8 },
    /// The core stays empty while `thread`, on its sibling, works at the request begun at
    /// `started`.
    Ban { core: u8, thread: u8, started: u64 },
    /// The core's thread is sent Park; the core is leaving until its thread acknowledges.
    Revoke { core: u8, cause: Cause },
    /// The best-effort task may book at most `cap` cores.
    Cap { task: u8, cap: u8 },
    /// The thread is sent Run: it holds the core. `class` says why this core was chosen: a pass
    /// makes grants of class 1 to 3; a recorded one may say 1 to 5, and is then judged.
    Grant { core: u8, thread: u8, class: u8 },
}
