//! A task of the table.

/// What a task is for, as in Caladan.
#[derive(Clone, Copy, Debug, PartialEq, Eq)]
pub enum Kind {
    /// Latency-critical: it is given cores by its delay.
    LatencyCritical,
    /// Best-effort: it gets only what latency-critical tasks do not need.
    BestEffort,
}

/// A task, as the table states it. It has `limit` kernel threads.
#[derive(Clone, Copy, Debug, PartialEq, Eq)]
pub struct Task {
    /// What it is for.
    pub kind: Kind,
    /// Cores that it may keep: those above can be taken away. 0 for a best-effort task.
    pub guaranteed: u8,
    /// The most cores that it can have at once, and its number of kernel threads: 1 to 16.
    pub limit: u8,
    /// The queueing delay above which it is congested, in clock ticks as given.
    pub delay: u64,
    /// The age of a request above which its core's sibling is banned, in clock ticks as given. Not
    /// used for a best-effort task.
    pub request: u64,
}
