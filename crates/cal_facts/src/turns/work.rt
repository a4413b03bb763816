//! A turn at work.

/// A turn in which a kernel thread worked at a request.
#[derive(Clone, Copy, Debug, PartialEq, Eq)]
pub struct WorkTurn {
    /// The thread.
    pub thread: u8,
    /// The request's name.
    pub request: u64,
    /// When the turn began, in clock ticks.
    pub from: u64,
    /// When it ended, in clock ticks: with the thread's next turn, or with the run.
    pub to: u64,
    /// Whether it did the last of the request's work.
    pub served: bool,
}
