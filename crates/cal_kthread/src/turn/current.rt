//! The request that a kernel thread serves.

use crate::queue::waiting::Waiting;

/// A request that a kernel thread serves. It stays with its thread while the thread is off its
/// core.
#[derive(Clone, Copy, Debug, PartialEq, Eq)]
pub(crate) struct Current {
    /// The request as it came, and when.
    pub(crate) waiting: Waiting,
    /// How many turns of work are left.
    pub(crate) remaining: u64,
    /// When it was begun or resumed, in clock ticks as given.
    pub(crate) started: u64,
}
