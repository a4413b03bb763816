//! A request in a queue.

use cal_machine::Request;

/// A request that waits in a queue, or at the front of one.
#[derive(Clone, Copy, Debug, PartialEq, Eq)]
pub struct Waiting {
    /// The request, as it came.
    pub request: Request,
    /// When it came, in clock ticks as given.
    pub arrived: u64,
}
