//! A request for a kernel thread.

/// A piece of work that comes to a kernel thread's queue.
#[derive(Clone, Copy, Debug, PartialEq, Eq)]
pub struct Request {
    /// Its name: what tells it from others.
    pub id: u64,
    /// How many turns of work it takes, at least 1.
    pub work: u64,
    /// How many cache misses each of these turns adds to its thread's count.
    pub misses: u64,
}
