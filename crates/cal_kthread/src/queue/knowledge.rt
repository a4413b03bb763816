//! What one end of a queue knows.
use crate::queue::waiting::Waiting;
use std::collections::LinkedList;

/// What one end of a queue knows. No value of it is ever made.
pub struct Knowledge {
    /// Its shares in the queue: all ends of a queue together have `queue_shares`
    /// (specs/Queue/Rule.antt).
    pub shares: u64,
    /// What it pushed, in order.
    pub pushed: LinkedList<Waiting>,
    /// What it took from the front, in order.
    pub had: LinkedList<Waiting>,
    /// What it handed out at the end of the run, in order.
    pub handed: LinkedList<Waiting>,
}
