//! Rings that carry the scheduler's commands to its kernel threads, one ring for each thread: what was
//! taken is at all times the first part of what was sent, in order and numbered from 1.
//!
//! A ring has four places and two ends, which may move to threads of their own: the `Sender` stays
//! with the scheduler, the `Taker` goes with the kernel thread. No call waits, and only `open_ring`
//! takes memory. Which commands are sent, and when, is for the scheduler to say. Rings of commands
//! are not Caladan's, whose scheduler interrupts.
#![tactic(auto)]

mod ring;
mod rule;
mod sender;
mod taker;

pub use cal_machine::Command;
pub use ring::{RingEnd, close_ring, open_ring};
pub use rule::MOST_COMMANDS;
pub use sender::Sender;
pub use taker::Taker;
