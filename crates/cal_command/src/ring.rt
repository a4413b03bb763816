//! A ring is made, and its ends brought together again.
ghost use Rattle.std.specs.Prelude.{◌≡◌, ◌≤◌, [], length, take, IfOk};

use crate::rule::Sendable;
use crate::sender::Sender;
use crate::taker::Taker;
use rtrb::RingBuffer;
use std::alloc::{AllocError, Global};

/// How many commands may be on a ring that were sent and not yet taken.
const PLACES: usize = 4;

/// A ring of four places, all free, on which nothing was sent: its two ends. Fails only when out of
/// memory.
pub fn open_ring(alloc: Global) -> Result<(Sender, Taker), AllocError>
    ensures one_ring { IfOk result (λ r. r.0.ring ≡ r.1.ring) }
    ensures empty { IfOk result (λ r. (r.0.sent ≡ []) × (r.1.taken ≡ [])) }
    ensures places { IfOk result (λ r. r.0.free ≡ 4) }
{
    let (producer, consumer) = RingBuffer::with_protocol::<Global, Sendable>(alloc, PLACES)?;
    Ok((Sender { producer, count: 0 }, Taker { consumer, count: 0 }))
}

/// How far a ring came, in commands.
#[derive(Clone, Copy, PartialEq, Eq, Debug)]
pub struct RingEnd {
    /// How many commands were sent.
    pub sent: u64,
    /// How many of these were taken.
    pub taken: u64,
}

/// Closes a ring, given its two ends. What was taken is the first `taken` commands of what was
/// sent. Commands left on the ring are dropped with it; they count in `sent`.
pub fn close_ring(sender: Sender, taker: Taker) -> RingEnd
    requires { sender.ring ≡ taker.ring }
    ensures sent { result.sent ≡ length sender.sent }
    ensures taken { result.taken ≡ length taker.taken }
    ensures within { result.taken ≤ result.sent }
    ensures first { taker.taken ≡ take result.taken sender.sent }
{
    let Sender {
        mut producer,
        count: sent,
    } = sender;
    let Taker {
        mut consumer,
        count: taken,
    } = taker;
    consumer.slots_beside(&mut producer);
    RingEnd { sent, taken }
}
