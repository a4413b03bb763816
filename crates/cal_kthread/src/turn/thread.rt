//! The state of a kernel thread, without its journal.

use crate::queue::OwnQueue;
use crate::queue::waiting::Waiting;
use crate::turn::current::Current;
use crate::turn::sources::Source;
use cal_command::Taker;
use cal_signal::Publisher;
use std::marker::Model;

/// A kernel thread without its journal: its ends of a page and a ring, its queue and those that it
/// steals from, and what it is at.
#[derive(Drop)]
pub(crate) struct Thread {
    /// The end of its page that publishes.
    pub(crate) publisher: Publisher,
    /// The end of its ring that takes.
    pub(crate) taker: Taker,
    /// How many commands it has taken.
    pub(crate) taken: u64,
    /// Its own queue.
    pub(crate) queue: OwnQueue,
    /// The other threads of its task, in the order in which it tries to steal from them.
    pub(crate) sources: Vec<Source>,
    /// Its core, if it is on one.
    pub(crate) core: Option<u8>,
    /// The request that it serves. Off a core it is suspended.
    pub(crate) current: Option<Current>,
    /// The request that comes next.
    pub(crate) front: Option<Waiting>,
    /// Cache misses so far, at most `MOST_MISSES`.
    pub(crate) misses: u64,
}

impl Model for Thread {
    ghost use Rattle.cal_kthread.specs.Turn.Thread.{ThreadView, IsThread};

    ghost Value = { ThreadView };

    ghost view = { λ t. record {
      publisher = t.publisher;
      taker = t.taker;
      queue = t.queue;
      sources = t.sources.items;
      core = t.core;
      current = t.current;
      front = t.front;
      misses = t.misses;
    } };

    ghost invariant = { λ t. IsThread t.taken t.taker.taken t.core t.misses t.publisher.published };
}
