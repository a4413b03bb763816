//! The queue of a kernel thread: the thread's own end, and the thieves that steal from it.

pub mod knowledge;
pub mod rule;
pub mod waiting;

ghost use Rattle.std.specs.Prelude.{◌≡◌, ◌+◌, ◌-◌, ◌<◌, [], ◌∷◌, ◌++◌};
ghost use Rattle.std.specs.Prelude.{IfOk, IfSome, MatchOption, MatchResult};
ghost use Rattle.cal_kthread.specs.Queue.Rule.{queue_shares, AllTaken, TookWhatCame};

use crate::queue::knowledge::Knowledge;
use crate::queue::rule::{Balance, HandingOut, OneShare, Pushing, Taking};
use crate::queue::waiting::Waiting;
use crossbeam_deque::{Pass, Steal, Stealer, Worker};
use std::alloc::{AllocError, Global};
use std::marker::Model;

/// How many requests a new queue has room for. It grows.
const FIRST_ROOM: usize = 4;

/// The own end of a queue, first in first out. Its thread pushes at the back and pops at the front.
/// (That threads of a task steal from one another is Caladan's; the shares are Doranjei's.)
///
/// A contract sees which queue it is, how many of its shares this end has, what it pushed, what
/// it popped (or got back from thieves), and what it handed out at the end, which is nothing so
/// far.
#[derive(Drop)]
pub struct OwnQueue {
    worker: Worker<Waiting, Global, Knowledge, Balance>,
    // whether something was pushed since it was last found empty: thieves only take, so until then
    // there is nothing to pop
    filled: bool,
}

impl Model for OwnQueue {
    ghost use Rattle.std.specs.Prelude.{◌≡◌, ◌<◌, []};
    ghost use Rattle.crossbeam_deque.specs.Handles.{worker_view, worker_flavor};
    ghost use Rattle.cal_kthread.specs.Queue.{QueueView, queue_view};

    ghost Value = { QueueView };

    ghost view = { λ q. queue_view q.worker };

    ghost invariant = { λ q. (worker_flavor q.worker ≡ 0) × (0 < (worker_view q.worker).shares)
        × ((worker_view q.worker).handed ≡ []) };
}

impl OwnQueue {
    /// An empty queue, with all of its shares. Fails only when out of memory.
    pub fn open(alloc: Global) -> Result<OwnQueue, AllocError>
        ensures shares { IfOk result (λ q. q.shares ≡ queue_shares) }
        ensures empty { IfOk result (λ q. (q.pushed ≡ []) × (q.had ≡ []) × (q.handed ≡ [])) }
    {
        let worker = Worker::fifo_as(alloc, FIRST_ROOM)?;
        Ok(OwnQueue {
            worker,
            filled: false,
        })
    }

    /// A thief for this queue, who gets one share. Fails only when out of memory, and then nothing
    /// has changed.
    pub fn lend(&mut self) -> Result<Thief, AllocError>
        requires { 1 < self.old.shares }
        ensures { MatchResult result
            (λ thief. (thief ≡ record { queue = self.old.queue; had = [] })
            × (self.new ≡ record self.old { shares = self.old.shares - 1 }))
            (λ _. self.new ≡ self.old) }
    {
        let stealer = self.worker.stealer()?;
        let pass = self.worker.another::<OneShare>();
        Ok(Thief { stealer, pass })
    }

    /// Puts a request at the back. Fails only when out of memory or when the queue cannot grow
    /// further, and then nothing has changed.
    pub fn push(&mut self, waiting: Waiting) -> Result<(), AllocError>
        ensures { MatchResult result
            (λ _. self.new ≡ record self.old { pushed = self.old.pushed ++ waiting ∷ [] })
            (λ _. self.new ≡ self.old) }
    {
        match self.worker.push_as::<Pushing>(waiting) {
            Ok(()) => {
                self.filled = true;
                Ok(())
            }
            Err(_) => Err(AllocError),
        }
    }

    /// The request at the front. None where none was found, and then nothing has changed. That it
    /// finds what is there is no promise.
    pub fn pop(&mut self) -> Option<Waiting>
        ensures { MatchOption result (self.new ≡ self.old)
            (λ waiting. self.new ≡ record self.old { had = self.old.had ++ waiting ∷ [] }) }
    {
        if !self.filled {
            return None;
        }
        let found = self.worker.pop_as::<Taking>();
        self.filled = found.is_some();
        found
    }

    /// The same end, when its thread's turns are over.
    pub fn finish(self) -> EndQueue
        ensures same { result ≡ self }
        ensures none_handed { result.handed ≡ [] }
    {
        EndQueue {
            worker: self.worker,
        }
    }
}

/// The own end of a queue whose thread's turns are over: it takes the thieves' shares back, and
/// hands out what is left.
///
/// A contract sees the same as of the `OwnQueue`.
#[derive(Drop)]
pub struct EndQueue {
    worker: Worker<Waiting, Global, Knowledge, Balance>,
}

impl Model for EndQueue {
    ghost use Rattle.std.specs.Prelude.{◌≡◌, ◌<◌};
    ghost use Rattle.crossbeam_deque.specs.Handles.{worker_view, worker_flavor};
    ghost use Rattle.cal_kthread.specs.Queue.{QueueView, queue_view};

    ghost Value = { QueueView };

    ghost view = { λ q. queue_view q.worker };

    ghost invariant = { λ q. (worker_flavor q.worker ≡ 0) × (0 < (worker_view q.worker).shares) };
}

impl EndQueue {
    /// The request at the front, which is handed out at the end of a run; with all of its shares,
    /// one that was pushed and was neither taken nor handed out before. None where none was found:
    /// with all of its shares, all that was pushed was then taken or handed out.
    pub fn hand_out(&mut self) -> Option<Waiting>
        ensures handed { MatchOption result (self.new ≡ self.old)
            (λ waiting. self.new ≡ record self.old { handed = self.old.handed ++ waiting ∷ [] }) }
        ensures came { IfSome result (λ _. self.old.shares ≡ queue_shares →
            TookWhatCame self.new.pushed self.new.had self.new.handed) }
        ensures empty { MatchOption result
            (self.old.shares ≡ queue_shares → AllTaken self.old.pushed self.old.had self.old.handed)
            (λ _. Unit {0}) }
    {
        self.worker.pop_as::<HandingOut>()
    }

    /// Takes a thief's share back, with what the thief stole.
    pub fn absorb(&mut self, thief: Thief)
        requires { thief.queue ≡ self.old.queue }
        ensures { self.new ≡ record self.old {
          shares = self.old.shares + 1;
          had = self.old.had ++ thief.had;
        } }
    {
        let Thief { stealer: _, pass } = thief;
        self.worker.absorb::<OneShare>(pass);
    }
}

/// An end that steals from a queue. It has one of the queue's shares, and may be moved to a thread
/// of its own.
///
/// A contract sees which queue it is, and what it stole.
#[derive(Drop)]
pub struct Thief {
    stealer: Stealer<Waiting, Global, Knowledge, Balance>,
    pass: Pass<Waiting, Knowledge>,
}

impl Model for Thief {
    ghost use Rattle.cal_kthread.specs.Queue.{ThiefView, thief_view, IsThief};

    ghost Value = { ThiefView };

    ghost view = { λ t. thief_view t.stealer t.pass };

    ghost invariant = { λ t. IsThief t.stealer t.pass };
}

impl Thief {
    /// One try to steal the request at the front. None where it found none, or met another thief,
    /// and then nothing has changed. That it finds what is there is no promise.
    pub fn steal(&mut self) -> Option<Waiting>
        ensures { MatchOption result (self.new ≡ self.old)
            (λ waiting. self.new ≡ record self.old { had = self.old.had ++ waiting ∷ [] }) }
    {
        match self.stealer.steal_as::<Taking>(&mut self.pass) {
            Steal::Success(waiting) => Some(waiting),
            Steal::Empty => None,
            Steal::Retry => None,
        }
    }
}
