//! A kernel thread whose turns are over.
ghost use Rattle.std.specs.Prelude.{◌≡◌, ◌+◌, ◌++◌, [], ◌∷◌, IfSome, MatchOption, option_map};
ghost use Rattle.cal_kthread.specs.End.Account.{KeepsItsWork};
ghost use Rattle.cal_kthread.specs.End.Ended.{IsEndOf};
ghost use Rattle.cal_kthread.specs.declared.turn.current.Current.{Current};
ghost use Rattle.cal_kthread.specs.Queue.Rule.{queue_shares, AllTaken, TookWhatCame};
ghost use Rattle.cal_kthread.specs.End.Rest.{HandsOut, to_hand_out};
ghost use Rattle.cal_kthread.specs.Team.{place_of_rest};
ghost use Rattle.cal_kthread.specs.declared.queue.waiting.Waiting.{Waiting};

use crate::bare_thread::BareThread;
use crate::end::rest::Rest;
use crate::journal::Journal;
use crate::journal::entry::Entry;
use crate::journal::kept::Kept;
use crate::kernel_thread::KernelThread;
use crate::queue::Thief;
use crate::queue::waiting::Waiting;
use crate::turn::current::Current;
use crate::turn::sources::Source;
use crate::turn::thread::Thread;
use cal_command::Taker;
use cal_machine::{Past, Request};
use cal_signal::Publisher;
use std::marker::Model;

/// A kernel thread whose turns are over: its number, what it did, its ends of its page and its
/// ring, and the rest of its work.
#[derive(Drop)]
pub struct ThreadEnd<J: Kept> {
    /// The thread's number, in thread order from 0.
    pub number: u8,
    /// What it did.
    pub journal: J,
    /// The end of its page that publishes.
    pub publisher: Publisher,
    /// The end of its ring that takes.
    pub taker: Taker,
    /// Its queue, its thieves, and the requests that it still has.
    pub rest: Rest,
}

impl<J: Kept> Model for ThreadEnd<J> {
    ghost use Rattle.cal_kthread.specs.End.Rest.{EndView};

    ghost Value = { EndView };

    ghost view = { λ e. record {
      number = e.number;
      journal = J.entries e.journal;
      publisher = e.publisher;
      taker = e.taker;
      rest = e.rest;
    } };
}

/// The end of a thread that kept its journal.
pub type KernelEnd = ThreadEnd<Journal>;

/// The end of a thread that kept no journal.
pub type BareThreadEnd = ThreadEnd<Past<Entry>>;

impl KernelThread {
    /// Ends the thread after its last turn. Takes no memory.
    pub fn end(self) -> KernelEnd
        ensures { IsEndOf self result }
    {
        let (bare, journal) = self.into_parts();
        let ThreadEnd {
            number,
            publisher,
            taker,
            rest,
            ..
        } = bare.end();
        ThreadEnd {
            number,
            journal,
            publisher,
            taker,
            rest,
        }
    }
}

impl BareThread {
    /// Ends the thread after its last turn, as of a `KernelThread`. Takes no memory.
    pub fn end(self) -> BareThreadEnd
        ensures { IsEndOf self result }
    {
        let BareThread {
            number,
            past,
            thread,
        } = self;
        let Thread {
            publisher,
            taker,
            queue,
            sources,
            current,
            front,
            ..
        } = thread;
        ThreadEnd {
            number,
            journal: past,
            publisher,
            taker,
            rest: Rest::new(queue, sources, waiting_of(current), front),
        }
    }
}

/// The request that is served, as it arrived.
fn waiting_of(current: Option<Current>) -> Option<Waiting>
    ensures { result ≡ option_map (λ (c : Current). c.waiting) current }
{
    match current {
        Some(current) => Some(current.waiting),
        None => None,
    }
}

impl<J: Kept> ThreadEnd<J> {
    /// Hands out the next request that was not served: the current one, the front, then one from
    /// the queue. None where none was found.
    ///
    /// Once all shares of the queue are gathered, by `settle`: one from the queue had come into it,
    /// and was neither taken nor handed out before; each Some leaves one fewer (`to_hand_out`), so
    /// a loop up to None ends; and with None all that came into the queue was taken or handed out.
    pub fn left(&mut self) -> Option<Request>
        ensures handed { MatchOption result (self.new ≡ self.old)
            (λ request. (waiting : Waiting) × (waiting.request ≡ request)
            × HandsOut waiting self.old.rest self.new.rest
            × (self.new ≡ record self.old { rest = self.new.rest })) }
        ensures came { IfSome result (λ _. self.old.rest.queue.shares ≡ queue_shares
            → self.old.rest.held ≡ []
            → TookWhatCame self.new.rest.queue.pushed self.new.rest.queue.had
            self.new.rest.queue.handed) }
        ensures fewer { IfSome result (λ _. self.old.rest.queue.shares ≡ queue_shares
            → to_hand_out self.new.rest + 1 ≡ to_hand_out self.old.rest) }
        ensures place { place_of_rest self.new.rest ≡ place_of_rest self.old.rest }
        ensures work { KeepsItsWork self.old → KeepsItsWork self.new }
        ensures none { MatchOption result
            ((self.old.rest.held ≡ []) × (self.old.rest.queue.shares ≡ queue_shares
            → AllTaken self.old.rest.queue.pushed self.old.rest.queue.had
            self.old.rest.queue.handed))
            (λ _. Unit {0}) }
    {
        let waiting = self.rest.hand_out()?;
        Some(waiting.request)
    }

    /// Gives up the last of the thieves.
    pub(crate) fn give_back(&mut self) -> Option<Source>
        ensures { MatchOption result
            ((self.new ≡ self.old) × (self.old.rest.sources ≡ []))
            (λ source. (self.new ≡ record self.old {
              rest = record self.old.rest { sources = self.new.rest.sources };
            })
            × (self.old.rest.sources ≡ self.new.rest.sources ++ source ∷ [])) }
    {
        self.rest.give_back()
    }

    /// Takes a share of its queue back, with what its thief stole.
    pub(crate) fn absorb(&mut self, thief: Thief)
        requires { thief.queue ≡ self.old.rest.queue.queue }
        ensures { self.new ≡ record self.old {
          rest = record self.old.rest {
            queue = record self.old.rest.queue {
              shares = self.old.rest.queue.shares + 1;
              had = self.old.rest.queue.had ++ thief.had;
            };
          };
        } }
    {
        self.rest.absorb(thief);
    }
}
