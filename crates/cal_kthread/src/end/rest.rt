//! What is left of a kernel thread's work when its turns are over.
ghost use Rattle.std.specs.Prelude.{◌≡◌, ◌+◌, ◌++◌, [], ◌∷◌, option_to_list, IfSome, MatchOption};
ghost use Rattle.cal_kthread.specs.Queue.Rule.{queue_shares, AllTaken, TookWhatCame};
ghost use Rattle.cal_kthread.specs.End.Rest.{HandsOut};

use crate::queue::waiting::Waiting;
use crate::queue::{EndQueue, OwnQueue, Thief};
use crate::turn::sources::Source;
use std::marker::Model;

/// The queue of a kernel thread whose turns are over, its thieves, and the requests that it still
/// has.
///
/// A contract sees them, and all that was handed out so far.
#[derive(Drop)]
pub struct Rest {
    queue: EndQueue,
    sources: Vec<Source>,
    // the current request and the front, before and after they are handed out
    current: Option<Waiting>,
    front: Option<Waiting>,
    current_out: Option<Waiting>,
    front_out: Option<Waiting>,
}

impl Model for Rest {
    ghost use Rattle.std.specs.Prelude.{option_to_list, ◌++◌};
    ghost use Rattle.cal_kthread.specs.End.Rest.{RestView, IsInOrder};

    ghost Value = { RestView };

    ghost view = { λ r. record {
      queue = r.queue;
      sources = r.sources.items;
      held = option_to_list r.current ++ option_to_list r.front;
      left = option_to_list r.current_out ++ option_to_list r.front_out ++ r.queue.handed;
    } };

    ghost invariant = { λ r. IsInOrder r.current r.front r.current_out r.front_out r.queue.handed };
}

impl Rest {
    /// The rest of a thread, of which nothing was handed out yet.
    pub(crate) fn new(
        queue: OwnQueue,
        sources: Vec<Source>,
        current: Option<Waiting>,
        front: Option<Waiting>,
    ) -> Rest
        ensures rest { result ≡ record {
          queue = queue;
          sources = sources.items;
          held = option_to_list current ++ option_to_list front;
          left = [];
        } }
        ensures none_handed { result.queue.handed ≡ [] }
    {
        Rest {
            queue: queue.finish(),
            sources,
            current,
            front,
            current_out: None,
            front_out: None,
        }
    }

    /// The next request that is handed out: the current one, the front, then one from the queue.
    pub(crate) fn hand_out(&mut self) -> Option<Waiting>
        ensures handed { MatchOption result
            ((self.new ≡ self.old) × (self.old.held ≡ []))
            (λ waiting. HandsOut waiting self.old self.new) }
        ensures came { IfSome result (λ _. self.old.queue.shares ≡ queue_shares → self.old.held ≡ []
            → TookWhatCame self.new.queue.pushed self.new.queue.had self.new.queue.handed) }
        ensures none { MatchOption result
            (self.old.queue.shares ≡ queue_shares →
            AllTaken self.old.queue.pushed self.old.queue.had self.old.queue.handed)
            (λ _. Unit {0}) }
    {
        if let Some(current) = self.current.take() {
            self.current_out = Some(current);
            return Some(current);
        }
        if let Some(front) = self.front.take() {
            self.front_out = Some(front);
            return Some(front);
        }
        self.queue.hand_out()
    }

    /// Gives up the last of the thieves.
    pub(crate) fn give_back(&mut self) -> Option<Source>
        ensures { MatchOption result
            ((self.new ≡ self.old) × (self.old.sources ≡ []))
            (λ source. (self.new ≡ record self.old { sources = self.new.sources })
            × (self.old.sources ≡ self.new.sources ++ source ∷ [])) }
    {
        self.sources.pop()
    }

    /// Takes a share of its queue back, with what its thief stole.
    pub(crate) fn absorb(&mut self, thief: Thief)
        requires { thief.queue ≡ self.old.queue.queue }
        ensures { self.new ≡ record self.old {
          queue = record self.old.queue {
            shares = self.old.queue.shares + 1;
            had = self.old.queue.had ++ thief.had;
          };
        } }
    {
        self.queue.absorb(thief);
    }
}
