//! A watch beside the scheduler: rounds of looks at pages, which decide nothing.

ghost use Rattle.std.specs.Prelude.{◌≡◌, ◌<◌, ◌≤◌, ◌+◌, ◌↔◌, [], length, IsTrue};
ghost use Rattle.std.specs.Prelude.{IfOk, IfErr, MatchBool, Some};
ghost use Rattle.std.specs.Vec.{vec_capacity};
ghost use Rattle.cal_signal.specs.declared.look.Look.{Look};
ghost use Rattle.cal_sched.specs.Watching.{new_watch, IsRoundMore, HaveWatched};
ghost use Rattle.cal_sched.specs.Spares.{AreSpare};

use crate::looking::look_at_each;
use cal_signal::{Look, Observer, Round};
use std::alloc::{AllocError, Global};
use std::marker::Model;
use std::snapshot::Snapshot;

/// Rounds of looks at pages, at most as many as the watch was made for. It may be moved to a thread
/// of its own; no call of it waits, and only `new` takes memory.
///
/// A contract sees the observers as given and as they are, the rounds so far, and how many there
/// may be. Of each page the whole looks of the rounds are, in order, what its observer found.
#[derive(Drop)]
pub struct Watch {
    observers: Vec<Observer>,
    given: Snapshot<Vec<Observer>>,
    rounds: Vec<Round>,
    // an empty list with room for one look at each page, for each round that is still to come
    spare: Vec<Vec<Look>>,
}

impl Model for Watch {
    ghost use Rattle.std.specs.Prelude.{◌+◌, ◌≤◌, length};
    ghost use Rattle.std.specs.Vec.{vec_capacity};
    ghost use Rattle.cal_sched.specs.Watching.{WatchView, HaveWatched};
    ghost use Rattle.cal_sched.specs.Spares.{AreSpare};

    ghost Value = { WatchView };

    ghost view = { λ w. record {
      given = w.given.value.items;
      observers = w.observers.items;
      rounds = w.rounds.items;
      most = length w.rounds.items + length w.spare.items;
    } };

    ghost invariant = { λ w. HaveWatched w.given.value.items w.observers.items w.rounds.items
        × AreSpare (length w.observers.items) w.spare.items
        × (length w.rounds.items + length w.spare.items ≤ vec_capacity w.rounds) };
}

/// The observers of a watch for which memory was refused.
#[derive(Drop)]
pub struct NotWatched {
    /// The observers that were given.
    pub observers: Vec<Observer>,
}

/// Room for that many rounds: for the list of them, and for one look at each page in each.
fn make_room(
    alloc: Global,
    count: usize,
    pages: usize,
) -> Result<(Vec<Round>, Vec<Vec<Look>>), AllocError>
    ensures none { IfOk result (λ room. room.0.items ≡ []) }
    ensures list { IfOk result (λ room. count ≤ vec_capacity room.0) }
    ensures count { IfOk result (λ room. length room.1.items ≡ count) }
    ensures each { IfOk result (λ room. AreSpare pages room.1.items) }
{
    let rounds = Vec::with_capacity(alloc, count)?;
    let mut spare = Vec::with_capacity(alloc, count)?;
    for _ in 0..count {
        let looks = Vec::with_capacity(alloc, pages)?;
        spare.push_reserved(looks);
    }
    Ok((rounds, spare))
}

impl Watch {
    /// A watch of these pages, one observer for each, for that many rounds. Takes all the memory
    /// that the rounds will need. Fails only when out of memory, and then returns the observers.
    pub fn new(alloc: Global, observers: Vec<Observer>, rounds: u64) -> Result<Watch, NotWatched>
        ensures made { IfOk result (λ watch. watch ≡ new_watch observers.items rounds) }
        ensures handed_back { IfErr result (λ refused. refused.observers ≡ observers) }
    {
        match make_room(alloc, rounds as usize, observers.len()) {
            Ok((rounds, spare)) => {
                let given = Snapshot::of(&observers);
                Ok(Watch {
                    observers,
                    given,
                    rounds,
                    spare,
                })
            }
            Err(AllocError) => Err(NotWatched { observers }),
        }
    }

    /// Looks once at each page, in order, and notes what was found as the next round. False, and
    /// nothing is changed, where there are as many rounds as the watch was made for.
    pub fn round(&mut self) -> bool
        ensures exactly { IsTrue result ↔ length self.old.rounds < self.old.most }
        ensures round { MatchBool result (IsRoundMore self.old self.new) (self.new ≡ self.old) }
    {
        match self.spare.pop() {
            Some(mut looks) => {
                look_at_each(self.observers.as_mut_slice(), &mut looks);
                self.rounds.push_reserved(Round::new(looks));
                true
            }
            None => false,
        }
    }

    /// The rounds so far, each with what was found on each page, in order.
    pub fn rounds(&self) -> &[Round]
        ensures rounds { result.now ≡ self.now.rounds }
        ensures watched { HaveWatched self.now.given self.now.observers self.now.rounds }
    {
        self.rounds.as_slice()
    }

    /// The observers, in the order in which they were given, and the rounds. Takes no memory.
    pub fn end(self) -> (Vec<Observer>, Vec<Round>)
        ensures observers { result.0.items ≡ self.observers }
        ensures rounds { result.1.items ≡ self.rounds }
        ensures watched { HaveWatched self.given self.observers self.rounds }
    {
        let Watch {
            observers,
            rounds,
            ..
        } = self;
        (observers, rounds)
    }
}
