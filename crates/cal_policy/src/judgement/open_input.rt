//! What was found of the threads, and the lists of the input that a pass makes of it.

ghost use Rattle.std.specs.Prelude.{◌≡◌, ◌+◌, ◌<◌, ◌++◌, ◌∷◌, [], List, length, IfOk};
ghost use Rattle.cal_machine.specs.Table.{Table};
ghost use Rattle.cal_machine.specs.TableTasks.{threads_of_table};
ghost use Rattle.cal_policy.specs.declared.history.entry.PassEntry.{PassEntry};
ghost use Rattle.cal_policy.specs.declared.judgement.open_input.FoundLook.{FoundLook};
ghost use Rattle.cal_policy.specs.Board.{HasSizes};
ghost use Rattle.cal_policy.specs.State.{IsStateAfter};
ghost use Rattle.cal_policy.specs.Judgement.OpenInput.{judged_input, IsOfFound};

use crate::board::Board;
use crate::history::input::{Input, Rooms};
use crate::history::look::{Seen, SeenList};
use cal_machine::Config;
use cal_signal::Look;
use std::alloc::{AllocError, Global};
use std::marker::Model;

/// What was found of one thread: what the look at its page gave, and whether its command ring had
/// room.
#[derive(Clone, Copy, Debug, PartialEq, Eq)]
pub struct FoundLook {
    /// What the look at the thread's page gave.
    pub look: Look,
    /// Whether the thread's command ring had room.
    pub room: bool,
}

/// The lists of an input while they are filled, thread 0 first. Their memory is taken before the
/// first look of the pass, so that none is asked for after it.
#[derive(Drop)]
pub struct InputLists {
    threads: usize,
    seen: Vec<Seen>,
    rooms: Vec<bool>,
}

impl Model for InputLists {
    ghost use Rattle.std.specs.Prelude.{◌≡◌, ◌≤◌, length};
    ghost use Rattle.std.specs.Vec.{vec_capacity};
    ghost use Rattle.cal_policy.specs.Judgement.OpenInput.{OpenView};

    ghost Value = { OpenView };

    ghost view = { λ given. record {
      threads = given.threads;
      seen = given.seen.items;
      rooms = given.rooms.items;
    } };

    ghost invariant = { λ given.
        (length given.seen.items ≤ given.threads)
        × (length given.rooms.items ≡ length given.seen.items)
        × (given.threads ≤ vec_capacity given.seen) × (given.threads ≤ vec_capacity given.rooms) };
}

impl InputLists {
    /// Empty lists, with room for each thread of the table. Fails only when out of memory.
    pub fn reserved(alloc: Global, config: &Config) -> Result<InputLists, AllocError>
        ensures threads { IfOk result (λ given. given.threads ≡ threads_of_table config.now) }
        ensures empty { IfOk result (λ given. (given.seen ≡ []) × (given.rooms ≡ [])) }
    {
        let threads = config.threads();
        let seen = Vec::with_capacity(alloc, threads)?;
        let rooms = Vec::with_capacity(alloc, threads)?;
        Ok(InputLists {
            threads,
            seen,
            rooms,
        })
    }

    /// Puts the judged look of the next thread and its ring's room into the lists. It takes no
    /// memory.
    pub(crate) fn push(&mut self, seen: Seen, room: bool)
        requires { length self.old.seen < self.old.threads }
        ensures threads { self.new.threads ≡ self.old.threads }
        ensures seen { self.new.seen ≡ self.old.seen ++ seen ∷ [] }
        ensures rooms { self.new.rooms ≡ self.old.rooms ++ room ∷ [] }
    {
        self.seen.push_reserved(seen);
        self.rooms.push_reserved(room);
    }

    /// Puts what was found of the next thread into the lists, with the look as the state judges it.
    pub(crate) fn take(&mut self, config: &Config, board: &Board, found: FoundLook)
        requires table { self.old.threads ≡ threads_of_table config.now }
        requires next { length self.old.seen < self.old.threads }
        ensures threads { self.new.threads ≡ self.old.threads }
        ensures one { length self.new.seen ≡ length self.old.seen + 1 }
        ensures found { (h : List PassEntry) (looks : List FoundLook) → IsStateAfter board.now h →
            IsOfFound config.now h looks self.old →
            IsOfFound config.now h (looks ++ found ∷ []) self.new }
    {
        let seen = board.judge(config, self.seen.len(), found.look);
        self.push(seen, found.room);
    }

    /// The input of these looks at this clock and bandwidth figure. It takes no memory.
    pub(crate) fn finish(self, now: u64, bandwidth: u64) -> Input
        requires { length self.seen ≡ self.threads }
        ensures judged { (table : Table) (h : List PassEntry) (looks : List FoundLook) →
            IsOfFound table h looks self → result ≡ judged_input table h now bandwidth looks }
        ensures sizes { (table : Table) → self.threads ≡ threads_of_table table →
            HasSizes table result }
    {
        let InputLists { seen, rooms, .. } = self;
        Input {
            now,
            bandwidth,
            seen: SeenList::new(seen),
            rooms: Rooms::new(rooms),
        }
    }
}
