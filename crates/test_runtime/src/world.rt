//! What no clause says: the worked rows of worlds, each refusal once, that a legal list is gone
//! through where there is memory.

mod long_lists;
mod refusals;

use cal_policy::{Action, ActionList, Input, PassEntry, Record, Rooms, Seen, SeenList};
use cal_world::{Event, Illegal, World};
use std::alloc::{AllocError, Global};

/// A record without requests, of a thread off every core.
const IDLE: Record = Record::ZERO;

/// Of a thread off every core, with one request that came at 100.
const WAITING: Record = Record {
    queued: 1,
    oldest: 100,
    stamp: 100,
    ..IDLE
};

/// The whole look at that record, at place 1.
const SEEN: Seen = Seen::Whole {
    number: 1,
    rec: WAITING,
};

const GRANT: Action = Action::Grant {
    core: 0,
    thread: 0,
    class: 3,
};

/// The pass at 111 on that look, with room in the ring, and these actions.
fn decide(alloc: Global, actions: &[Action]) -> Result<Event, AllocError> {
    Ok(Event::Decide(PassEntry {
        input: Input {
            now: 111,
            bandwidth: 0,
            seen: SeenList::new([SEEN].to_vec(alloc)?),
            rooms: Rooms::new([true].to_vec(alloc)?),
        },
        actions: ActionList::new(actions.to_vec(alloc)?),
    }))
}
