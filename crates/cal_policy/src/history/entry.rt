//! One pass of a history.

ghost use Rattle.std.specs.Prelude.{◌≡◌, IfOk};

use crate::history::action_list::ActionList;
use crate::history::input::{Input, Rooms};
use crate::history::look::SeenList;
use std::alloc::{AllocError, Global};

/// The most passes of a history that a scheduler keeps or a file has.
pub const MOST_PASSES: usize = 1_048_576;

/// One pass: what it was given and what it did. A history is a list of passes.
#[derive(Drop)]
pub struct PassEntry {
    /// What the pass was given.
    pub input: Input,
    /// What it did, in the order in which it did it.
    pub actions: ActionList,
}

impl PassEntry {
    /// An equal entry. Fails only when out of memory.
    pub fn copy(&self, alloc: Global) -> Result<PassEntry, AllocError>
        ensures { IfOk result (λ entry. entry ≡ self.now) }
    {
        let seen = Vec::from_slice(alloc, self.input.seen.as_slice())?;
        let rooms = Vec::from_slice(alloc, self.input.rooms.as_slice())?;
        let actions = Vec::from_slice(alloc, self.actions.as_slice())?;
        Ok(PassEntry {
            input: Input {
                now: self.input.now,
                bandwidth: self.input.bandwidth,
                seen: SeenList::new(seen),
                rooms: Rooms::new(rooms),
            },
            actions: ActionList::new(actions),
        })
    }
}
