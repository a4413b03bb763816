//! Lists of actions: one that a pass was, and one with room for all that a pass can be.

ghost use Rattle.std.specs.Prelude.{◌≡◌, ◌<◌, ◌≤◌, ◌++◌, ◌∷◌, [], length, true, false, IfOk};
ghost use Rattle.cal_policy.specs.declared.history.action_list.TheConstants.{MOST_ACTIONS};

use crate::history::action::Action;
use cal_machine::{Listed, MOST_CORES, MOST_PAIRS, MOST_TASKS};
use std::alloc::{AllocError, Global};
use std::marker::Model;

/// The most actions that a pass can have: a Free of each core, an Unban of each pair, a Ban of each
/// pair and as many revocations for them, two for bandwidth, and one for each task. A pass of
/// `Policy::Assured`, in which a task can act more than once, has fewer.
pub const MOST_ACTIONS: usize = MOST_CORES + MOST_PAIRS + 2 * MOST_PAIRS + 2 + MOST_TASKS;

/// The actions of a pass that was made, in the order in which it made them.
pub type ActionList = Listed<Action>;

/// A list of actions that has room for all that a pass can make, so that a pass takes no memory.
#[derive(Drop)]
pub struct Actions {
    items: Vec<Action>,
}

impl Model for Actions {
    ghost use Rattle.std.specs.Prelude.{List, ◌≤◌};
    ghost use Rattle.std.specs.Vec.{vec_capacity};
    ghost use Rattle.cal_policy.specs.declared.history.action.Action.{Action};
    ghost use Rattle.cal_policy.specs.declared.history.action_list.TheConstants.{MOST_ACTIONS};

    ghost Value = { List Action };

    ghost view = { λ list. list.items.items };

    ghost invariant = { λ list. MOST_ACTIONS ≤ vec_capacity list.items };
}

impl Actions {
    /// An empty list with room for `MOST_ACTIONS`. Fails only when out of memory.
    pub fn reserved(alloc: Global) -> Result<Actions, AllocError>
        ensures { IfOk result (λ actions. actions ≡ []) }
    {
        let items = Vec::with_capacity(alloc, MOST_ACTIONS)?;
        Ok(Actions { items })
    }

    /// Puts an action at the end, in room that is there.
    pub fn push(&mut self, action: Action)
        requires { length self.old < MOST_ACTIONS }
        ensures { self.new ≡ self.old ++ action ∷ [] }
    {
        self.items.push_reserved(action);
    }

    /// Whether it has as many actions as a pass can have.
    pub fn is_full(&self) -> bool
        ensures full { result ≡ true → MOST_ACTIONS ≤ length self.now }
        ensures room { result ≡ false → length self.now < MOST_ACTIONS }
    {
        self.items.len() >= MOST_ACTIONS
    }

    /// Empties the list and keeps its room, for the next pass.
    pub fn clear(&mut self)
        ensures { self.new ≡ [] }
    {
        self.items.clear();
    }

    /// The actions, in the order in which they were made.
    pub fn as_slice(&self) -> &[Action]
        ensures { result.now ≡ self.now }
    {
        self.items.as_slice()
    }

    /// The list itself, without the room that its actions do not need. It takes no memory and
    /// cannot fail: where the room cannot be given back it stays with the list.
    pub fn list(self) -> ActionList
        ensures { result ≡ self }
    {
        let Actions { mut items } = self;
        items.shrink_to_fit();
        ActionList::new(items)
    }

    /// A list of these actions that takes room for itself alone. Fails only when out of memory.
    pub fn to_list(&self, alloc: Global) -> Result<ActionList, AllocError>
        ensures { IfOk result (λ list. list ≡ self.now) }
    {
        let items = Vec::from_slice(alloc, self.items.as_slice())?;
        Ok(ActionList::new(items))
    }
}
