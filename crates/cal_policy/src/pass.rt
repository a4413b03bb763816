//! The parts of a pass, in their order, and how each makes its actions.

pub mod appending;
pub mod assured;
pub mod bandwidth;
pub mod bans;
pub mod choice;
pub mod core_choice;
pub mod coupled;
pub mod deciding;
pub mod delays;
pub mod frees;
pub mod grants;
pub mod plain;
pub mod terms;
pub mod thread_choice;
pub mod unbans;

ghost use Rattle.std.specs.Prelude.{◌≡◌, ◌<◌};
ghost use Rattle.cal_machine.specs.Table.{IsTable};
ghost use Rattle.cal_machine.specs.TableTasks.{threads_of_table};
ghost use Rattle.cal_policy.specs.Setting as rules;
ghost use Rattle.cal_policy.specs.Setting.{Begun};
ghost use Rattle.cal_policy.specs.Pass.AtHand.{setting_in};

use crate::pass::terms::Terms;
use cal_machine::Config;

/// A pass: the task table and the terms that it goes by, from its first action to its last. Its
/// methods say what is due, and its parts make it: each is given the state as it stands, and a part
/// the list too that its actions are appended to.
#[derive(Clone, Copy)]
pub struct Pass<'a> {
    pub config: &'a Config,
    pub terms: &'a Terms,
}

impl Pass<'_> {
    /// Whether the command ring of a thread has room.
    pub fn has_room(&self, thread: usize) -> bool
        requires table { IsTable self.now.config.now }
        requires thread { thread < threads_of_table self.now.config.now }
        ensures { (h : Begun) → result ≡ rules.has_room (setting_in self.now h) thread }
    {
        !self.terms.full.has(thread)
    }
}
