//! Passes that take looks one by one.

ghost use Rattle.std.specs.Prelude.{◌≡◌, ◌≤◌, length};
ghost use Rattle.cal_machine.specs.TableTasks.{threads_of_table};
ghost use Rattle.caladan_c.specs.OneByOne.{input_given_each, AreSaid};
ghost use Rattle.caladan_c.specs.Passing.{AfterOwn, MadePass};

use super::Scheduler;
use crate::handed_in::HandedIn;
use crate::walk::{Basis, take_each};
use cal_guard::{each_policy_is_permitted, passes_are_short, permitted_settled_is_no_news};
use cal_policy::laws::open_pass_fits;

impl Scheduler {
    /// Makes the next pass, each look by itself: a look that is unfit, ahead or foreign is taken as
    /// a busy one, and what is told of it says why. Its actions are then in `made`. It takes no
    /// memory.
    pub fn pass_each(&mut self, given: HandedIn<'_>, judged: &mut [u8])
        requires count { length given.looks.now ≡ threads_of_table self.old.table }
        requires room { threads_of_table self.old.table ≤ length judged.old }
        ensures passed { AfterOwn self.old.table self.old.book (λ h.
            MadePass self.old h (input_given_each self.old.table h given.entry) self.new) }
        ensures said { AfterOwn self.old.table self.old.book (λ h.
            AreSaid self.old.table.cores h given.entry.looks.now judged.new) }
    {
        self.config.limits();
        each_policy_is_permitted();
        permitted_settled_is_no_news();
        open_pass_fits();
        passes_are_short();
        take_each(
            &mut self.looks,
            Basis {
                config: &self.config,
                board: self.book.board(),
            },
            given.looks,
            judged,
        );
        self.made.clear();
        self.book.pass(
            &self.config,
            given.now,
            given.bandwidth,
            &self.looks,
            &mut self.made,
        );
    }
}
