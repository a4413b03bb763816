//! That each id that is given stands in one place, as a law.

ghost use Rattle.cal_run.specs.Outcome.GivenOnce.{GivenStandOnce};

use cal_kthread::laws::{never_is_nowhere, once_is_in_one_place, turns_add_up};

/// Where each thread made the turns that it was given, and the account of what arrived holds, an id
/// that was given stands in exactly one place: one thread served its request, once, or one thread
/// has it left. An id that was not given stands nowhere.
pub fn given_stand_once()
    ensures { GivenStandOnce }
{
    turns_add_up();
    once_is_in_one_place();
    never_is_nowhere();
}
