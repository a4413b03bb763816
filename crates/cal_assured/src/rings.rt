//! A thread that takes its commands in time never has a full ring.

ghost use Rattle.cal_assured.specs.Rings.{RingsHaveRoom};

use cal_guard::{each_policy_is_permitted, threads_are_sent_one_command};

/// A thread that has taken all that was sent to it before the last three passes has fewer than four
/// commands in its ring, which has four places.
pub fn rings_have_room()
    ensures { RingsHaveRoom }
{
    each_policy_is_permitted();
    threads_are_sent_one_command();
}
