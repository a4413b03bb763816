//! A thread that is gone, after passes whose actions somebody else chose.

ghost use Rattle.cal_guard.specs.Gone.{PermittedGoneIsKept, GoneMayBeFreed};

use crate::histories::permitted_is_orderly;
use crate::laws::permitted_is_safe_between;
use cal_policy::laws::action_is_one_more;

/// After a permitted history the look at the page of a thread that is gone is taken as it is, and
/// kept.
pub fn permitted_gone_is_kept()
    ensures { PermittedGoneIsKept }
{
    permitted_is_orderly();
}

/// On an input with that look a pass that frees a core which the thread holds or leaves, and does
/// nothing else, is permitted.
pub fn gone_may_be_freed()
    ensures { GoneMayBeFreed }
{
    permitted_is_safe_between();
    action_is_one_more();
}
