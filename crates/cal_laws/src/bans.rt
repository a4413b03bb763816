//! Banned cores, and what each ban stands for.
//!
//! At every point of a legal history. What cal_guard has by the same name is of permitted ones.

ghost use Rattle.cal_laws.specs.Bans.{NoBannedIsGranted, BansAreDue};
ghost use Rattle.cal_laws.specs.Bans.{BannedAreEmptyAfterPasses, BannedAreEmptiedAtOnce};
ghost use Rattle.cal_laws.specs.Bans.{BansEndUnshown, BansAreShownAfterPasses};
ghost use Rattle.cal_laws.specs.DueBans.{BansEndInEachPass, NoBanIsLeftDue};
ghost use Rattle.cal_laws.specs.DueBans.{LongRequestsHaveBannedSiblings};

use cal_policy::laws::{action_is_one_more, chosen_is_of_least_class, legal_is_sound};

/// No core is granted while it is banned. (After Caladan's controller of hyperthread siblings.)
pub fn no_banned_is_granted()
    ensures { NoBannedIsGranted }
{
    legal_is_sound();
    chosen_is_of_least_class();
}

/// Each ban is due at its place: a thread of a latency-critical task holds the sibling, its kept
/// record shows it there at a request begun longer ago, in clock ticks, than its task allows,
/// neither core is banned, and the core is free, being left, or held with room by a task above its
/// guarantee. (After Caladan's controller of hyperthread siblings; the exact rule is Doranjei's.)
pub fn bans_are_due()
    ensures { BansAreDue }
{
    legal_is_sound();
}

/// Each pass comes to the end of its third part, where it has made its bans, and there none is left
/// due. Later in the pass one may be due again: a grant may put a task above its guarantee.
pub fn no_ban_is_left_due()
    ensures end { BansEndInEachPass }
    ensures none { NoBanIsLeftDue }
{
    action_is_one_more();
}

/// Where a pass has made its bans, a core is banned if a request of a latency-critical task is seen
/// to run too long on its sibling, which the request's thread holds, and the core is free, being
/// left, or held with room by a task above its guarantee. A neighbour within its guarantee, or whose
/// ring is full, stays.
pub fn long_requests_have_banned_siblings()
    ensures { LongRequestsHaveBannedSiblings }
{
    no_ban_is_left_due();
    banned_are_emptied_at_once();
}

/// After each pass no banned core is held.
pub fn banned_are_empty_after_passes()
    ensures { BannedAreEmptyAfterPasses }
{
    action_is_one_more();
    chosen_is_of_least_class();
}

/// Inside a pass a banned core is held only between its ban and its revocation for that ban, which
/// is the next action.
pub fn banned_are_emptied_at_once()
    ensures { BannedAreEmptiedAtOnce }
{
    action_is_one_more();
    chosen_is_of_least_class();
}

/// A ban ends only where the kept record of its thread no longer shows the sibling as its core and
/// the request for which the core is banned.
pub fn bans_end_unshown()
    ensures { BansEndUnshown }
{
    legal_is_sound();
}

/// At the end of each pass the thread of each ban still shows, in its kept record, the sibling as
/// its core and the request for which the core is banned.
pub fn bans_are_shown_after_passes()
    ensures { BansAreShownAfterPasses }
{
    action_is_one_more();
    chosen_is_of_least_class();
}
