//! What is so of every permitted history, taken as a whole.

ghost use Rattle.cal_guard.specs.Histories.{PermittedIsSafe, PermittedIsSteady, PermittedIsOrderly};
ghost use Rattle.cal_guard.specs.Histories.{DoingNothingIsPermitted, PermittedGoesOn};

/// A permitted history is safe: at its place each action fits the state, which is steady, and frees
/// no core that was not left.
pub fn permitted_is_safe()
    ensures { PermittedIsSafe }
{}

/// After each number of its passes a permitted history is steady.
pub fn permitted_is_steady()
    ensures { PermittedIsSteady }
{}

/// A permitted history is orderly: so what asks for an orderly history may be called on it.
pub fn permitted_is_orderly()
    ensures { PermittedIsOrderly }
{}

/// A pass that does nothing is permitted, whatever its input: so a guard always has something to
/// let through.
pub fn doing_nothing_is_permitted()
    ensures { DoingNothingIsPermitted }
{}

/// A permitted history followed by a permitted pass is permitted: so a guard that asks of each pass
/// asks enough.
pub fn permitted_goes_on()
    ensures { PermittedGoesOn }
{}
