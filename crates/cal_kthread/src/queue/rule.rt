//! The rule of a queue, and the kinds of step on it.

use crate::queue::knowledge::Knowledge;
use crate::queue::waiting::Waiting;
use crossbeam_deque::protocol::{Join, Outcome, Protocol, Split};

/// What was pushed is what was taken and what the queue holds.
pub struct Balance;

impl Protocol<Waiting, Knowledge> for Balance {
    ghost use Rattle.cal_kthread.specs.Queue.Rule.{queue_shares, Balanced, knows};
    ghost use Rattle.std.specs.Prelude.{[]};

    ghost holds = { Balanced };

    ghost first = { knows queue_shares [] [] [] };

    ghost guest = { knows 0 [] [] [] };
}

/// One share goes to a thief, and comes back with what the thief took.
pub struct OneShare;

impl Split<Knowledge> for OneShare {
    ghost use Rattle.cal_kthread.specs.Queue.Rule.{knows};
    ghost use Rattle.std.specs.Prelude.{[], ◌-◌};

    ghost left = { λ v. knows (v.shares - 1) v.pushed v.had v.handed };

    ghost right = { λ v. knows 1 [] [] [] };
}

impl Join<Knowledge> for OneShare {
    ghost use Rattle.cal_kthread.specs.Queue.Rule.{knows};
    ghost use Rattle.std.specs.Prelude.{[], ◌+◌, ◌++◌};

    ghost both = { λ v w. knows (v.shares + w.shares) v.pushed (v.had ++ w.had) v.handed };

    ghost spent = { knows 0 [] [] [] };
}

/// The owner's push.
pub struct Pushing;

impl Outcome<Waiting, Knowledge> for Pushing {
    ghost use Rattle.cal_kthread.specs.Queue.Rule.{knows};
    ghost use Rattle.std.specs.Prelude.{◌≡◌, ◌++◌};

    ghost then = { λ v xs w. w ≡ knows v.shares (v.pushed ++ xs) v.had v.handed };
}

/// The owner's pop, or a thief's steal.
pub struct Taking;

impl Outcome<Waiting, Knowledge> for Taking {
    ghost use Rattle.cal_kthread.specs.Queue.Rule.{knows};
    ghost use Rattle.std.specs.Prelude.{◌≡◌, ◌++◌};

    ghost then = { λ v xs w. w ≡ knows v.shares v.pushed (v.had ++ xs) v.handed };
}

/// The owner's pop at the end of the run. With all shares, what is found had been pushed, and was
/// neither taken nor handed out before; and where nothing is found, all that was pushed was taken
/// or handed out.
pub struct HandingOut;

impl Outcome<Waiting, Knowledge> for HandingOut {
    ghost use Rattle.cal_kthread.specs.Queue.Rule.{queue_shares, knows, AllTaken, TookWhatCame};
    ghost use Rattle.std.specs.Prelude.{◌≡◌, ◌++◌};

    ghost then = { λ v xs w. (w ≡ knows v.shares v.pushed v.had (v.handed ++ xs))
        × (v.shares ≡ queue_shares → TookWhatCame v.pushed v.had (v.handed ++ xs)) };

    ghost empty = { λ v. v.shares ≡ queue_shares → AllTaken v.pushed v.had v.handed };
}
