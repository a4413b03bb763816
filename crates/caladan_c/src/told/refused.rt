//! Where a guard stopped a pass, and why, as C is told.

ghost use Rattle.std.specs.Prelude.{◌≡◌};
ghost use Rattle.caladan_c.specs.GuardView.{why_number, why_names, told_refused_of};

use cal_guard::{Refused, Why};

/// The first action that is not permitted, and why.
#[repr(C)]
#[derive(Clone, Copy)]
pub struct ToldRefused {
    /// The action's number among those that were given, from 0 on; their count, where each is
    /// permitted and the pass may not end after them.
    pub place: usize,
    /// Why, 1 to 11, in the order of the guard's reasons.
    pub why: u8,
    /// Of 10 the core, of 11 the task; else 0.
    pub names: u8,
}

/// The number of a reason.
fn tell_why(why: Why) -> u8
    ensures { result ≡ why_number why }
{
    match why {
        Why::TooMany => 1,
        Why::DoesNotFit => 2,
        Why::NotLeft => 3,
        Why::Banned => 4,
        Why::AtLimit => 5,
        Why::AtCap => 6,
        Why::AtGuarantee => 7,
        Why::NoRoom => 8,
        Why::SecondCommand => 9,
        Why::BannedHeld { .. } => 10,
        Why::OverCap { .. } => 11,
    }
}

/// The core or task that a reason names.
fn tell_named(why: Why) -> u8
    ensures { result ≡ why_names why }
{
    match why {
        Why::BannedHeld { core } => core,
        Why::OverCap { task } => task,
        Why::TooMany
        | Why::DoesNotFit
        | Why::NotLeft
        | Why::Banned
        | Why::AtLimit
        | Why::AtCap
        | Why::AtGuarantee
        | Why::NoRoom
        | Why::SecondCommand => 0,
    }
}

/// The place and the reason, in numbers.
pub fn tell_refused(refused: Refused) -> ToldRefused
    ensures { result ≡ told_refused_of refused }
{
    ToldRefused {
        place: refused.place,
        why: tell_why(refused.why),
        names: tell_named(refused.why),
    }
}
