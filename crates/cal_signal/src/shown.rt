//! What a thread showed of itself, and what it may show next.
ghost use Rattle.std.specs.Prelude.{◌≡◌, ◌↔◌, IsTrue};
ghost use Rattle.cal_signal.specs.Shown.{IsShownAfter};
ghost use Rattle.cal_signal.specs.Tests.{is_shown_after};

use crate::record::{Record, later};

/// A record and its place on the page of its thread.
#[derive(Clone, Copy, Debug, PartialEq, Eq)]
pub struct Shown {
    /// The place, from 0.
    pub number: u64,
    /// The record.
    pub rec: Record,
}

impl Shown {
    /// What a thread has shown before any look found a record: place 0 and the zero record.
    pub const NOTHING: Shown = Shown {
        number: 0,
        rec: Record::ZERO,
    };
}

/// Whether a thread that showed `last` may show `next` later on: its place is not lower, the same
/// place has the same record, and a higher place a later one.
pub fn may_follow(last: &Shown, next: &Shown) -> bool
    ensures rule { IsTrue result ↔ IsShownAfter last.now next.now }
    ensures test { result ≡ is_shown_after last.now next.now }
{
    if next.number == last.number {
        next.rec == last.rec
    } else {
        last.number < next.number && later(&last.rec, &next.rec)
    }
}
