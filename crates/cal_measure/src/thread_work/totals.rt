//! What the turns of a kernel thread came to.

ghost use Rattle.std.specs.Prelude.{◌≡◌, ◌≤◌, ◌+◌, ◌<◌, ◌^◌, ◌++◌, ℕ, List, length, sum};
ghost use Rattle.cal_measure.specs.Turns.{one_of};

use crate::services::Service;
use crate::work::TaskWork;

/// What the turns of a kernel thread came to.
#[derive(Drop)]
pub struct ThreadTotals {
    /// The requests that it served, in order.
    pub services: Vec<Service>,
    /// What it did in its turns.
    pub work: TaskWork,
}

/// How many there are, with one more if there is one.
pub(crate) fn counted(count: usize, one: Option<u64>) -> usize
    ensures { (all : List ℕ) → length all + 1 < 2 ^ 64 → count ≡ length all →
        result ≡ length (all ++ one_of one) }
{
    match one {
        None => count,
        Some(_) => count.saturating_add(1),
    }
}

/// How long these times are together, with one more if there is one.
pub(crate) fn added(together: u128, time: Option<u64>) -> u128
    ensures sum { (times : List ℕ) → together ≡ sum times → together + 2 ^ 64 < 2 ^ 128 →
        result ≡ sum (times ++ one_of time) }
    ensures few { result ≤ together + 2 ^ 64 }
{
    match time {
        None => together,
        Some(ticks) => together.saturating_add(ticks as u128),
    }
}
