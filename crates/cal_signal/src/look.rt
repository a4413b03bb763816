//! What a look at a page finds.
ghost use Rattle.std.specs.Prelude.{◌≡◌, ◌↔◌, IsTrue};
ghost use Rattle.cal_signal.specs.Looks.{IsBusyPair};
ghost use Rattle.cal_signal.specs.Tests.{is_busy_pair};

use crate::record::Record;
use cal_machine::Listed;

/// What one look at a page found.
#[derive(Clone, Copy, Debug, PartialEq, Eq)]
pub enum Look {
    /// The whole record at place `number` of the page.
    Whole { number: u64, rec: Record },
    /// No record: the two versions that were loaded are a busy pair. Either `first` is odd, and
    /// `second` equals it, or `first` is even, and `second` is greater.
    Busy { first: u64, second: u64 },
}

/// One round of looks at several pages, in the order of the pages.
pub type Round = Listed<Look>;

/// Whether a busy look can have loaded these two versions: an odd one, given twice, or an even one
/// and then a greater.
pub fn is_busy_pair(first: u64, second: u64) -> bool
    ensures rule { IsTrue result ↔ IsBusyPair first second }
    ensures test { result ≡ is_busy_pair first second }
{
    if first % 2 == 1 {
        second == first
    } else {
        first < second
    }
}
