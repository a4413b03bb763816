//! Why a record is refused.
use thiserror::Error;

/// Why a page refuses a record, checked in this order. The page is unchanged.
/// `fault as u8` is its number, 1 to 3.
#[derive(Clone, Copy, Debug, PartialEq, Eq, Error)]
pub enum PublishFault {
    /// It is not later than the last record.
    #[error("the record is not later than the last one")]
    Backwards = 1,
    /// Its core number or its count of misses is too great.
    #[error("the record has not the right shape")]
    BadShape = 2,
    /// The last place, `LAST_PLACE`, is taken. It cannot occur in fewer publications.
    #[error("the page has no place left")]
    Exhausted = 3,
}
