//! The requests that a thread had left.

use cal_machine::{Listed, Request};

/// The requests that a thread had left at its end, in the order in which it handed them out.
pub type RequestList = Listed<Request>;
