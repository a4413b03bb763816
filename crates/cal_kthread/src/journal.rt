//! What a kernel thread did.

pub mod entry;
pub mod kept;

use crate::journal::entry::Entry;
use cal_machine::Listed;

/// What a kernel thread did, in order.
pub type Journal = Listed<Entry>;
