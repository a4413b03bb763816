//! Files of signals: what the looks of each pass found.

pub mod file;
pub mod reading;

use cal_machine::Listed;
use cal_policy::FoundLook;

/// The looks of one pass, one for each thread, in thread order.
pub type SignalLooks = Listed<FoundLook>;

/// The signals of one pass: a clock and a bandwidth figure, as given, and a look at each thread.
#[derive(Drop)]
pub struct SignalPass {
    /// The clock, in ticks.
    pub now: u64,
    /// The bandwidth figure, in the unit of the table's limit.
    pub bandwidth: u64,
    /// One look for each thread.
    pub looks: SignalLooks,
}

/// The passes of a file, from pass 0 on.
pub type SignalPasses = Listed<SignalPass>;

/// What a file of signals holds.
#[derive(Drop)]
pub struct Signals {
    /// The passes, from pass 0 on.
    pub passes: SignalPasses,
}
