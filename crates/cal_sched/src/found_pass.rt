//! What a pass was made of, which is kept for contracts alone.

use cal_machine::Past;
use cal_policy::FoundLook;

/// What a pass was made of.
#[derive(Drop)]
pub(crate) struct FoundPass {
    /// The clock, in ticks.
    pub clock: u64,
    /// The bandwidth figure, in the unit of the table's limit.
    pub bandwidth: u64,
    /// What was found of each thread, thread 0 first.
    pub found: Past<FoundLook>,
}
