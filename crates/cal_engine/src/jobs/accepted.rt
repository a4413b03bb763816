//! An input of a run that was accepted.

use cal_machine::Config;
use cal_policy::Policy;
use cal_trace::Arrivals;

/// An input of a run that was accepted: its bytes, what stands in it, and what the run is to go by.
#[derive(Clone, Copy)]
pub(crate) struct AcceptedInput<'a> {
    /// Its bytes.
    pub input: &'a [u8],
    /// The task table.
    pub config: &'a Config,
    /// The arrivals, which fit the table.
    pub arrivals: &'a Arrivals,
    /// The policy of the run.
    pub policy: Policy,
}
