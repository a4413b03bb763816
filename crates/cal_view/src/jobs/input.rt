//! What a job is done on.

use crate::jobs::counting::CameText;
use crate::jobs::replaying::HistoryText;
use cal_came::CountAsked;
use cal_paced::Plan;
use cal_policy::Policy;
use cal_tables::{Labels, MeasuredInput};
use cal_why::RefusedInput;
use std::alloc::Global;

/// An input that was read to its end, by which policy its run is made, decided or audited, by which
/// plan, how its requests are counted, and what its tasks and clock ticks are called.
#[derive(Clone, Copy)]
pub struct JobInput<'a> {
    /// What a job takes memory from.
    pub alloc: Global,
    /// The input, as it is told of where it is refused.
    pub read: RefusedInput<'a>,
    /// The policy.
    pub policy: Policy,
    /// The plan of its run; without it that is in lockstep.
    pub plan: Option<Plan>,
    /// The history whose passes its run has, where one is named.
    pub replay: Option<HistoryText<'a>>,
    /// The file of when its requests came, where one is named.
    pub came: Option<CameText<'a>>,
    /// From when its requests count, and which of them are ranked.
    pub counting: CountAsked<'a>,
    /// What its tasks and clock ticks are called.
    pub labels: Labels<'a>,
}

impl<'a> JobInput<'a> {
    /// The bytes of the input.
    pub fn bytes(&self) -> &'a [u8] {
        self.read.input
    }

    /// The input, and how its run is made and counted.
    pub fn measured(&self) -> MeasuredInput<'a> {
        MeasuredInput {
            bytes: self.bytes(),
            policy: self.policy,
            plan: self.plan,
            counting: self.counting,
        }
    }
}
