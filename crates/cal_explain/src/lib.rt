//! A pass explained, as text: its turns in their order, how things stood at each, and what the
//! policy made of it; and where a recorded pass is not the policy's.
//!
//! What is told are the answers of `cal_policy::explain`, whose contracts are the definitions of
//! the policy, at the turns of the pass. How they are put into words is only tested.
#![tactic(auto)]

mod bandwidth;
mod bans;
mod candidates;
mod claims;
mod cores;
mod difference;
mod explaining;
mod fault;
mod grants;
mod reached;
mod recorded;
mod scope;
mod telling;

pub use fault::ExplainFault;
pub use recorded::{Ended, Explained, Explainer};
pub use scope::Scope;
