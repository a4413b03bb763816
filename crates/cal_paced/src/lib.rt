//! Runs with a pace and with interference, nearer to a machine than those of lockstep.
//!
//! In a paced run there are several passes to a turn, and threads slow one another: beside a sibling
//! at work, and where memory bears fewer misses than all would bring, a thread does only a part of a
//! turn's work. What it does not come to it makes up for in a later turn; until then its turns are
//! turns without work. The passes' bandwidth figures may be those that the threads show. All of it is
//! a function of a plan and of arrivals; by the plan that slows nobody, at one pass to a turn, it is
//! the run of lockstep.
//!
//! Not promised: that a thread that is slowed to nothing ever works. Left out: what a move costs,
//! caches, frequencies, the network.
#![tactic(auto)]

mod fault;
pub mod laws;
mod pacing;
mod plan;
mod planned;
mod rounds;
mod run;
mod shares;

pub use fault::PaceFault;
pub use pacing::paced_arrivals;
pub use plan::{Figure, Plan, WHOLE};
pub use planned::{have_misses, planned_arrivals};
pub use rounds::{Keeping, make_turns, show_figure};
pub use run::{paced_collected_by, paced_end_by};
