//! The parts in which a pass of `Policy::Assured` differs, and what they ask of the state.

pub mod acted;
pub mod flight;
pub mod grants;
pub mod kept;
pub mod shortage;
pub mod taking;
pub mod turns;
