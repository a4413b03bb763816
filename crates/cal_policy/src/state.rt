//! The state that a history leaves, and its tests, for a crate that judges the actions of others by
//! it, or tells what it is. Whoever only wants this policy's passes needs none of this.

pub use crate::board::Board;
pub use crate::board::core_sets::next_core;
pub use crate::board::cores::{is_banned, is_held};
pub use crate::board::counts::{booked_by, cap_of, held_by, holds_for, is_over};
pub use crate::board::holders::{Holder, Placement, core_changed_by};
pub use crate::board::replay::{board_of, replay};
pub use crate::board::survey::{Survey, survey_of};
pub use crate::history::sending::command_for;
pub use crate::judgement::orderly::{is_fit, replay_fitting};
pub use crate::pass::delays::record_delay;
pub use crate::pass::frees::is_left;
pub use crate::pass::terms::Terms;
