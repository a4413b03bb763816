//! How looks are judged, which inputs a pass may be given, and which histories are orderly.

pub mod board_looks;
pub mod judging;
pub mod look_fault;
pub mod look_laws;
pub mod one_by_one;
pub mod open_input;
pub mod open_pass;
pub mod orderly;
