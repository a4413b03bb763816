//! What the words of the program ask for: an input checked, explained or measured, a history or
//! arrivals made, arrivals moved.

pub mod arriving;
pub mod checking;
pub mod comings;
pub mod counting;
pub mod explaining;
pub mod input;
pub mod measuring;
pub mod moving;
pub mod naming;
pub mod pacing;
pub mod recording;
pub mod replaying;
pub mod running;
pub mod telling;
