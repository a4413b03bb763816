//! Laws of lockstep runs, in which passes and turns come round by round: a guarantee is given within one
//! pass, and nothing is asked of the threads.
//!
//! That passes and turns see one another round by round is a definition (`IsInStep`), and no clause of
//! `lockstep`: it is tested. Each law is the contract of a function that does nothing, its statement a
//! definition in specs/; to cite a law, call its function.
#![tactic(auto)]

mod laws;

pub use laws::{
    guarantees_are_given_in_lockstep, late_requests_are_helped_in_lockstep,
    left_cores_are_freed_in_lockstep, rings_have_room_in_lockstep,
};
