//! When the requests of a run came, and which of them are counted.
//!
//! A request may come before the turn at which its thread gets it, where other requests have taken
//! the turns between. Its times count from when it came.
#![tactic(auto)]

mod asked;
mod came;
mod counted;
mod window;

pub use asked::{
    CameFile, CountAsked, CountFault, CountedRequests, comings_asked, counted_requests, is_asked,
};
pub use came::{Came, clock_of, each_own};
pub use counted::{Counted, counted_as_given};
pub use window::{Window, is_within};
