//! Kernel threads that serve requests, steal them from one another, and publish what they do: of each
//! id as many requests arrived as were served or are left at the end.
//!
//! A kernel thread has one end of a page, on which it publishes, the taking end of a ring, from
//! which it takes the scheduler's commands, a queue of its own, and a thief's end of the queue of
//! each other thread of its task. Its life is a list of turns. Its journal records what it did. A
//! `BareThread` makes the same turns, hands out what each adds to its journal, and keeps none of it.
//!
//! That threads of a task steal from one another, publish signals and give up a core where they
//! find no work is Caladan's. The steps of a turn, the journal and the account at the end are
//! Doranjei's.
//!
//! Not promised: that a request is ever served, by whom, or in which order; that a steal wins.
#![tactic(auto)]

mod bare_thread;
mod end;
mod fault;
mod journal;
mod kernel_thread;
pub mod laws;
mod queue;
mod team;
mod turn;

pub use bare_thread::BareThread;
pub use cal_machine::Request;
pub use end::ending::end_all;
pub use end::handing_out::hand_out_all;
pub use end::kernel_end::{BareThreadEnd, KernelEnd, ThreadEnd};
pub use end::request_list::RequestList;
pub use end::rest::Rest;
pub use end::settling::settle;
pub use fault::TurnFault;
pub use journal::Journal;
pub use journal::entry::Entry;
pub use journal::kept::Kept;
pub use kernel_thread::{KernelThread, MOST_ENTRIES, TURN_ENTRIES};
pub use queue::waiting::Waiting;
pub use team::{BareTeam, Team, open_bare_threads, open_threads};
pub use turn::done::{Publication, Taken, Theft, Worked};
pub use turn::entries::TurnEntries;
