//! The decision core behind a C interface: a task table is opened, each pass is given what was
//! found of the threads and answers its actions, and the handle is closed. An audit takes recorded
//! passes and says whether all are legal. A guard lets passes through whose actions somebody else
//! chose.
//!
//! `include/caladan.h` says the same to C. A call answers 0, or why it did nothing, as a number.
#![tactic(auto)]

// what C calls
mod exports;

// what the handles keep, and where
mod audit;
mod handle;
mod scheduler;
mod table_guard;

// what C hands in, and what it is told
mod answer;
mod found;
mod gone;
mod handed_in;
mod input;
mod judging;
mod policy_numbers;
mod recorded;
mod told;
mod walk;
