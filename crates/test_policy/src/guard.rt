//! What is permitted, and the guard.

mod refusals;
