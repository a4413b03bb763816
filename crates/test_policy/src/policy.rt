//! The policy: worked passes that begin in a state, made histories, and inputs that are made look by
//! look.

mod beside;
mod inputs;
mod states;
