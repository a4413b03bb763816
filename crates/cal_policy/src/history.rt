//! The plain types of a history: looks, inputs, actions, entries.

pub mod action;
pub mod action_list;
pub mod core_class;
pub mod entry;
pub mod input;
pub mod look;
pub mod sending;
