//! The words of the program.

pub mod arrival_words;
pub mod command_line;
pub mod count_words;
pub mod gone_words;
pub mod help_texts;
pub mod log_words;
pub mod move_words;
pub mod plan_words;
pub mod policy_words;
pub mod replay_words;
