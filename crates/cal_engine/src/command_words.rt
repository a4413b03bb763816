//! The words of the program, and what its help says of them.

pub mod command_line;
pub mod help_texts;
pub mod words_given;
