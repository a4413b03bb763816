//! Where inputs come from and answers go to: files by name, and what the system says of them.

pub mod beside;
pub mod failure;
pub mod sources;
