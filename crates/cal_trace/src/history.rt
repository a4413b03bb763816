//! Files of histories: their action rows, how they are read, and their text.

pub mod action_rows;
pub mod file;
pub mod reading;
pub mod row_text;
pub mod text;
