//! What kernel threads have left when their turns are over, and how it is handed out.

pub mod ending;
pub mod handing_out;
pub mod kernel_end;
pub mod request_list;
pub mod rest;
pub mod settling;
