//! The log: frames in the segments that a root names, those of the base before those of the tail. Every crash image
//! carries the frames that were appended, with the one in flight or without.
//! It uses `cg_frame` for frames in one segment, and `cg_root` for the root.
#![tactic(auto)]

mod cursor;
mod fault;
mod frame_append;
mod free;
mod fresh;
mod fused_log;
mod laws;
mod log;
mod log_root;
mod new_log;
mod numbers;
mod opening;
mod roll;
mod scan;
mod sealed_read;
mod segment_layout;
mod switch;

pub use cursor::Cursor;
pub use fault::LogFault;
pub use laws::log_laws;
pub use log::Log;
pub use new_log::format;
pub use numbers::{COMMAND_NUMBER_MAX, log_numbers};
pub use opening::Opening;
