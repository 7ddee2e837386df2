//! The store: appends batches of commands to a log, recovers the state that they make, and compacts the log while appends
//! go on. Every crash image has the number and the state of the appended commands, with or without the batch in flight.
//! It uses `cg_log` for the frames of a disk, and `cg_fold` for the state.
#![tactic(auto)]

mod batch;
mod batch_append;
mod commands;
mod compaction;
mod compaction_calls;
mod compaction_work;
mod draft;
mod fault;
mod fused_store;
mod laws;
mod new_store;
mod open_store;
mod phase;
mod receipt;
mod recovery;
mod snapshot_frames;
mod store;

pub use batch::Batch;
pub use cg_log::{COMMAND_NUMBER_MAX, LogFault};
pub use commands::Commands;
pub use draft::CommandsDraft;
pub use fault::{CompactFault, OpenFault, StoreFault};
pub use laws::{images_carry_commands, images_carry_one_pair};
pub use new_store::format;
pub use phase::{Phase, Progress};
pub use receipt::Receipt;
pub use store::Store;
