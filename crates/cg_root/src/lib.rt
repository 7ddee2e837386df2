//! Roots in two slots: a root names the segments of a disk, and the one with the greatest epoch behind an open gate
//! counts. A new root stopped at any moment leaves the old one or itself.
//! It stands on `cg_disk`, and on `cg_gate` for the layout and the order of its writes.
#![tactic(auto)]

mod fault;
mod laws;
mod root;
mod root_decoder;
mod root_encoder;
mod root_layout;
mod root_reader;
mod root_writer;
mod sector_builder;
mod segment_id;
mod segment_ids;
mod slot;
mod slot_state;
#[cfg(test)]
mod tests;

pub use fault::RootFault;
pub use laws::root_laws;
pub use root::Root;
pub use root_layout::{BASE_NUMBER_MAX, EPOCH_MAX, VERSION, root_numbers};
pub use root_reader::read_root;
pub use root_writer::{close_other, publish};
pub use segment_id::SegmentId;
pub use segment_ids::SegmentIds;
pub use slot::Slot;
