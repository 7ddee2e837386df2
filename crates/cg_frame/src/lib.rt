//! Frames in segments of sectors: a frame is a payload behind a gate, and it counts once its gate stands open.
//! An append or a crash during it leaves the frames before it, with the new one or without.
//! It stands on `cg_disk`, and on `cg_gate` for the order of its writes.
#![tactic(auto)]

mod buffer;
mod fault;
mod frame_reader;
mod frame_writer;
mod segment;
mod segment_reader;
mod staged;
#[cfg(test)]
mod tests;

pub use fault::{FrameFault, ScanFault};
pub use frame_reader::scan;
pub use frame_writer::{append, close_gate};
pub use segment::{
    Frame, LARGEST_PAYLOAD_BYTES, SECTORS_BOUND, SEGMENT_SECTORS, Segment, fits, frame_numbers,
};
pub use segment_reader::{PIECE_SECTORS, SegmentReader};
pub use staged::{StagedFrame, append_staged};
