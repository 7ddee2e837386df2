//! A root: which segments the log has.
use crate::{SegmentIds, Slot};

/// What a disk holds: the segments of the base and of the tail, in order. Each new root has an epoch of one more than
/// the one before it, and takes the other slot.
#[derive(Debug, Drop)]
pub struct Root {
    /// Where it is stored.
    pub slot: Slot,
    /// From 1 to `EPOCH_MAX`.
    pub epoch: u64,
    /// How many commands the base stands for, at most `BASE_NUMBER_MAX`.
    pub base_number: u64,
    /// The segments that a compaction wrote.
    pub base: SegmentIds,
    /// The segments that came after the base, at least one.
    pub tail: SegmentIds,
}
