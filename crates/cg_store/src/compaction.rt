//! A compaction: what it keeps from call to call.

use crate::draft::CommandsDraft;
use crate::snapshot_frames::SnapshotFrames;
use cg_fold::Durable;
use cg_log::Cursor;
use cg_record::Metadata;
use cg_root::SegmentId;

/// Cut of a compaction: its tail, and the number of the last command before it.
#[derive(Clone, Copy)]
pub(crate) struct Cut {
    /// The tail that was the last then, without a frame.
    pub(crate) id: SegmentId,
    /// The number of the last command before it.
    pub(crate) number: u64,
}

/// What a compaction keeps while it reads.
#[derive(Drop)]
pub(crate) struct Reading {
    pub(crate) cut: Cut,
    /// The position of the next frame.
    pub(crate) cursor: Cursor,
    /// The state after the frames so far.
    pub(crate) durable: Durable,
    /// Memory for the next payload.
    pub(crate) room: Vec<u8>,
    /// Metadata of replaced offsets: memory for the next ones.
    pub(crate) spent: Vec<Metadata>,
}

/// What a compaction keeps while it writes.
#[derive(Drop)]
pub(crate) struct Writing {
    pub(crate) cut: Cut,
    /// The commands that are left to write.
    pub(crate) frames: SnapshotFrames,
    /// The last frame: memory for the next.
    pub(crate) draft: CommandsDraft,
}

/// Phase of a compaction, with what that phase keeps.
#[derive(Drop)]
pub(crate) enum Compaction {
    Idle,
    Reading(Reading),
    Writing(Writing),
    Ready(Cut),
}
