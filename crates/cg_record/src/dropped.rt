//! The command `Dropped`.
use crate::partitions::Partitions;
use cg_names::GroupId;

/// The offsets of these partitions are removed on request (KIP-496, OffsetDelete).
#[derive(Debug, Drop)]
pub struct Dropped {
    pub group: GroupId,
    pub partitions: Partitions,
}
