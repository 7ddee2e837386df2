//! The command `Expired`.
use crate::partitions::Partitions;
use cg_names::GroupId;

/// The offsets of these partitions are removed, because their retention time is over (KIP-211).
#[derive(Debug, Drop)]
pub struct Expired {
    pub group: GroupId,
    pub partitions: Partitions,
}
