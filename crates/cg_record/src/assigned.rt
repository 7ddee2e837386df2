//! The command `Assigned`.
use crate::completed_generation::CompletedGeneration;
use crate::roster::Roster;
use cg_names::{GroupId, ProtocolName};

/// The members of the group have their assignments in this generation (SyncGroup).
#[derive(Debug, Drop)]
pub struct Assigned {
    pub group: GroupId,
    pub generation: CompletedGeneration,
    /// Protocol type of the group.
    pub kind: ProtocolName,
    pub roster: Roster,
}
