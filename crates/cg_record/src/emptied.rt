//! The command `Emptied`.
use crate::completed_generation::CompletedGeneration;
use cg_names::{GroupId, Moment, ProtocolName};

/// The group has no members in this generation.
#[derive(Debug, Drop)]
pub struct Emptied {
    pub group: GroupId,
    pub generation: CompletedGeneration,
    /// Protocol type of the group.
    pub kind: ProtocolName,
    /// When its last member left; `None` if that is unknown.
    pub moment: Option<Moment>,
}
