//! The command `Deleted`.
use cg_names::GroupId;

/// The group and all its offsets are removed (DeleteGroups).
#[derive(Debug, Drop)]
pub struct Deleted {
    pub group: GroupId,
}
