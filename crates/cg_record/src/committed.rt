//! The command `Committed`.
use crate::entries::Entries;
use cg_names::{GroupId, Moment};

/// The group commits these offsets (OffsetCommit).
#[derive(Debug, Drop)]
pub struct Committed {
    pub group: GroupId,
    /// When the offsets were committed; `None` if that is unknown.
    pub moment: Option<Moment>,
    pub entries: Entries,
}
