//! A committed offset.
use cg_names::Moment;
use cg_record::{Metadata, Offset};

/// A committed offset, with its metadata and its moment.
#[derive(Debug, Drop)]
pub struct StoredOffset {
    pub offset: Offset,
    pub metadata: Metadata,
    /// When it was committed; `None` if that is unknown.
    pub moment: Option<Moment>,
}
