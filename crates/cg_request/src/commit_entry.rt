//! One entry of a COMMIT.
use crate::listed::Listed;
use cg_record::{Offset, TopicPartition};

/// One partition of a COMMIT (OffsetCommit request). A line may carry longer metadata than `METADATA_BYTES_MAX`; the
/// machine refuses such a commit with 12.
#[derive(Debug, Drop)]
pub struct CommitEntry {
    pub key: TopicPartition,
    pub offset: Offset,
    pub metadata: Listed<u8>,
}
