//! A committed offset.
use crate::distinct::Keyed;
use crate::metadata::Metadata;
use crate::offset::Offset;
use crate::topic_partition::TopicPartition;

/// A committed offset of one partition of one topic.
#[derive(Debug, Drop)]
pub struct Entry {
    pub key: TopicPartition,
    pub offset: Offset,
    pub metadata: Metadata,
}

impl Keyed for Entry {
    ghost use Rattle.cg_record.specs.Keys.{have_one_key};

    ghost shares = { have_one_key };

    fn shares_key(&self, other: &Self) -> bool {
        self.key.shares_key(&other.key)
    }
}
