//! One partition of one topic.
ghost use Rattle.std.specs.Prelude.{◌≡◌};
ghost use Rattle.cg_record.specs.Partitions.{partition_cmp};

use crate::distinct::Keyed;
use crate::partition::Partition;
use cg_names::Topic;
use std::alloc::AllocError;
use std::cmp::Ordering;

/// One partition of one topic.
#[derive(Debug, Drop)]
pub struct TopicPartition {
    pub topic: Topic,
    pub partition: Partition,
}

impl TopicPartition {
    /// Compares this partition with another one: by topic, then by number.
    pub fn compare(&self, other: &TopicPartition) -> Ordering
        ensures { result ≡ partition_cmp self.now other.now }
    {
        match self.topic.cmp(&other.topic) {
            Ordering::Equal => self.partition.get().cmp(&other.partition.get()),
            unequal => unequal,
        }
    }
}

impl Keyed for TopicPartition {
    ghost use Rattle.cg_record.specs.Partitions.{are_one};

    ghost shares = { are_one };

    fn shares_key(&self, other: &Self) -> bool {
        self.partition.get() == other.partition.get()
            && self.topic.as_bytes() == other.topic.as_bytes()
    }
}

impl Clone for TopicPartition {
    ghost is_clone = { λ partition copy. copy ≡ partition };

    fn clone(&self) -> Result<Self, AllocError> {
        let topic = self.topic.clone()?;
        Ok(TopicPartition {
            topic,
            partition: self.partition,
        })
    }
}
