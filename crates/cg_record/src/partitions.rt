//! Lists of partitions.
use crate::distinct::Distinct;
use crate::entries::ENTRIES_MAX;
use crate::topic_partition::TopicPartition;

/// 1 to `ENTRIES_MAX` partitions, all different, in their order.
pub type Partitions = Distinct<TopicPartition, 1, ENTRIES_MAX>;
