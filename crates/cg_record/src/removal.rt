//! The decoder that builds commands that remove offsets, in one pass over the bytes.
ghost use Rattle.std.specs.Prelude.{◌≡◌, [], length, IfOk};
ghost use Rattle.std.specs.List.{list_any, IsDistinct};
ghost use Rattle.cg_record.specs.Partitions.{are_one, topic_partition};
ghost use Rattle.cg_record.specs.Lawful.{IsKey};
ghost use Rattle.cg_record.specs.Reading.{Builds, partition_at, partitions_at, listed_partitions_at, removal_at};

use crate::commit::{Key, key_at};
use crate::counts::count_at;
use crate::fault::RecordFault;
use crate::fields::name_at;
use crate::format::Version;
use crate::partition::Partition;
use crate::partitions::Partitions;
use crate::topic_partition::TopicPartition;
use cg_names::{GroupId, NAME_BYTES_MAX, Name, Topic};
use std::alloc::{AllocError, Global};

// Returns whether one of the partitions is this one. Linear in the partitions.
fn is_among(front: &[TopicPartition], topic: &[u8], partition: u32) -> bool
    ensures { result ≡ list_any (λ other. are_one other (topic_partition topic.now partition)) front.now }
{
    front.iter().any(|p| p.partition.get() == partition && p.topic.as_bytes() == topic)
}

// The precondition makes `unwrap` safe.
fn partition_of(alloc: Global, key: Key<'_>) -> Result<TopicPartition, AllocError>
    requires { IsKey (topic_partition key.topic.now key.partition) }
    ensures { IfOk result (λ p. p ≡ topic_partition key.entry.topic.now key.entry.partition) }
{
    let partition = Partition::new(key.partition).unwrap();
    let topic = Topic::from_lawful(alloc, key.topic)?;
    Ok(TopicPartition { topic, partition })
}

// Decodes the next partition. Reports `Repeated` if it is one of `front`.
#[tactic(auto, unfolding(crate::specs::Reading::partition_at))]
fn partition_at<'a>(
    alloc: Global,
    front: &[TopicPartition],
    bytes: &'a [u8],
) -> Result<(TopicPartition, &'a [u8]), RecordFault>
    ensures { Builds (λ x. (x.0, x.1.now)) result (partition_at front.now bytes.now) }
{
    let (key, rest) = key_at(bytes)?;
    if is_among(front, key.topic, key.partition) {
        return Err(RecordFault::Repeated);
    }
    let partition = partition_of(alloc, key)?;
    Ok((partition, rest))
}

// Decodes this many partitions.
#[tactic(auto, using(crate::proofs::Steps::many_on, crate::proofs::Steps::many_fail, crate::proofs::Steps::many_end))]
fn partitions_at(
    alloc: Global,
    count: u16,
    bytes: &[u8],
) -> Result<(Vec<TopicPartition>, &[u8]), RecordFault>
    ensures builds { Builds (λ x. (x.0.items, x.1.now)) result (partitions_at count [] bytes.now) }
    ensures len { IfOk result (λ x. length x.0.items ≡ count) }
    ensures distinct { IfOk result (λ x. IsDistinct are_one x.0.items) }
{
    let mut partitions = Vec::with_capacity(alloc, count as usize)?;
    let mut rest = bytes;
    for _ in 0..count {
        let (partition, after) = partition_at(alloc, partitions.as_slice(), rest)?;
        partitions.push(partition)?;
        rest = after;
    }
    Ok((partitions, rest))
}

// Decodes the number of partitions and the partitions.
#[tactic(auto, unfolding(crate::specs::Reading::listed_partitions_at))]
fn listed_partitions_at(
    alloc: Global,
    version: Version,
    bytes: &[u8],
) -> Result<(Partitions, &[u8]), RecordFault>
    ensures { Builds (λ x. (x.0, x.1.now)) result (listed_partitions_at version bytes.now) }
{
    let (count, rest) = count_at(version, bytes)?;
    let (partitions, rest) = partitions_at(alloc, count, rest)?;
    Ok((Partitions::from_lawful(partitions), rest))
}

/// Decodes the fields of an `Expired` or `Dropped`, after its kind byte.
#[tactic(auto, unfolding(crate::specs::Reading::removal_at))]
pub fn removal_at(
    alloc: Global,
    version: Version,
    bytes: &[u8],
) -> Result<((GroupId, Partitions), &[u8]), RecordFault>
    ensures { Builds (λ x. ((x.0.0, x.0.1), x.1.now)) result (removal_at version bytes.now) }
{
    let (group, rest) = name_at::<NAME_BYTES_MAX>(bytes)?;
    let group = Name::from_lawful(alloc, group)?;
    let (partitions, rest) = listed_partitions_at(alloc, version, rest)?;
    Ok(((group, partitions), rest))
}
