//! Fields of a commit at the start of the bytes, decoded without a copy.

ghost use Rattle.std.specs.Prelude.{◌≡◌, ◌≤◌, length, IfOk};
ghost use Rattle.cg_record.specs.declared.offset.TheConstants.{OFFSET_MAX};
ghost use Rattle.std.specs.List.{list_any};
ghost use Rattle.cg_record.specs.Keys.{is_of};
ghost use Rattle.cg_record.specs.Partitions.{topic_partition};
ghost use Rattle.cg_record.specs.Lawful.{IsKey};
ghost use Rattle.cg_record.specs.Reading.{Gives, key_at, kept_at};

use crate::entry::Entry;
use crate::fault::RecordFault;
use crate::fault::RecordFault::BadLength;
use crate::fields::{eight_at, four_at, name_at, text_at};
use crate::offset::OFFSET_MAX;
use crate::partition::PARTITION_MAX;
use cg_names::NAME_BYTES_MAX;

/// The topic and partition of an entry, borrowed from the bytes.
#[derive(Clone, Copy)]
pub struct Key<'a> {
    pub topic: &'a [u8],
    pub partition: u32,
}

/// The offset and metadata of an entry, borrowed from the bytes.
#[derive(Clone, Copy)]
pub struct Kept<'a> {
    pub offset: u64,
    pub metadata: &'a [u8],
}

/// Decodes the topic and partition of an entry.
#[tactic(auto, unfolding(crate::specs::Reading::key_at))]
pub fn key_at(bytes: &[u8]) -> Result<(Key<'_>, &[u8]), RecordFault>
    ensures gives { Gives (λ x. (topic_partition x.0.topic.now x.0.partition, x.1.now)) result (key_at bytes.now) }
    ensures key { IfOk result (λ x. IsKey (topic_partition x.0.topic.now x.0.partition)) }
{
    let (topic, rest) = name_at::<NAME_BYTES_MAX>(bytes)?;
    let (partition, rest) = four_at(rest)?;
    if partition > PARTITION_MAX {
        return Err(BadLength);
    }
    Ok((Key { topic, partition }, rest))
}

/// Decodes the offset and metadata of an entry, of at most `max` bytes.
#[tactic(auto, unfolding(crate::specs::Reading::kept_at))]
pub fn kept_at(max: usize, bytes: &[u8]) -> Result<(Kept<'_>, &[u8]), RecordFault>
    ensures gives { Gives (λ x. ((x.0.offset, x.0.metadata.now), x.1.now)) result (kept_at max bytes.now) }
    ensures offset { IfOk result (λ x. x.0.offset ≤ OFFSET_MAX) }
    ensures metadata { IfOk result (λ x. length x.0.metadata.now ≤ max) }
{
    let (offset, rest) = eight_at(bytes)?;
    if offset > OFFSET_MAX {
        return Err(BadLength);
    }
    let (metadata, rest) = text_at(max, rest)?;
    Ok((Kept { offset, metadata }, rest))
}

/// Returns whether one of the entries has this partition. Linear in the entries.
pub fn is_taken(front: &[Entry], topic: &[u8], partition: u32) -> bool
    ensures { result ≡ list_any (is_of (topic_partition topic.now partition)) front.now }
{
    front.iter().any(|e| e.key.partition.get() == partition && e.key.topic.as_bytes() == topic)
}
