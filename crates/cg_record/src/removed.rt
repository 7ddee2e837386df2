//! The check of commands that remove offsets, without an allocation: earlier partitions are re-read from the bytes.
ghost use Rattle.std.specs.Prelude.{◌≡◌, ℕ, List, [], Ok};
ghost use Rattle.std.specs.List.{list_any};
ghost use Rattle.cg_record.specs.declared.topic_partition.TopicPartition.{TopicPartition};
ghost use Rattle.cg_record.specs.Partitions.{are_one, topic_partition};
ghost use Rattle.cg_record.specs.Reading.{Skips, partition_at, partitions_at, listed_partitions_at, removal_at};

use crate::commit::{Key, key_at};
use crate::counts::count_at;
use crate::fault::RecordFault;
use crate::fields::name_at;
use crate::format::Version;
use cg_names::NAME_BYTES_MAX;

fn is_same(key: Key<'_>, topic: &[u8], partition: u32) -> bool
    ensures { result ≡ are_one (topic_partition key.entry.topic.now key.entry.partition) (topic_partition topic.now partition) }
{
    key.partition == partition && key.topic == topic
}

// Returns whether one of the first `count` partitions from `start` is this one. Decodes them again.
fn is_repeated(start: &[u8], count: u16, topic: &[u8], partition: u32) -> bool
    ensures { (front : List TopicPartition) (rest : List ℕ) → partitions_at count [] start.now ≡ Ok (front, rest) →
        result ≡ list_any (λ other. are_one other (topic_partition topic.now partition)) front }
{
    let mut rest = start;
    for _ in 0..count {
        match key_at(rest) {
            Err(_) => return false,
            Ok((key, after)) => {
                if is_same(key, topic, partition) {
                    return true;
                }
                rest = after;
            }
        }
    }
    false
}

// Checks the next partition, after the first `count` from `start`. Returns the bytes after it.
#[tactic(auto, unfolding(crate::specs::Reading::partition_at))]
fn check_partition<'a>(start: &[u8], count: u16, bytes: &'a [u8]) -> Result<&'a [u8], RecordFault>
    ensures { (front : List TopicPartition) → partitions_at count [] start.now ≡ Ok (front, bytes.now) →
        Skips (λ rest. rest.now) result (partition_at front bytes.now) }
{
    let (key, rest) = key_at(bytes)?;
    if is_repeated(start, count, key.topic, key.partition) {
        return Err(RecordFault::Repeated);
    }
    Ok(rest)
}

// Checks this many partitions. Quadratic in their number, which is at most `ENTRIES_MAX`.
#[tactic(auto, using(crate::proofs::Again::checked_start, crate::proofs::Again::checked_on, crate::proofs::Again::checked_fail, crate::proofs::Again::checked_end))]
fn check_partitions(count: u16, bytes: &[u8]) -> Result<&[u8], RecordFault>
    ensures { Skips (λ rest. rest.now) result (partitions_at count [] bytes.now) }
{
    let mut rest = bytes;
    for i in 0..count {
        rest = check_partition(bytes, i, rest)?;
    }
    Ok(rest)
}

#[tactic(auto, unfolding(crate::specs::Reading::listed_partitions_at))]
fn check_listed_partitions(version: Version, bytes: &[u8]) -> Result<&[u8], RecordFault>
    ensures { Skips (λ rest. rest.now) result (listed_partitions_at version bytes.now) }
{
    let (count, rest) = count_at(version, bytes)?;
    check_partitions(count, rest)
}

/// Checks the fields of an `Expired` or `Dropped`, after its kind byte. Returns the bytes after them.
#[tactic(auto, unfolding(crate::specs::Reading::removal_at))]
pub fn check_removal(version: Version, bytes: &[u8]) -> Result<&[u8], RecordFault>
    ensures { Skips (λ rest. rest.now) result (removal_at version bytes.now) }
{
    let (_, rest) = name_at::<NAME_BYTES_MAX>(bytes)?;
    let rest = check_listed_partitions(version, rest)?;
    Ok(rest)
}
