//! The decoder that builds commands, in one pass over the bytes.

ghost use Rattle.std.specs.Prelude.{◌≡◌, ◌<◌, ◌≤◌, [], ◌∷◌, length, IfOk};
ghost use Rattle.cg_record.specs.Decoding.{after_front, left_in};
ghost use Rattle.cg_record.specs.Keys.{HasDistinctKeys, metadata_bytes};
ghost use Rattle.cg_record.specs.declared.entries.TheConstants.{COMMIT_METADATA_BYTES_MAX};
ghost use Rattle.cg_record.specs.Lawful.{IsCommand, IsKey, IsKept};
ghost use Rattle.cg_record.specs.Partitions.{topic_partition};
ghost use Rattle.cg_record.specs.Reading.{Builds, entry_at, entries_at, listed_entries_at, committed_at, body_at, command_at, commands_to_end, commands_of};

use crate::command::Command;
use crate::commit::{Kept, Key, is_taken, kept_at, key_at};
use crate::committed::Committed;
use crate::counts::count_at;
use crate::dropped::Dropped;
use crate::entries::{Entries, metadata_room};
use crate::entry::Entry;
use crate::expired::Expired;
use crate::fault::RecordFault;
use crate::fields::{byte_at, name_at};
use crate::format::{
    ASSIGNED_KIND, COMMITTED_KIND, DELETED_KIND, DROPPED_KIND, EMPTIED_KIND, EXPIRED_KIND,
    REPLACED_KIND, Version,
};
use crate::group_decoder::{assigned_at, deleted_at, emptied_at, replaced_at};
use crate::metadata::Metadata;
use crate::moment_field::{moment_at, moment_of};
use crate::offset::Offset;
use crate::partition::Partition;
use crate::removal::removal_at;
use crate::topic_partition::TopicPartition;
use cg_names::{NAME_BYTES_MAX, Name, Topic};
use std::alloc::{AllocError, Global};

// The preconditions make both `unwrap` calls safe.
fn entry_of(
    alloc: Global,
    room: &mut Vec<Metadata>,
    key: Key<'_>,
    kept: Kept<'_>,
) -> Result<Entry, AllocError>
    requires key { IsKey (topic_partition key.topic.now key.partition) }
    requires kept { IsKept kept.offset kept.metadata.now }
    ensures { IfOk result (λ e. e ≡ record { key = topic_partition key.entry.topic.now key.entry.partition; offset = kept.entry.offset; metadata = kept.entry.metadata.now }) }
{
    let partition = Partition::new(key.partition).unwrap();
    let offset = Offset::new(kept.offset).unwrap();
    let topic = Topic::from_lawful(alloc, key.topic)?;
    let metadata = Metadata::from_bytes_in(alloc, room, kept.metadata)?;
    Ok(Entry {
        key: TopicPartition { topic, partition },
        offset,
        metadata,
    })
}

// Decodes the next entry of a commit. Reports `Repeated` if an entry of `front` has the same partition.
#[tactic(auto, unfolding(crate::specs::Reading::entry_at))]
fn entry_at<'a>(
    alloc: Global,
    room: &mut Vec<Metadata>,
    front: &[Entry],
    bytes: &'a [u8],
) -> Result<(Entry, &'a [u8]), RecordFault>
    ensures { Builds (λ x. (x.0, x.1.now)) result (entry_at front.now bytes.now) }
{
    let (key, rest) = key_at(bytes)?;
    if is_taken(front, key.topic, key.partition) {
        return Err(RecordFault::Repeated);
    }
    let room_left = metadata_room(front);
    let (kept, rest) = kept_at(room_left, rest)?;
    let entry = entry_of(alloc, room, key, kept)?;
    Ok((entry, rest))
}

// Decodes this many entries.
#[tactic(auto, using(crate::proofs::Steps::many_on, crate::proofs::Steps::many_fail, crate::proofs::Steps::many_end))]
fn entries_at<'a>(
    alloc: Global,
    room: &mut Vec<Metadata>,
    count: u16,
    bytes: &'a [u8],
) -> Result<(Vec<Entry>, &'a [u8]), RecordFault>
    ensures builds { Builds (λ x. (x.0.items, x.1.now)) result (entries_at count [] bytes.now) }
    ensures len { IfOk result (λ x. length x.0.items ≡ count) }
    ensures distinct { IfOk result (λ x. HasDistinctKeys x.0.items) }
    ensures metadata { IfOk result (λ x. metadata_bytes x.0.items ≤ COMMIT_METADATA_BYTES_MAX) }
{
    let mut entries = Vec::with_capacity(alloc, count as usize)?;
    let mut rest = bytes;
    for _ in 0..count {
        let (entry, after) = entry_at(alloc, room, entries.as_slice(), rest)?;
        entries.push(entry)?;
        rest = after;
    }
    Ok((entries, rest))
}

// Decodes the number of entries and the entries.
#[tactic(auto, unfolding(crate::specs::Reading::listed_entries_at))]
fn listed_entries_at<'a>(
    alloc: Global,
    room: &mut Vec<Metadata>,
    version: Version,
    bytes: &'a [u8],
) -> Result<(Entries, &'a [u8]), RecordFault>
    ensures { Builds (λ x. (x.0, x.1.now)) result (listed_entries_at version bytes.now) }
{
    let (count, rest) = count_at(version, bytes)?;
    let (entries, rest) = entries_at(alloc, room, count, rest)?;
    Ok((Entries::from_lawful(entries), rest))
}

#[tactic(auto, unfolding(crate::specs::Reading::committed_at))]
fn committed_at<'a>(
    alloc: Global,
    room: &mut Vec<Metadata>,
    version: Version,
    bytes: &'a [u8],
) -> Result<(Committed, &'a [u8]), RecordFault>
    ensures { Builds (λ x. (x.0, x.1.now)) result (committed_at version bytes.now) }
{
    let (group, rest) = name_at::<NAME_BYTES_MAX>(bytes)?;
    let (millis, rest) = moment_at(version, rest)?;
    let group = Name::from_lawful(alloc, group)?;
    let (entries, rest) = listed_entries_at(alloc, room, version, rest)?;
    Ok((
        Committed {
            group,
            moment: moment_of(millis),
            entries,
        },
        rest,
    ))
}

#[tactic(auto, unfolding(crate::specs::Reading::body_at))]
fn body_at<'a>(
    alloc: Global,
    room: &mut Vec<Metadata>,
    version: Version,
    kind: u8,
    bytes: &'a [u8],
) -> Result<(Command, &'a [u8]), RecordFault>
    ensures { Builds (λ x. (x.0, x.1.now)) result (body_at version kind bytes.now) }
{
    if kind == ASSIGNED_KIND {
        let (assigned, rest) = assigned_at(alloc, bytes)?;
        Ok((Command::Assigned(assigned), rest))
    } else if kind == EMPTIED_KIND {
        let (emptied, rest) = emptied_at(alloc, version, bytes)?;
        Ok((Command::Emptied(emptied), rest))
    } else if kind == REPLACED_KIND {
        let (replaced, rest) = replaced_at(alloc, bytes)?;
        Ok((Command::Replaced(replaced), rest))
    } else if kind == COMMITTED_KIND {
        let (committed, rest) = committed_at(alloc, room, version, bytes)?;
        Ok((Command::Committed(committed), rest))
    } else if kind == DELETED_KIND {
        let (deleted, rest) = deleted_at(alloc, bytes)?;
        Ok((Command::Deleted(deleted), rest))
    } else if kind == EXPIRED_KIND && version.has_expired() {
        let ((group, partitions), rest) = removal_at(alloc, version, bytes)?;
        Ok((Command::Expired(Expired { group, partitions }), rest))
    } else if kind == DROPPED_KIND && version.has_dropped() {
        let ((group, partitions), rest) = removal_at(alloc, version, bytes)?;
        Ok((Command::Dropped(Dropped { group, partitions }), rest))
    } else {
        Err(RecordFault::BadKind)
    }
}

/// Decodes the next command. The metadata of a commit take the memory of those in `room`.
#[tactic(auto, unfolding(crate::specs::Reading::command_at))]
pub fn command_at<'a>(
    alloc: Global,
    room: &mut Vec<Metadata>,
    version: Version,
    bytes: &'a [u8],
) -> Result<(Command, &'a [u8]), RecordFault>
    ensures builds { Builds (λ x. (x.0, x.1.now)) result (command_at version bytes.now) }
    ensures shorter { IfOk result (λ x. length x.1.now < length bytes.now) }
    ensures left { IfOk result (λ x. IsCommand x.0 × (left_in version bytes.now ≡ after_front (x.0 ∷ []) (left_in version x.1.now))) }
{
    let (kind, rest) = byte_at(bytes)?;
    body_at(alloc, room, version, kind, rest)
}

// Decodes commands up to the end of the bytes.
#[tactic(auto, using(crate::proofs::Steps::commands_start, crate::proofs::Steps::commands_on, crate::proofs::Steps::commands_fail, crate::proofs::Steps::commands_end))]
fn commands_to_end(
    alloc: Global,
    version: Version,
    bytes: &[u8],
) -> Result<Vec<Command>, RecordFault>
    ensures { Builds (λ v. v.items) result (commands_to_end version (length bytes.now) bytes.now) }
{
    let mut commands = Vec::new(alloc);
    let mut room = Vec::new(alloc);
    let mut rest = bytes;
    while !rest.is_empty() {
        let (command, after) = command_at(alloc, &mut room, version, rest)?;
        commands.push(command)?;
        rest = after;
    }
    Ok(commands)
}

/// Decodes the commands of a payload in one pass. If an allocation fails, reports `Memory` even if a later byte has a
/// fault.
#[tactic(auto, unfolding(crate::specs::Reading::commands_of))]
pub fn build(alloc: Global, bytes: &[u8]) -> Result<Vec<Command>, RecordFault>
    ensures { Builds (λ v. v.items) result (commands_of bytes.now) }
{
    let (first, rest) = byte_at(bytes)?;
    let version = Version::of(first)?;
    commands_to_end(alloc, version, rest)
}
