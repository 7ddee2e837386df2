//! The check for faults without an allocation: earlier fields are re-read from the bytes when needed.

ghost use Rattle.std.specs.Prelude.{◌≡◌, ◌<◌, ◌-◌, ℕ, List, [], Ok, length, IfOk, IsSomeAnd};
ghost use Rattle.std.specs.List.{list_any};
ghost use Rattle.cg_record.specs.declared.entry.Entry.{Entry};
ghost use Rattle.cg_record.specs.Keys.{is_of, metadata_bytes};
ghost use Rattle.cg_record.specs.declared.entries.TheConstants.{COMMIT_METADATA_BYTES_MAX};
ghost use Rattle.cg_record.specs.Partitions.{are_one, topic_partition};
ghost use Rattle.cg_record.specs.Reading.{Skips, Checks, entry_at, entries_at, listed_entries_at, committed_at, body_at, command_at, commands_to_end, commands_of};

use crate::commit::{Key, kept_at, key_at};
use crate::counts::count_at;
use crate::entries::{COMMIT_METADATA_BYTES_MAX, entry_room};
use crate::fault::RecordFault;
use crate::fields::{byte_at, name_at};
use crate::format::{
    ASSIGNED_KIND, COMMITTED_KIND, DELETED_KIND, DROPPED_KIND, EMPTIED_KIND, EXPIRED_KIND,
    REPLACED_KIND, Version,
};
use crate::group_check::{check_assigned, check_deleted, check_emptied, check_replaced};
use crate::metadata::METADATA_BYTES_MAX;
use crate::moment_field::moment_at;
use crate::removed::check_removal;
use cg_names::NAME_BYTES_MAX;

// Decodes the partition of an entry again, and returns the size of its metadata and the bytes after the entry.
#[tactic(auto, unfolding(crate::specs::Reading::entry_at))]
fn read_again(bytes: &[u8]) -> Option<(Key<'_>, usize, &[u8])>
    ensures { (front : List Entry) (e : Entry) (after : List ℕ) → entry_at front bytes.now ≡ Ok (e, after) →
        IsSomeAnd result (λ x. (topic_partition x.0.topic.now x.0.partition ≡ e.key) × (x.1 ≡ length e.metadata) × (x.2.now ≡ after)) }
{
    let (key, rest) = key_at(bytes).ok()?;
    match kept_at(METADATA_BYTES_MAX, rest) {
        Ok((kept, after)) => Some((key, kept.metadata.len(), after)),
        Err(_) => None,
    }
}

fn is_same(key: Key<'_>, topic: &[u8], partition: u32) -> bool
    ensures { result ≡ are_one (topic_partition key.entry.topic.now key.entry.partition) (topic_partition topic.now partition) }
{
    key.partition == partition && key.topic == topic
}

// Returns whether one of the first `count` entries from `start` has this partition. Decodes them again.
fn is_repeated(start: &[u8], count: u16, topic: &[u8], partition: u32) -> bool
    ensures { (front : List Entry) (rest : List ℕ) → entries_at count [] start.now ≡ Ok (front, rest) →
        result ≡ list_any (is_of (topic_partition topic.now partition)) front }
{
    let mut rest = start;
    for _ in 0..count {
        match read_again(rest) {
            None => return false,
            Some((key, _, after)) => {
                if is_same(key, topic, partition) {
                    return true;
                }
                rest = after;
            }
        }
    }
    false
}

// Returns how many bytes of metadata a commit may have after the first `count` entries from `start`. Decodes them again.
fn room_left(start: &[u8], count: u16) -> usize
    ensures { (front : List Entry) (rest : List ℕ) → entries_at count [] start.now ≡ Ok (front, rest) →
        result ≡ COMMIT_METADATA_BYTES_MAX - metadata_bytes front }
{
    let mut room = COMMIT_METADATA_BYTES_MAX;
    let mut rest = start;
    for _ in 0..count {
        match read_again(rest) {
            None => return room,
            Some((_, size, after)) => {
                room = room.saturating_sub(size);
                rest = after;
            }
        }
    }
    room
}

// Checks the next entry, after the first `count` entries from `start`. Returns the bytes after it.
#[tactic(auto, unfolding(crate::specs::Reading::entry_at))]
fn check_entry<'a>(start: &[u8], count: u16, bytes: &'a [u8]) -> Result<&'a [u8], RecordFault>
    ensures { (front : List Entry) → entries_at count [] start.now ≡ Ok (front, bytes.now) →
        Skips (λ rest. rest.now) result (entry_at front bytes.now) }
{
    let (key, rest) = key_at(bytes)?;
    if is_repeated(start, count, key.topic, key.partition) {
        return Err(RecordFault::Repeated);
    }
    let room = entry_room(room_left(start, count));
    let (_, rest) = kept_at(room, rest)?;
    Ok(rest)
}

// Checks this many entries. Quadratic in their number, which is at most `ENTRIES_MAX`.
#[tactic(auto, using(crate::proofs::Again::checked_start, crate::proofs::Again::checked_on, crate::proofs::Again::checked_fail, crate::proofs::Again::checked_end))]
fn check_entries(count: u16, bytes: &[u8]) -> Result<&[u8], RecordFault>
    ensures { Skips (λ rest. rest.now) result (entries_at count [] bytes.now) }
{
    let mut rest = bytes;
    for i in 0..count {
        rest = check_entry(bytes, i, rest)?;
    }
    Ok(rest)
}

#[tactic(auto, unfolding(crate::specs::Reading::listed_entries_at))]
fn check_listed_entries(version: Version, bytes: &[u8]) -> Result<&[u8], RecordFault>
    ensures { Skips (λ rest. rest.now) result (listed_entries_at version bytes.now) }
{
    let (count, rest) = count_at(version, bytes)?;
    check_entries(count, rest)
}

#[tactic(auto, unfolding(crate::specs::Reading::committed_at))]
fn check_committed(version: Version, bytes: &[u8]) -> Result<&[u8], RecordFault>
    ensures { Skips (λ rest. rest.now) result (committed_at version bytes.now) }
{
    let (_, rest) = name_at::<NAME_BYTES_MAX>(bytes)?;
    let (_, rest) = moment_at(version, rest)?;
    let rest = check_listed_entries(version, rest)?;
    Ok(rest)
}

#[tactic(auto, unfolding(crate::specs::Reading::body_at))]
fn check_body(version: Version, kind: u8, bytes: &[u8]) -> Result<&[u8], RecordFault>
    ensures { Skips (λ rest. rest.now) result (body_at version kind bytes.now) }
{
    if kind == ASSIGNED_KIND {
        check_assigned(bytes)
    } else if kind == EMPTIED_KIND {
        check_emptied(version, bytes)
    } else if kind == REPLACED_KIND {
        check_replaced(bytes)
    } else if kind == COMMITTED_KIND {
        check_committed(version, bytes)
    } else if kind == DELETED_KIND {
        check_deleted(bytes)
    } else if kind == EXPIRED_KIND && version.has_expired() {
        check_removal(version, bytes)
    } else if kind == DROPPED_KIND && version.has_dropped() {
        check_removal(version, bytes)
    } else {
        Err(RecordFault::BadKind)
    }
}

#[tactic(auto, unfolding(crate::specs::Reading::command_at))]
fn check_command(version: Version, bytes: &[u8]) -> Result<&[u8], RecordFault>
    ensures skips { Skips (λ rest. rest.now) result (command_at version bytes.now) }
    ensures shorter { IfOk result (λ rest. length rest.now < length bytes.now) }
{
    let (kind, rest) = byte_at(bytes)?;
    check_body(version, kind, rest)
}

// Checks commands up to the end of the bytes.
#[tactic(auto, using(crate::proofs::Again::passed_start, crate::proofs::Again::passed_on, crate::proofs::Again::passed_fail, crate::proofs::Again::passed_end))]
fn check_to_end(version: Version, bytes: &[u8]) -> Result<(), RecordFault>
    ensures { Checks result (commands_to_end version (length bytes.now) bytes.now) }
{
    let mut rest = bytes;
    while !rest.is_empty() {
        rest = check_command(version, rest)?;
    }
    Ok(())
}

/// Returns the first fault of the bytes, if they have one. No allocation.
#[tactic(auto, unfolding(crate::specs::Reading::commands_of))]
pub fn check(bytes: &[u8]) -> Result<(), RecordFault>
    ensures { Checks result (commands_of bytes.now) }
{
    let (first, rest) = byte_at(bytes)?;
    let version = Version::of(first)?;
    check_to_end(version, rest)
}
