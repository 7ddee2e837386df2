//! The encoder of commands, in the newest version.
ghost use Rattle.std.specs.Prelude.{◌≡◌, ◌<◌, ◌≤◌, ◌+◌, ◌^◌, [], ◌∷◌, ◌++◌, Ok, length, sum_by, IfOk, OnOk, OnErr};
ghost use Rattle.std.specs.Io.{StartsWith};
ghost use Rattle.std.specs.List.{flat_map, AllByRecursion};
ghost use Rattle.cg_names.specs.Grammar.{IsName};
ghost use Rattle.cg_record.specs.Lawful.{IsEntry, IsKey, IsRemoval, IsAssigned, IsEmptied, IsReplaced, IsDeleted, IsCommitted, IsCommand, AreCommands};
ghost use Rattle.cg_record.specs.Spelling.{two, four, eight, name_text, bytes_text, entry_text, assigned_text, emptied_text, replaced_text, deleted_text, committed_text, command_text, key_text, removal_text, spelling};
ghost use Rattle.cg_record.specs.Counts.{count_text};
ghost use Rattle.cg_record.specs.Keys.{AreEntries};
ghost use Rattle.cg_record.specs.Moments.{IsMoment, moment_text};
ghost use Rattle.cg_record.specs.Partitions.{ArePartitions};
ghost use Rattle.cg_record.specs.declared.entries.TheConstants.{ENTRIES_MAX};
ghost use Rattle.cg_record.specs.Reading.{commands_of};
ghost use Rattle.cg_record.specs.Versions.{newest};

use crate::assigned::Assigned;
use crate::command::Command;
use crate::committed::Committed;
use crate::deleted::Deleted;
use crate::emptied::Emptied;
use crate::entries::Entries;
use crate::entry::Entry;
use crate::format::{
    ASSIGNED_KIND, COMMITTED_KIND, DELETED_KIND, DROPPED_KIND, EMPTIED_KIND, EXPIRED_KIND,
    REPLACED_KIND, Version,
};
use crate::member_encoder::{put_member, put_roster};
use crate::metadata::{METADATA_BYTES_MAX, Metadata};
use crate::partitions::Partitions;
use crate::replaced::Replaced;
use crate::sizes::size;
use crate::topic_partition::TopicPartition;
use cg_names::{GroupId, Moment, NAME_BYTES_MAX, Name, ShortName};
use std::alloc::{AllocError, Global};

#[tactic(auto, unfolding(crate::specs::Texts::number))]
fn put_two(out: &mut Vec<u8>, n: u16) -> Result<(), AllocError>
    ensures ok { OnOk result (out.new.items ≡ out.old.items ++ two n) }
    ensures err { OnErr result (StartsWith out.new.items out.old.items) }
{
    out.extend_from_slice(&n.to_be_bytes())
}

/// Appends a big-endian number of four bytes.
#[tactic(auto, unfolding(crate::specs::Texts::number))]
pub fn put_four(out: &mut Vec<u8>, n: u32) -> Result<(), AllocError>
    ensures ok { OnOk result (out.new.items ≡ out.old.items ++ four n) }
    ensures err { OnErr result (StartsWith out.new.items out.old.items) }
{
    out.extend_from_slice(&n.to_be_bytes())
}

#[tactic(auto, unfolding(crate::specs::Texts::number))]
fn put_eight(out: &mut Vec<u8>, n: u64) -> Result<(), AllocError>
    ensures ok { OnOk result (out.new.items ≡ out.old.items ++ eight n) }
    ensures err { OnErr result (StartsWith out.new.items out.old.items) }
{
    out.extend_from_slice(&n.to_be_bytes())
}

// Appends the bytes of a name, with their length byte.
#[tactic(auto, using(crate::proofs::Kept::front_kept))]
fn put_bytes_of_name(out: &mut Vec<u8>, bytes: &[u8]) -> Result<(), AllocError>
    requires { length bytes.now < 256 }
    ensures ok { OnOk result (out.new.items ≡ out.old.items ++ name_text bytes.now) }
    ensures err { OnErr result (StartsWith out.new.items out.old.items) }
{
    out.push(bytes.len() as u8)?;
    out.extend_from_slice(bytes)?;
    Ok(())
}

/// Appends a name, with its length byte.
#[tactic(auto, using(cg_names::proofs::Names::length_from_name))]
pub fn put_name<const MAX: usize, const SORT: u8>(
    out: &mut Vec<u8>,
    name: &Name<MAX, SORT>,
) -> Result<(), AllocError>
    requires { MAX < 256 }
    ensures ok { OnOk result (out.new.items ≡ out.old.items ++ name_text name.now) }
    ensures err { OnErr result (StartsWith out.new.items out.old.items) }
    ensures lawful { IsName MAX name.now }
{
    put_bytes_of_name(out, name.as_bytes())?;
    Ok(())
}

/// Appends the name of a client or a topic, with its length byte.
#[tactic(auto, using(cg_names::proofs::Names::length_from_name))]
pub fn put_short_name<const SORT: u8>(
    out: &mut Vec<u8>,
    name: &ShortName<SORT>,
) -> Result<(), AllocError>
    ensures ok { OnOk result (out.new.items ≡ out.old.items ++ name_text name.now) }
    ensures err { OnErr result (StartsWith out.new.items out.old.items) }
    ensures lawful { IsName NAME_BYTES_MAX name.now }
{
    put_bytes_of_name(out, name.as_bytes())?;
    Ok(())
}

#[tactic(auto, using(crate::proofs::Kept::front_kept))]
fn put_metadata(out: &mut Vec<u8>, metadata: &Metadata) -> Result<(), AllocError>
    ensures ok { OnOk result (out.new.items ≡ out.old.items ++ bytes_text metadata.now) }
    ensures err { OnErr result (StartsWith out.new.items out.old.items) }
    ensures lawful { length metadata.now ≤ METADATA_BYTES_MAX }
{
    let bytes = metadata.as_bytes();
    put_four(out, bytes.len() as u32)?;
    out.extend_from_slice(bytes)?;
    Ok(())
}

// Appends a known moment.
#[tactic(auto, using(crate::proofs::Kept::front_kept))]
fn put_known(out: &mut Vec<u8>, moment: Moment) -> Result<(), AllocError>
    ensures ok { OnOk result (out.new.items ≡ out.old.items ++ (1 ∷ eight moment)) }
    ensures err { OnErr result (StartsWith out.new.items out.old.items) }
    ensures lawful { moment < 2 ^ 64 }
{
    let millis = moment.as_millis();
    out.push(1)?;
    put_eight(out, millis)?;
    Ok(())
}

// Appends a moment, or that it is unknown.
#[tactic(auto, unfolding(crate::specs::Moments::moment_text))]
fn put_moment(out: &mut Vec<u8>, moment: Option<Moment>) -> Result<(), AllocError>
    ensures ok { OnOk result (out.new.items ≡ out.old.items ++ moment_text newest moment) }
    ensures err { OnErr result (StartsWith out.new.items out.old.items) }
    ensures lawful { OnOk result (IsMoment moment) }
{
    match moment {
        None => out.push(0)?,
        Some(moment) => put_known(out, moment)?,
    }
    Ok(())
}

// Appends a number of entries or partitions.
#[tactic(auto, unfolding(crate::specs::Counts::count_text))]
fn put_count(out: &mut Vec<u8>, count: usize) -> Result<(), AllocError>
    requires { count ≤ ENTRIES_MAX }
    ensures ok { OnOk result (out.new.items ≡ out.old.items ++ count_text newest count) }
    ensures err { OnErr result (StartsWith out.new.items out.old.items) }
{
    put_two(out, count as u16)?;
    Ok(())
}

// Appends a partition of a topic.
#[tactic(auto, using(crate::proofs::Kept::front_kept))]
fn put_key(out: &mut Vec<u8>, key: &TopicPartition) -> Result<(), AllocError>
    ensures ok { OnOk result (out.new.items ≡ out.old.items ++ key_text key.now) }
    ensures err { OnErr result (StartsWith out.new.items out.old.items) }
    ensures lawful { OnOk result (IsKey key.now) }
{
    put_short_name(out, &key.topic)?;
    put_four(out, key.partition.get())?;
    Ok(())
}

#[tactic(auto, using(crate::proofs::Kept::front_kept), unfolding(crate::specs::Spelling::entry_text))]
fn put_entry(out: &mut Vec<u8>, entry: &Entry) -> Result<(), AllocError>
    ensures ok { OnOk result (out.new.items ≡ out.old.items ++ entry_text entry.now) }
    ensures err { OnErr result (StartsWith out.new.items out.old.items) }
    ensures lawful { OnOk result (IsEntry entry.now) }
{
    let metadata = &entry.metadata;
    put_key(out, &entry.key)?;
    put_eight(out, entry.offset.get())?;
    put_metadata(out, metadata)?;
    Ok(())
}

#[tactic(auto, using(crate::proofs::Kept::front_kept))]
fn put_entries(out: &mut Vec<u8>, entries: &[Entry]) -> Result<(), AllocError>
    ensures ok { OnOk result (out.new.items ≡ out.old.items ++ flat_map entry_text entries.now) }
    ensures err { OnErr result (StartsWith out.new.items out.old.items) }
    ensures lawful { OnOk result (AllByRecursion IsEntry entries.now) }
{
    for entry in entries {
        put_entry(out, entry)?;
    }
    Ok(())
}

#[tactic(auto, using(crate::proofs::Kept::front_kept))]
fn put_listed_entries(out: &mut Vec<u8>, entries: &Entries) -> Result<(), AllocError>
    ensures ok { OnOk result (out.new.items ≡ out.old.items ++ (count_text newest (length entries.now) ++ flat_map entry_text entries.now)) }
    ensures err { OnErr result (StartsWith out.new.items out.old.items) }
    ensures entries { AreEntries entries.now }
    ensures each { OnOk result (AllByRecursion IsEntry entries.now) }
{
    let entries = entries.as_slice();
    put_count(out, entries.len())?;
    put_entries(out, entries)?;
    Ok(())
}

#[tactic(auto, using(crate::proofs::Kept::front_kept), unfolding(crate::specs::Spelling::committed_text))]
fn put_committed(out: &mut Vec<u8>, committed: &Committed) -> Result<(), AllocError>
    ensures ok { OnOk result (out.new.items ≡ out.old.items ++ committed_text newest committed.now) }
    ensures err { OnErr result (StartsWith out.new.items out.old.items) }
    ensures lawful { OnOk result (IsCommitted committed.now) }
{
    put_name(out, &committed.group)?;
    put_moment(out, committed.moment)?;
    put_listed_entries(out, &committed.entries)?;
    Ok(())
}

#[tactic(auto, using(crate::proofs::Kept::front_kept))]
fn put_partitions(out: &mut Vec<u8>, partitions: &[TopicPartition]) -> Result<(), AllocError>
    ensures ok { OnOk result (out.new.items ≡ out.old.items ++ flat_map key_text partitions.now) }
    ensures err { OnErr result (StartsWith out.new.items out.old.items) }
    ensures lawful { OnOk result (AllByRecursion IsKey partitions.now) }
{
    for partition in partitions {
        put_key(out, partition)?;
    }
    Ok(())
}

#[tactic(auto, using(crate::proofs::Kept::front_kept))]
fn put_listed_partitions(out: &mut Vec<u8>, partitions: &Partitions) -> Result<(), AllocError>
    ensures ok { OnOk result (out.new.items ≡ out.old.items ++ (count_text newest (length partitions.now) ++ flat_map key_text partitions.now)) }
    ensures err { OnErr result (StartsWith out.new.items out.old.items) }
    ensures partitions { ArePartitions partitions.now }
    ensures each { OnOk result (AllByRecursion IsKey partitions.now) }
{
    let partitions = partitions.as_slice();
    put_count(out, partitions.len())?;
    put_partitions(out, partitions)?;
    Ok(())
}

// Appends the fields of an `Expired` or `Dropped`.
#[tactic(auto, using(crate::proofs::Kept::front_kept), unfolding(crate::specs::Spelling::removal_text))]
fn put_removal(
    out: &mut Vec<u8>,
    group: &GroupId,
    partitions: &Partitions,
) -> Result<(), AllocError>
    ensures ok { OnOk result (out.new.items ≡ out.old.items ++ removal_text newest group.now partitions.now) }
    ensures err { OnErr result (StartsWith out.new.items out.old.items) }
    ensures lawful { OnOk result (IsRemoval group.now partitions.now) }
{
    put_name(out, group)?;
    put_listed_partitions(out, partitions)?;
    Ok(())
}

#[tactic(auto, using(crate::proofs::Kept::front_kept), unfolding(crate::specs::Spelling::assigned_text))]
fn put_assigned(out: &mut Vec<u8>, assigned: &Assigned) -> Result<(), AllocError>
    ensures ok { OnOk result (out.new.items ≡ out.old.items ++ assigned_text assigned.now) }
    ensures err { OnErr result (StartsWith out.new.items out.old.items) }
    ensures lawful { OnOk result (IsAssigned assigned.now) }
{
    put_name(out, &assigned.group)?;
    put_four(out, assigned.generation.get())?;
    put_name(out, &assigned.kind)?;
    put_roster(out, &assigned.roster)?;
    Ok(())
}

#[tactic(auto, using(crate::proofs::Kept::front_kept), unfolding(crate::specs::Spelling::replaced_text))]
fn put_replaced(out: &mut Vec<u8>, replaced: &Replaced) -> Result<(), AllocError>
    ensures ok { OnOk result (out.new.items ≡ out.old.items ++ replaced_text replaced.now) }
    ensures err { OnErr result (StartsWith out.new.items out.old.items) }
    ensures lawful { OnOk result (IsReplaced replaced.now) }
{
    let member = replaced.member.member();
    put_name(out, &replaced.group)?;
    put_member(out, member)?;
    Ok(())
}

#[tactic(auto, using(crate::proofs::Kept::front_kept), unfolding(crate::specs::Spelling::emptied_text))]
fn put_emptied(out: &mut Vec<u8>, emptied: &Emptied) -> Result<(), AllocError>
    ensures ok { OnOk result (out.new.items ≡ out.old.items ++ emptied_text newest emptied.now) }
    ensures err { OnErr result (StartsWith out.new.items out.old.items) }
    ensures lawful { OnOk result (IsEmptied emptied.now) }
{
    put_name(out, &emptied.group)?;
    put_four(out, emptied.generation.get())?;
    put_name(out, &emptied.kind)?;
    put_moment(out, emptied.moment)?;
    Ok(())
}

#[tactic(auto, unfolding(crate::specs::Spelling::deleted_text))]
fn put_deleted(out: &mut Vec<u8>, deleted: &Deleted) -> Result<(), AllocError>
    ensures ok { OnOk result (out.new.items ≡ out.old.items ++ deleted_text deleted.now) }
    ensures err { OnErr result (StartsWith out.new.items out.old.items) }
    ensures lawful { OnOk result (IsDeleted deleted.now) }
{
    put_name(out, &deleted.group)?;
    Ok(())
}

#[tactic(auto, using(crate::proofs::Kept::front_kept), unfolding(crate::specs::Spelling::command_bytes))]
fn put_command(out: &mut Vec<u8>, command: &Command) -> Result<(), AllocError>
    ensures ok { OnOk result (out.new.items ≡ out.old.items ++ command_text command.now) }
    ensures err { OnErr result (StartsWith out.new.items out.old.items) }
    ensures lawful { OnOk result (IsCommand command.now) }
{
    match command {
        Command::Assigned(assigned) => {
            out.push(ASSIGNED_KIND)?;
            put_assigned(out, assigned)?;
        }
        Command::Emptied(emptied) => {
            out.push(EMPTIED_KIND)?;
            put_emptied(out, emptied)?;
        }
        Command::Replaced(replaced) => {
            out.push(REPLACED_KIND)?;
            put_replaced(out, replaced)?;
        }
        Command::Committed(committed) => {
            out.push(COMMITTED_KIND)?;
            put_committed(out, committed)?;
        }
        Command::Deleted(deleted) => {
            out.push(DELETED_KIND)?;
            put_deleted(out, deleted)?;
        }
        Command::Expired(expired) => {
            out.push(EXPIRED_KIND)?;
            put_removal(out, &expired.group, &expired.partitions)?;
        }
        Command::Dropped(dropped) => {
            out.push(DROPPED_KIND)?;
            put_removal(out, &dropped.group, &dropped.partitions)?;
        }
    }
    Ok(())
}

/// Appends the encoding of a command, `size` bytes. A caller that has reserved room for them saves allocations. If an
/// allocation fails, nothing is appended.
pub fn append_command(out: &mut Vec<u8>, command: &Command) -> Result<(), AllocError>
    ensures ok { OnOk result (out.new.items ≡ out.old.items ++ command_text command.now) }
    ensures lawful { OnOk result (IsCommand command.now) }
    ensures err { OnErr result (out.new.items ≡ out.old.items) }
{
    let before = out.len();
    match put_command(out, command) {
        Ok(()) => Ok(()),
        Err(error) => {
            out.truncate(before);
            Err(error)
        }
    }
}

/// Begins a payload: appends the encoding of no command, the version byte.
#[tactic(auto, unfolding(crate::specs::Spelling::spelling))]
pub fn append_version(out: &mut Vec<u8>) -> Result<(), AllocError>
    ensures ok { OnOk result (out.new.items ≡ out.old.items ++ spelling []) }
    ensures err { OnErr result (out.new.items ≡ out.old.items) }
{
    out.push(Version::newest().byte())?;
    Ok(())
}

// Only a capacity: it saves allocations while `write` appends, and no contract depends on it.
fn text_size(commands: &[Command]) -> usize {
    let mut total = 1u64;
    for command in commands {
        total = total.saturating_add(size(command));
    }
    total as usize
}

/// Encodes the commands in one allocation: the version byte, and `size` bytes for each command.
pub fn write(alloc: Global, commands: &[Command]) -> Result<Vec<u8>, AllocError>
    ensures spelled { IfOk result (λ v. v.items ≡ spelling commands.now) }
    ensures len { IfOk result (λ v. length v.items ≡ 1 + sum_by (λ c. length (command_text c)) commands.now) }
    // The commands are in range, and the encoding decodes to them.
    ensures lawful { OnOk result (AreCommands commands.now) }
    ensures reads_back { IfOk result (λ v. commands_of v.items ≡ Ok commands.now) }
{
    let mut out = Vec::with_capacity(alloc, text_size(commands))?;
    out.push(Version::newest().byte())?;
    for command in commands {
        put_command(&mut out, command)?;
    }
    Ok(out)
}
