//! The sizes of encoded commands in the newest version, in bytes.
ghost use Rattle.std.specs.Prelude.{◌≡◌, ◌≤◌, ◌+◌, ◌*◌, length};
ghost use Rattle.std.specs.List.{flat_map};
ghost use Rattle.cg_record.specs.Spelling.{entry_text, key_text, removal_text, optional_text, roster_text, assigned_text, emptied_text, replaced_text, deleted_text, committed_text, command_text};
ghost use Rattle.cg_record.specs.Members.{member_text};
ghost use Rattle.cg_record.specs.Versions.{newest};
ghost use Rattle.cg_record.specs.Keys.{metadata_bytes};
ghost use Rattle.cg_record.specs.Moments.{moment_text};
ghost use Rattle.cg_record.specs.declared.metadata.TheConstants.{METADATA_BYTES_MAX};

use crate::assigned::Assigned;
use crate::command::Command;
use crate::committed::Committed;
use crate::deleted::Deleted;
use crate::emptied::Emptied;
use crate::entries::{COMMIT_METADATA_BYTES_MAX, ENTRIES_MAX};
use crate::entry::Entry;
use crate::member_record::MemberRecord;
use crate::opaque::{ASSIGNMENT_BYTES_MAX, SUBSCRIPTION_BYTES_MAX};
use crate::partitions::Partitions;
use crate::replaced::Replaced;
use crate::roster::{MEMBERS_MAX, Roster};
use crate::topic_partition::TopicPartition;
use cg_names::{GroupId, InstanceId, MEMBER_ID_BYTES_MAX, Moment, NAME_BYTES_MAX};

// Size of a partition without its topic: a length of 1 byte, a number of 4 bytes.
const KEY_FIXED_BYTES: u64 = 5;

// Maximum size of a partition.
const KEY_BYTES_MAX: u64 = KEY_FIXED_BYTES + NAME_BYTES_MAX as u64;

// Size of an entry without its partition and metadata: a number of 8 bytes, a length of 4 bytes.
const ENTRY_FIXED_BYTES: u64 = 12;

// Maximum size of an entry without its metadata.
const BARE_ENTRY_BYTES_MAX: u64 = KEY_BYTES_MAX + ENTRY_FIXED_BYTES;

// Size of a number of entries or partitions.
const COUNT_BYTES: u64 = 2;

// Size of an unknown moment: the byte that says so.
const UNKNOWN_MOMENT_BYTES: u64 = 1;

// Maximum size of a moment: the byte that says that it is known, and the milliseconds.
const MOMENT_BYTES_MAX: u64 = 9;

// Maximum size of the name of a group or a type, with its length.
const NAME_FIELD_BYTES_MAX: u64 = 1 + NAME_BYTES_MAX as u64;

// Size of a member without its id, instance, client, subscription and assignment: two lengths of 1 byte, two numbers of
// 4 bytes, two lengths of 4 bytes. The length byte of the instance counts with the instance.
const MEMBER_FIXED_BYTES: u64 = 18;

// Maximum size of a member.
const MEMBER_BYTES_MAX: u64 = MEMBER_FIXED_BYTES
    + MEMBER_ID_BYTES_MAX as u64
    + NAME_FIELD_BYTES_MAX
    + NAME_BYTES_MAX as u64
    + SUBSCRIPTION_BYTES_MAX as u64
    + ASSIGNMENT_BYTES_MAX as u64;

// Size of a roster without its names and members: two lengths and a count of 1 byte each.
const ROSTER_FIXED_BYTES: u64 = 3;

// Size of an `Assigned` or `Emptied` without its names, members and moment: a length of 1 byte, a number of 4 bytes, a
// length of 1 byte.
const GROUP_FIXED_BYTES: u64 = 6;

// Maximum size of a `Committed`.
const COMMITTED_BYTES_MAX: u64 = NAME_FIELD_BYTES_MAX
    + MOMENT_BYTES_MAX
    + COUNT_BYTES
    + ENTRIES_MAX as u64 * BARE_ENTRY_BYTES_MAX
    + COMMIT_METADATA_BYTES_MAX as u64;

// Maximum size of a roster.
const ROSTER_BYTES_MAX: u64 = ROSTER_FIXED_BYTES
    + NAME_BYTES_MAX as u64
    + MEMBER_ID_BYTES_MAX as u64
    + MEMBERS_MAX as u64 * MEMBER_BYTES_MAX;

// Maximum size of an `Assigned`.
const ASSIGNED_BYTES_MAX: u64 = GROUP_FIXED_BYTES + 2 * NAME_BYTES_MAX as u64 + ROSTER_BYTES_MAX;

/// Maximum size of a command, in bytes: a kind, and an `Assigned` of `MEMBERS_MAX` members. With fewer than 54 members a
/// `Committed` could be larger; then `bound` of `size` would not be proved.
pub const COMMAND_BYTES_MAX: u64 = 1 + ASSIGNED_BYTES_MAX;

#[tactic(auto, using(crate::proofs::TextLens::key_len, cg_names::proofs::Names::length_from_name))]
fn key_size(key: &TopicPartition) -> u64
    ensures size { result ≡ length (key_text key.now) }
    ensures bound { result ≤ KEY_BYTES_MAX }
{
    let topic = key.topic.as_bytes();
    KEY_FIXED_BYTES + topic.len() as u64
}

#[tactic(auto, using(crate::proofs::TextLens::entry_len))]
fn entry_size(entry: &Entry) -> u64
    ensures size { result ≡ length (entry_text entry.now) }
    ensures bound { result ≤ BARE_ENTRY_BYTES_MAX + length entry.now.metadata }
    ensures short { length entry.now.metadata ≤ METADATA_BYTES_MAX }
{
    let metadata = entry.metadata.as_bytes();
    ENTRY_FIXED_BYTES + key_size(&entry.key) + metadata.len() as u64
}

fn entries_size(entries: &[Entry]) -> u64
    requires { length entries.now ≤ ENTRIES_MAX }
    ensures size { result ≡ length (flat_map entry_text entries.now) }
    ensures bound { result ≤ length entries.now * BARE_ENTRY_BYTES_MAX + metadata_bytes entries.now }
{
    let mut total = 0u64;
    for entry in entries {
        total += entry_size(entry);
    }
    total
}

fn partitions_size(partitions: &[TopicPartition]) -> u64
    requires { length partitions.now ≤ ENTRIES_MAX }
    ensures size { result ≡ length (flat_map key_text partitions.now) }
    ensures bound { result ≤ ENTRIES_MAX * KEY_BYTES_MAX }
{
    let mut total = 0u64;
    for partition in partitions {
        total += key_size(partition);
    }
    total
}

#[tactic(auto, using(crate::proofs::TextLens::unknown_len, crate::proofs::TextLens::known_len))]
fn moment_size(moment: Option<Moment>) -> u64
    ensures size { result ≡ length (moment_text newest moment) }
    ensures bound { result ≤ MOMENT_BYTES_MAX }
{
    match moment {
        None => UNKNOWN_MOMENT_BYTES,
        Some(_) => MOMENT_BYTES_MAX,
    }
}

#[tactic(auto, using(crate::proofs::TextLens::committed_len, cg_names::proofs::Names::length_from_name))]
fn committed_size(committed: &Committed) -> u64
    ensures size { result ≡ length (committed_text newest committed.now) }
    ensures bound { result ≤ COMMITTED_BYTES_MAX }
{
    let group = committed.group.as_bytes();
    let entries = committed.entries.as_slice();
    let group_size = 1 + group.len() as u64;
    group_size + moment_size(committed.moment) + COUNT_BYTES + entries_size(entries)
}

#[tactic(auto, using(crate::proofs::TextLens::removal_len, cg_names::proofs::Names::length_from_name))]
fn removal_size(group: &GroupId, partitions: &Partitions) -> u64
    ensures size { result ≡ length (removal_text newest group.now partitions.now) }
    ensures bound { result ≤ COMMITTED_BYTES_MAX }
{
    let group = group.as_bytes();
    let partitions = partitions.as_slice();
    let group_size = 1 + group.len() as u64;
    group_size + COUNT_BYTES + partitions_size(partitions)
}

#[tactic(auto, using(crate::proofs::TextLens::emptied_len, cg_names::proofs::Names::length_from_name))]
fn emptied_size(emptied: &Emptied) -> u64
    ensures size { result ≡ length (emptied_text newest emptied.now) }
    ensures bound { result ≤ ASSIGNED_BYTES_MAX }
{
    let group = emptied.group.as_bytes();
    let kind = emptied.kind.as_bytes();
    GROUP_FIXED_BYTES + group.len() as u64 + kind.len() as u64 + moment_size(emptied.moment)
}

fn instance_size(instance: &Option<InstanceId>) -> u64
    ensures size { result ≡ length (optional_text instance.now) }
    ensures bound { result ≤ NAME_FIELD_BYTES_MAX }
{
    match instance {
        None => 1,
        Some(name) => 1 + name_size(name),
    }
}

#[tactic(auto, using(cg_names::proofs::Names::length_from_name))]
fn name_size(name: &InstanceId) -> u64
    ensures size { result ≡ length name.now }
    ensures bound { result ≤ NAME_BYTES_MAX }
{
    let bytes = name.as_bytes();
    bytes.len() as u64
}

#[tactic(auto, using(crate::proofs::TextLens::member_len, cg_names::proofs::Names::length_from_name))]
fn member_size(member: &MemberRecord) -> u64
    ensures size { result ≡ length (member_text member.now) }
    ensures bound { result ≤ MEMBER_BYTES_MAX }
{
    let id = member.id.as_bytes();
    let client = member.client.as_bytes();
    let subscription = member.subscription.as_bytes();
    let assignment = member.assignment.as_bytes();
    let names = id.len() as u64 + instance_size(&member.instance) + client.len() as u64;
    let texts = subscription.len() as u64 + assignment.len() as u64;
    MEMBER_FIXED_BYTES + names + texts
}

fn members_size(members: &[MemberRecord]) -> u64
    requires { length members.now ≤ MEMBERS_MAX }
    ensures size { result ≡ length (flat_map member_text members.now) }
    ensures bound { result ≤ MEMBERS_MAX * MEMBER_BYTES_MAX }
{
    let mut total = 0u64;
    for member in members {
        total += member_size(member);
    }
    total
}

#[tactic(auto, using(crate::proofs::TextLens::roster_len, cg_names::proofs::Names::length_from_name))]
fn roster_size(roster: &Roster) -> u64
    ensures size { result ≡ length (roster_text roster.now) }
    ensures bound { result ≤ ROSTER_BYTES_MAX }
{
    let protocol = roster.protocol().as_bytes();
    let leader = roster.leader().as_bytes();
    let members = roster.members();
    ROSTER_FIXED_BYTES + protocol.len() as u64 + leader.len() as u64 + members_size(members)
}

#[tactic(auto, using(crate::proofs::TextLens::assigned_len, cg_names::proofs::Names::length_from_name))]
fn assigned_size(assigned: &Assigned) -> u64
    ensures size { result ≡ length (assigned_text assigned.now) }
    ensures bound { result ≤ ASSIGNED_BYTES_MAX }
{
    let group = assigned.group.as_bytes();
    let kind = assigned.kind.as_bytes();
    GROUP_FIXED_BYTES + group.len() as u64 + kind.len() as u64 + roster_size(&assigned.roster)
}

#[tactic(auto, using(crate::proofs::TextLens::replaced_len, cg_names::proofs::Names::length_from_name))]
fn replaced_size(replaced: &Replaced) -> u64
    ensures size { result ≡ length (replaced_text replaced.now) }
    ensures bound { result ≤ NAME_FIELD_BYTES_MAX + MEMBER_BYTES_MAX }
{
    let group = replaced.group.as_bytes();
    1 + group.len() as u64 + member_size(replaced.member.member())
}

#[tactic(auto, unfolding(crate::specs::Spelling::deleted_text), using(cg_names::proofs::Names::length_from_name))]
fn deleted_size(deleted: &Deleted) -> u64
    ensures size { result ≡ length (deleted_text deleted.now) }
    ensures bound { result ≤ NAME_FIELD_BYTES_MAX }
{
    let group = deleted.group.as_bytes();
    1 + group.len() as u64
}

/// Returns the number of bytes of the encoded command. Linear in its members or entries, no allocation.
#[tactic(auto, unfolding(crate::specs::Spelling::command_bytes))]
pub fn size(command: &Command) -> u64
    ensures size { result ≡ length (command_text command.now) }
    ensures bound { result ≤ COMMAND_BYTES_MAX }
{
    match command {
        Command::Assigned(assigned) => 1 + assigned_size(assigned),
        Command::Emptied(emptied) => 1 + emptied_size(emptied),
        Command::Replaced(replaced) => 1 + replaced_size(replaced),
        Command::Committed(committed) => 1 + committed_size(committed),
        Command::Deleted(deleted) => 1 + deleted_size(deleted),
        Command::Expired(expired) => 1 + removal_size(&expired.group, &expired.partitions),
        Command::Dropped(dropped) => 1 + removal_size(&dropped.group, &dropped.partitions),
    }
}
