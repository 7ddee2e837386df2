//! The decoder that builds the commands about groups and members, in one pass over the bytes.

ghost use Rattle.std.specs.Prelude.{◌≡◌, [], length, IfOk};
ghost use Rattle.std.specs.List.{list_any};
ghost use Rattle.std.specs.Option.{option_copied};
ghost use Rattle.cg_record.specs.Rosters.{AreApart, AreMembers, has_instance, is_one_instance};
ghost use Rattle.cg_record.specs.Members.{member_at};
ghost use Rattle.cg_record.specs.Reading.{Builds, members_at, listed_at, roster_at, assigned_at, emptied_at, replaced_at, deleted_at};

use crate::assigned::Assigned;
use crate::completed_generation::CompletedGeneration;
use crate::deleted::Deleted;
use crate::emptied::Emptied;
use crate::fault::RecordFault;
use crate::fields::{name_at, optional_name_at};
use crate::format::Version;
use crate::group_fields::{generation_at, members_count_at};
use crate::member_record::MemberRecord;
use crate::moment_field::{moment_at, moment_of};
use crate::owned_fields::member_of;
use crate::profile::profile_at;
use crate::replaced::{Replaced, StaticMember};
use crate::roster::{Roster, is_led_by};
use cg_names::{InstanceId, MEMBER_ID_BYTES_MAX, NAME_BYTES_MAX, Name};
use std::alloc::Global;

// Returns whether both instances are given, and are equal.
fn is_one_instance(held: &Option<InstanceId>, instance: Option<&[u8]>) -> bool
    ensures { result ≡ is_one_instance held.now (option_copied instance.entry) }
{
    match (held, instance) {
        (Some(a), Some(b)) => a.as_bytes() == b,
        _ => false,
    }
}

// Returns whether an instance is given and one of the members has it. Linear in the members.
fn is_instance_taken(front: &[MemberRecord], instance: Option<&[u8]>) -> bool
    ensures { result ≡ list_any (has_instance (option_copied instance.entry)) front.now }
{
    front.iter().any(|m| is_one_instance(&m.instance, instance))
}

// Decodes the next member of a group. Reports `Repeated` if a member of `front` has the same id or instance.
#[tactic(auto, unfolding(crate::specs::Members::member_at))]
fn member_at<'a>(
    alloc: Global,
    front: &[MemberRecord],
    bytes: &'a [u8],
) -> Result<(MemberRecord, &'a [u8]), RecordFault>
    ensures { Builds (λ x. (x.0, x.1.now)) result (member_at front.now bytes.now) }
{
    let (id, rest) = name_at::<MEMBER_ID_BYTES_MAX>(bytes)?;
    if is_led_by(id, front) {
        return Err(RecordFault::Repeated);
    }
    let (instance, rest) = optional_name_at::<NAME_BYTES_MAX>(rest)?;
    if is_instance_taken(front, instance) {
        return Err(RecordFault::Repeated);
    }
    let (fields, rest) = profile_at(rest)?;
    let member = member_of(alloc, id, instance, fields)?;
    Ok((member, rest))
}

// Decodes this many members.
#[tactic(auto, using(crate::proofs::Steps::many_on, crate::proofs::Steps::many_fail, crate::proofs::Steps::many_end))]
fn members_at<'a>(
    alloc: Global,
    count: u8,
    bytes: &'a [u8],
) -> Result<(Vec<MemberRecord>, &'a [u8]), RecordFault>
    ensures builds { Builds (λ x. (x.0.items, x.1.now)) result (members_at count [] bytes.now) }
    ensures len { IfOk result (λ x. length x.0.items ≡ count) }
    ensures distinct { IfOk result (λ x. AreApart x.0.items) }
{
    let mut members = Vec::with_capacity(alloc, count as usize)?;
    let mut rest = bytes;
    for _ in 0..count {
        let (member, after) = member_at(alloc, members.as_slice(), rest)?;
        members.push(member)?;
        rest = after;
    }
    Ok((members, rest))
}

// Decodes the number of members and the members.
#[tactic(auto, unfolding(crate::specs::Reading::listed_at))]
fn listed_at(alloc: Global, bytes: &[u8]) -> Result<(Vec<MemberRecord>, &[u8]), RecordFault>
    ensures builds { Builds (λ x. (x.0.items, x.1.now)) result (listed_at bytes.now) }
    ensures lawful { IfOk result (λ x. AreMembers x.0.items) }
{
    let (count, rest) = members_count_at(bytes)?;
    let (members, rest) = members_at(alloc, count, rest)?;
    Ok((members, rest))
}

#[tactic(auto, unfolding(crate::specs::Reading::roster_at))]
fn roster_at(alloc: Global, bytes: &[u8]) -> Result<(Roster, &[u8]), RecordFault>
    ensures { Builds (λ x. (x.0, x.1.now)) result (roster_at bytes.now) }
{
    let (protocol, rest) = name_at::<NAME_BYTES_MAX>(bytes)?;
    let (leader, rest) = name_at::<MEMBER_ID_BYTES_MAX>(rest)?;
    let (members, rest) = listed_at(alloc, rest)?;
    if !is_led_by(leader, members.as_slice()) {
        return Err(RecordFault::BadName);
    }
    let protocol = Name::from_lawful(alloc, protocol)?;
    let leader = Name::from_lawful(alloc, leader)?;
    Ok((Roster::from_lawful(protocol, leader, members), rest))
}

/// Decodes the fields of an `Assigned`, after its kind byte.
#[tactic(auto, unfolding(crate::specs::Reading::assigned_at))]
pub fn assigned_at(alloc: Global, bytes: &[u8]) -> Result<(Assigned, &[u8]), RecordFault>
    ensures { Builds (λ x. (x.0, x.1.now)) result (assigned_at bytes.now) }
{
    let (group, rest) = name_at::<NAME_BYTES_MAX>(bytes)?;
    let (generation, rest) = generation_at(rest)?;
    let (kind, rest) = name_at::<NAME_BYTES_MAX>(rest)?;
    let (roster, rest) = roster_at(alloc, rest)?;
    let generation = CompletedGeneration::new(generation).unwrap();
    let group = Name::from_lawful(alloc, group)?;
    let kind = Name::from_lawful(alloc, kind)?;
    Ok((
        Assigned {
            group,
            generation,
            kind,
            roster,
        },
        rest,
    ))
}

/// Decodes the fields of an `Emptied`, after its kind byte.
#[tactic(auto, unfolding(crate::specs::Reading::emptied_at))]
pub fn emptied_at(
    alloc: Global,
    version: Version,
    bytes: &[u8],
) -> Result<(Emptied, &[u8]), RecordFault>
    ensures { Builds (λ x. (x.0, x.1.now)) result (emptied_at version bytes.now) }
{
    let (group, rest) = name_at::<NAME_BYTES_MAX>(bytes)?;
    let (generation, rest) = generation_at(rest)?;
    let (kind, rest) = name_at::<NAME_BYTES_MAX>(rest)?;
    let (millis, rest) = moment_at(version, rest)?;
    let generation = CompletedGeneration::new(generation).unwrap();
    let group = Name::from_lawful(alloc, group)?;
    let kind = Name::from_lawful(alloc, kind)?;
    Ok((
        Emptied {
            group,
            generation,
            kind,
            moment: moment_of(millis),
        },
        rest,
    ))
}

/// Decodes the fields of a `Deleted`, after its kind byte.
#[tactic(auto, unfolding(crate::specs::Reading::deleted_at))]
pub fn deleted_at(alloc: Global, bytes: &[u8]) -> Result<(Deleted, &[u8]), RecordFault>
    ensures { Builds (λ x. (x.0, x.1.now)) result (deleted_at bytes.now) }
{
    let (group, rest) = name_at::<NAME_BYTES_MAX>(bytes)?;
    let group = Name::from_lawful(alloc, group)?;
    Ok((Deleted { group }, rest))
}

/// Decodes the fields of a `Replaced`, after its kind byte.
#[tactic(auto, unfolding(crate::specs::Reading::replaced_at))]
pub fn replaced_at(alloc: Global, bytes: &[u8]) -> Result<(Replaced, &[u8]), RecordFault>
    ensures { Builds (λ x. (x.0, x.1.now)) result (replaced_at bytes.now) }
{
    let (group, rest) = name_at::<NAME_BYTES_MAX>(bytes)?;
    let (id, rest) = name_at::<MEMBER_ID_BYTES_MAX>(rest)?;
    let (instance, rest) = name_at::<NAME_BYTES_MAX>(rest)?;
    let (fields, rest) = profile_at(rest)?;
    let group = Name::from_lawful(alloc, group)?;
    let member = member_of(alloc, id, Some(instance), fields)?;
    let member = StaticMember::from_lawful(member);
    Ok((Replaced { group, member }, rest))
}
