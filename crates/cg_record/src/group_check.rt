//! The check of group commands without an allocation: earlier fields are re-read from the bytes when needed.

ghost use Rattle.std.specs.Prelude.{◌≡◌, ℕ, List, [], Ok, IsSomeAnd};
ghost use Rattle.std.specs.List.{list_any};
ghost use Rattle.std.specs.Option.{option_copied};
ghost use Rattle.std.specs.Str.{bytes_eq};
ghost use Rattle.cg_record.specs.declared.member_record.MemberRecord.{MemberRecord};
ghost use Rattle.cg_record.specs.Rosters.{has_id, has_instance, is_one_instance};
ghost use Rattle.cg_record.specs.Members.{member_at};
ghost use Rattle.cg_record.specs.Reading.{Skips, members_at, roster_at, assigned_at, emptied_at, replaced_at, deleted_at};

use crate::fault::RecordFault;
use crate::fields::{name_at, optional_name_at};
use crate::format::Version;
use crate::group_fields::{generation_at, members_count_at};
use crate::moment_field::moment_at;
use crate::profile::profile_at;
use cg_names::{MEMBER_ID_BYTES_MAX, NAME_BYTES_MAX};

// The id and instance of a member, borrowed from the bytes.
#[derive(Clone, Copy)]
struct Names<'a> {
    id: &'a [u8],
    instance: Option<&'a [u8]>,
}

// Decodes the id and instance of a member again, and returns the bytes after the member.
#[tactic(auto, unfolding(crate::specs::Members::member_at))]
fn read_again(bytes: &[u8]) -> Option<(Names<'_>, &[u8])>
    ensures { (front : List MemberRecord) (m : MemberRecord) (after : List ℕ) → member_at front bytes.now ≡ Ok (m, after) →
        IsSomeAnd result (λ x. (x.0.id.now ≡ m.id) × (option_copied x.0.instance ≡ m.instance) × (x.1.now ≡ after)) }
{
    let (id, rest) = name_at::<MEMBER_ID_BYTES_MAX>(bytes).ok()?;
    let (instance, rest) = optional_name_at::<NAME_BYTES_MAX>(rest).ok()?;
    let (_, rest) = profile_at(rest).ok()?;
    Some((Names { id, instance }, rest))
}

fn is_same_id(id: &[u8], other: &[u8]) -> bool
    ensures { result ≡ bytes_eq id.now other.now }
{
    id == other
}

// Returns whether both instances are given, and are equal.
fn is_one_instance(a: Option<&[u8]>, b: Option<&[u8]>) -> bool
    ensures { result ≡ is_one_instance (option_copied a.entry) (option_copied b.entry) }
{
    match (a, b) {
        (Some(a), Some(b)) => a == b,
        _ => false,
    }
}

// Returns whether one of the first `count` members from `start` has this id. Decodes them again.
fn is_id_repeated(start: &[u8], count: u8, id: &[u8]) -> bool
    ensures { (front : List MemberRecord) (rest : List ℕ) → members_at count [] start.now ≡ Ok (front, rest) →
        result ≡ list_any (has_id id.now) front }
{
    let mut rest = start;
    for _ in 0..count {
        match read_again(rest) {
            None => return false,
            Some((names, after)) => {
                if is_same_id(names.id, id) {
                    return true;
                }
                rest = after;
            }
        }
    }
    false
}

// Returns whether an instance is given and one of the first `count` members from `start` has it. Decodes them again.
fn is_instance_repeated(start: &[u8], count: u8, instance: Option<&[u8]>) -> bool
    ensures { (front : List MemberRecord) (rest : List ℕ) → members_at count [] start.now ≡ Ok (front, rest) →
        result ≡ list_any (has_instance (option_copied instance.entry)) front }
{
    let mut rest = start;
    for _ in 0..count {
        match read_again(rest) {
            None => return false,
            Some((names, after)) => {
                if is_one_instance(names.instance, instance) {
                    return true;
                }
                rest = after;
            }
        }
    }
    false
}

// Checks the next member, after the first `count` members from `start`. Returns the bytes after it.
#[tactic(auto, unfolding(crate::specs::Members::member_at))]
fn check_member<'a>(start: &[u8], count: u8, bytes: &'a [u8]) -> Result<&'a [u8], RecordFault>
    ensures { (front : List MemberRecord) → members_at count [] start.now ≡ Ok (front, bytes.now) →
        Skips (λ rest. rest.now) result (member_at front bytes.now) }
{
    let (id, rest) = name_at::<MEMBER_ID_BYTES_MAX>(bytes)?;
    if is_id_repeated(start, count, id) {
        return Err(RecordFault::Repeated);
    }
    let (instance, rest) = optional_name_at::<NAME_BYTES_MAX>(rest)?;
    if is_instance_repeated(start, count, instance) {
        return Err(RecordFault::Repeated);
    }
    let (_, rest) = profile_at(rest)?;
    Ok(rest)
}

// Checks this many members. Quadratic in their number, which is at most 64.
#[tactic(auto, using(crate::proofs::Again::checked_start, crate::proofs::Again::checked_on, crate::proofs::Again::checked_fail, crate::proofs::Again::checked_end))]
fn check_members(count: u8, bytes: &[u8]) -> Result<&[u8], RecordFault>
    ensures { Skips (λ rest. rest.now) result (members_at count [] bytes.now) }
{
    let mut rest = bytes;
    for i in 0..count {
        rest = check_member(bytes, i, rest)?;
    }
    Ok(rest)
}

// Checks the protocol, the leader and the members, of whom one has to be the leader.
#[tactic(auto, unfolding(crate::specs::Reading::roster_at, crate::specs::Reading::listed_at))]
fn check_roster(bytes: &[u8]) -> Result<&[u8], RecordFault>
    ensures { Skips (λ rest. rest.now) result (roster_at bytes.now) }
{
    let (_, rest) = name_at::<NAME_BYTES_MAX>(bytes)?;
    let (leader, rest) = name_at::<MEMBER_ID_BYTES_MAX>(rest)?;
    let (count, members) = members_count_at(rest)?;
    let rest = check_members(count, members)?;
    if is_id_repeated(members, count, leader) {
        Ok(rest)
    } else {
        Err(RecordFault::BadName)
    }
}

/// Checks the fields of an `Assigned`, after its kind byte. Returns the bytes after them.
#[tactic(auto, unfolding(crate::specs::Reading::assigned_at))]
pub fn check_assigned(bytes: &[u8]) -> Result<&[u8], RecordFault>
    ensures { Skips (λ rest. rest.now) result (assigned_at bytes.now) }
{
    let (_, rest) = name_at::<NAME_BYTES_MAX>(bytes)?;
    let (_, rest) = generation_at(rest)?;
    let (_, rest) = name_at::<NAME_BYTES_MAX>(rest)?;
    let rest = check_roster(rest)?;
    Ok(rest)
}

/// Checks the fields of an `Emptied`, after its kind byte. Returns the bytes after them.
#[tactic(auto, unfolding(crate::specs::Reading::emptied_at))]
pub fn check_emptied(version: Version, bytes: &[u8]) -> Result<&[u8], RecordFault>
    ensures { Skips (λ rest. rest.now) result (emptied_at version bytes.now) }
{
    let (_, rest) = name_at::<NAME_BYTES_MAX>(bytes)?;
    let (_, rest) = generation_at(rest)?;
    let (_, rest) = name_at::<NAME_BYTES_MAX>(rest)?;
    let (_, rest) = moment_at(version, rest)?;
    Ok(rest)
}

/// Checks the fields of a `Deleted`, after its kind byte. Returns the bytes after them.
#[tactic(auto, unfolding(crate::specs::Reading::deleted_at))]
pub fn check_deleted(bytes: &[u8]) -> Result<&[u8], RecordFault>
    ensures { Skips (λ rest. rest.now) result (deleted_at bytes.now) }
{
    let (_, rest) = name_at::<NAME_BYTES_MAX>(bytes)?;
    Ok(rest)
}

/// Checks the fields of a `Replaced`, after its kind byte. Returns the bytes after them.
#[tactic(auto, unfolding(crate::specs::Reading::replaced_at))]
pub fn check_replaced(bytes: &[u8]) -> Result<&[u8], RecordFault>
    ensures { Skips (λ rest. rest.now) result (replaced_at bytes.now) }
{
    let (_, rest) = name_at::<NAME_BYTES_MAX>(bytes)?;
    let (_, rest) = name_at::<MEMBER_ID_BYTES_MAX>(rest)?;
    let (_, rest) = name_at::<NAME_BYTES_MAX>(rest)?;
    let (_, rest) = profile_at(rest)?;
    Ok(rest)
}
