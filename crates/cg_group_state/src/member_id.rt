//! Member ids of new members.
ghost use Rattle.std.specs.Prelude.{◌≡◌, ◌∷◌, ◌++◌, find, is_some, IfOk};
ghost use Rattle.std.specs.Option.{option_copied};
ghost use Rattle.cg_names.specs.Grammar.{IsName};
ghost use Rattle.cg_names.specs.declared.name.TheConstants.{MEMBER_ID_BYTES_MAX, NAME_BYTES_MAX};
ghost use Rattle.cg_group_state.specs.MemberId.{drawn, own_name};
ghost use Rattle.cg_group_state.specs.Membership.{find_member, is_same};

use crate::member::Member;
use crate::members::Members;
use cg_names::{MemberId, NameFault};
use cg_request::JoinRequest;
use std::alloc::{AllocError, Global};
use uuid::Uuid;

// The contract leaves an allocation failure as the only error, so the other faults are unreachable.
fn member_id(alloc: Global, bytes: &[u8]) -> Result<MemberId, AllocError>
    requires { IsName MEMBER_ID_BYTES_MAX bytes.now }
    ensures { IfOk result (λ id. id ≡ bytes.now) }
{
    match MemberId::from_bytes(alloc, bytes) {
        Ok(id) => Ok(id),
        Err(NameFault::Memory) => Err(AllocError),
        Err(NameFault::Empty | NameFault::TooLong | NameFault::BadByte | NameFault::Reserved) =>
            unreachable!(),
    }
}

#[tactic(auto, unfolding(crate::specs::MemberId::drawn))]
fn drawn_bytes(alloc: Global, name: &[u8], fresh: Uuid) -> Result<Vec<u8>, AllocError>
    ensures { IfOk result (λ bytes. bytes.items ≡ drawn name.now fresh) }
{
    let mut buffer = Uuid::encode_buffer();
    let text = fresh.hyphenated().encode_lower(&mut buffer);
    let mut bytes = Vec::from_slice(alloc, name)?;
    bytes.push(b'-')?;
    bytes.extend_from_slice(text.as_bytes())?;
    Ok(bytes)
}

fn own_name(r: &JoinRequest) -> &[u8]
    ensures value { result.now ≡ own_name r.now }
    ensures name { IsName NAME_BYTES_MAX result.now }
{
    match &r.instance {
        None => r.client.as_bytes(),
        Some(instance) => instance.as_bytes(),
    }
}

/// Returns the id of a new member: its instance id or else its client id, `-`, and the UUID in lower case.
pub fn drawn(alloc: Global, r: &JoinRequest, fresh: Uuid) -> Result<MemberId, AllocError>
    ensures { IfOk result (λ id. id ≡ drawn (own_name r.now) fresh) }
{
    let bytes = drawn_bytes(alloc, own_name(r), fresh)?;
    let id = member_id(alloc, bytes.as_slice())?;
    Ok(id)
}

// Returns whether the bytes are this name, `-` and this text.
fn is_joined_of(bytes: &[u8], name: &[u8], text: &[u8]) -> bool
    ensures { result ≡ is_same bytes.now (name.now ++ 45 ∷ text.now) }
{
    match name {
        [] => match bytes {
            [] => false,
            [first, rest @ ..] => *first == b'-' && rest == text,
        },
        [own, name @ ..] => match bytes {
            [] => false,
            [first, rest @ ..] => *first == *own && is_joined_of(rest, name, text),
        },
    }
}

fn found_among<'a>(members: &'a [Member], name: &[u8], text: &[u8]) -> Option<&'a Member>
    ensures { option_copied result ≡ find (λ m. is_same m.id (name.now ++ 45 ∷ text.now)) members.now }
{
    members
        .iter()
        .find(|m| is_joined_of(m.id.as_bytes(), name, text))
}

/// Returns whether a member has the id that would be drawn. Linear in the members, no allocation.
#[tactic(auto, unfolding(crate::specs::MemberId::drawn, crate::specs::Membership::find_member))]
pub fn is_drawn_held(r: &JoinRequest, fresh: Uuid, members: &Members) -> bool
    ensures { result ≡ is_some (find_member (drawn (own_name r.now) fresh) members.now) }
{
    let mut buffer = Uuid::encode_buffer();
    let text = fresh.hyphenated().encode_lower(&mut buffer);
    found_among(members.as_slice(), own_name(r), text.as_bytes()).is_some()
}
