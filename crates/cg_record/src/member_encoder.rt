//! The encoder of members.

ghost use Rattle.std.specs.Prelude.{◌≡◌, ◌≤◌, ◌++◌, length, OnErr, OnOk, IfSome};
ghost use Rattle.std.specs.Io.{StartsWith};
ghost use Rattle.std.specs.List.{flat_map, AllByRecursion};
ghost use Rattle.cg_names.specs.Grammar.{IsName};
ghost use Rattle.cg_record.specs.Lawful.{IsJoined};
ghost use Rattle.cg_record.specs.Spelling.{bytes_text, optional_text, roster_text};
ghost use Rattle.cg_record.specs.Members.{IsMember, IsProfile, profile_text, profile_of, member_text};

use crate::encoder::{put_four, put_name, put_short_name};
use crate::member_record::MemberRecord;
use crate::opaque::Opaque;
use crate::roster::Roster;
use cg_names::{InstanceId, NAME_BYTES_MAX};
use std::alloc::AllocError;

fn put_instance(out: &mut Vec<u8>, instance: &Option<InstanceId>) -> Result<(), AllocError>
    ensures ok { OnOk result (out.new.items ≡ out.old.items ++ optional_text instance.now) }
    ensures err { OnErr result (StartsWith out.new.items out.old.items) }
    ensures lawful { OnOk result (IfSome instance.now (IsName NAME_BYTES_MAX)) }
{
    match instance {
        None => out.push(0)?,
        Some(name) => put_name(out, name)?,
    }
    Ok(())
}

#[tactic(auto, using(crate::proofs::Kept::front_kept))]
fn put_opaque<const MAX: usize, const SORT: u8>(
    out: &mut Vec<u8>,
    opaque: &Opaque<MAX, SORT>,
) -> Result<(), AllocError>
    requires { MAX ≤ 4_096 }
    ensures ok { OnOk result (out.new.items ≡ out.old.items ++ bytes_text opaque.now) }
    ensures err { OnErr result (StartsWith out.new.items out.old.items) }
    ensures lawful { length opaque.now ≤ MAX }
{
    let bytes = opaque.as_bytes();
    put_four(out, bytes.len() as u32)?;
    out.extend_from_slice(bytes)?;
    Ok(())
}

#[tactic(auto, using(crate::proofs::Kept::front_kept), unfolding(crate::specs::Members::profile_text))]
fn put_profile(out: &mut Vec<u8>, member: &MemberRecord) -> Result<(), AllocError>
    ensures ok { OnOk result (out.new.items ≡ out.old.items ++ profile_text (profile_of member.now)) }
    ensures err { OnErr result (StartsWith out.new.items out.old.items) }
    ensures lawful { OnOk result (IsProfile (profile_of member.now)) }
{
    put_short_name(out, &member.client)?;
    put_four(out, member.session.get())?;
    put_four(out, member.rebalance.get())?;
    put_opaque(out, &member.subscription)?;
    put_opaque(out, &member.assignment)?;
    Ok(())
}

/// Appends the encoding of a member. If an allocation fails, a part of it may have been appended.
#[tactic(auto, using(crate::proofs::Kept::front_kept), unfolding(crate::specs::Members::member_text))]
pub fn put_member(out: &mut Vec<u8>, member: &MemberRecord) -> Result<(), AllocError>
    ensures ok { OnOk result (out.new.items ≡ out.old.items ++ member_text member.now) }
    ensures err { OnErr result (StartsWith out.new.items out.old.items) }
    ensures lawful { OnOk result (IsMember member.now) }
{
    put_name(out, &member.id)?;
    put_instance(out, &member.instance)?;
    put_profile(out, member)?;
    Ok(())
}

#[tactic(auto, using(crate::proofs::Kept::front_kept))]
fn put_members(out: &mut Vec<u8>, members: &[MemberRecord]) -> Result<(), AllocError>
    ensures ok { OnOk result (out.new.items ≡ out.old.items ++ flat_map member_text members.now) }
    ensures err { OnErr result (StartsWith out.new.items out.old.items) }
    ensures lawful { OnOk result (AllByRecursion IsMember members.now) }
{
    for member in members {
        put_member(out, member)?;
    }
    Ok(())
}

/// Appends the encoding of a roster. If an allocation fails, a part of it may have been appended.
#[tactic(auto, using(crate::proofs::Kept::front_kept), unfolding(crate::specs::Spelling::roster_text))]
pub fn put_roster(out: &mut Vec<u8>, roster: &Roster) -> Result<(), AllocError>
    ensures ok { OnOk result (out.new.items ≡ out.old.items ++ roster_text roster.now) }
    ensures err { OnErr result (StartsWith out.new.items out.old.items) }
    ensures lawful { OnOk result (IsJoined roster.now) }
{
    let members = roster.members();
    put_name(out, roster.protocol())?;
    put_name(out, roster.leader())?;
    out.push(members.len() as u8)?;
    put_members(out, members)?;
    Ok(())
}
