//! The member check (KIP-345, fencing): the caller is a member of the group, and no other member has taken its
//! instance.
ghost use Rattle.std.specs.Prelude.{◌≡◌, Ok, Err, Some, IfOk, MatchResult, ok_or, option_map};
ghost use Rattle.cg_names.specs.declared.code.Code.TheVariants.{UnknownMemberId};
ghost use Rattle.cg_group_state.specs.MemberCheck.{fencing, validate_current_member};
ghost use Rattle.cg_group_state.specs.Membership.{find_member, is_named};

use crate::member::Member;
use crate::members::Members;
use cg_names::{Code, InstanceId, MemberId};

fn is_named(given: &Option<MemberId>, id: &MemberId) -> bool
    ensures { result ≡ is_named given.now id.now }
{
    match given {
        None => false,
        Some(given) => *given == *id,
    }
}

#[tactic(auto, unfolding(crate::specs::MemberCheck::fencing))]
fn fencing(
    instance: &Option<InstanceId>,
    member: &Option<MemberId>,
    members: &Members,
) -> Result<(), Code>
    ensures { result ≡ fencing instance.now member.now members.now }
{
    if instance.is_none() {
        return Ok(());
    }
    let Some(own) = members.find_instance(instance) else {
        return Err(Code::UnknownMemberId);
    };
    if is_named(member, &own.id) {
        Ok(())
    } else {
        Err(Code::FencedInstanceId)
    }
}

/// Returns the id of the caller, by the instance and the id in the request: the member check passes if a member has this id.
/// Reads the members only if an instance is given.
#[tactic(auto, unfolding(crate::specs::MemberCheck::validate_current_member))]
pub fn fenced_caller<'a>(
    instance: &Option<InstanceId>,
    member: &'a Option<MemberId>,
    members: &Members,
) -> Result<&'a MemberId, Code>
    ensures { MatchResult result
        (λ id. validate_current_member instance.now member.now members.now ≡ ok_or (option_map (λ m. (id.now, m)) (find_member id.now members.now)) UnknownMemberId)
        (λ code. validate_current_member instance.now member.now members.now ≡ Err code) }
{
    fencing(instance, member, members)?;
    let Some(id) = member else {
        return Err(Code::UnknownMemberId);
    };
    Ok(id)
}

/// Returns the calling member and its id, by the instance and the id in the request. Linear in the members, no
/// allocation.
#[tactic(auto, unfolding(crate::specs::MemberCheck::validate_current_member))]
pub fn checked_member<'a, 'b>(
    instance: &Option<InstanceId>,
    member: &'a Option<MemberId>,
    members: &'b Members,
) -> Result<(&'a MemberId, &'b Member), Code>
    ensures check { MatchResult result
        (λ who. validate_current_member instance.now member.now members.now ≡ Ok (who.0.now, who.1.now))
        (λ code. validate_current_member instance.now member.now members.now ≡ Err code) }
    ensures found { IfOk result (λ who. find_member who.0.now members.now ≡ Some who.1.now) }
{
    let id = fenced_caller(instance, member, members)?;
    match members.find(id) {
        None => Err(Code::UnknownMemberId),
        Some(own) => Ok((id, own)),
    }
}
