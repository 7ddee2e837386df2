//! The description of a group, as DESCRIBE (DescribeGroups request) returns it.
ghost use Rattle.std.specs.Prelude.{◌≡◌, [], IfOk, map, if◌then◌else◌};
ghost use Rattle.cg_group_state.specs.Membership.{is_stable};
ghost use Rattle.cg_group_table.specs.Describe.{shown_protocol, shown_member, description};
ghost use Rattle.cg_group_rules.specs.Rebalance.{subscription_for};

use cg_group_rules::subscription_for;
use cg_group_state::{Described, DescribedMember, Group, Member, Phase, copied_name};
use cg_names::ProtocolName;
use cg_record::{Assignment, Subscription};
use cg_request::Listed;
use std::alloc::{AllocError, Global};

fn shown_subscription(
    alloc: Global,
    group: &Group,
    member: &Member,
) -> Result<Subscription, AllocError>
    ensures { IfOk result
        (λ bytes. bytes ≡ (if is_stable group.now.phase then subscription_for group.now.protocol member.now.protocols else [])) }
{
    match group.phase {
        Phase::Stable => {
            let bytes = subscription_for(alloc, &group.protocol, member.protocols.as_slice())?;
            Ok(bytes)
        }
        _ => Ok(Subscription::empty(alloc)),
    }
}

fn shown_assignment(alloc: Global, group: &Group, member: &Member) -> Result<Assignment, AllocError>
    ensures { IfOk result
        (λ bytes. bytes ≡ (if is_stable group.now.phase then member.now.assignment else [])) }
{
    match group.phase {
        Phase::Stable => {
            let bytes = member.assignment.clone()?;
            Ok(bytes)
        }
        _ => Ok(Assignment::empty(alloc)),
    }
}

fn shown_protocol(group: &Group) -> Result<Option<ProtocolName>, AllocError>
    ensures { IfOk result (λ name. name ≡ shown_protocol group.now) }
{
    match group.phase {
        Phase::Stable => {
            let name = copied_name(&group.protocol)?;
            Ok(name)
        }
        _ => Ok(None),
    }
}

#[tactic(auto, unfolding(crate::specs::Describe::shown_member))]
fn shown_member(
    alloc: Global,
    group: &Group,
    member: &Member,
) -> Result<DescribedMember, AllocError>
    ensures { IfOk result (λ m. m ≡ shown_member group.now member.now) }
{
    let id = member.id.clone()?;
    let instance = copied_name(&member.instance)?;
    let client = member.client.clone()?;
    let subscription = shown_subscription(alloc, group, member)?;
    let assignment = shown_assignment(alloc, group, member)?;
    Ok(DescribedMember {
        id,
        instance,
        client,
        subscription,
        assignment,
    })
}

fn shown_members(alloc: Global, group: &Group) -> Result<Listed<DescribedMember>, AllocError>
    ensures { IfOk result (λ members. members ≡ map (shown_member group.now) group.now.members) }
{
    let mut members = Listed::new(alloc);
    for member in group.members.as_slice() {
        members.push(shown_member(alloc, group, member)?)?;
    }
    Ok(members)
}

/// Returns the description of a loaded group. Copies the shown fields of all members.
#[tactic(auto, unfolding(crate::specs::Describe::description))]
pub fn description(alloc: Global, group: &Group) -> Result<Described, AllocError>
    ensures { IfOk result (λ d. d ≡ description group.now) }
{
    let kind = copied_name(&group.kind)?;
    let protocol = shown_protocol(group)?;
    let members = shown_members(alloc, group)?;
    Ok(Described {
        phase: group.phase,
        generation: group.generation,
        kind,
        protocol,
        members,
    })
}
