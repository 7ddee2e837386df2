//! Recovery: the loaded groups from the durable state.
ghost use Rattle.std.specs.Prelude.{◌≡◌, Some, None, IfOk, map};
ghost use Rattle.cg_fold.specs.Snapshot.{groups_in, in_order};
ghost use Rattle.cg_group_table.specs.Recovery.{revived_member, revived_with, revived};

use crate::group_table::GroupTable;
use cg_fold::{Durable, GroupRecord, RecordedMembers};
use cg_group_rules::new_group;
use cg_group_state::{Group, Member, Members, Phase, Waits, sharing};
use cg_names::{GroupId, Moment, ProtocolName};
use cg_record::{MemberRecord, Roster};
use cg_request::{Protocol, Protocols};
use std::alloc::{AllocError, Global};

#[tactic(auto, unfolding(crate::specs::Recovery::revived_member))]
fn revived_member(
    alloc: Global,
    now: Moment,
    protocol: &ProtocolName,
    member: &MemberRecord,
) -> Result<Member, AllocError>
    ensures { IfOk result (λ m. m ≡ revived_member now protocol.now member.now) }
{
    let name = protocol.clone()?;
    let subscription = member.subscription.clone()?;
    let protocols = Protocols::only(alloc, Protocol { name, subscription })?;
    let id = member.id.clone()?;
    let instance = cg_group_state::copied_name(&member.instance)?;
    let client = member.client.clone()?;
    let assignment = member.assignment.clone()?;
    Ok(Member {
        id,
        instance,
        client,
        session: member.session,
        rebalance: member.rebalance,
        protocols,
        assignment,
        heard: now,
        waits: Waits::Nothing,
    })
}

// Shares the protocol list of the last of these members, if it is equal. The cost is linear, whatever the lists are.
fn sharing_last(members: &[Member], member: Member) -> Member
    ensures { result ≡ member }
{
    let last = members.len().saturating_sub(1);
    sharing(&members[last..], member)
}

fn revived_items(
    alloc: Global,
    now: Moment,
    protocol: &ProtocolName,
    members: &[MemberRecord],
) -> Result<Vec<Member>, AllocError>
    ensures { IfOk result (λ ms. ms.items ≡ map (revived_member now protocol.now) members.now) }
{
    let mut revived = Vec::with_capacity(alloc, members.len())?;
    for member in members {
        let member = revived_member(alloc, now, protocol, member)?;
        let member = sharing_last(revived.as_slice(), member);
        revived.push(member)?;
    }
    Ok(revived)
}

#[tactic(auto, using(crate::proofs::Recalled::revived_together))]
fn revived_members(alloc: Global, now: Moment, roster: &Roster) -> Result<Members, AllocError>
    ensures { IfOk result (λ ms. ms ≡ map (revived_member now roster.now.protocol) roster.now.members) }
{
    let items = revived_items(alloc, now, roster.protocol(), roster.members())?;
    let members = Members::from_vec(alloc, items)?;
    Ok(members)
}

// Returns a stable group, from its record.
#[tactic(auto, unfolding(crate::specs::Recovery::revived_with))]
fn revived_stable(
    alloc: Global,
    now: Moment,
    id: GroupId,
    held: &GroupRecord,
    roster: &Roster,
) -> Result<Group, AllocError>
    ensures { IfOk result (λ g. g ≡ revived_with now id held.now (RecordedMembers.Roster roster.now)) }
{
    let members = revived_members(alloc, now, roster)?;
    let kind = held.kind.clone()?;
    let protocol = roster.protocol().clone()?;
    let leader = roster.leader().clone()?;
    Ok(Group {
        id,
        phase: Phase::Stable,
        generation: held.generation.generation(),
        kind: Some(kind),
        protocol: Some(protocol),
        leader: Some(leader),
        members,
        started: Moment::from_millis(0),
        emptied: None,
    })
}

// Returns a group without members, from its record.
#[tactic(auto, unfolding(crate::specs::Recovery::revived_with))]
fn revived_empty(
    alloc: Global,
    now: Moment,
    id: GroupId,
    held: &GroupRecord,
    moment: Option<Moment>,
) -> Result<Group, AllocError>
    ensures { IfOk result (λ g. g ≡ revived_with now id held.now (RecordedMembers.Empty moment)) }
{
    let kind = held.kind.clone()?;
    Ok(Group {
        id,
        phase: Phase::Empty,
        generation: held.generation.generation(),
        kind: Some(kind),
        protocol: None,
        leader: None,
        members: Members::new(alloc),
        started: Moment::from_millis(0),
        emptied: moment,
    })
}

// Returns a group from its record.
fn revived_held(
    alloc: Global,
    now: Moment,
    id: GroupId,
    held: &GroupRecord,
) -> Result<Group, AllocError>
    ensures { IfOk result (λ g. g ≡ revived_with now id held.now held.now.members) }
{
    match &held.members {
        RecordedMembers::Empty(moment) => revived_empty(alloc, now, id, held, *moment),
        RecordedMembers::Roster(roster) => revived_stable(alloc, now, id, held, roster),
    }
}

/// Returns the group with this id; a group with offsets alone has no record.
#[tactic(auto, unfolding(crate::specs::Recovery::revived))]
fn revived(alloc: Global, now: Moment, id: &GroupId, durable: &Durable) -> Result<Group, AllocError>
    ensures { IfOk result (λ g. g ≡ revived now durable.now id.now) }
{
    let own = id.clone()?;
    match durable.group(id) {
        None => Ok(new_group(alloc, own)),
        Some(held) => {
            let group = revived_held(alloc, now, own, held)?;
            Ok(group)
        }
    }
}

/// Returns the groups that have a record or an offset, by the bytes of their ids. Copies the records.
pub fn revived_all(alloc: Global, now: Moment, durable: &Durable) -> Result<GroupTable, AllocError>
    ensures { IfOk result (λ groups. groups ≡ map (revived now durable.now) (in_order (groups_in durable.now))) }
{
    let ids = durable.group_ids()?;
    let mut groups = GroupTable::new(alloc);
    for id in ids.as_slice() {
        groups.put(revived(alloc, now, id, durable)?)?;
    }
    Ok(groups)
}
