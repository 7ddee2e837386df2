//! The replies to JOINs, and a member's subscription for a protocol.
ghost use Rattle.std.specs.Prelude.{◌≡◌, IfOk};
ghost use Rattle.cg_group_rules.specs.Rebalance.{subscription_for, joined_member, joined_members, joined_reply};
ghost use Rattle.cg_group_state.specs.Membership.{is_named};
ghost use Rattle.cg_group_rules.specs.RebalancePlan.{told_group};

use cg_group_state::{
    Boxed, Group, Joined, JoinedMember, Member, Reply, Staying, Telling, copied_name,
};
use cg_names::{Generation, MemberId, ProtocolName};
use cg_record::Subscription;
use cg_request::{Listed, Protocol};
use std::alloc::{AllocError, Global};

fn is_chosen(protocol: &Option<ProtocolName>, name: &ProtocolName) -> bool
    ensures { result ≡ is_named protocol.now name.now }
{
    match protocol {
        None => false,
        Some(chosen) => *chosen == *name,
    }
}

/// Returns a copy of the subscription for the protocol, or no bytes if the protocol is not in the list.
#[tactic(auto, unfolding(crate::specs::Rebalance::subscription_for))]
pub fn subscription_for(
    alloc: Global,
    protocol: &Option<ProtocolName>,
    protocols: &[Protocol],
) -> Result<Subscription, AllocError>
    ensures { IfOk result (λ bytes. bytes ≡ subscription_for protocol.now protocols.now) }
{
    match protocols.iter().find(|p| is_chosen(protocol, &p.name)) {
        None => Ok(Subscription::empty(alloc)),
        Some(p) => {
            let bytes = p.subscription.clone()?;
            Ok(bytes)
        }
    }
}

pub(crate) fn is_leader(leader: &Option<MemberId>, member: &Member) -> bool
    ensures { result ≡ is_named leader.now member.now.id }
{
    match leader {
        None => false,
        Some(leader) => *leader == member.id,
    }
}

fn joined_member(
    alloc: Global,
    protocol: &Option<ProtocolName>,
    member: &Member,
) -> Result<JoinedMember, AllocError>
    ensures { IfOk result (λ m. m ≡ joined_member protocol.now member.now) }
{
    let id = member.id.clone()?;
    let instance = copied_name(&member.instance)?;
    let subscription = subscription_for(alloc, protocol, member.protocols.as_slice())?;
    Ok(JoinedMember {
        id,
        instance,
        subscription,
    })
}

/// What the replies to JOINs say of their group.
#[derive(Clone, Copy)]
pub struct Told<'a> {
    pub(crate) generation: Generation,
    pub(crate) kind: &'a Option<ProtocolName>,
    pub(crate) protocol: &'a Option<ProtocolName>,
    pub(crate) leader: &'a Option<MemberId>,
    pub(crate) members: &'a [Member],
    /// Which of the members stay; the reply to the leader lists these.
    pub(crate) staying: &'a Staying<'a>,
}

#[tactic(auto, unfolding(crate::specs::Rebalance::joined_members))]
fn joined_members(
    alloc: Global,
    told: &Told,
    member: &Member,
) -> Result<Listed<JoinedMember>, AllocError>
    ensures { IfOk result (λ members. members ≡ joined_members (told_group told.now) member.now) }
{
    let mut members = Listed::new(alloc);
    if is_leader(told.leader, member) {
        for m in told.members {
            if told.staying.keeps(m) {
                members.push(joined_member(alloc, told.protocol, m)?)?;
            }
        }
    }
    Ok(members)
}

// Returns the reply to a JOIN of the member. It copies all members that stay for the leader.
#[tactic(auto, unfolding(crate::specs::Rebalance::joined_reply))]
fn told_reply(alloc: Global, told: &Told, member: &Member) -> Result<Reply, AllocError>
    ensures { IfOk result (λ reply. reply ≡ joined_reply (told_group told.now) member.now) }
{
    let kind = copied_name(told.kind)?;
    let protocol = copied_name(told.protocol)?;
    let leader = copied_name(told.leader)?;
    let id = member.id.clone()?;
    let members = joined_members(alloc, told, member)?;
    let joined = Boxed::new(
        alloc,
        Joined {
            generation: told.generation,
            kind,
            protocol,
            leader,
            member: id,
            members,
        },
    )?;
    Ok(Reply::Joined(joined))
}

/// Returns the reply to a JOIN of the member in the current generation. It copies all members for the leader.
#[tactic(auto, unfolding(crate::specs::Rebalance::joined_reply, crate::specs::Rebalance::joined_members), using(cg_group_state::proofs::Remaining::all_stay))]
pub fn joined_reply(alloc: Global, group: &Group, member: &Member) -> Result<Reply, AllocError>
    ensures { IfOk result (λ reply. reply ≡ joined_reply group.now member.now) }
{
    let told = Told {
        generation: group.generation,
        kind: &group.kind,
        protocol: &group.protocol,
        leader: &group.leader,
        members: group.members.as_slice(),
        staying: &Staying::All,
    };
    told_reply(alloc, &told, member)
}

/// The rule that replies to each JOIN with these facts of the group.
#[derive(Drop)]
pub struct TellingJoined<'a> {
    pub(crate) alloc: Global,
    pub(crate) told: Told<'a>,
}

impl<'a> Telling for TellingJoined<'a> {
    ghost use Rattle.cg_group_rules.specs.Rebalance.{joined_reply};
    ghost use Rattle.cg_group_rules.specs.RebalancePlan.{told_group};

    ghost tells = { λ t m. joined_reply (told_group t.told) m };

    fn tell(&self, member: &Member) -> Result<Reply, AllocError> {
        told_reply(self.alloc, &self.told, member)
    }
}
