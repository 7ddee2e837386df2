//! JOIN that replaces the member with the same instance (KIP-345), in place.
ghost use Rattle.std.specs.Prelude.{◌≡◌, ◌≤◌, ◌++◌, length, ◌∷◌, [], Some, None, true, false, is_some, unwrap_or, IfOk, IsSome, OnErr, OnOk, if◌then◌else◌};
ghost use Rattle.std.specs.List.{list_any};
ghost use Rattle.cg_names.specs.declared.code.Code.TheVariants.{FencedInstanceId};
ghost use Rattle.cg_group_rules.specs.Join.{new_member, rejoined};
ghost use Rattle.cg_group_state.specs.Members.{AreMembers};
ghost use Rattle.cg_group_state.specs.Membership.{find_instance, find_member, seating};
ghost use Rattle.cg_group_rules.specs.Rebalance.{turned};
ghost use Rattle.cg_group_rules.specs.StaticMember.{leads_and_goes, replacing, is_protocol, keeps_generation, successor, replaced_command, replaced_reply, replaced_in_place, replace_static_member};
ghost use Rattle.cg_group_rules.specs.Sync.{kept_member};
ghost use Rattle.cg_group_state.specs.Waiting.{answer, refusing};
ghost use Rattle.cg_group_state.specs.declared.calls.Calls.TheVariants.{Any};
ghost use Rattle.cg_group_state.specs.declared.member.Member.{Member};
ghost use Rattle.cg_group_rules.specs.ParkedJoin.{put_back};

use crate::member_join::{new_member, rejoin};
use crate::rebalance::leads;
use crate::request_context::RequestContext;
use crate::sync::kept_member;
use cg_group_state::{
    Boxed, Calls, CheckedJoin, Effects, Few, Group, Joined, Member, Phase, Refusing, Reply, Seat,
    Staying, Waits, answer_one, copied_name, has_instance, select_protocol,
};
use cg_names::{Code, MemberId, Moment, ProtocolName};
use cg_record::{Command, Replaced, StaticMember};
use cg_request::{Listed, Ticket};
use std::alloc::{AllocError, Global};
use std::mem;

/// What a replacement took from the group: the member, and the lead if the member led.
#[derive(Drop)]
struct Predecessor {
    seat: Seat,
    lead: Option<Option<MemberId>>,
}

// Returns whether the replaced member leads.
fn leader_goes(new: &Member, group: &Group) -> bool
    ensures { result ≡ list_any (leads_and_goes new.now group.now) group.now.members }
{
    group
        .members
        .as_slice()
        .iter()
        .any(|m| has_instance(&new.instance, m) && leads(group, m))
}

// Returns the id of the new member if it is to lead.
fn heir(new: &Member, group: &Group) -> Result<Option<MemberId>, AllocError>
    ensures { IfOk result (λ id. id ≡ if list_any (leads_and_goes new.now group.now) group.now.members then Some new.now.id else None) }
{
    if leader_goes(new, group) {
        let id = new.id.clone()?;
        Ok(Some(id))
    } else {
        Ok(None)
    }
}

// Puts the new member into the position of the old one, with the lead if the old one led. Returns what the group had there.
#[tactic(auto, unfolding(crate::specs::StaticMember::replacing))]
fn replace_in(new: Member, group: &mut Group) -> Result<Predecessor, AllocError>
    requires own_id { is_some (find_member new.id group.old.members) ≡ false }
    ensures ok { OnOk result (group.new ≡ replacing new group.old) }
    ensures before { IfOk result (λ old. put_back old group.new ≡ group.old) }
    ensures room { IfOk result (λ old. length group.new.members ≤ old.seat.places) }
    ensures lead { IfOk result (λ old. unwrap_or old.lead group.new.leader ≡ group.old.leader) }
    ensures lawful { AreMembers group.old.members }
    ensures err { OnErr result (group.new ≡ group.old) }
{
    let _members = group.members.as_slice();
    let heir = heir(&new, group)?;
    let seat = group.members.replace(new)?;
    let lead = match heir {
        None => None,
        Some(id) => Some(mem::replace(&mut group.leader, Some(id))),
    };
    Ok(Predecessor { seat, lead })
}

// Puts the old member back, and the lead if it led.
fn put_back(old: Predecessor, group: &mut Group)
    requires lawful { AreMembers (seating old.seat.member group.old.members) }
    requires room { length group.old.members ≤ old.seat.places }
    ensures { group.new ≡ put_back old group.old }
{
    let Predecessor { seat, lead } = old;
    group.members.put_back(seat);
    if let Some(leader) = lead {
        group.leader = leader;
    }
}

fn is_protocol(group: &Group, name: &Option<ProtocolName>) -> bool
    ensures { result ≡ is_protocol group.now name.now }
{
    match (&group.protocol, name) {
        (Some(own), Some(name)) => *own == *name,
        _ => false,
    }
}

// Returns whether the group is stable and its vote still gives its protocol, so that no rebalance is needed.
#[tactic(auto, unfolding(crate::specs::StaticMember::keeps_generation), using(cg_group_state::proofs::Remaining::all_stay))]
fn keeps_generation(alloc: Global, group: &Group) -> Result<bool, AllocError>
    ensures { IfOk result (λ b. b ≡ keeps_generation group.now) }
{
    match group.phase {
        Phase::Stable => {
            let protocol = select_protocol(alloc, &Staying::All, group.members.as_slice())?;
            Ok(is_protocol(group, &protocol))
        }
        _ => Ok(false),
    }
}

// The reply names the leader from before the replacement, and no members.
fn replaced_reply(
    alloc: Global,
    id: MemberId,
    leader: &Option<MemberId>,
    group: &Group,
) -> Result<Reply, AllocError>
    ensures { IfOk result (λ reply. reply ≡ replaced_reply id (record group.now { leader = leader.now })) }
{
    let kind = copied_name(&group.kind)?;
    let protocol = copied_name(&group.protocol)?;
    let leader = copied_name(leader)?;
    let joined = Boxed::new(
        alloc,
        Joined {
            generation: group.generation,
            kind,
            protocol,
            leader,
            member: id,
            members: Listed::new(alloc),
        },
    )?;
    Ok(Reply::Joined(joined))
}

// The contract leaves only members with an instance, so the record of a static member is lawful.
fn kept_successor(alloc: Global, new: &Member, group: &Group) -> Result<StaticMember, AllocError>
    requires { IsSome new.now.instance }
    ensures { IfOk result (λ kept. kept ≡ kept_member group.now.protocol new.now) }
{
    let kept = kept_member(alloc, &group.protocol, new)?;
    Ok(StaticMember::from_lawful(kept))
}

// Appends the reply to the JOIN, with the current generation.
fn push_reply(
    context: RequestContext,
    kept: &StaticMember,
    leader: &Option<MemberId>,
    group: &Group,
    replies: &mut Few<(Ticket, Reply)>,
) -> Result<(), AllocError>
    ensures { OnOk result (replies.new ≡ replies.old ++ (context.ticket, replaced_reply kept.now.id (record group.now { leader = leader.now })) ∷ []) }
{
    let id = kept.member().id.clone()?;
    let reply = replaced_reply(context.alloc, id, leader, group)?;
    replies.push((context.ticket, reply))
}

// Appends the command that stores the replacement.
fn push_command(
    kept: StaticMember,
    group: &Group,
    commands: &mut Few<Command>,
) -> Result<(), AllocError>
    ensures { OnOk result (commands.new ≡ commands.old ++ replaced_command kept group.now ∷ []) }
{
    let group = group.id.clone()?;
    commands.push(Command::Replaced(Replaced {
        group,
        member: kept,
    }))
}

// Appends the reply and the command of a replacement that needs no rebalance.
fn replace_alone(
    context: RequestContext,
    kept: StaticMember,
    leader: &Option<MemberId>,
    group: &Group,
    effects: &mut Effects,
) -> Result<(), AllocError>
    ensures replies { OnOk result (effects.new.replies ≡ effects.old.replies ++ (context.ticket, replaced_reply kept.id (record group.now { leader = leader.now })) ∷ []) }
    ensures commands { OnOk result (effects.new.commands ≡ effects.old.commands ++ replaced_command kept group.now ∷ []) }
{
    push_reply(context, &kept, leader, group, &mut effects.replies)?;
    push_command(kept, group, &mut effects.commands)?;
    Ok(())
}

// Creates the new member, and the member that the command stores.
#[tactic(auto, unfolding(crate::specs::Join::new_member))]
fn successor(
    alloc: Global,
    now: Moment,
    r: CheckedJoin,
    id: MemberId,
    old: &Member,
    group: &Group,
) -> Result<(Member, StaticMember), AllocError>
    requires given { IsSome r.instance }
    ensures new { IfOk result (λ p. p.0 ≡ successor now r id old.now) }
    ensures kept { IfOk result (λ p. p.1 ≡ kept_member group.now.protocol (successor now r id old.now)) }
{
    let assignment = old.assignment.clone()?;
    let (new, _kind) = new_member(now, r, id, assignment, Waits::Nothing);
    let kept = kept_successor(alloc, &new, group)?;
    Ok((new, kept))
}

// Creates the new member, and the member that the command stores, and appends 82 to the parked call of the old one.
#[tactic(auto, using(cg_group_state::proofs::Seats::instance_given))]
fn succeed(
    alloc: Global,
    now: Moment,
    r: CheckedJoin,
    id: MemberId,
    group: &Group,
    replies: &mut Few<(Ticket, Reply)>,
) -> Result<(Member, StaticMember), AllocError>
    requires { is_some (find_instance r.instance group.now.members) ≡ true }
    ensures new { IfOk result (λ p. (old : Member) → find_instance r.instance group.now.members ≡ Some old → p.0 ≡ successor now r id old) }
    ensures kept { IfOk result (λ p. (old : Member) → find_instance r.instance group.now.members ≡ Some old → p.1 ≡ kept_member group.now.protocol (successor now r id old)) }
    ensures replies { OnOk result ((old : Member) → find_instance r.instance group.now.members ≡ Some old → replies.new ≡ replies.old ++ answer Any (refusing FencedInstanceId) old) }
{
    let Some(old) = group.members.find_instance(&r.request.instance) else {
        unreachable!()
    };
    let refusing = Refusing(Code::FencedInstanceId);
    answer_one(Calls::Any, &refusing, old, replies)?;
    successor(alloc, now, r, id, old, group)
}

// Returns the leader from before the replacement.
fn leader_before<'a>(old: &'a Predecessor, group: &'a Group) -> &'a Option<MemberId>
    ensures { result.now ≡ unwrap_or old.now.lead group.now.leader }
{
    match &old.lead {
        None => &group.leader,
        Some(leader) => leader,
    }
}

// Ends a replacement: the generation continues with the new member, or that member joins a rebalance. `old` is what the group
// had.
#[tactic(auto, unfolding(crate::specs::StaticMember::replaced_in_place))]
fn go_on(
    context: RequestContext,
    own: &MemberId,
    kept: StaticMember,
    old: &Predecessor,
    group: &mut Group,
    effects: &mut Effects,
) -> Result<(), AllocError>
    ensures ok { OnOk result (turned group.new effects.new ≡ if keeps_generation group.old
        then replaced_in_place context.ticket kept (record group.old { leader = unwrap_or old.now.lead group.old.leader }) (turned group.old effects.old)
        else rejoined context.now own.now context.ticket (turned group.old effects.old)) }
    ensures err { OnErr result (group.new ≡ group.old) }
{
    if !keeps_generation(context.alloc, group)? {
        return rejoin(context, own, group, effects);
    }
    replace_alone(context, kept, leader_before(old, group), group, effects)?;
    Ok(())
}

/// Processes a JOIN that replaces the member with its instance under the new id, in place. If an allocation fails, the group is
/// as it was.
#[tactic(auto, unfolding(crate::specs::StaticMember::replace_static_member, crate::specs::Join::new_member))]
pub fn replace_static_member(
    context: RequestContext,
    r: CheckedJoin,
    id: MemberId,
    group: &mut Group,
) -> Result<Effects, AllocError>
    requires own_id { is_some (find_member id group.old.members) ≡ false }
    requires held { is_some (find_instance r.instance group.old.members) ≡ true }
    ensures ok { IfOk result (λ e. (old : Member) → find_instance r.instance group.old.members ≡ Some old → turned group.new e ≡ replace_static_member context.now r id context.ticket old group.old) }
    ensures err { OnErr result (group.new ≡ group.old) }
{
    let RequestContext { alloc, now, ticket } = context;
    let own = id.clone()?;
    let mut effects = Effects::new(alloc);
    let (new, kept) = succeed(alloc, now, r, id, group, &mut effects.replies)?;
    let old = replace_in(new, group)?;
    let context = RequestContext { alloc, now, ticket };
    match go_on(context, &own, kept, &old, group, &mut effects) {
        Ok(()) => Ok(effects),
        Err(wanting) => {
            put_back(old, group);
            Err(wanting)
        }
    }
}
