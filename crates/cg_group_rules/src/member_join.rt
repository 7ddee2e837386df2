//! JOIN (JoinGroup request) after its checks: a new member, or a known member. The group is changed in place.
ghost use Rattle.std.specs.Prelude.{◌≡◌, ◌<◌, ◌++◌, ℕ, [], Some, false, true, not, filter, is_some, length, IfOk, OnErr, OnOk, if◌then◌else◌};
ghost use Rattle.cg_names.specs.declared.code.Code.TheVariants.{RebalanceInProgress};
ghost use Rattle.cg_record.specs.declared.roster.TheConstants.{MEMBERS_MAX};
ghost use Rattle.cg_group_state.specs.Membership.{find_member, find_instance, has_id, with_member};
ghost use Rattle.cg_group_rules.specs.Join.{new_group, new_member, admitted, displaced, in_join_phase, add_member_and_rebalance, rejoined, update_member_and_rebalance, is_current};
ghost use Rattle.cg_group_state.specs.Waiting.{waits_with, after_answers, answers, recalled, refusing};
ghost use Rattle.cg_group_rules.specs.Rebalance.{try_complete_join, turn_of, turned};
ghost use Rattle.cg_group_state.specs.declared.calls.Calls.TheVariants.{Syncs};
ghost use Rattle.cg_group_state.specs.declared.member.Member.{Member};
ghost use Rattle.cg_group_state.specs.declared.member.Waits.{Waits};
ghost use Rattle.cg_group_rules.specs.ParkedJoin.{refused_call, with_header};

use crate::rebalance::{advance, is_preparing, leads, refuse_syncs};
use crate::request_context::RequestContext;
use cg_group_state::{
    Calls, CheckedJoin, Effects, Few, Group, Member, Members, Phase, Refusing, Reply, Waits,
    answer_one,
};
use cg_names::{Code, Generation, GroupId, MemberId, Moment, ProtocolName};
use cg_record::{Assignment, MEMBERS_MAX};
use cg_request::{JoinRequest, Ticket};
use std::alloc::{AllocError, Global};
use std::mem;

/// The protocol type and the leader of a group.
#[derive(Drop)]
pub struct Header {
    kind: Option<ProtocolName>,
    leader: Option<MemberId>,
}

/// Creates a group without members, without an allocation.
#[tactic(auto, unfolding(crate::specs::Join::new_group))]
pub fn new_group(alloc: Global, id: GroupId) -> Group
    ensures { result ≡ new_group id }
{
    Group {
        id,
        phase: Phase::Empty,
        generation: Generation::ZERO,
        kind: None,
        protocol: None,
        leader: None,
        members: Members::new(alloc),
        started: Moment::from_millis(0),
        emptied: None,
    }
}

/// Creates a member with a new id; also returns the protocol type of the JOIN. No allocation.
#[tactic(auto, unfolding(crate::specs::Join::new_member))]
pub fn new_member(
    now: Moment,
    r: CheckedJoin,
    id: MemberId,
    assignment: Assignment,
    waits: Waits,
) -> (Member, ProtocolName)
    ensures member { result.0 ≡ new_member now r id assignment waits }
    ensures kind { result.1 ≡ r.kind }
{
    let CheckedJoin { request, session } = r;
    let member = Member {
        id,
        instance: request.instance,
        client: request.client,
        session,
        rebalance: request.rebalance,
        protocols: request.protocols,
        assignment,
        heard: now,
        waits,
    };
    (member, request.kind)
}

// Appends the member; in a group without members it leads, and its type is the group's. Returns the type and the leader that the
// group had, where they changed.
#[tactic(auto, unfolding(crate::specs::Join::admitted))]
fn admit(
    member: Member,
    kind: ProtocolName,
    group: &mut Group,
) -> Result<Option<Header>, AllocError>
    requires room { length group.old.members < MEMBERS_MAX }
    requires own_id { is_some (find_member member.id group.old.members) ≡ false }
    requires own_instance { is_some (find_instance member.instance group.old.members) ≡ false }
    ensures ok { OnOk result (group.new ≡ admitted member kind group.old) }
    ensures before { IfOk result (λ h. with_header h group.new ≡ record group.old { members = group.new.members }) }
    ensures err { OnErr result (group.new ≡ group.old) }
{
    if group.members.len() != 0 {
        group.members.push(member)?;
        return Ok(None);
    }
    let leader = member.id.clone()?;
    group.members.push(member)?;
    let kind = mem::replace(&mut group.kind, Some(kind));
    let leader = mem::replace(&mut group.leader, Some(leader));
    Ok(Some(Header { kind, leader }))
}

// Removes the member again, and puts the type and the leader back.
fn expel(id: &MemberId, header: Option<Header>, group: &mut Group)
    ensures { group.new ≡ with_header header (record group.old { members = filter (λ m. not (has_id id.now m)) group.old.members }) }
{
    group.members.remove(id);
    if let Some(Header { kind, leader }) = header {
        group.kind = kind;
        group.leader = leader;
    }
}

// Carries on the rebalance that the new member has joined, which begins if none is under way.
#[tactic(auto, unfolding(crate::specs::Rebalance::prepare_rebalance))]
fn carry_on(context: RequestContext, group: &mut Group) -> Result<Effects, AllocError>
    ensures ok { IfOk result (λ e. turned group.new e ≡ try_complete_join context.now (in_join_phase context.now (turn_of group.old))) }
    ensures err { OnErr result (group.new ≡ group.old) }
{
    let RequestContext { alloc, now, .. } = context;
    let mut effects = Effects::new(alloc);
    let begins = !is_preparing(group.phase);
    if begins {
        refuse_syncs(group.members.as_slice(), &mut effects.replies)?;
    }
    advance(alloc, now, begins, group, &mut effects)?;
    Ok(effects)
}

/// Processes a JOIN of a new member, in place. If an allocation fails, the group is as it was.
#[tactic(auto, unfolding(crate::specs::Join::add_member_and_rebalance, crate::specs::Join::new_member))]
pub fn add_member_and_rebalance(
    context: RequestContext,
    r: CheckedJoin,
    id: MemberId,
    group: &mut Group,
) -> Result<Effects, AllocError>
    requires room { length group.old.members < MEMBERS_MAX }
    requires own_id { is_some (find_member id group.old.members) ≡ false }
    requires own_instance { is_some (find_instance r.instance group.old.members) ≡ false }
    ensures ok { IfOk result (λ e. turned group.new e ≡ add_member_and_rebalance context.now r id context.ticket group.old) }
    ensures err { OnErr result (group.new ≡ group.old) }
{
    let own = id.clone()?;
    let (member, kind) = new_member(
        context.now,
        r,
        id,
        Assignment::empty(context.alloc),
        Waits::Join(context.ticket),
    );
    let header = admit(member, kind, group)?;
    match carry_on(context, group) {
        Ok(effects) => Ok(effects),
        Err(wanting) => {
            expel(&own, header, group);
            Err(wanting)
        }
    }
}

// Appends the refusal of the member's parked call, if it is one of these.
fn refuse_call(
    which: Calls,
    id: &MemberId,
    members: &Members,
    replies: &mut Few<(Ticket, Reply)>,
) -> Result<(), AllocError>
    ensures { OnOk result (replies.new ≡ replies.old ++ refused_call which (find_member id.now members.now)) }
{
    if let Some(member) = members.find(id) {
        let refusing = Refusing(Code::RebalanceInProgress);
        answer_one(which, &refusing, member, replies)?;
    }
    Ok(())
}

// Appends the refusals by a JOIN of the member that is parked: of every parked SYNC if a rebalance begins, then of an older
// call of the member.
fn refuse_older(
    begins: bool,
    id: &MemberId,
    members: &Members,
    replies: &mut Few<(Ticket, Reply)>,
) -> Result<(), AllocError>
    ensures { OnOk result ((now : ℕ) → replies.new ≡ (replies.old ++ (if begins then answers Syncs (refusing RebalanceInProgress) members.now else []))
        ++ displaced (find_member id.now (if begins then after_answers Syncs now members.now else members.now))) }
{
    if begins {
        refuse_syncs(members.as_slice(), replies)?;
        refuse_call(Calls::Joins, id, members, replies)?;
    } else {
        refuse_call(Calls::Any, id, members, replies)?;
    }
    Ok(())
}

// Returns the moment at which the member was last heard, and its parked call.
fn call_of(id: &MemberId, members: &Members) -> (Moment, Waits)
    ensures { (now : ℕ) (w : Waits) → with_member id.now (recalled result.0 result.1) (with_member id.now (waits_with now w) members.now) ≡ members.now }
{
    match members.find(id) {
        None => (Moment::from_millis(0), Waits::Nothing),
        Some(member) => (member.heard, member.waits),
    }
}

/// Parks the JOIN in the rebalance, which begins if none is under way and completes if all members have joined, in place. If an
/// allocation fails, the group is as it was.
#[tactic(auto, unfolding(crate::specs::Join::rejoined))]
pub fn rejoin(
    context: RequestContext,
    id: &MemberId,
    group: &mut Group,
    effects: &mut Effects,
) -> Result<(), AllocError>
    ensures ok { OnOk result (turned group.new effects.new ≡ rejoined context.now id.now context.ticket (turned group.old effects.old)) }
    ensures err { OnErr result (group.new ≡ group.old) }
{
    let RequestContext { alloc, now, ticket } = context;
    let begins = !is_preparing(group.phase);
    refuse_older(begins, id, &group.members, &mut effects.replies)?;
    let (heard, waits) = call_of(id, &group.members);
    group.members.wait(id, Waits::Join(ticket), now);
    match advance(alloc, now, begins, group, effects) {
        Ok(()) => Ok(()),
        Err(wanting) => {
            group.members.recall(id, heard, waits);
            Err(wanting)
        }
    }
}

/// Processes a JOIN of a known member that changes something, in place. If an allocation fails, the group is as it was.
#[tactic(auto, unfolding(crate::specs::Join::update_member_and_rebalance, crate::specs::Join::updating))]
pub fn update_member_and_rebalance(
    context: RequestContext,
    r: CheckedJoin,
    id: &MemberId,
    group: &mut Group,
) -> Result<Effects, AllocError>
    ensures ok { IfOk result (λ e. turned group.new e ≡ update_member_and_rebalance context.now r id.now context.ticket group.old) }
    ensures err { OnErr result (group.new ≡ group.old) }
{
    let before = group.members.exchange_terms(id, r);
    let mut effects = Effects::new(context.alloc);
    match rejoin(context, id, group, &mut effects) {
        Ok(()) => Ok(effects),
        Err(wanting) => {
            let _again = group.members.exchange_terms(id, before);
            Err(wanting)
        }
    }
}

/// Returns whether a known member's JOIN changes nothing, so that it gets the current generation at once.
#[tactic(auto, unfolding(crate::specs::Join::is_current))]
pub fn is_current(r: &JoinRequest, member: &Member, group: &Group) -> bool
    ensures { result ≡ is_current r.now member.now group.now group.now.phase }
{
    match group.phase {
        Phase::Preparing => false,
        Phase::Completing => member.protocols.as_slice() == r.protocols.as_slice(),
        Phase::Stable => !leads(group, member)
            && member.protocols.as_slice() == r.protocols.as_slice(),
        Phase::Empty => true,
    }
}
