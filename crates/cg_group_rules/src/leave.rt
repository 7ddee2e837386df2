//! LEAVE (LeaveGroup request).
ghost use Rattle.std.specs.Prelude.{◌≡◌, ◌⊎◌, ℕ, Bool, Ok, Err, Some, true, not, filter, is_ok, IfOk, OnErr, MatchOption, MatchResult, ⊤};
ghost use Rattle.cg_group_rules.specs.Leave.{has_joined, left, may_be, leaver, leave_held};
ghost use Rattle.cg_group_state.specs.Membership.{has_id, is_named, keeping, leader_among};
ghost use Rattle.cg_group_rules.specs.Rebalance.{turned};
ghost use Rattle.cg_group_rules.specs.LeaveSteps.{IsLeaver, left_effects, left_replies, others_than, without};
ghost use Rattle.cg_group_rules.specs.RebalancePlan.{IsPlan};
ghost use Rattle.std.specs.List.{list_any};
ghost use Rattle.cg_group_state.specs.declared.member.Member.{Member};
ghost use Rattle.cg_request.specs.declared.ticket.Ticket.{Ticket};

use crate::join_way::waits_for_others;
use crate::rebalance::{Round, carry_out, is_preparing, leads, planned, refuse_syncs_of};
use crate::request_context::RequestContext;
use cg_group_state::{
    Calls, Effects, Few, Group, Member, Members, Phase, Refusing, Reply, Staying, answer_one,
};
use cg_names::{Code, InstanceId, MemberId, Moment};
use cg_request::{LeaveRequest, Ticket};
use std::alloc::{AllocError, Global};

fn has_leader(group: &Group) -> bool
    ensures { result ≡ list_any (λ m. is_named group.now.leader m.id) group.now.members }
{
    group.members.as_slice().iter().any(|m| leads(group, m))
}

/// Clears the leader if it is not a member any more.
pub fn check_leader(group: &mut Group)
    ensures { group.new ≡ record group.old { leader = leader_among group.old.members group.old.leader } }
{
    if !has_leader(group) {
        group.leader = None;
    }
}

/// Removes the member with this id. If it led, the group has no leader.
#[tactic(auto, unfolding(cg_group_state::specs::Membership::keeping))]
pub fn remove_member(id: &MemberId, group: &mut Group)
    ensures { group.new ≡ keeping (λ other. not (has_id id.now other)) group.old }
{
    group.members.remove(id);
    check_leader(group);
}

// Returns the replies of a LEAVE: 25 to the parked call of the member, if there is one, and OK.
fn left_replies(
    alloc: Global,
    ticket: Ticket,
    member: &Member,
) -> Result<Few<(Ticket, Reply)>, AllocError>
    ensures { IfOk result (λ replies. replies ≡ left_replies ticket member.now) }
{
    let mut replies = Few::new(alloc);
    let refusing = Refusing(Code::UnknownMemberId);
    answer_one(Calls::Any, &refusing, member, &mut replies)?;
    replies.push((ticket, Reply::Done))?;
    Ok(replies)
}

/// Returns whether the removal of a member starts a rebalance.
pub fn has_joined(phase: Phase) -> bool
    ensures { result ≡ has_joined phase }
{
    matches!(phase, Phase::Completing | Phase::Stable)
}

// Returns the replies of a LEAVE, and those with which a rebalance begins, if it does.
fn left_effects(
    alloc: Global,
    ticket: Ticket,
    begins: bool,
    member: &Member,
    members: &[Member],
) -> Result<Effects, AllocError>
    ensures { IfOk result (λ e. e ≡ left_effects begins ticket member.now (others_than member.now.id members.now)) }
{
    let mut replies = left_replies(alloc, ticket, member)?;
    if begins {
        refuse_syncs_of(&Staying::Without(&member.id), members, &mut replies)?;
    }
    Ok(Effects {
        commands: Few::new(alloc),
        replies,
    })
}

// Works out what follows from the LEAVE of the member: the effects, and the round if the rebalance completes without it.
fn plan_without(
    alloc: Global,
    now: Moment,
    ticket: Ticket,
    begins: bool,
    member: &Member,
    group: &Group,
) -> Result<(Effects, Option<Round>), AllocError>
    ensures { IfOk result (λ p. IsPlan now begins (without member.now.id group.now)
        (left_effects begins ticket member.now (others_than member.now.id group.now.members)) p.1 p.0) }
{
    let mut effects = left_effects(alloc, ticket, begins, member, group.members.as_slice())?;
    let others = Staying::Without(&member.id);
    let round = planned(alloc, now, begins, &others, group, &mut effects)?;
    Ok((effects, round))
}

// Returns whether no id is given, or this one.
fn may_be(given: &Option<MemberId>, id: &MemberId) -> bool
    ensures { result ≡ may_be given.now id.now }
{
    match given {
        None => true,
        Some(given) => *given == *id,
    }
}

// Returns the member with the instance. Reports 25 if no member has it, and 82 if another id is given (KIP-345).
#[tactic(auto, unfolding(crate::specs::Leave::leaver))]
fn static_leaver<'a>(
    instance: &InstanceId,
    member: &Option<MemberId>,
    members: &'a Members,
) -> Result<&'a Member, Code>
    ensures { MatchResult result
        (λ m. leaver (Some instance.now) member.now members.now ≡ Ok m.now)
        (λ code. leaver (Some instance.now) member.now members.now ≡ Err code) }
{
    let Some(own) = members.with_instance(instance) else {
        return Err(Code::UnknownMemberId);
    };
    if may_be(member, &own.id) {
        Ok(own)
    } else {
        Err(Code::FencedInstanceId)
    }
}

// Returns the member that leaves, by its instance or else by its id.
#[tactic(auto, unfolding(crate::specs::Leave::leaver))]
fn leaver<'a>(r: &LeaveRequest, members: &'a Members) -> Result<&'a Member, Code>
    ensures { MatchResult result
        (λ m. leaver r.now.instance r.now.member members.now ≡ Ok m.now)
        (λ code. leaver r.now.instance r.now.member members.now ≡ Err code) }
{
    if let Some(instance) = &r.instance {
        return static_leaver(instance, &r.member, members);
    }
    let Some(id) = &r.member else {
        return Err(Code::UnknownMemberId);
    };
    match members.find(id) {
        None => Err(Code::UnknownMemberId),
        Some(own) => Ok(own),
    }
}

// Returns the member that a LEAVE in the group removes, or the error code of the LEAVE. No allocation.
fn leaving<'a>(r: &LeaveRequest, group: &'a Group) -> Result<&'a Member, Code>
    ensures { MatchResult result
        (λ m. IsLeaver r.now group.now m.now)
        (λ code. (now : ℕ) (ticket : Ticket) → leave_held now r.now ticket group.now ≡ Err code) }
{
    let _members = group.members.as_slice();
    match leaver(r, &group.members) {
        Err(code) => Err(code),
        Ok(member) => Ok(member),
    }
}

/// Returns the error code of a LEAVE in a loaded group, if it is refused. No allocation.
pub fn leave_refusal(r: &LeaveRequest, group: &Group) -> Option<Code>
    ensures { MatchOption result
        ((now : ℕ) (ticket : Ticket) → is_ok (leave_held now r.now ticket group.now) ≡ true)
        (λ code. (now : ℕ) (ticket : Ticket) → leave_held now r.now ticket group.now ≡ Err code) }
{
    leaving(r, group).err()
}

/// Processes a LEAVE in a loaded group that does not refuse it (`leave_refusal`), in place: a rebalance begins or goes on
/// without the member. If an allocation fails, nothing changes.
pub fn leave_in(
    context: RequestContext,
    r: &LeaveRequest,
    group: &mut Group,
) -> Result<Effects, AllocError>
    requires { is_ok (leave_held context.now r.now context.ticket group.old) ≡ true }
    ensures ok { IfOk result (λ e. leave_held context.now r.now context.ticket group.old ≡ Ok (turned group.new e)) }
    ensures err { OnErr result (group.new ≡ group.old) }
{
    let RequestContext { alloc, now, ticket } = context;
    let Ok(member) = leaving(r, group) else {
        unreachable!()
    };
    let begins = has_joined(group.phase);
    let (effects, round) = plan_without(alloc, now, ticket, begins, member, group)?;
    let id = member.id.clone()?;
    remove_member(&id, group);
    carry_out(now, begins, round, group);
    Ok(effects)
}

/// Returns the member that a LEAVE only removes: a rebalance is under way, and another member has not joined yet. `None` for
/// any other LEAVE. No allocation.
#[tactic(auto, unfolding(crate::specs::Leave::leave_held))]
pub fn departing<'a>(r: &LeaveRequest, group: &'a Group) -> Option<&'a Member>
    ensures left { MatchOption result ⊤ (λ m. (now : ℕ) (ticket : Ticket) → leave_held now r.now ticket group.now ≡ Ok (left m.now.id ticket m.now group.now)) }
    ensures others { MatchOption result ⊤ (λ m. (passes : Member → Bool) → list_any passes group.now.members ≡ true
        → (list_any passes (filter (λ other. not (has_id m.now.id other)) group.now.members) ≡ true) ⊎ (passes m.now ≡ true)) }
{
    if !is_preparing(group.phase) {
        return None;
    }
    let Ok(member) = leaver(r, &group.members) else {
        return None;
    };
    if !waits_for_others(&member.id, group.members.as_slice()) {
        return None;
    }
    Some(member)
}
