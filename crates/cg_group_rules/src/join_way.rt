//! The way that a JOIN takes in its loaded group: its checks, in the order of the refusals, and how much it changes.
ghost use Rattle.std.specs.Prelude.{◌≡◌, ◌&&◌, ℕ, List, Some, None, Ok, Err, not, true, is_ok, is_some, IfOk, OnErr, MatchResult};
ghost use Rattle.std.specs.List.{list_any};
ghost use Rattle.cg_group_rules.specs.Join.{join_known};
ghost use Rattle.cg_group_state.specs.Membership.{find_member, has_id};
ghost use Rattle.cg_group_state.specs.Waiting.{is_waiting};
ghost use Rattle.cg_group_state.specs.declared.calls.Calls.TheVariants.{Joins};
ghost use Rattle.cg_request.specs.declared.ticket.Ticket.{Ticket};
ghost use Rattle.cg_group_rules.specs.JoinChecks.{join_held};
ghost use Rattle.cg_group_rules.specs.JoinWays.{ComesTo, IsJoinWay};

use crate::join::{is_inconsistent, stranger_refusal};
use crate::join_reply::joined_reply;
use crate::member_join::is_current;
use crate::rebalance::is_preparing;
use cg_group_state::{Calls, Group, Member, Reply, checked_member, is_waiting};
use cg_names::{Code, MemberId};
use cg_request::{JoinRequest, Ticket};
use std::alloc::{AllocError, Global};
use uuid::Uuid;

/// The way that a JOIN takes.
#[derive(Drop)]
pub enum JoinWay<'a> {
    /// It is refused with this error code.
    Refused(Code),
    /// Its group is not loaded, and it creates the group.
    Creates,
    /// It changes nothing, and this member gets this reply at once.
    Current(&'a MemberId, Reply),
    /// It is only parked, in place of this older call of the member: a rebalance is under way, and another member has not joined
    /// yet.
    Parks(&'a MemberId, Option<Ticket>),
    /// This member joins a rebalance, which may begin or complete.
    Rejoins(&'a MemberId),
    /// A new member is appended, and its JOIN only parked: a rebalance is under way, and another member has not joined yet.
    Enters,
    /// A new member joins a rebalance, which may begin or complete, or replaces the member with its instance.
    Joins,
}

/// Returns whether a member other than this one has not joined yet.
pub(crate) fn waits_for_others(id: &MemberId, members: &[Member]) -> bool
    ensures { result ≡ list_any (λ m. not (has_id id.now m) && not (is_waiting Joins m)) members.now }
{
    members
        .iter()
        .any(|m| m.id != *id && !is_waiting(Calls::Joins, m))
}

// Returns the member that joins again, with the id that it gives.
#[tactic(auto, unfolding(crate::specs::JoinChecks::join_held))]
fn known_joiner<'a, 'b>(
    r: &'a JoinRequest,
    group: &'b Group,
) -> Result<(&'a MemberId, &'b Member), Code>
    requires { is_some r.now.member ≡ true }
    ensures check { MatchResult result
        (λ who. ComesTo r.now group.now (λ now ticket. join_known now r.now who.0.now ticket who.1.now group.now))
        (λ code. (now : ℕ) (fresh : List ℕ) (ticket : Ticket) → join_held now r.now fresh ticket r.now.member group.now ≡ Err code) }
    ensures found { IfOk result (λ who. find_member who.0.now group.now.members ≡ Some who.1.now) }
{
    let who = checked_member(&r.instance, &r.member, &group.members)?;
    if is_inconsistent(r, group) {
        return Err(Code::InconsistentGroupProtocol);
    }
    Ok(who)
}

// Returns the way of a known member's JOIN that passes its checks.
fn way_of_member<'a>(
    alloc: Global,
    r: &JoinRequest,
    id: &'a MemberId,
    member: &Member,
    group: &Group,
) -> Result<JoinWay<'a>, AllocError>
    requires found { find_member id.now group.now.members ≡ Some member.now }
    requires taken { ComesTo r.now group.now (λ now ticket. join_known now r.now id.now ticket member.now group.now) }
    ensures { IfOk result (λ way. (fresh : List ℕ) → IsJoinWay r.now fresh group.now way) }
{
    if is_current(r, member, group) {
        let reply = joined_reply(alloc, group, member)?;
        return Ok(JoinWay::Current(id, reply));
    }
    if is_preparing(group.phase) && waits_for_others(id, group.members.as_slice()) {
        return Ok(JoinWay::Parks(id, Calls::Any.called(member.waits)));
    }
    Ok(JoinWay::Rejoins(id))
}

// Returns the way of a new member's JOIN. No allocation.
fn way_of_newcomer<'a>(r: &JoinRequest, fresh: Uuid, group: &Group) -> JoinWay<'a>
    requires { r.now.member ≡ None }
    ensures { IsJoinWay r.now fresh group.now result }
{
    if let Some(code) = stranger_refusal(r, fresh, group) {
        return JoinWay::Refused(code);
    }
    if !is_preparing(group.phase) || group.members.all_wait(Calls::Joins) {
        return JoinWay::Joins;
    }
    if group.members.find_instance(&r.instance).is_some() {
        return JoinWay::Joins;
    }
    JoinWay::Enters
}

/// Returns the way that a JOIN takes in its loaded group. Copies what the reply to a JOIN that changes nothing has: only a JOIN
/// that is not refused needs an allocation.
pub fn way_of_join<'a>(
    alloc: Global,
    r: &'a JoinRequest,
    fresh: Uuid,
    group: &Group,
) -> Result<JoinWay<'a>, AllocError>
    ensures ok { IfOk result (λ way. IsJoinWay r.now fresh group.now way) }
    ensures err { OnErr result ((now : ℕ) (ticket : Ticket) → is_ok (join_held now r.now fresh ticket r.now.member group.now) ≡ true) }
{
    if r.member.is_none() {
        return Ok(way_of_newcomer(r, fresh, group));
    }
    match known_joiner(r, group) {
        Err(code) => Ok(JoinWay::Refused(code)),
        Ok((id, member)) => {
            let way = way_of_member(alloc, r, id, member, group)?;
            Ok(way)
        }
    }
}
