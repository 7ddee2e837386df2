//! JOIN (JoinGroup request): its checks, in the order of the refusals.
ghost use Rattle.std.specs.Prelude.{◌≡◌, ◌<◌, ℕ, List, Ok, Err, None, Some, true, false, is_ok, is_some, IfOk, OnErr, MatchOption};
ghost use Rattle.std.specs.Option.{option_copied};
ghost use Rattle.std.specs.List.{list_any};
ghost use Rattle.cg_record.specs.declared.roster.TheConstants.{MEMBERS_MAX};
ghost use Rattle.cg_group_state.specs.Membership.{is_named, find_member, find_instance};
ghost use Rattle.cg_group_state.specs.Vote.{is_common};
ghost use Rattle.cg_group_state.specs.MemberId.{drawn, own_name};
ghost use Rattle.cg_group_rules.specs.Join.{is_inconsistent};
ghost use Rattle.cg_group_rules.specs.Rebalance.{turned};
ghost use Rattle.cg_group_rules.specs.JoinChecks.{is_full, join_placed, join_held, join_unheld};

use crate::group_limit::GROUPS_MAX;
use crate::member_join::{add_member_and_rebalance, new_group};
use crate::request_context::RequestContext;
use crate::static_member::replace_static_member;
use cg_group_state::{
    CheckedJoin, Effects, Group, Member, Members, Turn, drawn, is_common, is_drawn_held,
};
use cg_names::{Code, GroupId, MemberId, ProtocolName};
use cg_record::MEMBERS_MAX;
use cg_request::{JoinRequest, Ticket};
use std::alloc::AllocError;
use uuid::Uuid;

fn has_kind(group: &Group, kind: &ProtocolName) -> bool
    ensures { result ≡ is_named group.now.kind kind.now }
{
    match &group.kind {
        None => false,
        Some(own) => *own == *kind,
    }
}

fn shares_protocol(r: &JoinRequest, members: &[Member]) -> bool
    ensures { result ≡ list_any (λ p. is_common members.now p.name) r.now.protocols }
{
    r.protocols
        .as_slice()
        .iter()
        .any(|p| is_common(members, &p.name))
}

#[tactic(auto, unfolding(crate::specs::Join::is_inconsistent))]
pub(crate) fn is_inconsistent(r: &JoinRequest, group: &Group) -> bool
    ensures { result ≡ is_inconsistent r.now group.now }
{
    group.members.len() != 0
        && (!has_kind(group, &r.kind) || !shares_protocol(r, group.members.as_slice()))
}

// A replacement never needs room, as the old member is removed.
fn is_full(old: Option<&Member>, members: &Members) -> bool
    ensures { result ≡ is_full (option_copied old.entry) members.now }
{
    match old {
        None => MEMBERS_MAX <= members.len(),
        Some(_) => false,
    }
}

/// Processes a JOIN of a new member, in place: it joins, or replaces the member with its instance. If an allocation fails, the
/// group is as it was.
#[tactic(auto, using(cg_group_state::proofs::Seats::instance_given))]
pub fn join_placed(
    context: RequestContext,
    r: CheckedJoin,
    id: MemberId,
    group: &mut Group,
) -> Result<Effects, AllocError>
    requires room { is_full (find_instance r.instance group.old.members) group.old.members ≡ false }
    requires own_id { is_some (find_member id group.old.members) ≡ false }
    ensures ok { IfOk result (λ e. turned group.new e ≡ join_placed context.now r id context.ticket group.old (find_instance r.instance group.old.members)) }
    ensures err { OnErr result (group.new ≡ group.old) }
{
    if group.members.find_instance(&r.request.instance).is_some() {
        replace_static_member(context, r, id, group)
    } else {
        add_member_and_rebalance(context, r, id, group)
    }
}

/// Returns the error code of a JOIN by a new member in a loaded group, if it is refused. No allocation.
#[tactic(auto, unfolding(crate::specs::JoinChecks::join_held, crate::specs::JoinChecks::join_drawn))]
pub fn stranger_refusal(r: &JoinRequest, fresh: Uuid, group: &Group) -> Option<Code>
    ensures refused { MatchOption result
        ((now : ℕ) (ticket : Ticket) → join_held now r.now fresh ticket None group.now ≡ Ok (join_placed now r.now (drawn (own_name r.now) fresh) ticket group.now (find_instance r.now.instance group.now.members)))
        (λ code. (now : ℕ) (ticket : Ticket) → join_held now r.now fresh ticket None group.now ≡ Err code) }
    ensures room { result ≡ None → is_full (find_instance r.now.instance group.now.members) group.now.members ≡ false }
    ensures own_id { result ≡ None → is_some (find_member (drawn (own_name r.now) fresh) group.now.members) ≡ false }
{
    let old = group.members.find_instance(&r.instance);
    if is_full(old, &group.members) {
        return Some(Code::GroupMaxSizeReached);
    }
    if is_inconsistent(r, group) {
        return Some(Code::InconsistentGroupProtocol);
    }
    if is_drawn_held(r, fresh, &group.members) {
        return Some(Code::CoordinatorNotAvailable);
    }
    None
}

/// Returns the error code of a JOIN in a group that is not loaded, if it is refused. No allocation.
#[tactic(auto, unfolding(crate::specs::JoinChecks::join_unheld))]
pub fn unheld_refusal(r: &JoinRequest, loaded: usize) -> Option<Code>
    ensures { MatchOption result
        ((now : ℕ) (fresh : List ℕ) (ticket : Ticket) (id : List ℕ) → is_ok (join_unheld now r.now fresh ticket loaded id) ≡ true)
        (λ code. (now : ℕ) (fresh : List ℕ) (ticket : Ticket) (id : List ℕ) → join_unheld now r.now fresh ticket loaded id ≡ Err code) }
{
    if r.member.is_some() {
        return Some(Code::UnknownMemberId);
    }
    if GROUPS_MAX <= loaded {
        return Some(Code::CoordinatorNotAvailable);
    }
    None
}

/// Returns the step of a JOIN in a group that is not loaded and is not refused there (`unheld_refusal`). `loaded` is the number
/// of loaded groups.
#[tactic(auto, unfolding(crate::specs::JoinChecks::join_unheld, crate::specs::Join::new_group, cg_group_state::specs::Membership::find_member, cg_group_state::specs::Membership::find_instance))]
pub fn join_unheld(
    context: RequestContext,
    r: CheckedJoin,
    fresh: Uuid,
    loaded: usize,
    id: GroupId,
) -> Result<Turn, AllocError>
    requires { is_ok (join_unheld context.now r fresh context.ticket loaded id) ≡ true }
    ensures { IfOk result (λ t. join_unheld context.now r fresh context.ticket loaded id ≡ Ok t) }
{
    if unheld_refusal(&r.request, loaded).is_some() {
        unreachable!()
    }
    let member = drawn(context.alloc, &r.request, fresh)?;
    let mut group = new_group(context.alloc, id);
    let Effects { commands, replies } = add_member_and_rebalance(context, r, member, &mut group)?;
    Ok(Turn {
        group,
        replies,
        commands,
    })
}
