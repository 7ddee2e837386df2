//! Changes of the members in a map, by their ids, their instances or their parked calls. `Members` keeps its promises over them.
ghost use Rattle.std.specs.Prelude.{◌≡◌, ◌+◌, ◌<◌, ◌≤◌, ◌++◌, ◌∷◌, [], true, false, OnErr, OnOk, Some, length, not, filter, map, is_some, option_map};
ghost use Rattle.indexmap.specs.IndexMap.{index_map_len, values, spare};
ghost use Rattle.std.specs.List.{position};
ghost use Rattle.cg_request.specs.Names.{are_distinct};
ghost use Rattle.cg_group_state.specs.Keyed.{AreKeyed};
ghost use Rattle.cg_group_state.specs.Members.{AreMembers, instances};
ghost use Rattle.cg_group_state.specs.Membership.{has_id, has_instance, find_member, with_member, heard, seating};
ghost use Rattle.cg_group_state.specs.Waiting.{after_answer, is_waiting, recalled, waits_with};
ghost use Rattle.cg_group_state.specs.JoinTerms.{updated};
ghost use Rattle.cg_group_state.specs.Assignments.{with_assignments};
ghost use Rattle.cg_group_state.specs.Staying.{is_overdue, outstays};

use crate::calls::{Calls, is_waiting};
use crate::checked_join::CheckedJoin;
use crate::member::{Member, Waits};
use crate::members::has_instance;
use crate::shared_protocols::sharing_join;
use cg_names::{InstanceId, MemberId, Moment};
use cg_record::Assignment;
use cg_request::JoinRequest;
use indexmap::IndexMap;
use std::alloc::AllocError;
use std::mem;

/// The members by their ids, in joining order.
pub(crate) type ById = IndexMap<MemberId, Member>;

/// Returns the members in joining order.
pub(crate) fn listed(members: &ById) -> &[Member]
    ensures { result.now ≡ values members.now }
{
    members.values().as_slice()
}

// Returns the position of the member with this id.
#[tactic(auto, using(crate::proofs::Keyed::place_by_id))]
fn place_of(id: &MemberId, members: &ById) -> Option<usize>
    requires { AreKeyed members.now }
    ensures { result ≡ position (has_id id.now) (values members.now) }
{
    members.get_index_of(id)
}

fn seat_of(instance: &Option<InstanceId>, members: &[Member]) -> Option<usize>
    ensures { result ≡ position (has_instance instance.now) members.now }
{
    members.iter().position(|m| has_instance(instance, m))
}

fn outstays(member: &Member) -> bool
    ensures { result ≡ outstays member.now }
{
    member.instance.is_some() || is_waiting(Calls::Any, member)
}

pub(crate) fn has_id(member: &Member, id: &MemberId) -> bool
    ensures { result ≡ has_id id.now member.now }
{
    member.id == *id
}

pub(crate) fn is_overdue(member: &Member, now: Moment) -> bool
    ensures { result ≡ is_overdue now member.now }
{
    !is_waiting(Calls::Any, member) && now.is_past(member.heard, member.session.get())
}

fn answer_one(member: &mut Member, which: Calls, now: Moment)
    ensures { member.new ≡ after_answer which now member.old }
{
    if is_waiting(which, member) {
        member.heard = now;
        member.waits = Waits::Nothing;
    }
}

fn begin_to_wait(member: &mut Member, waits: Waits, now: Moment)
    ensures { member.new ≡ waits_with now waits member.old }
{
    if is_waiting(Calls::Any, member) {
        member.heard = now;
    }
    member.waits = waits;
}

fn recall(member: &mut Member, heard: Moment, waits: Waits)
    ensures { member.new ≡ recalled heard waits member.old }
{
    member.heard = heard;
    member.waits = waits;
}

#[tactic(auto, using(crate::proofs::Places::placing))]
pub(crate) fn hear_one(members: &mut ById, id: &MemberId, now: Moment) -> Option<Moment>
    requires keyed { AreKeyed members.old }
    ensures keyed { AreKeyed members.new }
    ensures heard { values members.new ≡ with_member id.now (heard now) (values members.old) }
    ensures before { result ≡ option_map (λ m. m.heard) (find_member id.now (values members.old)) }
{
    match place_of(id, members) {
        None => None,
        Some(place) => {
            let member = &mut members[place];
            let before = member.heard;
            member.heard = now;
            Some(before)
        }
    }
}

#[tactic(auto, using(crate::proofs::Places::placing))]
pub(crate) fn wait_one(members: &mut ById, id: &MemberId, waits: Waits, now: Moment)
    requires keyed { AreKeyed members.old }
    ensures keyed { AreKeyed members.new }
    ensures waits { values members.new ≡ with_member id.now (waits_with now waits) (values members.old) }
{
    if let Some(place) = place_of(id, members) {
        begin_to_wait(&mut members[place], waits, now);
    }
}

#[tactic(auto, using(crate::proofs::Places::placing))]
pub(crate) fn recall_one(members: &mut ById, id: &MemberId, heard: Moment, waits: Waits)
    requires keyed { AreKeyed members.old }
    ensures keyed { AreKeyed members.new }
    ensures recalled { values members.new ≡ with_member id.now (recalled heard waits) (values members.old) }
{
    if let Some(place) = place_of(id, members) {
        recall(&mut members[place], heard, waits);
    }
}

// Returns a JOIN that brings what the member had before.
fn exchange_terms(member: &mut Member, join: CheckedJoin) -> CheckedJoin
    ensures given { member.new ≡ updated join member.old }
    ensures back { updated result member.new ≡ member.old }
{
    let CheckedJoin { request, session } = join;
    let before = member.session;
    member.session = session;
    let rebalance = mem::replace(&mut member.rebalance, request.rebalance);
    let protocols = mem::replace(&mut member.protocols, request.protocols);
    let request = JoinRequest {
        session_ms: before.get(),
        rebalance,
        protocols,
        ..request
    };
    CheckedJoin {
        request,
        session: before,
    }
}

#[tactic(auto, using(crate::proofs::Places::placing))]
pub(crate) fn exchange_terms_of(members: &mut ById, id: &MemberId, join: CheckedJoin) -> CheckedJoin
    requires keyed { AreKeyed members.old }
    ensures keyed { AreKeyed members.new }
    ensures given { values members.new ≡ with_member id.now (updated join) (values members.old) }
    ensures back { with_member id.now (updated result) (values members.new) ≡ values members.old }
{
    match place_of(id, members) {
        None => join,
        Some(place) => {
            let join = sharing_join(listed(members), join);
            exchange_terms(&mut members[place], join)
        }
    }
}

fn exchange_one(member: &mut Member, assignment: &mut Assignment)
    ensures member { member.new ≡ record member.old { assignment = assignment.old } }
    ensures assignment { assignment.new ≡ member.old.assignment }
{
    mem::swap(&mut member.assignment, assignment);
}

pub(crate) fn exchange_in(members: &mut ById, assignments: &mut [Assignment])
    requires keyed { AreKeyed members.old }
    requires same_len { length assignments.old ≡ length (values members.old) }
    ensures keyed { AreKeyed members.new }
    ensures members { values members.new ≡ with_assignments assignments.old (values members.old) }
    ensures assignments { assignments.new ≡ map (λ m. m.assignment) (values members.old) }
{
    for place in 0..members.len() {
        exchange_one(&mut members[place], &mut assignments[place]);
    }
}

pub(crate) fn answer_in(members: &mut ById, which: Calls, now: Moment)
    requires keyed { AreKeyed members.old }
    ensures keyed { AreKeyed members.new }
    ensures answered { values members.new ≡ map (after_answer which now) (values members.old) }
{
    for place in 0..members.len() {
        answer_one(&mut members[place], which, now);
    }
}

pub(crate) fn keep_others(members: &mut ById, id: &MemberId)
    requires keyed { AreKeyed members.old }
    ensures keyed { AreKeyed members.new }
    ensures kept { values members.new ≡ filter (λ m. not (has_id id.now m)) (values members.old) }
{
    members.retain(|_, m| !has_id(m, id));
}

pub(crate) fn keep_timely(members: &mut ById, now: Moment)
    requires keyed { AreKeyed members.old }
    ensures keyed { AreKeyed members.new }
    ensures kept { values members.new ≡ filter (λ m. not (is_overdue now m)) (values members.old) }
{
    members.retain(|_, m| !is_overdue(m, now));
}

pub(crate) fn keep_outstaying(members: &mut ById)
    requires keyed { AreKeyed members.old }
    ensures keyed { AreKeyed members.new }
    ensures kept { values members.new ≡ filter outstays (values members.old) }
{
    members.retain(|_, m| outstays(m));
}

/// Appends a member, under a copy of its id. If an allocation fails, the members are as they were.
pub(crate) fn append_one(members: &mut ById, member: Member) -> Result<(), AllocError>
    requires keyed { AreKeyed members.old }
    requires own_id { is_some (find_member member.id (values members.old)) ≡ false }
    ensures keyed { AreKeyed members.new }
    ensures ok { OnOk result (values members.new ≡ values members.old ++ member ∷ []) }
    ensures err { OnErr result (values members.new ≡ values members.old) }
{
    let id = member.id.clone()?;
    members.insert(id, member)?;
    Ok(())
}

// Moves the members from one map into another one, with the new member under its id in the place of the one that has its
// instance. Returns what was there, or the new member if there is none. No allocation.
pub(crate) fn seat_in(
    from: &mut ById,
    to: &mut ById,
    id: MemberId,
    member: Member,
) -> (MemberId, Member)
    requires keyed { AreKeyed from.old }
    requires empty { index_map_len to.old ≡ 0 }
    requires room { index_map_len from.old < spare to.old }
    requires own_key { id ≡ member.id }
    requires before { AreMembers (values from.old) }
    requires after { AreMembers (seating member (values from.old)) }
    ensures keyed { AreKeyed to.new }
    ensures seated { values to.new ≡ seating member (values from.old) }
    ensures back { seating result.1 (values to.new) ≡ values from.old }
    ensures back_key { result.0 ≡ result.1.id }
    ensures emptied { index_map_len from.new ≡ 0 }
    ensures room_left { index_map_len from.old + spare from.old ≤ spare from.new }
{
    let seat = seat_of(&member.instance, listed(from));
    to.append(from).unwrap();
    let Some(place) = seat else {
        return (id, member);
    };
    let before = to.shift_remove_index(place).unwrap();
    let _none = to.shift_insert(place, id, member).unwrap();
    before
}
