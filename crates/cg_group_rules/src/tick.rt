//! Ticks: expired sessions, and the deadline of a rebalance (KIP-62). What a tick comes to is worked out before the group
//! changes.
ghost use Rattle.std.specs.Prelude.{◌≡◌, ◌||◌, max, IfOk, if◌then◌else◌};
ghost use Rattle.std.specs.List.{list_any};
ghost use Rattle.cg_group_state.specs.declared.calls.Calls.TheVariants.{Any, Joins};
ghost use Rattle.cg_group_state.specs.Membership.{is_empty};
ghost use Rattle.cg_group_rules.specs.Rebalance.{turned};
ghost use Rattle.cg_group_state.specs.Staying.{remaining, stays};
ghost use Rattle.cg_group_rules.specs.Tick.{greatest_rebalance, is_due, at_deadline, ticked};
ghost use Rattle.cg_group_state.specs.Waiting.{is_waiting};
ghost use Rattle.cg_group_rules.specs.TickPlan.{at_end, begins_at, carried, first_effects, is_over, thinned};

use crate::leave::{check_leader, has_joined};
use crate::rebalance::{
    Round, carry_out, completion, enter, is_preparing, is_ready, is_under_way, none_stays, planned,
    refuse_syncs_of,
};
use cg_group_state::{Calls, Effects, Group, Member, Staying, is_waiting};
use cg_names::Moment;
use std::alloc::{AllocError, Global};

/// What a tick comes to in a group: the round with which a rebalance completes, if one does.
#[derive(Drop)]
pub struct TickPlan {
    round: Option<Round>,
}

// Returns whether a session has expired of members that had joined, so that a rebalance begins.
fn begins_at(now: Moment, group: &Group) -> bool
    ensures { result ≡ begins_at now group.now }
{
    group.members.has_overdue(now) && has_joined(group.phase)
}

// Removes the members whose session has expired. A rebalance begins if they had joined.
#[tactic(auto, unfolding(cg_group_state::specs::Membership::keeping))]
fn thin(now: Moment, group: &mut Group)
    ensures { group.new ≡ thinned now group.old }
{
    if !group.members.has_overdue(now) {
        return;
    }
    let begins = has_joined(group.phase);
    group.members.remove_overdue(now);
    check_leader(group);
    carry_out(now, begins, None, group);
}

// Returns the greater of this timeout and the member's, if the member stays.
fn raised(who: &Staying, member: &Member, greatest: u32) -> u32
    ensures { result ≡ if stays who.now member.now then max greatest member.now.rebalance else greatest }
{
    if who.keeps(member) {
        greatest.max(member.rebalance.get())
    } else {
        greatest
    }
}

pub(crate) fn greatest_rebalance(who: &Staying, members: &[Member]) -> u32
    ensures { result ≡ greatest_rebalance (remaining who.now members.now) }
{
    let mut greatest = 0;
    for member in members {
        greatest = raised(who, member, greatest);
    }
    greatest
}

#[tactic(auto, using(cg_group_state::proofs::Remaining::all_stay))]
pub(crate) fn is_due(now: Moment, group: &Group) -> bool
    ensures { result ≡ is_due now group.now }
{
    let members = group.members.as_slice();
    is_preparing(group.phase)
        && now.is_past(group.started, greatest_rebalance(&Staying::All, members))
}

// If the rebalance has lasted its time: removes the members that do not outstay it, and completes it with the round or, without
// one, starts its time again.
#[tactic(auto, unfolding(cg_group_state::specs::Membership::keeping))]
fn end(now: Moment, round: Option<Round>, group: &mut Group)
    ensures { group.new ≡ at_end now round group.old }
{
    if !is_due(now, group) {
        return;
    }
    group.members.remove_idle();
    check_leader(group);
    match round {
        None => group.started = now,
        Some(round) => enter(now, round, group),
    }
}

/// Carries out a tick in the group for which it was planned. No allocation.
pub fn carry_out_tick(now: Moment, plan: TickPlan, group: &mut Group)
    ensures { group.new ≡ carried now plan group.old }
{
    let TickPlan { round } = plan;
    thin(now, group);
    if is_ready(group) {
        carry_out(now, false, round, group);
    } else {
        end(now, round, group);
    }
}

// Returns whether the rebalance has lasted its time, once the members whose session has expired are gone. A rebalance that
// begins at this tick ends at once if all rebalance timeouts are 0.
fn is_over(now: Moment, begins: bool, group: &Group) -> bool
    ensures { result ≡ is_over now begins group.now }
{
    let started = if begins { now } else { group.started };
    let greatest = greatest_rebalance(&Staying::Unexpired(now), group.members.as_slice());
    is_under_way(begins, group.phase) && now.is_past(started, greatest)
}

// Returns the parked calls with which a dynamic member outstays the rebalance: a SYNC has its reply if the rebalance just began.
fn outstaying(begins: bool) -> Calls
    ensures { result ≡ if begins then Joins else Any }
{
    if begins { Calls::Joins } else { Calls::Any }
}

fn staying_waits(calls: Calls, who: &Staying, members: &[Member]) -> bool
    ensures { result ≡ list_any (is_waiting calls) (remaining who.now members.now) }
{
    members
        .iter()
        .filter(|m| who.keeps(m))
        .any(|m| is_waiting(calls, m))
}

// Returns whether no member stays, or one with a parked call.
fn can_complete(calls: Calls, who: &Staying, members: &[Member]) -> bool
    ensures { result ≡ (is_empty (remaining who.now members.now) || list_any (is_waiting calls) (remaining who.now members.now)) }
{
    none_stays(who, members) || staying_waits(calls, who, members)
}

// Returns the round with which the rebalance completes, if it has lasted its time and can complete, and appends the effects of
// that.
fn planned_end(
    alloc: Global,
    now: Moment,
    begins: bool,
    group: &Group,
    effects: &mut Effects,
) -> Result<Option<Round>, AllocError>
    ensures { IfOk result (λ round. begins ≡ begins_at now group.now
        → at_deadline now (turned (thinned now group.now) effects.old) ≡ turned (at_end now round (thinned now group.now)) effects.new) }
{
    if !is_over(now, begins, group) {
        return Ok(None);
    }
    let calls = outstaying(begins);
    let who = Staying::Outstaying(now, calls);
    if !can_complete(calls, &who, group.members.as_slice()) {
        return Ok(None);
    }
    let round = completion(alloc, now, &who, group, effects)?;
    Ok(Some(round))
}

// Returns the effects with which a rebalance begins, if it does: every parked SYNC of the members that stay gets 27.
fn first_effects(
    alloc: Global,
    now: Moment,
    begins: bool,
    members: &[Member],
) -> Result<Effects, AllocError>
    ensures { IfOk result (λ e. e ≡ first_effects now begins members.now) }
{
    let mut effects = Effects::new(alloc);
    if begins {
        refuse_syncs_of(&Staying::Unexpired(now), members, &mut effects.replies)?;
    }
    Ok(effects)
}

/// Returns what a tick comes to in the group, and its effects. The group stays as it is. Linear in the members. Allocates only
/// if a rebalance begins or completes.
pub fn plan_tick(
    alloc: Global,
    now: Moment,
    group: &Group,
) -> Result<(TickPlan, Effects), AllocError>
    ensures { IfOk result (λ p. ticked now group.now ≡ turned (carried now p.0 group.now) p.1) }
{
    let begins = begins_at(now, group);
    let mut effects = first_effects(alloc, now, begins, group.members.as_slice())?;
    let unexpired = Staying::Unexpired(now);
    if let Some(round) = planned(alloc, now, begins, &unexpired, group, &mut effects)? {
        let round = Some(round);
        return Ok((TickPlan { round }, effects));
    }
    let round = planned_end(alloc, now, begins, group, &mut effects)?;
    Ok((TickPlan { round }, effects))
}
