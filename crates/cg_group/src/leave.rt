//! LEAVE (LeaveGroup request): one that is not refused changes its group in place.
ghost use Rattle.std.specs.Prelude.{◌≡◌, ℕ, Err, true, is_ok, IfOk, OnErr, MatchOption, MatchResult, ⊤};
ghost use Rattle.cg_group.specs.InPlace.{IsDeparture, IsLeaving, departing_effects};
ghost use Rattle.cg_group.specs.Machine.{concluded, leave};
ghost use Rattle.cg_group_table.specs.GroupTable.{at_moment, outcome};
ghost use Rattle.cg_group_table.specs.SessionIndex.{AreKnown, IsTight, is_home};
ghost use Rattle.cg_request.specs.declared.ticket.Ticket.{Ticket};

use crate::named_group::named;
use crate::parked_call::settle_older;
use crate::rebalance_step::step_leaving;
use crate::single_reply::reply_alone;
use cg_group_rules::{RequestContext, departing, leave_in, leave_refusal, remove_member};
use cg_group_state::{Calls, Effects, Few, Group, Reply};
use cg_group_table::{GroupChange, GroupTable, SessionIndex};
use cg_names::{Code, GroupId, MemberId, Moment};
use cg_request::{LeaveRequest, Ticket};
use std::alloc::{AllocError, Global};

/// The change of a group by a LEAVE that only removes its member.
#[derive(Drop)]
struct Removal {
    id: MemberId,
}

impl GroupChange for Removal {
    ghost use Rattle.std.specs.Prelude.{◌≡◌, not};
    ghost use Rattle.cg_group_state.specs.Membership.{has_id, keeping};

    type Output = ();

    ghost Becomes = { λ p g after _. after ≡ keeping (λ other. not (has_id p.id other)) g };

    fn change(self, group: &mut Group) {
        remove_member(&self.id, group);
    }
}

// Returns the ids of the group and the member of a LEAVE that only removes its member, and the member's parked call, if any.
// Returns `None` for any other LEAVE. Copies the member's id.
fn departure<'a>(
    r: &'a LeaveRequest,
    groups: &GroupTable,
) -> Result<Option<(&'a GroupId, MemberId, Option<Ticket>)>, AllocError>
    ensures ok { IfOk result (λ o. MatchOption o ⊤ (λ p. IsDeparture r.now groups.now p.0.now p.1 p.2)) }
    ensures taken { OnErr result ((now : ℕ) (ticket : Ticket) → is_ok (leave now r.now ticket groups.now) ≡ true) }
{
    let Ok((own, group)) = named(groups, &r.group) else {
        return Ok(None);
    };
    match departing(r, group) {
        None => Ok(None),
        Some(member) => {
            let id = member.id.clone()?;
            Ok(Some((own, id, Calls::Any.called(member.waits))))
        }
    }
}

// Builds the effects: 25 to the parked call of the member, if there is one, OK to the LEAVE, and no command.
fn departing_effects(
    alloc: Global,
    ticket: Ticket,
    parked: Option<Ticket>,
) -> Result<Effects, AllocError>
    ensures { IfOk result (λ e. e ≡ departing_effects ticket parked) }
{
    let mut replies = Few::new(alloc);
    if let Some(parked) = parked {
        replies.push((parked, Reply::Refused(Code::UnknownMemberId)))?;
    }
    replies.push((ticket, Reply::Done))?;
    Ok(Effects {
        commands: Few::new(alloc),
        replies,
    })
}

/// A LEAVE in its loaded group, which does not refuse it, as a change of the group.
#[derive(Drop)]
struct LeaveStep<'a> {
    context: RequestContext,
    request: &'a LeaveRequest,
}

impl<'a> GroupChange for LeaveStep<'a> {
    ghost use Rattle.std.specs.Prelude.{◌≡◌, Ok, true, is_ok};
    ghost use Rattle.cg_group_table.specs.GroupChanges.{StepsTo};
    ghost use Rattle.cg_group_rules.specs.Leave.{leave_held};

    type Output = Result<Effects, AllocError>;

    ghost Suits = { λ s g. is_ok (leave_held s.context.now s.request.now s.context.ticket g) ≡ true };

    ghost Becomes = { λ s g. StepsTo (λ t. leave_held s.context.now s.request.now s.context.ticket g ≡ Ok t) g };

    fn change(self, group: &mut Group) -> Result<Effects, AllocError> {
        let LeaveStep { context, request } = self;
        let effects = leave_in(context, request, group)?;
        Ok(effects)
    }
}

// Returns the id of the group of a LEAVE that is not refused, or the error code. No allocation.
fn leaving<'a>(r: &'a LeaveRequest, groups: &GroupTable) -> Result<&'a GroupId, Code>
    ensures { MatchResult result
        (λ own. IsLeaving r.now groups.now own.now)
        (λ code. (now : ℕ) (ticket : Ticket) → leave now r.now ticket groups.now ≡ Err code) }
{
    match named(groups, &r.group) {
        Err(code) => Err(code),
        Ok((own, group)) => match leave_refusal(r, group) {
            Some(code) => Err(code),
            None => Ok(own),
        },
    }
}

/// Processes a LEAVE, in place. One that only removes its member costs less. Only a LEAVE that is not refused needs an
/// allocation.
pub fn handle_leave(
    now: Moment,
    held: &mut GroupTable,
    homes: &mut SessionIndex,
    ticket: Ticket,
    r: &LeaveRequest,
) -> Result<Effects, AllocError>
    requires known { AreKnown (is_home homes.old) held.old }
    requires tight { IsTight homes.old held.old }
    ensures known { AreKnown (is_home homes.new) held.new }
    ensures tight { IsTight homes.new held.new }
    ensures ok { IfOk result
        (λ e. concluded (at_moment now held.old) ticket (leave now r.now ticket held.old) ≡ outcome (at_moment now held.new) e) }
    ensures err { OnErr result (held.new ≡ held.old) }
    ensures taken { OnErr result (is_ok (leave now r.now ticket held.old) ≡ true) }
{
    let alloc = held.allocator();
    if let Some((own, id, parked)) = departure(r, held)? {
        let effects = departing_effects(alloc, ticket, parked)?;
        let _removed = held.change(own, Removal { id });
        settle_older(homes, held, own, parked);
        return Ok(effects);
    }
    match leaving(r, held) {
        Err(code) => Ok(reply_alone(alloc, ticket, Reply::Refused(code))),
        Ok(own) => {
            let change = LeaveStep {
                context: RequestContext { alloc, now, ticket },
                request: r,
            };
            let effects = step_leaving(held, homes, own, change)?;
            Ok(effects)
        }
    }
}
