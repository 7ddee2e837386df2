//! JOIN (JoinGroup request): one in a group that is not loaded makes it, and is answered at once, as its member is alone; any
//! other that is not refused changes its group in place.
ghost use Rattle.std.specs.Prelude.{◌≡◌, ℕ, Bool, List, None, true, length, is_ok, IfOk, OnErr, Some, false, is_some};
ghost use Rattle.cg_group.specs.Machine.{concluded, join};
ghost use Rattle.cg_group_table.specs.GroupTable.{at_moment, find_group, outcome};
ghost use Rattle.cg_group_table.specs.SessionIndex.{AreKnown, StayParked, IsTight, is_home};
ghost use Rattle.cg_group_rules.specs.JoinChecks.{join_unheld};
ghost use Rattle.cg_group_state.specs.JoinTerms.{is_session_refused};
ghost use Rattle.cg_group.specs.InPlace.{IsWay};
ghost use Rattle.cg_request.specs.declared.ticket.Ticket.{Ticket};

use crate::parked_call::park_in;
use crate::parked_join::{EnteringJoin, NewMemberJoin, ParkedJoin, RebalanceJoin, rejoin_in};
use crate::rebalance_step::step_parking;
use crate::single_reply::reply_alone;
use cg_group_rules::{JoinWay, RequestContext, join_unheld, unheld_refusal, way_of_join};
use cg_group_state::{CheckedJoin, Effects, Reply, Turn, drawn};
use cg_group_table::{GroupTable, SessionIndex};
use cg_names::{Code, GroupId, Moment};
use cg_request::{JoinRequest, Ticket};
use std::alloc::AllocError;
use uuid::Uuid;

/// Processes a JOIN that makes the group with this id, which is not loaded, and is not refused.
#[tactic(auto, unfolding(crate::specs::Machine::concluded))]
pub fn create_in(
    context: RequestContext,
    held: &mut GroupTable,
    r: CheckedJoin,
    fresh: Uuid,
    id: GroupId,
) -> Result<Effects, AllocError>
    requires absent { find_group id held.old ≡ None }
    requires taken { is_ok (join_unheld context.now r fresh context.ticket (length held.old) id) ≡ true }
    ensures ok { IfOk result
        (λ e. concluded (at_moment context.now held.old) context.ticket (join_unheld context.now r fresh context.ticket (length held.old) id) ≡ outcome (at_moment context.now held.new) e) }
    ensures known { (homes : ℕ → List ℕ → Bool) → AreKnown homes held.old → AreKnown homes held.new }
    ensures parked { StayParked held.old held.new }
    ensures err { OnErr result (held.new ≡ held.old) }
{
    let loaded = held.len();
    let Turn {
        group,
        replies,
        commands,
    } = join_unheld(context, r, fresh, loaded, id)?;
    let _none = held.put(group)?;
    Ok(Effects { commands, replies })
}

// Processes a JOIN that names a group, and whose session timeout is within its limits.
fn handle_join_checked(
    context: RequestContext,
    held: &mut GroupTable,
    homes: &mut SessionIndex,
    r: CheckedJoin,
    fresh: Uuid,
) -> Result<Effects, AllocError>
    requires known { AreKnown (is_home homes.old) held.old }
    requires tight { IsTight homes.old held.old }
    requires named { is_some r.group ≡ true }
    requires lawful { is_session_refused r ≡ false }
    ensures known { AreKnown (is_home homes.new) held.new }
    ensures tight { IsTight homes.new held.new }
    ensures ok { IfOk result
        (λ e. concluded (at_moment context.now held.old) context.ticket (join context.now r fresh context.ticket held.old) ≡ outcome (at_moment context.now held.new) e) }
    ensures err { OnErr result (held.new ≡ held.old) }
    ensures taken { OnErr result (is_ok (join context.now r fresh context.ticket held.old) ≡ true) }
{
    let RequestContext { alloc, now, ticket } = context;
    let Some(own) = &r.request.group else {
        unreachable!()
    };
    match way_of(own, &r, fresh, held)? {
        JoinWay::Refused(code) => Ok(reply_alone(alloc, ticket, Reply::Refused(code))),
        JoinWay::Current(id, reply) => Ok(rejoin_in(now, held, ticket, own, id, reply)),
        JoinWay::Creates => {
            let group = own.clone()?;
            let effects = create_in(context, held, r, fresh, group)?;
            Ok(effects)
        }
        JoinWay::Parks(id, older) => {
            let group = own.clone()?;
            let id = id.clone()?;
            let change = ParkedJoin {
                context,
                id,
                request: r,
                older,
            };
            let effects = park_in(held, homes, ticket, &group, change, older)?;
            Ok(effects)
        }
        JoinWay::Rejoins(id) => {
            let group = own.clone()?;
            let id = id.clone()?;
            let change = RebalanceJoin {
                context,
                id,
                request: r,
            };
            let effects = step_parking(held, homes, ticket, &group, change)?;
            Ok(effects)
        }
        JoinWay::Enters => {
            let group = own.clone()?;
            let id = drawn(alloc, &r.request, fresh)?;
            let change = EnteringJoin {
                context,
                id,
                request: r,
            };
            let effects = park_in(held, homes, ticket, &group, change, None)?;
            Ok(effects)
        }
        JoinWay::Joins => {
            let group = own.clone()?;
            let id = drawn(alloc, &r.request, fresh)?;
            let change = NewMemberJoin {
                context,
                id,
                request: r,
            };
            let effects = step_parking(held, homes, ticket, &group, change)?;
            Ok(effects)
        }
    }
}

/// Processes a JOIN. Only one that is not refused needs an allocation.
#[tactic(auto, unfolding(crate::specs::Machine::join))]
pub fn handle_join(
    now: Moment,
    held: &mut GroupTable,
    homes: &mut SessionIndex,
    ticket: Ticket,
    r: JoinRequest,
    fresh: Uuid,
) -> Result<Effects, AllocError>
    requires known { AreKnown (is_home homes.old) held.old }
    requires tight { IsTight homes.old held.old }
    ensures known { AreKnown (is_home homes.new) held.new }
    ensures tight { IsTight homes.new held.new }
    ensures ok { IfOk result
        (λ e. concluded (at_moment now held.old) ticket (join now r fresh ticket held.old) ≡ outcome (at_moment now held.new) e) }
    ensures err { OnErr result (held.new ≡ held.old) }
    ensures taken { OnErr result (is_ok (join now r fresh ticket held.old) ≡ true) }
{
    let alloc = held.allocator();
    if r.group.is_none() {
        return Ok(reply_alone(alloc, ticket, Reply::Refused(Code::InvalidGroupId)));
    }
    match CheckedJoin::new(r) {
        None => Ok(reply_alone(alloc, ticket, Reply::Refused(Code::InvalidSessionTimeout))),
        Some(r) => {
            let context = RequestContext { alloc, now, ticket };
            let effects = handle_join_checked(context, held, homes, r, fresh)?;
            Ok(effects)
        }
    }
}

/// Returns the way that a JOIN takes whose session timeout is within its limits, in the group with this id. Costs one look-up of
/// the group, and passes over its members. Copies what the reply to a JOIN that changes nothing has: only a JOIN that is not
/// refused needs an allocation.
pub fn way_of<'a>(
    own: &GroupId,
    r: &'a CheckedJoin,
    fresh: Uuid,
    groups: &GroupTable,
) -> Result<JoinWay<'a>, AllocError>
    requires named { r.now.group ≡ Some own.now }
    requires lawful { is_session_refused r.now ≡ false }
    ensures ok { IfOk result (λ way. IsWay r.now fresh groups.now own.now way) }
    ensures taken { OnErr result ((now : ℕ) (ticket : Ticket) → is_ok (join now r.now fresh ticket groups.now) ≡ true) }
{
    match groups.find(own) {
        None => match unheld_refusal(&r.request, groups.len()) {
            Some(code) => Ok(JoinWay::Refused(code)),
            None => Ok(JoinWay::Creates),
        },
        Some(group) => {
            let way = way_of_join(groups.allocator(), &r.request, fresh, group)?;
            Ok(way)
        }
    }
}
