//! SYNC (SyncGroup request). It changes its group in place: the member gets its assignment at once, or its call is only parked,
//! or the member leads and hands the assignments in.
ghost use Rattle.std.specs.Prelude.{◌≡◌, ℕ, Bool, List, true, Err, is_ok, IfOk, OnErr, MatchResult};
ghost use Rattle.cg_group.specs.InPlace.{IsSync};
ghost use Rattle.cg_group.specs.Machine.{concluded, sync};
ghost use Rattle.cg_group_table.specs.GroupTable.{at_moment, outcome};
ghost use Rattle.cg_group_table.specs.SessionIndex.{AreKnown, IsTight, StayParked, is_home};
ghost use Rattle.cg_group_rules.specs.declared.sync.SyncCase.TheVariants.{Current};

use crate::named_group::named;
use crate::parked_call::{park_in, parking_effects};
use crate::rebalance_step::step_parking;
use crate::single_reply::{hear_in, reply_alone};
use cg_group_rules::{RequestContext, SyncCase, case_of, distribute_in, syncer};
use cg_group_state::{Effects, Group, Reply, Waits};
use cg_group_table::{GroupChange, GroupTable, SessionIndex};
use cg_names::{Code, GroupId, MemberId, Moment};
use cg_record::Assignment;
use cg_request::{SyncEntries, SyncRequest, Ticket};
use std::alloc::AllocError;

// Returns the ids of the group and the member of a SYNC that is not refused, with the way in which it is processed, or its error
// code. Copies the assignment that the member gets at once: only a SYNC that is not refused needs an allocation.
#[tactic(auto, unfolding(crate::specs::Machine::sync))]
fn syncing<'a>(
    r: &'a SyncRequest,
    groups: &GroupTable,
) -> Result<Result<(&'a GroupId, &'a MemberId, SyncCase), Code>, AllocError>
    ensures ok { IfOk result (λ o. MatchResult o
        (λ p. IsSync r.now groups.now p.0.now p.1.now p.2)
        (λ code. (now : ℕ) (ticket : Ticket) → sync now r.now ticket groups.now ≡ Err code)) }
    ensures taken { OnErr result ((now : ℕ) (ticket : Ticket) → is_ok (sync now r.now ticket groups.now) ≡ true) }
{
    let (own, group) = match named(groups, &r.group) {
        Ok(named) => named,
        Err(code) => return Ok(Err(code)),
    };
    let (id, member) = match syncer(r, group) {
        Ok(who) => who,
        Err(code) => return Ok(Err(code)),
    };
    let which = case_of(group, member)?;
    Ok(Ok((own, id, which)))
}

// Processes a SYNC that gets its reply at once, without an allocation.
fn sync_in(
    now: Moment,
    held: &mut GroupTable,
    ticket: Ticket,
    own: &GroupId,
    id: &MemberId,
    assignment: Assignment,
) -> Effects
    ensures met { (r : SyncRequest) → IsSync r held.old own.now id.now (Current assignment)
        → concluded (at_moment now held.old) ticket (sync now r ticket held.old) ≡ outcome (at_moment now held.new) result }
    ensures known { (r : SyncRequest) (homes : ℕ → List ℕ → Bool) → IsSync r held.old own.now id.now (Current assignment) → AreKnown homes held.old → AreKnown homes held.new }
    ensures parked { (r : SyncRequest) → IsSync r held.old own.now id.now (Current assignment) → StayParked held.old held.new }
{
    hear_in(now, held, own, id, ticket, Reply::Synced(assignment))
}

/// A SYNC that is only parked, as a change of its group: its member is heard, and the call parked in place of this older one.
#[derive(Drop)]
struct ParkedSync<'a> {
    context: RequestContext,
    id: &'a MemberId,
    older: Option<Ticket>,
}

impl<'a> GroupChange for ParkedSync<'a> {
    ghost use Rattle.std.specs.Prelude.{◌≡◌};
    ghost use Rattle.cg_group.specs.InPlace.{IsCallOf};
    ghost use Rattle.cg_group_table.specs.GroupChanges.{StepsTo};
    ghost use Rattle.cg_group_rules.specs.Join.{waiting};
    ghost use Rattle.cg_group_state.specs.Membership.{hearing};
    ghost use Rattle.cg_group_rules.specs.Rebalance.{turn_of};
    ghost use Rattle.cg_group_state.specs.declared.member.Waits.TheVariants.{Sync};

    type Output = Result<Effects, AllocError>;

    ghost Suits = { λ p g. IsCallOf p.older p.id.now g };

    ghost Becomes = { λ p g. StepsTo (λ t. t ≡ waiting p.context.now p.id.now (Sync p.context.ticket) (turn_of (hearing p.context.now p.id.now g))) g };

    #[tactic(auto, unfolding(cg_group_state::specs::Membership::hearing))]
    fn change(self, group: &mut Group) -> Result<Effects, AllocError> {
        let ParkedSync { context, id, older } = self;
        let RequestContext { alloc, now, ticket } = context;
        let _before = group.members.hear(id, now);
        group.members.wait(id, Waits::Sync(ticket), now);
        Ok(parking_effects(alloc, older))
    }
}

/// A leader's SYNC, which hands these assignments in, as a change of its group.
#[derive(Drop)]
struct Distribution {
    context: RequestContext,
    id: MemberId,
    entries: SyncEntries,
}

impl GroupChange for Distribution {
    ghost use Rattle.std.specs.Prelude.{◌≡◌};
    ghost use Rattle.cg_group_table.specs.GroupChanges.{StepsTo};
    ghost use Rattle.cg_group_rules.specs.SyncSteps.{IsLeader, distributing};

    type Output = Result<Effects, AllocError>;

    ghost Suits = { λ d g. IsLeader d.id g };

    ghost Becomes = { λ d g. StepsTo (λ t. t ≡ distributing d.context.now d.id d.context.ticket d.entries g) g };

    fn change(self, group: &mut Group) -> Result<Effects, AllocError> {
        let Distribution {
            context,
            id,
            entries,
        } = self;
        distribute_in(context, entries, &id, group)
    }
}

/// Processes a SYNC. Changes its group in place, and copies nothing of it but the assignment in a reply. Only a SYNC that is not
/// refused needs an allocation.
pub fn handle_sync(
    now: Moment,
    held: &mut GroupTable,
    homes: &mut SessionIndex,
    ticket: Ticket,
    r: SyncRequest,
) -> Result<Effects, AllocError>
    requires known { AreKnown (is_home homes.old) held.old }
    requires tight { IsTight homes.old held.old }
    ensures known { AreKnown (is_home homes.new) held.new }
    ensures tight { IsTight homes.new held.new }
    ensures ok { IfOk result
        (λ e. concluded (at_moment now held.old) ticket (sync now r ticket held.old) ≡ outcome (at_moment now held.new) e) }
    ensures err { OnErr result (held.new ≡ held.old) }
    ensures taken { OnErr result (is_ok (sync now r ticket held.old) ≡ true) }
{
    let alloc = held.allocator();
    let (own, id, which) = match syncing(&r, held)? {
        Ok(taken) => taken,
        Err(code) => return Ok(reply_alone(alloc, ticket, Reply::Refused(code))),
    };
    let context = RequestContext { alloc, now, ticket };
    match which {
        SyncCase::Current(assignment) => Ok(sync_in(now, held, ticket, own, id, assignment)),
        SyncCase::Parked(older) => {
            let change = ParkedSync { context, id, older };
            let effects = park_in(held, homes, ticket, own, change, older)?;
            Ok(effects)
        }
        SyncCase::Leading => {
            let group = own.clone()?;
            let leader = id.clone()?;
            let change = Distribution {
                context,
                id: leader,
                entries: r.entries,
            };
            let effects = step_parking(held, homes, ticket, &group, change)?;
            Ok(effects)
        }
    }
}
