//! DELETE (DeleteGroups request), and the group that a DELETE or a DROP names.
ghost use Rattle.std.specs.Prelude.{◌≡◌, ℕ, false, Ok, Err, true, is_ok, IfOk, OnErr, MatchResult};
ghost use Rattle.cg_group.specs.Machine.{deleted, deleted_alone, memberless};
ghost use Rattle.cg_group_table.specs.GroupTable.{at_moment, find_group, outcome};
ghost use Rattle.cg_group_table.specs.SessionIndex.{StayParked, is_parked};
ghost use Rattle.cg_group_state.specs.Offsets.{offsets_after};

use crate::single_reply::reply_alone;
use cg_fold::Offsets;
use cg_group_state::{Effects, Few, Reply};
use cg_group_table::{GroupTable, forget};
use cg_names::{Code, GroupId, Moment};
use cg_record::{Command, Deleted};
use cg_request::Ticket;
use std::alloc::{AllocError, Global};

// Returns the group that a DELETE removes, or from which a DROP removes offsets. Reports 69 if it is not loaded, and 68 if it has
// members.
#[tactic(auto, unfolding(crate::specs::Machine::memberless))]
pub fn memberless<'a>(id: &'a Option<GroupId>, groups: &GroupTable) -> Result<&'a GroupId, Code>
    ensures deleted { MatchResult result
        (λ own. memberless id.now groups.now ≡ Ok own.now)
        (λ code. memberless id.now groups.now ≡ Err code) }
    ensures idle { IfOk result (λ own. (q : ℕ) → is_parked q (find_group own.now groups.now) ≡ false) }
{
    let Some(own) = id else {
        return Err(Code::InvalidGroupId);
    };
    let Some(group) = groups.find(own) else {
        return Err(Code::GroupIdNotFound);
    };
    if group.members.len() != 0 {
        return Err(Code::NonEmptyGroup);
    }
    Ok(own)
}

fn deleted_alone(alloc: Global, ticket: Ticket, group: GroupId) -> Effects
    ensures { result ≡ deleted_alone ticket group }
{
    let command = Command::Deleted(Deleted { group });
    Effects {
        commands: Few::one(alloc, command),
        replies: Few::one(alloc, (ticket, Reply::Done)),
    }
}

/// Removes the group and its offsets.
#[tactic(auto, unfolding(crate::specs::Machine::deleted, cg_fold::specs::Durable::effect))]
pub fn handle_delete(
    now: Moment,
    held: &mut GroupTable,
    offsets: &mut Offsets,
    ticket: Ticket,
    id: &Option<GroupId>,
) -> Result<Effects, AllocError>
    ensures ok { IfOk result
        (λ e. deleted (at_moment now held.old) ticket (memberless id.now held.old) ≡ outcome (at_moment now held.new) e) }
    ensures parked { StayParked held.old held.new }
    ensures offsets { IfOk result (λ e. offsets.new ≡ offsets_after offsets.old e.commands) }
    ensures err { OnErr result ((held.new ≡ held.old) × (offsets.new ≡ offsets.old)) }
    ensures taken { OnErr result (is_ok (memberless id.now held.old) ≡ true) }
{
    let alloc = held.allocator();
    match memberless(id, held) {
        Err(code) => Ok(reply_alone(alloc, ticket, Reply::Refused(code))),
        Ok(own) => {
            let group = own.clone()?;
            let effects = deleted_alone(alloc, ticket, group);
            held.remove(own);
            offsets.forget(own);
            Ok(effects)
        }
    }
}
