//! Requests that begin or end a rebalance, in a loaded group: the group is changed in place, and the session index is kept.
ghost use Rattle.std.specs.Prelude.{◌≡◌, Some, Ok, IfOk, OnErr};
ghost use Rattle.cg_group.specs.InPlace.{IsStepped, StepKnown, StepParks};
ghost use Rattle.cg_group_table.specs.GroupChanges.{FailsUnchanged, KeepsId};
ghost use Rattle.cg_group_table.specs.GroupTable.{IsHeld, find_group};
ghost use Rattle.cg_group_table.specs.SessionIndex.{AreKnown, IsTight, is_home};
ghost use Rattle.cg_group_rules.specs.Rebalance.{turned};
ghost use Rattle.cg_group_state.specs.declared.effects.Effects.{Effects};
ghost use Rattle.cg_group_state.specs.declared.group.Group.{Group};

use cg_group_state::Effects;
use cg_group_table::{
    GroupChange, GroupTable, SessionIndex, note, parked_calls, settle, settle_request,
};
use cg_names::GroupId;
use cg_request::Ticket;
use std::alloc::AllocError;

/// Makes a step that may park the call of its request, in the loaded group with this id. If an allocation fails, no group
/// changes.
pub fn step_parking<C: GroupChange<Output = Result<Effects, AllocError>> + Drop>(
    held: &mut GroupTable,
    homes: &mut SessionIndex,
    ticket: Ticket,
    own: &GroupId,
    change: C,
) -> Result<Effects, AllocError>
    requires known { AreKnown (is_home homes.old) held.old }
    requires tight { IsTight homes.old held.old }
    requires loaded { IsHeld held.old own.now }
    requires keeps { KeepsId (C.Becomes change) }
    requires suits { (g : Group) → find_group own.now held.old ≡ Some g → C.Suits change g }
    requires fails { FailsUnchanged (C.Becomes change) }
    requires parks { (g after : Group) (e : Effects) → find_group own.now held.old ≡ Some g → C.Becomes change g after (Ok e) → StepParks held.old ticket (turned after e) }
    ensures known { AreKnown (is_home homes.new) held.new }
    ensures tight { IsTight homes.new held.new }
    ensures ok { IfOk result (IsStepped (C.Becomes change) own.now held.old held.new) }
    ensures err { OnErr result (held.new ≡ held.old) }
{
    let parked = parked_calls(held, own)?;
    let id = own.clone()?;
    note(held.allocator(), homes, ticket.session, id)?;
    let Some(stepped) = held.change(own, change) else {
        unreachable!()
    };
    settle_request(homes, held, own, parked.as_slice(), ticket.session);
    stepped
}

/// Makes a step that parks no call, in the loaded group with this id. If an allocation fails, no group changes.
pub fn step_leaving<C: GroupChange<Output = Result<Effects, AllocError>> + Drop>(
    held: &mut GroupTable,
    homes: &mut SessionIndex,
    own: &GroupId,
    change: C,
) -> Result<Effects, AllocError>
    requires known { AreKnown (is_home homes.old) held.old }
    requires tight { IsTight homes.old held.old }
    requires loaded { IsHeld held.old own.now }
    requires keeps { KeepsId (C.Becomes change) }
    requires suits { (g : Group) → find_group own.now held.old ≡ Some g → C.Suits change g }
    requires fails { FailsUnchanged (C.Becomes change) }
    requires leaves { (g after : Group) (e : Effects) → find_group own.now held.old ≡ Some g → C.Becomes change g after (Ok e) → StepKnown held.old (turned after e) }
    ensures known { AreKnown (is_home homes.new) held.new }
    ensures tight { IsTight homes.new held.new }
    ensures ok { IfOk result (IsStepped (C.Becomes change) own.now held.old held.new) }
    ensures err { OnErr result (held.new ≡ held.old) }
{
    let parked = parked_calls(held, own)?;
    let Some(stepped) = held.change(own, change) else {
        unreachable!()
    };
    match stepped {
        Ok(effects) => {
            settle(homes, held, own, parked.as_slice());
            Ok(effects)
        }
        Err(wanting) => Err(wanting),
    }
}
