//! What may have a parked call, and the parked calls of a group.
ghost use Rattle.std.specs.Prelude.{◌≡◌, ◌++◌, Some, IfOk, OnOk, option_to_list};
ghost use Rattle.cg_group_table.specs.GroupTable.{find_group};
ghost use Rattle.cg_group_table.specs.SessionIndex.{parked_calls};
ghost use Rattle.cg_group_state.specs.declared.calls.Calls.TheVariants.{Any};
ghost use Rattle.cg_group_state.specs.declared.group.Group.{Group};
ghost use Rattle.cg_group_state.specs.Waiting.{called};

use crate::group_table::GroupTable;
use cg_group_state::{Calls, Member};
use cg_names::GroupId;
use cg_request::Ticket;
use std::alloc::{AllocError, Global};

/// What may have a parked call: a member, or a call by itself.
pub trait Calling {
    ghost use Rattle.std.specs.Prelude.{Option};
    ghost use Rattle.cg_request.specs.declared.ticket.Ticket.{Ticket};

    ghost call: { Self → Option Ticket };

    /// Returns the parked call, if there is one.
    fn call(&self) -> Option<Ticket>
        ensures { result ≡ call self.now };
}

impl Calling for Member {
    ghost call = { λ m. called Any m.waits };

    fn call(&self) -> Option<Ticket> {
        Calls::Any.called(self.waits)
    }
}

impl Calling for Ticket {
    ghost call = { λ t. Some t };

    fn call(&self) -> Option<Ticket> {
        Some(*self)
    }
}

// Appends the member's parked call, if it has one.
fn add_call(calls: &mut Vec<Ticket>, member: &Member) -> Result<(), AllocError>
    ensures { OnOk result (calls.new.items ≡ calls.old.items ++ option_to_list (called Any member.now.waits)) }
{
    if let Some(call) = Calls::Any.called(member.waits) {
        calls.push(call)?;
    }
    Ok(())
}

// Returns the parked calls of these members, in their order.
fn calls_among(alloc: Global, members: &[Member]) -> Result<Vec<Ticket>, AllocError>
    ensures { IfOk result (λ calls. calls.items ≡ parked_calls members.now) }
{
    let mut calls = Vec::new(alloc);
    for member in members {
        add_call(&mut calls, member)?;
    }
    Ok(calls)
}

/// Returns the parked calls of the group with this id, in joining order. Allocates only if there is one.
pub fn parked_calls(held: &GroupTable, id: &GroupId) -> Result<Vec<Ticket>, AllocError>
    ensures { IfOk result (λ calls. (g : Group) → find_group id.now held.now ≡ Some g → calls.items ≡ parked_calls g.members) }
{
    let alloc = held.allocator();
    match held.find(id) {
        None => Ok(Vec::new(alloc)),
        Some(group) => {
            let calls = calls_among(alloc, group.members.as_slice())?;
            Ok(calls)
        }
    }
}
