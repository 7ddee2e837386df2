//! Requests that are only parked: they change or add one member, and no rebalance begins or ends with them. The group is
//! changed in place, and not copied.
ghost use Rattle.std.specs.Prelude.{◌≡◌, ℕ, List, Some, Ok, true, IfOk, OnErr};
ghost use Rattle.std.specs.BTreeMap.{get};
ghost use Rattle.std.specs.Ordering.{nat_cmp};
ghost use Rattle.cg_group.specs.InPlace.{CameOn, IsStepped, Parks, parking_effects};
ghost use Rattle.cg_group_table.specs.GroupChanges.{FailsUnchanged, KeepsId};
ghost use Rattle.cg_group_table.specs.GroupTable.{IsHeld, find_group};
ghost use Rattle.cg_group_table.specs.SessionIndex.{AreKnown, IsFilled, IsLetGo, IsTight, is_home};
ghost use Rattle.cg_group_state.specs.declared.effects.Effects.{Effects};
ghost use Rattle.cg_group_state.specs.declared.group.Group.{Group};

use cg_group_state::{Effects, Few, Reply};
use cg_group_table::{GroupChange, GroupTable, SessionIndex, note, settle_request};
use cg_names::{Code, GroupId};
use cg_request::Ticket;
use std::alloc::{AllocError, Global};

/// Updates the session index for the session of the older call, if there is one. No allocation.
pub fn settle_older(
    homes: &mut SessionIndex,
    held: &GroupTable,
    own: &GroupId,
    older: Option<Ticket>,
)
    ensures known { AreKnown (is_home homes.old) held.now → AreKnown (is_home homes.new) held.now }
    ensures gone { (q : ℕ) → CameOn older q → IsLetGo homes.new held.now own.now q }
    ensures fewer { (q : ℕ) (x : List ℕ) → is_home homes.new q x ≡ true → is_home homes.old q x ≡ true }
    ensures filled { (q : ℕ) → IsFilled (get nat_cmp homes.old q) → IsFilled (get nat_cmp homes.new q) }
{
    if let Some(older) = older {
        settle_request::<Ticket>(homes, held, own, &[], older.session);
    }
}

/// Builds the effects of parking a call, without an allocation: 27 to the older call of its member, if there is one, and no
/// command.
pub fn parking_effects(alloc: Global, older: Option<Ticket>) -> Effects
    ensures { result ≡ parking_effects older }
{
    let refused = Reply::Refused(Code::RebalanceInProgress);
    Effects {
        commands: Few::new(alloc),
        replies: match older {
            None => Few::new(alloc),
            Some(older) => Few::one(alloc, (older, refused)),
        },
    }
}

/// Makes a step that only parks the call of its request, in the loaded group with this id; `older` is the older call of its
/// member. If an allocation fails, no group changes.
pub fn park_in<C: GroupChange<Output = Result<Effects, AllocError>> + Drop>(
    held: &mut GroupTable,
    homes: &mut SessionIndex,
    ticket: Ticket,
    own: &GroupId,
    change: C,
    older: Option<Ticket>,
) -> Result<Effects, AllocError>
    requires known { AreKnown (is_home homes.old) held.old }
    requires tight { IsTight homes.old held.old }
    requires loaded { IsHeld held.old own.now }
    requires keeps { KeepsId (C.Becomes change) }
    requires suits { (g : Group) → find_group own.now held.old ≡ Some g → C.Suits change g }
    requires fails { FailsUnchanged (C.Becomes change) }
    requires parks { (g after : Group) (e : Effects) → find_group own.now held.old ≡ Some g → C.Becomes change g after (Ok e) → Parks ticket older g after }
    ensures known { AreKnown (is_home homes.new) held.new }
    ensures tight { IsTight homes.new held.new }
    ensures ok { IfOk result (IsStepped (C.Becomes change) own.now held.old held.new) }
    ensures err { OnErr result (held.new ≡ held.old) }
{
    let id = own.clone()?;
    note(held.allocator(), homes, ticket.session, id)?;
    let Some(parked) = held.change(own, change) else {
        unreachable!()
    };
    match parked {
        Ok(effects) => {
            settle_older(homes, held, own, older);
            Ok(effects)
        }
        Err(wanting) => {
            settle_request::<Ticket>(homes, held, own, &[], ticket.session);
            Err(wanting)
        }
    }
}
