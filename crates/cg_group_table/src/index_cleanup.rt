//! After an event: drops from the session index the groups in which no call of a session is parked any more.
ghost use Rattle.std.specs.Prelude.{◌≡◌, ◌⊎◌, ℕ, List, Some, true, false};
ghost use Rattle.std.specs.BTreeMap.{get};
ghost use Rattle.std.specs.List.{list_any};
ghost use Rattle.std.specs.Ordering.{nat_cmp};
ghost use Rattle.cg_group_state.specs.declared.calls.Calls.TheVariants.{OfSession};
ghost use Rattle.cg_group_state.specs.declared.group.Group.{Group};
ghost use Rattle.cg_group_state.specs.declared.member.Member.{Member};
ghost use Rattle.cg_group_table.specs.GroupTable.{InOrder, find_group};
ghost use Rattle.cg_group_table.specs.Kept.{Each};
ghost use Rattle.cg_group_table.specs.SessionIndex.{AreKnown, IfParked, IsFilled, IsLetGo, IsSettled, is_certain, is_home, is_known, is_parked};
ghost use Rattle.cg_group_state.specs.Waiting.{is_waiting};

use crate::group_table::GroupTable;
use crate::parked::Calling;
use crate::session_index::{SessionIndex, affirm, doubt, leave};
use cg_group_state::{Calls, Group, Member};
use cg_names::GroupId;

// Marks the group as doubtful for the session of the parked call, if there is one.
fn doubt_one<P: Calling>(homes: &mut SessionIndex, id: &GroupId, parked: &P)
    ensures here { IfParked (λ q. is_certain homes.new q id.now ≡ false) (P.call parked.now) }
    ensures doubtful { (q : ℕ) → is_certain homes.old q id.now ≡ false → is_certain homes.new q id.now ≡ false }
    ensures kept { (q : ℕ) (x : List ℕ) → is_home homes.old q x ≡ true → is_home homes.new q x ≡ true }
    ensures fewer { (q : ℕ) (x : List ℕ) → is_home homes.new q x ≡ true → is_home homes.old q x ≡ true }
    ensures filled { (q : ℕ) → IsFilled (get nat_cmp homes.old q) → IsFilled (get nat_cmp homes.new q) }
{
    if let Some(ticket) = parked.call() {
        doubt(homes, ticket.session, id);
    }
}

// Marks the group as doubtful for each session with one of these parked calls.
fn doubt_all<P: Calling>(homes: &mut SessionIndex, id: &GroupId, parked: &[P])
    ensures here { Each (λ p. IfParked (λ q. is_certain homes.new q id.now ≡ false) (P.call p)) parked.now }
    ensures doubtful { (q : ℕ) → is_certain homes.old q id.now ≡ false → is_certain homes.new q id.now ≡ false }
    ensures kept { (q : ℕ) (x : List ℕ) → is_home homes.old q x ≡ true → is_home homes.new q x ≡ true }
    ensures fewer { (q : ℕ) (x : List ℕ) → is_home homes.new q x ≡ true → is_home homes.old q x ≡ true }
    ensures filled { (q : ℕ) → IsFilled (get nat_cmp homes.old q) → IsFilled (get nat_cmp homes.new q) }
{
    for call in parked {
        doubt_one(homes, id, call);
    }
}

fn affirm_one(homes: &mut SessionIndex, id: &GroupId, member: &Member)
    ensures kept { (q : ℕ) (x : List ℕ) → is_home homes.old q x ≡ true → is_home homes.new q x ≡ true }
    ensures certain { (q : ℕ) (x : List ℕ) → is_certain homes.old q x ≡ true → is_certain homes.new q x ≡ true }
    ensures here { is_known (λ q. is_home homes.old q id.now) member.now.waits ≡ true → is_known (λ q. is_certain homes.new q id.now) member.now.waits ≡ true }
    ensures parked { (q : ℕ) → is_certain homes.new q id.now ≡ true → (is_certain homes.old q id.now ≡ true) ⊎ (is_waiting (OfSession q) member.now ≡ true) }
    ensures fewer { (q : ℕ) (x : List ℕ) → is_home homes.new q x ≡ true → is_home homes.old q x ≡ true }
    ensures filled { (q : ℕ) → IsFilled (get nat_cmp homes.old q) → IsFilled (get nat_cmp homes.new q) }
{
    if let Some(ticket) = Calls::Any.called(member.waits) {
        affirm(homes, ticket.session, id);
    }
}

// Marks the group as certain for each session with a parked call in it.
fn affirm_all(homes: &mut SessionIndex, id: &GroupId, members: &[Member])
    ensures kept { (q : ℕ) (x : List ℕ) → is_home homes.old q x ≡ true → is_home homes.new q x ≡ true }
    ensures certain { (q : ℕ) (x : List ℕ) → is_certain homes.old q x ≡ true → is_certain homes.new q x ≡ true }
    ensures here { Each (λ (m : Member). is_known (λ q. is_home homes.old q id.now) m.waits ≡ true) members.now → Each (λ (m : Member). is_known (λ q. is_certain homes.new q id.now) m.waits ≡ true) members.now }
    ensures parked { (q : ℕ) → is_certain homes.new q id.now ≡ true → (is_certain homes.old q id.now ≡ true) ⊎ (list_any (is_waiting (OfSession q)) members.now ≡ true) }
    ensures fewer { (q : ℕ) (x : List ℕ) → is_home homes.new q x ≡ true → is_home homes.old q x ≡ true }
    ensures filled { (q : ℕ) → IsFilled (get nat_cmp homes.old q) → IsFilled (get nat_cmp homes.new q) }
{
    for member in members {
        affirm_one(homes, id, member);
    }
}

// Removes the group, where it is doubtful, from the index of the session of the parked call, if there is one.
fn leave_one<P: Calling>(homes: &mut SessionIndex, id: &GroupId, parked: &P)
    ensures others { (q : ℕ) (x : List ℕ) → (x ≡ id.now → ⊥) → is_home homes.old q x ≡ true → is_home homes.new q x ≡ true }
    ensures certain { (q : ℕ) (x : List ℕ) → is_certain homes.old q x ≡ true → is_certain homes.new q x ≡ true }
    ensures sure { (q : ℕ) → is_certain homes.new q id.now ≡ true → is_certain homes.old q id.now ≡ true }
    ensures settled { IfParked (λ q. IsSettled homes.new q id.now) (P.call parked.now) }
    ensures calm { (q : ℕ) → IsSettled homes.old q id.now → IsSettled homes.new q id.now }
    ensures fewer { (q : ℕ) (x : List ℕ) → is_home homes.new q x ≡ true → is_home homes.old q x ≡ true }
    ensures filled { (q : ℕ) → IsFilled (get nat_cmp homes.old q) → IsFilled (get nat_cmp homes.new q) }
{
    if let Some(ticket) = parked.call() {
        leave(homes, ticket.session, id);
    }
}

// Removes the group, where it is doubtful, from the index of each session with one of these parked calls.
fn leave_all<P: Calling>(homes: &mut SessionIndex, id: &GroupId, parked: &[P])
    ensures others { (q : ℕ) (x : List ℕ) → (x ≡ id.now → ⊥) → is_home homes.old q x ≡ true → is_home homes.new q x ≡ true }
    ensures certain { (q : ℕ) (x : List ℕ) → is_certain homes.old q x ≡ true → is_certain homes.new q x ≡ true }
    ensures sure { (q : ℕ) → is_certain homes.new q id.now ≡ true → is_certain homes.old q id.now ≡ true }
    ensures settled { Each (λ p. IfParked (λ q. IsSettled homes.new q id.now) (P.call p)) parked.now }
    ensures fewer { (q : ℕ) (x : List ℕ) → is_home homes.new q x ≡ true → is_home homes.old q x ≡ true }
    ensures filled { (q : ℕ) → IsFilled (get nat_cmp homes.old q) → IsFilled (get nat_cmp homes.new q) }
{
    for call in parked {
        leave_one(homes, id, call);
    }
}

// Marks as certain the sessions with a parked call in the group with this id, if it is loaded.
fn affirm_held(homes: &mut SessionIndex, held: &GroupTable, id: &GroupId)
    ensures kept { (q : ℕ) (x : List ℕ) → is_home homes.old q x ≡ true → is_home homes.new q x ≡ true }
    ensures certain { (q : ℕ) (x : List ℕ) → is_certain homes.old q x ≡ true → is_certain homes.new q x ≡ true }
    ensures here { (g : Group) → find_group id.now held.now ≡ Some g → Each (λ (m : Member). is_known (λ q. is_home homes.old q id.now) m.waits ≡ true) g.members → Each (λ (m : Member). is_known (λ q. is_certain homes.new q id.now) m.waits ≡ true) g.members }
    ensures parked { (q : ℕ) → is_certain homes.new q id.now ≡ true → (is_certain homes.old q id.now ≡ true) ⊎ (is_parked q (find_group id.now held.now) ≡ true) }
    ensures in_order { InOrder held.now }
    ensures fewer { (q : ℕ) (x : List ℕ) → is_home homes.new q x ≡ true → is_home homes.old q x ≡ true }
    ensures filled { (q : ℕ) → IsFilled (get nat_cmp homes.old q) → IsFilled (get nat_cmp homes.new q) }
{
    if let Some(group) = held.find(id) {
        affirm_all(homes, id, group.members.as_slice());
    }
}

/// Updates the index after an event in the group: `before` are its members, or its parked calls, as they were. Costs a few
/// look-ups for each call that was or is parked there, a pass over `before`, and one over the members. No allocation.
pub fn settle<P: Calling>(homes: &mut SessionIndex, held: &GroupTable, id: &GroupId, before: &[P])
    ensures known { AreKnown (is_home homes.old) held.now → AreKnown (is_home homes.new) held.now }
    ensures gone { Each (λ p. IfParked (λ q. IsLetGo homes.new held.now id.now q) (P.call p)) before.now }
    ensures fewer { (q : ℕ) (x : List ℕ) → is_home homes.new q x ≡ true → is_home homes.old q x ≡ true }
    ensures filled { (q : ℕ) → IsFilled (get nat_cmp homes.old q) → IsFilled (get nat_cmp homes.new q) }
{
    doubt_all(homes, id, before);
    affirm_held(homes, held, id);
    leave_all(homes, id, before);
}

/// Updates the index after a request of this session in the group: `before` are its members, or its parked calls, as they were.
/// No allocation.
pub fn settle_request<P: Calling>(
    homes: &mut SessionIndex,
    held: &GroupTable,
    id: &GroupId,
    before: &[P],
    session: u64,
)
    ensures known { AreKnown (is_home homes.old) held.now → AreKnown (is_home homes.new) held.now }
    ensures gone { Each (λ p. IfParked (λ q. IsLetGo homes.new held.now id.now q) (P.call p)) before.now }
    ensures asked { IsLetGo homes.new held.now id.now session }
    ensures fewer { (q : ℕ) (x : List ℕ) → is_home homes.new q x ≡ true → is_home homes.old q x ≡ true }
    ensures filled { (q : ℕ) → IsFilled (get nat_cmp homes.old q) → IsFilled (get nat_cmp homes.new q) }
{
    doubt(homes, session, id);
    doubt_all(homes, id, before);
    affirm_held(homes, held, id);
    leave_all(homes, id, before);
    leave(homes, session, id);
}
