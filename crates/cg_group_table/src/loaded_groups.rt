//! A map of groups by their ids.
ghost use Rattle.std.specs.Prelude.{◌≡◌, Some, None, [], length, is_some, slice_get, true, MatchOption, OnErr, OnOk};
ghost use Rattle.std.specs.BTreeMap.{get, is_at};
ghost use Rattle.std.specs.Cmp.Lexicographic.{slice_cmp};
ghost use Rattle.std.specs.Map.{set_value};
ghost use Rattle.std.specs.Map.Iter.{ShowsInOrder, deref};
ghost use Rattle.std.specs.Option.{option_copied};
ghost use Rattle.std.specs.Ordering.{nat_cmp};
ghost use Rattle.cg_group_state.specs.declared.group.Group.{Group};
ghost use Rattle.cg_group_table.specs.GroupChanges.{IsChanged, KeepsId};
ghost use Rattle.cg_group_table.specs.GroupTable.{IsHeld, InOrder, find_group, with_group, without_group};
ghost use Rattle.cg_group_state.specs.Waiting.{waiting_calls};

use crate::group_change::GroupChange;
use cg_group_state::{Calls, Group};
use cg_names::GroupId;
use cg_request::Ticket;
use std::alloc::{AllocError, Global};
use std::collections::BTreeMap;
use std::collections::btree_map::Values;
use std::marker::Model;
use std::mem;

/// A map of groups by their ids. Contracts see the groups by the bytes of their ids.
#[derive(Debug, Drop)]
pub struct Loaded {
    alloc: Global,
    groups: BTreeMap<GroupId, Group>,
}

impl Model for Loaded {
    ghost use Rattle.std.specs.Prelude.{List};
    ghost use Rattle.std.specs.BTreeMap.{values};
    ghost use Rattle.cg_group_state.specs.declared.group.Group.{Group};
    ghost use Rattle.cg_group_table.specs.GroupTable.{StandUnderIds, IsHeld, InOrder};

    ghost Value = { List Group };

    ghost view = { λ h. values h.groups };

    ghost invariant = { λ h. StandUnderIds h.groups.entries × InOrder (values h.groups) };
}

// Exchanges the group with this id for the given one, which becomes the group as it was.
fn swap_in(groups: &mut BTreeMap<GroupId, Group>, group: &mut Group)
    requires { is_some (get (slice_cmp nat_cmp) groups.old group.old.id) ≡ true }
    ensures after { groups.new.entries ≡ set_value (is_at (slice_cmp nat_cmp group.old.id)) groups.old.entries group.old }
    ensures before { get (slice_cmp nat_cmp) groups.old group.old.id ≡ Some group.new }
{
    if let Some(place) = groups.get_mut(&group.id) {
        mem::swap(place, group);
    }
}

fn change_among<C: GroupChange + Drop>(
    groups: &mut BTreeMap<GroupId, Group>,
    own: &GroupId,
    change: C,
) -> Option<C::Output>
    requires { (g : Group) → get (slice_cmp nat_cmp) groups.old own.now ≡ Some g → C.Suits change g }
    ensures some { (g : Group) → get (slice_cmp nat_cmp) groups.old own.now ≡ Some g → MatchOption result ⊥
        (λ x. (after : Group) × C.Becomes change g after x × (groups.new.entries ≡ set_value (is_at (slice_cmp nat_cmp own.now)) groups.old.entries after)) }
    ensures none { get (slice_cmp nat_cmp) groups.old own.now ≡ None → (result ≡ None) × (groups.new.entries ≡ groups.old.entries) }
{
    match groups.get_mut(own) {
        None => None,
        Some(group) => Some(change.change(group)),
    }
}

impl Loaded {
    /// Creates an empty map, without an allocation.
    pub fn new(alloc: Global) -> Self
        ensures { result ≡ [] }
    {
        Loaded {
            alloc,
            groups: BTreeMap::new(alloc),
        }
    }

    /// Returns the allocator of the groups.
    pub fn allocator(&self) -> Global {
        self.alloc
    }

    /// Returns the number of groups.
    pub fn len(&self) -> usize
        ensures { result ≡ length self.now }
    {
        self.groups.len()
    }

    /// Returns an iterator over the groups, by the bytes of their ids.
    pub fn iter(&self) -> Values<'_, GroupId, Group>
        ensures rest { result ≡ self.now }
        ensures runs { ShowsInOrder (deref {X = Group}) }
        ensures in_order { InOrder self.now }
    {
        self.groups.values()
    }

    /// Returns the group with this id. Costs one look-up.
    pub fn find(&self, id: &GroupId) -> Option<&Group>
        ensures found { option_copied result ≡ find_group id.now self.now }
        ensures in_order { InOrder self.now }
    {
        self.groups.get(id)
    }

    /// Returns the i-th parked call, counted from 0, by group and joining order. Linear in the members of all groups,
    /// no allocation.
    #[tactic(auto, unfolding(cg_group_state::specs::Waiting::waiting_calls))]
    pub fn parked(&self, i: u64) -> Option<Ticket>
        ensures { result ≡ slice_get (waiting_calls self.now) i }
    {
        self.groups
            .values()
            .flat_map(|g| g.members.as_slice().iter())
            .filter_map(|m| Calls::Any.called(m.waits))
            .nth(i as usize)
    }

    /// Inserts a group whose id is not loaded. If an allocation fails, nothing changes.
    pub fn add(&mut self, group: Group) -> Result<(), AllocError>
        ensures ok { OnOk result (self.new ≡ with_group group self.old) }
        ensures err { OnErr result (self.new ≡ self.old) }
    {
        let id = group.id.clone()?;
        self.groups.insert(id, group)?;
        Ok(())
    }

    /// Exchanges the group with this id for the given one, which becomes the group as it was. No allocation.
    pub fn swap(&mut self, group: &mut Group)
        requires { IsHeld self.old group.old.id }
        ensures after { self.new ≡ with_group group.old self.old }
        ensures before { find_group group.old.id self.old ≡ Some group.new }
    {
        swap_in(&mut self.groups, group);
    }

    /// Removes the group with this id, if it is loaded.
    pub fn remove(&mut self, id: &GroupId)
        ensures { self.new ≡ without_group id.now self.old }
    {
        let _group = self.groups.remove(id);
    }

    /// Changes the group with this id, and returns what the change returns, or `None` if the group is not loaded. Costs one
    /// look-up beside the change.
    pub fn change<C: GroupChange + Drop>(&mut self, group: &GroupId, change: C) -> Option<C::Output>
        requires keeps { KeepsId (C.Becomes change) }
        requires suits { (g : Group) → find_group group.now self.old ≡ Some g → C.Suits change g }
        ensures changed { (g : Group) → find_group group.now self.old ≡ Some g → MatchOption result ⊥ (IsChanged (C.Becomes change) self.old self.new g) }
        ensures absent { find_group group.now self.old ≡ None → (result ≡ None) × (self.new ≡ self.old) }
        ensures in_order { InOrder self.old }
    {
        change_among(&mut self.groups, group, change)
    }
}
