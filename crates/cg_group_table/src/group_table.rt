//! The loaded groups, with an index of the moments at which ticks may change them.
ghost use Rattle.std.specs.Prelude.{◌≡◌, ◌<◌, List, Some, None, [], length, true, false, slice_get, IfOk, MatchOption, OnErr, OnOk};
ghost use Rattle.std.specs.Map.Iter.{ShowsInOrder, deref};
ghost use Rattle.std.specs.List.{list_any};
ghost use Rattle.std.specs.Option.{option_copied};
ghost use Rattle.cg_group_state.specs.declared.group.Group.{Group};
ghost use Rattle.cg_group_table.specs.GroupChanges.{IsChanged, KeepsId, OnlyHears, is_one_of};
ghost use Rattle.cg_group_table.specs.GroupTable.{IsHeld, InOrder, find_group, with_group, without_group};
ghost use Rattle.cg_group_table.specs.Kept.{Ascending, Each};
ghost use Rattle.cg_group_table.specs.DeadlineIndex.{AreTimed};
ghost use Rattle.cg_group_rules.specs.TickDeadline.{tick_touches};
ghost use Rattle.cg_group_rules.specs.Rebalance.{turn_of};
ghost use Rattle.cg_group_rules.specs.Tick.{ticked};
ghost use Rattle.cg_group_state.specs.Waiting.{waiting_calls};

use crate::group_change::GroupChange;
use crate::loaded_groups::Loaded;
use cg_group_rules::{next_deadline, tick_touches};
use cg_group_state::Group;
use cg_names::{GroupId, Moment};
use cg_request::Ticket;
use cg_time::Deadlines;
use std::alloc::{AllocError, Global};
use std::collections::btree_map::Values;
use std::marker::Model;

/// The loaded groups by the bytes of their ids. Contracts see the list of groups. An index has a moment for each group
/// before which no tick changes it. Such a moment is kept when a member is heard, since that makes it only later; when
/// it comes, the tick finds out the next one.
#[derive(Drop)]
pub struct GroupTable {
    loaded: Loaded,
    deadlines: Deadlines<GroupId>,
    /// The moments of the index hold if members are heard again at this moment or later.
    since: Moment,
}

impl Model for GroupTable {
    ghost use Rattle.std.specs.Prelude.{List};
    ghost use Rattle.cg_group_state.specs.declared.group.Group.{Group};
    ghost use Rattle.cg_group_table.specs.DeadlineIndex.{AreTimed};

    ghost Value = { List Group };

    ghost view = { λ h. h.loaded };

    ghost invariant = { λ h. AreTimed h.since h.deadlines.entries h.loaded };
}

/// A change of a group, after which the next moment at which a tick may change the group is found out.
#[derive(Drop)]
struct Timed<C> {
    since: Moment,
    change: C,
}

impl<C: GroupChange> GroupChange for Timed<C> {
    ghost use Rattle.std.specs.Prelude.{◌≡◌};
    ghost use Rattle.cg_group_rules.specs.TickDeadline.{next_deadline};

    type Output = (C::Output, Moment);

    ghost Suits = { λ t g. C.Suits t.change g };

    ghost Becomes = { λ t g after x. C.Becomes t.change g after x.0 × (x.1 ≡ next_deadline t.since after) };

    fn change(self, group: &mut Group) -> (C::Output, Moment) {
        let Timed { since, change } = self;
        let output = change.change(group);
        let deadline = next_deadline(since, group);
        (output, deadline)
    }
}

impl GroupTable {
    /// Creates an empty map, without an allocation.
    pub fn new(alloc: Global) -> Self
        ensures { result ≡ [] }
    {
        GroupTable {
            loaded: Loaded::new(alloc),
            deadlines: Deadlines::new(alloc),
            since: Moment::from_millis(0),
        }
    }

    /// Returns the allocator of the groups.
    pub fn allocator(&self) -> Global {
        self.loaded.allocator()
    }

    /// Returns the number of groups.
    pub fn len(&self) -> usize
        ensures { result ≡ length self.now }
    {
        self.loaded.len()
    }

    /// Returns an iterator over the groups, by the bytes of their ids.
    pub fn iter(&self) -> Values<'_, GroupId, Group>
        ensures rest { result ≡ self.now }
        ensures runs { ShowsInOrder (deref {X = Group}) }
        ensures in_order { InOrder self.now }
    {
        self.loaded.iter()
    }

    /// Returns the group with this id. Costs one look-up.
    pub fn find(&self, id: &GroupId) -> Option<&Group>
        ensures found { option_copied result ≡ find_group id.now self.now }
        ensures in_order { InOrder self.now }
    {
        self.loaded.find(id)
    }

    /// Returns the i-th parked call, counted from 0, by group and joining order. Linear in the members of all groups,
    /// no allocation.
    pub fn parked(&self, i: u64) -> Option<Ticket>
        ensures { result ≡ slice_get (waiting_calls self.now) i }
    {
        self.loaded.parked(i)
    }

    // Inserts a group whose id is not loaded.
    fn add(&mut self, group: Group) -> Result<(), AllocError>
        ensures ok { OnOk result (self.new ≡ with_group group self.old) }
        ensures err { OnErr result (self.new ≡ self.old) }
    {
        let deadline = next_deadline(self.since, &group);
        let id = group.id.clone()?;
        self.deadlines.reserve(1)?;
        self.loaded.add(group)?;
        let _set = self.deadlines.set(id, deadline);
        Ok(())
    }

    /// Inserts or replaces the group with this id. Returns the group that it replaced. Allocates only if the id is not
    /// loaded.
    pub fn put(&mut self, group: Group) -> Result<Option<Group>, AllocError>
        ensures ok { OnOk result (self.new ≡ with_group group self.old) }
        ensures before { IfOk result (λ o. o ≡ find_group group.id self.old) }
        ensures err { OnErr result (self.new ≡ self.old) }
        ensures err_absent { OnErr result (find_group group.id self.old ≡ None) }
    {
        if self.find(&group.id).is_some() {
            let mut group = group;
            self.swap(&mut group);
            return Ok(Some(group));
        }
        self.add(group)?;
        Ok(None)
    }

    // Exchanges the group with this id for the given one, which becomes the group as it was.
    fn swap(&mut self, group: &mut Group)
        requires { IsHeld self.old group.old.id }
        ensures after { self.new ≡ with_group group.old self.old }
        ensures before { find_group group.old.id self.old ≡ Some group.new }
    {
        let deadline = next_deadline(self.since, group);
        let _found = self.deadlines.reschedule(&group.id, deadline);
        self.loaded.swap(group);
    }

    /// Removes the group with this id, if it is loaded.
    pub fn remove(&mut self, id: &GroupId)
        ensures { self.new ≡ without_group id.now self.old }
    {
        self.deadlines.clear(id);
        self.loaded.remove(id);
    }

    /// Changes the group with this id, finds out its next moment for ticks, and returns what the change returns, or `None` if the
    /// group is not loaded. Costs two look-ups and a pass over its members, beside the change.
    pub fn change<C: GroupChange + Drop>(&mut self, group: &GroupId, change: C) -> Option<C::Output>
        requires keeps { KeepsId (C.Becomes change) }
        requires suits { (g : Group) → find_group group.now self.old ≡ Some g → C.Suits change g }
        ensures changed { (g : Group) → find_group group.now self.old ≡ Some g → MatchOption result ⊥ (IsChanged (C.Becomes change) self.old self.new g) }
        ensures absent { find_group group.now self.old ≡ None → (result ≡ None) × (self.new ≡ self.old) }
        ensures in_order { InOrder self.old }
    {
        let since = self.since;
        let (output, deadline) = self.loaded.change(group, Timed { since, change })?;
        let _found = self.deadlines.reschedule(group, deadline);
        Some(output)
    }

    /// Makes a change that at most marks a member as heard at this moment: does what `change` does, but costs one look-up beside
    /// the change, and no pass over the members. If the moment comes before that of the last tick, it costs what `change` does.
    pub fn hear<C: GroupChange + Drop>(
        &mut self,
        group: &GroupId,
        now: Moment,
        change: C,
    ) -> Option<C::Output>
        requires hears { OnlyHears now (C.Becomes change) }
        requires suits { (g : Group) → find_group group.now self.old ≡ Some g → C.Suits change g }
        ensures changed { (g : Group) → find_group group.now self.old ≡ Some g → MatchOption result ⊥ (IsChanged (C.Becomes change) self.old self.new g) }
        ensures absent { find_group group.now self.old ≡ None → (result ≡ None) × (self.new ≡ self.old) }
        ensures in_order { InOrder self.old }
    {
        if now.as_millis() < self.since.as_millis() {
            return self.change(group, change);
        }
        self.loaded.change(group, change)
    }

    // Returns whether a tick at this moment changes a group. Linear in the members of all groups, no allocation.
    fn is_touched(&self, now: Moment) -> bool
        ensures { result ≡ list_any (tick_touches now) self.now }
    {
        self.iter().any(|g| tick_touches(now, g))
    }

    // Returns the ids of the groups whose moment in the index has come, in their order.
    fn due_in_index(&self, now: Moment) -> Result<Vec<GroupId>, AllocError>
        ensures ascending { IfOk result (λ ids. Ascending ids.items) }
        ensures others { IfOk result (λ ids. Each (λ g. is_one_of ids.items g.id ≡ false → ticked now g ≡ turn_of g) self.now) }
    {
        self.deadlines.due(now)
    }

    /// Returns the ids of the groups that a tick at this moment may change, in their order. Costs a logarithm for each
    /// of them, and constant time if there is none. If an allocation fails, it visits all groups, and reports the failure
    /// only if the tick changes one of them.
    pub fn due(&self, now: Moment) -> Result<Vec<GroupId>, AllocError>
        ensures ascending { IfOk result (λ ids. Ascending ids.items) }
        ensures others { IfOk result (λ ids. Each (λ g. is_one_of ids.items g.id ≡ false → ticked now g ≡ turn_of g) self.now) }
        ensures touched { OnErr result (list_any (tick_touches now) self.now ≡ true) }
    {
        match self.due_in_index(now) {
            Ok(ids) => Ok(ids),
            Err(error) => {
                if self.is_touched(now) {
                    return Err(error);
                }
                Ok(Vec::new(self.allocator()))
            }
        }
    }

    /// Notes that from now on members are heard at `now` or later, so that moments that are found out after this call are as
    /// late as they can be.
    pub fn advance(&mut self, now: Moment)
        ensures { self.new ≡ self.old }
    {
        self.since = self.since.max(now);
    }

    /// Finds out the next moment at which a tick may change the group with this id, if it is loaded. Costs two look-ups and a
    /// pass over its members, no allocation.
    pub fn renew(&mut self, id: &GroupId)
        ensures { self.new ≡ self.old }
    {
        let Some(group) = self.loaded.find(id) else {
            return;
        };
        let deadline = next_deadline(self.since, group);
        let _found = self.deadlines.reschedule(id, deadline);
    }
}
