//! The group machine: the loaded groups, and the step function.
ghost use Rattle.std.specs.Prelude.{◌≡◌, ◌≤◌, ◌+◌, IfOk, IfErr, OnErr, length, slice_get};
ghost use Rattle.std.specs.FinMap as finmap;
ghost use Rattle.std.specs.Map.Iter.{ShowsInOrder, deref};
ghost use Rattle.cg_group_state.specs.declared.group.Group.{Group};
ghost use Rattle.cg_group_table.specs.Props.{AreKnown-prop, IsTight-prop};
ghost use Rattle.cg_group_table.specs.SessionIndex.{AreKnown, IsTight, is_home};
ghost use Rattle.cg_group_state.specs.Waiting.{waiting_calls};
ghost use Rattle.cg_group_table.specs.GroupTable.{outcome};
ghost use Rattle.cg_group_table.specs.Resting.{AreResting, AreResting-prop, Covered, Covered-prop};
ghost use Rattle.cg_group_table.specs.declared.expiry.TheConstants.{RETENTION_MS};
ghost use Rattle.cg_group.specs.Machine.{MayNeedMemory, at_event, member_count, step};
ghost use Rattle.cg_group_table.specs.Recovery.{revive};

use crate::dispatch::handle;
use cg_fold::{Durable, Offsets};
use cg_group_state::{Effects, Group};
use cg_group_table::{Clock, GroupTable, SessionIndex, revived_all};
use cg_names::{GroupId, Moment};
use cg_request::{Event, Ticket};
use std::alloc::{AllocError, Global};
use std::collections::BTreeMap;
use std::collections::btree_map::Values;
use std::marker::Model;

/// The state of the group machine: the loaded groups, the committed offsets, the moment of the last event, and that of loading.
/// Contracts see the groups by the bytes of their ids.
#[derive(Drop)]
pub struct Groups {
    held: GroupTable,
    offsets: Offsets,
    last: Moment,
    /// The moment of loading; an unknown moment counts as this one.
    loaded: Moment,
    /// Before this moment nothing expires.
    until: Moment,
    /// Session index: the groups in which the calls of each session may be parked.
    homes: SessionIndex,
    // The index has every parked call, and no more.
    ghost known: { AreKnown (is_home homes) held } by { AreKnown-prop (is_home homes) held },
    ghost tight: { IsTight homes held } by { IsTight-prop homes held },
    // Each group with an offset is loaded, and nothing expires before that moment, whatever events come.
    ghost covered: { Covered offsets held } by { Covered-prop offsets held },
    ghost early: { until ≤ last + RETENTION_MS },
    ghost resting: { AreResting until loaded offsets held } by { AreResting-prop until loaded offsets held },
}

impl Model for Groups {
    ghost use Rattle.std.specs.Coded.{codes};
    ghost use Rattle.cg_fold.specs.Key.{offsets_code};
    ghost use Rattle.cg_group_table.specs.GroupTable.{Machine};

    ghost Value = { Machine };

    ghost coded = { Prim.hlevel (codes, offsets_code) };

    ghost view = { λ g. record { groups = g.held; offsets = g.offsets; last = g.last; loaded = g.loaded } };
}

impl Groups {
    /// Loads the groups that have a record or an offset, at this moment. Costs a copy of the records; the offsets are
    /// moved. If an allocation fails, returns the durable state unchanged.
    #[tactic(auto, unfolding(cg_group_table::specs::Recovery::revive))]
    pub fn revive(
        alloc: Global,
        durable: Durable,
        now: Moment,
    ) -> Result<Self, (AllocError, Durable)>
        ensures ok { IfOk result (λ groups. groups ≡ revive durable now) }
        ensures err { IfErr result (λ back. back.1 ≡ durable) }
    {
        match revived_all(alloc, now, &durable) {
            Ok(held) => Ok(Groups {
                held,
                offsets: durable.into_offsets(),
                last: now,
                loaded: now,
                until: Moment::from_millis(0),
                homes: BTreeMap::new(alloc),
            }),
            Err(wanting) => Err((wanting, durable)),
        }
    }

    /// Returns the number of loaded groups.
    pub fn held(&self) -> u64
        ensures { result ≡ length self.now.groups }
    {
        self.held.len() as u64
    }

    /// Returns the number of members of all loaded groups. Linear in the groups, no allocation.
    pub fn member_count(&self) -> u64
        ensures { result ≡ member_count self.now.groups }
    {
        self.held.iter().fold(
            0,
            |count: u64, group| count.saturating_add(group.members.len() as u64),
        )
    }

    /// Returns the number of committed offsets, in constant time.
    pub fn offset_count(&self) -> u64
        ensures { result ≡ finmap.len self.now.offsets }
    {
        self.offsets.len()
    }

    /// Returns an iterator over the loaded groups, by the bytes of their ids.
    pub fn iter(&self) -> Values<'_, GroupId, Group>
        ensures rest { result ≡ self.now.groups }
        ensures runs { ShowsInOrder (deref {X = Group}) }
    {
        self.held.iter()
    }

    /// Returns the i-th parked call, counted from 0, by the bytes of the groups' ids and in joining order. Linear in
    /// the members of all groups, no allocation.
    pub fn parked(&self, i: u64) -> Option<Ticket>
        ensures { result ≡ slice_get (waiting_calls self.now.groups) i }
    {
        self.held.parked(i)
    }

    /// Processes an event. An earlier moment counts as the last one. If an allocation fails, nothing changes. No allocation is
    /// needed by a BEAT, a request that is refused, a DROP of no offset, a DESCRIBE or LIST that shows no group, the end of a
    /// session without a parked request, or a tick that changes no group.
    #[tactic(auto, unfolding(crate::specs::Machine::step))]
    pub fn step(&mut self, event: Event, now: Moment) -> Result<Effects, AllocError>
        ensures ok { IfOk result (λ effects. step self.old event now ≡ outcome self.new effects) }
        ensures err { OnErr result (self.new ≡ self.old) }
        ensures memory { OnErr result (MayNeedMemory (at_event self.old now) event) }
    {
        let now = self.last.max(now);
        let effects = handle(
            &Clock {
                loaded: self.loaded,
                moment: now,
            },
            &mut self.held,
            &mut self.offsets,
            &mut self.homes,
            &mut self.until,
            event,
        )?;
        self.last = now;
        Ok(effects)
    }
}
