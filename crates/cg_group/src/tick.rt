//! Ticks: what a tick comes to is worked out for each group that it changes, and then the groups are changed in place.
ghost use Rattle.std.specs.Prelude.{◌≡◌, ◌≤◌, ◌+◌, ◌||◌, Some, true, IfOk, IsTrue, OnErr};
ghost use Rattle.std.specs.List.{list_any};
ghost use Rattle.cg_group_table.specs.DueGroups.{AreDue, IsDue};
ghost use Rattle.cg_group_table.specs.Resting.{AreResting};
ghost use Rattle.cg_group_table.specs.declared.expiry.TheConstants.{RETENTION_MS};
ghost use Rattle.cg_group_table.specs.Expiry.{are_takings, expires, tick, without_bare};
ghost use Rattle.cg_group_table.specs.GroupTable.{InOrder, at_moment, everywhere, find_group, groups_after, outcome, standing, with_group};
ghost use Rattle.cg_group_state.specs.Offsets.{offsets_after};
ghost use Rattle.cg_group_table.specs.SessionIndex.{AreKnown, IsTight, is_home};
ghost use Rattle.cg_group_state.specs.declared.group.Group.{Group};
ghost use Rattle.cg_group_rules.specs.Tick.{ticked};
ghost use Rattle.cg_group_rules.specs.TickDeadline.{tick_touches};

use cg_fold::Offsets;
use cg_group_rules::{TickPlan, carry_out_tick};
use cg_group_state::{Effects, Group};
use cg_group_table::{
    Clock, Due, GroupChange, GroupTable, RETENTION_MS, SessionIndex, Sweep, expires, fresh_until,
    plan_due, plan_sweep, settle,
};
use cg_names::{GroupId, Moment};
use cg_record::Command;
use std::alloc::AllocError;

/// A tick in one group, as a change of the group.
#[derive(Drop)]
struct TickChange {
    now: Moment,
    plan: TickPlan,
}

impl GroupChange for TickChange {
    ghost use Rattle.std.specs.Prelude.{◌≡◌};
    ghost use Rattle.cg_group_rules.specs.TickPlan.{carried};

    type Output = ();

    ghost Becomes = { λ t g after _. after ≡ carried t.now t.plan g };

    fn change(self, group: &mut Group) {
        let TickChange { now, plan } = self;
        carry_out_tick(now, plan, group);
    }
}

// Carries out a tick in this group, and drops the group from the session index for each session that no longer has a parked
// call in it. No allocation.
fn carry_out_due(held: &mut GroupTable, homes: &mut SessionIndex, now: Moment, due: Due)
    requires known { AreKnown (is_home homes.old) held.old }
    requires tight { IsTight homes.old held.old }
    requires due { IsDue now held.old due }
    ensures known { AreKnown (is_home homes.new) held.new }
    ensures tight { IsTight homes.new held.new }
    ensures after { (g : Group) → find_group due.id held.old ≡ Some g → held.new ≡ with_group (ticked now g).group held.old }
    ensures in_order { InOrder held.old }
{
    let Due { id, plan, calls } = due;
    let _changed = held.change(&id, TickChange { now, plan });
    settle(homes, held, &id, calls.as_slice());
}

// Carries out a tick in these groups. No allocation.
fn carry_out_all(held: &mut GroupTable, homes: &mut SessionIndex, now: Moment, dues: Vec<Due>)
    requires known { AreKnown (is_home homes.old) held.old }
    requires tight { IsTight homes.old held.old }
    requires due { AreDue now held.old dues.items }
    ensures known { AreKnown (is_home homes.new) held.new }
    ensures tight { IsTight homes.new held.new }
    ensures after { held.new ≡ groups_after (ticked now) held.old }
{
    for due in dues {
        carry_out_due(held, homes, now, due);
    }
}

// Removes from the offsets what these commands of a tick take away. No allocation.
fn take_away(offsets: &mut Offsets, commands: &[Command])
    requires { IsTrue (are_takings commands.now) }
    ensures { offsets.new ≡ offsets_after offsets.old commands.now }
{
    for command in commands {
        match command {
            Command::Expired(expired) => {
                offsets.forget_partitions(&expired.group, expired.partitions.as_slice());
            }
            Command::Dropped(dropped) => {
                offsets.forget_partitions(&dropped.group, dropped.partitions.as_slice());
            }
            Command::Deleted(deleted) => offsets.forget(&deleted.group),
            _ => {}
        }
    }
}

// Removes those of these groups that have no offset any more. No allocation.
fn remove_bare(held: &mut GroupTable, offsets: &Offsets, ids: &[GroupId])
    ensures { held.new ≡ without_bare offsets.now ids.now held.old }
{
    for id in ids {
        if offsets.of_group(id).is_empty() {
            held.remove(id);
        }
    }
}

// Processes a tick at which something expires. Nothing changes before all of it is worked out.
fn sweep(
    clock: &Clock,
    held: &mut GroupTable,
    offsets: &mut Offsets,
    homes: &mut SessionIndex,
) -> Result<Effects, AllocError>
    requires in_order { InOrder held.old }
    requires known { AreKnown (is_home homes.old) held.old }
    requires tight { IsTight homes.old held.old }
    ensures known { AreKnown (is_home homes.new) held.new }
    ensures tight { IsTight homes.new held.new }
    ensures ok { IfOk result
        (λ e. tick (standing clock.now.loaded clock.now.moment held.old offsets.old) ≡ outcome (standing clock.now.loaded clock.now.moment held.new offsets.old) e) }
    ensures offsets { IfOk result (λ e. offsets.new ≡ offsets_after offsets.old e.commands) }
    ensures err { OnErr result ((held.new ≡ held.old) × (offsets.new ≡ offsets.old)) }
{
    let Sweep {
        dues,
        thinned,
        effects,
    } = plan_sweep(held, clock, offsets)?;
    carry_out_all(held, homes, clock.moment, dues);
    take_away(offsets, effects.commands.as_slice());
    remove_bare(held, offsets, thinned.as_slice());
    Ok(effects)
}

// Carries out the timeouts of a tick, in place. Visits only the groups that are due. What the tick comes to is worked out in
// all of them before the first one changes; nothing is allocated after that. Then costs for each changed group four look-ups,
// the change, two passes over the members, and a few look-ups for each call that was or is parked there.
#[tactic(auto, unfolding(cg_group_table::specs::GroupTable::everywhere))]
fn time_out(
    now: Moment,
    held: &mut GroupTable,
    homes: &mut SessionIndex,
) -> Result<Effects, AllocError>
    requires known { AreKnown (is_home homes.old) held.old }
    requires tight { IsTight homes.old held.old }
    ensures known { AreKnown (is_home homes.new) held.new }
    ensures tight { IsTight homes.new held.new }
    ensures ok { IfOk result
        (λ e. everywhere (ticked now) (at_moment now held.old) ≡ outcome (at_moment now held.new) e) }
    ensures err { OnErr result (held.new ≡ held.old) }
    ensures touched { OnErr result (list_any (tick_touches now) held.old ≡ true) }
{
    let ids = held.due(now)?;
    let (dues, effects) = plan_due(held, now, ids)?;
    carry_out_all(held, homes, now, dues);
    Ok(effects)
}

// Returns whether something expires in one of the groups. No allocation.
fn some_expire(clock: &Clock, held: &GroupTable, offsets: &Offsets) -> bool
    ensures in_order { InOrder held.now }
    ensures some { result ≡ list_any (expires clock.now.loaded clock.now.moment offsets.now) held.now }
{
    for group in held.iter() {
        if expires(clock, offsets, group) {
            return true;
        }
    }
    false
}

// Returns a moment before which nothing expires, whatever events come: at most the retention time from now. No allocation.
fn rest_until(clock: &Clock, held: &GroupTable, offsets: &Offsets) -> Moment
    ensures early { result ≤ clock.now.moment + RETENTION_MS }
    ensures resting { AreResting result clock.now.loaded offsets.now held.now }
{
    let mut until = clock.moment.later_by(RETENTION_MS);
    for group in held.iter() {
        until = fresh_until(clock, offsets, group, until);
    }
    until
}

/// Processes a tick, in place. Before the moment `until` it visits only the groups that are due. From then on it looks at each
/// Empty group and at the offsets of those that have no record: if something expires it visits all groups, and otherwise it finds
/// out the next such moment.
#[tactic(auto, unfolding(cg_group_table::specs::Expiry::tick))]
pub fn handle_tick(
    clock: &Clock,
    held: &mut GroupTable,
    offsets: &mut Offsets,
    homes: &mut SessionIndex,
    until: &mut Moment,
) -> Result<Effects, AllocError>
    requires known { AreKnown (is_home homes.old) held.old }
    requires tight { IsTight homes.old held.old }
    requires early { until.old ≤ clock.now.moment + RETENTION_MS }
    requires resting { AreResting until.old clock.now.loaded offsets.old held.old }
    ensures known { AreKnown (is_home homes.new) held.new }
    ensures tight { IsTight homes.new held.new }
    ensures early { until.new ≤ clock.now.moment + RETENTION_MS }
    ensures resting { AreResting until.new clock.now.loaded offsets.old held.old }
    ensures ok { IfOk result
        (λ e. tick (standing clock.now.loaded clock.now.moment held.old offsets.old) ≡ outcome (standing clock.now.loaded clock.now.moment held.new offsets.old) e) }
    ensures offsets { IfOk result (λ e. offsets.new ≡ offsets_after offsets.old e.commands) }
    ensures err { OnErr result ((held.new ≡ held.old) × (offsets.new ≡ offsets.old) × (until.new ≡ until.old)) }
    ensures changed { OnErr result (list_any (λ g. tick_touches clock.now.moment g || expires clock.now.loaded clock.now.moment offsets.old g) held.old ≡ true) }
{
    let mut next = *until;
    if clock.moment >= next {
        if some_expire(clock, held, offsets) {
            let effects = sweep(clock, held, offsets, homes)?;
            return Ok(effects);
        }
        next = rest_until(clock, held, offsets);
    }
    let effects = time_out(clock.moment, held, homes)?;
    *until = next;
    Ok(effects)
}
