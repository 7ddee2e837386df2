//! Ticks: only the groups whose moment in the index of deadlines has come are visited, and what the tick comes to in each is
//! worked out before the first one changes.
ghost use Rattle.std.specs.Prelude.{◌≡◌, ℕ, List, ◌∷◌, [], ◌++◌, Some, true, false, IfOk, OnErr, OnOk};
ghost use Rattle.std.specs.List.{list_any};
ghost use Rattle.cg_group_table.specs.GroupChanges.{is_one_of};
ghost use Rattle.cg_group_table.specs.DueGroups.{AreDue, HavePlanned, IsDue, due_ids, id_if, ids_of};
ghost use Rattle.cg_group_table.specs.Expiry.{expires, swept};
ghost use Rattle.cg_group_table.specs.GroupTable.{InOrder, effects_of, find_group};
ghost use Rattle.cg_group_table.specs.Kept.{Ascending, ComeBefore, Each};
ghost use Rattle.cg_group_table.specs.SessionIndex.{parked_calls};
ghost use Rattle.cg_group_rules.specs.Rebalance.{turn_of, turned};
ghost use Rattle.cg_group_rules.specs.Tick.{ticked};
ghost use Rattle.cg_group_rules.specs.TickPlan.{carried};
ghost use Rattle.cg_group_rules.specs.TickDeadline.{tick_touches};

use crate::expiry::{Clock, expires, push_expiring};
use crate::group_table::GroupTable;
use crate::parked::parked_calls;
use cg_fold::Offsets;
use cg_group_rules::{TickPlan, plan_tick, tick_touches};
use cg_group_state::{Effects, Group};
use cg_names::{GroupId, Moment};
use cg_request::Ticket;
use std::alloc::AllocError;

/// A loaded group that a tick changes: its id, what the tick comes to, and the calls that were parked in the group before.
#[derive(Drop)]
pub struct Due {
    pub id: GroupId,
    pub plan: TickPlan,
    pub calls: Vec<Ticket>,
}

// Returns what the tick comes to in this group, and the effects.
fn plan_group(
    groups: &GroupTable,
    now: Moment,
    id: GroupId,
    group: &Group,
) -> Result<(Due, Effects), AllocError>
    requires found { find_group id groups.now ≡ Some group.now }
    ensures id { IfOk result (λ p. p.0.id ≡ id) }
    ensures planned { IfOk result (λ p. ticked now group.now ≡ turned (carried now p.0.plan group.now) p.1) }
    ensures parked { IfOk result (λ p. p.0.calls.items ≡ parked_calls group.now.members) }
{
    let (plan, effects) = plan_tick(groups.allocator(), now, group)?;
    let calls = parked_calls(groups, &id)?;
    Ok((Due { id, plan, calls }, effects))
}

// Appends the plan of this group, which the tick may change, and the effects.
fn plan_touched(
    groups: &GroupTable,
    now: Moment,
    id: GroupId,
    group: &Group,
    dues: &mut Vec<Due>,
    effects: &mut Effects,
) -> Result<(), AllocError>
    requires in_order { InOrder groups.now }
    requires found { find_group id groups.now ≡ Some group.now }
    ensures { OnOk result ((ids : List (List ℕ)) → ComeBefore ids id → HavePlanned now groups.now ids dues.old.items effects.old
        → HavePlanned now groups.now (ids ++ id ∷ []) dues.new.items effects.new) }
{
    let (due, made) = plan_group(groups, now, id, group)?;
    let Effects { commands, replies } = made;
    effects.commands.append(commands)?;
    effects.replies.append(replies)?;
    dues.push(due)?;
    Ok(())
}

// If the group with this id is loaded: appends its plan and its effects if the tick may change it, and otherwise finds out the
// next moment at which a tick may change it.
fn plan_named(
    held: &mut GroupTable,
    now: Moment,
    id: GroupId,
    dues: &mut Vec<Due>,
    effects: &mut Effects,
) -> Result<(), AllocError>
    ensures same { held.new ≡ held.old }
    ensures planned { OnOk result ((ids : List (List ℕ)) → ComeBefore ids id → HavePlanned now held.old ids dues.old.items effects.old
        → HavePlanned now held.old (ids ++ id ∷ []) dues.new.items effects.new) }
    ensures touched { OnErr result (list_any (tick_touches now) held.old ≡ true) }
{
    let Some(group) = held.find(&id) else {
        return Ok(());
    };
    if tick_touches(now, group) {
        plan_touched(held, now, id, group, dues, effects)?;
        return Ok(());
    }
    held.renew(&id);
    Ok(())
}

/// Returns what a tick at `now` comes to in each group that it changes, and its effects; `ids` are those of the groups that are
/// due. No group changes; one that is due in vain gets its next moment for ticks. Costs up to three look-ups and some passes over
/// the members for each id. Allocates only for groups that the tick changes: what `plan_tick` needs, and room for the plans and
/// the parked calls.
pub fn plan_due(
    held: &mut GroupTable,
    now: Moment,
    ids: Vec<GroupId>,
) -> Result<(Vec<Due>, Effects), AllocError>
    requires ascending { Ascending ids.items }
    requires others { Each (λ g. is_one_of ids.items g.id ≡ false → ticked now g ≡ turn_of g) held.old }
    ensures same { held.new ≡ held.old }
    ensures due { IfOk result (λ p. AreDue now held.old p.0.items) }
    ensures effects { IfOk result (λ p. p.1 ≡ effects_of (ticked now) held.old) }
    ensures touched { OnErr result (list_any (tick_touches now) held.old ≡ true) }
{
    let alloc = held.allocator();
    held.advance(now);
    let mut dues = Vec::new(alloc);
    let mut effects = Effects::new(alloc);
    for id in ids {
        plan_named(held, now, id, &mut dues, &mut effects)?;
    }
    Ok((dues, effects))
}

/// What a tick comes to at which something expires: the groups that its timeouts change, the ids of the groups in which something
/// expires, and the effects.
#[derive(Drop)]
pub struct Sweep {
    pub dues: Vec<Due>,
    pub thinned: Vec<GroupId>,
    pub effects: Effects,
}

// Appends what the timeouts of the tick come to in this group, and what it then takes from it as stale.
fn sweep_group(
    groups: &GroupTable,
    clock: &Clock,
    offsets: &Offsets,
    group: &Group,
    sweep: &mut Sweep,
) -> Result<(), AllocError>
    requires in_order { InOrder groups.now }
    requires found { find_group group.now.id groups.now ≡ Some group.now }
    ensures dues { OnOk result (due_ids sweep.new.dues.items ≡ due_ids sweep.old.dues.items ++ id_if (tick_touches clock.now.moment group.now) group.now) }
    ensures planned { OnOk result (Each (IsDue clock.now.moment groups.now) sweep.old.dues.items → Each (IsDue clock.now.moment groups.now) sweep.new.dues.items) }
    ensures thinned { OnOk result (sweep.new.thinned.items ≡ sweep.old.thinned.items ++ id_if (expires clock.now.loaded clock.now.moment offsets.now group.now) group.now) }
    ensures commands { OnOk result (sweep.new.effects.commands ≡ sweep.old.effects.commands ++ (swept clock.now.loaded clock.now.moment offsets.now group.now).commands) }
    ensures replies { OnOk result (sweep.new.effects.replies ≡ sweep.old.effects.replies ++ (ticked clock.now.moment group.now).replies) }
{
    if tick_touches(clock.moment, group) {
        let id = group.id.clone()?;
        let (due, made) = plan_group(groups, clock.moment, id, group)?;
        let Effects { commands, replies } = made;
        sweep.effects.commands.append(commands)?;
        sweep.effects.replies.append(replies)?;
        sweep.dues.push(due)?;
    }
    if expires(clock, offsets, group) {
        sweep.thinned.push(group.id.clone()?)?;
        let commands = &mut sweep.effects.commands;
        push_expiring(groups.allocator(), clock, offsets, group, commands)?;
    }
    Ok(())
}

/// Returns what a tick comes to in all groups, where something expires. No group changes. Costs a pass over the groups, their
/// members, and the offsets of groups that have no record; allocates for what changes alone.
pub fn plan_sweep(
    groups: &GroupTable,
    clock: &Clock,
    offsets: &Offsets,
) -> Result<Sweep, AllocError>
    ensures due { IfOk result (λ s. AreDue clock.now.moment groups.now s.dues.items) }
    ensures thinned { IfOk result (λ s. s.thinned.items ≡ ids_of (expires clock.now.loaded clock.now.moment offsets.now) groups.now) }
    ensures effects { IfOk result (λ s. s.effects ≡ effects_of (swept clock.now.loaded clock.now.moment offsets.now) groups.now) }
{
    let alloc = groups.allocator();
    let mut sweep = Sweep {
        dues: Vec::new(alloc),
        thinned: Vec::new(alloc),
        effects: Effects::new(alloc),
    };
    for group in groups.iter() {
        sweep_group(groups, clock, offsets, group, &mut sweep)?;
    }
    Ok(sweep)
}
