//! Hands each event to the function that processes it.
ghost use Rattle.std.specs.Prelude.{◌≡◌, ◌+◌, ◌≤◌, Ok, true, IfOk, OnErr};
ghost use Rattle.std.specs.List.{list_any};
ghost use Rattle.cg_group.specs.Machine.{MayNeedMemory, describe, handled};
ghost use Rattle.cg_group_table.specs.GroupTable.{at_moment, everywhere, outcome, standing};
ghost use Rattle.cg_group_table.specs.Resting.{AreResting};
ghost use Rattle.cg_group_table.specs.SessionIndex.{AreKnown, IsTight, is_home};
ghost use Rattle.cg_group_table.specs.declared.expiry.TheConstants.{RETENTION_MS};
ghost use Rattle.cg_group_rules.specs.Leave.{gone_in};
ghost use Rattle.cg_group_state.specs.Offsets.{offsets_after};
ghost use Rattle.cg_group_rules.specs.TickDeadline.{gone_touches};

use crate::delete_group::handle_delete;
use crate::describe::describe;
use crate::drop_offsets::handle_drop;
use crate::heartbeat::handle_beat;
use crate::join::handle_join;
use crate::leave::handle_leave;
use crate::offset_commit::handle_commit;
use crate::single_reply::reply_alone;
use crate::sync::handle_sync;
use crate::tick::handle_tick;
use cg_fold::Offsets;
use cg_group_rules::fetched;
use cg_group_state::{Effects, Reply};
use cg_group_table::{Clock, GroupTable, SessionIndex, end_session, forget, listings};
use cg_names::Moment;
use cg_request::Event;
use std::alloc::AllocError;

// Processes the end of a session in place. Visits only the groups that the session index has for it.
#[tactic(auto, unfolding(cg_group_table::specs::GroupTable::everywhere))]
fn handle_gone(
    now: Moment,
    held: &mut GroupTable,
    homes: &mut SessionIndex,
    session: u64,
) -> Result<Effects, AllocError>
    requires known { AreKnown (is_home homes.old) held.old }
    requires tight { IsTight homes.old held.old }
    ensures known { AreKnown (is_home homes.new) held.new }
    ensures tight { IsTight homes.new held.new }
    ensures ok { IfOk result
        (λ e. everywhere (gone_in now session) (at_moment now held.old) ≡ outcome (at_moment now held.new) e) }
    ensures err { OnErr result (held.new ≡ held.old) }
    ensures parked { OnErr result (list_any (gone_touches session) held.old ≡ true) }
{
    let effects = end_session(held, homes, session, now)?;
    forget(homes, session);
    Ok(effects)
}

/// Processes an event at this moment, which becomes the last one. A closed session costs only the groups in which its
/// calls may be parked. Before the moment `until` nothing expires; a tick then finds out the next such moment.
#[tactic(auto, unfolding(crate::specs::Machine::handled, crate::specs::Machine::MayNeedMemory))]
pub fn handle(
    clock: &Clock,
    held: &mut GroupTable,
    offsets: &mut Offsets,
    homes: &mut SessionIndex,
    until: &mut Moment,
    event: Event,
) -> Result<Effects, AllocError>
    requires known { AreKnown (is_home homes.old) held.old }
    requires tight { IsTight homes.old held.old }
    requires early { until.old ≤ clock.now.moment + RETENTION_MS }
    requires resting { AreResting until.old clock.now.loaded offsets.old held.old }
    ensures known { AreKnown (is_home homes.new) held.new }
    ensures tight { IsTight homes.new held.new }
    ensures early { until.new ≤ clock.now.moment + RETENTION_MS }
    ensures resting { AreResting until.new clock.now.loaded offsets.old held.old }
    ensures ok { IfOk result (λ e. handled (standing clock.now.loaded clock.now.moment held.old offsets.old) event ≡ outcome (standing clock.now.loaded clock.now.moment held.new offsets.old) e) }
    ensures offsets { IfOk result (λ e. offsets.new ≡ offsets_after offsets.old e.commands) }
    ensures err { OnErr result ((held.new ≡ held.old) × (offsets.new ≡ offsets.old) × (until.new ≡ until.old)) }
    ensures memory { OnErr result (MayNeedMemory (standing clock.now.loaded clock.now.moment held.old offsets.old) event) }
{
    let alloc = held.allocator();
    let now = clock.moment;
    match event {
        Event::Join(ticket, r, fresh) => {
            let effects = handle_join(now, held, homes, ticket, r, fresh)?;
            Ok(effects)
        }
        Event::Sync(ticket, r) => {
            let effects = handle_sync(now, held, homes, ticket, r)?;
            Ok(effects)
        }
        Event::Beat(ticket, r) => Ok(handle_beat(now, held, ticket, &r)),
        Event::Leave(ticket, r) => {
            let effects = handle_leave(now, held, homes, ticket, &r)?;
            Ok(effects)
        }
        Event::Commit(ticket, r) => {
            let effects = handle_commit(now, held, offsets, ticket, r)?;
            Ok(effects)
        }
        Event::Fetch(ticket, r) => {
            let reply = fetched(alloc, offsets, r)?;
            Ok(reply_alone(alloc, ticket, reply))
        }
        Event::Delete(ticket, id) => {
            let effects = handle_delete(now, held, offsets, ticket, &id)?;
            Ok(effects)
        }
        Event::Drop(ticket, r) => {
            let effects = handle_drop(now, held, offsets, ticket, r)?;
            Ok(effects)
        }
        Event::Describe(ticket, id) => {
            let reply = describe(alloc, &id, held)?;
            Ok(reply_alone(alloc, ticket, reply))
        }
        Event::List(ticket) => {
            let list = listings(alloc, held)?;
            Ok(reply_alone(alloc, ticket, Reply::Groups(list)))
        }
        Event::Gone(session) => {
            let effects = handle_gone(now, held, homes, session)?;
            Ok(effects)
        }
        Event::Tick => {
            let effects = handle_tick(clock, held, offsets, homes, until)?;
            Ok(effects)
        }
    }
}
