//! DROP (OffsetDelete request, KIP-496): offsets of a group without members are removed.
ghost use Rattle.std.specs.Prelude.{◌≡◌, ◌≤◌, ℕ, false, Ok, Err, None, true, length, IfOk, OnErr};
ghost use Rattle.cg_group.specs.Machine.{dropped, is_unfounded, memberless, with_offset};
ghost use Rattle.cg_group_table.specs.GroupTable.{find_group, outcome, standing};
ghost use Rattle.cg_group_table.specs.SessionIndex.{StayParked, is_parked};
ghost use Rattle.cg_group_state.specs.Offsets.{offsets_after};
ghost use Rattle.cg_record.specs.Partitions.{ArePartitions};

use crate::delete_group::memberless;
use crate::single_reply::reply_alone;
use cg_fold::Offsets;
use cg_group_rules::RequestContext;
use cg_group_state::{Effects, Few, Reply};
use cg_group_table::GroupTable;
use cg_names::{GroupId, Moment};
use cg_record::{Command, Dropped, Partitions, TopicPartition};
use cg_request::{DropRequest, Ticket};
use std::alloc::AllocError;

// Returns those of the partitions that have an offset in the group, in their order.
fn with_offset(offsets: &Offsets, group: &GroupId, partitions: Partitions) -> Vec<TopicPartition>
    ensures value { result.items ≡ with_offset offsets.now group.now partitions }
    ensures lawful { 1 ≤ length result.items → ArePartitions result.items }
{
    let _lawful = partitions.as_slice();
    let mut partitions = partitions.into_vec();
    partitions.retain(|partition| offsets.get(group, partition).is_some());
    partitions
}

// Returns whether the group is loaded without a record, and no offset of it is left.
fn is_unfounded(held: &GroupTable, offsets: &Offsets, group: &GroupId) -> bool
    ensures { result ≡ is_unfounded offsets.now held.now group.now }
{
    offsets.of_group(group).is_empty()
        && match held.find(group) {
            None => true,
            Some(group) => group.kind.is_none(),
        }
}

// Removes the offsets of these partitions from a group without members, and the group if nothing of it is left. Nothing is
// done if none of the partitions has an offset.
#[tactic(auto, unfolding(crate::specs::Machine::dropped, cg_fold::specs::Durable::effect))]
fn drop_offsets(
    context: RequestContext,
    held: &mut GroupTable,
    offsets: &mut Offsets,
    own: &GroupId,
    partitions: Partitions,
) -> Result<Effects, AllocError>
    requires idle { (q : ℕ) → is_parked q (find_group own.now held.old) ≡ false }
    ensures ok { IfOk result (λ e. (loaded : ℕ) → dropped (standing loaded context.now held.old offsets.old) context.ticket partitions (Ok own.now)
        ≡ outcome (standing loaded context.now held.new offsets.old) e) }
    ensures parked { StayParked held.old held.new }
    ensures offsets { IfOk result (λ e. offsets.new ≡ offsets_after offsets.old e.commands) }
    ensures err { OnErr result ((held.new ≡ held.old) × (offsets.new ≡ offsets.old)) }
    ensures some { OnErr result (1 ≤ length (with_offset offsets.old own.now partitions)) }
{
    let RequestContext { alloc, ticket, .. } = context;
    let partitions = with_offset(offsets, own, partitions);
    if partitions.is_empty() {
        return Ok(reply_alone(alloc, ticket, Reply::Done));
    }
    let group = own.clone()?;
    offsets.forget_partitions(own, partitions.as_slice());
    if is_unfounded(held, offsets, own) {
        held.remove(own);
    }
    let partitions = Partitions::from_lawful(partitions);
    Ok(Effects {
        commands: Few::one(alloc, Command::Dropped(Dropped { group, partitions })),
        replies: Few::one(alloc, (ticket, Reply::Done)),
    })
}

/// Processes a DROP.
#[tactic(auto, unfolding(crate::specs::Machine::dropped))]
pub fn handle_drop(
    now: Moment,
    held: &mut GroupTable,
    offsets: &mut Offsets,
    ticket: Ticket,
    r: DropRequest,
) -> Result<Effects, AllocError>
    ensures ok { IfOk result
        (λ e. (loaded : ℕ) → dropped (standing loaded now held.old offsets.old) ticket r.partitions (memberless r.group held.old) ≡ outcome (standing loaded now held.new offsets.old) e) }
    ensures parked { StayParked held.old held.new }
    ensures offsets { IfOk result (λ e. offsets.new ≡ offsets_after offsets.old e.commands) }
    ensures err { OnErr result ((held.new ≡ held.old) × (offsets.new ≡ offsets.old)) }
    ensures some { OnErr result
        ((loaded : ℕ) → 1 ≤ length (dropped (standing loaded now held.old offsets.old) ticket r.partitions (memberless r.group held.old)).effects.commands) }
{
    let alloc = held.allocator();
    let DropRequest { group, partitions } = r;
    match memberless(&group, held) {
        Err(code) => Ok(reply_alone(alloc, ticket, Reply::Refused(code))),
        Ok(own) => {
            let context = RequestContext { alloc, now, ticket };
            let effects = drop_offsets(context, held, offsets, own, partitions)?;
            Ok(effects)
        }
    }
}
