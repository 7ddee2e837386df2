//! Expiry of groups and offsets (KIP-211): what a tick takes from a group without members.
ghost use Rattle.std.specs.Prelude.{◌≡◌, ◌≤◌, ◌++◌, IsTrue, length, IfOk, OnOk, drop, take};
ghost use Rattle.std.specs.FinMap.{is_sorted};
ghost use Rattle.cg_record.specs.Partitions.{ArePartitions, partition_cmp};
ghost use Rattle.std.specs.List.{list_any};
ghost use Rattle.cg_fold.specs.Key.{KeptRow};
ghost use Rattle.cg_record.specs.declared.entries.TheConstants.{ENTRIES_MAX};
ghost use Rattle.cg_group_table.specs.Kept.{Each};
ghost use Rattle.cg_group_table.specs.Resting.{AreFresh, IsFresh, Rests};
ghost use Rattle.cg_group_table.specs.Expiry.{expires, expiries, expiring, is_stale, is_stale_row, is_vacant, stale_of};

use cg_fold::{Offsets, Row};
use cg_group_state::{Few, Group, Phase};
use cg_names::{GroupId, Moment};
use cg_record::{Command, Deleted, ENTRIES_MAX, Expired, Partitions, TopicPartition};
use std::alloc::{AllocError, Global};

/// How long a group without members is kept, and an offset in a group without a record: seven days, in milliseconds
/// (`offsets.retention.minutes` of Kafka).
pub const RETENTION_MS: u32 = 7 * 24 * 60 * 60 * 1_000;

/// Maximum number of commands by which the offsets of a group expire at one tick.
pub const EXPIRED_COMMANDS_MAX: usize = 64;

/// The moment at which the machine was loaded, and that of the event.
#[derive(Clone, Copy, Debug)]
pub struct Clock {
    pub loaded: Moment,
    pub moment: Moment,
}

// Returns whether the group is Empty.
fn is_vacant(group: &Group) -> bool
    ensures { result ≡ is_vacant group.now }
{
    group.phase == Phase::Empty && group.members.len() == 0
}

// Returns whether the retention time has passed since this moment.
fn is_stale(clock: &Clock, moment: Option<Moment>) -> bool
    ensures { result ≡ is_stale clock.now.loaded clock.now.moment moment }
{
    clock
        .moment
        .is_past(moment.unwrap_or(clock.loaded), RETENTION_MS)
}

fn is_stale_row(clock: &Clock, row: &Row) -> bool
    ensures { result ≡ is_stale_row clock.now.loaded clock.now.moment row.now }
{
    is_stale(clock, row.1.moment)
}

// Returns whether one of the rows is stale.
fn has_stale(clock: &Clock, rows: &[Row]) -> bool
    ensures { result ≡ list_any (is_stale_row clock.now.loaded clock.now.moment) rows.now }
{
    rows.iter().any(|row| is_stale_row(clock, row))
}

// Returns the partitions of the first stale rows, as many as one command names, and the rows after these.
fn next_stale<'a>(
    alloc: Global,
    clock: &Clock,
    rows: &'a [Row],
) -> Result<(Vec<TopicPartition>, &'a [Row]), AllocError>
    requires sorted { IsTrue (is_sorted partition_cmp rows.now) }
    ensures sorted { IfOk result (λ p. IsTrue (is_sorted partition_cmp p.1.now)) }
    ensures distinct { IfOk result (λ p. 1 ≤ length p.0.items → ArePartitions p.0.items) }
    ensures first { IfOk result (λ p. p.0.items ≡ take ENTRIES_MAX (stale_of clock.now.loaded clock.now.moment rows.now)) }
    ensures others { IfOk result (λ p. stale_of clock.now.loaded clock.now.moment p.1.now ≡ drop ENTRIES_MAX (stale_of clock.now.loaded clock.now.moment rows.now)) }
{
    let mut stale = Vec::new(alloc);
    let mut rest = rows;
    while stale.len() < ENTRIES_MAX {
        let Some((row, others)) = rest.split_first() else {
            break;
        };
        if is_stale_row(clock, row) {
            stale.push(row.0.clone()?)?;
        }
        rest = others;
    }
    Ok((stale, rest))
}

// Appends the commands by which the stale rows of a group expire.
fn push_expiries(
    alloc: Global,
    clock: &Clock,
    group: &GroupId,
    rows: &[Row],
    commands: &mut Few<Command>,
) -> Result<(), AllocError>
    requires sorted { IsTrue (is_sorted partition_cmp rows.now) }
    ensures { OnOk result (commands.new ≡ commands.old ++ expiries EXPIRED_COMMANDS_MAX group.now (stale_of clock.now.loaded clock.now.moment rows.now)) }
{
    let mut rest = rows;
    let mut left = EXPIRED_COMMANDS_MAX;
    while left > 0 {
        let (stale, others) = next_stale(alloc, clock, rest)?;
        if stale.is_empty() {
            break;
        }
        let group = group.clone()?;
        let partitions = Partitions::from_lawful(stale);
        commands.push(Command::Expired(Expired { group, partitions }))?;
        rest = others;
        left -= 1;
    }
    Ok(())
}

/// Appends the commands by which a tick takes from a group what is stale. Costs a pass over the offsets of a group that has no
/// record, with a copy of each topic that is named. If an allocation fails, some of the commands may be there.
pub fn push_expiring(
    alloc: Global,
    clock: &Clock,
    offsets: &Offsets,
    group: &Group,
    commands: &mut Few<Command>,
) -> Result<(), AllocError>
    ensures { OnOk result (commands.new ≡ commands.old ++ expiring clock.now.loaded clock.now.moment offsets.now group.now) }
{
    if !is_vacant(group) {
        return Ok(());
    }
    if group.kind.is_none() {
        let rows = offsets.of_group(&group.id);
        push_expiries(alloc, clock, &group.id, rows, commands)?;
        return Ok(());
    }
    if is_stale(clock, group.emptied) {
        let group = group.id.clone()?;
        commands.push(Command::Deleted(Deleted { group }))?;
    }
    Ok(())
}

/// Returns whether something expires in a group. Costs a pass over the offsets of a group that has no record, no allocation.
pub fn expires(clock: &Clock, offsets: &Offsets, group: &Group) -> bool
    ensures { result ≡ expires clock.now.loaded clock.now.moment offsets.now group.now }
{
    if !is_vacant(group) {
        return false;
    }
    if group.kind.is_some() {
        return is_stale(clock, group.emptied);
    }
    has_stale(clock, offsets.of_group(&group.id))
}

// Returns the first moment at which this one is stale, or the last moment of all if that comes before.
fn stale_at(clock: &Clock, moment: Option<Moment>) -> Moment
    ensures { IsFresh result clock.now.loaded moment }
{
    moment.unwrap_or(clock.loaded).later_by(RETENTION_MS)
}

// Returns the least of `until` and the moments at which these rows are stale.
fn rows_fresh_until(clock: &Clock, rows: &[Row], until: Moment) -> Moment
    ensures earlier { result ≤ until }
    ensures fresh { Each (λ row. IsFresh result clock.now.loaded row.1.moment) rows.now }
{
    let mut until = until;
    for row in rows {
        until = until.min(stale_at(clock, row.1.moment));
    }
    until
}

/// Returns the least of `until` and the first moment at which something expires in a group, if nothing else happens to it.
/// Costs a pass over the offsets of a group that has no record, no allocation.
pub fn fresh_until(clock: &Clock, offsets: &Offsets, group: &Group, until: Moment) -> Moment
    ensures earlier { result ≤ until }
    ensures rests { Rests result clock.now.loaded group.now }
    ensures fresh { AreFresh result clock.now.loaded offsets.now group.now }
{
    if group.kind.is_none() {
        return rows_fresh_until(clock, offsets.of_group(&group.id), until);
    }
    if group.phase == Phase::Empty {
        return until.min(stale_at(clock, group.emptied));
    }
    until
}
