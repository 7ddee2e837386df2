//! The commands that build a group, for a snapshot.
ghost use Rattle.std.specs.Prelude.{◌≡◌, ◌<◌, ◌≤◌, ◌++◌, IsTrue, length, drop, take, map, IfOk, OnOk};
ghost use Rattle.std.specs.FinMap.{is_sorted};
ghost use Rattle.std.specs.Option.{option_copied};
ghost use Rattle.cg_record.specs.declared.entries.TheConstants.{COMMIT_METADATA_BYTES_MAX, ENTRIES_MAX};
ghost use Rattle.cg_record.specs.Keys.{metadata_bytes};
ghost use Rattle.cg_record.specs.Partitions.{partition_cmp};
ghost use Rattle.cg_fold.specs.Snapshot.{IsLongestRun, commit_command, commits_of, entry_of, first_len, record_command, record_commands};

use crate::group_record::{GroupRecord, RecordedMembers};
use crate::rows::Row;
use crate::runs::{first_len, first_moment};
use cg_names::{GroupId, Moment};
use cg_record::{Assigned, Command, Committed, Emptied, Entries, Entry};
use std::alloc::{AllocError, Global};

// Returns the command that sets the record of a group.
fn record_command(group: &GroupId, held: &GroupRecord) -> Result<Command, AllocError>
    ensures { IfOk result (λ command. command ≡ record_command group.now held.now.generation held.now.kind held.now.members) }
{
    let group = group.clone()?;
    let kind = held.kind.clone()?;
    match &held.members {
        RecordedMembers::Empty(moment) => Ok(Command::Emptied(Emptied {
            group,
            generation: held.generation,
            kind,
            moment: *moment,
        })),
        RecordedMembers::Roster(roster) => {
            let roster = roster.clone()?;
            Ok(Command::Assigned(Assigned {
                group,
                generation: held.generation,
                kind,
                roster,
            }))
        }
    }
}

/// Appends the command that sets the record of a group, if it has one.
pub fn push_record(
    commands: &mut Vec<Command>,
    group: &GroupId,
    held: Option<&GroupRecord>,
) -> Result<(), AllocError>
    ensures { OnOk result (commands.new.items ≡ commands.old.items ++ record_commands group.now (option_copied held.entry)) }
{
    match held {
        None => Ok(()),
        Some(held) => {
            commands.push(record_command(group, held)?)?;
            Ok(())
        }
    }
}

fn entry_of(row: &Row) -> Result<Entry, AllocError>
    ensures { IfOk result (λ entry. entry ≡ entry_of row.now) }
{
    let key = row.0.clone()?;
    let metadata = row.1.metadata.clone()?;
    Ok(Entry {
        key,
        offset: row.1.offset,
        metadata,
    })
}

fn entries_of(alloc: Global, rows: &[Row]) -> Result<Vec<Entry>, AllocError>
    ensures { IfOk result (λ entries. entries.items ≡ map entry_of rows.now) }
{
    let mut entries = Vec::with_capacity(alloc, rows.len())?;
    for row in rows {
        entries.push(entry_of(row)?)?;
    }
    Ok(entries)
}

// Returns the commit of these offsets at this moment.
fn commit_of(
    alloc: Global,
    group: &GroupId,
    moment: Option<Moment>,
    rows: &[Row],
) -> Result<Command, AllocError>
    requires some { 0 < length rows.now }
    requires few { length rows.now ≤ ENTRIES_MAX }
    requires metadata { metadata_bytes (map entry_of rows.now) ≤ COMMIT_METADATA_BYTES_MAX }
    requires sorted { IsTrue (is_sorted partition_cmp rows.now) }
    ensures { IfOk result (λ command. command ≡ commit_command group.now moment rows.now) }
{
    let group = group.clone()?;
    let entries = entries_of(alloc, rows)?;
    Ok(Command::Committed(Committed {
        group,
        moment,
        entries: Entries::from_lawful(entries),
    }))
}

// Splits off the rows of the next commit.
fn first_entries(rows: &[Row]) -> (&[Row], &[Row])
    requires { 0 < length rows.now }
    ensures first { result.0.now ≡ take (first_len rows.now) rows.now }
    ensures others { result.1.now ≡ drop (first_len rows.now) rows.now }
    ensures longest { IsLongestRun rows.now (first_len rows.now) }
{
    rows.split_at(first_len(rows))
}

/// Appends the commits of a group's offsets, one for each run. Linear in the offsets.
pub fn push_commits(
    alloc: Global,
    commands: &mut Vec<Command>,
    group: &GroupId,
    rows: &[Row],
) -> Result<(), AllocError>
    requires sorted { IsTrue (is_sorted partition_cmp rows.now) }
    ensures { OnOk result (commands.new.items ≡ commands.old.items ++ commits_of (length rows.now) group.now rows.now) }
{
    let mut rest = rows;
    while !rest.is_empty() {
        let (first, others) = first_entries(rest);
        commands.push(commit_of(alloc, group, first_moment(rest), first)?)?;
        rest = others;
    }
    Ok(())
}
