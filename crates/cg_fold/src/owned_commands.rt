//! The commands that build a group that its caller gives away: topics, rosters and metadata are moved.
ghost use Rattle.std.specs.Prelude.{◌≡◌, ◌<◌, ◌≤◌, ◌++◌, IsTrue, length, drop, take, map, IfOk, OnOk};
ghost use Rattle.std.specs.FinMap.{is_sorted};
ghost use Rattle.std.specs.Vec.Iter.{into_iter_items};
ghost use Rattle.cg_record.specs.Partitions.{partition_cmp};
ghost use Rattle.cg_fold.specs.Shelf.{rows_on};
ghost use Rattle.cg_fold.specs.Snapshot.{IsLongestRun, commit_command, commits_of, entry_of, first_len, first_moment, record_command, record_commands};

use crate::first_group::FirstGroup;
use crate::group_record::{GroupRecord, RecordedMembers};
use crate::rows::{Row, Rows};
use crate::runs::{first_len, first_moment};
use cg_names::{GroupId, Moment};
use cg_record::{Assigned, Command, Committed, Emptied, Entries, Entry};
use std::alloc::{AllocError, Global};
use std::collections::VecDeque;
use std::vec::IntoIter;

// Returns the command that sets the record of a group.
fn record_from(group: &GroupId, held: GroupRecord) -> Result<Command, AllocError>
    ensures { IfOk result (λ command. command ≡ record_command group.now held.generation held.kind held.members) }
{
    let group = group.clone()?;
    let GroupRecord {
        generation,
        kind,
        members,
    } = held;
    match members {
        RecordedMembers::Empty(moment) => Ok(Command::Emptied(Emptied {
            group,
            generation,
            kind,
            moment,
        })),
        RecordedMembers::Roster(roster) => Ok(Command::Assigned(Assigned {
            group,
            generation,
            kind,
            roster,
        })),
    }
}

// Appends the command that sets the record of a group, if it has one.
fn take_record(
    commands: &mut Vec<Command>,
    group: &GroupId,
    held: Option<GroupRecord>,
) -> Result<(), AllocError>
    ensures { OnOk result (commands.new.items ≡ commands.old.items ++ record_commands group.now held) }
{
    match held {
        None => Ok(()),
        Some(held) => {
            commands.push(record_from(group, held)?)?;
            Ok(())
        }
    }
}

fn entry_from(row: Row) -> Entry
    ensures { result ≡ entry_of row }
{
    let (key, stored) = row;
    Entry {
        key,
        offset: stored.offset,
        metadata: stored.metadata,
    }
}

// Returns the moment of the next commit, and how many of these rows it has.
fn next_run(rows: &mut VecDeque<Row>) -> (Option<Moment>, usize)
    requires { 0 < length rows.old.items }
    ensures moment { result.0 ≡ first_moment rows.old.items }
    ensures len { result.1 ≡ first_len rows.old.items }
    ensures rows { rows.new.items ≡ rows.old.items }
    ensures longest { IsLongestRun rows.old.items (first_len rows.old.items) }
{
    let rows = rows.make_contiguous();
    (first_moment(rows), first_len(rows))
}

// Removes this many rows, and returns their entries.
fn take_entries(
    alloc: Global,
    rows: &mut VecDeque<Row>,
    len: usize,
) -> Result<Vec<Entry>, AllocError>
    requires { len ≤ length rows.old.items }
    ensures entries { IfOk result (λ entries. entries.items ≡ map entry_of (take len rows.old.items)) }
    ensures others { OnOk result (rows.new.items ≡ drop len rows.old.items) }
{
    let mut entries = Vec::with_capacity(alloc, len)?;
    for count in 0..len {
        match rows.pop_front() {
            Some(row) => entries.push(entry_from(row))?,
            None => unreachable!(),
        }
    }
    Ok(entries)
}

// Removes the rows of the next commit, and returns it.
fn take_commit(
    alloc: Global,
    group: &GroupId,
    rows: &mut VecDeque<Row>,
) -> Result<Command, AllocError>
    requires some { 0 < length rows.old.items }
    requires sorted { IsTrue (is_sorted partition_cmp rows.old.items) }
    ensures command { IfOk result (λ command. command ≡ commit_command group.now (first_moment rows.old.items) (take (first_len rows.old.items) rows.old.items)) }
    ensures others { OnOk result (rows.new.items ≡ drop (first_len rows.old.items) rows.old.items) }
{
    let group = group.clone()?;
    let (moment, len) = next_run(rows);
    let entries = take_entries(alloc, rows, len)?;
    Ok(Command::Committed(Committed {
        group,
        moment,
        entries: Entries::from_lawful(entries),
    }))
}

// Appends the commits of a group's offsets, one for each run. Linear in the offsets.
fn take_commits(
    alloc: Global,
    commands: &mut Vec<Command>,
    group: &GroupId,
    rows: Vec<Row>,
) -> Result<(), AllocError>
    requires sorted { IsTrue (is_sorted partition_cmp rows.items) }
    ensures { OnOk result (commands.new.items ≡ commands.old.items ++ commits_of (length rows.items) group.now rows.items) }
{
    let mut rest = VecDeque::from_vec(rows);
    while !rest.is_empty() {
        commands.push(take_commit(alloc, group, &mut rest)?)?;
    }
    Ok(())
}

// Appends the commits of a group's offsets, if it has any.
fn take_rows(
    alloc: Global,
    commands: &mut Vec<Command>,
    group: &GroupId,
    rows: Option<Rows>,
) -> Result<(), AllocError>
    ensures { OnOk result (commands.new.items ≡ commands.old.items ++ commits_of (length (rows_on rows)) group.now (rows_on rows)) }
{
    match rows {
        None => Ok(()),
        Some(rows) => {
            take_commits(alloc, commands, group, rows.into_vec())?;
            Ok(())
        }
    }
}

/// Returns the commands that build a group: its record, and then its offsets.
pub fn commands_from(
    alloc: Global,
    first: FirstGroup<GroupRecord, Rows>,
) -> Result<IntoIter<Command>, AllocError>
    ensures { IfOk result (λ commands. into_iter_items commands
        ≡ record_commands first.group first.left ++ commits_of (length (rows_on first.right)) first.group (rows_on first.right)) }
{
    let FirstGroup { group, left, right } = first;
    let mut commands = Vec::new(alloc);
    take_record(&mut commands, &group, left)?;
    take_rows(alloc, &mut commands, &group, right)?;
    Ok(commands.into_iter())
}
