//! The shelves: the offsets of each group that has any, by group id.
ghost use Rattle.std.specs.Prelude.{◌≡◌, ◌+◌, ◌<◌, [], IsTrue, filter, length, true, IfOk, IsOk, OnErr, OnOk};
ghost use Rattle.std.specs.List.{fold, list_all};
ghost use Rattle.std.specs.FinMap.{is_sorted};
ghost use Rattle.cg_record.specs.Partitions.{partition_cmp};
ghost use Rattle.cg_fold.specs.Key.{name_cmp, put_row, rows_of};
ghost use Rattle.cg_fold.specs.Grouped.{is_another};
ghost use Rattle.cg_fold.specs.Renewed.{has_row};
ghost use Rattle.cg_fold.specs.Shelf.{rows_at, with_fewer, with_more};

use crate::grouped::{self, ByGroup};
use crate::rows::{Row, Rows};
use cg_names::{GroupId, Moment};
use cg_record::{Committed, Entries, Metadata, TopicPartition};
use std::alloc::{AllocError, Global};

/// The offsets of each group that has any.
pub type Shelves = ByGroup<Rows>;

/// Returns the offsets of a group, by topic and partition. Costs one look-up, no allocation.
pub fn rows_at<'a>(shelves: &'a Shelves, group: &GroupId) -> &'a [Row]
    ensures value { result.now ≡ rows_at group.now shelves.now.entries }
    ensures sorted { IsTrue (is_sorted partition_cmp result.now) }
{
    match grouped::held_at(shelves, group) {
        None => &[],
        Some(rows) => rows.as_slice(),
    }
}

// Builds a shelf with the offsets of these entries, committed at this moment.
fn shelf_of(alloc: Global, moment: &Option<Moment>, entries: &Entries) -> Result<Rows, AllocError>
    ensures { IfOk result (λ rows. rows ≡ fold put_row [] (rows_of moment.now entries.now)) }
{
    let mut rows = Rows::new(alloc);
    rows.put_entries(alloc, moment, entries)?;
    Ok(rows)
}

/// Sets the offsets of a commit on the shelf of its group, which is created if needed. Returns the number of new
/// offsets. If an allocation fails, nothing changes.
pub fn add(shelves: &mut Shelves, alloc: Global, commit: &Committed) -> Result<u64, AllocError>
    requires { IsTrue (is_sorted name_cmp shelves.old.entries) }
    ensures ok { OnOk result (shelves.new.entries ≡ with_more commit.now.group (rows_of commit.now.moment commit.now.entries) shelves.old.entries) }
    ensures grown { IfOk result (λ grown. length (rows_at commit.now.group shelves.new.entries) ≡ length (rows_at commit.now.group shelves.old.entries) + grown) }
    ensures err { OnErr result (shelves.new.entries ≡ shelves.old.entries) }
{
    if let Some(rows) = shelves.get_mut(&commit.group) {
        let grown = rows.put_entries(alloc, &commit.moment, &commit.entries)?;
        return Ok(grown);
    }
    let group = commit.group.clone()?;
    let rows = shelf_of(alloc, &commit.moment, &commit.entries)?;
    let grown = rows.as_slice().len() as u64;
    grouped::put(shelves, group, rows)?;
    Ok(grown)
}

// Builds a shelf with the offsets of these entries, committed at this moment. Their topics and metadata are moved.
fn shelf_from(
    alloc: Global,
    room: &mut Vec<Metadata>,
    moment: &Option<Moment>,
    entries: Entries,
) -> Result<Rows, AllocError>
    ensures { IfOk result (λ rows. rows ≡ fold put_row [] (rows_of moment.now entries)) }
{
    let mut rows = Rows::new(alloc);
    rows.take_entries(alloc, room, moment, entries)?;
    Ok(rows)
}

/// Does what `add` does with a commit that the caller gives away: its topics and metadata are moved, and nothing is
/// allocated if its partitions have an offset already. The metadata of replaced offsets are kept in `room`, as far as that
/// has the capacity.
pub fn take(
    shelves: &mut Shelves,
    alloc: Global,
    room: &mut Vec<Metadata>,
    commit: Committed,
) -> Result<u64, AllocError>
    requires { IsTrue (is_sorted name_cmp shelves.old.entries) }
    ensures ok { OnOk result (shelves.new.entries ≡ with_more commit.group (rows_of commit.moment commit.entries) shelves.old.entries) }
    ensures grown { IfOk result (λ grown. length (rows_at commit.group shelves.new.entries) ≡ length (rows_at commit.group shelves.old.entries) + grown) }
    ensures err { OnErr result (shelves.new.entries ≡ shelves.old.entries) }
    ensures known { 0 < length commit.entries → list_all (has_row (rows_at commit.group shelves.old.entries)) commit.entries ≡ true → IsOk result }
{
    let Committed {
        group,
        moment,
        entries,
    } = commit;
    if let Some(rows) = shelves.get_mut(&group) {
        let grown = rows.take_entries(alloc, room, &moment, entries)?;
        return Ok(grown);
    }
    let rows = shelf_from(alloc, room, &moment, entries)?;
    let grown = rows.as_slice().len() as u64;
    grouped::put(shelves, group, rows)?;
    Ok(grown)
}

/// Removes the shelf of a group, if it has one. Returns the number of its offsets. Costs one look-up and the drop of these
/// offsets.
pub fn remove(shelves: &mut Shelves, group: &GroupId) -> u64
    requires { IsTrue (is_sorted name_cmp shelves.old.entries) }
    ensures others { shelves.new.entries ≡ filter (λ shelf. is_another group.now shelf.0) shelves.old.entries }
    ensures gone { result ≡ length (rows_at group.now shelves.old.entries) }
{
    match grouped::take_away(shelves, group) {
        None => 0,
        Some(rows) => rows.as_slice().len() as u64,
    }
}

/// Removes the offsets of these partitions from the shelf of a group, and the shelf if it has no others. Returns the number
/// of offsets that are gone. Costs one look-up, a second one if the shelf goes, and a comparison of each offset of the group
/// with each partition.
pub fn remove_rows(shelves: &mut Shelves, group: &GroupId, partitions: &[TopicPartition]) -> u64
    requires { IsTrue (is_sorted name_cmp shelves.old.entries) }
    ensures others { shelves.new.entries ≡ with_fewer group.now partitions.now shelves.old.entries }
    ensures gone { length (rows_at group.now shelves.new.entries) + result ≡ length (rows_at group.now shelves.old.entries) }
{
    let Some(rows) = shelves.get_mut(group) else {
        return 0;
    };
    let gone = rows.remove(partitions);
    if rows.as_slice().is_empty() {
        let _rows = grouped::take_away(shelves, group);
    }
    gone
}
