//! Offsets of a commit that its caller gives away: the topics and metadata are moved into the rows. For partitions that
//! have an offset already nothing is allocated.
ghost use Rattle.std.specs.Prelude.{◌≡◌, IsTrue, true, length, IfOk};
ghost use Rattle.std.specs.List.{fold, list_all, prefix_len};
ghost use Rattle.std.specs.FinMap.{is_sorted};
ghost use Rattle.cg_record.specs.Partitions.{partition_cmp};
ghost use Rattle.cg_fold.specs.Key.{IsOwn, is_below, put_row, row_of, rows_of};
ghost use Rattle.cg_fold.specs.Renewed.{has_row};

use crate::renewals::{Renewal, renew_in};
use crate::rows::{Row, is_at, place, stored_at};
use crate::stored_offset::StoredOffset;
use cg_names::Moment;
use cg_record::{Entry, Metadata};
use std::alloc::{AllocError, Global};
use std::collections::VecDeque;

fn row_from(moment: &Option<Moment>, entry: Entry) -> Row
    ensures { result ≡ row_of moment.now entry }
{
    let Entry {
        key,
        offset,
        metadata,
    } = entry;
    let stored = StoredOffset {
        offset,
        metadata,
        moment: *moment,
    };
    (key, stored)
}

/// Builds the rows of these entries, committed at this moment, in order, without a copy.
pub fn rows_from(
    alloc: Global,
    moment: &Option<Moment>,
    entries: Vec<Entry>,
) -> Result<VecDeque<Row>, AllocError>
    ensures { IfOk result (λ rows. rows.items ≡ rows_of moment.now entries.items) }
{
    let mut rows = VecDeque::with_capacity(alloc, entries.len())?;
    for entry in entries {
        rows.push_back(row_from(moment, entry))?;
    }
    Ok(rows)
}

// Returns whether the partition of this entry has a row, which may be the one at `near`.
fn has_row(rows: &[Row], near: usize, entry: &Entry) -> bool
    requires { IsTrue (is_sorted partition_cmp rows.now) }
    ensures { result ≡ has_row rows.now entry.now }
{
    is_at(rows, near, &entry.key) || stored_at(rows, &entry.key).is_some()
}

// Returns whether the partition of each entry has a row. The row of the first may be the one at `near`.
fn have_rows_near(rows: &[Row], near: usize, entries: &[Entry]) -> bool
    requires { IsTrue (is_sorted partition_cmp rows.now) }
    ensures { result ≡ list_all (has_row rows.now) entries.now }
{
    match entries {
        [] => true,
        [first, rest @ ..] => {
            has_row(rows, near, first) && have_rows_near(rows, near.wrapping_add(1), rest)
        }
    }
}

/// Returns whether the partition of each entry has a row. No allocation. Entries whose rows follow one another from the
/// first row on cost one comparison each, the others a look-up.
pub fn have_rows(rows: &[Row], entries: &[Entry]) -> bool
    requires { IsTrue (is_sorted partition_cmp rows.now) }
    ensures { result ≡ list_all (has_row rows.now) entries.now }
{
    have_rows_near(rows, 0, entries)
}

// Returns the index of the row of an entry's partition, which has one: it may be the one at `near`.
fn own_place(rows: &[Row], near: usize, entry: &Entry) -> usize
    requires sorted { IsTrue (is_sorted partition_cmp rows.now) }
    requires has { has_row rows.now entry.now ≡ true }
    ensures value { result ≡ prefix_len (is_below entry.now.key) rows.now }
    ensures own { IsOwn rows.now result entry.now.key }
{
    if is_at(rows, near, &entry.key) {
        return near;
    }
    let at = place(rows, &entry.key);
    if !is_at(rows, at, &entry.key) {
        unreachable!()
    }
    at
}

// Sets the offset of an entry whose partition has a row, which may be the one at `near`. Returns the index after it.
fn move_entry(
    rows: &mut Vec<Row>,
    room: &mut Vec<Metadata>,
    near: usize,
    moment: &Option<Moment>,
    entry: Entry,
) -> usize
    requires sorted { IsTrue (is_sorted partition_cmp rows.old.items) }
    requires has { has_row rows.old.items entry ≡ true }
    ensures rows { rows.new.items ≡ put_row rows.old.items (row_of moment.now entry) }
    ensures sorted { IsTrue (is_sorted partition_cmp rows.new.items) }
    ensures len { length rows.new.items ≡ length rows.old.items }
    ensures keeps { (e : Entry) → has_row rows.new.items e ≡ has_row rows.old.items e }
{
    let at = own_place(rows, near, &entry);
    let stored = StoredOffset {
        offset: entry.offset,
        metadata: entry.metadata,
        moment: *moment,
    };
    renew_in(rows, room, Renewal { at, stored });
    at + 1
}

/// Sets the offsets of these entries, committed at this moment, in order. The partition of each has a row. Keeps the
/// metadata that the rows had in `room`, as far as that has the capacity. No allocation; the costs are those of `have_rows`.
pub fn move_entries(
    rows: &mut Vec<Row>,
    room: &mut Vec<Metadata>,
    moment: &Option<Moment>,
    entries: Vec<Entry>,
)
    requires sorted { IsTrue (is_sorted partition_cmp rows.old.items) }
    requires have { list_all (has_row rows.old.items) entries.items ≡ true }
    ensures rows { rows.new.items ≡ fold put_row rows.old.items (rows_of moment.now entries.items) }
    ensures sorted { IsTrue (is_sorted partition_cmp rows.new.items) }
    ensures len { length rows.new.items ≡ length rows.old.items }
{
    let mut near = 0;
    for entry in entries {
        near = move_entry(rows, room, near, moment, entry);
    }
}
