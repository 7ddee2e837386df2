//! New offsets for partitions that have one already: the row is changed in place, so the topic is not copied.
ghost use Rattle.std.specs.Prelude.{◌≡◌, ◌<◌, IsTrue, false, length, IfOk, MatchOption};
ghost use Rattle.std.specs.List.{fold, list_all};
ghost use Rattle.std.specs.FinMap.{find, is_sorted};
ghost use Rattle.cg_record.specs.Partitions.{partition_cmp};
ghost use Rattle.cg_fold.specs.Key.{row_of, rows_of};
ghost use Rattle.cg_fold.specs.Renewed.{AreBelow, AreRenewals, IsRenewal, has_row, renewed};

use crate::rows::{self, Row};
use crate::stored_offset::StoredOffset;
use cg_names::Moment;
use cg_record::{Entry, Metadata};
use std::alloc::{AllocError, Global};
use std::collections::VecDeque;
use std::mem;

/// A new value for a row, with the index of the row.
#[derive(Drop)]
pub struct Renewal {
    pub at: usize,
    pub stored: StoredOffset,
}

/// Returns the new value for the row of this entry's partition, if there is such a row: committed at this moment. Copies the
/// metadata.
pub fn renewal_of(
    rows: &[Row],
    moment: &Option<Moment>,
    entry: &Entry,
) -> Result<Option<Renewal>, AllocError>
    requires { IsTrue (is_sorted partition_cmp rows.now) }
    ensures { IfOk result (λ found. MatchOption found
        (find partition_cmp entry.now.key rows.now ≡ None)
        (λ renewal. IsRenewal rows.now (row_of moment.now entry.now) renewal)) }
{
    let at = rows::place(rows, &entry.key);
    if !rows::is_at(rows, at, &entry.key) {
        return Ok(None);
    }
    let stored = StoredOffset {
        offset: entry.offset,
        metadata: entry.metadata.clone()?,
        moment: *moment,
    };
    Ok(Some(Renewal { at, stored }))
}

/// Sets the value of a row. No allocation.
pub fn renew(rows: &mut Vec<Row>, renewal: Renewal)
    requires { renewal.at < length rows.old.items }
    ensures { rows.new.items ≡ renewed rows.old.items renewal }
{
    rows[renewal.at].1 = renewal.stored;
}

// Keeps metadata that are no longer needed, if `room` has the capacity.
fn keep_spent(room: &mut Vec<Metadata>, spent: StoredOffset) {
    let StoredOffset { metadata, .. } = spent;
    if room.len() < room.capacity() {
        room.push_reserved(metadata);
    }
}

/// Sets the value of a row, and keeps the metadata that it had in `room`, if that has the capacity. No allocation.
pub fn renew_in(rows: &mut Vec<Row>, room: &mut Vec<Metadata>, renewal: Renewal)
    requires { renewal.at < length rows.old.items }
    ensures { rows.new.items ≡ renewed rows.old.items renewal }
{
    let spent = mem::replace(&mut rows[renewal.at].1, renewal.stored);
    keep_spent(room, spent);
}

/// Returns the new values for the rows of these entries, committed at this moment, if all of these rows exist. Copies the
/// metadata of each.
pub fn renewals_of(
    alloc: Global,
    rows: &[Row],
    moment: &Option<Moment>,
    entries: &[Entry],
) -> Result<Option<VecDeque<Renewal>>, AllocError>
    requires { IsTrue (is_sorted partition_cmp rows.now) }
    ensures { IfOk result (λ found. MatchOption found
        (list_all (has_row rows.now) entries.now ≡ false)
        (λ renewals. AreRenewals rows.now (rows_of moment.now entries.now) renewals.items)) }
{
    let mut renewals = VecDeque::with_capacity(alloc, entries.len())?;
    for entry in entries {
        match renewal_of(rows, moment, entry)? {
            Some(renewal) => renewals.push_back(renewal)?,
            None => return Ok(None),
        }
    }
    Ok(Some(renewals))
}

/// Sets the values of these rows, in order. No allocation.
pub fn renew_all(rows: &mut Vec<Row>, mut renewals: VecDeque<Renewal>)
    requires { AreBelow (length rows.old.items) renewals.items }
    ensures { rows.new.items ≡ fold renewed rows.old.items renewals.items }
{
    while let Some(renewal) = renewals.pop_front() {
        renew(rows, renewal);
    }
}
