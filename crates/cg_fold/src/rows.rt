//! The offsets of a group as rows, sorted by partition. A look-up is a binary search, without an allocation.
ghost use Rattle.std.specs.Prelude.{◌≡◌, ◌+◌, ◌<◌, ◌≤◌, IsTrue, length, vec_len, vec_capacity, [], true, IfOk, IsOk, OnErr, OnOk};
ghost use Rattle.std.specs.List.{fold, list_all, prefix_len};
ghost use Rattle.std.specs.FinMap.{find, is_sorted};
ghost use Rattle.std.specs.Bool.{OnTrue, OnFalse};
ghost use Rattle.std.specs.Option.{option_copied};
ghost use Rattle.std.specs.VecDeque.{deque_len};
ghost use Rattle.cg_record.specs.Partitions.{partition_cmp};
ghost use Rattle.cg_fold.specs.Key.{AreInOrder, IsOther, IsOwn, is_among, is_below, put_row, row_of, rows_beside, rows_of};
ghost use Rattle.cg_fold.specs.Renewed.{has_row};

use crate::stored_offset::StoredOffset;
use crate::{moves, renewals};
use cg_names::Moment;
use cg_record::{Entries, Entry, Keyed, Metadata, TopicPartition};
use std::alloc::{AllocError, Global};
use std::cmp::Ordering;
use std::collections::VecDeque;
use std::marker::Model;

/// A partition with its committed offset.
pub type Row = (TopicPartition, StoredOffset);

/// Rows sorted by topic and partition. Contracts see a list.
#[derive(Drop)]
pub struct Rows {
    rows: Vec<Row>,
}

impl Model for Rows {
    ghost use Rattle.std.specs.Prelude.{List, IsTrue};
    ghost use Rattle.std.specs.FinMap.{is_sorted};
    ghost use Rattle.cg_record.specs.Partitions.{partition_cmp};
    ghost use Rattle.cg_fold.specs.Key.{KeptRow};
    ghost use Rattle.cg_fold.specs.Shelf.{rows_code};

    ghost Value = { List KeptRow };

    ghost coded = { rows_code };

    ghost view = { λ r. r.rows.items };

    ghost invariant = { λ r. IsTrue (is_sorted partition_cmp r.rows.items) };
}

impl Rows {
    /// Creates an empty list, without an allocation.
    pub fn new(alloc: Global) -> Self
        ensures { result ≡ [] }
    {
        Rows {
            rows: Vec::new(alloc),
        }
    }

    /// Returns the rows in the order of their partitions.
    pub fn as_slice(&self) -> &[Row]
        ensures value { result.now ≡ self.now }
        ensures sorted { IsTrue (is_sorted partition_cmp self.now) }
    {
        self.rows.as_slice()
    }

    /// Returns the rows as a vector, without a copy.
    pub fn into_vec(self) -> Vec<Row>
        ensures value { result.items ≡ self }
        ensures sorted { IsTrue (is_sorted partition_cmp self) }
    {
        let Rows { rows } = self;
        rows
    }

    /// Sets the offsets of these entries, committed at this moment, in order. Returns the number of new rows. If an allocation
    /// fails, nothing changes.
    pub fn put_entries(
        &mut self,
        alloc: Global,
        moment: &Option<Moment>,
        entries: &Entries,
    ) -> Result<u64, AllocError>
        ensures ok { OnOk result (self.new ≡ fold put_row self.old (rows_of moment.now entries.now)) }
        ensures grown { IfOk result (λ grown. length self.new ≡ length self.old + grown) }
        ensures err { OnErr result (self.new ≡ self.old) }
    {
        match entries.as_slice() {
            [entry] => {
                let grown = self.put_entry(moment, entry)?;
                Ok(grown)
            }
            entries => {
                let grown = self.put_several(alloc, moment, entries)?;
                Ok(grown)
            }
        }
    }

    /// Sets the offsets of these entries, committed at this moment, in order, and moves their topics and metadata. Keeps the
    /// metadata of replaced offsets in `room`, as far as that has the capacity. Returns the number of new rows. Needs no
    /// memory if each of the partitions has a row. If an allocation fails, nothing changes.
    pub fn take_entries(
        &mut self,
        alloc: Global,
        room: &mut Vec<Metadata>,
        moment: &Option<Moment>,
        entries: Entries,
    ) -> Result<u64, AllocError>
        ensures ok { OnOk result (self.new ≡ fold put_row self.old (rows_of moment.now entries)) }
        ensures grown { IfOk result (λ grown. length self.new ≡ length self.old + grown) }
        ensures err { OnErr result (self.new ≡ self.old) }
        ensures known { list_all (has_row self.old) entries ≡ true → IsOk result }
    {
        let entries = entries.into_vec();
        if !moves::have_rows(&self.rows, &entries) {
            let grown = self.put_all(moves::rows_from(alloc, moment, entries)?)?;
            return Ok(grown);
        }
        moves::move_entries(&mut self.rows, room, moment, entries);
        Ok(0)
    }

    /// Removes the rows of these partitions. Returns their number. Looks each row up among the partitions if these are in order,
    /// and else compares it with each of them. No allocation.
    pub fn remove(&mut self, partitions: &[TopicPartition]) -> u64
        ensures rows { self.new ≡ rows_beside partitions.now self.old }
        ensures gone { length self.new + result ≡ length self.old }
    {
        let before = self.rows.len();
        keep_beside(&mut self.rows, partitions);
        (before - self.rows.len()) as u64
    }

    // Sets the offsets of several entries, in place if all of them have a row. Returns the number of new rows.
    fn put_several(
        &mut self,
        alloc: Global,
        moment: &Option<Moment>,
        entries: &[Entry],
    ) -> Result<u64, AllocError>
        ensures ok { OnOk result (self.new ≡ fold put_row self.old (rows_of moment.now entries.now)) }
        ensures grown { IfOk result (λ grown. length self.new ≡ length self.old + grown) }
        ensures err { OnErr result (self.new ≡ self.old) }
    {
        match renewals::renewals_of(alloc, &self.rows, moment, entries)? {
            Some(renewals) => {
                renewals::renew_all(&mut self.rows, renewals);
                Ok(0)
            }
            None => {
                let grown = self.put_all(rows_of(alloc, moment, entries)?)?;
                Ok(grown)
            }
        }
    }

    // Sets the offset of one entry, in place if it has a row. Returns the number of new rows.
    fn put_entry(&mut self, moment: &Option<Moment>, entry: &Entry) -> Result<u64, AllocError>
        ensures ok { OnOk result (self.new ≡ put_row self.old (row_of moment.now entry.now)) }
        ensures grown { IfOk result (λ grown. length self.new ≡ length self.old + grown) }
        ensures err { OnErr result (self.new ≡ self.old) }
    {
        match renewals::renewal_of(&self.rows, moment, entry)? {
            Some(renewal) => {
                renewals::renew(&mut self.rows, renewal);
                Ok(0)
            }
            None => {
                let row = row_of(moment, entry)?;
                self.rows.reserve(1)?;
                put_row(&mut self.rows, row);
                Ok(1)
            }
        }
    }

    // Inserts or replaces these rows, in order. Returns the number of new rows. Reserves the room first, so that a
    // failed allocation changes nothing.
    fn put_all(&mut self, waiting: VecDeque<Row>) -> Result<u64, AllocError>
        ensures ok { OnOk result (self.new ≡ fold put_row self.old waiting.items) }
        ensures grown { IfOk result (λ grown. length self.new ≡ length self.old + grown) }
        ensures err { OnErr result (self.new ≡ self.old) }
    {
        let before = self.rows.len();
        self.rows.reserve(waiting.len())?;
        put_rows(&mut self.rows, waiting);
        Ok((self.rows.len() - before) as u64)
    }
}

/// Returns the number of rows before a partition.
pub fn place(rows: &[Row], key: &TopicPartition) -> usize
    requires { IsTrue (is_sorted partition_cmp rows.now) }
    ensures value { result ≡ prefix_len (is_below key.now) rows.now }
    ensures within { result ≤ length rows.now }
{
    rows.partition_point(|row| row.0.compare(key) == Ordering::Less)
}

/// Returns whether the row at this index has the partition.
pub fn is_at(rows: &[Row], at: usize, key: &TopicPartition) -> bool
    ensures own { OnTrue result (IsOwn rows.now at key.now) }
    ensures other { OnFalse result (IsOther rows.now at key.now) }
{
    at < rows.len() && rows[at].0.compare(key) == Ordering::Equal
}

// Inserts the row or replaces the one with its partition, without an allocation: the caller reserves the room.
fn put_row(rows: &mut Vec<Row>, row: Row)
    requires sorted { IsTrue (is_sorted partition_cmp rows.old.items) }
    requires room { vec_len rows.old < vec_capacity rows.old }
    ensures rows { rows.new.items ≡ put_row rows.old.items row }
    ensures sorted { IsTrue (is_sorted partition_cmp rows.new.items) }
    ensures len { vec_len rows.new ≤ vec_len rows.old + 1 }
    ensures capacity { vec_capacity rows.new ≡ vec_capacity rows.old }
{
    let (key, stored) = row;
    let at = place(rows, &key);
    if is_at(rows, at, &key) {
        rows[at].1 = stored;
    } else {
        rows.insert(at, (key, stored)).unwrap();
    }
}

// Inserts or replaces these rows, in order, without an allocation: the caller reserves the room.
fn put_rows(rows: &mut Vec<Row>, mut waiting: VecDeque<Row>)
    requires sorted { IsTrue (is_sorted partition_cmp rows.old.items) }
    requires room { vec_len rows.old + deque_len waiting ≤ vec_capacity rows.old }
    ensures rows { rows.new.items ≡ fold put_row rows.old.items waiting.items }
    ensures sorted { IsTrue (is_sorted partition_cmp rows.new.items) }
{
    while let Some(row) = waiting.pop_front() {
        put_row(rows, row);
    }
}

fn are_in_order(partitions: &[TopicPartition]) -> bool
    ensures { OnTrue result (AreInOrder partitions.now) }
{
    partitions.is_sorted_by(|a, b| a.compare(b) == Ordering::Less)
}

// Returns whether a partition is one of these, which have to be in order.
fn is_found(key: &TopicPartition, partitions: &[TopicPartition]) -> bool
    ensures { AreInOrder partitions.now → result ≡ is_among partitions.now key.now }
{
    partitions
        .binary_search_by(|partition| partition.compare(key))
        .is_ok()
}

// Returns whether a partition is one of these, in any order.
fn is_among(key: &TopicPartition, partitions: &[TopicPartition]) -> bool
    ensures { result ≡ is_among partitions.now key.now }
{
    partitions.iter().any(|partition| key.shares_key(partition))
}

// Keeps the rows of other partitions than these.
fn keep_beside(rows: &mut Vec<Row>, partitions: &[TopicPartition])
    ensures { rows.new.items ≡ rows_beside partitions.now rows.old.items }
{
    if are_in_order(partitions) {
        rows.retain(|row| !is_found(&row.0, partitions));
    } else {
        rows.retain(|row| !is_among(&row.0, partitions));
    }
}

fn row_of(moment: &Option<Moment>, entry: &Entry) -> Result<Row, AllocError>
    ensures { IfOk result (λ row. row ≡ row_of moment.now entry.now) }
{
    let key = entry.key.clone()?;
    let stored = StoredOffset {
        offset: entry.offset,
        metadata: entry.metadata.clone()?,
        moment: *moment,
    };
    Ok((key, stored))
}

// Copies entries into rows.
fn rows_of(
    alloc: Global,
    moment: &Option<Moment>,
    entries: &[Entry],
) -> Result<VecDeque<Row>, AllocError>
    ensures { IfOk result (λ rows. rows.items ≡ rows_of moment.now entries.now) }
{
    let mut rows = VecDeque::with_capacity(alloc, entries.len())?;
    for entry in entries {
        rows.push_back(row_of(moment, entry)?)?;
    }
    Ok(rows)
}

/// Returns the offset of a partition, if there is one. Logarithmic in the rows, no allocation.
pub fn stored_at<'a>(rows: &'a [Row], key: &TopicPartition) -> Option<&'a StoredOffset>
    requires { IsTrue (is_sorted partition_cmp rows.now) }
    ensures { option_copied result ≡ find partition_cmp key.now rows.now }
{
    let at = place(rows, key);
    if is_at(rows, at, key) {
        Some(&rows[at].1)
    } else {
        None
    }
}
