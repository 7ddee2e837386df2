//! The committed offsets of all groups.
ghost use Rattle.std.specs.Prelude.{◌≡◌, IsTrue, IsOk, OnOk, OnErr};
ghost use Rattle.std.specs.List.{fold};
ghost use Rattle.std.specs.Option.{option_copied};
ghost use Rattle.std.specs.FinMap as finmap;
ghost use Rattle.std.specs.FinMap.{from_sorted, is_sorted};
ghost use Rattle.cg_record.specs.Partitions.{partition_cmp};
ghost use Rattle.cg_fold.specs.Key.{key_of};
ghost use Rattle.cg_fold.specs.Shelf.{AreShelves, stock};
ghost use Rattle.cg_fold.specs.Snapshot.{offsets_in};
ghost use Rattle.cg_fold.specs.Durable.{Renews, is_beside, is_of_other, with_entry};

use crate::rows::{self, Row};
use crate::shelves::{self, Shelves};
use crate::stored_offset::StoredOffset;
use cg_names::GroupId;
use cg_record::{Committed, Metadata, TopicPartition};
use std::alloc::{AllocError, Global};
use std::collections::BTreeMap;
use std::marker::Model;

/// The committed offsets of all groups. Contracts see the map of `State`.
///
/// The offsets of each group are in a sorted vector of their own, its shelf, and the shelves in an ordered map, which has
/// the id of each group once. A look-up takes time logarithmic in the number of groups and of the group's offsets, and no
/// allocation. A commit looks up its group once and each of its partitions once. If the group has an offset for each of
/// these partitions, only the metadata is copied. Otherwise the entries are copied and looked up again; a new partition
/// moves the group's offsets after it, and a new group is looked up once more. The offsets of other groups are never moved.
#[derive(Drop)]
pub struct Offsets {
    alloc: Global,
    len: u64,
    shelves: Shelves,
}

impl Model for Offsets {
    ghost use Rattle.std.specs.FinMap.{FinMap, from_sorted};
    ghost use Rattle.cg_fold.specs.declared.stored_offset.StoredOffset.{StoredOffset};
    ghost use Rattle.cg_fold.specs.Key.{key_cmp, offsets_code};
    ghost use Rattle.cg_fold.specs.Shelf.{AreShelves, stock};

    ghost Value = { FinMap key_cmp StoredOffset };

    ghost coded = { offsets_code };

    ghost view = { λ o. from_sorted (stock o.shelves.entries) };

    ghost invariant = { λ o. AreShelves o.len o.shelves.entries };
}

impl Offsets {
    /// Creates an empty map, without an allocation.
    pub fn new(alloc: Global) -> Self
        ensures { result ≡ finmap.empty }
    {
        Offsets {
            alloc,
            len: 0,
            shelves: BTreeMap::new(alloc),
        }
    }

    /// Returns the committed offset of a partition, if there is one. Costs two look-ups, no allocation.
    pub fn get(&self, group: &GroupId, partition: &TopicPartition) -> Option<&StoredOffset>
        ensures { option_copied result ≡ finmap.get self.now (key_of group.now partition.now) }
    {
        rows::stored_at(self.of_group(group), partition)
    }

    /// Returns the offsets of a group, by topic and partition. Costs one look-up, no allocation.
    pub fn of_group(&self, group: &GroupId) -> &[Row]
        ensures value { result.now ≡ offsets_in self.now group.now }
        ensures sorted { IsTrue (is_sorted partition_cmp result.now) }
    {
        shelves::rows_at(&self.shelves, group)
    }

    /// Returns the shelves. A group has a shelf exactly if it has an offset.
    pub(crate) fn shelves(&self) -> &Shelves
        ensures value { from_sorted (stock result.now.entries) ≡ self.now }
        ensures are { AreShelves (finmap.len self.now) result.now.entries }
    {
        &self.shelves
    }

    /// Returns the shelves, without a copy.
    pub(crate) fn into_shelves(self) -> Shelves
        ensures value { from_sorted (stock result.entries) ≡ self }
        ensures are { AreShelves (finmap.len self) result.entries }
    {
        let Offsets { shelves, .. } = self;
        shelves
    }

    /// Sets the offset of each entry of a commit. Copies the metadata, and makes a list if there are several entries; if one of
    /// their partitions is new, copies the topics too, and for a new group its id. If an allocation fails, nothing changes;
    /// more than `u64::MAX` offsets, which fit no memory, count as a failed allocation.
    pub fn commit(&mut self, commit: &Committed) -> Result<(), AllocError>
        ensures ok { OnOk result (self.new ≡ fold (with_entry commit.now.group commit.now.moment) self.old commit.now.entries) }
        ensures err { OnErr result (self.new ≡ self.old) }
    {
        if commit.entries.len() as u64 > u64::MAX - self.len {
            return Err(AllocError);
        }
        let grown = shelves::add(&mut self.shelves, self.alloc, commit)?;
        self.len += grown;
        Ok(())
    }

    /// Does what `commit` does with a commit that the caller gives away: its topics and metadata are moved, and nothing is
    /// allocated if its partitions have an offset already.
    pub fn take_commit(&mut self, commit: Committed) -> Result<(), AllocError>
        ensures ok { OnOk result (self.new ≡ fold (with_entry commit.group commit.moment) self.old commit.entries) }
        ensures err { OnErr result (self.new ≡ self.old) }
        ensures known { Renews self.old commit → IsOk result }
    {
        let mut room = Vec::new(self.alloc);
        self.take_commit_in(&mut room, commit)?;
        Ok(())
    }

    /// Does what `take_commit` does, and keeps the metadata of replaced offsets in `room`, as far as that has the capacity:
    /// their memory can be used again.
    pub fn take_commit_in(
        &mut self,
        room: &mut Vec<Metadata>,
        commit: Committed,
    ) -> Result<(), AllocError>
        ensures ok { OnOk result (self.new ≡ fold (with_entry commit.group commit.moment) self.old commit.entries) }
        ensures err { OnErr result (self.new ≡ self.old) }
        ensures known { Renews self.old commit → IsOk result }
    {
        if commit.entries.len() as u64 > u64::MAX - self.len {
            return Err(AllocError);
        }
        let grown = shelves::take(&mut self.shelves, self.alloc, room, commit)?;
        self.len += grown;
        Ok(())
    }

    /// Removes the offsets of a group. Costs one look-up and the drop of these offsets, no allocation.
    pub fn forget(&mut self, group: &GroupId)
        ensures { self.new ≡ finmap.retain_keys self.old (is_of_other group.now) }
    {
        let gone = shelves::remove(&mut self.shelves, group);
        self.len -= gone;
    }

    /// Removes the offsets of these partitions of a group; those that have none change nothing. Costs one look-up, a second
    /// one if the group keeps no offset, and a search for each of its offsets among the partitions: logarithmic in their
    /// number if they are in order. No allocation.
    pub fn forget_partitions(&mut self, group: &GroupId, partitions: &[TopicPartition])
        ensures { self.new ≡ finmap.retain_keys self.old (is_beside group.now partitions.now) }
    {
        let dropped = shelves::remove_rows(&mut self.shelves, group, partitions);
        self.len -= dropped;
    }

    /// Returns the number of offsets, in constant time.
    pub fn len(&self) -> u64
        ensures { result ≡ finmap.len self.now }
    {
        self.len
    }
}
