//! The durable state.
ghost use Rattle.std.specs.Prelude.{◌≡◌, ◌++◌, true, IfOk, IsOk, OnOk, OnErr};
ghost use Rattle.std.specs.Option.{option_copied};
ghost use Rattle.std.specs.FinMap as finmap;
ghost use Rattle.cg_record.specs.declared.committed.Committed.{Committed};
ghost use Rattle.cg_fold.specs.Key.{key_of};
ghost use Rattle.cg_fold.specs.Durable.{Renews, counts_of, effect, empty, takes_away, with_record, without_offsets};
ghost use Rattle.cg_fold.specs.Snapshot.{Ascending, AreListed, group_commands, groups_in, in_order, listed, snapshot_of};

use crate::group_record::GroupRecord;
use crate::offsets::Offsets;
use crate::records::{self, Records};
use crate::shelves::Shelves;
use crate::stored_offset::StoredOffset;
use crate::{either, grouped, snapshots};
use cg_names::GroupId;
use cg_record::{
    Assigned, Command, Committed, Deleted, Dropped, Emptied, Expired, Metadata, Replaced,
    TopicPartition,
};
use std::alloc::{AllocError, Global};
use std::collections::BTreeMap;
use std::marker::Model;

/// The durable state: the effect of all commands so far. Contracts see the maps of `State`.
///
/// The records are in an ordered map: a look-up, a new group and a deletion take time logarithmic in their number, and only
/// a new group allocates. The offsets are in `Offsets`.
#[derive(Drop)]
pub struct Durable {
    alloc: Global,
    records: Records,
    offsets: Offsets,
}

impl Model for Durable {
    ghost use Rattle.std.specs.Prelude.{IsTrue};
    ghost use Rattle.std.specs.FinMap.{from_sorted, is_sorted};
    ghost use Rattle.cg_fold.specs.Key.{name_cmp};
    ghost use Rattle.cg_fold.specs.Durable.{State, state_code};

    ghost Value = { State };

    ghost coded = { state_code };

    ghost view = { λ d. record { records = from_sorted d.records.entries; offsets = d.offsets } };

    ghost invariant = { λ d. IsTrue (is_sorted name_cmp d.records.entries) };
}

impl Durable {
    /// Creates the state before any command, without an allocation.
    pub fn new(alloc: Global) -> Self
        ensures { result ≡ empty }
    {
        Durable {
            alloc,
            records: BTreeMap::new(alloc),
            offsets: Offsets::new(alloc),
        }
    }

    /// Applies a command. `Deleted` costs what `Offsets::forget` costs, and a look-up of the record; `Expired` and `Dropped`
    /// cost what `Offsets::forget_partitions` costs. These three need no allocation. If an allocation fails, nothing changes.
    pub fn apply(&mut self, command: &Command) -> Result<(), AllocError>
        ensures ok { OnOk result (self.new ≡ effect self.old command.now) }
        ensures err { OnErr result (self.new ≡ self.old) }
        ensures taken { takes_away command.now ≡ true → IsOk result }
    {
        match command {
            Command::Assigned(assigned) => self.assign(assigned),
            Command::Emptied(emptied) => self.empty(emptied),
            Command::Replaced(replaced) => self.replace(replaced),
            Command::Committed(commit) => self.commit(commit),
            Command::Deleted(deleted) => {
                self.delete(deleted);
                Ok(())
            }
            Command::Expired(expired) => {
                self.expire(expired);
                Ok(())
            }
            Command::Dropped(dropped) => {
                self.drop_offsets(dropped);
                Ok(())
            }
        }
    }

    /// Applies a command that the caller gives away. The topics and metadata of a commit are moved, and the id of a group that
    /// has no offset yet, without an allocation if its partitions have an offset already; other commands are copied. If an
    /// allocation fails, nothing changes.
    pub fn apply_owned(&mut self, command: Command) -> Result<(), AllocError>
        ensures ok { OnOk result (self.new ≡ effect self.old command) }
        ensures err { OnErr result (self.new ≡ self.old) }
        ensures taken { takes_away command ≡ true → IsOk result }
        ensures known { (commit : Committed) → command ≡ Command.Committed commit → Renews self.old.offsets commit → IsOk result }
    {
        let mut room = Vec::new(self.alloc);
        self.apply_owned_in(&mut room, command)?;
        Ok(())
    }

    /// Does what `apply_owned` does, and keeps the metadata of replaced offsets in `room`, as far as that has the capacity:
    /// their memory can be used again, by `Decoder::next_in`.
    pub fn apply_owned_in(
        &mut self,
        room: &mut Vec<Metadata>,
        command: Command,
    ) -> Result<(), AllocError>
        ensures ok { OnOk result (self.new ≡ effect self.old command) }
        ensures err { OnErr result (self.new ≡ self.old) }
        ensures taken { takes_away command ≡ true → IsOk result }
        ensures known { (commit : Committed) → command ≡ Command.Committed commit → Renews self.old.offsets commit → IsOk result }
    {
        match command {
            Command::Committed(commit) => self.take_commit(room, commit),
            other => self.apply(&other),
        }
    }

    #[tactic(auto, unfolding(crate::specs::Durable::effect))]
    fn assign(&mut self, assigned: &Assigned) -> Result<(), AllocError>
        ensures ok { OnOk result (self.new ≡ effect self.old (Command.Assigned assigned.now)) }
        ensures err { OnErr result (self.new ≡ self.old) }
    {
        let group = assigned.group.clone()?;
        let record = GroupRecord::assigned(assigned)?;
        self.keep(group, record)?;
        Ok(())
    }

    #[tactic(auto, unfolding(crate::specs::Durable::effect))]
    fn empty(&mut self, emptied: &Emptied) -> Result<(), AllocError>
        ensures ok { OnOk result (self.new ≡ effect self.old (Command.Emptied emptied.now)) }
        ensures err { OnErr result (self.new ≡ self.old) }
    {
        let group = emptied.group.clone()?;
        let record = GroupRecord::emptied(emptied)?;
        self.keep(group, record)?;
        Ok(())
    }

    // Sets the record of a group.
    fn keep(&mut self, group: GroupId, held: GroupRecord) -> Result<(), AllocError>
        ensures ok { OnOk result (self.new ≡ with_record self.old group held) }
        ensures err { OnErr result (self.new ≡ self.old) }
    {
        grouped::put(&mut self.records, group, held)?;
        Ok(())
    }

    fn replace(&mut self, replaced: &Replaced) -> Result<(), AllocError>
        ensures ok { OnOk result (self.new ≡ effect self.old (Command.Replaced replaced.now)) }
        ensures err { OnErr result (self.new ≡ self.old) }
    {
        let member = replaced.member.member().clone()?;
        let id = member.id.clone()?;
        records::replace_in(&mut self.records, &replaced.group, member, id);
        Ok(())
    }

    fn delete(&mut self, deleted: &Deleted)
        ensures { self.new ≡ effect self.old (Command.Deleted deleted.now) }
    {
        let _record = grouped::take_away(&mut self.records, &deleted.group);
        self.offsets.forget(&deleted.group);
    }

    #[tactic(auto, unfolding(crate::specs::Durable::effect))]
    fn expire(&mut self, expired: &Expired)
        ensures { self.new ≡ effect self.old (Command.Expired expired.now) }
    {
        self.forget_partitions(&expired.group, expired.partitions.as_slice());
    }

    #[tactic(auto, unfolding(crate::specs::Durable::effect))]
    fn drop_offsets(&mut self, dropped: &Dropped)
        ensures { self.new ≡ effect self.old (Command.Dropped dropped.now) }
    {
        self.forget_partitions(&dropped.group, dropped.partitions.as_slice());
    }

    // Removes the offsets of these partitions of a group, and leaves its record.
    fn forget_partitions(&mut self, group: &GroupId, partitions: &[TopicPartition])
        ensures { self.new ≡ without_offsets self.old group.now partitions.now }
    {
        self.offsets.forget_partitions(group, partitions);
    }

    fn commit(&mut self, commit: &Committed) -> Result<(), AllocError>
        ensures ok { OnOk result (self.new ≡ effect self.old (Command.Committed commit.now)) }
        ensures err { OnErr result (self.new ≡ self.old) }
    {
        self.offsets.commit(commit)?;
        Ok(())
    }

    fn take_commit(&mut self, room: &mut Vec<Metadata>, commit: Committed) -> Result<(), AllocError>
        ensures ok { OnOk result (self.new ≡ effect self.old (Command.Committed commit)) }
        ensures err { OnErr result (self.new ≡ self.old) }
        ensures known { Renews self.old.offsets commit → IsOk result }
    {
        self.offsets.take_commit_in(room, commit)?;
        Ok(())
    }

    /// Returns the record of a group, if it has one. Costs one look-up, no allocation.
    pub fn group(&self, group: &GroupId) -> Option<&GroupRecord>
        ensures { option_copied result ≡ finmap.get self.now.records group.now }
    {
        grouped::held_at(&self.records, group)
    }

    /// Returns the committed offset of a partition, if there is one. Costs two look-ups, no allocation.
    pub fn offset(&self, group: &GroupId, partition: &TopicPartition) -> Option<&StoredOffset>
        ensures { option_copied result ≡ finmap.get self.now.offsets (key_of group.now partition.now) }
    {
        self.offsets.get(group, partition)
    }

    /// Returns the number of group records and the number of offsets, in constant time.
    pub fn counts(&self) -> (u64, u64)
        ensures { result ≡ counts_of self.now }
    {
        (self.records.len() as u64, self.offsets.len())
    }

    /// Returns the ids of the groups that have a record or an offset, each once, by bytes. Linear in the groups.
    pub fn group_ids(&self) -> Result<Vec<GroupId>, AllocError>
        ensures value { IfOk result (λ ids. ids.items ≡ in_order (groups_in self.now)) }
        ensures ascending { IfOk result (λ ids. Ascending ids.items) }
    {
        let ids = either::ids_of_either(self.alloc, &self.records, self.offsets.shelves())?;
        Ok(ids)
    }

    // Appends the commands that build one group.
    #[tactic(auto, unfolding(crate::specs::Snapshot::group_commands_by))]
    fn push_group(&self, commands: &mut Vec<Command>, group: &GroupId) -> Result<(), AllocError>
        ensures { OnOk result (commands.new.items ≡ commands.old.items ++ group_commands self.now group.now) }
    {
        snapshots::push_record(commands, group, self.group(group))?;
        snapshots::push_commits(self.alloc, commands, group, self.offsets.of_group(group))?;
        Ok(())
    }

    /// Returns commands that build this state from the empty one: for each group its record, then its offsets. Copies
    /// the whole state.
    pub fn snapshot(&self) -> Result<Vec<Command>, AllocError>
        ensures { IfOk result (λ commands. commands.items ≡ snapshot_of self.now) }
    {
        let ids = self.group_ids()?;
        let mut commands = Vec::new(self.alloc);
        for id in &ids {
            self.push_group(&mut commands, id)?;
        }
        Ok(commands)
    }

    /// Returns the offsets, without a copy.
    pub fn into_offsets(self) -> Offsets
        ensures { result ≡ self.offsets }
    {
        let Durable { offsets, .. } = self;
        offsets
    }

    /// Returns the records and the shelves, without a copy.
    pub(crate) fn into_maps(self) -> (Records, Shelves)
        ensures value { listed result.0.entries result.1.entries ≡ self }
        ensures are { AreListed result.0.entries result.1.entries }
    {
        let Durable {
            records,
            offsets,
            ..
        } = self;
        (records, offsets.into_shelves())
    }
}
