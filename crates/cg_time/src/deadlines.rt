//! The index of deadlines.
ghost use Rattle.std.specs.Prelude.{◌≡◌, ◌+◌, ◌<◌, ◌≤◌, [], IfOk, IsOk, IsTrue, OnErr, OnOk, length, vec_len};
ghost use Rattle.std.specs.Bool.{OnFalse, OnTrue};
ghost use Rattle.std.specs.BTreeMap.{insert_entry};
ghost use Rattle.std.specs.Map.{remove_entry};
ghost use Rattle.std.specs.Ordering.{eq_by_cmp};
ghost use Rattle.std.specs.List.Sorted.{IsStrictlySortedBy};
ghost use Rattle.cg_time.specs.Entries.{IsAscending, IsExact, due_keys, has_key};

use crate::tree::{Slot, Tree};
use cg_names::Moment;
use std::alloc::{AllocError, Global};
use std::marker::Model;
use std::mem;

/// An index of deadlines: a map from keys to moments, with room for new keys that can be reserved. Contracts see the
/// entries in ascending order of the keys, and the number of keys that there is room for.
#[derive(Drop)]
pub struct Deadlines<K: Ord> {
    alloc: Global,
    pub(crate) tree: Tree<K>,
    spare: Vec<Slot<K>>,
}

impl<K: Ord> Model for Deadlines<K> {
    ghost use Rattle.std.specs.Prelude.{length};
    ghost use Rattle.cg_time.specs.Entries.{IsAscending};
    ghost use Rattle.cg_time.specs.Schedule.{Schedule, schedule_code};

    ghost Value = { Schedule K };

    ghost coded = { schedule_code K.code };

    ghost view = { λ d. record { entries = d.tree; spare = length d.spare.items } };

    ghost invariant = { λ d. IsAscending K.cmp d.tree };
}

// Adds empty boxes until there are as many as wanted.
fn fill<K: Ord + Drop>(
    alloc: Global,
    spare: &mut Vec<Slot<K>>,
    wanted: usize,
) -> Result<(), AllocError>
    ensures kept { vec_len spare.old ≤ vec_len spare.new }
    ensures ok { OnOk result (wanted ≤ vec_len spare.new) }
    ensures err { OnErr result (vec_len spare.old < wanted) }
{
    while spare.len() < wanted {
        let slot = Box::new(alloc, None)?;
        spare.push(slot)?;
    }
    Ok(())
}

impl<K: Ord + Drop> Deadlines<K> {
    /// Creates an index without deadlines, without an allocation.
    pub fn new(alloc: Global) -> Self
        ensures entries { result.entries ≡ [] }
        ensures spare { result.spare ≡ 0 }
    {
        Deadlines {
            alloc,
            tree: Tree::new(),
            spare: Vec::new(alloc),
        }
    }

    /// Reserves room for `additional` new keys. Allocates the boxes that are missing. If an allocation fails, nothing
    /// changes.
    pub fn reserve(&mut self, additional: usize) -> Result<(), AllocError>
        ensures entries { self.new.entries ≡ self.old.entries }
        ensures kept { self.old.spare ≤ self.new.spare }
        ensures ok { OnOk result (additional ≤ self.new.spare) }
        ensures err { OnErr result (self.new ≡ self.old) }
        ensures err_without_room { OnErr result (self.old.spare < additional) }
    {
        let before = self.spare.len();
        let result = fill(self.alloc, &mut self.spare, additional);
        if result.is_err() {
            self.spare.truncate(before);
        }
        result
    }

    // Takes a box from the spare ones, or allocates one.
    fn take_slot(&mut self) -> Result<Slot<K>, AllocError>
        ensures entries { self.new.entries ≡ self.old.entries }
        ensures spare { self.old.spare ≤ self.new.spare + 1 }
        ensures err { OnErr result (self.new ≡ self.old) }
        ensures err_without_spare { OnErr result (self.old.spare ≡ 0) }
    {
        match self.spare.pop() {
            Some(slot) => Ok(slot),
            None => Ok(Box::new(self.alloc, None)?),
        }
    }

    /// Sets the deadline of a key that has one. Returns whether it has one. Logarithmic in the number of keys, no
    /// allocation.
    pub fn reschedule(&mut self, key: &K, moment: Moment) -> bool
        ensures found { result ≡ has_key K.cmp key.now self.old.entries }
        ensures moved { OnTrue result (self.new.entries ≡ insert_entry K.cmp self.old.entries key.now moment) }
        ensures missing { OnFalse result (self.new ≡ self.old) }
        ensures ascending { IsAscending K.cmp self.new.entries }
        ensures spare { self.new.spare ≡ self.old.spare }
    {
        let tree = mem::replace(&mut self.tree, Tree::new());
        let (tree, found) = tree.reschedule(key, moment);
        self.tree = tree;
        found
    }

    /// Sets the deadline of a key. Logarithmic in the number of keys. Allocates only for a new key without spare room;
    /// if that fails, nothing changes.
    pub fn set(&mut self, key: K, moment: Moment) -> Result<(), AllocError>
        ensures ok { OnOk result (self.new.entries ≡ insert_entry K.cmp self.old.entries key moment) }
        ensures err { OnErr result (self.new ≡ self.old) }
        ensures ascending { IsAscending K.cmp self.new.entries }

        // It fails only for a new key without spare room.
        ensures spare_succeeds { 0 < self.old.spare → IsOk result }
        ensures key_succeeds { IsTrue (has_key K.cmp key self.old.entries) → IsOk result }

        // A new key takes at most one of the spare rooms.
        ensures spare { self.old.spare ≤ self.new.spare + 1 }
        ensures key_takes_none { IsTrue (has_key K.cmp key self.old.entries) → self.new.spare ≡ self.old.spare }
    {
        if self.reschedule(&key, moment) {
            return Ok(());
        }
        let slot = self.take_slot()?;
        let tree = mem::replace(&mut self.tree, Tree::new());
        self.tree = tree.insert(slot, key, moment);
        Ok(())
    }

    /// Removes the deadline of a key, if it has one. Logarithmic in the number of keys, no allocation.
    pub fn clear(&mut self, key: &K)
        ensures entries { self.new.entries ≡ remove_entry (eq_by_cmp K.cmp key.now) self.old.entries }
        ensures ascending { IsAscending K.cmp self.new.entries }
        ensures spare { self.new.spare ≡ self.old.spare }
    {
        let tree = mem::replace(&mut self.tree, Tree::new());
        self.tree = tree.remove(key);
    }
}

impl<K: Ord + Clone> Deadlines<K> {
    /// Returns the keys whose deadline is at `now` or before it, in ascending order. Costs a logarithm for each of them,
    /// and constant time if there is none. Allocates only if there is one.
    pub fn due(&self, now: Moment) -> Result<Vec<K>, AllocError>
        requires { IsExact K.is_clone }
        ensures keys { IfOk result (λ keys. keys.items ≡ due_keys now self.now.entries) }
        ensures ascending { IfOk result (λ keys. IsStrictlySortedBy K.cmp keys.items) }
        ensures err { OnErr result (1 ≤ length (due_keys now self.now.entries)) }
    {
        let mut keys = Vec::new(self.alloc);
        self.tree.push_due(now, &mut keys)?;
        Ok(keys)
    }
}
