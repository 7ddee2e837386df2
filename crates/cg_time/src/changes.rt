//! Changes of one key in a tree.
ghost use Rattle.std.specs.Prelude.{◌≡◌, [], ◌∷◌, ◌++◌, MatchOption, if◌then◌else◌};
ghost use Rattle.std.specs.BTreeMap.{insert_entry};
ghost use Rattle.std.specs.Map.{remove_entry};
ghost use Rattle.std.specs.Ordering.{eq_by_cmp};
ghost use Rattle.cg_time.specs.Entries.{IsAscending, has_key};

use crate::tree::{Slot, Tree};
use cg_names::Moment;
use std::cmp::Ordering;

impl<K: Ord + Drop> Tree<K> {
    /// Sets the moment of a key that has an entry. Returns whether it has one.
    pub fn reschedule(self, key: &K, moment: Moment) -> (Tree<K>, bool)
        ensures found { result.1 ≡ has_key K.cmp key.now self }
        ensures entries { result.0 ≡ (if result.1 then insert_entry K.cmp self key.now moment else self) }
    {
        let Some((slot, branch)) = self.open() else {
            return (Tree::new(), false);
        };
        match key.cmp(&branch.entry.0) {
            Ordering::Less => {
                let (left, found) = branch.left.reschedule(key, moment);
                (Tree::fork(slot, left, branch.entry, branch.right), found)
            }
            Ordering::Equal => {
                let entry = (branch.entry.0, moment);
                (Tree::fork(slot, branch.left, entry, branch.right), true)
            }
            Ordering::Greater => {
                let (right, found) = branch.right.reschedule(key, moment);
                (Tree::fork(slot, branch.left, branch.entry, right), found)
            }
        }
    }

    /// Sets the moment of a key. `slot` is the box of the entry, if the key has none.
    pub fn insert(self, slot: Slot<K>, key: K, moment: Moment) -> Tree<K>
        ensures { result ≡ insert_entry K.cmp self key moment }
    {
        let Some((top_slot, top)) = self.open() else {
            return Tree::fork(slot, Tree::new(), (key, moment), Tree::new());
        };
        match key.cmp(&top.entry.0) {
            Ordering::Less => {
                let left = top.left.insert(slot, key, moment);
                Tree::join(top_slot, left, top.entry, top.right)
            }
            Ordering::Equal => {
                let entry = (top.entry.0, moment);
                Tree::fork(top_slot, top.left, entry, top.right)
            }
            Ordering::Greater => {
                let right = top.right.insert(slot, key, moment);
                Tree::join(top_slot, top.left, top.entry, right)
            }
        }
    }

    // Removes the entry with the least key. Returns it and the rest.
    fn take_first(self) -> Option<((K, Moment), Tree<K>)>
        ensures { MatchOption result (self ≡ []) (λ taken. self ≡ taken.0 ∷ taken.1) }
    {
        let (slot, branch) = self.open()?;
        match branch.left.take_first() {
            None => Some((branch.entry, branch.right)),
            Some((first, left)) => Some((
                first,
                Tree::join(slot, left, branch.entry, branch.right),
            )),
        }
    }

    // Creates a balanced tree of the entries of two trees.
    fn meet(slot: Slot<K>, left: Tree<K>, right: Tree<K>) -> Tree<K>
        requires { IsAscending K.cmp (left ++ right) }
        ensures { result ≡ left ++ right }
    {
        match right.take_first() {
            None => left,
            Some((first, rest)) => Tree::join(slot, left, first, rest),
        }
    }

    /// Removes the entry of a key, if it has one.
    pub fn remove(self, key: &K) -> Tree<K>
        ensures { result ≡ remove_entry (eq_by_cmp K.cmp key.now) self }
    {
        let Some((slot, branch)) = self.open() else {
            return Tree::new();
        };
        match key.cmp(&branch.entry.0) {
            Ordering::Less => {
                let left = branch.left.remove(key);
                Tree::join(slot, left, branch.entry, branch.right)
            }
            Ordering::Equal => Tree::meet(slot, branch.left, branch.right),
            Ordering::Greater => {
                let right = branch.right.remove(key);
                Tree::join(slot, branch.left, branch.entry, right)
            }
        }
    }
}
