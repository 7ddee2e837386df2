//! Rotations that keep the two sides of a branch about equally high.
ghost use Rattle.std.specs.Prelude.{◌≡◌, ◌∷◌, ◌++◌};
ghost use Rattle.cg_time.specs.Entries.{IsAscending};
ghost use Rattle.cg_time.specs.Tree.{branch_entries};

use crate::tree::{Branch, Slot, Tree};
use cg_names::Moment;

impl<K: Ord + Drop> Tree<K> {
    /// Creates a balanced tree of an entry between two trees whose heights differ by two at most.
    pub fn join(slot: Slot<K>, left: Tree<K>, entry: (K, Moment), right: Tree<K>) -> Tree<K>
        requires { IsAscending K.cmp (left ++ entry ∷ right) }
        ensures { result ≡ left ++ entry ∷ right }
    {
        let left_height = left.height();
        let right_height = right.height();
        if left_height > right_height.saturating_add(1) {
            Tree::lean_right(slot, left, entry, right)
        } else if right_height > left_height.saturating_add(1) {
            Tree::lean_left(slot, left, entry, right)
        } else {
            Tree::fork(slot, left, entry, right)
        }
    }

    // Joins where the left side is too high: its root becomes the root, or the root of its right side does.
    fn lean_right(slot: Slot<K>, left: Tree<K>, entry: (K, Moment), right: Tree<K>) -> Tree<K>
        requires { IsAscending K.cmp (left ++ entry ∷ right) }
        ensures { result ≡ left ++ entry ∷ right }
    {
        match left.open() {
            None => Tree::fork(slot, Tree::new(), entry, right),
            Some((top_slot, top)) => {
                if top.left.height() >= top.right.height() {
                    let below = Tree::fork(slot, top.right, entry, right);
                    Tree::fork(top_slot, top.left, top.entry, below)
                } else {
                    Tree::lean_right_twice(slot, top_slot, top, entry, right)
                }
            }
        }
    }

    // The root of the right side of `top` becomes the root.
    fn lean_right_twice(
        slot: Slot<K>,
        top_slot: Slot<K>,
        top: Branch<K>,
        entry: (K, Moment),
        right: Tree<K>,
    ) -> Tree<K>
        requires { IsAscending K.cmp (branch_entries top ++ entry ∷ right) }
        ensures { result ≡ branch_entries top ++ entry ∷ right }
    {
        match top.right.open() {
            None => {
                let left = Tree::fork(top_slot, top.left, top.entry, Tree::new());
                Tree::fork(slot, left, entry, right)
            }
            Some((middle_slot, middle)) => {
                let left = Tree::fork(top_slot, top.left, top.entry, middle.left);
                let right = Tree::fork(slot, middle.right, entry, right);
                Tree::fork(middle_slot, left, middle.entry, right)
            }
        }
    }

    // Joins where the right side is too high: its root becomes the root, or the root of its left side does.
    fn lean_left(slot: Slot<K>, left: Tree<K>, entry: (K, Moment), right: Tree<K>) -> Tree<K>
        requires { IsAscending K.cmp (left ++ entry ∷ right) }
        ensures { result ≡ left ++ entry ∷ right }
    {
        match right.open() {
            None => Tree::fork(slot, left, entry, Tree::new()),
            Some((top_slot, top)) => {
                if top.right.height() >= top.left.height() {
                    let below = Tree::fork(slot, left, entry, top.left);
                    Tree::fork(top_slot, below, top.entry, top.right)
                } else {
                    Tree::lean_left_twice(slot, left, entry, top_slot, top)
                }
            }
        }
    }

    // The root of the left side of `top` becomes the root.
    fn lean_left_twice(
        slot: Slot<K>,
        left: Tree<K>,
        entry: (K, Moment),
        top_slot: Slot<K>,
        top: Branch<K>,
    ) -> Tree<K>
        requires { IsAscending K.cmp (left ++ entry ∷ branch_entries top) }
        ensures { result ≡ left ++ entry ∷ branch_entries top }
    {
        match top.left.open() {
            None => {
                let right = Tree::fork(top_slot, Tree::new(), top.entry, top.right);
                Tree::fork(slot, left, entry, right)
            }
            Some((middle_slot, middle)) => {
                let left = Tree::fork(slot, left, entry, middle.left);
                let right = Tree::fork(top_slot, middle.right, top.entry, top.right);
                Tree::fork(middle_slot, left, middle.entry, right)
            }
        }
    }
}
