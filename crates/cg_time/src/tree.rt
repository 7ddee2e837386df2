//! A search tree by key, seen as its entries in order.
ghost use Rattle.std.specs.Prelude.{◌≡◌, ℕ, [], ◌∷◌, ◌++◌, min, MatchOption};
ghost use Rattle.cg_time.specs.Entries.{earliest_of, IsAscending};
ghost use Rattle.cg_time.specs.Tree.{IsBranchOf};

use cg_names::Moment;
use std::marker::Model;

/// The box of a branch.
pub type Slot<K> = Box<Option<Branch<K>>>;

/// A search tree: nothing, a box without a branch, or a branch in its box.
#[cycle(tree)]
#[derive(Drop)]
pub struct Tree<K: Ord> {
    root: Option<Slot<K>>,
}

/// A branch of a tree, with the earliest moment of its entries.
#[cycle(tree)]
#[derive(Drop)]
pub struct Branch<K: Ord> {
    pub left: Tree<K>,
    pub entry: (K, Moment),
    pub earliest: Moment,
    pub height: u8,
    pub right: Tree<K>,
}

impl<K: Ord> Model for Tree<K> {
    ghost use Rattle.std.specs.Prelude.{ℕ, List, length};

    ghost Value = { List (K × ℕ) };

    ghost use Rattle.cg_time.specs.Tree.{entries, IsTree};

    ghost view = { λ t. entries t.root };

    ghost invariant = { λ t. IsTree K.cmp t.root };

    ghost size = { length };

    ghost use Rattle.std.proofs.Common.{arith, length-append};

    ghost size_decreases = { λ a h. Prim.grind (arith, length-append) };
}

// Returns the earlier of two moments.
fn earlier(a: Moment, b: Moment) -> Moment
    ensures { result ≡ min a b }
{
    if a.as_millis() <= b.as_millis() { a } else { b }
}

impl<K: Ord> Tree<K> {
    /// Creates the empty tree.
    pub fn new() -> Tree<K>
        ensures { result ≡ [] }
    {
        Tree { root: None }
    }

    /// Returns the branch at the root.
    pub fn branch(&self) -> Option<&Branch<K>>
        ensures { MatchOption result (self.now ≡ []) (λ branch. IsBranchOf K.cmp self.now branch.now) }
    {
        match &self.root {
            None => None,
            Some(slot) => slot.as_ref().as_ref(),
        }
    }

    /// Returns the earliest moment of the entries, or the last moment of all.
    pub fn earliest(&self) -> Moment
        ensures { result ≡ earliest_of self.now }
    {
        match &self.root {
            None => Moment::from_millis(u64::MAX),
            Some(slot) => match slot.as_ref() {
                None => Moment::from_millis(u64::MAX),
                Some(branch) => branch.earliest,
            },
        }
    }

    /// Returns the height: the number of branches on the longest path from the root. It has no contract.
    pub fn height(&self) -> u8 {
        match self.branch() {
            None => 0,
            Some(branch) => branch.height,
        }
    }
}

impl<K: Ord + Drop> Tree<K> {
    /// Takes the tree apart into the branch at the root and its box.
    pub fn open(self) -> Option<(Slot<K>, Branch<K>)>
        ensures { MatchOption result (self ≡ []) (λ opened. IsBranchOf K.cmp self opened.1) }
    {
        match self.root {
            None => None,
            Some(mut slot) => match slot.take() {
                None => None,
                Some(branch) => Some((slot, branch)),
            },
        }
    }

    /// Creates a tree of an entry between two trees.
    pub fn fork(mut slot: Slot<K>, left: Tree<K>, entry: (K, Moment), right: Tree<K>) -> Tree<K>
        requires { IsAscending K.cmp (left ++ entry ∷ right) }
        ensures { result ≡ left ++ entry ∷ right }
    {
        let earliest = earlier(left.earliest(), earlier(entry.1, right.earliest()));
        let height = left.height().max(right.height()).saturating_add(1);
        *slot = Some(Branch {
            left,
            entry,
            earliest,
            height,
            right,
        });
        Tree { root: Some(slot) }
    }
}
