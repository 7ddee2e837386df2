//! The groups of two maps.
ghost use Rattle.std.specs.Prelude.{◌≡◌, [], IsTrue, IfOk, MatchOption, drop};
ghost use Rattle.std.specs.FinMap.{is_sorted};
ghost use Rattle.std.specs.Option.{option_copied};
ghost use Rattle.cg_fold.specs.Key.{name_cmp};
ghost use Rattle.cg_fold.specs.Grouped.{first_group};
ghost use Rattle.cg_fold.specs.Snapshot.{ComesFirst, groups_of_either};

use crate::grouped::ByGroup;
use cg_names::GroupId;
use std::alloc::{AllocError, Global};
use std::cmp::Ordering;
use std::collections::btree_map::Iter;
use std::marker::Model;

/// Entries of a map that were not read yet, the first of them looked up. Contracts see them in order.
#[derive(Drop)]
struct Unread<'a, T> {
    first: Option<(&'a GroupId, &'a T)>,
    others: Iter<'a, GroupId, T>,
}

impl<'a, T> Model for Unread<'a, T> {
    ghost use Rattle.std.specs.Prelude.{◌≡◌, ◌++◌, [], ℕ, List, IfNone};
    ghost use Rattle.std.specs.Map.Iter.{deref_pair};
    ghost use Rattle.std.specs.Option.{option_map, option_to_list};

    ghost Value = { List (List ℕ × T) };

    ghost view = { λ u. option_to_list (option_map deref_pair u.first) ++ u.others };

    ghost invariant = { λ u. IfNone u.first (u.others ≡ []) };
}

impl<'a, T> Unread<'a, T> {
    fn new(kept: &'a ByGroup<T>) -> Self
        ensures { result ≡ kept.now.entries }
    {
        let mut others = kept.iter();
        let first = others.next();
        Unread { first, others }
    }

    // Returns the group of the first entry, if there is one.
    fn group(&self) -> Option<&'a GroupId>
        ensures { option_copied result ≡ first_group self.now }
    {
        match self.first {
            Some((group, _)) => Some(group),
            None => None,
        }
    }

    // Passes over the first entry.
    fn skip(&mut self)
        ensures { self.new ≡ drop 1 self.old }
    {
        self.first = self.others.next();
    }
}

// Passes over the first group of two maps, and returns it.
fn next_group<'a, T, U>(left: &mut Unread<'a, T>, right: &mut Unread<'a, U>) -> Option<&'a GroupId>
    requires left_sorted { IsTrue (is_sorted name_cmp left.old) }
    requires right_sorted { IsTrue (is_sorted name_cmp right.old) }
    ensures { MatchOption result
        (groups_of_either left.old right.old ≡ [])
        (λ group. ComesFirst left.old right.old group.now left.new right.new) }
{
    match (left.group(), right.group()) {
        (None, None) => None,
        (Some(kept), None) => {
            left.skip();
            Some(kept)
        }
        (None, Some(also)) => {
            right.skip();
            Some(also)
        }
        (Some(kept), Some(also)) => match kept.cmp(also) {
            Ordering::Less => {
                left.skip();
                Some(kept)
            }
            Ordering::Equal => {
                left.skip();
                right.skip();
                Some(kept)
            }
            Ordering::Greater => {
                right.skip();
                Some(also)
            }
        },
    }
}

/// Returns the ids of the groups in either map, each once, in order. Linear in both maps.
pub fn ids_of_either<'a, T, U>(
    alloc: Global,
    left: &'a ByGroup<T>,
    right: &'a ByGroup<U>,
) -> Result<Vec<GroupId>, AllocError>
    requires left_sorted { IsTrue (is_sorted name_cmp left.now.entries) }
    requires right_sorted { IsTrue (is_sorted name_cmp right.now.entries) }
    ensures { IfOk result (λ ids. ids.items ≡ groups_of_either left.now.entries right.now.entries) }
{
    let mut ids = Vec::new(alloc);
    let mut more_left = Unread::new(left);
    let mut more_right = Unread::new(right);
    while let Some(id) = next_group(&mut more_left, &mut more_right) {
        ids.push(id.clone()?)?;
    }
    Ok(ids)
}
