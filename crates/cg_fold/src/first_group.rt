//! The first group of two maps.
ghost use Rattle.std.specs.Prelude.{◌≡◌, ◌<◌, ◌∷◌, [], IsTrue, length};
ghost use Rattle.std.specs.Option.{MatchOption, option_copied};
ghost use Rattle.std.specs.FinMap.{is_sorted};
ghost use Rattle.cg_fold.specs.Key.{name_cmp};
ghost use Rattle.cg_fold.specs.Grouped.{first_group};
ghost use Rattle.cg_fold.specs.Snapshot.{PopsFirst, first_side, groups_of_either};

use crate::grouped::ByGroup;
use cg_names::GroupId;
use std::cmp::Ordering;

/// The first group of two maps, with its value in each.
#[derive(Drop)]
pub struct FirstGroup<T, U> {
    pub group: GroupId,
    pub left: Option<T>,
    pub right: Option<U>,
}

// Returns the first group of a map, if there is one.
fn first_of<T>(kept: &ByGroup<T>) -> Option<&GroupId>
    ensures { option_copied result ≡ first_group kept.now.entries }
{
    match kept.first_key_value() {
        Some((group, _)) => Some(group),
        None => None,
    }
}

// Returns which map has the first group: `Less` for the left one, `Equal` for both, `Greater` for the right one.
fn side<T, U>(left: &ByGroup<T>, right: &ByGroup<U>) -> Option<Ordering>
    ensures { result ≡ first_side left.now.entries right.now.entries }
{
    match (first_of(left), first_of(right)) {
        (None, None) => None,
        (Some(_), None) => Some(Ordering::Less),
        (None, Some(_)) => Some(Ordering::Greater),
        (Some(kept), Some(also)) => Some(kept.cmp(also)),
    }
}

fn pop<T>(kept: &mut ByGroup<T>) -> (GroupId, T)
    requires { 0 < length kept.old.entries }
    ensures { kept.old.entries ≡ result ∷ kept.new.entries }
{
    match kept.pop_first() {
        Some(first) => first,
        None => unreachable!(),
    }
}

/// Removes the first group of two maps and returns it. Logarithmic in the groups.
pub fn pop_first<T, U: Drop>(
    left: &mut ByGroup<T>,
    right: &mut ByGroup<U>,
) -> Option<FirstGroup<T, U>>
    requires left_sorted { IsTrue (is_sorted name_cmp left.old.entries) }
    requires right_sorted { IsTrue (is_sorted name_cmp right.old.entries) }
    ensures { MatchOption result
        ((groups_of_either left.old.entries right.old.entries ≡ []) × (left.new.entries ≡ left.old.entries) × (right.new.entries ≡ right.old.entries))
        (λ first. PopsFirst left.old.entries right.old.entries first.group first.left first.right left.new.entries right.new.entries) }
{
    match side(left, right) {
        None => None,
        Some(Ordering::Less) => {
            let (group, value) = pop(left);
            Some(FirstGroup {
                group,
                left: Some(value),
                right: None,
            })
        }
        Some(Ordering::Equal) => {
            let (group, value) = pop(left);
            let (_, other) = pop(right);
            Some(FirstGroup {
                group,
                left: Some(value),
                right: Some(other),
            })
        }
        Some(Ordering::Greater) => {
            let (group, other) = pop(right);
            Some(FirstGroup {
                group,
                left: None,
                right: Some(other),
            })
        }
    }
}
