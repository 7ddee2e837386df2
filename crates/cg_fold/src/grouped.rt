//! Maps of values by group id. A look-up takes time logarithmic in the groups, and no allocation.
ghost use Rattle.std.specs.Prelude.{◌≡◌, IsTrue, filter, OnErr, OnOk};
ghost use Rattle.std.specs.FinMap.{find, is_sorted, put};
ghost use Rattle.std.specs.Option.{option_copied};
ghost use Rattle.cg_fold.specs.Key.{name_cmp};
ghost use Rattle.cg_fold.specs.Grouped.{is_another};

use cg_names::GroupId;
use std::alloc::AllocError;
use std::collections::BTreeMap;

/// Values by group id.
pub type ByGroup<T> = BTreeMap<GroupId, T>;

/// Inserts or replaces the value of a group. Allocates only if the group has none, and if that fails, nothing changes.
pub fn put<T: Drop>(kept: &mut ByGroup<T>, group: GroupId, value: T) -> Result<(), AllocError>
    requires { IsTrue (is_sorted name_cmp kept.old.entries) }
    ensures ok { OnOk result (kept.new.entries ≡ put name_cmp group value kept.old.entries) }
    ensures err { OnErr result (kept.new.entries ≡ kept.old.entries) }
{
    kept.insert(group, value)?;
    Ok(())
}

/// Removes the value of a group and returns it, if the group has one.
pub fn take_away<T>(kept: &mut ByGroup<T>, group: &GroupId) -> Option<T>
    requires { IsTrue (is_sorted name_cmp kept.old.entries) }
    ensures entries { kept.new.entries ≡ filter (λ held. is_another group.now held.0) kept.old.entries }
    ensures value { result ≡ find name_cmp group.now kept.old.entries }
{
    kept.remove(group)
}

/// Returns the value of a group, if it has one.
pub fn held_at<'a, T>(kept: &'a ByGroup<T>, group: &GroupId) -> Option<&'a T>
    ensures { option_copied result ≡ find name_cmp group.now kept.now.entries }
{
    kept.get(group)
}
