//! The records of groups, by group id.
ghost use Rattle.std.specs.Prelude.{◌≡◌, IsTrue};
ghost use Rattle.std.specs.FinMap.{is_sorted};
ghost use Rattle.cg_fold.specs.Key.{name_cmp};
ghost use Rattle.cg_fold.specs.Record.{replaced_among};

use crate::group_record::GroupRecord;
use crate::grouped::ByGroup;
use cg_names::{GroupId, MemberId};
use cg_record::MemberRecord;

/// The record of each group that has one.
pub type Records = ByGroup<GroupRecord>;

/// Replaces a member in the record of a group, if it has one. `id` is a copy of the new member's id. Costs one look-up, no
/// allocation.
pub fn replace_in(records: &mut Records, group: &GroupId, new: MemberRecord, id: MemberId)
    requires sorted { IsTrue (is_sorted name_cmp records.old.entries) }
    requires named { id ≡ new.id }
    ensures records { records.new.entries ≡ replaced_among group.now new records.old.entries }
    ensures sorted { IsTrue (is_sorted name_cmp records.new.entries) }
{
    if let Some(record) = records.get_mut(group) {
        record.replace(new, id);
    }
}
