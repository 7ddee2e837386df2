//! The look-up of the group that a request names.
ghost use Rattle.std.specs.Prelude.{◌≡◌, Err, IfOk, MatchResult};
ghost use Rattle.cg_group.specs.InPlace.{IsNamed};
ghost use Rattle.cg_group.specs.Machine.{named_group};
ghost use Rattle.cg_group_table.specs.GroupTable.{InOrder};

use cg_group_state::Group;
use cg_group_table::GroupTable;
use cg_names::{Code, GroupId};

/// Returns the id in the request and the loaded group. Reports 24 for `-`, and 25 if the group is not loaded. Costs one
/// look-up.
pub fn named<'a, 'b>(
    groups: &'b GroupTable,
    id: &'a Option<GroupId>,
) -> Result<(&'a GroupId, &'b Group), Code>
    ensures named { MatchResult result (λ p. IsNamed id.now groups.now p.0.now p.1.now) (λ code. named_group id.now groups.now ≡ Err code) }
    ensures in_order { IfOk result (λ _. InOrder groups.now) }
{
    let Some(id) = id else {
        return Err(Code::InvalidGroupId);
    };
    match groups.find(id) {
        None => Err(Code::UnknownMemberId),
        Some(group) => Ok((id, group)),
    }
}
