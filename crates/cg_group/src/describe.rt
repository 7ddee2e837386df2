//! DESCRIBE (DescribeGroups request).
ghost use Rattle.std.specs.Prelude.{◌≡◌, Ok, None, true, is_ok, IfOk, OnErr};
ghost use Rattle.cg_group.specs.Machine.{describe, named_group};

use cg_group_state::{Boxed, Reply};
use cg_group_table::{GroupTable, description};
use cg_names::{Code, GroupId};
use std::alloc::{AllocError, Global};

/// Returns the reply to a DESCRIBE: the description of the group, or that it is not loaded; 24 for `-`.
#[tactic(auto, unfolding(crate::specs::Machine::describe))]
pub fn describe(
    alloc: Global,
    id: &Option<GroupId>,
    groups: &GroupTable,
) -> Result<Reply, AllocError>
    ensures ok { IfOk result (λ reply. reply ≡ describe id.now groups.now) }
    ensures loaded { OnErr result (is_ok (named_group id.now groups.now) ≡ true) }
{
    match id {
        None => Ok(Reply::Refused(Code::InvalidGroupId)),
        Some(id) => match groups.find(id) {
            None => Ok(Reply::Described(None)),
            Some(group) => {
                let description = Boxed::new(alloc, description(alloc, group)?)?;
                Ok(Reply::Described(Some(description)))
            }
        },
    }
}
