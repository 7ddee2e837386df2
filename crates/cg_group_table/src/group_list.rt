//! The list of groups, as LIST (ListGroups request) returns it.
ghost use Rattle.std.specs.Prelude.{◌≡◌, ◌≤◌, IfOk, OnErr, length, map};
ghost use Rattle.cg_group_table.specs.Describe.{listing};

use crate::group_table::GroupTable;
use cg_group_state::{Group, Listing, copied_name};
use cg_request::Listed;
use std::alloc::{AllocError, Global};

fn listing(group: &Group) -> Result<Listing, AllocError>
    ensures { IfOk result (λ l. l ≡ listing group.now) }
{
    let id = group.id.clone()?;
    let kind = copied_name(&group.kind)?;
    Ok(Listing {
        id,
        kind,
        phase: group.phase,
    })
}

/// Returns the list of all loaded groups, by the bytes of their ids. Linear in the groups. Allocates only if there is one.
pub fn listings(alloc: Global, groups: &GroupTable) -> Result<Listed<Listing>, AllocError>
    ensures ok { IfOk result (λ ls. ls ≡ map listing groups.now) }
    ensures err { OnErr result (1 ≤ length groups.now) }
{
    let mut list = Listed::new(alloc);
    for group in groups.iter() {
        list.push(listing(group)?)?;
    }
    Ok(list)
}
