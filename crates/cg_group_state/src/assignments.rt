//! The assignments of the leader's SYNC, moved out of its entries: an index by member id, and from it the assignment of each
//! member. A look-up takes the same time whatever the number of entries.
ghost use Rattle.std.specs.Prelude.{◌≡◌, ◌++◌, ℕ, List, [], true, false, map, nat_eq, unwrap_or, IfOk, OnOk};
ghost use Rattle.std.specs.Cmp.Lexicographic.{pointwise};
ghost use Rattle.indexmap.specs.IndexMap.{get};
ghost use Rattle.cg_request.specs.Names.{are_distinct, is_same};
ghost use Rattle.cg_group_state.specs.Assignments.{IsIndex, after_note, assignment_for};
ghost use Rattle.cg_group_state.specs.Members.{ids};

use crate::member::Member;
use crate::members::Members;
use cg_names::MemberId;
use cg_record::Assignment;
use cg_request::{SyncEntries, SyncEntry};
use indexmap::IndexMap;
use std::alloc::{AllocError, Global};

// The assignment of each member that has an entry, by member id.
type Index = IndexMap<MemberId, Assignment>;

// Moves the entry in. It overwrites another entry of the same member, so entries have to be added from the last to the first.
fn note(index: &mut Index, entry: SyncEntry) -> Result<(), AllocError>
    ensures { OnOk result ((id : List ℕ) → get (pointwise nat_eq) index.new id ≡ after_note entry id (get (pointwise nat_eq) index.old id)) }
{
    let SyncEntry { member, assignment } = entry;
    index.insert(member, assignment)?;
    Ok(())
}

// Moves the entries into an index; of two for one member the first counts.
fn indexed(alloc: Global, entries: SyncEntries) -> Result<Index, AllocError>
    ensures { IfOk result (λ index. IsIndex entries index) }
{
    let mut rest = entries.into_vec();
    let mut index = IndexMap::with_capacity(alloc, rest.len())?;
    while let Some(entry) = rest.pop() {
        note(&mut index, entry)?;
    }
    Ok(index)
}

// Moves the member's assignment out of the index; it is empty if the index has none.
fn take_out(alloc: Global, index: &mut Index, id: &MemberId) -> Assignment
    ensures value { result ≡ unwrap_or (get (pointwise nat_eq) index.old id.now) [] }
    ensures others { (other : List ℕ) → is_same id.now other ≡ false → get (pointwise nat_eq) index.new other ≡ get (pointwise nat_eq) index.old other }
{
    match index.swap_remove(id) {
        None => Assignment::empty(alloc),
        Some(assignment) => assignment,
    }
}

// Appends the assignment of each of the members, moved out of the index.
fn take_all(
    alloc: Global,
    index: &mut Index,
    members: &[Member],
    taken: &mut Vec<Assignment>,
) -> Result<(), AllocError>
    requires { are_distinct (ids members.now) ≡ true }
    ensures { OnOk result (taken.new.items ≡ taken.old.items ++ map (λ m. unwrap_or (get (pointwise nat_eq) index.old m.id) []) members.now) }
{
    match members {
        [] => Ok(()),
        [first, others @ ..] => {
            taken.push(take_out(alloc, index, &first.id))?;
            take_all(alloc, index, others, taken)?;
            Ok(())
        }
    }
}

/// Returns the assignment of each member, in joining order: that of its first entry, moved out of the entries, or no bytes. The
/// entries of others are dropped. The cost is linear.
#[tactic(auto, unfolding(crate::specs::Assignments::assignment_for))]
pub fn handed_out(
    alloc: Global,
    entries: SyncEntries,
    members: &Members,
) -> Result<Vec<Assignment>, AllocError>
    ensures { IfOk result (λ list. list.items ≡ map (λ m. assignment_for entries m.id) members.now) }
{
    let mut index = indexed(alloc, entries)?;
    let members = members.as_slice();
    let mut list = Vec::with_capacity(alloc, members.len())?;
    take_all(alloc, &mut index, members, &mut list)?;
    Ok(list)
}
