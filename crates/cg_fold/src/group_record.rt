//! The record of a group.
ghost use Rattle.std.specs.Prelude.{◌≡◌, IfOk};
ghost use Rattle.cg_fold.specs.Record.{assigned_record, emptied_record, replaced_record};

use cg_names::{MemberId, Moment, ProtocolName};
use cg_record::{Assigned, CompletedGeneration, Emptied, MemberRecord, Roster};
use std::alloc::AllocError;

/// The members in the record of a group.
#[derive(Debug, Drop)]
pub enum RecordedMembers {
    /// No members. The last one left at this moment, which may be unknown.
    Empty(Option<Moment>),
    /// The members of the last completed generation.
    Roster(Roster),
}

/// The record of a group: its last completed generation, its type, and its members.
#[derive(Debug, Drop)]
pub struct GroupRecord {
    pub generation: CompletedGeneration,
    /// Protocol type of the group.
    pub kind: ProtocolName,
    pub members: RecordedMembers,
}

impl GroupRecord {
    /// Builds the record of a group whose members have their assignments.
    pub(crate) fn assigned(assigned: &Assigned) -> Result<GroupRecord, AllocError>
        ensures { IfOk result (λ held. held ≡ assigned_record assigned.now) }
    {
        let kind = assigned.kind.clone()?;
        let roster = assigned.roster.clone()?;
        Ok(GroupRecord {
            generation: assigned.generation,
            kind,
            members: RecordedMembers::Roster(roster),
        })
    }

    /// Builds the record of a group without members.
    pub(crate) fn emptied(emptied: &Emptied) -> Result<GroupRecord, AllocError>
        ensures { IfOk result (λ held. held ≡ emptied_record emptied.now) }
    {
        let kind = emptied.kind.clone()?;
        Ok(GroupRecord {
            generation: emptied.generation,
            kind,
            members: RecordedMembers::Empty(emptied.moment),
        })
    }

    /// Replaces the member with the new one's instance (KIP-345). `id` is a copy of the new member's id. No allocation.
    pub(crate) fn replace(&mut self, new: MemberRecord, id: MemberId)
        requires { id ≡ new.id }
        ensures { self.new ≡ replaced_record new self.old }
    {
        match &mut self.members {
            RecordedMembers::Empty(_) => {}
            RecordedMembers::Roster(roster) => roster.replace(new, id),
        }
    }
}
