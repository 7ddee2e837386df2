//! The command `Replaced`.
ghost use Rattle.std.specs.Prelude.{◌≡◌, IsSome, MatchResult};

use crate::member_record::MemberRecord;
use cg_names::GroupId;
use std::marker::Model;

/// A static member (KIP-345). Contracts see the member.
#[derive(Debug, Drop)]
pub struct StaticMember {
    member: MemberRecord,
}

impl Model for StaticMember {
    ghost use Rattle.std.specs.Prelude.{IsSome};
    ghost use Rattle.cg_record.specs.declared.member_record.MemberRecord.{MemberRecord};

    ghost Value = { MemberRecord };

    ghost view = { λ s. s.member };

    ghost invariant = { λ s. IsSome s.member.instance };
}

impl StaticMember {
    /// Checks that the member has an instance. Returns the member unchanged if it has none.
    pub fn new(member: MemberRecord) -> Result<Self, MemberRecord>
        ensures { MatchResult result
            (λ s. IsSome member.instance × (s ≡ member))
            (λ back. (¬ IsSome member.instance) × (back ≡ member)) }
    {
        if member.instance.is_some() {
            Ok(StaticMember { member })
        } else {
            Err(member)
        }
    }

    /// Wraps a member that the caller knows to have an instance.
    pub fn from_lawful(member: MemberRecord) -> Self
        requires { IsSome member.instance }
        ensures { result ≡ member }
    {
        StaticMember { member }
    }

    /// Returns the member, which has an instance.
    pub fn member(&self) -> &MemberRecord
        ensures value { result.now ≡ self.now }
        ensures instance { IsSome self.now.instance }
    {
        &self.member
    }
}

/// A member replaces the one with its instance (KIP-345, fencing).
#[derive(Debug, Drop)]
pub struct Replaced {
    pub group: GroupId,
    pub member: StaticMember,
}
