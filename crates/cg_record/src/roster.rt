//! The members of a stable group.
ghost use Rattle.std.specs.Prelude.{◌≡◌, ◌<◌, ◌↔◌, false, length, slice_set, position, if◌then◌else◌, IsTrue, IfOk, MatchOption, MatchResult};
ghost use Rattle.std.specs.List.{list_any};
ghost use Rattle.cg_record.specs.Rosters.{AreMembers, IsPlace, IsRoster, roster_of, has_id_of_other, is_led_by, may_replace, replaced_in, takes_place_of};

use crate::distinct::{Keyed, are_distinct};
use crate::member_record::MemberRecord;
use cg_names::{MemberId, ProtocolName};
use std::alloc::{AllocError, Global};
use std::marker::Model;

/// Maximum number of members of a group.
pub const MEMBERS_MAX: usize = 64;

/// The members of a completed rebalance: the chosen protocol, the leader, and the members in joining order. There are 1
/// to `MEMBERS_MAX` members, with different ids and different instances, and the leader is one of them. Contracts see
/// the parts.
#[derive(Debug, Drop)]
pub struct Roster {
    protocol: ProtocolName,
    leader: MemberId,
    members: Vec<MemberRecord>,
}

impl Model for Roster {
    ghost use Rattle.cg_record.specs.Rosters.{RosterParts, IsRoster, roster_of};

    ghost Value = { RosterParts };

    ghost view = { λ r. roster_of r.protocol r.leader r.members.items };

    ghost invariant = { λ r. IsRoster (roster_of r.protocol r.leader r.members.items) };
}

impl Keyed for MemberRecord {
    ghost use Rattle.cg_record.specs.Rosters.{have_one_name};

    ghost shares = { have_one_name };

    fn shares_key(&self, other: &Self) -> bool {
        self.has_name_of(other)
    }
}

/// Returns whether one of the members has this id. Linear in the members.
pub fn is_led_by(leader: &[u8], members: &[MemberRecord]) -> bool
    ensures { result ≡ is_led_by leader.now members.now }
{
    members.iter().any(|member| member.id.as_bytes() == leader)
}

fn are_members(members: &[MemberRecord]) -> bool
    ensures { IsTrue result ↔ AreMembers members.now }
{
    !members.is_empty() && members.len() <= MEMBERS_MAX && are_distinct(members)
}

// Returns whether a member that the new one does not replace has its id.
fn is_id_taken(new: &MemberRecord, members: &[MemberRecord]) -> bool
    ensures { result ≡ list_any (has_id_of_other new.now) members.now }
{
    members.iter().any(|other| new.has_id_of_other(other))
}

fn seat_of(new: &MemberRecord, members: &[MemberRecord]) -> Option<usize>
    ensures { result ≡ position (takes_place_of new.now) members.now }
{
    members.iter().position(|old| new.takes_place_of(old))
}

// Returns the index of the member that the new one may replace: it has the same instance, and no other has the new id.
#[tactic(auto, using(crate::proofs::Replacing::place_found, crate::proofs::Replacing::place_missed, crate::proofs::Replacing::place_refused))]
fn place_of(new: &MemberRecord, members: &[MemberRecord]) -> Option<usize>
    ensures { MatchOption result
        (may_replace new.now members.now ≡ false)
        (λ at. IsPlace new.now members.now at) }
{
    let at = seat_of(new, members)?;
    if is_id_taken(new, members) {
        None
    } else {
        Some(at)
    }
}

fn seat(members: &mut Vec<MemberRecord>, at: usize, new: MemberRecord)
    requires { at < length members.old.items }
    ensures { members.new.items ≡ slice_set members.old.items at new }
{
    members[at] = new;
}

fn lead(leader: &mut MemberId, leads: bool, id: MemberId)
    ensures { leader.new ≡ (if leads then id else leader.old) }
{
    if leads {
        *leader = id;
    }
}

fn copied(alloc: Global, members: &[MemberRecord]) -> Result<Vec<MemberRecord>, AllocError>
    ensures { IfOk result (λ copies. copies.items ≡ members.now) }
{
    let mut copies = Vec::with_capacity(alloc, members.len())?;
    for member in members {
        copies.push(member.clone()?)?;
    }
    Ok(copies)
}

impl Roster {
    /// Builds a roster. Returns its parts unchanged if they are not lawful. Compares each member with each other one.
    pub fn new(
        protocol: ProtocolName,
        leader: MemberId,
        members: Vec<MemberRecord>,
    ) -> Result<Self, (ProtocolName, MemberId, Vec<MemberRecord>)>
        ensures cases { MatchResult result
            (λ roster. IsRoster (roster_of protocol leader members.items) × (roster ≡ roster_of protocol leader members.items))
            (λ back. (¬ IsRoster (roster_of protocol leader members.items)) × (back ≡ (protocol, leader, members))) }
    {
        if are_members(members.as_slice()) && is_led_by(leader.as_bytes(), members.as_slice()) {
            Ok(Roster {
                protocol,
                leader,
                members,
            })
        } else {
            Err((protocol, leader, members))
        }
    }

    /// Builds a roster from parts that the caller knows to be lawful, in constant time.
    pub fn from_lawful(protocol: ProtocolName, leader: MemberId, members: Vec<MemberRecord>) -> Self
        requires { IsRoster (roster_of protocol leader members.items) }
        ensures { result ≡ roster_of protocol leader members.items }
    {
        Roster {
            protocol,
            leader,
            members,
        }
    }

    /// Replaces the member with the new one's instance; the new member leads if the old one led (KIP-345). `id` is a
    /// copy of the new member's id. Nothing changes if no member has the instance, or another one has the id. No
    /// allocation.
    pub fn replace(&mut self, new: MemberRecord, id: MemberId)
        requires { id ≡ new.id }
        ensures { self.new ≡ replaced_in new self.old }
    {
        match place_of(&new, self.members.as_slice()) {
            None => {}
            Some(at) => {
                let leads = self.members[at].id.as_bytes() == self.leader.as_bytes();
                lead(&mut self.leader, leads, id);
                seat(&mut self.members, at, new);
            }
        }
    }

    /// Returns the chosen protocol.
    pub fn protocol(&self) -> &ProtocolName
        ensures { result.now ≡ self.now.protocol }
    {
        &self.protocol
    }

    /// Returns the id of the leader.
    pub fn leader(&self) -> &MemberId
        ensures { result.now ≡ self.now.leader }
    {
        &self.leader
    }

    /// Returns the members in joining order.
    pub fn members(&self) -> &[MemberRecord]
        ensures value { result.now ≡ self.now.members }
        ensures lawful { IsRoster self.now }
    {
        self.members.as_slice()
    }
}

impl Clone for Roster {
    ghost is_clone = { λ roster copy. copy ≡ roster };

    fn clone(&self) -> Result<Self, AllocError> {
        let protocol = self.protocol.clone()?;
        let leader = self.leader.clone()?;
        let members = copied(*self.members.allocator(), self.members.as_slice())?;
        Ok(Roster {
            protocol,
            leader,
            members,
        })
    }
}
