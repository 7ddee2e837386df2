//! The members of a group.
ghost use Rattle.std.specs.Prelude.{◌≡◌, ◌<◌, ◌≤◌, [], ◌∷◌, ◌++◌, false, Some, length, List, not, OnOk, OnErr, IfOk, filter, map, is_some, option_map};
ghost use Rattle.std.specs.Option.{option_copied};
ghost use Rattle.indexmap.specs.IndexMap.{index_map_len, spare};
ghost use Rattle.std.specs.List.{list_any, list_all};
ghost use Rattle.cg_record.specs.declared.roster.TheConstants.{MEMBERS_MAX};
ghost use Rattle.cg_group_state.specs.Members.{AreMembers};
ghost use Rattle.cg_group_state.specs.Membership.{has_id, has_instance, find_member, find_instance, with_member, heard, seating};
ghost use Rattle.cg_group_state.specs.Waiting.{after_answers, is_waiting, recalled, waits_with};
ghost use Rattle.cg_group_state.specs.JoinTerms.{updated};
ghost use Rattle.cg_group_state.specs.Assignments.{with_assignments};
ghost use Rattle.cg_group_state.specs.Staying.{is_overdue, outstays};

use crate::calls::{Calls, is_waiting};
use crate::checked_join::CheckedJoin;
use crate::member::{Member, Waits};
use crate::member_map::{
    ById, answer_in, append_one, exchange_in, exchange_terms_of, hear_one, is_overdue, keep_others,
    keep_outstaying, keep_timely, listed, recall_one, seat_in, wait_one,
};
use crate::shared_protocols::sharing;
use cg_names::{InstanceId, MemberId, Moment};
use cg_record::Assignment;
use indexmap::IndexMap;
use std::alloc::{AllocError, Global};
use std::marker::Model;
use std::mem;

/// The members of a group in joining order: at most `MEMBERS_MAX`, with different ids and different instances.
/// Contracts see the list. A look-up by id takes the same time whatever the number of members; one by instance reads each
/// member.
#[derive(Debug, Drop)]
pub struct Members {
    by_id: ById,
}

impl Model for Members {
    ghost use Rattle.std.specs.Prelude.{List, ◌≡◌};
    ghost use Rattle.indexmap.specs.IndexMap.{values};
    ghost use Rattle.cg_group_state.specs.Keyed.{AreKeyed};
    ghost use Rattle.cg_group_state.specs.Members.{AreMembers};
    ghost use Rattle.cg_group_state.specs.declared.member.Member.{Member};

    ghost Value = { List Member };

    ghost view = { λ m. values m.by_id };

    ghost invariant = { λ m. AreMembers (values m.by_id) × AreKeyed m.by_id };
}

/// A member that was replaced, with the room in which it can be put back without an allocation.
#[derive(Drop)]
pub struct Seat {
    id: MemberId,
    pub member: Member,
    /// Greatest number of members for which there is room.
    pub places: usize,
    room: ById,
    ghost own: { id ≡ member.id },
    ghost empty: { index_map_len room ≡ 0 },
    ghost enough: { places < spare room },
}

/// Returns whether an instance is given and the member has it.
pub fn has_instance(instance: &Option<InstanceId>, member: &Member) -> bool
    ensures { result ≡ has_instance instance.now member.now }
{
    match instance {
        None => false,
        Some(instance) => has_own(instance, member),
    }
}

fn has_own(instance: &InstanceId, member: &Member) -> bool
    ensures { result ≡ has_instance (Some instance.now) member.now }
{
    match &member.instance {
        None => false,
        Some(own) => *own == *instance,
    }
}

impl Members {
    /// Creates an empty list, without an allocation.
    #[tactic(auto, using(crate::proofs::Together::none_together))]
    pub fn new(alloc: Global) -> Self
        ensures { result ≡ [] }
    {
        Members {
            by_id: IndexMap::new(alloc),
        }
    }

    /// Moves the members in, each under a copy of its id.
    pub fn from_vec(alloc: Global, items: Vec<Member>) -> Result<Self, AllocError>
        requires { AreMembers items.items }
        ensures { IfOk result (λ members. members ≡ items.items) }
    {
        let mut by_id = IndexMap::with_capacity(alloc, items.len())?;
        for member in items {
            append_one(&mut by_id, member)?;
        }
        // A table is made for nine entries at least, and most groups have fewer members.
        by_id.shrink_to_fit();
        Ok(Members { by_id })
    }

    /// Returns the members in joining order.
    pub fn as_slice(&self) -> &[Member]
        ensures value { result.now ≡ self.now }
        ensures lawful { AreMembers self.now }
    {
        listed(&self.by_id)
    }

    /// Returns the number of members.
    pub fn len(&self) -> usize
        ensures { result ≡ length self.now }
    {
        self.by_id.len()
    }

    /// Returns the member with this id. Reads few ids.
    #[tactic(auto, unfolding(crate::specs::Membership::find_member))]
    pub fn find(&self, id: &MemberId) -> Option<&Member>
        ensures { option_copied result ≡ find_member id.now self.now }
    {
        self.by_id.get(id)
    }

    /// Returns the member with this instance, if an instance is given. Linear in the members.
    #[tactic(auto, unfolding(crate::specs::Membership::find_instance))]
    pub fn find_instance(&self, instance: &Option<InstanceId>) -> Option<&Member>
        ensures { option_copied result ≡ find_instance instance.now self.now }
    {
        let members = self.as_slice();
        members.iter().find(|m| has_instance(instance, m))
    }

    /// Returns the member with this instance. Linear in the members.
    #[tactic(auto, unfolding(crate::specs::Membership::find_instance))]
    pub fn with_instance(&self, instance: &InstanceId) -> Option<&Member>
        ensures { option_copied result ≡ find_instance (Some instance.now) self.now }
    {
        let members = self.as_slice();
        members.iter().find(|m| has_own(instance, m))
    }

    /// Returns whether a member has this id.
    pub fn has(&self, id: &MemberId) -> bool
        ensures { result ≡ is_some (find_member id.now self.now) }
    {
        self.by_id.contains_key(id)
    }

    /// Appends a member. If an allocation fails, the list is unchanged.
    #[tactic(auto, using(crate::proofs::Together::after_push))]
    pub fn push(&mut self, member: Member) -> Result<(), AllocError>
        requires room { length self.old < MEMBERS_MAX }
        requires own_id { is_some (find_member member.id self.old) ≡ false }
        requires own_instance { is_some (find_instance member.instance self.old) ≡ false }
        ensures ok { OnOk result (self.new ≡ self.old ++ member ∷ []) }
        ensures err { OnErr result (self.new ≡ self.old) }
    {
        let member = sharing(self.as_slice(), member);
        append_one(&mut self.by_id, member)?;
        Ok(())
    }

    /// Replaces the member that has this member's instance; the position in joining order stays (KIP-345). Returns what
    /// `put_back` needs to bring back the list as it was. If an allocation fails, the list is unchanged.
    pub fn replace(&mut self, member: Member) -> Result<Seat, AllocError>
        requires { AreMembers (seating member self.old) }
        ensures seated { OnOk result (self.new ≡ seating member self.old) }
        ensures back { IfOk result (λ seat. seating seat.member self.new ≡ self.old) }
        ensures room { IfOk result (λ seat. length self.new ≤ seat.places) }
        ensures err { OnErr result (self.new ≡ self.old) }
    {
        let places = self.len();
        let id = member.id.clone()?;
        let mut room = IndexMap::with_capacity(*self.by_id.allocator(), places + 1)?;
        self.by_id.reserve(1)?;
        let member = sharing(self.as_slice(), member);
        let (id, member) = seat_in(&mut self.by_id, &mut room, id, member);
        mem::swap(&mut self.by_id, &mut room);
        Ok(Seat {
            id,
            member,
            places,
            room,
        })
    }

    /// Puts the member of a seat into the position of the one that has its instance. No allocation.
    pub fn put_back(&mut self, seat: Seat)
        requires lawful { AreMembers (seating seat.member self.old) }
        requires room { length self.old ≤ seat.places }
        ensures { self.new ≡ seating seat.member self.old }
    {
        let Seat {
            id,
            member,
            mut room,
            ..
        } = seat;
        let _new = seat_in(&mut self.by_id, &mut room, id, member);
        self.by_id = room;
    }

    /// Sets the moment at which the member was last heard. Returns that moment as it was, or `None` if there is no such member.
    #[tactic(auto, using(crate::proofs::Together::after_hearing))]
    pub fn hear(&mut self, id: &MemberId, now: Moment) -> Option<Moment>
        ensures heard { self.new ≡ with_member id.now (heard now) self.old }
        ensures before { result ≡ option_map (λ m. m.heard) (find_member id.now self.old) }
    {
        hear_one(&mut self.by_id, id, now)
    }

    /// Parks a call of the member. If an older one was parked, the member also counts as heard, as that call gets a
    /// reply.
    #[tactic(auto, using(crate::proofs::Together::after_waiting))]
    pub fn wait(&mut self, id: &MemberId, waits: Waits, now: Moment)
        ensures { self.new ≡ with_member id.now (waits_with now waits) self.old }
    {
        wait_one(&mut self.by_id, id, waits, now);
    }

    /// Sets the moment at which the member was last heard and its parked call, as they were before `hear` and `wait`.
    #[tactic(auto, using(crate::proofs::Together::after_recalling))]
    pub fn recall(&mut self, id: &MemberId, heard: Moment, waits: Waits)
        ensures { self.new ≡ with_member id.now (recalled heard waits) self.old }
    {
        recall_one(&mut self.by_id, id, heard, waits);
    }

    /// Replaces the member's timeouts and protocols by those of the JOIN. Its client stays. Returns a JOIN that brings back what
    /// the member had.
    #[tactic(auto, using(crate::proofs::Together::after_update))]
    pub fn exchange_terms(&mut self, id: &MemberId, join: CheckedJoin) -> CheckedJoin
        ensures given { self.new ≡ with_member id.now (updated join) self.old }
        ensures back { with_member id.now (updated result) self.new ≡ self.old }
    {
        exchange_terms_of(&mut self.by_id, id, join)
    }

    /// Clears these parked calls, and marks their members as heard now.
    #[tactic(auto, unfolding(crate::specs::Waiting::after_answers), using(crate::proofs::Together::after_all_answers))]
    pub fn answer(&mut self, which: Calls, now: Moment)
        ensures { self.new ≡ after_answers which now self.old }
    {
        answer_in(&mut self.by_id, which, now);
    }

    /// Removes the member with this id.
    #[tactic(auto, using(crate::proofs::Together::after_removing))]
    pub fn remove(&mut self, id: &MemberId)
        ensures { self.new ≡ filter (λ m. not (has_id id.now m)) self.old }
    {
        keep_others(&mut self.by_id, id);
    }

    /// Returns whether the session of a member has expired.
    pub fn has_overdue(&self, now: Moment) -> bool
        ensures { result ≡ list_any (is_overdue now) self.now }
    {
        self.as_slice().iter().any(|m| is_overdue(m, now))
    }

    /// Removes the members whose session has expired.
    #[tactic(auto, using(crate::proofs::Together::after_removing))]
    pub fn remove_overdue(&mut self, now: Moment)
        ensures { self.new ≡ filter (λ m. not (is_overdue now m)) self.old }
    {
        keep_timely(&mut self.by_id, now);
    }

    /// Removes the dynamic members without a parked call, as the deadline of a rebalance does.
    #[tactic(auto, using(crate::proofs::Together::after_removing))]
    pub fn remove_idle(&mut self)
        ensures { self.new ≡ filter outstays self.old }
    {
        keep_outstaying(&mut self.by_id);
    }

    /// Returns whether every member has a parked call that is one of these.
    pub fn all_wait(&self, which: Calls) -> bool
        ensures { result ≡ list_all (is_waiting which) self.now }
    {
        self.as_slice().iter().all(|m| is_waiting(which, m))
    }

    /// Exchanges the assignment of each member with the one at its place in the list. No allocation.
    #[tactic(auto, using(crate::proofs::Together::after_exchange))]
    pub fn exchange_assignments(&mut self, assignments: &mut [Assignment])
        requires { length assignments.old ≡ length self.old }
        ensures members { self.new ≡ with_assignments assignments.old self.old }
        ensures assignments { assignments.new ≡ map (λ m. m.assignment) self.old }
    {
        exchange_in(&mut self.by_id, assignments);
    }
}
