//! JOIN (JoinGroup request) while a rebalance waits for others: the member is appended or updated in place, and the call parked.
//! A JOIN of a known member that changes nothing is answered at once.
ghost use Rattle.std.specs.Prelude.{◌≡◌, ℕ, Bool, List};
ghost use Rattle.cg_group.specs.InPlace.{IsCurrentJoin};
ghost use Rattle.cg_group.specs.Machine.{concluded, join};
ghost use Rattle.cg_group_table.specs.GroupTable.{at_moment, outcome};
ghost use Rattle.cg_group_table.specs.SessionIndex.{AreKnown, StayParked};
ghost use Rattle.cg_request.specs.declared.request_fields.JoinRequest.{JoinRequest};

use crate::parked_call::parking_effects;
use crate::single_reply::hear_in;
use cg_group_rules::{RequestContext, join_placed, new_member, update_member_and_rebalance};
use cg_group_state::{CheckedJoin, Effects, Group, Reply, Waits};
use cg_group_table::{GroupChange, GroupTable};
use cg_names::{GroupId, MemberId, Moment};
use cg_record::Assignment;
use cg_request::Ticket;
use std::alloc::AllocError;

/// A JOIN of a new member that is only parked, as a change of its group: the member is appended under this id.
#[derive(Drop)]
pub struct EnteringJoin {
    pub context: RequestContext,
    pub id: MemberId,
    pub request: CheckedJoin,
}

impl GroupChange for EnteringJoin {
    ghost use Rattle.std.specs.Prelude.{◌≡◌};
    ghost use Rattle.cg_group_table.specs.GroupChanges.{StepsTo};
    ghost use Rattle.cg_group_rules.specs.Rebalance.{turn_of};
    ghost use Rattle.cg_group_rules.specs.ParkedJoin.{HasPlace, entered};

    type Output = Result<Effects, AllocError>;

    ghost Suits = { λ j g. HasPlace j.id j.request.instance g.members };

    ghost Becomes = { λ j g. StepsTo (λ t. t ≡ turn_of (entered j.context.now j.request j.id j.context.ticket g)) g };

    #[tactic(auto, unfolding(cg_group_rules::specs::Join::new_member))]
    fn change(self, group: &mut Group) -> Result<Effects, AllocError> {
        let EnteringJoin {
            context,
            id,
            request,
        } = self;
        let RequestContext { alloc, now, ticket } = context;
        let (member, _kind) = new_member(
            now,
            request,
            id,
            Assignment::empty(alloc),
            Waits::Join(ticket),
        );
        group.members.push(member)?;
        Ok(Effects::new(alloc))
    }
}

/// Any other JOIN of a new member, as a change of its group.
#[derive(Drop)]
pub struct NewMemberJoin {
    pub context: RequestContext,
    pub id: MemberId,
    pub request: CheckedJoin,
}

impl GroupChange for NewMemberJoin {
    ghost use Rattle.std.specs.Prelude.{◌≡◌};
    ghost use Rattle.cg_group_table.specs.GroupChanges.{StepsTo};
    ghost use Rattle.cg_group_state.specs.Membership.{find_instance};
    ghost use Rattle.cg_group_rules.specs.JoinChecks.{join_placed};
    ghost use Rattle.cg_group_rules.specs.JoinWays.{HasRoom};

    type Output = Result<Effects, AllocError>;

    ghost Suits = { λ j g. HasRoom j.id j.request.instance g };

    ghost Becomes = { λ j g. StepsTo (λ t. t ≡ join_placed j.context.now j.request j.id j.context.ticket g (find_instance j.request.instance g.members)) g };

    fn change(self, group: &mut Group) -> Result<Effects, AllocError> {
        let NewMemberJoin {
            context,
            id,
            request,
        } = self;
        join_placed(context, request, id, group)
    }
}

/// Processes a JOIN that changes nothing, without an allocation.
pub fn rejoin_in(
    now: Moment,
    held: &mut GroupTable,
    ticket: Ticket,
    own: &GroupId,
    id: &MemberId,
    reply: Reply,
) -> Effects
    ensures met { (r : JoinRequest) (fresh : List ℕ) → IsCurrentJoin r held.old own.now id.now reply
        → concluded (at_moment now held.old) ticket (join now r fresh ticket held.old) ≡ outcome (at_moment now held.new) result }
    ensures known { (r : JoinRequest) (homes : ℕ → List ℕ → Bool) → IsCurrentJoin r held.old own.now id.now reply → AreKnown homes held.old → AreKnown homes held.new }
    ensures parked { (r : JoinRequest) → IsCurrentJoin r held.old own.now id.now reply → StayParked held.old held.new }
{
    hear_in(now, held, own, id, ticket, reply)
}

/// A JOIN that is only parked, as a change of its group: its member is updated, and the call parked in place of this older one.
#[derive(Drop)]
pub struct ParkedJoin {
    pub context: RequestContext,
    pub id: MemberId,
    pub request: CheckedJoin,
    pub older: Option<Ticket>,
}

impl GroupChange for ParkedJoin {
    ghost use Rattle.std.specs.Prelude.{◌≡◌};
    ghost use Rattle.cg_group.specs.InPlace.{IsCallOf};
    ghost use Rattle.cg_group_table.specs.GroupChanges.{StepsTo};
    ghost use Rattle.cg_group_rules.specs.Join.{updating, waiting};
    ghost use Rattle.cg_group_rules.specs.Rebalance.{turn_of};
    ghost use Rattle.cg_group_state.specs.declared.member.Waits.TheVariants.{Join};

    type Output = Result<Effects, AllocError>;

    ghost Suits = { λ p g. IsCallOf p.older p.id g };

    ghost Becomes = { λ p g. StepsTo (λ t. t ≡ waiting p.context.now p.id (Join p.context.ticket) (turn_of (updating p.request p.id g))) g };

    #[tactic(auto, unfolding(cg_group_rules::specs::Join::updating))]
    fn change(self, group: &mut Group) -> Result<Effects, AllocError> {
        let ParkedJoin {
            context,
            id,
            request,
            older,
        } = self;
        let RequestContext { alloc, now, ticket } = context;
        let _before = group.members.exchange_terms(&id, request);
        group.members.wait(&id, Waits::Join(ticket), now);
        Ok(parking_effects(alloc, older))
    }
}

/// A JOIN of a member that joins a rebalance, as a change of its group.
#[derive(Drop)]
pub struct RebalanceJoin {
    pub context: RequestContext,
    pub id: MemberId,
    pub request: CheckedJoin,
}

impl GroupChange for RebalanceJoin {
    ghost use Rattle.std.specs.Prelude.{◌≡◌};
    ghost use Rattle.cg_group_table.specs.GroupChanges.{StepsTo};
    ghost use Rattle.cg_group_rules.specs.Join.{update_member_and_rebalance};

    type Output = Result<Effects, AllocError>;

    ghost Becomes = { λ j g. StepsTo (λ t. t ≡ update_member_and_rebalance j.context.now j.request j.id j.context.ticket g) g };

    fn change(self, group: &mut Group) -> Result<Effects, AllocError> {
        let RebalanceJoin {
            context,
            id,
            request,
        } = self;
        update_member_and_rebalance(context, request, &id, group)
    }
}
