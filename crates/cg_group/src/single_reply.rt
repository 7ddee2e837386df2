//! Effects of a single reply, and the end of a JOIN or a SYNC that gets its reply at once.
ghost use Rattle.std.specs.Prelude.{◌≡◌, Some};
ghost use Rattle.cg_group_state.specs.declared.group.Group.{Group};
ghost use Rattle.cg_group.specs.Machine.{reply_alone};
ghost use Rattle.cg_group_table.specs.GroupTable.{find_group, with_group};
ghost use Rattle.cg_group_state.specs.Membership.{hearing};

use cg_group_state::{Effects, Few, Group, Reply};
use cg_group_table::{GroupChange, GroupTable};
use cg_names::{GroupId, MemberId, Moment};
use cg_request::Ticket;
use std::alloc::Global;

/// Builds effects of one reply and no command, without an allocation.
pub fn reply_alone(alloc: Global, ticket: Ticket, reply: Reply) -> Effects
    ensures { result ≡ reply_alone ticket reply }
{
    Effects {
        commands: Few::new(alloc),
        replies: Few::one(alloc, (ticket, reply)),
    }
}

/// The change that marks this member as heard.
#[derive(Drop)]
pub struct Hearing<'a> {
    pub now: Moment,
    pub id: &'a MemberId,
}

impl<'a> GroupChange for Hearing<'a> {
    ghost use Rattle.std.specs.Prelude.{◌≡◌};
    ghost use Rattle.cg_group_state.specs.Membership.{hearing};

    type Output = ();

    ghost Becomes = { λ h g after _. after ≡ hearing h.now h.id.now g };

    #[tactic(auto, unfolding(cg_group_state::specs::Membership::hearing))]
    fn change(self, group: &mut Group) {
        let _before = group.members.hear(self.id, self.now);
    }
}

/// Marks the member as heard in the group with this id, and builds the reply.
pub fn hear_in(
    now: Moment,
    held: &mut GroupTable,
    own: &GroupId,
    id: &MemberId,
    ticket: Ticket,
    reply: Reply,
) -> Effects
    ensures groups { (g : Group) → find_group own.now held.old ≡ Some g → held.new ≡ with_group (hearing now id.now g) held.old }
    ensures effects { result ≡ reply_alone ticket reply }
{
    let _heard = held.hear(own, now, Hearing { now, id });
    reply_alone(held.allocator(), ticket, reply)
}
