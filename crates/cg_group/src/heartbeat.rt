//! BEAT (Heartbeat request): in place.
ghost use Rattle.std.specs.Prelude.{◌≡◌, ℕ, Some, Err, MatchResult};
ghost use Rattle.cg_group.specs.InPlace.{IsBeatIn};
ghost use Rattle.cg_group.specs.Machine.{reply_alone, concluded, beat};
ghost use Rattle.cg_group_table.specs.GroupTable.{at_moment, outcome};
ghost use Rattle.cg_group_table.specs.SessionIndex.{StayParked};
ghost use Rattle.cg_group_state.specs.declared.group.Group.{Group};

use crate::single_reply::reply_alone;
use cg_group_rules::beat_in;
use cg_group_state::{Effects, Group, Reply};
use cg_group_table::{GroupChange, GroupTable};
use cg_names::{Code, MemberId, Moment};
use cg_request::{BeatRequest, Ticket};

/// A BEAT, as a change of its group.
#[derive(Drop)]
struct Beat<'a> {
    now: Moment,
    request: &'a BeatRequest,
}

impl<'a> GroupChange for Beat<'a> {
    ghost use Rattle.std.specs.Prelude.{◌≡◌, MatchResult};
    ghost use Rattle.cg_group_state.specs.Membership.{hearing};
    ghost use Rattle.cg_group_rules.specs.Heartbeat.{IsBeat, IsBeatRefused};

    type Output = Result<(&'a MemberId, Reply), Code>;

    ghost Becomes = { λ b g after x. MatchResult x
        (λ p. IsBeat b.request.now g p.0.now p.1 × (after ≡ hearing b.now p.0.now g))
        (λ code. IsBeatRefused b.request.now g code × (after ≡ g)) };

    fn change(self, group: &mut Group) -> Result<(&'a MemberId, Reply), Code> {
        beat_in(self.now, self.request, group)
    }
}

// Processes a BEAT in the group that it names: marks the calling member as heard, and returns its id and the reply. Reports 24
// for `-`, and 25 if the group is not loaded.
fn beat_named<'a>(
    now: Moment,
    held: &mut GroupTable,
    r: &'a BeatRequest,
) -> Result<(&'a MemberId, Reply), Code>
    ensures { MatchResult result (λ p. IsBeatIn now r.now held.old held.new p.0.now p.1)
        (λ code. ((now : ℕ) (ticket : Ticket) → beat now r.now ticket held.old ≡ Err code) × (held.new ≡ held.old)) }
{
    let Some(own) = &r.group else {
        return Err(Code::InvalidGroupId);
    };
    match held.hear(own, now, Beat { now, request: r }) {
        None => Err(Code::UnknownMemberId),
        Some(beaten) => beaten,
    }
}

/// Processes a BEAT. One look-up of the group and one of the member, and a pass over the members if an instance is given. No
/// allocation.
pub fn handle_beat(now: Moment, held: &mut GroupTable, ticket: Ticket, r: &BeatRequest) -> Effects
    ensures met { concluded (at_moment now held.old) ticket (beat now r.now ticket held.old) ≡ outcome (at_moment now held.new) result }
    ensures parked { StayParked held.old held.new }
{
    match beat_named(now, held, r) {
        Err(code) => reply_alone(held.allocator(), ticket, Reply::Refused(code)),
        Ok((_, reply)) => reply_alone(held.allocator(), ticket, reply),
    }
}
