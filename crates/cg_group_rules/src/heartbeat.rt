//! BEAT (Heartbeat request).
ghost use Rattle.std.specs.Prelude.{◌≡◌, MatchResult};
ghost use Rattle.cg_group_state.specs.Membership.{hearing};
ghost use Rattle.cg_group_rules.specs.Heartbeat.{IsBeat, IsBeatRefused, beat_reply};

use cg_group_state::{Group, Phase, Reply, fenced_caller};
use cg_names::{Code, MemberId, Moment};
use cg_request::BeatRequest;

// Returns the reply to a BEAT that passes the checks: 27 while a rebalance is under way, otherwise OK.
#[tactic(auto, unfolding(crate::specs::Heartbeat::beat_reply))]
fn beat_reply(group: &Group) -> Reply
    ensures { result ≡ beat_reply group.now }
{
    match group.phase {
        Phase::Preparing => Reply::Refused(Code::RebalanceInProgress),
        _ => Reply::Done,
    }
}

/// Processes a BEAT in its group: marks the calling member as heard, and returns its id and the reply. A BEAT that is refused
/// changes nothing. One look-up of the member, and a pass over the members if an instance is given. No allocation.
#[tactic(auto, unfolding(crate::specs::Heartbeat::beat_held, crate::specs::Heartbeat::beat_reply, cg_group_state::specs::Membership::hearing))]
pub fn beat_in<'a>(
    now: Moment,
    r: &'a BeatRequest,
    group: &mut Group,
) -> Result<(&'a MemberId, Reply), Code>
    ensures { MatchResult result
        (λ p. IsBeat r.now group.old p.0.now p.1 × (group.new ≡ hearing now p.0.now group.old))
        (λ code. IsBeatRefused r.now group.old code × (group.new ≡ group.old)) }
{
    let id = fenced_caller(&r.instance, &r.member, &group.members)?;
    if i64::from(r.generation) != i64::from(group.generation.get()) {
        return Err(if group.members.has(id) {
            Code::IllegalGeneration
        } else {
            Code::UnknownMemberId
        });
    }
    if group.members.hear(id, now).is_none() {
        return Err(Code::UnknownMemberId);
    }
    Ok((id, beat_reply(group)))
}
