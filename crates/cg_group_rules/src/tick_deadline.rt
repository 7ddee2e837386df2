//! Which groups a tick changes, and from which moment on it may change one (KIP-62).
ghost use Rattle.std.specs.Prelude.{◌≡◌};
ghost use Rattle.cg_group_rules.specs.TickDeadline.{earliest_expiry, expiry, next_deadline, rebalance_deadline, tick_touches};

use crate::rebalance::{is_preparing, is_ready};
use crate::tick::{greatest_rebalance, is_due};
use cg_group_state::{Calls, Group, Member, Staying, is_waiting};
use cg_names::Moment;

/// Returns whether a tick changes the group. Linear in the members, no allocation.
pub fn tick_touches(now: Moment, group: &Group) -> bool
    ensures { result ≡ tick_touches now group.now }
{
    group.members.has_overdue(now) || is_ready(group) || is_due(now, group)
}

fn expiry(since: Moment, member: &Member) -> Moment
    ensures { result ≡ expiry since member.now }
{
    if is_waiting(Calls::Any, member) {
        Moment::from_millis(u64::MAX)
    } else {
        let heard = member.heard.min(since);
        heard.later_by(member.session.get())
    }
}

#[tactic(auto, unfolding(crate::specs::TickDeadline::earliest_expiry))]
fn earliest_expiry(since: Moment, members: &[Member]) -> Moment
    ensures { result ≡ earliest_expiry since members.now }
{
    let mut earliest = Moment::from_millis(u64::MAX);
    for member in members {
        earliest = earliest.min(expiry(since, member));
    }
    earliest
}

#[tactic(auto, unfolding(crate::specs::TickDeadline::rebalance_deadline), using(cg_group_state::proofs::Remaining::all_stay))]
fn rebalance_deadline(group: &Group) -> Moment
    ensures { result ≡ rebalance_deadline group.now }
{
    if is_preparing(group.phase) {
        let greatest = greatest_rebalance(&Staying::All, group.members.as_slice());
        group.started.later_by(greatest)
    } else {
        Moment::from_millis(u64::MAX)
    }
}

/// Returns a moment before which no tick changes the group, even if its members are heard again at `since` or later.
/// Linear in the members, no allocation.
#[tactic(auto, unfolding(crate::specs::TickDeadline::next_deadline))]
pub fn next_deadline(since: Moment, group: &Group) -> Moment
    ensures { result ≡ next_deadline since group.now }
{
    if is_ready(group) {
        return Moment::from_millis(0);
    }
    let expiry = earliest_expiry(since, group.members.as_slice());
    expiry.min(rebalance_deadline(group))
}
