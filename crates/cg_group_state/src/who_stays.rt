//! Which members stay in a group, before the others are removed from it.
ghost use Rattle.std.specs.Prelude.{◌≡◌};
ghost use Rattle.cg_group_state.specs.Staying.{stays};

use crate::calls::{Calls, is_waiting};
use crate::member::Member;
use crate::member_map::{has_id, is_overdue};
use cg_names::{MemberId, Moment};

/// Which members stay in a group after an event.
#[derive(Clone, Copy)]
pub enum Staying<'a> {
    /// All of them.
    All,
    /// All but the one with this id.
    Without(&'a MemberId),
    /// Those whose session has not expired at this moment.
    Unexpired(Moment),
    /// Those whose session has not expired at this moment and that are static or have a parked call that is one of these.
    Outstaying(Moment, Calls),
}

impl Staying<'_> {
    /// Returns whether the member stays.
    pub fn keeps(&self, member: &Member) -> bool
        ensures { result ≡ stays self.now member.now }
    {
        match *self {
            Staying::All => true,
            Staying::Without(id) => !has_id(member, id),
            Staying::Unexpired(now) => !is_overdue(member, now),
            Staying::Outstaying(now, calls) => {
                !is_overdue(member, now) && (member.instance.is_some() || is_waiting(calls, member))
            }
        }
    }
}
