//! Selections of parked calls.
ghost use Rattle.std.specs.Prelude.{◌≡◌};
ghost use Rattle.cg_group_state.specs.Waiting.{on_session, called, is_waiting};

use crate::member::{Member, Waits};
use cg_request::Ticket;

/// A selection of parked calls.
#[derive(Clone, Copy)]
pub enum Calls {
    /// Every parked JOIN.
    Joins,
    /// Every parked SYNC.
    Syncs,
    /// Every parked call.
    Any,
    /// Every parked call of this session.
    OfSession(u64),
}

fn on_session(session: u64, ticket: Ticket) -> Option<Ticket>
    ensures { result ≡ on_session session ticket }
{
    if ticket.session == session {
        Some(ticket)
    } else {
        None
    }
}

impl Calls {
    /// Returns the parked call if it is one of these.
    pub fn called(self, waits: Waits) -> Option<Ticket>
        ensures { result ≡ called self waits }
    {
        match (self, waits) {
            (Calls::Joins, Waits::Join(t)) => Some(t),
            (Calls::Syncs, Waits::Sync(t)) => Some(t),
            (Calls::Any, Waits::Join(t)) => Some(t),
            (Calls::Any, Waits::Sync(t)) => Some(t),
            (Calls::OfSession(s), Waits::Join(t)) => on_session(s, t),
            (Calls::OfSession(s), Waits::Sync(t)) => on_session(s, t),
            _ => None,
        }
    }
}

/// Returns whether the member has a parked call that is one of these.
pub fn is_waiting(which: Calls, member: &Member) -> bool
    ensures { result ≡ is_waiting which member.now }
{
    which.called(member.waits).is_some()
}
