//! The entries of a trail.
ghost use Rattle.std.specs.Prelude.{◌≡◌, IfOk};
ghost use Rattle.cg_trail.specs.Entries.{event_of, recorded};

use crate::request_copies::copied_request;
use cg_group::{Event, Few, Reply, Request, Ticket};
use cg_names::Moment;
use std::alloc::{AllocError, Global};
use uuid::Uuid;

/// The replies of one event, in their order, each with the ticket of its call.
pub type Replies = Few<(Ticket, Reply)>;

/// A request, and the replies that it made.
#[derive(Debug, Drop)]
pub struct RequestEntry {
    pub ticket: Ticket,
    pub request: Request,
    pub now: Moment,
    /// UUID from which a JOIN may draw a member id.
    pub fresh: Uuid,
    pub replies: Replies,
}

/// A tick, and the replies that it made.
#[derive(Debug, Drop)]
pub struct TickEntry {
    pub now: Moment,
    pub replies: Replies,
}

/// An event that a coordinator handled, with the replies that it made.
#[derive(Debug, Drop)]
pub enum TrailEntry {
    Request(RequestEntry),
    Tick(TickEntry),
}

impl TrailEntry {
    /// Returns the recorded replies, in their order.
    pub fn replies(&self) -> &[(Ticket, Reply)]
        ensures { result.now ≡ recorded self.now }
    {
        match self {
            TrailEntry::Request(entry) => entry.replies.as_slice(),
            TrailEntry::Tick(entry) => entry.replies.as_slice(),
        }
    }

    /// Returns the moment of the event.
    pub fn now(&self) -> Moment
        ensures { result ≡ (event_of self.now).1 }
    {
        match self {
            TrailEntry::Request(entry) => entry.now,
            TrailEntry::Tick(entry) => entry.now,
        }
    }

    /// Returns the event for the machine. Copies the request.
    pub fn event(&self, alloc: Global) -> Result<Event, AllocError>
        ensures { IfOk result (λ event. event ≡ (event_of self.now).0) }
    {
        match self {
            TrailEntry::Request(entry) => {
                let request = copied_request(alloc, &entry.request)?;
                Ok(request.into_event(entry.ticket, entry.fresh))
            }
            TrailEntry::Tick(_) => Ok(Event::Tick),
        }
    }
}
