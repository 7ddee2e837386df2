//! The request enum: what a client sends, before it has a ticket.
ghost use Rattle.std.specs.Prelude.{◌≡◌};
ghost use Rattle.cg_request.specs.Request.{asked};

use crate::event::Event;
use crate::request_fields::{
    BeatRequest, CommitRequest, DropRequest, FetchRequest, JoinRequest, LeaveRequest, SyncRequest,
};
use crate::ticket::Ticket;
use cg_names::GroupId;
use uuid::Uuid;

/// A request of a client: an event of the group machine without its ticket.
#[derive(Debug, Drop)]
pub enum Request {
    Join(JoinRequest),
    Sync(SyncRequest),
    Beat(BeatRequest),
    Leave(LeaveRequest),
    Commit(CommitRequest),
    Fetch(FetchRequest),
    /// DELETE (DeleteGroups request) of one group.
    Delete(Option<GroupId>),
    /// DROP (OffsetDelete request, KIP-496) of partitions of one group.
    Drop(DropRequest),
    /// DESCRIBE (DescribeGroups request) of one group.
    Describe(Option<GroupId>),
    /// LIST (ListGroups request).
    List,
}

impl Request {
    /// Returns the event of this request under the ticket. A JOIN keeps the UUID, from which a member id may be drawn.
    /// Moves the request and does not allocate.
    pub fn into_event(self, ticket: Ticket, fresh: Uuid) -> Event
        ensures { result ≡ asked self ticket fresh }
    {
        match self {
            Request::Join(request) => Event::Join(ticket, request, fresh),
            Request::Sync(request) => Event::Sync(ticket, request),
            Request::Beat(request) => Event::Beat(ticket, request),
            Request::Leave(request) => Event::Leave(ticket, request),
            Request::Commit(request) => Event::Commit(ticket, request),
            Request::Fetch(request) => Event::Fetch(ticket, request),
            Request::Delete(group) => Event::Delete(ticket, group),
            Request::Drop(request) => Event::Drop(ticket, request),
            Request::Describe(group) => Event::Describe(ticket, group),
            Request::List => Event::List(ticket),
        }
    }
}
