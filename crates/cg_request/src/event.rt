//! The events of the group machine.
use crate::request_fields::{
    BeatRequest, CommitRequest, DropRequest, FetchRequest, JoinRequest, LeaveRequest, SyncRequest,
};
use crate::ticket::Ticket;
use cg_names::GroupId;
use uuid::Uuid;

/// An input of the group machine, which takes one at a time.
#[derive(Debug, Drop)]
pub enum Event {
    /// JOIN (JoinGroup request), with the UUID from which a member id may be drawn.
    Join(Ticket, JoinRequest, Uuid),
    Sync(Ticket, SyncRequest),
    Beat(Ticket, BeatRequest),
    Leave(Ticket, LeaveRequest),
    Commit(Ticket, CommitRequest),
    /// FETCH (OffsetFetch request).
    Fetch(Ticket, FetchRequest),
    /// DELETE (DeleteGroups request).
    Delete(Ticket, Option<GroupId>),
    /// DROP (OffsetDelete request, KIP-496).
    Drop(Ticket, DropRequest),
    /// DESCRIBE (DescribeGroups request).
    Describe(Ticket, Option<GroupId>),
    /// LIST (ListGroups request).
    List(Ticket),
    /// The end of this session. Its parked calls get 15.
    Gone(u64),
    /// The passing of time, which expires sessions and ends rebalances at their deadline.
    Tick,
}
