//! Requests of clients, the checked lists in them, and the events of the group machine. The types hold the bounds
//! whose violation makes a request malformed; the machine refuses all others with an error code.
#![tactic(auto)]

mod commit_entries;
mod commit_entry;
mod event;
mod listed;
mod protocol;
mod protocols;
mod request;
mod request_fields;
mod sync_entries;
mod ticket;

pub use commit_entries::{Commits, into_entries, is_too_large};
pub use commit_entry::CommitEntry;
pub use event::Event;
pub use listed::Listed;
pub use protocol::{PROTOCOLS_MAX, Protocol};
pub use protocols::Protocols;
pub use request::Request;
pub use request_fields::{
    BeatRequest, CommitRequest, DropRequest, FetchRequest, JoinRequest, LeaveRequest, SyncEntry,
    SyncRequest,
};
pub use sync_entries::SyncEntries;
pub use ticket::Ticket;
