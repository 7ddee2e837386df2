//! The group machine: a step from an event to replies and commands. Each file finds the group that one request names, and has
//! it changed as `cg_group_rules` says; `specs/Machine` defines the step, and `specs/Laws` what holds of all steps.
//! The types of events and replies come from the crates below and are re-exported here.
#![tactic(auto)]

mod delete_group;
mod describe;
mod dispatch;
mod drop_offsets;
mod groups;
mod heartbeat;
mod join;
mod laws;
mod leave;
mod named_group;
mod offset_commit;
mod parked_call;
mod parked_join;
mod rebalance_step;
mod single_reply;
mod sync;
mod tick;

pub use groups::Groups;
pub use laws::{
    assignments_are_earned, commits_are_lawful, events_are_requests, expiry_is_lawful,
    machine_and_commands_agree, members_stay_distinct, rounds_are_one,
};

// The types of events, replies and groups, for the callers of `step`.
pub use cg_group_rules::GROUPS_MAX;
pub use cg_group_state::{
    Boxed, Described, DescribedMember, Effects, FetchedPartition, Few, Group, Items, Joined,
    JoinedMember, Listing, Member, Members, Phase, Reply, Turn, Waits,
};
pub use cg_request::{
    BeatRequest, CommitEntry, CommitRequest, Commits, DropRequest, Event, FetchRequest,
    JoinRequest, LeaveRequest, Listed, PROTOCOLS_MAX, Protocol, Protocols, Request, SyncEntries,
    SyncEntry, SyncRequest, Ticket,
};
