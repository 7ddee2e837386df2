//! The fields of each request.
use crate::commit_entries::Commits;
use crate::protocols::Protocols;
use crate::sync_entries::SyncEntries;
use cg_names::{ClientId, GroupId, InstanceId, MemberId, ProtocolName};
use cg_record::{Assignment, Partitions, RebalanceTimeout};

/// JOIN (JoinGroup request).
#[derive(Debug, Drop)]
pub struct JoinRequest {
    pub group: Option<GroupId>,
    /// Member id of the caller; `None` for a new member.
    pub member: Option<MemberId>,
    /// Instance id of a static member (KIP-345).
    pub instance: Option<InstanceId>,
    pub client: ClientId,
    /// Session timeout in milliseconds, not yet checked against its limits (KIP-62).
    pub session_ms: u32,
    /// Rebalance timeout (KIP-62).
    pub rebalance: RebalanceTimeout,
    pub kind: ProtocolName,
    /// Protocols that the member supports, the preferred one first.
    pub protocols: Protocols,
}

/// Assignment of one member, from the leader's SYNC.
#[derive(Debug, Drop)]
pub struct SyncEntry {
    pub member: MemberId,
    pub assignment: Assignment,
}

/// SYNC (SyncGroup request).
#[derive(Debug, Drop)]
pub struct SyncRequest {
    pub group: Option<GroupId>,
    pub generation: i32,
    pub member: Option<MemberId>,
    /// Instance id of a static member (KIP-345).
    pub instance: Option<InstanceId>,
    /// Assignments of the members, from the leader; otherwise empty.
    pub entries: SyncEntries,
}

/// BEAT (Heartbeat request).
#[derive(Debug, Drop)]
pub struct BeatRequest {
    pub group: Option<GroupId>,
    pub generation: i32,
    pub member: Option<MemberId>,
    /// Instance id of a static member (KIP-345).
    pub instance: Option<InstanceId>,
}

/// LEAVE (LeaveGroup request).
#[derive(Debug, Drop)]
pub struct LeaveRequest {
    pub group: Option<GroupId>,
    pub member: Option<MemberId>,
    /// Instance id of the static member that leaves; the member id may then be left out (KIP-345).
    pub instance: Option<InstanceId>,
}

/// COMMIT (OffsetCommit request).
#[derive(Debug, Drop)]
pub struct CommitRequest {
    pub group: Option<GroupId>,
    /// Generation of the caller; negative for a non-member (a simple consumer).
    pub generation: i32,
    pub member: Option<MemberId>,
    /// Instance id of a static member (KIP-345).
    pub instance: Option<InstanceId>,
    pub entries: Commits,
}

/// FETCH (OffsetFetch request).
#[derive(Debug, Drop)]
pub struct FetchRequest {
    pub group: Option<GroupId>,
    /// Partitions whose offsets are asked for, in request order.
    pub partitions: Partitions,
}

/// DROP (OffsetDelete request, KIP-496).
#[derive(Debug, Drop)]
pub struct DropRequest {
    pub group: Option<GroupId>,
    /// Partitions whose offsets are removed, in request order.
    pub partitions: Partitions,
}
