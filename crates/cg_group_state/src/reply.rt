//! The replies to requests.
use crate::boxed::Boxed;
use crate::group::Phase;
use cg_fold::StoredOffset;
use cg_names::{ClientId, Code, Generation, GroupId, InstanceId, MemberId, ProtocolName};
use cg_record::{Assignment, Subscription, TopicPartition};
use cg_request::Listed;

/// A member in the JOIN reply of the leader.
#[derive(Debug, Drop)]
pub struct JoinedMember {
    pub id: MemberId,
    pub instance: Option<InstanceId>,
    /// Subscription of the member for the chosen protocol.
    pub subscription: Subscription,
}

/// The reply to a JOIN (JoinGroup response).
#[derive(Debug, Drop)]
pub struct Joined {
    pub generation: Generation,
    pub kind: Option<ProtocolName>,
    pub protocol: Option<ProtocolName>,
    pub leader: Option<MemberId>,
    /// Member id of the caller.
    pub member: MemberId,
    /// The members in joining order; empty unless the caller leads.
    pub members: Listed<JoinedMember>,
}

/// The committed offset of one partition.
#[derive(Debug, Drop)]
pub struct FetchedPartition {
    pub key: TopicPartition,
    /// `None` if the group has no committed offset for the partition.
    pub stored: Option<StoredOffset>,
}

/// A member in the description of its group.
#[derive(Debug, Drop)]
pub struct DescribedMember {
    pub id: MemberId,
    pub instance: Option<InstanceId>,
    pub client: ClientId,
    /// Empty unless the group is stable.
    pub subscription: Subscription,
    /// Empty unless the group is stable.
    pub assignment: Assignment,
}

/// The description of a loaded group (DescribeGroups response).
#[derive(Debug, Drop)]
pub struct Described {
    pub phase: Phase,
    pub generation: Generation,
    pub kind: Option<ProtocolName>,
    /// `None` unless the group is stable.
    pub protocol: Option<ProtocolName>,
    /// The members in joining order.
    pub members: Listed<DescribedMember>,
}

/// A group in a list of groups (ListGroups response).
#[derive(Debug, Drop)]
pub struct Listing {
    pub id: GroupId,
    pub kind: Option<ProtocolName>,
    pub phase: Phase,
}

/// The reply to a call.
#[derive(Debug, Drop)]
pub enum Reply {
    /// The reply to a JOIN.
    Joined(Boxed<Joined>),
    /// The reply to a SYNC: the assignment of the member.
    Synced(Assignment),
    /// The reply OK to a BEAT, a LEAVE, a COMMIT, a DELETE or a DROP.
    Done,
    /// The reply to a FETCH: the partitions in request order.
    Fetched(Listed<FetchedPartition>),
    /// The reply to a DESCRIBE; `None` for a group that is not loaded, which a client sees as Dead.
    Described(Option<Boxed<Described>>),
    /// The reply to a LIST: the loaded groups, by the bytes of their ids.
    Groups(Listed<Listing>),
    /// The refusal of any call, with its error code.
    Refused(Code),
}
