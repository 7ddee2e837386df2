//! A group and its state.
use crate::members::Members;
use cg_names::{Generation, GroupId, MemberId, Moment, ProtocolName};

/// The state of a loaded group, named as in the protocol guide ("DescribeGroups", group states).
#[derive(Clone, Copy, Debug, PartialEq, Eq)]
pub enum Phase {
    /// The group has no members.
    Empty,
    /// A rebalance is under way, and the members send JOIN again.
    Preparing,
    /// All members have joined, and the leader's SYNC is expected.
    Completing,
    /// The members have their assignments.
    Stable,
}

/// A loaded group.
#[derive(Debug, Drop)]
pub struct Group {
    pub id: GroupId,
    pub phase: Phase,
    pub generation: Generation,
    /// Protocol type, set by the first member.
    pub kind: Option<ProtocolName>,
    /// Protocol that the members voted for, set when a rebalance completes.
    pub protocol: Option<ProtocolName>,
    pub leader: Option<MemberId>,
    pub members: Members,
    /// Start of the rebalance under way, in the phase `Preparing`; it decides the deadline.
    pub started: Moment,
    /// In a group in the phase `Empty` that has a record: the moment at which it was emptied, or `None` if that is unknown.
    pub emptied: Option<Moment>,
}
