//! A member and its parked call.
use cg_names::{ClientId, InstanceId, MemberId, Moment};
use cg_record::{Assignment, RebalanceTimeout, SessionTimeout};
use cg_request::{Protocols, Ticket};

/// The parked call of a member. A member has at most one.
#[derive(Clone, Copy, Debug)]
pub enum Waits {
    /// No parked call.
    Nothing,
    /// A JOIN that is parked until the rebalance completes.
    Join(Ticket),
    /// A SYNC that is parked until the leader's SYNC.
    Sync(Ticket),
}

/// A member of a group. What heartbeats and ticks read comes first, so that it is adjacent in memory.
#[derive(Debug, Drop)]
pub struct Member {
    pub id: MemberId,
    /// Moment at which the member was last heard.
    pub heard: Moment,
    pub waits: Waits,
    /// Session timeout: a member without a parked call expires if it is not heard for this long (KIP-62).
    pub session: SessionTimeout,
    /// Rebalance timeout: how long a rebalance waits for this member (KIP-62).
    pub rebalance: RebalanceTimeout,
    /// Instance id of a static member (KIP-345); `None` for a dynamic one.
    pub instance: Option<InstanceId>,
    pub client: ClientId,
    /// Protocols that the member supports, the preferred one first.
    pub protocols: Protocols,
    pub assignment: Assignment,
}
