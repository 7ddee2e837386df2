//! One assignment protocol of a member's list.
use cg_names::ProtocolName;
use cg_record::Subscription;

/// Maximum number of protocols in a JOIN.
pub const PROTOCOLS_MAX: usize = 4;

/// An assignment protocol that a member supports, with its subscription in that protocol's own encoding.
#[derive(Debug, Drop, PartialEq, Eq)]
pub struct Protocol {
    pub name: ProtocolName,
    pub subscription: Subscription,
}
