//! A member as a command stores it.
ghost use Rattle.std.specs.Prelude.{◌≡◌, IfOk};
ghost use Rattle.cg_record.specs.Rosters.{have_one_name, has_id_of_other, is_one_instance, takes_place_of};

use crate::millis::{RebalanceTimeout, SessionTimeout};
use crate::opaque::{Assignment, Subscription};
use cg_names::{ClientId, InstanceId, MemberId};
use std::alloc::AllocError;

/// A member of a group, as a command stores it after a rebalance.
#[derive(Debug, Drop)]
pub struct MemberRecord {
    pub id: MemberId,
    /// Instance id of a static member (KIP-345); `None` for a dynamic one.
    pub instance: Option<InstanceId>,
    pub client: ClientId,
    pub session: SessionTimeout,
    pub rebalance: RebalanceTimeout,
    /// Subscription of the member for the chosen protocol.
    pub subscription: Subscription,
    pub assignment: Assignment,
}

// Returns whether both instances are given, and are equal.
fn is_one_instance(a: &Option<InstanceId>, b: &Option<InstanceId>) -> bool
    ensures { result ≡ is_one_instance a.now b.now }
{
    match (a, b) {
        (Some(a), Some(b)) => a.as_bytes() == b.as_bytes(),
        _ => false,
    }
}

fn copied_instance(instance: &Option<InstanceId>) -> Result<Option<InstanceId>, AllocError>
    ensures { IfOk result (λ copy. copy ≡ instance.now) }
{
    match instance {
        None => Ok(None),
        Some(name) => {
            let copy = name.clone()?;
            Ok(Some(copy))
        }
    }
}

impl MemberRecord {
    /// Returns whether this member replaces the other: both have the same instance (KIP-345).
    pub fn takes_place_of(&self, other: &MemberRecord) -> bool
        ensures { result ≡ takes_place_of self.now other.now }
    {
        is_one_instance(&other.instance, &self.instance)
    }

    /// Returns whether this member has the id of the other, but does not replace it.
    pub fn has_id_of_other(&self, other: &MemberRecord) -> bool
        ensures { result ≡ has_id_of_other self.now other.now }
    {
        other.id.as_bytes() == self.id.as_bytes() && !self.takes_place_of(other)
    }

    /// Returns whether both have the same id or the same instance.
    pub fn has_name_of(&self, other: &MemberRecord) -> bool
        ensures { result ≡ have_one_name self.now other.now }
    {
        self.id.as_bytes() == other.id.as_bytes()
            || is_one_instance(&self.instance, &other.instance)
    }
}

impl Clone for MemberRecord {
    ghost is_clone = { λ member copy. copy ≡ member };

    fn clone(&self) -> Result<Self, AllocError> {
        let id = self.id.clone()?;
        let instance = copied_instance(&self.instance)?;
        let client = self.client.clone()?;
        let subscription = self.subscription.clone()?;
        let assignment = self.assignment.clone()?;
        Ok(MemberRecord {
            id,
            instance,
            client,
            session: self.session,
            rebalance: self.rebalance,
            subscription,
            assignment,
        })
    }
}
