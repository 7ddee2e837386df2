//! The fields of a member after its id and instance, decoded without a copy.

ghost use Rattle.std.specs.Prelude.{IfOk};
ghost use Rattle.cg_record.specs.Members.{IsProfile, profile_at};
ghost use Rattle.cg_record.specs.Reading.{Gives};

use crate::fault::RecordFault;
use crate::fault::RecordFault::BadLength;
use crate::fields::{four_at, name_at, text_at};
use crate::millis::{REBALANCE_MS_MAX, SESSION_MS_MAX, SESSION_MS_MIN};
use crate::opaque::{ASSIGNMENT_BYTES_MAX, SUBSCRIPTION_BYTES_MAX};
use cg_names::NAME_BYTES_MAX;

/// The fields of a member after its id and instance, borrowed from the bytes.
#[derive(Clone, Copy)]
pub struct Fields<'a> {
    pub client: &'a [u8],
    pub session: u32,
    pub rebalance: u32,
    pub subscription: &'a [u8],
    pub assignment: &'a [u8],
}

/// Decodes the fields of a member after its id and instance.
#[tactic(auto, unfolding(crate::specs::Members::profile_at))]
pub fn profile_at(bytes: &[u8]) -> Result<(Fields<'_>, &[u8]), RecordFault>
    ensures gives { Gives (λ x. (record { client = x.0.client.now; session = x.0.session; rebalance = x.0.rebalance; subscription = x.0.subscription.now; assignment = x.0.assignment.now }, x.1.now)) result (profile_at bytes.now) }
    ensures lawful { IfOk result (λ x. IsProfile (record { client = x.0.client.now; session = x.0.session; rebalance = x.0.rebalance; subscription = x.0.subscription.now; assignment = x.0.assignment.now })) }
{
    let (client, rest) = name_at::<NAME_BYTES_MAX>(bytes)?;
    let (session, rest) = four_at(rest)?;
    if !(SESSION_MS_MIN <= session && session <= SESSION_MS_MAX) {
        return Err(BadLength);
    }
    let (rebalance, rest) = four_at(rest)?;
    if rebalance > REBALANCE_MS_MAX {
        return Err(BadLength);
    }
    let (subscription, rest) = text_at(SUBSCRIPTION_BYTES_MAX, rest)?;
    let (assignment, rest) = text_at(ASSIGNMENT_BYTES_MAX, rest)?;
    let fields = Fields {
        client,
        session,
        rebalance,
        subscription,
        assignment,
    };
    Ok((fields, rest))
}
