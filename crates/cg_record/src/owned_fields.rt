//! Owned copies of decoded fields.

ghost use Rattle.std.specs.Prelude.{◌≡◌, IfOk, IfSome};
ghost use Rattle.std.specs.Option.{option_copied};
ghost use Rattle.cg_names.specs.Grammar.{IsName};
ghost use Rattle.cg_record.specs.Members.{IsProfile, member_of};

use crate::member_record::MemberRecord;
use crate::millis::{RebalanceTimeout, SessionTimeout};
use crate::opaque::Opaque;
use crate::profile::Fields;
use cg_names::{ClientId, InstanceId, MEMBER_ID_BYTES_MAX, NAME_BYTES_MAX, Name};
use std::alloc::{AllocError, Global};

fn instance_of(alloc: Global, instance: Option<&[u8]>) -> Result<Option<InstanceId>, AllocError>
    requires { IfSome (option_copied instance) (IsName NAME_BYTES_MAX) }
    ensures { IfOk result (λ copy. copy ≡ option_copied instance.entry) }
{
    match instance {
        None => Ok(None),
        Some(name) => {
            let copy = Name::from_lawful(alloc, name)?;
            Ok(Some(copy))
        }
    }
}

/// Builds a member from its decoded fields.
pub fn member_of(
    alloc: Global,
    id: &[u8],
    instance: Option<&[u8]>,
    fields: Fields<'_>,
) -> Result<MemberRecord, AllocError>
    requires id { IsName MEMBER_ID_BYTES_MAX id.now }
    requires instance { IfSome (option_copied instance) (IsName NAME_BYTES_MAX) }
    requires profile { IsProfile (record { client = fields.client.now; session = fields.session; rebalance = fields.rebalance; subscription = fields.subscription.now; assignment = fields.assignment.now }) }
    ensures { IfOk result (λ m. m ≡ member_of id.now (option_copied instance.entry) (record { client = fields.entry.client.now; session = fields.entry.session; rebalance = fields.entry.rebalance; subscription = fields.entry.subscription.now; assignment = fields.entry.assignment.now })) }
{
    let session = SessionTimeout::new(fields.session).unwrap();
    let rebalance = RebalanceTimeout::new(fields.rebalance).unwrap();
    let id = Name::from_lawful(alloc, id)?;
    let instance = instance_of(alloc, instance)?;
    let client = ClientId::from_lawful(alloc, fields.client)?;
    let subscription = Opaque::from_bytes(alloc, fields.subscription)?;
    let assignment = Opaque::from_bytes(alloc, fields.assignment)?;
    Ok(MemberRecord {
        id,
        instance,
        client,
        session,
        rebalance,
        subscription,
        assignment,
    })
}
