//! Fields of a group at the start of the bytes, decoded without a copy.

ghost use Rattle.std.specs.Prelude.{◌≤◌, IfOk};
ghost use Rattle.cg_record.specs.Fields.{only, is_from_to, byte_at, four_at};
ghost use Rattle.cg_record.specs.Reading.{Gives};

use crate::fault::RecordFault;
use crate::fault::RecordFault::BadLength;
use crate::fields::{byte_at, four_at};
use crate::roster::MEMBERS_MAX;
use cg_names::GENERATION_MAX;

/// Decodes the generation of a completed rebalance, from 1 to `GENERATION_MAX`.
pub fn generation_at(bytes: &[u8]) -> Result<(u32, &[u8]), RecordFault>
    ensures gives { Gives (λ x. (x.0, x.1.now)) result (only (is_from_to 1 GENERATION_MAX) RecordFault.BadLength (four_at bytes.now)) }
    ensures low { IfOk result (λ x. 1 ≤ x.0) }
    ensures high { IfOk result (λ x. x.0 ≤ GENERATION_MAX) }
{
    let (generation, rest) = four_at(bytes)?;
    if 1 <= generation && generation <= GENERATION_MAX {
        Ok((generation, rest))
    } else {
        Err(BadLength)
    }
}

/// Decodes the number of members of a group, from 1 to `MEMBERS_MAX`.
pub fn members_count_at(bytes: &[u8]) -> Result<(u8, &[u8]), RecordFault>
    ensures gives { Gives (λ x. (x.0, x.1.now)) result (only (is_from_to 1 MEMBERS_MAX) RecordFault.BadLength (byte_at bytes.now)) }
    ensures low { IfOk result (λ x. 1 ≤ x.0) }
    ensures high { IfOk result (λ x. x.0 ≤ MEMBERS_MAX) }
{
    let (count, rest) = byte_at(bytes)?;
    if 1 <= count && count as usize <= MEMBERS_MAX {
        Ok((count, rest))
    } else {
        Err(BadLength)
    }
}
