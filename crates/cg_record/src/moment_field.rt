//! The moment of a command at the start of the bytes.
ghost use Rattle.std.specs.Prelude.{◌≡◌};
ghost use Rattle.cg_record.specs.Moments.{moment_at, stamp_at};
ghost use Rattle.cg_record.specs.Reading.{Gives};

use crate::fault::RecordFault;
use crate::fault::RecordFault::BadLength;
use crate::fields::{byte_at, eight_at};
use crate::format::Version;
use cg_names::Moment;

// Decodes the byte 0 for an unknown moment, or 1 and the milliseconds.
#[tactic(auto, unfolding(crate::specs::Moments::stamp_at))]
fn stamp_at(bytes: &[u8]) -> Result<(Option<u64>, &[u8]), RecordFault>
    ensures { Gives (λ x. (x.0, x.1.now)) result (stamp_at bytes.now) }
{
    let (known, rest) = byte_at(bytes)?;
    if known > 1 {
        return Err(BadLength);
    }
    if known == 0 {
        return Ok((None, rest));
    }
    let (millis, rest) = eight_at(rest)?;
    Ok((Some(millis), rest))
}

/// Decodes the milliseconds of a moment. It is unknown in versions without moments.
#[tactic(auto, unfolding(crate::specs::Moments::moment_at))]
pub fn moment_at(version: Version, bytes: &[u8]) -> Result<(Option<u64>, &[u8]), RecordFault>
    ensures { Gives (λ x. (x.0, x.1.now)) result (moment_at version bytes.now) }
{
    if version.has_moments() {
        stamp_at(bytes)
    } else {
        Ok((None, bytes))
    }
}

/// Returns the moment of these milliseconds, if they are known.
pub fn moment_of(millis: Option<u64>) -> Option<Moment>
    ensures { result ≡ millis }
{
    match millis {
        None => None,
        Some(millis) => Some(Moment::from_millis(millis)),
    }
}
