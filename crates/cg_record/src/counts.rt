//! The number of entries or partitions of a command at the start of the bytes.
ghost use Rattle.std.specs.Prelude.{◌≡◌, ◌≤◌, IfOk};
ghost use Rattle.cg_record.specs.Counts.{count_at, number_of_count_at};
ghost use Rattle.cg_record.specs.Reading.{Gives};
ghost use Rattle.cg_record.specs.Versions.{count_max};
ghost use Rattle.cg_record.specs.declared.entries.TheConstants.{ENTRIES_MAX};

use crate::entries::{ENTRIES_MAX, SHORT_COUNT_MAX};
use crate::fault::RecordFault;
use crate::fault::RecordFault::BadLength;
use crate::fields::{byte_at, two_at};
use crate::format::Version;

fn count_max(version: Version) -> usize
    ensures value { result ≡ count_max version }
    ensures bound { result ≤ ENTRIES_MAX }
{
    if version.has_long_counts() {
        ENTRIES_MAX
    } else {
        SHORT_COUNT_MAX
    }
}

#[tactic(auto, unfolding(crate::specs::Counts::number_of_count_at))]
fn number_of_count_at(version: Version, bytes: &[u8]) -> Result<(u16, &[u8]), RecordFault>
    ensures { Gives (λ x. (x.0, x.1.now)) result (number_of_count_at version bytes.now) }
{
    if version.has_long_counts() {
        return two_at(bytes);
    }
    let (count, rest) = byte_at(bytes)?;
    Ok((u16::from(count), rest))
}

/// Decodes the number of entries or partitions, from 1 to the maximum of the version.
#[tactic(auto, unfolding(crate::specs::Counts::count_at))]
pub fn count_at(version: Version, bytes: &[u8]) -> Result<(u16, &[u8]), RecordFault>
    ensures gives { Gives (λ x. (x.0, x.1.now)) result (count_at version bytes.now) }
    ensures low { IfOk result (λ x. 1 ≤ x.0) }
    ensures high { IfOk result (λ x. x.0 ≤ ENTRIES_MAX) }
{
    let (count, rest) = number_of_count_at(version, bytes)?;
    if 1 <= count && count as usize <= count_max(version) {
        Ok((count, rest))
    } else {
        Err(BadLength)
    }
}
