//! The runs into which a snapshot cuts the offsets of a group, one for each commit.
ghost use Rattle.std.specs.Prelude.{◌≡◌, ◌<◌, ◌≤◌, ◌&&◌, length, nat_le};
ghost use Rattle.cg_fold.specs.Snapshot.{IsLongestRun, first_len, first_moment, has_moment, run_len};

use crate::rows::Row;
use cg_names::Moment;
use cg_record::{COMMIT_METADATA_BYTES_MAX, ENTRIES_MAX};

/// Returns the moment of the first of these rows, if there are any and it is known.
pub fn first_moment(rows: &[Row]) -> Option<Moment>
    ensures { result ≡ first_moment rows.now }
{
    match rows {
        [] => None,
        [first, ..] => first.1.moment,
    }
}

// Returns whether the row has this moment, or both are unknown.
fn has_moment(row: &Row, moment: &Option<Moment>) -> bool
    ensures { result ≡ has_moment moment.now row.now }
{
    row.1.moment == *moment
}

// Returns whether the row has this moment, and at most `room` bytes of metadata.
fn continues(row: &Row, moment: &Option<Moment>, room: usize) -> bool
    ensures { result ≡ (has_moment moment.now row.now && nat_le (length row.now.1.metadata) room) }
{
    has_moment(row, moment) && row.1.metadata.as_bytes().len() <= room
}

// Returns how many rows at the front have this moment: at most `most`, with at most `room` bytes of metadata together.
#[tactic(auto, unfolding(crate::specs::Snapshot::run_len))]
fn run_len(rows: &[Row], moment: &Option<Moment>, most: usize, room: usize) -> usize
    ensures value { result ≡ run_len moment.now most room rows.now }
    ensures few { result ≤ most }
{
    if most == 0 {
        return 0;
    }
    match rows {
        [row, rest @ ..] if continues(row, moment, room) => {
            1 + run_len(
                rest,
                moment,
                most - 1,
                room - row.1.metadata.as_bytes().len(),
            )
        }
        _ => 0,
    }
}

/// Returns how many of these rows the next commit has: the first, and as many after it as have its moment and fit one commit.
/// Linear in that number.
#[tactic(auto, unfolding(crate::specs::Snapshot::first_len))]
pub fn first_len(rows: &[Row]) -> usize
    ensures value { result ≡ first_len rows.now }
    ensures longest { 0 < length rows.now → IsLongestRun rows.now result }
{
    match rows {
        [] => 0,
        [first, rest @ ..] => {
            let room = COMMIT_METADATA_BYTES_MAX - first.1.metadata.as_bytes().len();
            1 + run_len(rest, &first.1.moment, ENTRIES_MAX - 1, room)
        }
    }
}
