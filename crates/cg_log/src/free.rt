//! Free segments: those that the root does not name and no compaction has taken.
ghost use Rattle.std.specs.Prelude.{◌≡◌, ◌<◌, ◌++◌};
ghost use Rattle.std.specs.Option.{MatchOption};
ghost use Rattle.cg_gate.specs.Layout.{segment_count};
ghost use Rattle.cg_log.specs.Free.{is_among, IsLeastFree, NoneIsFree};

use cg_gate::segment_count;
use cg_root::SegmentId;

// How many segments a disk of that many sectors has.
fn segments_of(sectors: u64) -> u16
    ensures { result ≡ segment_count sectors }
{
    segment_count(sectors) as u16
}

fn is_among(id: u16, ids: &[SegmentId]) -> bool
    ensures { result ≡ is_among id ids.now }
{
    ids.iter().any(|other| id == other.get())
}

/// Returns whether the segment is taken: by the root of these base and tail ids, or as a fresh one.
fn is_taken(id: u16, base: &[SegmentId], tail: &[SegmentId], fresh: &[SegmentId]) -> bool
    ensures { result ≡ is_among id ((base.now ++ tail.now) ++ fresh.now) }
{
    is_among(id, base) || is_among(id, tail) || is_among(id, fresh)
}

/// Returns the free segment of the least id, on a disk of that many sectors.
pub(crate) fn least_free(
    sectors: u64,
    base: &[SegmentId],
    tail: &[SegmentId],
    fresh: &[SegmentId],
) -> Option<SegmentId>
    ensures { MatchOption result
        (NoneIsFree sectors ((base.now ++ tail.now) ++ fresh.now))
        (λ id. IsLeastFree sectors ((base.now ++ tail.now) ++ fresh.now) id) }
{
    for id in 0..segments_of(sectors) {
        if !is_taken(id, base, tail, fresh) {
            return Some(SegmentId::new(id));
        }
    }
    None
}
