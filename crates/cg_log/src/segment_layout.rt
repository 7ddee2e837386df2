//! Where segments lie on a disk.
ghost use Rattle.std.specs.Prelude.{◌≡◌, ℕ, ◌+◌, ◌-◌, ◌≤◌, ◌<◌, length};
ghost use Rattle.cg_gate.specs.Layout.{segment_count, first_sector};
ghost use Rattle.cg_gate.specs.declared.layout.TheConstants.{SEGMENT_SECTORS};
ghost use Rattle.cg_log.specs.Segments.{segment_of};
ghost use Rattle.cg_log.specs.Ready.{last_id};

use cg_frame::Segment;
use cg_gate::{SEGMENT_SECTORS, first_sector};
use cg_root::SegmentId;

/// Returns where a segment lies.
pub(crate) fn segment(id: SegmentId) -> Segment
    ensures segment { result ≡ segment_of id }
    // Where a disk has the segment, all of its sectors are on the disk.
    ensures on_disk { (sectors : ℕ) → id < segment_count sectors → first_sector id + SEGMENT_SECTORS ≤ sectors }
{
    Segment {
        first: first_sector(id.get()),
        sectors: SEGMENT_SECTORS,
    }
}

/// Returns the last of these ids.
pub(crate) fn last_id(ids: &[SegmentId]) -> SegmentId
    requires { 1 ≤ length ids.now }
    ensures { result ≡ last_id ids.now }
{
    ids[ids.len() - 1]
}
