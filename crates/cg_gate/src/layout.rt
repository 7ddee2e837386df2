//! The layout of the disk: root slots, then segments.
ghost use Rattle.std.specs.Prelude.{◌≡◌, ℕ, ◌+◌, ◌<◌, ◌≤◌};
ghost use Rattle.cg_disk.specs.declared.disk.TheConstants.{SECTOR_BYTES};
ghost use Rattle.cg_gate.specs.Layout.{segment_count, first_sector};
ghost use Rattle.cg_gate.specs.declared.gate.TheConstants.{OPEN};

use std::cmp;

/// Sectors of a root slot: its gate and its body. Slot 0 has the first two sectors of the disk, slot 1 the next two.
pub const ROOT_SLOT_SECTORS: u64 = 2;

/// The first sector of segment 0.
pub const FIRST_SEGMENT_SECTOR: u64 = 4;

/// Sectors of a segment.
pub const SEGMENT_SECTORS: u64 = 2048;

/// The greatest number of segments of a disk.
pub const SEGMENTS_MAX: u64 = 200;

/// Returns the number of segments of a disk of that many sectors.
#[tactic(auto, unfolding(crate::specs::Layout::segment_count))]
pub fn segment_count(sectors: u64) -> u64
    ensures { result ≡ segment_count sectors }
{
    cmp::min(
        SEGMENTS_MAX,
        sectors.saturating_sub(FIRST_SEGMENT_SECTOR) / SEGMENT_SECTORS,
    )
}

/// Returns the first sector of a segment, by its id.
#[tactic(auto, unfolding(crate::specs::Layout::segment_count))]
pub fn first_sector(segment: u16) -> u64
    ensures first { result ≡ first_sector segment }
    // Where a disk has the segment, all of its sectors are on the disk.
    ensures on_disk { (sectors : ℕ) → segment < segment_count sectors → result + SEGMENT_SECTORS ≤ sectors }
{
    FIRST_SEGMENT_SECTOR + SEGMENT_SECTORS * segment as u64
}

/// States the numbers of the format, on which the disks that exist depend. It does nothing.
pub fn layout_numbers()
    ensures sector { SECTOR_BYTES ≡ 512 }
    ensures gate { OPEN ≡ 1 }
    ensures slot { ROOT_SLOT_SECTORS ≡ 2 }
    ensures first_segment { FIRST_SEGMENT_SECTOR ≡ 4 }
    ensures segment { SEGMENT_SECTORS ≡ 2048 }
    ensures segments { SEGMENTS_MAX ≡ 200 }
{}
