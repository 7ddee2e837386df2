//! Segments, frames, and whether a frame fits.
ghost use Rattle.std.specs.Prelude.{◌≡◌, ◌+◌, ◌/◌, ◌^◌, ◌<◌, ◌↔◌, IsTrue};
ghost use Rattle.cg_frame.specs.Frames.{body_sectors, next_gate};

use cg_disk::{SECTOR_BYTES, SectorDisk};

/// Sectors of a whole segment.
pub const SEGMENT_SECTORS: u64 = cg_gate::SEGMENT_SECTORS;

/// Bytes of the largest payload, whose frame fills a whole segment but for the last gate.
pub const LARGEST_PAYLOAD_BYTES: u64 = 1_047_536;

const SECTOR: u64 = SECTOR_BYTES as u64;

/// Bytes of the count and the length before a payload.
pub(crate) const HEAD_BYTES: u64 = 16;

/// Bound of the sectors of a segment, and so of a body: these have fewer than 2^63 bytes. Where on its disk a segment lies
/// is bounded by the disk alone.
pub const SECTORS_BOUND: u64 = 1 << 54;

/// A run of sectors on a disk, which frames fill from the front. Positions count its sectors from 0.
#[derive(Clone, Copy, Debug, PartialEq, Eq)]
pub struct Segment {
    /// Its first sector on the disk.
    pub first: u64,
    /// How many sectors it has.
    pub sectors: u64,
}

/// A frame that was read.
#[derive(Debug, Drop)]
pub struct Frame {
    /// How many commands the payload has, at least 1.
    pub count: u64,
    pub payload: Vec<u8>,
    /// Position of the gate after it, in sectors of the segment.
    pub next: u64,
}

/// How many sectors the body of a payload of that many bytes takes.
pub(crate) fn sectors_of(payload_bytes: u64) -> u64
    ensures { result ≡ body_sectors payload_bytes }
{
    payload_bytes / SECTOR + (payload_bytes % SECTOR + HEAD_BYTES + SECTOR - 1) / SECTOR
}

/// Returns whether a frame with its gate at `pos` and a payload of this many bytes fits, with the gate after it.
pub fn fits(segment: Segment, pos: u64, payload_bytes: u64) -> bool
    ensures { IsTrue result ↔ (next_gate pos payload_bytes < segment.sectors) }
{
    pos < segment.sectors && sectors_of(payload_bytes) + 1 < segment.sectors - pos
}

/// States that a position on a disk has 64 bits: a sum that is one does not wrap. It does nothing.
pub(crate) fn positions_fit<D: SectorDisk>(disk: &D)
    ensures { D.size disk.now < 2 ^ 64 }
{
    let _ = disk.sectors();
}

/// States the numbers of the format, on which the disks that exist depend, and the bound of sectors. It does nothing.
pub fn frame_numbers()
    ensures sector { SECTOR ≡ 512 }
    ensures segment { SEGMENT_SECTORS ≡ 2048 }
    ensures head { HEAD_BYTES ≡ 16 }
    ensures payload { LARGEST_PAYLOAD_BYTES ≡ 1047536 }
    ensures bound { SECTORS_BOUND ≡ 2 ^ 54 }
{}
