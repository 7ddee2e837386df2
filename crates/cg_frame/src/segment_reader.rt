//! Reading the frames of segments in large pieces, through one buffer.
ghost use Rattle.cg_frame.specs.declared.segment.TheConstants.{SECTORS_BOUND};
ghost use Rattle.cg_disk.specs.declared.disk.TheConstants.{SECTOR_BYTES};
ghost use Rattle.std.specs.Prelude.{◌≡◌, ◌+◌, ◌*◌, ◌<◌, ◌≤◌, true, length, take, min, OnOk, IfOk, IfSome, IfErr, IsErrOf, OnErr, is_err};
ghost use Rattle.cg_disk.specs.Disk.{Image, present, Holds, Stays, Counts};
ghost use Rattle.cg_frame.specs.Frames.{next_gate};
ghost use Rattle.cg_frame.specs.Outcomes.{is_scan_device_failure};
ghost use Rattle.cg_frame.specs.Heads.{HasContent, FindsHead};

use crate::frame_reader::{FRONT_BYTES, Head, head_of};
use crate::segment::{HEAD_BYTES, positions_fit, sectors_of};
use crate::{ScanFault, Segment};
use cg_disk::{DiskFault, SECTOR_BYTES, SectorDisk};
use cg_gate::OPEN;
use std::alloc::{AllocError, Global};
use std::cmp;

/// Sectors that one call of the device reads, where the segment has as many and no frame needs more.
pub const PIECE_SECTORS: u64 = 256;

/// Returns the head of the frame whose gate is at `pos`, of the sectors of a segment; `None` if the gate is closed.
fn head_at(buffer: &[u8], segment: Segment, pos: u64) -> Result<Option<Head>, ScanFault>
    requires in_segment { pos < segment.sectors }
    requires room { SECTOR_BYTES * segment.sectors ≤ length buffer.now }
    requires small { segment.sectors < SECTORS_BOUND }

    // The gate has to be in the buffer, and the sector after it, where the segment has one.
    ensures found { (image : Image) → Holds image segment.first (min (pos + 2) segment.sectors) buffer.now →
        FindsHead image segment pos result }
    ensures fits { IfOk result (λ o. IfSome o (λ head. next_gate pos head.bytes < segment.sectors)) }
    ensures counted { IfOk result (λ o. IfSome o (λ head. 1 ≤ head.count)) }
    ensures only_bad { IfErr result (λ fault. fault ≡ ScanFault.BadLength) }
{
    let gate = pos as usize * SECTOR_BYTES;
    if pos + 1 == segment.sectors {
        return if buffer[gate] == OPEN {
            Err(ScanFault::BadLength)
        } else {
            Ok(None)
        };
    }
    let head = head_of(&buffer[gate..gate + FRONT_BYTES], segment, pos)?;
    Ok(head)
}

// Returns up to which sector a segment is read that was read up to `filled`, so that it is read up to `to` at least.
fn piece_end(sectors: u64, filled: u64, to: u64) -> u64
    requires filled { filled ≤ sectors }
    requires to { to ≤ sectors }
    requires small { sectors < SECTORS_BOUND }
    ensures enough { to ≤ result }
    ensures more { filled ≤ result }
    ensures inside { result ≤ sectors }
{
    cmp::min(sectors, cmp::max(to, filled + PIECE_SECTORS))
}

// Returns the position after the gate at `pos` and the sector after it, if the segment has one.
fn front_end(sectors: u64, pos: u64) -> u64
    requires { pos < SECTORS_BOUND }
    ensures { result ≡ min (pos + 2) sectors }
{
    cmp::min(pos + 2, sectors)
}

/// Reads sectors of a segment into a buffer that has the first ones, so that it has `to` of them at least. Returns how
/// many it has.
fn read_piece<D: SectorDisk>(
    disk: &mut D,
    segment: Segment,
    buffer: &mut [u8],
    filled: u64,
    to: u64,
) -> Result<u64, DiskFault>
    requires filled { filled ≤ segment.sectors }
    requires to { to ≤ segment.sectors }
    requires room { SECTOR_BYTES * segment.sectors ≤ length buffer.old }
    requires on_disk { segment.first + segment.sectors ≤ D.size disk.old }
    requires small { segment.sectors < SECTORS_BOUND }

    ensures enough { IfOk result (λ n. (to ≤ n) × (n ≤ segment.sectors)) }
    ensures holds { D.is_honest disk.old ≡ true → (image : Image) → HasContent (present (D.history disk.old)) image →
        Holds image segment.first filled buffer.old → IfOk result (λ n. Holds image segment.first n buffer.new) }
    ensures kept { take (SECTOR_BYTES * filled) buffer.new ≡ take (SECTOR_BYTES * filled) buffer.old }
    ensures same_size { D.size disk.new ≡ D.size disk.old }
    ensures same_honesty { D.is_honest disk.new ≡ D.is_honest disk.old }
    ensures time { D.is_honest disk.old ≡ true → Stays (D.history disk.old) (D.history disk.new) }
    ensures cause { Counts (D.failures disk.old) (D.failures disk.new) (is_err result) }
{
    if to <= filled {
        return Ok(filled);
    }
    positions_fit(disk);
    let end = piece_end(segment.sectors, filled, to);
    let start_byte = filled as usize * SECTOR_BYTES;
    let end_byte = end as usize * SECTOR_BYTES;
    disk.read(segment.first + filled, &mut buffer[start_byte..end_byte])?;
    Ok(end)
}

/// Reads the frames of segments in order. All frames go through one buffer, which has the size of a segment: no frame
/// takes memory, and no payload is copied. A segment is read in pieces of `PIECE_SECTORS` sectors, or as many as a
/// larger frame needs, and no further than its frames go.
#[derive(Drop)]
pub struct SegmentReader {
    segment: Segment,
    buffer: Vec<u8>,
    // How many sectors of the segment, from its first, are in the buffer.
    filled: u64,
    // Position of the gate of the next frame.
    pos: u64,
    // The bytes of the buffer that are the payload of the last frame.
    payload_start: usize,
    payload_end: usize,
    ghost room: { SECTOR_BYTES * segment.sectors ≤ length buffer.items },
    ghost small: { segment.sectors < SECTORS_BOUND },
    ghost filled_inside: { filled ≤ segment.sectors },
    ghost inside: { pos < segment.sectors },
    ghost payload_ends: { payload_start ≤ payload_end },
    ghost payload_inside: { payload_end ≤ length buffer.items },
}

impl SegmentReader {
    ghost use Rattle.cg_frame.specs.Reader.{FindsFrame, IsBuffered, payload_of, position_of, segment_read};

    /// Creates a reader at the first gate of a segment. Allocates the buffer.
    pub fn new(alloc: Global, segment: Segment) -> Result<Self, AllocError>
        requires some { 0 < segment.sectors }
        requires small { segment.sectors < SECTORS_BOUND }
        ensures segment { IfOk result (λ reader. segment_read reader ≡ segment) }
        ensures position { IfOk result (λ reader. position_of reader ≡ 0) }
        ensures buffered { IfOk result (λ reader. (image : Image) → IsBuffered image reader) }
    {
        let buffer = vec![in alloc; 0; segment.sectors as usize * SECTOR_BYTES]?;
        Ok(SegmentReader {
            segment,
            buffer,
            filled: 0,
            pos: 0,
            payload_start: 0,
            payload_end: 0,
        })
    }

    /// Goes to the first gate of another segment, which is no larger.
    pub fn restart(&mut self, segment: Segment)
        requires some { 0 < segment.sectors }
        requires no_larger { segment.sectors ≤ (segment_read self.old).sectors }
        ensures segment { segment_read self.new ≡ segment }
        ensures position { position_of self.new ≡ 0 }
        ensures buffered { (image : Image) → IsBuffered image self.new }
        ensures same_payload { payload_of self.new ≡ payload_of self.old }
    {
        self.segment = segment;
        self.filled = 0;
        self.pos = 0;
    }

    /// Returns the position of the gate of the next frame.
    pub fn position(&self) -> u64
        ensures position { result ≡ position_of self.now }
        ensures inside { result < (segment_read self.now).sectors }
    {
        self.pos
    }

    /// Returns the payload of the frame that `next` read last. It stays until the next call that reads.
    pub fn payload(&self) -> &[u8]
        ensures { result.now ≡ payload_of self.now }
    {
        &self.buffer[self.payload_start..self.payload_end]
    }

    // Reads the segment on, until the buffer has so many of its sectors.
    fn fill<D: SectorDisk>(&mut self, disk: &mut D, to: u64) -> Result<(), DiskFault>
        requires to { to ≤ self.old.segment.sectors }
        requires on_disk { self.old.segment.first + self.old.segment.sectors ≤ D.size disk.old }

        ensures enough { OnOk result (to ≤ self.new.filled) }
        ensures buffered { D.is_honest disk.old ≡ true → (image : Image) →
            HasContent (present (D.history disk.old)) image → IsBuffered image self.old → IsBuffered image self.new }
        ensures same_segment { self.new.segment ≡ self.old.segment }
        ensures same_position { self.new.pos ≡ self.old.pos }
        ensures same_size { D.size disk.new ≡ D.size disk.old }
        ensures same_honesty { D.is_honest disk.new ≡ D.is_honest disk.old }
        ensures time { D.is_honest disk.old ≡ true → Stays (D.history disk.old) (D.history disk.new) }
        ensures cause { Counts (D.failures disk.old) (D.failures disk.new) (is_err result) }
    {
        self.filled = read_piece(disk, self.segment, &mut self.buffer, self.filled, to)?;
        Ok(())
    }

    /// Reads the next frame. Returns the count of its commands, and keeps its payload; returns `None` if the gate is
    /// closed. It reads the device only where the frame goes past what is in the buffer, at most twice.
    pub fn next<D: SectorDisk>(&mut self, disk: &mut D) -> Result<Option<u64>, ScanFault>
        requires on_disk { (segment_read self.old).first + (segment_read self.old).sectors ≤ D.size disk.old }

        // Of a disk that has an image all along, of which the buffer holds sectors.
        ensures found { D.is_honest disk.old ≡ true → (image : Image) →
            HasContent (present (D.history disk.old)) image → IsBuffered image self.old →
            FindsFrame image self.old self.new result }
        ensures buffered { D.is_honest disk.old ≡ true → (image : Image) →
            HasContent (present (D.history disk.old)) image → IsBuffered image self.old → IsBuffered image self.new }

        // These hold whatever the disk gives.
        ensures next { IfOk result (λ o. IfSome o (λ _.
            position_of self.new ≡ next_gate (position_of self.old) (length (payload_of self.new)))) }
        ensures moves { IfOk result (λ o. IfSome o (λ _. position_of self.old < position_of self.new)) }
        ensures stays { result ≡ Ok None → position_of self.new ≡ position_of self.old }
        ensures same_position { OnErr result (position_of self.new ≡ position_of self.old) }
        ensures counted { IfOk result (λ o. IfSome o (λ count. 1 ≤ count)) }
        ensures no_memory { ¬ IsErrOf result ScanFault.Memory }
        ensures same_segment { segment_read self.new ≡ segment_read self.old }
        ensures device { Counts (D.failures disk.old) (D.failures disk.new) (is_scan_device_failure result) }
        ensures same_size { D.size disk.new ≡ D.size disk.old }
        ensures same_honesty { D.is_honest disk.new ≡ D.is_honest disk.old }

        // The content stays.
        ensures time { D.is_honest disk.old ≡ true → Stays (D.history disk.old) (D.history disk.new) }
    {
        self.fill(disk, front_end(self.segment.sectors, self.pos))?;
        let Some(head) = head_at(&self.buffer, self.segment, self.pos)? else {
            return Ok(None);
        };
        let next = self.pos + sectors_of(head.bytes) + 1;
        self.fill(disk, next)?;
        self.payload_start = (self.pos as usize + 1) * SECTOR_BYTES + HEAD_BYTES as usize;
        self.payload_end = self.payload_start + head.bytes as usize;
        self.pos = next;
        Ok(Some(head.count))
    }
}
