//! Reading frames: the gate and the head first, then the payload.
ghost use Rattle.cg_frame.specs.declared.segment.TheConstants.{HEAD_BYTES, SECTORS_BOUND};
ghost use Rattle.cg_frame.specs.declared.frame_reader.TheConstants.{FRONT_BYTES, START_BYTES};
ghost use Rattle.cg_disk.specs.declared.disk.TheConstants.{SECTOR_BYTES};
ghost use Rattle.std.specs.Prelude.{◌≡◌, ◌≢◌, ℕ, ◌+◌, ◌-◌, ◌*◌, ◌/◌, ◌%◌, ◌^◌, ◌<◌, ◌≤◌, ◌++◌, true, length, take, drop, slice_index, OnOk, IfOk, IfSome, IfErr, IsErr, IsErrOf, is_err, List};
ghost use Rattle.cg_disk.specs.Disk.{present, span, Holds, Stays, Counts};
ghost use Rattle.cg_frame.specs.Frames.{IsOpen, IsClosed, FrameAt, HeadAt, IsFront, body_sectors, next_gate};
ghost use Rattle.cg_frame.specs.Outcomes.{is_scan_device_failure};

use crate::buffer::number;
use crate::segment::{positions_fit, sectors_of};
use crate::{Frame, ScanFault, Segment, fits};
use cg_disk::{DiskFault, SECTOR_BYTES, SectorDisk};
use cg_gate::{OPEN, is_open};
use std::alloc::{AllocError, Global};
use std::mem;

/// Bytes of a gate and of the first sector of a body, which are read together.
pub(crate) const FRONT_BYTES: usize = 2 * SECTOR_BYTES;

/// Where the count, the length and the payload begin in them.
const COUNT_AT: usize = SECTOR_BYTES;

const LENGTH_AT: usize = COUNT_AT + 8;

const PAYLOAD_AT: usize = LENGTH_AT + 8;

/// Bytes of a payload in the first sector of its body.
const START_BYTES: usize = FRONT_BYTES - PAYLOAD_AT;

/// What stands before a payload.
#[derive(Clone, Copy)]
pub(crate) struct Head {
    pub(crate) count: u64,
    pub(crate) bytes: u64,
}

/// What the front of a frame tells; `None` where its gate is closed.
pub(crate) fn head_of(front: &[u8], segment: Segment, pos: u64) -> Result<Option<Head>, ScanFault>
    requires { length front.now ≡ FRONT_BYTES }
    ensures closed { result ≡ Ok None → slice_index front.now 0 ≢ 1 }
    ensures head { IfOk result (λ o. IfSome o (λ head.
        IsFront front.now segment pos head.count head.bytes)) }
    ensures bad { IsErr result → (slice_index front.now 0 ≡ 1) × ((count n : ℕ) →
        n < 2 ^ 64 → ¬ IsFront front.now segment pos count n) }
    ensures only_bad { IfErr result (λ fault. fault ≡ ScanFault.BadLength) }
{
    if front[0] != OPEN {
        return Ok(None);
    }
    let head = Head {
        count: number(front, COUNT_AT),
        bytes: number(front, LENGTH_AT),
    };
    if head.count == 0 || !fits(segment, pos, head.bytes) {
        return Err(ScanFault::BadLength);
    }
    Ok(Some(head))
}

/// Reads what a buffer holds behind the start of a payload.
fn read_behind<D: SectorDisk>(disk: &mut D, at: u64, buffer: &mut [u8]) -> Result<(), DiskFault>
    requires whole { (length buffer.old - START_BYTES) % SECTOR_BYTES ≡ 0 }
    requires start { START_BYTES ≤ length buffer.old }
    requires in_range { at + (length buffer.old - START_BYTES) / SECTOR_BYTES ≤ D.size disk.old }
    ensures same_size { D.size disk.new ≡ D.size disk.old }
    ensures same_honesty { D.is_honest disk.new ≡ D.is_honest disk.old }
    ensures start { take START_BYTES buffer.new ≡ take START_BYTES buffer.old }
    ensures behind { D.is_honest disk.old ≡ true → OnOk result
        (Holds (present (D.history disk.old)).content at ((length buffer.old - START_BYTES) / SECTOR_BYTES) (drop START_BYTES buffer.new)) }
    ensures time { D.is_honest disk.old ≡ true → Stays (D.history disk.old) (D.history disk.new) }
    ensures cause { Counts (D.failures disk.old) (D.failures disk.new) (is_err result) }
{
    if buffer.len() > START_BYTES {
        disk.read(at, &mut buffer[START_BYTES..])?;
    }
    Ok(())
}

/// Writes the start of a payload over that of a buffer.
fn put_start(buffer: &mut [u8], start: &[u8])
    requires start { length start.now ≡ START_BYTES }
    requires room { START_BYTES ≤ length buffer.old }
    ensures { take START_BYTES buffer.new ≡ start.now }
{
    buffer[..START_BYTES].copy_from_slice(start);
}

/// Makes a buffer for a payload of that many bytes, in whole sectors, which begins with its start. It takes the memory
/// of `room`, and more only where that is too small.
fn buffer_for(room: Vec<u8>, bytes: u64, start: &[u8]) -> Result<Vec<u8>, AllocError>
    requires start { length start.now ≡ START_BYTES }
    requires small { body_sectors bytes < SECTORS_BOUND }
    ensures length { IfOk result (λ buffer. length buffer.items + HEAD_BYTES ≡ SECTOR_BYTES * body_sectors bytes) }
    ensures start { IfOk result (λ buffer. take START_BYTES buffer.items ≡ start.now) }
{
    let size = sectors_of(bytes) as usize * SECTOR_BYTES - (SECTOR_BYTES - START_BYTES);
    let mut buffer = room;
    buffer.resize(size, 0)?;
    put_start(&mut buffer, start);
    Ok(buffer)
}

/// Reads the payload of a frame, of which the front gave the start, into the memory of `room`.
fn read_payload<D: SectorDisk>(
    disk: &mut D,
    at: u64,
    bytes: u64,
    start: &[u8],
    room: Vec<u8>,
) -> Result<Vec<u8>, ScanFault>
    requires start { length start.now ≡ START_BYTES }
    requires small { body_sectors bytes < SECTORS_BOUND }
    requires in_range { at + (body_sectors bytes - 1) ≤ D.size disk.old }

    ensures length { IfOk result (λ payload. length payload.items ≡ bytes) }
    ensures payload { D.is_honest disk.old ≡ true → IfOk result (λ payload. payload.items
        ≡ take bytes (start.now ++ span (present (D.history disk.old)).content at (body_sectors bytes - 1))) }
    ensures not_bad { ¬ IsErrOf result ScanFault.BadLength }
    ensures same_size { D.size disk.new ≡ D.size disk.old }
    ensures same_honesty { D.is_honest disk.new ≡ D.is_honest disk.old }
    ensures time { D.is_honest disk.old ≡ true → Stays (D.history disk.old) (D.history disk.new) }
    ensures device { Counts (D.failures disk.old) (D.failures disk.new) (is_scan_device_failure result) }
{
    let mut buffer = buffer_for(room, bytes, start)?;
    read_behind(disk, at, &mut buffer)?;
    buffer.truncate(bytes as usize);
    Ok(buffer)
}

/// Reads the frame whose gate is at `pos`; returns `None` if the gate is closed. It reads the gate with the first
/// sector of the body, and then the rest of the body at once. The payload takes the memory of `room`, whatever it holds,
/// and more only where that is too small: a caller that gives the last payload back allocates only for a longer one.
pub fn scan<D: SectorDisk>(
    alloc: Global,
    disk: &mut D,
    segment: Segment,
    pos: u64,
    room: &mut Vec<u8>,
) -> Result<Option<Frame>, ScanFault>
    requires in_segment { pos < segment.sectors }
    requires on_disk { segment.first + segment.sectors ≤ D.size disk.old }
    requires small { segment.sectors < SECTORS_BOUND }

    ensures none { D.is_honest disk.old ≡ true → result ≡ Ok None →
        IsClosed (present (D.history disk.old)).content (segment.first + pos) }
    ensures frame { D.is_honest disk.old ≡ true → IfOk result (λ o. IfSome o (λ frame.
        FrameAt (present (D.history disk.old)).content segment pos frame.count frame.payload.items)) }
    ensures bad { D.is_honest disk.old ≡ true → IsErrOf result ScanFault.BadLength →
        IsOpen (present (D.history disk.old)).content (segment.first + pos)
        × ((count : ℕ) (payload : List ℕ) →
        ¬ FrameAt (present (D.history disk.old)).content segment pos count payload) }
    // Out of memory is reported only for a frame that would be read on.
    ensures memory { D.is_honest disk.old ≡ true → IsErrOf result ScanFault.Memory →
        (count : ℕ) × ((n : ℕ) × HeadAt (present (D.history disk.old)).content segment pos count n) }

    // These hold whatever the disk gives.
    ensures next { IfOk result (λ o. IfSome o (λ frame.
        frame.next ≡ next_gate pos (length frame.payload.items))) }
    ensures moves { IfOk result (λ o. IfSome o (λ frame.
        (pos < frame.next) × (frame.next < segment.sectors))) }
    ensures counted { IfOk result (λ o. IfSome o (λ frame. 1 ≤ frame.count)) }
    ensures device { Counts (D.failures disk.old) (D.failures disk.new) (is_scan_device_failure result) }
    ensures same_size { D.size disk.new ≡ D.size disk.old }
    ensures same_honesty { D.is_honest disk.new ≡ D.is_honest disk.old }

    // The content stays.
    ensures time { D.is_honest disk.old ≡ true → Stays (D.history disk.old) (D.history disk.new) }
{
    positions_fit(disk);
    let gate = segment.first + pos;
    if pos + 1 == segment.sectors {
        return if is_open(disk, gate)? {
            Err(ScanFault::BadLength)
        } else {
            Ok(None)
        };
    }
    let mut front = [0; FRONT_BYTES];
    disk.read(gate, &mut front)?;
    let Some(head) = head_of(&front, segment, pos)? else {
        return Ok(None);
    };
    let room = mem::replace(room, Vec::new(alloc));
    let payload = read_payload(disk, gate + 2, head.bytes, &front[PAYLOAD_AT..], room)?;
    Ok(Some(Frame {
        count: head.count,
        payload,
        next: pos + sectors_of(head.bytes) + 1,
    }))
}
