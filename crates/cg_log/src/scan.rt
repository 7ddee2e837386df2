//! Reading the frames of segments.
ghost use Rattle.std.specs.Prelude.{◌≡◌, ℕ, ◌+◌, ◌*◌, ◌-◌, ◌≤◌, ◌<◌, ◌++◌, true, length, slice_index, IfOk, IfErr, IfSome};
ghost use Rattle.cg_disk.specs.Disk.{Counts, Image, Stays, present};
ghost use Rattle.cg_frame.specs.Frames.{next_gate};
ghost use Rattle.cg_frame.specs.Heads.{HasContent};
ghost use Rattle.cg_frame.specs.Reader.{IsBuffered, position_of, segment_read};
ghost use Rattle.cg_gate.specs.Layout.{segment_count};
ghost use Rattle.cg_gate.specs.declared.layout.TheConstants.{SEGMENT_SECTORS};
ghost use Rattle.cg_root.specs.Roots.{IsLawful, root_ids};
ghost use Rattle.cg_log.specs.Faults.{is_device_failure, IsReadingFault};
ghost use Rattle.cg_log.specs.ReadTo.{FindsNext, IsReadTo, id_at};
ghost use Rattle.cg_log.specs.Scanned.{Finds};
ghost use Rattle.cg_log.specs.Segments.{Frames, segment_of};

use crate::LogFault;
use crate::segment_layout::segment;
use cg_disk::SectorDisk;
use cg_frame::{Frame, SegmentReader, scan};
use cg_root::{Root, SegmentId};
use std::alloc::Global;

/// Returns the id at an index of these two lists, of which the second follows the first.
pub(crate) fn id_at(base: &[SegmentId], tail: &[SegmentId], index: usize) -> SegmentId
    requires { index < length (base.now ++ tail.now) }
    ensures { result ≡ slice_index (base.now ++ tail.now) index }
{
    if index < base.len() {
        base[index]
    } else {
        tail[index - base.len()]
    }
}

/// Reads the frame at a position of a segment, if its gate is open, into the memory of `room`.
pub(crate) fn next_frame<D: SectorDisk>(
    alloc: Global,
    disk: &mut D,
    id: SegmentId,
    pos: u64,
    room: &mut Vec<u8>,
) -> Result<Option<Frame>, LogFault>
    requires on_disk { id < segment_count (D.size disk.old) }
    requires in_segment { pos < SEGMENT_SECTORS }

    ensures found { D.is_honest disk.old ≡ true →
        Finds (present (D.history disk.old)).content id pos result }
    ensures next { IfOk result (λ o. IfSome o (λ frame.
        frame.next ≡ next_gate pos (length frame.payload.items))) }
    ensures moves { IfOk result (λ o. IfSome o (λ frame.
        (pos < frame.next) × (frame.next < SEGMENT_SECTORS))) }
    ensures counted { IfOk result (λ o. IfSome o (λ frame. 1 ≤ frame.count)) }
    ensures faults { IfErr result IsReadingFault }
    ensures device { Counts (D.failures disk.old) (D.failures disk.new) (is_device_failure result) }
    ensures same_size { D.size disk.new ≡ D.size disk.old }
    ensures same_honesty { D.is_honest disk.new ≡ D.is_honest disk.old }
    ensures time { D.is_honest disk.old ≡ true → Stays (D.history disk.old) (D.history disk.new) }
{
    let frame = scan(alloc, disk, segment(id), pos, room)?;
    Ok(frame)
}

/// Reads the next frame, from the position of a reader in the segment at an index on, and keeps its payload in the
/// reader. Returns the count of its commands, and moves the index to its segment; `None` after the last frame.
pub(crate) fn read_on<D: SectorDisk>(
    disk: &mut D,
    root: &Root,
    reader: &mut SegmentReader,
    index: &mut usize,
) -> Result<Option<u64>, LogFault>
    requires lawful { IsLawful (D.size disk.old) root.now }
    requires inside { index.old < length (root_ids root.now) }
    requires at { segment_read reader.old ≡ segment_of (id_at root.now index.old) }

    ensures found { D.is_honest disk.old ≡ true → (image : Image) (number : ℕ) (read : Frames) →
        HasContent (present (D.history disk.old)) image → IsBuffered image reader.old →
        IsReadTo image root.now index.old (position_of reader.old) number read →
        FindsNext image root.now number read index.new reader.new result }
    ensures buffered { D.is_honest disk.old ≡ true → (image : Image) →
        HasContent (present (D.history disk.old)) image → IsBuffered image reader.old → IsBuffered image reader.new }
    ensures inside { index.new < length (root_ids root.now) }
    ensures at { segment_read reader.new ≡ segment_of (id_at root.now index.new) }
    ensures last { result ≡ Ok None → index.new + 1 ≡ length (root_ids root.now) }
    ensures moves { IfOk result (λ o. IfSome o (λ _. SEGMENT_SECTORS * index.old + position_of reader.old
        < SEGMENT_SECTORS * index.new + position_of reader.new)) }
    ensures counted { IfOk result (λ o. IfSome o (λ count. 1 ≤ count)) }
    ensures faults { IfErr result IsReadingFault }
    ensures device { Counts (D.failures disk.old) (D.failures disk.new) (is_device_failure result) }
    ensures same_size { D.size disk.new ≡ D.size disk.old }
    ensures same_honesty { D.is_honest disk.new ≡ D.is_honest disk.old }
    ensures time { D.is_honest disk.old ≡ true → Stays (D.history disk.old) (D.history disk.new) }
{
    let base = root.base.as_slice();
    let tail = root.tail.as_slice();
    let last = base.len() + tail.len() - 1;
    while *index < last {
        if let Some(count) = reader.next(disk)? {
            return Ok(Some(count));
        }
        *index += 1;
        reader.restart(segment(id_at(base, tail, *index)));
    }
    let count = reader.next(disk)?;
    Ok(count)
}
