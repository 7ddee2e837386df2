//! Appending a frame to a segment.
ghost use Rattle.cg_frame.specs.declared.segment.TheConstants.{SECTORS_BOUND};
ghost use Rattle.std.specs.Prelude.{◌≡◌, ◌↔◌, ℕ, ◌+◌, ◌<◌, ◌≤◌, [], ◌∷◌, ◌++◌, true, length, OnOk, IfOk, IsErrOf, is_err, List};
ghost use Rattle.cg_disk.specs.Disk.{Image, present, IsImage, IsSynced, AllBut, Changes, LeavesOnly, TakesCalls, Counts};
ghost use Rattle.cg_frame.specs.Frames.{IsClosed, body_sectors, next_gate};
ghost use Rattle.cg_frame.specs.Outcomes.{StandsLast, Appended, KeepsFramesTo, IsBeforeOrAfter, is_device_failure};

use crate::segment::positions_fit;
use crate::{FrameFault, Segment, StagedFrame, append_staged, fits};
use cg_disk::{DiskFault, SectorDisk};
use std::alloc::{AllocError, Global};

/// Writes a closed gate at `pos` and syncs it.
pub fn close_gate<D: SectorDisk>(disk: &mut D, segment: Segment, pos: u64) -> Result<(), DiskFault>
    requires in_segment { pos < segment.sectors }
    requires on_disk { segment.first + segment.sectors ≤ D.size disk.old }

    ensures same_size { D.size disk.new ≡ D.size disk.old }
    ensures same_honesty { D.is_honest disk.new ≡ D.is_honest disk.old }

    // It changes that sector alone.
    ensures time { D.is_honest disk.old ≡ true →
        Changes (segment.first + pos) 1 (D.history disk.old) (D.history disk.new) }
    ensures any_moment { D.is_honest disk.old ≡ true →
        LeavesOnly (D.history disk.old) (D.history disk.new)
        (AllBut (segment.first + pos) 1 (present (D.history disk.old))) }
    ensures closed { D.is_honest disk.old ≡ true → OnOk result
        ((image : Image) → IsImage (present (D.history disk.new)) image → IsClosed image (segment.first + pos)) }
    ensures durable { D.is_honest disk.old ≡ true → OnOk result (IsSynced (present (D.history disk.new))) }
    ensures clock { D.is_honest disk.old ≡ true → TakesCalls 2 (D.history disk.old) (D.history disk.new) (is_err result) }
    ensures cause { Counts (D.failures disk.old) (D.failures disk.new) (is_err result) }
{
    positions_fit(disk);
    cg_gate::close_gate(disk, segment.first + pos)?;
    Ok(())
}

// Encodes a frame with a payload that is there already, which is copied once.
fn stage(alloc: Global, count: u64, payload: &[u8]) -> Result<StagedFrame, AllocError>
    ensures { IfOk result (λ frame. frame ≡ (count, payload.now)) }
{
    let mut frame = StagedFrame::new(alloc);
    let mut buffer = frame.open(payload.len() as u64)?;
    buffer.extend_from_slice(payload)?;
    frame.close(buffer);
    frame.seal(count)?;
    Ok(frame)
}

/// Appends a frame: its body and the closed gate after it in one write, then its gate, each synced, in four calls of
/// the device. Returns the position of the gate after it. Copies the payload once.
pub fn append<D: SectorDisk>(
    alloc: Global,
    disk: &mut D,
    segment: Segment,
    pos: u64,
    count: u64,
    payload: &[u8],
) -> Result<u64, FrameFault>
    requires counted { 1 ≤ count }
    requires on_disk { segment.first + segment.sectors ≤ D.size disk.old }
    requires small { segment.sectors < SECTORS_BOUND }
    requires closed { D.is_honest disk.old ≡ true →
        (image : Image) → IsImage (present (D.history disk.old)) image → IsClosed image (segment.first + pos) }

    ensures next { IfOk result (λ next. next ≡ next_gate pos (length payload.now)) }

    // NoRoom is reported first, then Memory; both leave the disk alone.
    ensures no_room { IsErrOf result FrameFault.NoRoom
        ↔ (segment.sectors ≤ next_gate pos (length payload.now)) }
    ensures no_room_leaves { IsErrOf result FrameFault.NoRoom → disk.new ≡ disk.old }
    ensures memory_leaves { IsErrOf result FrameFault.Memory → disk.new ≡ disk.old }
    // It takes four calls of the device.
    ensures clock { D.is_honest disk.old ≡ true → TakesCalls 4 (D.history disk.old) (D.history disk.new) (is_err result) }
    ensures device { Counts (D.failures disk.old) (D.failures disk.new) (is_device_failure result) }
    ensures same_size { D.size disk.new ≡ D.size disk.old }
    ensures same_honesty { D.is_honest disk.new ≡ D.is_honest disk.old }

    // A crash at any moment leaves the gate closed or the frame, and the other sectors as they were.
    ensures time { D.is_honest disk.old ≡ true →
        Changes (segment.first + pos) (body_sectors (length payload.now) + 2)
        (D.history disk.old) (D.history disk.new) }
    ensures any_moment { D.is_honest disk.old ≡ true →
        LeavesOnly (D.history disk.old) (D.history disk.new)
        (Appended (present (D.history disk.old)) segment pos count payload.now) }
    ensures frames { D.is_honest disk.old ≡ true → (frames : List (ℕ × List ℕ)) →
        KeepsFramesTo (present (D.history disk.old)) segment frames pos →
        LeavesOnly (D.history disk.old) (D.history disk.new)
        (IsBeforeOrAfter segment frames count payload.now) }

    // At Ok each crash leaves the frame.
    ensures stands { D.is_honest disk.old ≡ true → OnOk result
        ((image : Image) → IsImage (present (D.history disk.new)) image →
        StandsLast image segment pos count payload.now) }
    ensures frames_after { D.is_honest disk.old ≡ true → OnOk result ((frames : List (ℕ × List ℕ)) →
        KeepsFramesTo (present (D.history disk.old)) segment frames pos →
        KeepsFramesTo (present (D.history disk.new)) segment
        (frames ++ (count, payload.now) ∷ []) (next_gate pos (length payload.now))) }
    ensures durable { D.is_honest disk.old ≡ true → OnOk result (IsSynced (present (D.history disk.new))) }
{
    if !fits(segment, pos, payload.len() as u64) {
        return Err(FrameFault::NoRoom);
    }
    let frame = stage(alloc, count, payload)?;
    let next = append_staged(disk, segment, pos, &frame)?;
    Ok(next)
}
