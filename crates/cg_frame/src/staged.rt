//! Frames that are encoded, to be appended later without an allocation.
ghost use Rattle.cg_frame.specs.declared.segment.TheConstants.{HEAD_BYTES};
ghost use Rattle.std.specs.Prelude.{◌≡◌, ℕ, ◌+◌, ◌^◌, ◌<◌, ◌≤◌, [], true, length, take, OnOk, OnErr, IfOk, is_err, List};
ghost use Rattle.cg_disk.specs.Disk.{Image, present, IsImage, IsSynced, Changes, LeavesOnly, TakesCalls, Counts};
ghost use Rattle.cg_frame.specs.Frames.{IsClosed, body_sectors, next_gate};
ghost use Rattle.cg_frame.specs.Outcomes.{StandsLast, Appended};
ghost use Rattle.cg_frame.specs.Staged.{behind_head};

use crate::Segment;
use crate::buffer::{complete, cut, frame_bytes};
use crate::segment::{HEAD_BYTES, positions_fit, sectors_of};
use cg_disk::{DiskFault, SectorDisk};
use cg_gate::write_guarded;
use std::alloc::{AllocError, Global};
use std::marker::Model;
use std::{cmp, mem};

/// A frame in memory, in the buffer that is written to the disk. First it is a draft: room for the head, and the payload so far.
/// Once it is sealed it has the number of its commands, its head, zeros up to the end of its last sector, and the closed gate
/// after it. Contracts see the number of its commands, 0 of a draft, and the payload.
#[derive(Debug, Drop)]
pub struct StagedFrame {
    alloc: Global,
    count: u64,
    bytes: u64,
    buffer: Vec<u8>,
}

impl Model for StagedFrame {
    ghost use Rattle.std.specs.Prelude.{ℕ, List, take};
    ghost use Rattle.cg_frame.specs.Staged.{IsFrameBuffer, behind_head};

    ghost Value = { ℕ × List ℕ };

    ghost view = { λ f. (f.count, take f.bytes (behind_head f.buffer.items)) };

    ghost invariant = { λ f. IsFrameBuffer f.buffer.items f.count f.bytes };
}

impl StagedFrame {
    /// Creates a frame without a payload. Does not allocate.
    pub fn new(alloc: Global) -> Self
        ensures { result ≡ (0, []) }
    {
        StagedFrame {
            alloc,
            count: 0,
            bytes: 0,
            buffer: Vec::new(alloc),
        }
    }

    /// Returns the number of commands, 0 of a draft.
    pub fn count(&self) -> u64
        ensures { result ≡ self.now.0 }
    {
        self.count
    }

    /// Returns the payload.
    pub fn payload(&self) -> &[u8]
        ensures { result.now ≡ self.now.1 }
    {
        if self.bytes == 0 {
            return &[];
        }
        let start = HEAD_BYTES as usize;
        &self.buffer[start..start + self.bytes as usize]
    }

    /// Takes the buffer out. It ends with the payload, and what is appended to it is written to the disk from there. It has room
    /// for `more` bytes of payload and for all that sealing adds, so only this call allocates. Until `close` puts the buffer
    /// back, the frame has no payload.
    pub fn open(&mut self, more: u64) -> Result<Vec<u8>, AllocError>
        requires { length self.old.1 + more ≤ 2 ^ 63 }
        ensures head { IfOk result (λ buffer. HEAD_BYTES ≤ length buffer.items) }
        ensures payload { IfOk result (λ buffer. behind_head buffer.items ≡ self.old.1) }
        ensures empty { OnOk result (self.new ≡ (0, [])) }
        ensures err { OnErr result (self.new ≡ self.old) }
    {
        let room = frame_bytes(self.bytes + more).saturating_sub(self.buffer.len());
        self.buffer.reserve(room)?;
        cut(&mut self.buffer, self.bytes)?;
        self.count = 0;
        self.bytes = 0;
        Ok(mem::replace(&mut self.buffer, Vec::new(self.alloc)))
    }

    /// Puts the buffer back. The bytes after its head are the payload.
    pub fn close(&mut self, buffer: Vec<u8>)
        requires { HEAD_BYTES ≤ length buffer.items }
        ensures { self.new ≡ (0, behind_head buffer.items) }
    {
        self.count = 0;
        self.bytes = buffer.len() as u64 - HEAD_BYTES;
        self.buffer = buffer;
    }

    /// Removes all but the first `bytes` bytes of the payload. The memory stays.
    pub fn truncate(&mut self, bytes: u64)
        ensures { self.new ≡ (0, take bytes self.old.1) }
    {
        self.count = 0;
        self.bytes = cmp::min(self.bytes, bytes);
    }

    /// Seals the frame, so that it can be appended. Does not allocate if at most as many bytes came as `open` reserved room for.
    /// If an allocation fails, the payload is unchanged.
    pub fn seal(&mut self, count: u64) -> Result<(), AllocError>
        ensures ok { OnOk result (self.new ≡ (count, self.old.1)) }
        ensures err { OnErr result (self.new ≡ (0, self.old.1)) }
    {
        self.count = 0;
        cut(&mut self.buffer, self.bytes)?;
        complete(&mut self.buffer, count)?;
        self.count = count;
        Ok(())
    }
}

/// Appends a frame that fits: its body and the closed gate after it in one write, then its gate, each synced, in four
/// calls of the device. Returns the position of the gate after it.
pub fn append_staged<D: SectorDisk>(
    disk: &mut D,
    segment: Segment,
    pos: u64,
    frame: &StagedFrame,
) -> Result<u64, DiskFault>
    requires counted { 1 ≤ frame.now.0 }
    requires fits { next_gate pos (length frame.now.1) < segment.sectors }
    requires on_disk { segment.first + segment.sectors ≤ D.size disk.old }
    requires closed { D.is_honest disk.old ≡ true →
        (image : Image) → IsImage (present (D.history disk.old)) image → IsClosed image (segment.first + pos) }

    ensures next { IfOk result (λ next. next ≡ next_gate pos (length frame.now.1)) }
    ensures clock { D.is_honest disk.old ≡ true → TakesCalls 4 (D.history disk.old) (D.history disk.new) (is_err result) }
    ensures cause { Counts (D.failures disk.old) (D.failures disk.new) (is_err result) }
    ensures same_size { D.size disk.new ≡ D.size disk.old }
    ensures same_honesty { D.is_honest disk.new ≡ D.is_honest disk.old }

    // A crash at any moment leaves the gate closed or the frame, and the other sectors as they were.
    ensures time { D.is_honest disk.old ≡ true →
        Changes (segment.first + pos) (body_sectors (length frame.now.1) + 2)
        (D.history disk.old) (D.history disk.new) }
    ensures any_moment { D.is_honest disk.old ≡ true →
        LeavesOnly (D.history disk.old) (D.history disk.new)
        (Appended (present (D.history disk.old)) segment pos frame.now.0 frame.now.1) }

    // At Ok each crash leaves the frame.
    ensures stands { D.is_honest disk.old ≡ true → OnOk result
        ((image : Image) → IsImage (present (D.history disk.new)) image →
        StandsLast image segment pos frame.now.0 frame.now.1) }
    ensures durable { D.is_honest disk.old ≡ true → OnOk result (IsSynced (present (D.history disk.new))) }
{
    positions_fit(disk);
    write_guarded(disk, segment.first + pos, &frame.buffer)?;
    Ok(pos + sectors_of(frame.bytes) + 1)
}
