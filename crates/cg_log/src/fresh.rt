//! Fresh segments: a compaction appends frames to them before a root names them.
ghost use Rattle.std.specs.Prelude.{◌≡◌, ◌≢◌, ◌⊎◌, ℕ, ◌+◌, ◌≤◌, ◌<◌, [], ◌∷◌, ◌++◌, List, true, false, length, vec_len, vec_capacity, IfErr, IfOk, OnOk, IsErrOf, is_err};
ghost use Rattle.cg_disk.specs.Disk.{Changes, Counts, Image, IsImage, LeavesOnly, TakesCalls, present};
ghost use Rattle.cg_frame.specs.Frames.{HasFrames, next_gate};
ghost use Rattle.cg_frame.specs.declared.segment.TheConstants.{LARGEST_PAYLOAD_BYTES};
ghost use Rattle.cg_gate.specs.Layout.{first_sector, segment_count};
ghost use Rattle.cg_gate.specs.declared.layout.TheConstants.{SEGMENT_SECTORS};
ghost use Rattle.cg_log.specs.Carried.{Carries, Content, tails};
ghost use Rattle.cg_log.specs.Faults.{IsWritingFault, is_device_failure};
ghost use Rattle.cg_log.specs.Free.{IsLeastFree, NoneIsFree};
ghost use Rattle.cg_log.specs.Fresh.{IsFreshAppended, fits_fresh};
ghost use Rattle.cg_log.specs.Ready.{AllClosed};
ghost use Rattle.cg_log.specs.Segments.{Filled, Frames, end_of_frames, frames_of, segment_of};

use crate::LogFault;
use crate::free::least_free;
use crate::log::Log;
use crate::segment_layout::{last_id, segment};
use cg_disk::{DiskFault, SectorDisk};
use cg_frame::{StagedFrame, append_staged, fits};
use cg_gate::{close_gate, first_sector};
use cg_root::SegmentId;

// Appends a frame that fits to a fresh segment, whose frames end there. Returns the position of the gate after it.
fn append_fresh<D: SectorDisk>(
    disk: &mut D,
    id: SegmentId,
    end: u64,
    frame: &StagedFrame,
) -> Result<u64, DiskFault>
    requires on_disk { id < segment_count (D.size disk.old) }
    requires counted { 1 ≤ frame.now.0 }
    requires fits { next_gate end (length frame.now.1) < SEGMENT_SECTORS }
    requires closed { D.is_honest disk.old ≡ true → AllClosed (present (D.history disk.old)) (first_sector id + end) }

    ensures next { IfOk result (λ next. next ≡ next_gate end (length frame.now.1)) }
    ensures clock { D.is_honest disk.old ≡ true → TakesCalls 4 (D.history disk.old) (D.history disk.new) (is_err result) }
    ensures cause { Counts (D.failures disk.old) (D.failures disk.new) (is_err result) }
    ensures same_size { D.size disk.new ≡ D.size disk.old }
    ensures same_honesty { D.is_honest disk.new ≡ D.is_honest disk.old }
    ensures time { D.is_honest disk.old ≡ true →
        Changes (first_sector id) SEGMENT_SECTORS (D.history disk.old) (D.history disk.new) }
    ensures stored { D.is_honest disk.old ≡ true → OnOk result ((frames : Frames) →
        ((image : Image) → IsImage (present (D.history disk.old)) image → HasFrames image (segment_of id) frames) →
        end ≡ end_of_frames 0 frames → (image : Image) → IsImage (present (D.history disk.new)) image →
        HasFrames image (segment_of id) (frames ++ frame.now ∷ [])) }
    ensures closed { D.is_honest disk.old ≡ true → OnOk result
        (AllClosed (present (D.history disk.new)) (first_sector id + next_gate end (length frame.now.1))) }
{
    let next = append_staged(disk, segment(id), end, frame)?;
    Ok(next)
}

impl<D: SectorDisk> Log<D> {
    ghost use Rattle.cg_log.specs.Log.{HasFresh, IsUnchanged, LogHas, disk_of, end_of, fresh_end_of, fresh_of, has_failed, number_of, root_of, taken_of};

    // Returns whether there is a fresh segment, and a frame of that payload fits the last one.
    fn has_fresh_room(&self, bytes: u64) -> bool
        ensures { result ≡ fits_fresh (fresh_of self.now) (fresh_end_of self.now) bytes }
    {
        if self.fresh.is_empty() {
            return false;
        }
        let last = segment(last_id(self.fresh.as_slice()));
        fits(last, self.fresh_end, bytes)
    }

    // Appends a frame that fits to the last fresh segment.
    fn put_fresh(&mut self, frame: &StagedFrame) -> Result<(), LogFault>
        requires serves { has_failed self.old ≡ false }
        requires some { 1 ≤ length (fresh_of self.old) }
        requires counted { 1 ≤ frame.now.0 }
        requires fits { next_gate (fresh_end_of self.old) (length frame.now.1) < SEGMENT_SECTORS }

        ensures fresh { (sealed : List Filled) (id : ℕ) (frames : Frames) →
            HasFresh D.is_honest D.history self.old (sealed ++ (id, frames) ∷ []) → OnOk result
            (HasFresh D.is_honest D.history self.new (sealed ++ (id, frames ++ frame.now ∷ []) ∷ [])) }
        ensures stored { (has : Content) → LogHas D.is_honest D.history D.size self.old has →
            LogHas D.is_honest D.history D.size self.new has }
        ensures images { (has : Content) → LogHas D.is_honest D.history D.size self.old has →
            LeavesOnly (D.history (disk_of self.old)) (D.history (disk_of self.new))
            (λ image. Carries image (D.size (disk_of self.old)) (number_of self.old) (frames_of has.base) (frames_of (tails has))) }
        ensures same_fresh { fresh_of self.new ≡ fresh_of self.old }
        ensures same_root { root_of self.new ≡ root_of self.old }
        ensures same_end { end_of self.new ≡ end_of self.old }
        ensures same_number { number_of self.new ≡ number_of self.old }
        ensures calls { D.is_honest (disk_of self.old) ≡ true →
            (D.history (disk_of self.new)).now ≤ (D.history (disk_of self.old)).now + 4 }
        ensures serves { OnOk result (has_failed self.new ≡ false) }
        ensures faults { IfErr result (λ fault. fault ≡ LogFault.Device) }
        ensures failed { IfErr result (λ fault. has_failed self.new ≡ true) }
        ensures device { Counts (D.failures (disk_of self.old)) (D.failures (disk_of self.new)) (is_device_failure result) }
        ensures same_size { D.size (disk_of self.new) ≡ D.size (disk_of self.old) }
        ensures same_honesty { D.is_honest (disk_of self.new) ≡ D.is_honest (disk_of self.old) }
    {
        let id = last_id(self.fresh.as_slice());
        match append_fresh(&mut self.disk, id, self.fresh_end, frame) {
            Ok(next) => {
                self.fresh_end = next;
                Ok(())
            }
            Err(DiskFault::Device) => {
                self.has_failed = true;
                Err(LogFault::Device)
            }
        }
    }

    // Begins a fresh segment, without a frame. Room for its id is reserved.
    fn begin_fresh(&mut self, id: SegmentId) -> Result<(), LogFault>
        requires serves { has_failed self.old ≡ false }
        requires free { IsLeastFree (D.size (disk_of self.old)) (taken_of self.old) id }
        requires room { vec_len self.old.fresh + 1 ≤ vec_capacity self.old.fresh }

        ensures fresh { (fresh : List Filled) → HasFresh D.is_honest D.history self.old fresh → OnOk result
            (HasFresh D.is_honest D.history self.new (fresh ++ (id, []) ∷ [])) }
        ensures stored { (has : Content) → LogHas D.is_honest D.history D.size self.old has →
            LogHas D.is_honest D.history D.size self.new has }
        ensures images { (has : Content) → LogHas D.is_honest D.history D.size self.old has →
            LeavesOnly (D.history (disk_of self.old)) (D.history (disk_of self.new))
            (λ image. Carries image (D.size (disk_of self.old)) (number_of self.old) (frames_of has.base) (frames_of (tails has))) }
        ensures ids { OnOk result (fresh_of self.new ≡ fresh_of self.old ++ id ∷ []) }
        ensures fresh_end { OnOk result (fresh_end_of self.new ≡ 0) }
        ensures same_root { root_of self.new ≡ root_of self.old }
        ensures same_end { end_of self.new ≡ end_of self.old }
        ensures same_number { number_of self.new ≡ number_of self.old }
        ensures calls { D.is_honest (disk_of self.old) ≡ true →
            (D.history (disk_of self.new)).now ≤ (D.history (disk_of self.old)).now + 2 }
        ensures serves { OnOk result (has_failed self.new ≡ false) }
        ensures faults { IfErr result (λ fault. fault ≡ LogFault.Device) }
        ensures failed { IfErr result (λ fault. has_failed self.new ≡ true) }
        ensures device { Counts (D.failures (disk_of self.old)) (D.failures (disk_of self.new)) (is_device_failure result) }
        ensures same_size { D.size (disk_of self.new) ≡ D.size (disk_of self.old) }
        ensures same_honesty { D.is_honest (disk_of self.new) ≡ D.is_honest (disk_of self.old) }
    {
        match close_gate(&mut self.disk, first_sector(id.get())) {
            Ok(()) => {
                self.fresh.push_reserved(id);
                self.fresh_end = 0;
                Ok(())
            }
            Err(DiskFault::Device) => {
                self.has_failed = true;
                Err(LogFault::Device)
            }
        }
    }

    // Begins a fresh segment, and appends a frame to it. Allocates all before it writes.
    fn put_in_new_fresh(&mut self, frame: &StagedFrame) -> Result<(), LogFault>
        requires serves { has_failed self.old ≡ false }
        requires counted { 1 ≤ frame.now.0 }
        requires one_frame { length frame.now.1 ≤ LARGEST_PAYLOAD_BYTES }

        ensures fresh { (fresh : List Filled) → HasFresh D.is_honest D.history self.old fresh → OnOk result
            ((id : ℕ) × HasFresh D.is_honest D.history self.new (fresh ++ (id, frame.now ∷ []) ∷ [])) }
        ensures stored { (has : Content) → LogHas D.is_honest D.history D.size self.old has →
            LogHas D.is_honest D.history D.size self.new has }
        ensures images { (has : Content) → LogHas D.is_honest D.history D.size self.old has →
            LeavesOnly (D.history (disk_of self.old)) (D.history (disk_of self.new))
            (λ image. Carries image (D.size (disk_of self.old)) (number_of self.old) (frames_of has.base) (frames_of (tails has))) }
        ensures new_segment { OnOk result ((id : ℕ) × (IsLeastFree (D.size (disk_of self.old)) (taken_of self.old) id
            × (fresh_of self.new ≡ fresh_of self.old ++ id ∷ []))) }
        ensures full { IsErrOf result LogFault.Full → NoneIsFree (D.size (disk_of self.old)) (taken_of self.old) }
        ensures clear { IfErr result (λ fault. fault ≢ LogFault.Full →
            (id : ℕ) × IsLeastFree (D.size (disk_of self.old)) (taken_of self.old) id) }
        ensures unchanged { IfErr result (λ fault. fault ≢ LogFault.Device → IsUnchanged self.old self.new) }
        ensures same_root { root_of self.new ≡ root_of self.old }
        ensures same_end { end_of self.new ≡ end_of self.old }
        ensures same_number { number_of self.new ≡ number_of self.old }
        ensures calls { D.is_honest (disk_of self.old) ≡ true →
            (D.history (disk_of self.new)).now ≤ (D.history (disk_of self.old)).now + 6 }
        ensures serves { OnOk result (has_failed self.new ≡ false) }
        ensures failed { IsErrOf result LogFault.Device → has_failed self.new ≡ true }
        ensures faults { IfErr result IsWritingFault }
        ensures device { Counts (D.failures (disk_of self.old)) (D.failures (disk_of self.new)) (is_device_failure result) }
        ensures same_size { D.size (disk_of self.new) ≡ D.size (disk_of self.old) }
        ensures same_honesty { D.is_honest (disk_of self.new) ≡ D.is_honest (disk_of self.old) }
    {
        let base = self.root.base.as_slice();
        let tail = self.root.tail.as_slice();
        let Some(id) = least_free(self.disk.sectors(), base, tail, self.fresh.as_slice()) else {
            return Err(LogFault::Full);
        };
        self.fresh.reserve(1)?;
        self.begin_fresh(id)?;
        self.put_fresh(frame)?;
        Ok(())
    }

    /// Appends a sealed frame to the last fresh segment, without a copy, in four calls of the device; if it does not fit,
    /// to the free segment of the least id, which is fresh from then on and takes two calls more. Content and root stay,
    /// in every crash image since the start. `Full` is reported only where a segment is needed and none is free.
    pub fn fresh_append(&mut self, frame: &StagedFrame) -> Result<(), LogFault>
        requires counted { 1 ≤ frame.now.0 }
        requires one_frame { length frame.now.1 ≤ LARGEST_PAYLOAD_BYTES }

        ensures fresh { (fresh : List Filled) → HasFresh D.is_honest D.history self.old fresh → OnOk result ((new : List Filled) ×
            (IsFreshAppended (fits_fresh (fresh_of self.old) (fresh_end_of self.old) (length frame.now.1)) fresh frame.now.0 frame.now.1 new
            × (frames_of new ≡ frames_of fresh ++ frame.now ∷ []) × HasFresh D.is_honest D.history self.new new)) }
        ensures stored { (has : Content) → LogHas D.is_honest D.history D.size self.old has →
            LogHas D.is_honest D.history D.size self.new has }
        ensures images { (has : Content) → LogHas D.is_honest D.history D.size self.old has →
            LeavesOnly (D.history (disk_of self.old)) (D.history (disk_of self.new))
            (λ image. Carries image (D.size (disk_of self.old)) (number_of self.old) (frames_of has.base) (frames_of (tails has))) }
        ensures same_segment { OnOk result (fits_fresh (fresh_of self.old) (fresh_end_of self.old) (length frame.now.1) ≡ true →
            fresh_of self.new ≡ fresh_of self.old) }
        ensures new_segment { OnOk result (fits_fresh (fresh_of self.old) (fresh_end_of self.old) (length frame.now.1) ≡ false →
            (id : ℕ) × (IsLeastFree (D.size (disk_of self.old)) (taken_of self.old) id × (fresh_of self.new ≡ fresh_of self.old ++ id ∷ []))) }
        ensures full { IsErrOf result LogFault.Full →
            (fits_fresh (fresh_of self.old) (fresh_end_of self.old) (length frame.now.1) ≡ false)
            × NoneIsFree (D.size (disk_of self.old)) (taken_of self.old) }
        ensures clear { IfErr result (λ fault. fault ≢ LogFault.Full → fault ≢ LogFault.Failed →
            fits_fresh (fresh_of self.old) (fresh_end_of self.old) (length frame.now.1) ≡ false →
            (id : ℕ) × IsLeastFree (D.size (disk_of self.old)) (taken_of self.old) id) }
        ensures unchanged { IfErr result (λ fault. fault ≢ LogFault.Device → IsUnchanged self.old self.new) }
        ensures same_root { root_of self.new ≡ root_of self.old }
        ensures same_end { end_of self.new ≡ end_of self.old }
        ensures same_number { number_of self.new ≡ number_of self.old }
        ensures calls { D.is_honest (disk_of self.old) ≡ true →
            (D.history (disk_of self.new)).now ≤ (D.history (disk_of self.old)).now + 6 }
        ensures serves { OnOk result (has_failed self.new ≡ false) }
        ensures failed { IsErrOf result LogFault.Device → has_failed self.new ≡ true }
        ensures refused { has_failed self.old ≡ true → IsErrOf result LogFault.Failed }
        ensures faults { IfErr result (λ fault. IsWritingFault fault ⊎ ((fault ≡ LogFault.Failed) × (has_failed self.old ≡ true))) }
        ensures device { Counts (D.failures (disk_of self.old)) (D.failures (disk_of self.new)) (is_device_failure result) }
        ensures same_size { D.size (disk_of self.new) ≡ D.size (disk_of self.old) }
        ensures same_honesty { D.is_honest (disk_of self.new) ≡ D.is_honest (disk_of self.old) }
    {
        if self.has_failed {
            return Err(LogFault::Failed);
        }
        if !self.has_fresh_room(frame.payload().len() as u64) {
            self.put_in_new_fresh(frame)?;
            return Ok(());
        }
        self.put_fresh(frame)?;
        Ok(())
    }

    /// Frees the fresh segments, without a call of the device. Nothing else changes.
    pub fn drop_fresh(&mut self)
        ensures fresh { fresh_of self.new ≡ [] }
        ensures holds { D.is_honest (disk_of self.old) ≡ true → HasFresh D.is_honest D.history self.new [] }
        ensures stored { (has : Content) → LogHas D.is_honest D.history D.size self.old has →
            LogHas D.is_honest D.history D.size self.new has }
        ensures disk { disk_of self.new ≡ disk_of self.old }
        ensures same_root { root_of self.new ≡ root_of self.old }
        ensures same_end { end_of self.new ≡ end_of self.old }
        ensures same_number { number_of self.new ≡ number_of self.old }
        ensures same_failed { has_failed self.new ≡ has_failed self.old }
    {
        self.fresh.clear();
        self.fresh_end = 0;
    }
}
