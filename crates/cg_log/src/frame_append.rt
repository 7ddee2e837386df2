//! One more frame in the last tail.
ghost use Rattle.std.specs.Prelude.{◌≡◌, ◌⊎◌, ℕ, ◌+◌, ◌≤◌, ◌<◌, [], ◌∷◌, ◌++◌, List, Bool, ◌≢◌, true, false, length, IfErr, IfOk, OnErr, OnOk, IsErrOf, MatchResult, is_err};
ghost use Rattle.cg_disk.specs.Disk.{Counts, LeavesOnly, TakesCalls, present};
ghost use Rattle.cg_frame.specs.Frames.{next_gate};
ghost use Rattle.cg_frame.specs.declared.segment.TheConstants.{LARGEST_PAYLOAD_BYTES};
ghost use Rattle.cg_gate.specs.Layout.{first_sector};
ghost use Rattle.cg_gate.specs.declared.layout.TheConstants.{SEGMENT_SECTORS};
ghost use Rattle.cg_root.specs.Roots.{IsLawful};
ghost use Rattle.cg_log.specs.Carried.{AllCarry, CarriesBeforeOrAfter, Content, HoldsContent, LogAt, appended, rolled, tails};
ghost use Rattle.cg_log.specs.Faults.{is_device_failure, IsWritingFault};
ghost use Rattle.cg_log.specs.Fresh.{KeepsFresh};
ghost use Rattle.cg_log.specs.Rolled.{IsAppended, IsFullFor, IsNextTail};
ghost use Rattle.cg_log.specs.Room.{HasNext, calls_for, fits_tail, has_room, room_after};
ghost use Rattle.cg_log.specs.Free.{is_among};
ghost use Rattle.cg_log.specs.Segments.{Filled, frames_of};
ghost use Rattle.cg_log.specs.declared.numbers.TheConstants.{COMMAND_NUMBER_MAX};
ghost use Rattle.cg_log.specs.Ready.{AllClosed, IsReady, last_id};

use crate::log::Log;
use crate::roll::next_tail;
use crate::segment_layout::{last_id, segment};
use crate::{COMMAND_NUMBER_MAX, LogFault};
use cg_disk::{DiskFault, SectorDisk};
use cg_frame::{StagedFrame, append_staged, fits};
use cg_root::Root;

/// Appends a frame that fits to the last tail. Returns the position of the gate after it. A crash at any moment leaves
/// the content as it was, with the frame or without.
pub(crate) fn append_last<D: SectorDisk>(
    disk: &mut D,
    root: &Root,
    end: u64,
    frame: &StagedFrame,
) -> Result<u64, DiskFault>
    requires lawful { IsLawful (D.size disk.old) root.now }
    requires counted { 1 ≤ frame.now.0 }
    requires fits { next_gate end (length frame.now.1) < SEGMENT_SECTORS }
    requires closed { D.is_honest disk.old ≡ true →
        AllClosed (present (D.history disk.old)) (first_sector (last_id root.now.tail) + end) }

    ensures next { IfOk result (λ next. next ≡ next_gate end (length frame.now.1)) }
    ensures clock { D.is_honest disk.old ≡ true → TakesCalls 4 (D.history disk.old) (D.history disk.new) (is_err result) }
    ensures cause { Counts (D.failures disk.old) (D.failures disk.new) (is_err result) }
    ensures same_size { D.size disk.new ≡ D.size disk.old }
    ensures same_honesty { D.is_honest disk.new ≡ D.is_honest disk.old }
    ensures images { D.is_honest disk.old ≡ true → (has : Content) (number : ℕ) →
        HoldsContent (present (D.history disk.old)) (D.size disk.old) root.now end number has →
        LeavesOnly (D.history disk.old) (D.history disk.new) (λ image. LogAt image (D.size disk.old) root.now has
        ⊎ LogAt image (D.size disk.old) root.now (appended has frame.now.0 frame.now.1)) }
    ensures stored { D.is_honest disk.old ≡ true → IfOk result (λ next. (has : Content) (number : ℕ) →
        HoldsContent (present (D.history disk.old)) (D.size disk.old) root.now end number has →
        HoldsContent (present (D.history disk.new)) (D.size disk.old) root.now next (number + frame.now.0)
        (appended has frame.now.0 frame.now.1)) }
    ensures fresh { D.is_honest disk.old ≡ true → (ids : List ℕ) → is_among (last_id root.now.tail) ids ≡ false →
        KeepsFresh (present (D.history disk.old)) (present (D.history disk.new)) ids }
    ensures ready { D.is_honest disk.old ≡ true → IfOk result (λ next. (is_other_open : Bool) →
        IsReady (present (D.history disk.old)) (D.size disk.old) root.now end is_other_open →
        IsReady (present (D.history disk.new)) (D.size disk.old) root.now next is_other_open) }
{
    let last = segment(last_id(root.tail.as_slice()));
    let next = append_staged(disk, last, end, frame)?;
    Ok(next)
}

impl<D: SectorDisk> Log<D> {
    ghost use Rattle.cg_log.specs.Log.{HasFresh, IsUnchanged, LogHas, disk_of, end_of, fresh_end_of, fresh_of, has_failed, number_of, room_of, root_of, taken_of};

    // Appends a frame that fits to the last tail.
    fn put(&mut self, frame: &StagedFrame) -> Result<(), LogFault>
        requires serves { has_failed self.old ≡ false }
        requires counted { 1 ≤ frame.now.0 }
        requires few { number_of self.old + frame.now.0 ≤ COMMAND_NUMBER_MAX }
        requires fits { next_gate (end_of self.old) (length frame.now.1) < SEGMENT_SECTORS }

        ensures stored { (has : Content) → LogHas D.is_honest D.history D.size self.old has → OnOk result
            (LogHas D.is_honest D.history D.size self.new (appended has frame.now.0 frame.now.1)) }
        ensures images { (has : Content) → LogHas D.is_honest D.history D.size self.old has →
            LeavesOnly (D.history (disk_of self.old)) (D.history (disk_of self.new))
            (CarriesBeforeOrAfter (D.size (disk_of self.old)) (number_of self.old) (frames_of has.base) (frames_of (tails has)) frame.now.0 frame.now.1) }
        ensures number { OnOk result (number_of self.new ≡ number_of self.old + frame.now.0) }
        ensures same_number { OnErr result (number_of self.new ≡ number_of self.old) }
        ensures end { OnOk result (end_of self.new ≡ next_gate (end_of self.old) (length frame.now.1)) }
        ensures same_root { root_of self.new ≡ root_of self.old }
        ensures fresh { (fresh : List Filled) → HasFresh D.is_honest D.history self.old fresh →
            HasFresh D.is_honest D.history self.new fresh }
        ensures same_fresh { fresh_of self.new ≡ fresh_of self.old }
        ensures same_fresh_end { fresh_end_of self.new ≡ fresh_end_of self.old }
        ensures clock { D.is_honest (disk_of self.old) ≡ true →
            TakesCalls 4 (D.history (disk_of self.old)) (D.history (disk_of self.new)) (is_err result) }
        ensures serves { OnOk result (has_failed self.new ≡ false) }
        ensures faults { IfErr result (λ fault. fault ≡ LogFault.Device) }
        ensures failed { IfErr result (λ fault. has_failed self.new ≡ true) }
        ensures device { Counts (D.failures (disk_of self.old)) (D.failures (disk_of self.new)) (is_device_failure result) }
        ensures same_size { D.size (disk_of self.new) ≡ D.size (disk_of self.old) }
        ensures same_honesty { D.is_honest (disk_of self.new) ≡ D.is_honest (disk_of self.old) }
    {
        match append_last(&mut self.disk, &self.root, self.end, frame) {
            Ok(next) => {
                self.end = next;
                self.number += frame.count();
                Ok(())
            }
            Err(DiskFault::Device) => {
                self.has_failed = true;
                Err(LogFault::Device)
            }
        }
    }

    // Adds a tail and appends a frame to it. Allocates the tail before it writes.
    fn put_in_new_tail(&mut self, frame: &StagedFrame) -> Result<(), LogFault>
        requires serves { has_failed self.old ≡ false }
        requires counted { 1 ≤ frame.now.0 }
        requires one_frame { length frame.now.1 ≤ LARGEST_PAYLOAD_BYTES }
        requires few { number_of self.old + frame.now.0 ≤ COMMAND_NUMBER_MAX }

        ensures stored { (has : Content) → LogHas D.is_honest D.history D.size self.old has → OnOk result
            ((id : ℕ) × LogHas D.is_honest D.history D.size self.new (appended (rolled has id) frame.now.0 frame.now.1)) }
        ensures images { (has : Content) → LogHas D.is_honest D.history D.size self.old has →
            LeavesOnly (D.history (disk_of self.old)) (D.history (disk_of self.new))
            (CarriesBeforeOrAfter (D.size (disk_of self.old)) (number_of self.old) (frames_of has.base) (frames_of (tails has)) frame.now.0 frame.now.1) }
        ensures number { OnOk result (number_of self.new ≡ number_of self.old + frame.now.0) }
        ensures same_number { OnErr result (number_of self.new ≡ number_of self.old) }
        ensures serves { OnOk result (has_failed self.new ≡ false) }
        ensures tail { OnOk result ((id : ℕ) × IsNextTail (D.size (disk_of self.old)) (taken_of self.old) (root_of self.old) id (root_of self.new)) }
        ensures end { OnOk result (end_of self.new ≡ next_gate 0 (length frame.now.1)) }
        ensures fresh { (fresh : List Filled) → HasFresh D.is_honest D.history self.old fresh →
            HasFresh D.is_honest D.history self.new fresh }
        ensures same_fresh { fresh_of self.new ≡ fresh_of self.old }
        ensures same_tails { (id : ℕ) → is_among id (root_of self.old).tail ≡ true → is_among id (root_of self.new).tail ≡ true }
        ensures calls { D.is_honest (disk_of self.old) ≡ true →
            (D.history (disk_of self.new)).now ≤ (D.history (disk_of self.old)).now + 12 }
        ensures full { IsErrOf result LogFault.Full → IsFullFor (D.size (disk_of self.old)) (taken_of self.old) (root_of self.old) }
        ensures clear { MatchResult result
            (λ _. HasNext (D.size (disk_of self.old)) (taken_of self.old) (root_of self.old))
            (λ fault. fault ≢ LogFault.Full → HasNext (D.size (disk_of self.old)) (taken_of self.old) (root_of self.old)) }
        ensures unchanged { IfErr result (λ fault. fault ≢ LogFault.Device → IsUnchanged self.old self.new) }
        ensures failed { IsErrOf result LogFault.Device → has_failed self.new ≡ true }
        ensures faults { IfErr result IsWritingFault }
        ensures device { Counts (D.failures (disk_of self.old)) (D.failures (disk_of self.new)) (is_device_failure result) }
        ensures same_size { D.size (disk_of self.new) ≡ D.size (disk_of self.old) }
        ensures same_honesty { D.is_honest (disk_of self.new) ≡ D.is_honest (disk_of self.old) }
    {
        let tail = next_tail(
            self.alloc,
            self.disk.sectors(),
            &self.root,
            self.fresh.as_slice(),
        )?;
        let _ = self.add_tail(tail)?;
        self.put(frame)?;
        Ok(())
    }

    /// Appends a sealed frame to the last tail, in four calls of the device, without a copy. If it does not fit there,
    /// begins a new tail, in up to eight calls more. Every crash image since the start carries the frames before, or
    /// these and the new one; after `Ok` the latter. Reports `Full` exactly where the number of a command would be too
    /// great, and where a new tail is needed and no segment is free or the epoch is the last. After `Device` every call
    /// reports `Failed`.
    pub fn append(&mut self, frame: &StagedFrame) -> Result<(), LogFault>
        requires counted { 1 ≤ frame.now.0 }
        requires one_frame { length frame.now.1 ≤ LARGEST_PAYLOAD_BYTES }

        ensures stored { (has : Content) → LogHas D.is_honest D.history D.size self.old has → OnOk result ((new : Content) ×
            (IsAppended has frame.now.0 frame.now.1 new × LogHas D.is_honest D.history D.size self.new new)) }
        ensures images { (has : Content) → LogHas D.is_honest D.history D.size self.old has →
            LeavesOnly (D.history (disk_of self.old)) (D.history (disk_of self.new))
            (CarriesBeforeOrAfter (D.size (disk_of self.old)) (number_of self.old) (frames_of has.base) (frames_of (tails has)) frame.now.0 frame.now.1) }
        ensures after { (has : Content) → LogHas D.is_honest D.history D.size self.old has → OnOk result
            (AllCarry (present (D.history (disk_of self.new))) (D.size (disk_of self.old)) (number_of self.old + frame.now.0)
            (frames_of has.base) (frames_of (tails has) ++ frame.now ∷ [])) }
        ensures number { OnOk result (number_of self.new ≡ number_of self.old + frame.now.0) }
        ensures same_number { OnErr result (number_of self.new ≡ number_of self.old) }
        ensures room { OnOk result (room_of D.size self.new ≡ room_after (room_of D.size self.old) (length frame.now.1)) }
        ensures full { IsErrOf result LogFault.Full → (COMMAND_NUMBER_MAX < number_of self.old + frame.now.0)
            ⊎ (has_room (room_of D.size self.old) (length frame.now.1) ≡ false) }
        ensures few { MatchResult result
            (λ _. number_of self.old + frame.now.0 ≤ COMMAND_NUMBER_MAX)
            (λ fault. fault ≢ LogFault.Failed → fault ≢ LogFault.Full → number_of self.old + frame.now.0 ≤ COMMAND_NUMBER_MAX) }
        ensures clear { MatchResult result
            (λ _. has_room (room_of D.size self.old) (length frame.now.1) ≡ true)
            (λ fault. fault ≢ LogFault.Failed → fault ≢ LogFault.Full →
            has_room (room_of D.size self.old) (length frame.now.1) ≡ true) }
        // A frame that does not fit the last tail begins a new one, in the free segment of the least id.
        ensures same_root { fits_tail (room_of D.size self.old) (length frame.now.1) ≡ true → root_of self.new ≡ root_of self.old }
        ensures next { fits_tail (room_of D.size self.old) (length frame.now.1) ≡ false → OnOk result
            ((id : ℕ) × IsNextTail (D.size (disk_of self.old)) (taken_of self.old) (root_of self.old) id (root_of self.new)) }
        // Where the frame fits the last tail, it takes four calls of the device; a new tail takes up to eight more.
        ensures clock { D.is_honest (disk_of self.old) ≡ true → fits_tail (room_of D.size self.old) (length frame.now.1) ≡ true →
            TakesCalls 4 (D.history (disk_of self.old)) (D.history (disk_of self.new)) (is_err result) }
        ensures calls { D.is_honest (disk_of self.old) ≡ true → (D.history (disk_of self.new)).now ≤
            (D.history (disk_of self.old)).now + calls_for (room_of D.size self.old) (length frame.now.1) }
        // Fresh segments stay, and so does every tail.
        ensures fresh { (fresh : List Filled) → HasFresh D.is_honest D.history self.old fresh → OnOk result
            (HasFresh D.is_honest D.history self.new fresh) }
        ensures same_fresh { fresh_of self.new ≡ fresh_of self.old }
        ensures same_tails { (id : ℕ) → is_among id (root_of self.old).tail ≡ true → is_among id (root_of self.new).tail ≡ true }
        ensures unchanged { IfErr result (λ fault. fault ≢ LogFault.Device → IsUnchanged self.old self.new) }
        ensures serves { OnOk result (has_failed self.new ≡ false) }
        ensures failed { IsErrOf result LogFault.Device → has_failed self.new ≡ true }
        ensures refused { has_failed self.old ≡ true → IsErrOf result LogFault.Failed }
        ensures faults { IfErr result (λ fault. IsWritingFault fault ⊎ ((fault ≡ LogFault.Failed) × (has_failed self.old ≡ true))) }
        ensures device { Counts (D.failures (disk_of self.old)) (D.failures (disk_of self.new)) (is_device_failure result) }
        ensures same_size { D.size (disk_of self.new) ≡ D.size (disk_of self.old) }
        ensures same_honesty { D.is_honest (disk_of self.new) ≡ D.is_honest (disk_of self.old) }
    {
        if self.has_failed {
            return Err(LogFault::Failed);
        }
        if frame.count() > COMMAND_NUMBER_MAX - self.number {
            return Err(LogFault::Full);
        }
        let last = segment(last_id(self.root.tail.as_slice()));
        if !fits(last, self.end, frame.payload().len() as u64) {
            self.put_in_new_tail(frame)?;
            return Ok(());
        }
        self.put(frame)?;
        Ok(())
    }
}
