//! The calls of a compaction. Each does the work of one frame or of one root, and keeps the number and the state of the
//! store in every crash image. Appends may come between any two of them. A compaction takes segments that they could
//! use, and changes nothing else for them.
ghost use Rattle.std.specs.Prelude.{◌≡◌, ◌≢◌, ◌⊎◌, ℕ, ◌+◌, ◌-◌, ◌<◌, ◌++◌, true, false, None, Some, IfErr, IfOk, IfSome, OnOk, IsErrOf, MatchResult, Ok};
ghost use Rattle.cg_disk.specs.Disk.{Counts, LeavesOnly, Stays};
ghost use Rattle.cg_fold.specs.Durable.{State};
ghost use Rattle.cg_log.specs.Carried.{tails};
ghost use Rattle.cg_log.specs.Free.{free_count_of};
ghost use Rattle.cg_log.specs.Room.{room_at};
ghost use Rattle.cg_log.specs.Segments.{frames_of};
ghost use Rattle.cg_log.specs.Switched.{IsSwitchedRoot};
ghost use Rattle.cg_root.specs.Roots.{root_ids};
ghost use Rattle.cg_store.specs.Carried.{Carries};
ghost use Rattle.cg_store.specs.Compacting.{IsFrameRead, IsWritten, NeedsSegment};
ghost use Rattle.cg_store.specs.Phases.{IsCompactFaultOf, IsEnd, abort_result, begun_room, can_begin, is_compact_failure, phase_after, phase_refusal};

use crate::compaction::Compaction;
use crate::compaction_work::{read, start, switch, write};
use crate::fault::CompactFault;
use crate::phase::{Phase, Progress};
use crate::store::Store;
use cg_disk::SectorDisk;

impl<D: SectorDisk> Store<D> {
    ghost use Rattle.cg_store.specs.Store.{IsUnchanged, StandsAt, cut_of, disk_of, end_of, fresh_end_of, fresh_of, front_of, has_failed, phase_of, room_of, root_of, sectors_of, unwritten_of};

    /// Returns what the compaction does next. No allocation, no disk call.
    pub fn phase(&self) -> Phase
        ensures { result ≡ phase_of self.now }
    {
        match &self.compaction {
            Compaction::Idle => Phase::Idle,
            Compaction::Reading(_) => Phase::Reading,
            Compaction::Writing(_) => Phase::Writing,
            Compaction::Ready(_) => Phase::Ready,
        }
    }

    // Refuses a call outside its phase, and every call once the disk failed.
    fn check_phase(&self, wanted: Phase) -> Result<(), CompactFault>
        ensures told { MatchResult result
            (λ _. phase_refusal (has_failed self.now) wanted (phase_of self.now) ≡ None)
            (λ fault. phase_refusal (has_failed self.now) wanted (phase_of self.now) ≡ Some fault) }
        ensures serves { OnOk result (has_failed self.now ≡ false) }
        ensures phase { OnOk result (phase_of self.now ≡ wanted) }
        ensures faults { IfErr result (λ fault. (fault ≡ CompactFault.Failed) ⊎ (fault ≡ CompactFault.WrongPhase)) }
    {
        if self.log.has_failed() {
            return Err(CompactFault::Failed);
        }
        if self.phase() != wanted {
            return Err(CompactFault::WrongPhase);
        }
        Ok(())
    }

    /// Begins a compaction and returns `Done`. The cut is the last tail if it has no frame, otherwise a new tail. Reports
    /// `NoRoom` only if a new tail is needed and no segment is free or the epoch is the last; this comes before any
    /// allocation.
    pub fn compact_start(&mut self) -> Result<Progress, CompactFault>
        ensures stands { (n : ℕ) (state : State) → StandsAt D.is_honest D.history self.old n state → MatchResult result
            (λ _. StandsAt D.is_honest D.history self.new n state)
            (λ fault. fault ≢ CompactFault.Device → StandsAt D.is_honest D.history self.new n state) }
        ensures images { (n : ℕ) (state : State) → StandsAt D.is_honest D.history self.old n state
            → LeavesOnly (D.history (disk_of self.old)) (D.history (disk_of self.new)) (λ image. Carries image (sectors_of self.old) n state) }
        // The phase, the fault, and when it is reported.
        ensures phase { phase_of self.new ≡ phase_after Phase.Reading (phase_of self.old) result }
        ensures told { MatchResult result
            (λ _. phase_refusal (has_failed self.old) Phase.Idle (phase_of self.old) ≡ None)
            (λ fault. IsCompactFaultOf (phase_refusal (has_failed self.old) Phase.Idle (phase_of self.old)) fault) }
        // All frames are before the cut, and are left to read.
        ensures begun { (n : ℕ) (state : State) → StandsAt D.is_honest D.history self.old n state → OnOk result (
            (now : StandsAt D.is_honest D.history self.new n state) × (now.left ≡ frames_of now.has.base ++ frames_of (tails now.has))) }
        ensures done { IfOk result (λ progress. progress ≡ Progress.Done) }
        ensures no_room { IsErrOf result CompactFault.NoRoom → can_begin (room_of self.old) ≡ false }
        ensures clear { MatchResult result
            (λ _. can_begin (room_of self.old) ≡ true)
            (λ fault. IsEnd fault → fault ≢ CompactFault.NoRoom → can_begin (room_of self.old) ≡ true) }
        ensures room { OnOk result (room_of self.new ≡ begun_room (room_of self.old)) }
        ensures room_left { IfErr result (λ fault. fault ≢ CompactFault.Device → room_of self.new ≡ room_of self.old) }
        // Out of memory, and no room, come before the first call of the device.
        ensures disk { IfErr result (λ fault. fault ≢ CompactFault.Device → disk_of self.new ≡ disk_of self.old) }
        ensures unchanged { IfErr result (λ fault. ¬ IsEnd fault → IsUnchanged self.old self.new) }
        ensures same_front { front_of self.new ≡ front_of self.old }
        ensures same_root { IfErr result (λ fault. fault ≢ CompactFault.Device → root_of self.new ≡ root_of self.old) }
        ensures serves { MatchResult result (λ _. has_failed self.new ≡ false) (λ fault. fault ≢ CompactFault.Device → has_failed self.new ≡ has_failed self.old) }
        ensures failed { IsErrOf result CompactFault.Device → has_failed self.new ≡ true }
        ensures device { Counts (D.failures (disk_of self.old)) (D.failures (disk_of self.new)) (is_compact_failure result) }
        ensures same_sectors { sectors_of self.new ≡ sectors_of self.old }
        ensures same_size { D.size (disk_of self.new) ≡ D.size (disk_of self.old) }
        ensures same_honesty { D.is_honest (disk_of self.new) ≡ D.is_honest (disk_of self.old) }
    {
        self.check_phase(Phase::Idle)?;
        start(self.alloc, &mut self.log, &mut self.compaction)?;
        Ok(Progress::Done)
    }

    /// Applies the next frame before the cut to the folded state and returns `More`. Returns `Done` if no frame is left; the
    /// writing begins then. Reports `NoRoom` only if a disk that is not honest gives back a bad frame or record.
    pub fn compact_read(&mut self) -> Result<Progress, CompactFault>
        ensures stands { (n : ℕ) (state : State) → StandsAt D.is_honest D.history self.old n state → MatchResult result
            (λ _. StandsAt D.is_honest D.history self.new n state)
            (λ fault. fault ≢ CompactFault.Device → StandsAt D.is_honest D.history self.new n state) }
        ensures images { (n : ℕ) (state : State) → StandsAt D.is_honest D.history self.old n state
            → LeavesOnly (D.history (disk_of self.old)) (D.history (disk_of self.new)) (λ image. Carries image (sectors_of self.old) n state) }
        // The phase, the fault, and when it is reported.
        ensures phase { phase_of self.new ≡ phase_after Phase.Writing (phase_of self.old) result }
        ensures told { MatchResult result
            (λ _. phase_refusal (has_failed self.old) Phase.Reading (phase_of self.old) ≡ None)
            (λ fault. IsCompactFaultOf (phase_refusal (has_failed self.old) Phase.Reading (phase_of self.old)) fault) }
        ensures read { (n : ℕ) (state : State) → (was : StandsAt D.is_honest D.history self.old n state) → IfOk result (λ progress.
            (now : StandsAt D.is_honest D.history self.new n state) × IsFrameRead progress was.left now.left) }
        ensures honest { (n : ℕ) (state : State) → StandsAt D.is_honest D.history self.old n state → ¬ IsErrOf result CompactFault.NoRoom }
        ensures room { IfErr result (λ fault. fault ≢ CompactFault.Device → room_of self.new ≡ room_of self.old) }
        ensures same_room { OnOk result (room_of self.new ≡ room_of self.old) }
        // Nothing is written.
        ensures time { D.is_honest (disk_of self.old) ≡ true → Stays (D.history (disk_of self.old)) (D.history (disk_of self.new)) }
        ensures unchanged { IfErr result (λ fault. ¬ IsEnd fault → IsUnchanged self.old self.new) }
        ensures same_front { front_of self.new ≡ front_of self.old }
        ensures same_root { root_of self.new ≡ root_of self.old }
        ensures same_end { end_of self.new ≡ end_of self.old }
        ensures serves { MatchResult result (λ _. has_failed self.new ≡ false) (λ fault. fault ≢ CompactFault.Device → has_failed self.new ≡ has_failed self.old) }
        ensures failed { IsErrOf result CompactFault.Device → has_failed self.new ≡ true }
        ensures device { Counts (D.failures (disk_of self.old)) (D.failures (disk_of self.new)) (is_compact_failure result) }
        ensures same_sectors { sectors_of self.new ≡ sectors_of self.old }
        ensures same_size { D.size (disk_of self.new) ≡ D.size (disk_of self.old) }
        ensures same_honesty { D.is_honest (disk_of self.new) ≡ D.is_honest (disk_of self.old) }
    {
        self.check_phase(Phase::Reading)?;
        let progress = read(self.alloc, &mut self.log, &mut self.compaction)?;
        Ok(progress)
    }

    /// Writes the next frame of the snapshot, with as many commands as fit, into fresh segments and returns `More`. Returns
    /// `Done` if no command is left; the switch comes next. Reports `NoRoom` only if the frame needs a segment and none is
    /// free.
    pub fn compact_write(&mut self) -> Result<Progress, CompactFault>
        ensures stands { (n : ℕ) (state : State) → StandsAt D.is_honest D.history self.old n state → MatchResult result
            (λ _. StandsAt D.is_honest D.history self.new n state)
            (λ fault. fault ≢ CompactFault.Device → StandsAt D.is_honest D.history self.new n state) }
        ensures images { (n : ℕ) (state : State) → StandsAt D.is_honest D.history self.old n state
            → LeavesOnly (D.history (disk_of self.old)) (D.history (disk_of self.new)) (λ image. Carries image (sectors_of self.old) n state) }
        // The phase, the fault, and when it is reported.
        ensures phase { phase_of self.new ≡ phase_after Phase.Ready (phase_of self.old) result }
        ensures told { MatchResult result
            (λ _. phase_refusal (has_failed self.old) Phase.Writing (phase_of self.old) ≡ None)
            (λ fault. IsCompactFaultOf (phase_refusal (has_failed self.old) Phase.Writing (phase_of self.old)) fault) }
        ensures written { IfOk result (λ progress. IsWritten progress (unwritten_of self.old) (unwritten_of self.new)) }
        ensures no_room { IsErrOf result CompactFault.NoRoom → (room_of self.old).segments ≡ 0 }
        ensures needed { IsErrOf result CompactFault.NoRoom → NeedsSegment (fresh_of self.old) (fresh_end_of self.old) (unwritten_of self.old) }
        ensures none_taken { IfOk result (λ progress. progress ≡ Progress.Done → fresh_of self.new ≡ fresh_of self.old) }
        ensures same_tail { MatchResult result
            (λ _. ((room_of self.new).sectors ≡ (room_of self.old).sectors) × ((room_of self.new).roots ≡ (room_of self.old).roots))
            (λ fault. fault ≢ CompactFault.Device → ((room_of self.new).sectors ≡ (room_of self.old).sectors) × ((room_of self.new).roots ≡ (room_of self.old).roots)) }
        // At most one segment is taken.
        ensures room { OnOk result (((room_of self.new).segments ≡ (room_of self.old).segments) ⊎ ((room_of self.new).segments + 1 ≡ (room_of self.old).segments)) }
        // Out of memory, and no room, come before the first call of the device.
        ensures disk { IfErr result (λ fault. fault ≢ CompactFault.Device → disk_of self.new ≡ disk_of self.old) }
        ensures unchanged { IfErr result (λ fault. ¬ IsEnd fault → IsUnchanged self.old self.new) }
        ensures same_front { front_of self.new ≡ front_of self.old }
        ensures same_root { root_of self.new ≡ root_of self.old }
        ensures same_end { end_of self.new ≡ end_of self.old }
        ensures serves { MatchResult result (λ _. has_failed self.new ≡ false) (λ fault. fault ≢ CompactFault.Device → has_failed self.new ≡ has_failed self.old) }
        ensures failed { IsErrOf result CompactFault.Device → has_failed self.new ≡ true }
        ensures device { Counts (D.failures (disk_of self.old)) (D.failures (disk_of self.new)) (is_compact_failure result) }
        ensures same_sectors { sectors_of self.new ≡ sectors_of self.old }
        ensures same_size { D.size (disk_of self.new) ≡ D.size (disk_of self.old) }
        ensures same_honesty { D.is_honest (disk_of self.new) ≡ D.is_honest (disk_of self.old) }
    {
        self.check_phase(Phase::Writing)?;
        let progress = write(&mut self.log, &mut self.compaction)?;
        Ok(progress)
    }

    /// Publishes a root that names the segments of the snapshot's frames and the tails from the cut on, and returns `Done`.
    /// Every other segment is free then. Reports `NoRoom` exactly if the epoch is the last.
    pub fn compact_switch(&mut self) -> Result<Progress, CompactFault>
        ensures stands { (n : ℕ) (state : State) → StandsAt D.is_honest D.history self.old n state → MatchResult result
            (λ _. StandsAt D.is_honest D.history self.new n state)
            (λ fault. fault ≢ CompactFault.Device → StandsAt D.is_honest D.history self.new n state) }
        ensures images { (n : ℕ) (state : State) → StandsAt D.is_honest D.history self.old n state
            → LeavesOnly (D.history (disk_of self.old)) (D.history (disk_of self.new)) (λ image. Carries image (sectors_of self.old) n state) }
        // The phase, the fault, and when it is reported.
        ensures phase { phase_of self.new ≡ phase_after Phase.Idle (phase_of self.old) result }
        ensures told { MatchResult result
            (λ _. phase_refusal (has_failed self.old) Phase.Ready (phase_of self.old) ≡ None)
            (λ fault. IsCompactFaultOf (phase_refusal (has_failed self.old) Phase.Ready (phase_of self.old)) fault) }
        ensures root { OnOk result (IfSome (cut_of self.old) (λ cut. IsSwitchedRoot (root_of self.old) (fresh_of self.old) cut.id cut.number (root_of self.new))) }
        ensures free { OnOk result ((room_of self.new).segments ≡ free_count_of (sectors_of self.new) (root_ids (root_of self.new))) }
        ensures done { IfOk result (λ progress. progress ≡ Progress.Done) }
        ensures no_room { IsErrOf result CompactFault.NoRoom → (room_of self.old).roots ≡ 0 }
        ensures clear { MatchResult result
            (λ _. 0 < (room_of self.old).roots)
            (λ fault. IsEnd fault → fault ≢ CompactFault.NoRoom → 0 < (room_of self.old).roots) }
        ensures same_root { IfErr result (λ fault. root_of self.new ≡ root_of self.old) }
        // Out of memory, and no room, come before the first call of the device.
        ensures disk { IfErr result (λ fault. fault ≢ CompactFault.Device → disk_of self.new ≡ disk_of self.old) }
        ensures unchanged { IfErr result (λ fault. ¬ IsEnd fault → IsUnchanged self.old self.new) }
        ensures same_front { front_of self.new ≡ front_of self.old }
        ensures same_end { end_of self.new ≡ end_of self.old }
        ensures serves { MatchResult result (λ _. has_failed self.new ≡ false) (λ fault. fault ≢ CompactFault.Device → has_failed self.new ≡ has_failed self.old) }
        ensures failed { IsErrOf result CompactFault.Device → has_failed self.new ≡ true }
        ensures device { Counts (D.failures (disk_of self.old)) (D.failures (disk_of self.new)) (is_compact_failure result) }
        ensures same_sectors { sectors_of self.new ≡ sectors_of self.old }
        ensures same_size { D.size (disk_of self.new) ≡ D.size (disk_of self.old) }
        ensures same_honesty { D.is_honest (disk_of self.new) ≡ D.is_honest (disk_of self.old) }
    {
        self.check_phase(Phase::Ready)?;
        switch(&mut self.log, &mut self.compaction)?;
        Ok(Progress::Done)
    }

    /// Ends the compaction, and frees its fresh segments. Returns `Done`. Reports `Failed` if the disk failed earlier,
    /// and `WrongPhase` if there is no compaction. Does not allocate, and makes no disk call.
    pub fn compact_abort(&mut self) -> Result<Progress, CompactFault>
        ensures stands { (n : ℕ) (state : State) → StandsAt D.is_honest D.history self.old n state → StandsAt D.is_honest D.history self.new n state }
        ensures told { result ≡ abort_result (has_failed self.old) (phase_of self.old) }
        ensures phase { OnOk result (phase_of self.new ≡ Phase.Idle) }
        ensures free { OnOk result (room_of self.new ≡ room_at (sectors_of self.new) (root_ids (root_of self.old)) (root_of self.old) (end_of self.old)) }
        ensures unchanged { IfErr result (λ fault. IsUnchanged self.old self.new) }
        ensures disk { disk_of self.new ≡ disk_of self.old }
        ensures same_root { root_of self.new ≡ root_of self.old }
        ensures same_front { front_of self.new ≡ front_of self.old }
        ensures same_failed { has_failed self.new ≡ has_failed self.old }
        ensures same_sectors { sectors_of self.new ≡ sectors_of self.old }
    {
        if self.log.has_failed() {
            return Err(CompactFault::Failed);
        }
        if self.phase() == Phase::Idle {
            return Err(CompactFault::WrongPhase);
        }
        self.log.drop_fresh();
        self.compaction = Compaction::Idle;
        Ok(Progress::Done)
    }
}
