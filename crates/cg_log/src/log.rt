//! The log, and its opening.
ghost use Rattle.std.specs.Prelude.{◌≡◌, [], ℕ, ◌++◌, ◌≤◌, ◌<◌, true, false, IfOk, IfErr, MatchResult};
ghost use Rattle.cg_disk.specs.Disk.{Counts, Stays, present};
ghost use Rattle.cg_gate.specs.Layout.{segment_count};
ghost use Rattle.cg_gate.specs.declared.layout.TheConstants.{SEGMENT_SECTORS};
ghost use Rattle.cg_root.specs.Roots.{AreSegments, IsLawful, root_ids};
ghost use Rattle.cg_log.specs.Carried.{Content, AllCarry, Carries};
ghost use Rattle.cg_log.specs.Faults.{Tells, is_opening_failure, IsOutOfReach};
ghost use Rattle.cg_log.specs.Free.{free_count_of};
ghost use Rattle.cg_log.specs.Fresh.{IsFreshReady};
ghost use Rattle.cg_log.specs.Ready.{IsReady};
ghost use Rattle.cg_log.specs.Segments.{Frames};
ghost use Rattle.cg_log.specs.declared.numbers.TheConstants.{COMMAND_NUMBER_MAX};
ghost use Rattle.cg_log.specs.Props.{AreSegments-prop, IsLawful-prop, fresh_ready-prop, ready-prop};

use crate::{LogFault, Opening};
use cg_disk::SectorDisk;
use cg_gate::segment_count;
use cg_root::{Root, SegmentId};
use std::alloc::Global;

/// An open log. It keeps the root in memory, and of the frames where the last one ends and how many commands they have.
#[derive(Drop)]
pub struct Log<D: SectorDisk> {
    pub(crate) alloc: Global,
    pub(crate) disk: D,
    pub(crate) root: Root,
    pub(crate) end: u64,
    pub(crate) number: u64,
    pub(crate) is_other_open: bool,
    pub(crate) has_failed: bool,
    // The segments that a compaction has written so far.
    pub(crate) fresh: Vec<SegmentId>,
    // Position of the next frame in the last of them; 0 if there is none.
    pub(crate) fresh_end: u64,
    ghost room: { 4 ≤ D.size disk },
    ghost lawful: { IsLawful (D.size disk) root } by { IsLawful-prop (D.size disk) root },
    ghost inside: { end < SEGMENT_SECTORS },
    ghost in_range: { number ≤ COMMAND_NUMBER_MAX },
    ghost ready: { has_failed ≡ false → D.is_honest disk ≡ true →
        IsReady (present (D.history disk)) (D.size disk) root end is_other_open } by { ready-prop has_failed (D.is_honest disk) (present (D.history disk)) (D.size disk) root end is_other_open },
    // No id is taken twice.
    ghost taken: { AreSegments (segment_count (D.size disk)) (root_ids root ++ fresh.items) } by { AreSegments-prop (segment_count (D.size disk)) (root_ids root ++ fresh.items) },
    ghost fresh_inside: { fresh_end < SEGMENT_SECTORS },
    ghost fresh_ready: { has_failed ≡ false → D.is_honest disk ≡ true →
        IsFreshReady (present (D.history disk)) fresh.items fresh_end } by { fresh_ready-prop has_failed (D.is_honest disk) (present (D.history disk)) fresh.items fresh_end },
}

impl<D: SectorDisk> Log<D> {
    ghost use Rattle.cg_log.specs.Log.{LogHas, disk_after, disk_of, fresh_of, has_failed, number_of, taken_of};

    /// Opens the log on a disk. Syncs the disk once, writes nothing, and reads each frame once. The faults are reported
    /// in the order `NoRoot`, `BadRoot`, `BadFrame`, where no allocation and no call of the device fails; a fault comes
    /// with the disk.
    pub fn open(alloc: Global, disk: D) -> Result<Self, (LogFault, D)>
        ensures stored { D.is_honest disk ≡ true → IfOk result (λ log.
            (has : Content) × LogHas D.is_honest D.history D.size log has) }
        // The commands and frames are those on the disk, unless an allocation or the device fails.
        ensures carried { D.is_honest disk ≡ true → (n : ℕ) (base tail : Frames) →
            Carries (present (D.history disk)).content (D.size disk) n base tail → MatchResult result
            (λ log. (number_of log ≡ n) × AllCarry (present (D.history (disk_of log))) (D.size disk) n base tail)
            (λ refused. IsOutOfReach refused.0) }
        ensures tells { D.is_honest disk ≡ true → IfErr result (λ refused.
            Tells (present (D.history disk)).content (D.size disk) refused.0) }
        ensures serves { IfOk result (λ log. has_failed log ≡ false) }
        ensures fresh { IfOk result (λ log. fresh_of log ≡ []) }
        ensures content { D.is_honest disk ≡ true → Stays (D.history disk) (D.history (disk_after result)) }
        ensures device { Counts (D.failures disk) (D.failures (disk_after result)) (is_opening_failure result) }
        ensures same_size { D.size (disk_after result) ≡ D.size disk }
        ensures same_honesty { D.is_honest (disk_after result) ≡ D.is_honest disk }
    {
        let mut opening = match Opening::begin(alloc, disk) {
            Ok(opening) => opening,
            Err(refused) => return Err(refused),
        };
        match opening.read_all() {
            Ok(()) => Ok(opening.finish()),
            Err(fault) => Err((fault, opening.into_disk())),
        }
    }

    /// Returns the number of the last command: the base number, and the commands of the tail.
    pub fn number(&self) -> u64
        ensures number { result ≡ number_of self.now }
        ensures in_range { result ≤ COMMAND_NUMBER_MAX }
    {
        self.number
    }

    /// Returns how many segments are free: the root names none of them, and none is fresh. Goes through no list.
    pub fn free_count(&self) -> u64
        ensures { result ≡ free_count_of (D.size (disk_of self.now)) (taken_of self.now) }
    {
        let taken = self.root.base.len() + self.root.tail.len() + self.fresh.len();
        segment_count(self.disk.sectors()) - taken as u64
    }

    /// Returns whether the device failed in an earlier call.
    pub fn has_failed(&self) -> bool
        ensures { result ≡ has_failed self.now }
    {
        self.has_failed
    }

    /// Returns the disk, without a call of the device.
    pub fn into_disk(self) -> D
        ensures { result ≡ disk_of self }
    {
        let Log { disk, .. } = self;
        disk
    }
}
