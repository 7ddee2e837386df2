//! The opening of a store.
ghost use Rattle.std.specs.Prelude.{◌≡◌, ◌⊎◌, ℕ, ◌≤◌, true, false, IfOk, IfErr, MatchResult};
ghost use Rattle.cg_disk.specs.Disk.{BeginsWithSync, Counts, Stays, present};
ghost use Rattle.cg_fold.specs.Durable.{State};
ghost use Rattle.cg_log.specs.declared.numbers.TheConstants.{COMMAND_NUMBER_MAX};
ghost use Rattle.cg_store.specs.Carried.{AllCarry, AreMade, Carries};
ghost use Rattle.cg_store.specs.Faults.{Tells, failed_opening};

use crate::compaction::Compaction;
use crate::fault::OpenFault;
use crate::phase::Phase;
use crate::recovery::read_frames;
use crate::store::Store;
use cg_disk::SectorDisk;
use cg_fold::Durable;
use cg_log::Opening;
use std::alloc::Global;

impl<D: SectorDisk> Store<D> {
    ghost use Rattle.cg_store.specs.Store.{StandsAt, disk_after, disk_of, front_of, has_failed, phase_of, sectors_of};

    /// Opens the store on a disk. Returns the store, the number of its commands and the state after them. Syncs the
    /// disk once, writes nothing, and reads each frame once, those of the base first. Reports a fault of a frame before
    /// one of a payload. A fault comes with the disk.
    pub fn open(alloc: Global, disk: D) -> Result<(Self, u64, Durable), (OpenFault, D)>
        // The opened number and state are those on the disk, unless an allocation or the disk fails.
        ensures carried { D.is_honest disk ≡ true → (n : ℕ) (state : State) → Carries (present (D.history disk)).content (D.size disk) n state
            → MatchResult result
            (λ opened. (opened.1 ≡ n) × (opened.2 ≡ state))
            (λ refused. (refused.0 ≡ OpenFault.Memory) ⊎ (refused.0 ≡ OpenFault.Device)) }
        // Whatever the disk gives, the opened state is one that lawful commands make.
        ensures made { IfOk result (λ opened. AreMade opened.2 × (opened.1 ≤ COMMAND_NUMBER_MAX)) }
        ensures stands { D.is_honest disk ≡ true → IfOk result (λ opened. StandsAt D.is_honest D.history opened.0 opened.1 opened.2) }
        ensures images { D.is_honest disk ≡ true → IfOk result (λ opened. AllCarry (D.history (disk_of opened.0)) (D.size disk) opened.1 opened.2) }
        ensures tells { D.is_honest disk ≡ true → IfErr result (λ refused. Tells (present (D.history disk)).content (D.size disk) refused.0) }
        ensures serves { IfOk result (λ opened. (has_failed opened.0 ≡ false) × (front_of opened.0 ≡ opened.1)) }
        ensures sectors { IfOk result (λ opened. sectors_of opened.0 ≡ D.size disk) }
        ensures phase { IfOk result (λ opened. phase_of opened.0 ≡ Phase.Idle) }
        // The first call of the disk is a sync, and no call is a write.
        ensures first { D.is_honest disk ≡ true → BeginsWithSync (D.history disk) (D.history (disk_after result)) (failed_opening result) }
        ensures content { D.is_honest disk ≡ true → Stays (D.history disk) (D.history (disk_after result)) }
        ensures device { Counts (D.failures disk) (D.failures (disk_after result)) (failed_opening result) }
        ensures same_size { D.size (disk_after result) ≡ D.size disk }
        ensures same_honesty { D.is_honest (disk_after result) ≡ D.is_honest disk }
    {
        let sectors = disk.sectors();
        let mut opening = match Opening::begin(alloc, disk) {
            Ok(opening) => opening,
            Err((fault, disk)) => return Err((OpenFault::from(fault), disk)),
        };
        let loading = match read_frames(alloc, &mut opening) {
            Ok(loading) => loading,
            Err(fault) => return Err((fault, opening.into_disk())),
        };
        if !loading.all_read {
            return Err((OpenFault::BadRecord, opening.into_disk()));
        }
        let log = opening.finish();
        let number = log.number();
        let store = Store {
            alloc,
            log,
            sectors,
            compaction: Compaction::Idle,
        };
        Ok((store, number, loading.durable))
    }
}
