//! A world: opening it on a disk, and closing it.
ghost use Rattle.std.specs.Prelude.{◌≡◌, ◌⊎◌, ℕ, true, IfOk, IfErr, MatchResult};
ghost use Rattle.cg_disk.specs.Disk.{Counts, Stays, present};
ghost use Rattle.cg_fold.specs.Durable.{State};
ghost use Rattle.cg_group_table.specs.Kept.{AreRecords};
ghost use Rattle.cg_group_table.specs.Recovery.{revive};
ghost use Rattle.cg_store.specs.Carried.{Carries};
ghost use Rattle.cg_store.specs.Faults.{Tells, failed_opening};
ghost use Rattle.cg_store.specs.Store.{disk_of, front_of, has_failed, sectors_of};
ghost use Rattle.cg_desk.specs.Desks.{failing_on, opened, state_of};
ghost use Rattle.cg_desk.specs.Desks as state;
ghost use Rattle.cg_world.specs.Agreeing.{Agree};
ghost use Rattle.cg_world.specs.Orderly.{IsOrderlyAt};

use crate::transit::Transit;
use cg_desk::{Desk, Outgoing};
use cg_disk::SectorDisk;
use cg_fold::Durable;
use cg_names::Moment;
use cg_store::{OpenFault, Store};
use std::alloc::{AllocError, Global};

/// A desk, the store of its commands, and the batch on its way between them.
pub struct World<D: SectorDisk> {
    pub(crate) alloc: Global,
    pub(crate) desk: Desk,
    pub(crate) store: Store<D>,
    pub(crate) transit: Transit,
    pub(crate) opening: (u64, u64, u64),
    // Whatever the disk gives, each pending request has its token, and the replies wait in order.
    ghost orderly: { ∥ IsOrderlyAt (state_of desk) ∥₁ },
    ghost agree: { Agree (state_of desk) transit (front_of store) (has_failed store) },
}

// Makes a desk that serves what was loaded.
fn serve(alloc: Global, number: u64, durable: Durable, now: Moment) -> Result<Desk, AllocError>
    requires { AreRecords durable }
    ensures { IfOk result (λ desk. state_of desk ≡ state.Serving (opened number (revive durable now))) }
{
    let mut desk = Desk::loading(alloc)?;
    match desk.loaded(number, durable, now) {
        Ok(()) => Ok(desk),
        Err((error, _durable)) => {
            let _ = desk.close();
            Err(error)
        }
    }
}

impl<D: SectorDisk> World<D> {
    ghost use Rattle.cg_world.specs.Opening.{IsOpened, disk_after};
    ghost use Rattle.cg_world.specs.Replying.{IsOrderly};
    ghost use Rattle.cg_world.specs.Sights.{opening_of, sight, store_of};

    /// Opens the store of a disk and serves its groups from the moment `now`, which counts as the last heartbeat of
    /// every member (KIP-62). Changes no content of the disk, and reads each frame of the log once. After an error,
    /// returns the disk.
    pub fn open(alloc: Global, disk: D, now: Moment) -> Result<Self, (OpenFault, D)>
        ensures opened { IfOk result (λ world. (n : ℕ) × (state : State) × IsOpened D.is_honest D.history now world n state) }
        // Whatever the disk gives, each pending request has its token, and the replies wait in order.
        ensures orderly { IfOk result (λ world. IsOrderly (sight world)) }
        // If the content carries a pair, the world serves that pair, unless an allocation or the disk fails.
        ensures carried { D.is_honest disk ≡ true → (n : ℕ) (state : State) → Carries (present (D.history disk)).content (D.size disk) n state
            → MatchResult result
            (λ world. IsOpened D.is_honest D.history now world n state)
            (λ refused. (refused.0 ≡ OpenFault.Memory) ⊎ (refused.0 ≡ OpenFault.Device)) }
        ensures tells { D.is_honest disk ≡ true → IfErr result (λ refused. Tells (present (D.history disk)).content (D.size disk) refused.0) }
        ensures sectors { IfOk result (λ world. sectors_of (store_of world) ≡ D.size disk) }
        ensures content { D.is_honest disk ≡ true → Stays (D.history disk) (D.history (disk_after result)) }
        ensures device { Counts (D.failures disk) (D.failures (disk_after result)) (failed_opening result) }
        ensures same_size { D.size (disk_after result) ≡ D.size disk }
        ensures same_honesty { D.is_honest (disk_after result) ≡ D.is_honest disk }
    {
        let (store, number, durable) = match Store::open(alloc, disk) {
            Ok(found) => found,
            Err(refused) => return Err(refused),
        };
        let (records, offsets) = durable.counts();
        let Ok(desk) = serve(alloc, number, durable, now) else {
            return Err((OpenFault::Memory, store.into_disk()));
        };
        Ok(World {
            alloc,
            desk,
            store,
            transit: Transit::Empty,
            opening: (number, records, offsets),
        })
    }

    /// Returns the numbers of commands, group records and offsets that the opening found. Does not allocate.
    pub fn opening(&self) -> (u64, u64, u64)
        ensures { result ≡ opening_of self.now }
    {
        self.opening
    }

    /// Ends the world: refuses every pending request, and returns the disk unchanged. Does not allocate.
    pub fn close(self) -> (Vec<Outgoing>, D)
        ensures out { result.0.items ≡ failing_on (sight self).desk }
        ensures disk { result.1 ≡ disk_of (store_of self) }
    {
        let World {
            alloc: _alloc,
            desk,
            store,
            transit: _transit,
            opening: _opening,
        } = self;
        (desk.close(), store.into_disk())
    }
}
