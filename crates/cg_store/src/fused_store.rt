//! Fault injection below a store.
ghost use Rattle.std.specs.Prelude.{◌≡◌, ℕ};
ghost use Rattle.cg_disk.specs.Fuse.{blown_calls, fuse_of, inner_of};
ghost use Rattle.cg_disk.specs.Injected.{SetsOnce};
ghost use Rattle.cg_fold.specs.Durable.{State};

use crate::store::Store;
use cg_disk::{FuseDisk, OnceDisk, SectorDisk};

impl<D: SectorDisk> Store<FuseDisk<D>> {
    ghost use Rattle.cg_store.specs.Store.{StandsAt, disk_of, front_of, has_failed, phase_of, room_of, sectors_of};

    /// Sets how many calls of the disk pass from now on before each fails. Nothing else changes.
    pub fn set_fuse(&mut self, calls: Option<u64>)
        ensures fuse { fuse_of (disk_of self.new) ≡ calls }
        ensures disk { inner_of (disk_of self.new) ≡ inner_of (disk_of self.old) }
        ensures blown { blown_calls (disk_of self.new) ≡ blown_calls (disk_of self.old) }
        ensures room { room_of self.new ≡ room_of self.old }
        ensures same_sectors { sectors_of self.new ≡ sectors_of self.old }
        ensures front { front_of self.new ≡ front_of self.old }
        ensures phase { phase_of self.new ≡ phase_of self.old }
        ensures failed { has_failed self.new ≡ has_failed self.old }
        ensures stands { (n : ℕ) (state : State) → StandsAt (⟦<FuseDisk<D> as SectorDisk>⟧.is_honest) (⟦<FuseDisk<D> as SectorDisk>⟧.history) self.old n state
            → StandsAt (⟦<FuseDisk<D> as SectorDisk>⟧.is_honest) (⟦<FuseDisk<D> as SectorDisk>⟧.history) self.new n state }
    {
        self.log.set_fuse(calls);
    }
}

impl<D: SectorDisk> Store<FuseDisk<OnceDisk<D>>> {
    ghost use Rattle.cg_store.specs.Store.{StandsAt, disk_of, front_of, has_failed, phase_of, room_of, sectors_of};

    /// Sets how many of the calls that the fuse passes pass from now on before one fails. Nothing else changes.
    pub fn set_once(&mut self, calls: Option<u64>)
        ensures once { SetsOnce calls (disk_of self.old) (disk_of self.new) }
        ensures room { room_of self.new ≡ room_of self.old }
        ensures same_sectors { sectors_of self.new ≡ sectors_of self.old }
        ensures front { front_of self.new ≡ front_of self.old }
        ensures phase { phase_of self.new ≡ phase_of self.old }
        ensures failed { has_failed self.new ≡ has_failed self.old }
        ensures stands { (n : ℕ) (state : State) → StandsAt (⟦<FuseDisk<OnceDisk<D>> as SectorDisk>⟧.is_honest) (⟦<FuseDisk<OnceDisk<D>> as SectorDisk>⟧.history) self.old n state
            → StandsAt (⟦<FuseDisk<OnceDisk<D>> as SectorDisk>⟧.is_honest) (⟦<FuseDisk<OnceDisk<D>> as SectorDisk>⟧.history) self.new n state }
    {
        self.log.set_once(calls);
    }
}
