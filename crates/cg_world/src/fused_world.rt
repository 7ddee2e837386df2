//! Fault injection in a world under test.
ghost use Rattle.std.specs.Prelude.{◌≡◌, ℕ};
ghost use Rattle.cg_disk.specs.Fuse.{blown_calls, fuse_of, inner_of};
ghost use Rattle.cg_disk.specs.Injected.{SetsOnce};
ghost use Rattle.cg_fold.specs.Durable.{State};
ghost use Rattle.cg_store.specs.Store.{StandsAt, disk_of, sectors_of};

use crate::world::World;
use cg_disk::{FuseDisk, OnceDisk, SectorDisk};

impl<D: SectorDisk> World<FuseDisk<D>> {
    ghost use Rattle.cg_world.specs.Sights.{opening_of, sight, store_of};

    /// Sets how many calls of read, write and sync of the disk pass from now on before each fails. Nothing else changes.
    pub fn set_fuse(&mut self, calls: Option<u64>)
        ensures fuse { fuse_of (disk_of (store_of self.new)) ≡ calls }
        ensures disk { inner_of (disk_of (store_of self.new)) ≡ inner_of (disk_of (store_of self.old)) }
        ensures blown { blown_calls (disk_of (store_of self.new)) ≡ blown_calls (disk_of (store_of self.old)) }
        ensures sight { sight self.new ≡ sight self.old }
        ensures opening { opening_of self.new ≡ opening_of self.old }
        ensures same_sectors { sectors_of (store_of self.new) ≡ sectors_of (store_of self.old) }
        ensures stands { (n : ℕ) (state : State) → StandsAt (⟦<FuseDisk<D> as SectorDisk>⟧.is_honest) (⟦<FuseDisk<D> as SectorDisk>⟧.history) (store_of self.old) n state
            → StandsAt (⟦<FuseDisk<D> as SectorDisk>⟧.is_honest) (⟦<FuseDisk<D> as SectorDisk>⟧.history) (store_of self.new) n state }
    {
        self.store.set_fuse(calls);
    }
}

impl<D: SectorDisk> World<FuseDisk<OnceDisk<D>>> {
    ghost use Rattle.cg_world.specs.Sights.{opening_of, sight, store_of};

    /// Sets how many of the calls that the fuse passes pass from now on before one fails. Nothing else changes.
    pub fn set_once(&mut self, calls: Option<u64>)
        ensures once { SetsOnce calls (disk_of (store_of self.old)) (disk_of (store_of self.new)) }
        ensures sight { sight self.new ≡ sight self.old }
        ensures opening { opening_of self.new ≡ opening_of self.old }
        ensures same_sectors { sectors_of (store_of self.new) ≡ sectors_of (store_of self.old) }
        ensures stands { (n : ℕ) (state : State) → StandsAt (⟦<FuseDisk<OnceDisk<D>> as SectorDisk>⟧.is_honest) (⟦<FuseDisk<OnceDisk<D>> as SectorDisk>⟧.history) (store_of self.old) n state
            → StandsAt (⟦<FuseDisk<OnceDisk<D>> as SectorDisk>⟧.is_honest) (⟦<FuseDisk<OnceDisk<D>> as SectorDisk>⟧.history) (store_of self.new) n state }
    {
        self.store.set_once(calls);
    }
}
