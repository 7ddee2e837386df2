//! Fault injection below a log.
ghost use Rattle.std.specs.Prelude.{◌≡◌, List};
ghost use Rattle.cg_disk.specs.Fuse.{blown_calls, fuse_of, inner_of};
ghost use Rattle.cg_disk.specs.Injected.{SetsOnce};

use crate::log::Log;
use cg_disk::{FuseDisk, OnceDisk, SectorDisk};

impl<D: SectorDisk> Log<FuseDisk<D>> {
    ghost use Rattle.cg_log.specs.Carried.{Content};
    ghost use Rattle.cg_log.specs.Log.{HasFresh, LogHas, disk_of, end_of, fresh_end_of, fresh_of, has_failed, number_of, root_of};
    ghost use Rattle.cg_log.specs.Segments.{Filled};

    /// Sets how many calls of the disk pass from now on before each fails. Nothing else changes.
    pub fn set_fuse(&mut self, calls: Option<u64>)
        ensures fuse { fuse_of (disk_of self.new) ≡ calls }
        ensures disk { inner_of (disk_of self.new) ≡ inner_of (disk_of self.old) }
        ensures blown { blown_calls (disk_of self.new) ≡ blown_calls (disk_of self.old) }
        ensures root { root_of self.new ≡ root_of self.old }
        ensures end { end_of self.new ≡ end_of self.old }
        ensures number { number_of self.new ≡ number_of self.old }
        ensures failed { has_failed self.new ≡ has_failed self.old }
        ensures same_fresh { fresh_of self.new ≡ fresh_of self.old }
        ensures same_fresh_end { fresh_end_of self.new ≡ fresh_end_of self.old }
        ensures fresh { (fresh : List Filled) →
            HasFresh (⟦<FuseDisk<D> as SectorDisk>⟧.is_honest) (⟦<FuseDisk<D> as SectorDisk>⟧.history) self.old fresh →
            HasFresh (⟦<FuseDisk<D> as SectorDisk>⟧.is_honest) (⟦<FuseDisk<D> as SectorDisk>⟧.history) self.new fresh }
        ensures stored { (has : Content) →
            LogHas (⟦<FuseDisk<D> as SectorDisk>⟧.is_honest) (⟦<FuseDisk<D> as SectorDisk>⟧.history) (⟦<FuseDisk<D> as SectorDisk>⟧.size) self.old has →
            LogHas (⟦<FuseDisk<D> as SectorDisk>⟧.is_honest) (⟦<FuseDisk<D> as SectorDisk>⟧.history) (⟦<FuseDisk<D> as SectorDisk>⟧.size) self.new has }
    {
        self.disk.set(calls);
    }
}

impl<D: SectorDisk> Log<FuseDisk<OnceDisk<D>>> {
    ghost use Rattle.cg_log.specs.Carried.{Content};
    ghost use Rattle.cg_log.specs.Log.{HasFresh, LogHas, disk_of, end_of, fresh_end_of, fresh_of, has_failed, number_of, root_of};
    ghost use Rattle.cg_log.specs.Segments.{Filled};

    /// Sets how many of the calls that the fuse passes pass from now on before one fails. Nothing else changes.
    pub fn set_once(&mut self, calls: Option<u64>)
        ensures once { SetsOnce calls (disk_of self.old) (disk_of self.new) }
        ensures root { root_of self.new ≡ root_of self.old }
        ensures end { end_of self.new ≡ end_of self.old }
        ensures number { number_of self.new ≡ number_of self.old }
        ensures failed { has_failed self.new ≡ has_failed self.old }
        ensures same_fresh { fresh_of self.new ≡ fresh_of self.old }
        ensures same_fresh_end { fresh_end_of self.new ≡ fresh_end_of self.old }
        ensures fresh { (fresh : List Filled) →
            HasFresh (⟦<FuseDisk<OnceDisk<D>> as SectorDisk>⟧.is_honest) (⟦<FuseDisk<OnceDisk<D>> as SectorDisk>⟧.history) self.old fresh →
            HasFresh (⟦<FuseDisk<OnceDisk<D>> as SectorDisk>⟧.is_honest) (⟦<FuseDisk<OnceDisk<D>> as SectorDisk>⟧.history) self.new fresh }
        ensures stored { (has : Content) →
            LogHas (⟦<FuseDisk<OnceDisk<D>> as SectorDisk>⟧.is_honest) (⟦<FuseDisk<OnceDisk<D>> as SectorDisk>⟧.history) (⟦<FuseDisk<OnceDisk<D>> as SectorDisk>⟧.size) self.old has →
            LogHas (⟦<FuseDisk<OnceDisk<D>> as SectorDisk>⟧.is_honest) (⟦<FuseDisk<OnceDisk<D>> as SectorDisk>⟧.history) (⟦<FuseDisk<OnceDisk<D>> as SectorDisk>⟧.size) self.new has }
    {
        self.disk.set_once(calls);
    }
}
