//! The store.
ghost use Rattle.std.specs.Prelude.{◌≡◌, ◌≤◌, [], true};
ghost use Rattle.std.specs.Option.{ForSome};
ghost use Rattle.cg_log.specs.Free.{is_among};
ghost use Rattle.cg_log.specs.Log as log_model;
ghost use Rattle.cg_store.specs.Compacting.{cut_in, phase_in};
ghost use Rattle.cg_store.specs.declared.phase.Phase.TheVariants as phase;

use crate::compaction::Compaction;
use cg_disk::SectorDisk;
use cg_log::Log;
use std::alloc::Global;

/// The commands on a disk. In memory the store keeps the root of their log and the size of the disk, but no command.
/// While a compaction is under way, it also keeps the state that is folded, or the part of the snapshot that is not
/// written.
#[derive(Drop)]
pub struct Store<D: SectorDisk> {
    pub(crate) alloc: Global,
    pub(crate) log: Log<D>,
    pub(crate) sectors: u64,
    pub(crate) compaction: Compaction,
    ghost size: { sectors ≡ D.size (log_model.disk_of log) },
    ghost cut: { ForSome (cut_in compaction) (λ cut. (is_among cut.id (log_model.root_of log).tail ≡ true) × (cut.number ≤ log_model.number_of log)) },
    // Only a compaction that writes has fresh segments.
    ghost idle: { phase_in compaction ≡ phase.Idle → log_model.fresh_of log ≡ [] },
    ghost reading: { phase_in compaction ≡ phase.Reading → log_model.fresh_of log ≡ [] },
}

impl<D: SectorDisk> Store<D> {
    ghost use Rattle.cg_store.specs.Store.{disk_of, front_of, has_failed, room_of};

    /// Returns the number of the last command. A batch on which the disk failed does not count.
    pub fn front(&self) -> u64
        ensures { result ≡ front_of self.now }
    {
        self.log.number()
    }

    /// Returns whether the disk failed in an earlier call. Every further append and step of a compaction then reports
    /// `Failed`.
    pub fn has_failed(&self) -> bool
        ensures { result ≡ has_failed self.now }
    {
        self.log.has_failed()
    }

    /// Returns how many segments of the disk are free: the root names none of them, and no compaction has taken one.
    /// Goes through no list.
    pub fn free_count(&self) -> u64
        ensures { result ≡ (room_of self.now).segments }
    {
        self.log.free_count()
    }

    /// Returns the disk, without a disk call.
    pub fn into_disk(self) -> D
        ensures { result ≡ disk_of self }
    {
        self.log.into_disk()
    }
}
