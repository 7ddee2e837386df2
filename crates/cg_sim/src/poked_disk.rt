//! A disk that is taken from a stage, with the pokes that wait for its crash.
ghost use Rattle.std.specs.Prelude.{◌≡◌, [], true, IfErr, OnOk};
ghost use Rattle.cg_disk.specs.Crash.{IsLastSynced};
ghost use Rattle.cg_disk.specs.Disk.{Image};
ghost use Rattle.cg_disk.specs.Mem.{mem_history, mem_size};
ghost use Rattle.cg_sim.specs.Disk.{moment_of};
ghost use Rattle.cg_sim.specs.Poking.{are_within, IsPoked};

use crate::poke::Poke;
use crate::stop::Stop;
use cg_disk::{Crash, MemDisk};
use std::alloc::Global;

/// Disk without its fuse, and the pokes that are put down after its crash, in their order.
#[derive(Drop)]
pub struct PokedDisk {
    disk: MemDisk,
    pokes: Vec<Poke>,
    ghost within: { are_within (mem_size disk) pokes.items ≡ true },
}

impl PokedDisk {
    ghost use Rattle.cg_sim.specs.Stages.{taken_disk, taken_pokes};

    /// Takes a disk for which these pokes wait.
    pub fn new(disk: MemDisk, pokes: Vec<Poke>) -> Self
        requires { are_within (mem_size disk) pokes.items ≡ true }
        ensures disk { taken_disk result ≡ disk }
        ensures pokes { taken_pokes result ≡ pokes.items }
    {
        PokedDisk { disk, pokes }
    }

    /// Takes a disk for which no poke waits.
    pub fn unpoked(alloc: Global, disk: MemDisk) -> Self
        ensures disk { taken_disk result ≡ disk }
        ensures pokes { taken_pokes result ≡ [] }
    {
        PokedDisk {
            disk,
            pokes: Vec::new(alloc),
        }
    }

    /// Returns the disk, without the pokes.
    pub fn into_disk(self) -> MemDisk
        ensures { result ≡ taken_disk self }
    {
        let PokedDisk {
            disk,
            pokes: _pokes,
        } = self;
        disk
    }

    /// Crashes the disk, and then puts the pokes down.
    pub fn crash(self, kind: Crash) -> (MemDisk, Result<(), Stop>)
        ensures size { mem_size result.0 ≡ mem_size (taken_disk self) }
        ensures kept { kind ≡ Crash.Keep → OnOk result.1 (IsPoked (taken_pokes self) (moment_of (taken_disk self)).content (moment_of result.0)) }
        ensures lost { kind ≡ Crash.Lose → OnOk result.1 ((image : Image) × IsLastSynced (mem_history (taken_disk self)) image × IsPoked (taken_pokes self) image (moment_of result.0)) }
        ensures err { IfErr result.1 (λ stop. stop ≡ Stop.Device) }
    {
        let PokedDisk { disk, pokes } = self;
        let mut disk = disk.crash(kind);
        match Poke::put_all(pokes.as_slice(), &mut disk) {
            Ok(()) => (disk, Ok(())),
            Err(_) => (disk, Err(Stop::Device)),
        }
    }
}
