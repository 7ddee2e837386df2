//! A loaded disk with pokes that wait for its next crash.
ghost use Rattle.std.specs.Prelude.{◌≡◌, ◌<◌, ◌++◌, ◌∷◌, [], true, OnOk};
ghost use Rattle.cg_disk.specs.Injected.{below_both};
ghost use Rattle.cg_sim.specs.Disk.{sectors_of};
ghost use Rattle.cg_sim.specs.Poking.{are_within, sector_of};
ghost use Rattle.cg_sim.specs.LoadedDisk.{loaded_disk};

use crate::loaded::Loaded;
use crate::poke::Poke;
use crate::poked_disk::PokedDisk;
use cg_desk::Outgoing;
use std::alloc::{AllocError, Global};

/// A loaded disk, and the pokes that are put down after its next crash, in their order.
pub struct Poked {
    loaded: Loaded,
    pokes: Vec<Poke>,
    ghost within: { are_within (sectors_of (loaded_disk loaded)) pokes.items ≡ true },
}

impl Poked {
    ghost use Rattle.cg_sim.specs.Stages.{poked_disk, pokes_waiting, taken_disk, taken_pokes};

    /// Lets no poke wait yet.
    pub fn new(alloc: Global, loaded: Loaded) -> Self
        ensures disk { poked_disk result ≡ loaded_disk loaded }
        ensures pokes { pokes_waiting result ≡ [] }
    {
        Poked {
            loaded,
            pokes: Vec::new(alloc),
        }
    }

    /// Returns the number of sectors of the disk.
    pub fn sectors(&self) -> u64
        ensures { result ≡ sectors_of (poked_disk self.now) }
    {
        self.loaded.sectors()
    }

    /// Lets one more poke wait, unless an allocation fails.
    pub fn add(&mut self, poke: Poke) -> Result<(), AllocError>
        requires { sector_of poke < sectors_of (poked_disk self.old) }
        ensures pokes { OnOk result (pokes_waiting self.new ≡ pokes_waiting self.old ++ poke ∷ []) }
        ensures disk { poked_disk self.new ≡ poked_disk self.old }
    {
        self.pokes.push(poke)?;
        Ok(())
    }

    /// Refuses every pending request. Returns the refusals, and the disk without its fault injections.
    pub fn close(self) -> (Vec<Outgoing>, PokedDisk)
        ensures disk { taken_disk result.1 ≡ below_both (poked_disk self) }
        ensures pokes { taken_pokes result.1 ≡ pokes_waiting self }
    {
        let Poked { loaded, pokes } = self;
        let (refused, disk) = loaded.close();
        (refused, PokedDisk::new(disk, pokes))
    }
}
